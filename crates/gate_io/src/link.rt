// Where datagrams come from and go.
ghost use Rattle.std.specs.Prelude.{◌≡◌, ℕ, Bool, Option, IfOk};
ghost use Rattle.gate_base.specs.Faults.{HasCause};
ghost use Rattle.gate_io.specs.Links.{LinkLog, Receives, Sends, IsWithin, Ends};

use crate::failed::Failed;
use crate::received::Received;

/// Datagrams that come and go, as over a socket.
pub trait Link {
    /// What came and was sent, where the link tells it.
    ghost log: { Self → Option LinkLog };

    /// Whether it has answered that it ended. A new link has not.
    ghost ended: { Self → Bool };

    /// How often a call has failed. It never falls.
    ghost faults: { Self → ℕ };

    /// Takes the next datagram into the beginning of the piece, or answers that there is none. A longer one than 2048
    /// octets is cut. It may wait.
    fn receive(&mut self, into: &mut [u8; 2048]) -> Result<Received, Failed>
        ensures within { IfOk result (IsWithin 2048) }
        ensures received { Receives (log self.old) (log self.new) result into.new }
        ensures ends { Ends (ended self.old) (ended self.new) result }
        ensures cause { HasCause (faults self.old) (faults self.new) result };

    /// Sends a datagram. Where the call fails it was sent or not.
    fn send(&mut self, from: &[u8]) -> Result<(), Failed>
        ensures sent { Sends (log self.old) (log self.new) result from.now }
        ensures stays { ended self.new ≡ ended self.old }
        ensures cause { HasCause (faults self.old) (faults self.new) result };
}
