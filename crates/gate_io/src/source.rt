// Where octets come from.
ghost use Rattle.std.specs.Prelude.{ℕ, List, Option};
ghost use Rattle.std.specs.Io.{ReadsAtMost};
ghost use Rattle.std.specs.Io.KnownBytes.{ReadConsumes};
ghost use Rattle.gate_base.specs.Faults.{HasCause};

use crate::failed::Failed;

/// Octets that come in, as from a file or a terminal.
pub trait Source {
    /// The octets that are still to come, where the source tells them.
    ghost left: { Self → Option (List ℕ) };

    /// How often a call has failed. It never falls.
    ghost faults: { Self → ℕ };

    /// Takes the next octets into the beginning of the piece, and answers how many came.
    ///
    /// None for a piece that is not empty is the end of the input. A call that fails leaves what is to come
    /// as it was.
    fn take(&mut self, into: &mut [u8]) -> Result<usize, Failed>
        ensures within { ReadsAtMost result into.new }
        ensures taken { ReadConsumes (left self.old) (left self.new) result into.new }
        ensures cause { HasCause (faults self.old) (faults self.new) result };
}
