// Where octets go.
ghost use Rattle.std.specs.Prelude.{ℕ, List, Option};
ghost use Rattle.gate_base.specs.Faults.{HasCause};
ghost use Rattle.gate_io.specs.Flow.{Gives};

use crate::failed::Failed;

/// Octets that go out, as to a file or a terminal.
pub trait Sink {
    /// The octets that were given, where the sink tells them.
    ghost given: { Self → Option (List ℕ) };

    /// How often a call has failed. It never falls.
    ghost faults: { Self → ℕ };

    /// What a later state of the sink has in common with an earlier one.
    ghost kin: { Self → Self → Type 0 };

    /// Gives all of the octets. A call that fails has given a prefix of them.
    fn give(&mut self, from: &[u8]) -> Result<(), Failed>
        ensures given { Gives (given self.old) (given self.new) result from.now }
        ensures cause { HasCause (faults self.old) (faults self.new) result }
        ensures kin { kin self.old self.new };

    ghost kin_same: { (s : Self) → kin s s };

    ghost kin_after: { (a b c : Self) → kin a b → kin b c → kin a c };
}
