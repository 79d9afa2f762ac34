// How often the calls of an object have failed.
ghost use Rattle.std.specs.Prelude.{◌≡◌, ◌+◌, ◌-◌, ◌^◌, ◌≤◌, min};
ghost use Rattle.gate_base.specs.Faults.{Rose};

use std::marker::Model;

/// A count of faults, seen as that number. It never falls, and stands still at 2^64 - 1.
#[derive(Clone, Copy, Debug, PartialEq, Eq)]
pub struct FaultCount {
    count: u64,
}

impl Model for FaultCount {
    ghost use Rattle.std.specs.Prelude.{ℕ, ◌<◌, ◌^◌};

    ghost Value = { ℕ };

    ghost view = { λ c. c.count };

    ghost invariant = { λ c. c.count < 2 ^ 64 };

    ghost inverse = { λ n. record { count = n } };
}

impl FaultCount {
    /// No fault so far.
    pub fn new() -> Self
        ensures { result ≡ 0 }
    {
        FaultCount { count: 0 }
    }

    /// One fault more.
    pub fn raise(&mut self)
        ensures count { self.new ≡ min (self.old + 1) (2 ^ 64 - 1) }
        ensures rose { Rose self.old self.new }
        ensures later { self.old ≤ self.new }
    {
        self.count = self.count.saturating_add(1);
    }
}

#[cfg(test)]
mod tests {
    use super::*;

    #[test]
    fn each_fault_counts_once(rt: HostRuntime) {
        let mut faults = FaultCount::new();
        faults.raise();
        faults.raise();
        let mut twice = FaultCount::new();
        assert!(rt; faults != twice);
        twice.raise();
        twice.raise();
        assert!(rt; faults == twice);
    }
}
