// A clock in memory.
ghost use Rattle.std.specs.Prelude.{◌≡◌, ◌+◌, ◌-◌, ◌==◌, true, false, ◌^◌, ◌<◌, if◌then◌else◌};
ghost use Rattle.gate_io.specs.Clocks.{Waits, ClockState};
ghost use Rattle.gate_io.specs.declared.tick_clock.TickNext.{TickNext};

use crate::tick_clock::{TickClock, TickNext};
use std::marker::Model;

/// Gives a fixed number of ticks at once, and then has ended.
#[derive(Clone, Copy, Debug)]
pub struct MemoryClock {
    ticks: u64,
    given: u64,
    ended: bool,
}

impl Model for MemoryClock {
    ghost use Rattle.std.specs.Prelude.{◌-◌, ◌+◌, ◌≤◌};
    ghost use Rattle.gate_io.specs.Clocks.{ClockState};

    ghost Value = { ClockState };

    ghost view = { λ c. record { ticks = c.given; left = c.ticks - c.given; ended = c.ended } };

    ghost invariant = { λ c. c.given ≤ c.ticks };

    ghost inverse = { λ s. record { ticks = s.ticks + s.left; given = s.ticks; ended = s.ended } };
}

impl MemoryClock {
    /// A clock that is to give this many ticks.
    pub fn new(ticks: u64) -> Self
        ensures { result ≡ record { ticks = 0; left = ticks; ended = false } }
    {
        MemoryClock {
            ticks,
            given: 0,
            ended: false,
        }
    }
}

impl TickClock for MemoryClock {
    ghost ticks = { λ c. c.ticks };

    ghost ended = { λ c. c.ended };

    /// A tick where one is left. It has ended exactly where none is.
    fn wait(&mut self) -> TickNext
        ensures waits { Waits self.old.ticks self.new.ticks self.old.ended self.new.ended result }

        ensures answer { result ≡ (if self.old.left == 0 then TickNext.Ended else TickNext.Tick) }
        ensures state { self.new ≡ (if self.old.left == 0 then record self.old { ended = true } else record self.old { ticks = self.old.ticks + 1; left = self.old.left - 1 }) }
    {
        if self.given == self.ticks {
            self.ended = true;
            return TickNext::Ended;
        }
        self.given += 1;
        TickNext::Tick
    }
}
