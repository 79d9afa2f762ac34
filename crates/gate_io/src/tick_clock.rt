// Ticks.
ghost use Rattle.std.specs.Prelude.{ℕ, Bool};
ghost use Rattle.gate_io.specs.Clocks.{Waits};

/// What a clock has answered.
#[derive(Clone, Copy, Debug, PartialEq, Eq)]
pub enum TickNext {
    /// A tick, of 20 ms.
    Tick,
    /// No more ticks come.
    Ended,
}

/// Ticks that come. A clock has no fault.
pub trait TickClock {
    /// How many ticks it gave.
    ghost ticks: { Self → ℕ };

    /// Whether it has answered that it ended. A new clock has not.
    ghost ended: { Self → Bool };

    /// Waits for the next tick.
    fn wait(&mut self) -> TickNext
        ensures waits { Waits (ticks self.old) (ticks self.new) (ended self.old) (ended self.new) result };
}
