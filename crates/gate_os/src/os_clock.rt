// The system's clock.
ghost use Rattle.std.specs.Prelude.{◌≡◌, ◌+◌, ◌-◌, ◌==◌, true, false, if◌then◌else◌};
ghost use Rattle.gate_io.specs.Clocks.{Waits};
ghost use Rattle.gate_io.specs.declared.tick_clock.TickNext.{TickNext};
ghost use Rattle.gate_os.specs.Edges.{TicksState, age_of, left_of, nanos_of};

use crate::reading::Reading;
use crate::times::left_to;
use gate_io::{TickClock, TickNext};
use std::marker::Model;
use std::thread;
use std::time::{Clock, Duration};

/// A fixed number of ticks of the system's clock, one each 20 ms from its start on, and then the end.
///
/// Each tick has its time counted from the start, so that late ones do not add up: a tick whose time has passed comes
/// at once. Where the clock cannot be read, a tick comes 20 ms after its call.
#[derive(Drop)]
pub struct OsClock<'a, R: Clock> {
    rt: &'a R,
    begun: Reading,
    ticks: u64,
    given: u64,
    ended: bool,
    // What the last tick read, and how long it then slept.
    read: Reading,
    slept: Duration,
}

impl<'a, R: Clock> Model for OsClock<'a, R> {
    ghost use Rattle.std.specs.Prelude.{◌-◌, ◌≤◌};
    ghost use Rattle.std.specs.Duration.{as_nanos};
    ghost use Rattle.gate_os.specs.Edges.{TicksState, nanos_of};

    ghost Value = { TicksState };

    ghost view = { λ c. record { ticks = c.given; left = c.ticks - c.given; ended = c.ended; begun = nanos_of c.begun; read = nanos_of c.read; slept = as_nanos c.slept } };

    ghost invariant = { λ c. c.given ≤ c.ticks };
}

impl<'a, R: Clock + Sync> OsClock<'a, R> {
    /// A clock that is to give this many ticks. Its first tick is due 20 ms from now.
    pub fn new(rt: &'a R, ticks: u64) -> Self
        ensures { result ≡ record { ticks = 0; left = ticks; ended = false; begun = result.begun; read = result.begun; slept = 0 } }
    {
        OsClock::starting(rt, Reading::now(rt), ticks)
    }
}

impl<'a, R: Clock> OsClock<'a, R> {
    /// A clock that is to give this many ticks, the first of them 20 ms after this reading.
    pub fn starting(rt: &'a R, start: Reading, ticks: u64) -> Self
        ensures { result ≡ record { ticks = 0; left = ticks; ended = false; begun = nanos_of start; read = nanos_of start; slept = 0 } }
    {
        OsClock {
            rt,
            begun: start,
            ticks,
            given: 0,
            ended: false,
            read: start,
            slept: Duration::ZERO,
        }
    }
}

impl<'a, R: Clock> TickClock for OsClock<'a, R> {
    ghost ticks = { λ c. c.ticks };

    ghost ended = { λ c. c.ended };

    /// Waits for the time of the next tick where one is left. It has ended exactly where none is.
    fn wait(&mut self) -> TickNext
        ensures waits { Waits self.old.ticks self.new.ticks self.old.ended self.new.ended result }

        ensures answer { result ≡ (if self.old.left == 0 then TickNext.Ended else TickNext.Tick) }
        ensures state { self.new ≡ (if self.old.left == 0 then record self.old { ended = true } else record self.old { ticks = self.old.ticks + 1; left = self.old.left - 1; read = self.new.read; slept = self.new.slept }) }
        ensures sleeps { result ≡ TickNext.Tick → self.new.slept ≡ left_of self.new.ticks (age_of self.new.begun self.new.read) }
    {
        if self.given == self.ticks {
            self.ended = true;
            return TickNext::Ended;
        }
        self.given += 1;
        self.read = Reading::now(self.rt);
        self.slept = left_to(self.given, self.read.since(self.begun));
        thread::sleep(self.rt, self.slept);
        TickNext::Tick
    }
}

#[cfg(test)]
mod tests {
    use super::*;
    use crate::hand_clock::HandClock;
    use std::test::Fail;
    use std::time::Instant;

    fn is_send<T: Send>(_: &T) {}

    #[test]
    fn gives_its_ticks_20_ms_apart(rt: HostRuntime) -> Result<(), Fail> {
        let begun = Instant::now(&rt)?;
        let mut clock = OsClock::new(&rt, 5);
        is_send(&clock);
        for _ in 0..5 {
            assert_eq!(rt; clock.wait(), TickNext::Tick);
        }
        assert!(rt; begun.elapsed(&rt)? >= Duration::from_millis(100));
        assert_eq!(rt; clock.wait(), TickNext::Ended);
        assert_eq!(rt; clock.wait(), TickNext::Ended);
        Ok(())
    }

    // How much later it is by a hand clock behind the next tick, in milliseconds.
    fn tick_takes(clock: &mut OsClock<'_, HandClock>, hand: &HandClock) -> Option<u128> {
        let before = hand.now();
        match clock.wait() {
            TickNext::Tick => Some(hand.now().saturating_sub(before).as_millis()),
            TickNext::Ended => None,
        }
    }

    #[test]
    fn behind_a_late_tick_the_next_ones_come_at_once(rt: HostRuntime) {
        let hand = HandClock::new();
        let mut clock = OsClock::starting(&hand, Reading::now(&hand), 6);
        assert_eq!(rt; tick_takes(&mut clock, &hand), Some(20));
        hand.pass(Duration::from_millis(65));
        for millis in [0, 0, 0, 15, 20] {
            assert_eq!(rt; tick_takes(&mut clock, &hand), Some(millis));
        }
        assert_eq!(rt; tick_takes(&mut clock, &hand), None);
    }

    #[test]
    fn where_the_clock_cannot_be_read_a_tick_takes_20_ms(rt: HostRuntime) {
        let hand = HandClock::new();
        let mut clock = OsClock::starting(&hand, Reading::now(&hand), 3);
        hand.fail();
        for _ in 0..3 {
            assert_eq!(rt; tick_takes(&mut clock, &hand), Some(20));
        }
    }
}
