// Times of ticks, how long a link lasts and waits, and moments of datagrams.
ghost use Rattle.std.specs.Prelude.{◌≡◌, nat_le, option_map};
ghost use Rattle.std.specs.Duration.{as_nanos};
ghost use Rattle.gate_os.specs.Edges.{lasting, left_of, millis, moment_at, ticks_time};

use std::time::Duration;

// In milliseconds: one tick, what passes after the last one until a link ends, and the longest wait for a datagram.
const TICK: u64 = 20;

const AFTER: u64 = 1000;

const PATIENCE: u64 = 5;

/// The time of this many ticks.
pub(crate) fn time_of(ticks: u64) -> Duration
    ensures { as_nanos result ≡ ticks_time ticks }
{
    Duration::from_millis(ticks.saturating_mul(TICK))
}

/// What is left to the time of a tick, counted from 1, where so much has passed: nothing where it is over. Where it is not
/// known what has passed, that is one tick.
pub(crate) fn left_to(tick: u64, passed: Option<Duration>) -> Duration
    ensures { as_nanos result ≡ left_of tick (option_map as_nanos passed) }
{
    match passed {
        Some(passed) => time_of(tick).saturating_sub(passed),
        None => time_of(1),
    }
}

/// How long a link lasts that is to be there a second longer than this many ticks.
pub(crate) fn life_of(ticks: u64) -> Duration
    ensures { as_nanos result ≡ lasting ticks }
{
    Duration::from_millis(ticks.saturating_mul(TICK).saturating_add(AFTER))
}

/// Whether a life that lasts so long is over at an age, where that is known.
pub(crate) fn is_past(lasts: Duration, age: Option<Duration>) -> Option<bool>
    ensures { result ≡ option_map (nat_le (as_nanos lasts)) (option_map as_nanos age) }
{
    match age {
        Some(age) => Some(lasts.as_nanos() <= age.as_nanos()),
        None => None,
    }
}

/// The longest wait for a datagram.
pub(crate) fn patience() -> Duration
    ensures { as_nanos result ≡ millis 5 }
{
    Duration::from_millis(PATIENCE)
}

/// A time in 8000ths of a second, modulo 2^32, as RTP counts it for speech (RFC 3551).
pub(crate) fn moment_of(passed: Duration) -> u32
    ensures { result ≡ moment_at (as_nanos passed) }
{
    (passed.as_micros() / 125 % 4_294_967_296) as u32
}

#[cfg(test)]
mod tests {
    use super::*;

    #[test]
    fn moments_wrap(rt: HostRuntime) {
        assert_eq!(rt; moment_of(Duration::from_micros(249)), 1);
        assert_eq!(rt; moment_of(Duration::from_secs(1)), 8000);
        assert_eq!(rt; moment_of(Duration::from_micros(536_870_912_125)), 1);
    }
}
