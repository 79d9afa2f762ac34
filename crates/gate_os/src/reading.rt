// Readings of the system's clock.
ghost use Rattle.std.specs.Prelude.{◌≡◌, option_map};
ghost use Rattle.std.specs.Duration.{as_nanos};
ghost use Rattle.gate_os.specs.Edges.{age_of, nanos_of};

use std::time::{Clock, Duration, Instant};

/// What the system's clock said, or that it could not be read.
#[derive(Clone, Copy)]
pub struct Reading {
    at: Option<Instant>,
}

impl Reading {
    /// What the clock says now.
    pub fn now<R: Clock>(rt: &R) -> Self {
        Reading {
            at: Instant::now(rt).ok(),
        }
    }

    /// The time from an earlier reading to this one, where the clock could be read both times. It is nothing where the
    /// other one is later.
    pub(crate) fn since(self, start: Reading) -> Option<Duration>
        ensures { option_map as_nanos result ≡ age_of (nanos_of start) (nanos_of self) }
    {
        match (self.at, start.at) {
            (Some(now), Some(start)) => Some(now.duration_since(start)),
            _ => None,
        }
    }
}
