// The life of a link.
ghost use Rattle.std.specs.Prelude.{◌≡◌, option_map};
ghost use Rattle.gate_os.specs.Edges.{LifeState, age_of, is_over, lasting, moment_at, nanos_of};

use crate::reading::Reading;
use crate::times::{is_past, life_of, moment_of};
use std::marker::Model;
use std::time::{Clock, Duration};

/// When a link began and how long it is there, when it was last asked for a datagram, and when it last had one.
#[derive(Drop)]
pub(crate) struct Life {
    begun: Reading,
    lasts: Duration,
    asked: Reading,
    heard: Reading,
}

impl Model for Life {
    ghost use Rattle.std.specs.Duration.{as_nanos};
    ghost use Rattle.gate_os.specs.Edges.{LifeState, nanos_of};

    ghost Value = { LifeState };

    ghost view = { λ l. record { begun = nanos_of l.begun; lasts = as_nanos l.lasts; asked = nanos_of l.asked; heard = nanos_of l.heard } };
}

impl Life {
    /// A life that begins now, and is a second longer than this many ticks.
    pub(crate) fn new<R: Clock>(rt: &R, ticks: u64) -> Self
        ensures { result.lasts ≡ lasting ticks }
    {
        let now = Reading::now(rt);
        Life {
            begun: now,
            lasts: life_of(ticks),
            asked: now,
            heard: now,
        }
    }

    /// Lets it begin at this reading.
    pub(crate) fn begin(&mut self, start: Reading)
        ensures { self.new ≡ record self.old { begun = nanos_of start } }
    {
        self.begun = start;
    }

    /// Whether it is over now, where the clock can be read.
    pub(crate) fn ask<R: Clock>(&mut self, rt: &R) -> Option<bool>
        ensures over { result ≡ is_over self.new }
        ensures state { self.new ≡ record self.old { asked = self.new.asked } }
    {
        self.asked = Reading::now(rt);
        is_past(self.lasts, self.asked.since(self.begun))
    }

    /// The moment of a datagram that has come now, where the clock can be read.
    pub(crate) fn hear<R: Clock>(&mut self, rt: &R) -> Option<u32>
        ensures moment { result ≡ option_map moment_at (age_of self.new.begun self.new.heard) }
        ensures state { self.new ≡ record self.old { heard = self.new.heard } }
    {
        self.heard = Reading::now(rt);
        match self.heard.since(self.begun) {
            Some(age) => Some(moment_of(age)),
            None => None,
        }
    }
}
