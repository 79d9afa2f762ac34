// Timestamps of 32 bits that wrap, as frame numbers that do not.
ghost use Rattle.std.specs.Prelude.{◌≡◌, ◌≤◌, ◌<◌, ◌-◌, ◌+◌, ◌^◌, pos};
ghost use Rattle.unwrap_ts.specs.FrameNumber.{extended, first_number, frame_number, fresh, IsUnwrap};

use std::marker::Model;

/// How many timestamps there are.
const WRAP: i64 = 1 << 32;

/// How many samples, of 8 kHz, a frame has.
const SAMPLES: i64 = 160;

/// The frame number of the base where there is no delay.
const START: i64 = 1 << 32;

/// Unwraps the timestamps of one source (RFC 3550 section 5.1) about the last one that was accepted.
#[derive(Clone, Copy, Debug)]
pub struct Unwrapper {
    base: u32,
    delay: u32,
    reference: i64,
}

impl Model for Unwrapper {
    ghost use Rattle.unwrap_ts.specs.FrameNumber.{Unwrap, IsUnwrap};

    ghost Value = { Unwrap };

    ghost view = { λ u. record { base = u.base; delay = u.delay; reference = u.reference } };

    ghost invariant = { λ u. IsUnwrap (record { base = u.base; delay = u.delay; reference = u.reference }) };

    ghost inverse = { λ v. record { base = v.base; delay = v.delay; reference = v.reference } };
}

impl Unwrapper {
    /// Counts from the timestamp `base`, and `delay` frames later. The reference is the base.
    pub fn new(base: u32, delay: u32) -> Self
        requires { delay ≤ 1023 }
        ensures { result ≡ fresh base delay }
    {
        Unwrapper {
            base,
            delay,
            reference: 0,
        }
    }

    fn extended(&self, ts: u32) -> i64
        ensures value { result ≡ extended self.now ts }
        ensures kept { IsUnwrap self.now }
    {
        let difference = i64::from(ts) - i64::from(self.base) - self.reference;
        self.reference + (difference + WRAP / 2).rem_euclid(WRAP) - WRAP / 2
    }

    /// The number of the first frame of a packet with this timestamp, in ticks of 20 ms.
    pub fn number(&self, ts: u32) -> u64
        ensures number { pos result ≡ first_number self.now ts }
        ensures value { result ≡ frame_number self.now ts }
        ensures low { 0 < result }
        ensures high { result < 2 ^ 34 }
    {
        (START + i64::from(self.delay) + self.extended(ts).div_euclid(SAMPLES)) as u64
    }

    /// A frame of a packet with this timestamp was accepted: the reference is moved there.
    pub fn accepted(&mut self, ts: u32)
        requires low { 2 ^ 32 - 16 ≤ frame_number self.old ts }
        requires high { frame_number self.old ts < 2 ^ 33 + 2048 }
        ensures { self.new ≡ record self.old { reference = extended self.old ts } }
    {
        self.reference = self.extended(ts);
    }
}
