// Downscaling, offset compensation and preemphasis of samples: GSM 06.10 sections 5.2.1 to 5.2.3.
ghost use Rattle.std.specs.Prelude.{◌≡◌, ℕ, ◌≤◌, ◌<◌, ◌^◌, unsigned_abs};
ghost use Rattle.fixed_arith.specs.Signal.{at};
ghost use Rattle.fr_encoder.specs.Preprocessing.{Offset, at_rest, offset_word, kept_long, middle_long, emphasised, next_offset, offset_after, preprocessed};

use fixed_arith::{clip16, long_add, mult_r};
use std::marker::Model;

/// The values at the last sample: the downscaled sample, the long word that the compensation keeps, and that over 2^15.
#[derive(Drop)]
pub struct Preprocessing {
    so: i32,
    z: i32,
    mp: i32,
}

impl Model for Preprocessing {
    ghost use Rattle.std.specs.Prelude.{◌≤◌, ◌^◌, unsigned_abs};
    ghost use Rattle.fr_encoder.specs.Preprocessing.{Offset};

    ghost Value = { Offset };

    ghost view = { λ c. record { so = c.so; z = c.z; mp = c.mp } };

    ghost invariant = { λ c. (unsigned_abs c.so ≤ 2 ^ 14) × (unsigned_abs c.mp ≤ 2 ^ 16) };
}

impl Preprocessing {
    /// The values before any sample.
    pub fn new() -> Self
        ensures { result ≡ at_rest }
    {
        Preprocessing { so: 0, z: 0, mp: 0 }
    }

    /// Preprocesses the samples of a piece in place.
    pub fn run(&mut self, samples: &mut [i16; 160])
        ensures last { self.new ≡ offset_after self.old samples.old 160 }
        ensures output { (k : ℕ) → k < 160 → at samples.new k ≡ preprocessed self.old samples.old k }
    {
        for sample in samples.iter_mut() {
            *sample = self.step(*sample);
        }
    }

    /// One sample.
    #[inline]
    fn step(&mut self, x: i16) -> i16
        ensures next { self.new ≡ next_offset self.old x }
        ensures output { result ≡ emphasised self.new.mp self.old.mp }
    {
        let so = downscale(x);
        let z = keep(self.z, so - self.so);
        let mp = middle(z);
        let y = emphasise(mp, self.mp);
        self.so = so;
        self.z = z;
        self.mp = mp;
        y
    }
}

/// A sample without its three lowest bits, halved.
#[inline]
#[tactic(auto, unfolding(crate::specs::Preprocessing::offset_word))]
fn downscale(x: i16) -> i32
    ensures value { result ≡ offset_word x }
    ensures small { unsigned_abs result ≤ 2 ^ 14 }
{
    (x as i32 >> 3) * 4
}

/// The long word that is kept, from the one before and a difference.
#[inline]
#[tactic(auto, unfolding(crate::specs::Preprocessing::kept_long))]
fn keep(z: i32, s: i32) -> i32
    requires { unsigned_abs s ≤ 2 ^ 15 }
    ensures { result ≡ kept_long z s }
{
    let high = z >> 15;
    let low = (z - high * 32768) as i16;
    long_add(high * 32735, s * 32768 + mult_r(low, 32735) as i32)
}

/// The long word over 2^15, rounded.
#[inline]
#[tactic(auto, unfolding(crate::specs::Preprocessing::middle_long))]
fn middle(z: i32) -> i32
    ensures value { result ≡ middle_long z }
    ensures small { unsigned_abs result ≤ 2 ^ 16 }
{
    long_add(z, 16384) >> 15
}

/// A value less a part of the one before.
#[inline]
#[tactic(auto, unfolding(crate::specs::Preprocessing::emphasised))]
fn emphasise(mp: i32, before: i32) -> i16
    requires now { unsigned_abs mp ≤ 2 ^ 16 }
    requires before { unsigned_abs before ≤ 2 ^ 16 }
    ensures { result ≡ emphasised mp before }
{
    clip16(mp + ((before * -28180 + 16384) >> 15))
}
