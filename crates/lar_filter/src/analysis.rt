// The short-term analysis filter: GSM 06.10 section 5.2.10.
ghost use Rattle.std.specs.Prelude.{◌≡◌, pos, replicate};
ghost use Rattle.fixed_arith.specs.Word.{add_words, mult_r_words};
ghost use Rattle.lar_filter.specs.Parts.{ExtendsByFrame};
ghost use Rattle.lar_filter.specs.Runs.{Extends, Runs, inputs_of};
ghost use Rattle.lar_filter.specs.Rising.{RisesTo};
ghost use Rattle.lar_filter.specs.RisingTrace.{RisesOver};

use crate::coefficients::{FIRST, SECOND, THIRD, part_coefficients};
use fixed_arith::{add, mult_r};
use std::marker::Model;

/// A lattice of eight stages, seen as its values w(0) to w(7) at the last sample, at first 0.
#[derive(Drop)]
pub struct Analysis {
    u: [i16; 8],
}

impl Model for Analysis {
    ghost use Rattle.std.specs.Prelude.{ℤ, List};

    ghost Value = { List ℤ };

    ghost view = { λ f. f.u };
}

impl Analysis {
    /// A filter at rest.
    pub fn new() -> Self
        ensures { result ≡ replicate 8 (pos 0) }
    {
        Analysis { u: [0; 8] }
    }

    /// Filters samples in place, with the reflection coefficients rp(1) to rp(8).
    pub fn run(&mut self, rp: &[i16; 8], samples: &mut [i16])
        ensures run { Runs RisesTo self.old (inputs_of rp.now samples.old) samples.new self.new }

        // The calls before and this one are one run.
        ensures goes_on { Extends RisesTo (Runs RisesTo) self.old (inputs_of rp.now samples.old) samples.new self.new }

        // What went through, call after call, solves the equations in two indices.
        ensures equations { Extends RisesTo RisesOver self.old (inputs_of rp.now samples.old) samples.new self.new }
    {
        let mut u = self.u;
        for sample in samples.iter_mut() {
            *sample = step(rp, &mut u, *sample);
        }
        self.u = u;
    }

    /// Filters the samples of a frame in place, in its four parts, from the ratios of the frame before and of this one.
    pub fn run_frame(&mut self, before: &[i16; 8], now: &[i16; 8], samples: &mut [i16; 160])

        // The calls before and this one are one run, which solves the equations in two indices.
        ensures goes_on { ExtendsByFrame RisesTo RisesOver before.now now.now samples.old self.old samples.new self.new }
    {
        let (first, rest) = samples.split_at_mut(FIRST);
        let (second, rest) = rest.split_at_mut(SECOND);
        let (third, fourth) = rest.split_at_mut(THIRD);
        self.run(&part_coefficients(before, now, 0), first);
        self.run(&part_coefficients(before, now, 1), second);
        self.run(&part_coefficients(before, now, 2), third);
        self.run(&part_coefficients(before, now, 3), fourth);
    }
}

/// One sample through the stages.
#[inline]
fn step(rp: &[i16; 8], u: &mut [i16; 8], x: i16) -> i16
    ensures { RisesTo rp.now u.old x result u.new }
{
    let mut d = x;
    let mut w = x;
    for i in 0..8 {
        let old = u[i];
        u[i] = w;
        let (next_d, next_w) = stage(rp[i], old, d);
        d = next_d;
        w = next_w;
    }
    d
}

/// One stage: d(i) and w(i), from d(i - 1) and the w(i - 1) of the sample before.
#[inline]
fn stage(r: i16, u: i16, d: i16) -> (i16, i16)
    ensures d { result.0 ≡ add_words d (mult_r_words r u) }
    ensures w { result.1 ≡ add_words u (mult_r_words r d) }
{
    (add(d, mult_r(r, u)), add(u, mult_r(r, d)))
}

#[cfg(test)]
mod tests {
    use super::*;

    #[test]
    fn two_calls_with_coefficients_of_their_own(rt: HostRuntime) {
        let mut filter = Analysis::new();
        let mut samples = [1000, 0, -32768, 32767];
        filter.run(
            &[16384, -16384, 8192, -8192, 4096, -4096, 2048, -2048],
            &mut samples,
        );
        assert_eq!(rt; samples, [1000, 4, -32523, 32715]);
        let mut samples = [5, -5, 32767];
        filter.run(
            &[-32767, 32767, 20000, -20000, 100, -100, 1, 0],
            &mut samples,
        );
        assert_eq!(rt; samples, [-32768, 32767, 32567]);
    }
}
