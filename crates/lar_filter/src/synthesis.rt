// The short-term synthesis filter: GSM 06.10 section 5.3.4.
ghost use Rattle.std.specs.Prelude.{◌≡◌, pos, replicate};
ghost use Rattle.fixed_arith.specs.Word.{add_words, sub_words, mult_r_words};
ghost use Rattle.lar_filter.specs.Parts.{ExtendsByFrame};
ghost use Rattle.lar_filter.specs.Runs.{Extends, Runs, inputs_of};
ghost use Rattle.lar_filter.specs.Lattice.{StepsTo};
ghost use Rattle.lar_filter.specs.Trace.{Traces};

use crate::coefficients::{FIRST, SECOND, THIRD, part_coefficients};
use fixed_arith::{add, mult_r, sub};
use std::marker::Model;

/// A lattice of eight stages, seen as its values v(0) to v(7) at the last sample, at first 0.
#[derive(Drop)]
pub struct Synthesis {
    v: [i16; 8],
}

impl Model for Synthesis {
    ghost use Rattle.std.specs.Prelude.{ℤ, List};

    ghost Value = { List ℤ };

    ghost view = { λ f. f.v };
}

impl Synthesis {
    /// A filter at rest.
    pub fn new() -> Self
        ensures { result ≡ replicate 8 (pos 0) }
    {
        Synthesis { v: [0; 8] }
    }

    /// Filters samples in place, with the reflection coefficients rp(1) to rp(8).
    pub fn run(&mut self, rp: &[i16; 8], samples: &mut [i16])
        ensures run { Runs StepsTo self.old (inputs_of rp.now samples.old) samples.new self.new }

        // The calls before and this one are one run.
        ensures goes_on { Extends StepsTo (Runs StepsTo) self.old (inputs_of rp.now samples.old) samples.new self.new }

        // What went through, call after call, solves the equations in two indices.
        ensures equations { Extends StepsTo Traces self.old (inputs_of rp.now samples.old) samples.new self.new }
    {
        let mut v = self.v;
        for sample in samples.iter_mut() {
            *sample = step(rp, &mut v, *sample);
        }
        self.v = v;
    }

    /// Filters the samples of a frame in place, in its four parts, from the ratios of the frame before and of this one.
    pub fn run_frame(&mut self, before: &[i16; 8], now: &[i16; 8], samples: &mut [i16; 160])

        // The calls before and this one are one run, which solves the equations in two indices.
        ensures goes_on { ExtendsByFrame StepsTo Traces before.now now.now samples.old self.old samples.new self.new }
    {
        let (first, rest) = samples.split_at_mut(FIRST);
        let (second, rest) = rest.split_at_mut(SECOND);
        let (third, fourth) = rest.split_at_mut(THIRD);
        self.run(&part_coefficients(before, now, 0), first);
        self.run(&part_coefficients(before, now, 1), second);
        self.run(&part_coefficients(before, now, 2), third);
        self.run(&part_coefficients(before, now, 3), fourth);
    }
}

/// One sample through the stages. v(8) is never read, so it is not made.
#[inline]
fn step(rp: &[i16; 8], v: &mut [i16; 8], x: i16) -> i16
    ensures { StepsTo rp.now v.old x result v.new }
{
    let mut s = sub(x, mult_r(rp[7], v[7]));
    for i in (0..7).rev() {
        let (below, above) = stage(rp[i], v[i], s);
        s = below;
        v[i + 1] = above;
    }
    v[0] = s;
    s
}

/// One stage: s(i - 1) and v(i), from s(i) and the v(i - 1) of the sample before.
#[inline]
fn stage(r: i16, v: i16, s: i16) -> (i16, i16)
    ensures below { result.0 ≡ sub_words s (mult_r_words r v) }
    ensures above { result.1 ≡ add_words v (mult_r_words r result.0) }
{
    let below = sub(s, mult_r(r, v));
    (below, add(v, mult_r(r, below)))
}

#[cfg(test)]
mod tests {
    use super::*;

    #[test]
    fn two_calls_with_coefficients_of_their_own(rt: HostRuntime) {
        let mut filter = Synthesis::new();
        let mut samples = [1000, 0, -32768, 32767];
        filter.run(
            &[16384, -16384, 8192, -8192, 4096, -4096, 2048, -2048],
            &mut samples,
        );
        assert_eq!(rt; samples, [1000, -4, -32267, 32748]);
        let mut samples = [5, -5, 32767];
        filter.run(
            &[-32767, 32767, 20000, -20000, 100, -100, 1, 0],
            &mut samples,
        );
        assert_eq!(rt; samples, [32767, 18360, 32767]);
    }
}
