// De-emphasis, and the samples that come out: GSM 06.10 sections 5.3.4 to 5.3.6.
ghost use Rattle.std.specs.Prelude.{◌≡◌, ℕ, ◌+◌, ◌<◌, ◌*ℤ◌, pos};
ghost use Rattle.std.specs.Int.{int_shr};
ghost use Rattle.fixed_arith.specs.Word.{add_words, mult_r_words};
ghost use Rattle.fixed_arith.specs.Signal.{at};
ghost use Rattle.fr_decoder.specs.Deemphasis.{emphasis_next, emphasis_after, output_of};

use fixed_arith::{add, mult_r};

/// How much of the value before is kept, as a fraction of 15 binary places.
const DEEMPHASIS: i16 = 28180;

/// Turns what the filter gave into the samples, in place, and answers the last value before it was doubled.
pub fn deemphasise(before: i16, samples: &mut [i16; 160]) -> i16
    ensures last { result ≡ emphasis_after before samples.old 160 }
    ensures output { (k : ℕ) → k < 160 → at samples.new k ≡ output_of (emphasis_after before samples.old (k + 1)) }
{
    let mut value = before;
    for sample in samples.iter_mut() {
        value = emphasise(value, *sample);
        *sample = output(value);
    }
    value
}

/// The next value.
#[inline]
#[tactic(auto, unfolding(crate::specs::Deemphasis::emphasis_next))]
fn emphasise(before: i16, x: i16) -> i16
    ensures { result ≡ emphasis_next before x }
{
    add(x, mult_r(before, DEEMPHASIS))
}

/// The value doubled, without its three lowest bits.
#[inline]
#[tactic(auto, unfolding(crate::specs::Deemphasis::output_of))]
fn output(value: i16) -> i16
    ensures { result ≡ output_of value }
{
    (add(value, value) >> 3) * 8
}
