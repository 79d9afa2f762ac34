// The code of the gain of a lag: GSM 06.10 section 5.2.11.
ghost use Rattle.std.specs.Prelude.{◌≡◌, ◌≤◌, ◌<◌, ◌*◌, ◌^◌, ℕ, pos, ◌*ℤ◌, ◌≤ℤ◌, unsigned_abs};
ghost use Rattle.std.specs.Int.{int_shr};
ghost use Rattle.fixed_arith.specs.Word.{IsNorm};
ghost use Rattle.fixed_arith.specs.Signal.{at};
ghost use Rattle.rpe_ltp.specs.LagSearch.{lag_level, lag_power, gain_code, gain_step_of};

use fixed_arith::{mult, norm_long};

/// Up to which ratio each gain code holds, as a fraction of 15 binary places (`DLB`).
const GAIN_LIMITS: [i16; 3] = [6554, 16384, 26214];

/// Twice the greatest sum (`L_max`), brought to the scale of the power.
#[inline]
pub(crate) fn level(best: i32, scale: u32) -> i32
    requires most { scale ≤ 6 }
    requires small { unsigned_abs best ≤ 40 * 2 ^ 24 }
    ensures { result ≡ lag_level scale best }
{
    (best * 2) >> (6 - scale)
}

/// The square of an eighth of a word.
#[inline]
fn square(x: i32) -> i32
    requires { unsigned_abs x ≤ 2 ^ 15 }
    ensures { result ≡ int_shr x 3 *ℤ int_shr x 3 }
{
    let value = x >> 3;
    value * value
}

/// The power of the values that lie a lag back (`L_power`).
#[inline]
#[tactic(auto, unfolding(crate::specs::LagSearch::lag_power))]
pub(crate) fn power(kept: &[i32; 120], lag: u8) -> i32
    requires least { 40 ≤ lag }
    requires most { lag ≤ 120 }
    requires words { (k : ℕ) → unsigned_abs (at kept.now k) ≤ 2 ^ 15 }
    ensures { result ≡ lag_power kept.now lag }
{
    let start = 120 - lag as usize;
    let mut sum = 0i32;
    for k in 0..40 {
        sum += square(kept[start + k]);
    }
    sum * 2
}

/// The code of the gain.
#[inline]
#[tactic(auto, unfolding(crate::specs::LagSearch::gain_code))]
pub(crate) fn gain(level: i32, power: i32) -> u8
    ensures value { result ≡ gain_code level power }
    ensures most { result < 4 }
{
    if level > 0 {
        if level < power {
            let places = norm_long(power);
            gain_step(normal(power, level, places), normal(power, power, places))
        } else {
            3
        }
    } else {
        0
    }
}

/// The high word of a value that is shifted up as the first one is to be normal.
#[inline]
fn normal(first: i32, x: i32, places: u32) -> i16
    requires bound { pos (unsigned_abs x) ≤ℤ first }
    requires normal { IsNorm (unsigned_abs first) places }
    requires most { places ≤ 30 }
    ensures { result ≡ int_shr (x *ℤ pos (2 ^ places)) 16 }
{
    ((x << places) >> 16) as i16
}

/// The first gain code whose limit the ratio of the two does not pass.
#[inline]
fn gain_step(r: i16, s: i16) -> u8
    ensures value { result ≡ gain_step_of r s }
    ensures most { result < 4 }
{
    if r <= mult(s, GAIN_LIMITS[0]) {
        0
    } else if r <= mult(s, GAIN_LIMITS[1]) {
        1
    } else if r <= mult(s, GAIN_LIMITS[2]) {
        2
    } else {
        3
    }
}
