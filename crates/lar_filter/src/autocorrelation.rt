// Scaling of a frame, and its autocorrelation: GSM 06.10 section 5.2.4.
ghost use Rattle.std.specs.Prelude.{◌≡◌, ◌≤◌, ◌<◌, ◌+◌, ◌^◌, ℕ, pos, ◌*ℤ◌, ◌≤ℤ◌, unsigned_abs, map, length};
ghost use Rattle.fixed_arith.specs.Word.{shift_word_left};
ghost use Rattle.fixed_arith.specs.Sums.{greatest_of};
ghost use Rattle.fixed_arith.specs.Signal.{at};
ghost use Rattle.lar_filter.specs.Autocorrelation.{scale_of, scaled_word, scaled, correlation, onward, FirstIsGreatest};

use fixed_arith::{greatest, mult_r, norm_long, shift_left};

/// Scales the 160 samples of a frame down until their products sum up in 32 bits, answers their autocorrelation (`L_ACF`) at the distances 0 to 8,
/// and scales them up again. No value has a magnitude above the first.
pub fn autocorrelate(samples: &mut [i16; 160]) -> [i32; 9]
    ensures values { (k : ℕ) → k ≤ 8 → at result k ≡ correlation (scaled samples.old) k }
    ensures first { FirstIsGreatest result }
    ensures samples { samples.new ≡ onward samples.old }
{
    let scale = scale_down(samples);
    let sums = correlate(samples);
    scale_up(samples, scale);
    sums
}

/// By how many places a frame with this greatest magnitude is scaled down.
#[inline]
#[tactic(auto, unfolding(crate::specs::Autocorrelation::scale_of))]
fn scale(top: i16) -> u32
    requires { pos 0 ≤ℤ top }
    ensures value { result ≡ scale_of top }
    ensures most { result ≤ 4 }
    ensures fits { unsigned_abs top < 2 ^ (11 + result) }
{
    if top == 0 {
        return 0;
    }
    4u32.saturating_sub(norm_long(top as i32 * 65536))
}

/// One sample, scaled down.
#[inline]
#[tactic(auto, unfolding(crate::specs::Autocorrelation::scaled_word))]
fn scale_word(x: i16, scale: u32) -> i16
    requires { scale ≤ 4 }
    ensures { result ≡ scaled_word scale x }
{
    if scale == 0 {
        x
    } else {
        mult_r(x, 16384 >> (scale - 1))
    }
}

/// Scales the samples down, and answers by how many places.
fn scale_down(samples: &mut [i16; 160]) -> u32
    ensures samples { samples.new ≡ scaled samples.old }
    ensures scale { result ≡ scale_of (greatest_of samples.old) }
    ensures most { result ≤ 4 }
    ensures small { (i : ℕ) → unsigned_abs (at samples.new i) ≤ 2048 }
{
    let scale = scale(greatest(samples));
    for sample in samples.iter_mut() {
        *sample = scale_word(*sample, scale);
    }
    scale
}

/// Scales the samples up.
fn scale_up(samples: &mut [i16; 160], scale: u32)
    requires { scale ≤ 4 }
    ensures { samples.new ≡ map (λ x. shift_word_left x scale) samples.old }
{
    for sample in samples.iter_mut() {
        *sample = shift_left(*sample, scale);
    }
}

/// The sums of the products of samples, doubled.
fn correlate(xs: &[i16; 160]) -> [i32; 9]
    requires { (i : ℕ) → unsigned_abs (at xs.now i) ≤ 2048 }
    ensures size { length result ≡ 9 }
    ensures values { (k : ℕ) → k ≤ 8 → at result k ≡ correlation xs.now k }
{
    let mut sums = [0; 9];
    for k in 0..9 {
        sums[k] = correlate_at(xs, k);
    }
    sums
}

/// The sum at one distance, doubled.
#[inline]
#[tactic(auto, unfolding(crate::specs::Autocorrelation::correlation))]
fn correlate_at(xs: &[i16; 160], k: usize) -> i32
    requires small { (i : ℕ) → unsigned_abs (at xs.now i) ≤ 2048 }
    requires near { k ≤ 8 }
    ensures { result ≡ correlation xs.now k }
{
    let mut sum = 0i32;
    for i in 0..160 - k {
        sum += product(xs[i + k], xs[i]);
    }
    sum * 2
}

/// The product, which a long word can hold.
#[inline]
fn product(a: i16, b: i16) -> i32
    ensures { result ≡ a *ℤ b }
{
    a as i32 * b as i32
}

#[cfg(test)]
mod tests {
    use super::*;

    #[test]
    fn a_loud_square_wave_is_scaled(rt: HostRuntime) {
        let mut samples = [0; 160];
        for t in 0..160 {
            samples[t] = if t % 32 < 16 { 32767 } else { -32768 };
        }
        assert_eq!(rt;
            autocorrelate(&mut samples),
            [
                1342177280, 1182793728, 1023410176, 864026624, 704643072, 545259520, 385875968,
                226492416, 67108864
            ]
        );
        assert_eq!(rt; samples[0], 32767);
        assert_eq!(rt; samples[16], -32768);
    }

    #[test]
    fn a_quiet_constant_is_not_scaled(rt: HostRuntime) {
        let mut samples = [1000; 160];
        assert_eq!(rt;
            autocorrelate(&mut samples),
            [
                320000000, 318000000, 316000000, 314000000, 312000000, 310000000, 308000000,
                306000000, 304000000
            ]
        );
        assert!(rt; samples == [1000; 160]);
    }
}
