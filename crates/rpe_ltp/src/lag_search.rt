// The search for the lag of a sub-frame: GSM 06.10 section 5.2.11.
ghost use Rattle.std.specs.Prelude.{◌≡◌, ◌≤◌, ◌<◌, ◌+◌, ◌-◌, ◌^◌, ℕ, pos, ◌≤ℤ◌, int_lt, unsigned_abs, if◌then◌else◌};
ghost use Rattle.std.specs.Int.{int_shr};
ghost use Rattle.fixed_arith.specs.Sums.{greatest_of};
ghost use Rattle.fixed_arith.specs.Signal.{at};
ghost use Rattle.rpe_ltp.specs.LagSearch.{lag_scale, lag_scaled, IsFirstGreatest, IsLagChoice};

use crate::history::LagHistory;
use crate::lag_gain::{gain, level, power};
use crate::lag_sums::lag_sums;
use fixed_arith::{greatest, norm_long};

/// The lag (`Nc`, 40 to 120) and the code of its gain (`bc`, 2 bits) for the short-term residual (`d`) of a sub-frame, over the values before it
/// (GSM 06.10 section 5.2.11). The lag is the first with the greatest cross-correlation, and 40 where none is above 0.
pub fn best_lag(d: &[i16; 40], history: &LagHistory) -> (u8, u8)
    ensures choice { IsLagChoice d.now history.now result.0 result.1 }
    ensures least { 40 ≤ result.0 }
    ensures most { result.0 ≤ 120 }
    ensures gain { result.1 < 4 }
{
    let (scaled, scale) = scaled_down(d);
    let kept = widened(history.values());
    let sums = lag_sums(&scaled, &kept);
    let (lag, best) = first_greatest(&sums);
    (lag, gain(level(best, scale), power(&kept, lag)))
}

/// By how many places values with this greatest magnitude are scaled down.
#[inline]
#[tactic(auto, unfolding(crate::specs::LagSearch::lag_scale))]
fn scale(top: i16) -> u32
    requires { pos 0 ≤ℤ top }
    ensures value { result ≡ lag_scale top }
    ensures most { result ≤ 6 }
    ensures fits { unsigned_abs top < 2 ^ (9 + result) }
{
    if top == 0 {
        return 0;
    }
    6u32.saturating_sub(norm_long(top as i32 * 65536))
}

/// One value, scaled down.
#[inline]
fn shrink(x: i16, scale: u32, top: i16) -> i32
    requires reach { unsigned_abs x ≤ unsigned_abs top + 1 }
    requires fits { unsigned_abs top < 2 ^ (9 + scale) }
    requires most { scale ≤ 6 }
    ensures value { result ≡ int_shr x scale }
    ensures small { unsigned_abs result ≤ 2 ^ 9 }
{
    (x >> scale) as i32
}

/// The values, scaled down, and by how many places.
#[inline]
fn scaled_down(d: &[i16; 40]) -> ([i32; 40], u32)
    ensures values { result.0 ≡ lag_scaled d.now }
    ensures scale { result.1 ≡ lag_scale (greatest_of d.now) }
    ensures most { result.1 ≤ 6 }
    ensures small { (i : ℕ) → unsigned_abs (at result.0 i) ≤ 2 ^ 9 }
{
    let top = greatest(d);
    let scale = scale(top);
    let mut values = [0; 40];
    for i in 0..40 {
        values[i] = shrink(d[i], scale, top);
    }
    (values, scale)
}

/// The words as long words.
#[inline]
fn widened(kept: &[i16; 120]) -> [i32; 120]
    ensures value { result ≡ kept.now }
    ensures words { (i : ℕ) → unsigned_abs (at result i) ≤ 2 ^ 15 }
{
    let mut wide = [0; 120];
    for i in 0..120 {
        wide[i] = kept[i] as i32;
    }
    wide
}

/// The better of two lags: the later one only where its sum is greater.
#[inline]
fn better(lag: u8, best: i32, next: u8, sum: i32) -> (u8, i32)
    ensures lag { result.0 ≡ (if int_lt best sum then next else lag) }
    ensures best { result.1 ≡ (if int_lt best sum then sum else best) }
{
    if sum > best { (next, sum) } else { (lag, best) }
}

/// The first lag with the greatest sum, and that sum, where the first sum is that of lag 120.
#[inline]
fn first_greatest(sums: &[i32; 81]) -> (u8, i32)
    ensures { IsFirstGreatest (λ l. at sums.now (120 - l)) 121 result.0 result.1 }
{
    let mut lag = 40u8;
    let mut best = 0i32;
    for l in 40u8..121 {
        let (next, sum) = better(lag, best, l, sums[120 - l as usize]);
        lag = next;
        best = sum;
    }
    (lag, best)
}

#[cfg(test)]
mod tests {
    use super::*;
    use crate::lag_sums::plain_sums;
    use fixed_arith::mult;

    /// The next value of a noise.
    fn noise(seed: &mut u32) -> i16 {
        *seed = seed.wrapping_mul(1664525).wrapping_add(1013904223);
        (*seed >> 17) as i16 - 16384
    }

    /// A noise of 120 values, and forty of them from one place on with a gain.
    fn echo(seed: u32, place: usize, factor: i16, level: i16) -> ([i16; 40], LagHistory) {
        let mut seed = seed;
        let mut values = [0i16; 120];
        for k in 0..120 {
            values[k] = mult(noise(&mut seed), level);
        }
        let mut history = LagHistory::new();
        for part in 0..3usize {
            let mut block = [0i16; 40];
            for k in 0..40 {
                block[k] = values[40 * part + k];
            }
            history.push(&block);
        }
        let mut d = [0i16; 40];
        for k in 0..40 {
            d[k] = mult(values[place.wrapping_add(k) % 120], factor);
        }
        (d, history)
    }

    #[test]
    fn equal_sums_and_no_sum_above_zero(rt: HostRuntime) {
        let mut history = LagHistory::new();
        let zeros = best_lag(&[100; 40], &history);
        assert_eq!(rt; (zeros.0, zeros.1), (40, 0), "over silence");
        history.push(&[1000; 40]);
        history.push(&[0; 40]);
        history.push(&[0; 40]);
        let far = best_lag(&[100; 40], &history);
        assert_eq!(rt;
            (far.0, far.1),
            (120, 0),
            "over forty values, the last of them 81 places back"
        );
        let mut same = LagHistory::new();
        same.push(&[1000; 40]);
        same.push(&[1000; 40]);
        same.push(&[1000; 40]);
        let equal = best_lag(&[100; 40], &same);
        assert_eq!(rt; (equal.0, equal.1), (40, 0), "over 120 equal values");
        let against = best_lag(&[-32768; 40], &same);
        assert_eq!(rt;
            (against.0, against.1),
            (40, 0),
            "over 120 values of the other sign"
        );
    }

    #[test]
    fn an_echo_is_found_with_its_gain(rt: HostRuntime) {
        // the noise's seed, the place, the gain and the level of the noise; the lag and the code of its gain
        for (seed, place, factor, level, lag, gain) in [
            (1, 0, 32767, 32767, 120, 3),
            (2, 80, 32767, 32767, 40, 3),
            (3, 1, 16384, 32767, 119, 1),
            (4, 7, 8000, 32767, 113, 1),
            (5, 79, 26000, 32767, 41, 2),
            (6, 40, 3000, 32767, 80, 0),
            (7, 33, 20000, 2048, 87, 2),
            (8, 63, 12000, 2048, 57, 1),
            (9, 12, 30000, 256, 108, 3),
            (10, 55, 5000, 512, 65, 0),
            (11, 73, -32768, 32767, 79, 1),
            (12, 20, -9000, 700, 108, 0),
            (13, 80, 32767, 40, 40, 2),
            (14, 5, 32767, 0, 40, 0),
            (15, 64, -1, 32767, 80, 0),
            (16, 30, 22000, 8191, 90, 2),
            (17, 50, 9000, 16000, 70, 1),
        ] {
            let (d, history) = echo(seed, place, factor, level);
            let found = best_lag(&d, &history);
            assert_eq!(rt; (found.0, found.1), (lag, gain), "seed {seed}");
        }
    }

    #[test]
    fn lanes_and_plain_sums_agree(rt: HostRuntime) {
        for seed in 0..200u32 {
            let level = (seed * 163) as i16;
            let (d, history) = echo(seed, seed as usize, level, 32767);
            let (scaled, _) = scaled_down(&d);
            let kept = widened(history.values());
            assert_eq!(rt;
                lag_sums(&scaled, &kept),
                plain_sums(&scaled, &kept),
                "seed {seed}"
            );
        }
        for (value, other) in [
            (-32768, -32768),
            (-32768, 32767),
            (32767, -32768),
            (0, 1),
            (1, -1),
        ] {
            let mut history = LagHistory::new();
            history.push(&[other; 40]);
            history.push(&[value; 40]);
            history.push(&[other; 40]);
            let (scaled, _) = scaled_down(&[value; 40]);
            let kept = widened(history.values());
            assert_eq!(rt;
                lag_sums(&scaled, &kept),
                plain_sums(&scaled, &kept),
                "{value} and {other}"
            );
        }
    }
}
