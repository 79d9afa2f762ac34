// The weighting filter: GSM 06.10 section 5.2.13.
ghost use Rattle.std.specs.Prelude.{◌≡◌, ◌≤◌, ◌<◌, ◌+◌, ◌^◌, ℕ, ◌*ℤ◌, unsigned_abs};
ghost use Rattle.fixed_arith.specs.Signal.{at};
ghost use Rattle.rpe_ltp.specs.Weighting.{five_before, weighted, weighted_at};

use fixed_arith::clip16;

/// The impulse response, as a fraction of 13 binary places (`H`).
const RESPONSE: [i16; 11] = [-134, -374, 0, 2054, 5741, 8192, 5741, 2054, 0, -374, -134];

/// The weighted values (`x`) of the long-term residual (`e`) of a sub-frame (GSM 06.10 section 5.2.13).
pub fn weight(e: &[i16; 40]) -> [i16; 40]
    ensures { (k : ℕ) → k < 40 → at result k ≡ weighted_at e.now k }
{
    let wide = padded(e);
    let mut x = [0; 40];
    for k in 0..40 {
        x[k] = weigh(&wide, k);
    }
    x
}

/// The values with five zeros on either side.
#[inline]
fn padded(e: &[i16; 40]) -> [i16; 50]
    ensures values { (k : ℕ) → k < 50 → at result k ≡ five_before e.now k }
    ensures words { (j : ℕ) → unsigned_abs (at result j) ≤ 2 ^ 15 }
{
    let mut wide = [0; 50];
    for k in 0..50 {
        wide[k] = if 5 <= k && k < 45 { e[k - 5] } else { 0 };
    }
    wide
}

/// One weighted value.
#[inline]
#[tactic(auto, unfolding(crate::specs::Weighting::weighted))]
fn weigh(wide: &[i16; 50], k: usize) -> i16
    requires near { k < 40 }
    requires words { (j : ℕ) → unsigned_abs (at wide.now j) ≤ 2 ^ 15 }
    ensures { result ≡ weighted (λ i. at wide.now (k + i)) }
{
    let mut sum = 0i32;
    for i in 0..11 {
        sum += tap(RESPONSE[i], wide[k + i]);
    }
    clip16((sum + 4096) >> 13)
}

/// The product of two words.
#[inline]
fn tap(h: i16, x: i16) -> i32
    ensures { result ≡ h *ℤ x }
{
    h as i32 * x as i32
}

#[cfg(test)]
mod tests {
    use super::*;

    #[test]
    fn an_impulse_gives_the_response(rt: HostRuntime) {
        let mut e = [0; 40];
        e[20] = 8192;
        assert_eq!(rt;
            weight(&e),
            [
                0, 0, 0, 0, 0, 0, 0, 0, 0, 0, 0, 0, 0, 0, 0, -134, -374, 0, 2054, 5741, 8192, 5741,
                2054, 0, -374, -134, 0, 0, 0, 0, 0, 0, 0, 0, 0, 0, 0, 0, 0, 0
            ]
        );
    }

    #[test]
    fn impulses_at_the_ends_are_cut(rt: HostRuntime) {
        let mut first = [0; 40];
        first[0] = 32767;
        assert_eq!(rt;
            &weight(&first)[..7],
            [32767, 22963, 8216, 0, -1496, -536, 0].as_slice()
        );
        let mut last = [0; 40];
        last[39] = -32768;
        assert_eq!(rt;
            &weight(&last)[32..],
            [0, 0, 536, 1496, 0, -8216, -22964, -32768].as_slice()
        );
    }

    #[test]
    fn loud_values_are_limited(rt: HostRuntime) {
        assert_eq!(rt; weight(&[32767; 40]), [32767; 40]);
        assert_eq!(rt; weight(&[-32768; 40]), [-32768; 40]);
    }

    #[test]
    fn a_ramp_is_rounded_down(rt: HostRuntime) {
        let mut ramp = [0; 40];
        let mut value = -2000i16;
        for k in 0..40 {
            ramp[k] = value;
            value = value.wrapping_add(100);
        }
        assert_eq!(rt;
            weight(&ramp),
            [
                -3685, -4898, -5140, -4856, -4481, -4169, -3891, -3613, -3335, -3057, -2779, -2501,
                -2223, -1945, -1667, -1390, -1112, -834, -556, -278, 0, 278, 556, 834, 1112, 1390,
                1667, 1945, 2223, 2501, 2779, 3057, 3335, 3613, 3891, 4201, 4572, 4856, 4639, 3496
            ]
        );
    }
}
