// From reflection coefficients to the codes of the log area ratios: GSM 06.10 sections 5.2.6 and 5.2.7.
ghost use Rattle.std.specs.Prelude.{◌≡◌, ◌<◌, ◌≤◌, ◌+ℤ◌, ◌≤ℤ◌, ◌<ℤ◌, pos, negsuc, unsigned_abs, ◌-ℤ◌, slice_index};
ghost use Rattle.std.specs.Int.{int_max, int_min};
ghost use Rattle.lar_filter.specs.Quantising.{flat, ratio_from, code_from, codes_from};

use fixed_arith::{abs_word, add, mult};

/// The factor of each ratio (`A`).
const FACTORS: [i16; 8] = [20480, 20480, 20480, 20480, 13964, 15360, 8534, 9036];

/// The offset of each ratio (`B`).
const OFFSETS: [i16; 8] = [0, 0, 2048, -2560, 94, -1792, -341, -1144];

/// The least code of each ratio (`MIC`).
const LEAST_CODES: [i16; 8] = [-32, -32, -16, -16, -8, -8, -4, -4];

/// The greatest code of each ratio (`MAC`).
const GREATEST_CODES: [i16; 8] = [31, 31, 15, 15, 7, 7, 3, 3];

/// The codes (`LARc`) of the log area ratios of reflection coefficients r(1) to r(8), with 6, 6, 5, 5, 4, 4, 3 and 3 bits.
#[inline]
pub fn quantise_lars(r: &[i16; 8]) -> [u8; 8]
    ensures value { result ≡ codes_from r.now }
    ensures first { (slice_index result 0 < 64) × (slice_index result 1 < 64) }
    ensures second { (slice_index result 2 < 32) × (slice_index result 3 < 32) }
    ensures third { (slice_index result 4 < 16) × (slice_index result 5 < 16) }
    ensures fourth { (slice_index result 6 < 8) × (slice_index result 7 < 8) }
{
    [
        quantise_lar(
            FACTORS[0],
            OFFSETS[0],
            LEAST_CODES[0],
            GREATEST_CODES[0],
            r[0],
        ),
        quantise_lar(
            FACTORS[1],
            OFFSETS[1],
            LEAST_CODES[1],
            GREATEST_CODES[1],
            r[1],
        ),
        quantise_lar(
            FACTORS[2],
            OFFSETS[2],
            LEAST_CODES[2],
            GREATEST_CODES[2],
            r[2],
        ),
        quantise_lar(
            FACTORS[3],
            OFFSETS[3],
            LEAST_CODES[3],
            GREATEST_CODES[3],
            r[3],
        ),
        quantise_lar(
            FACTORS[4],
            OFFSETS[4],
            LEAST_CODES[4],
            GREATEST_CODES[4],
            r[4],
        ),
        quantise_lar(
            FACTORS[5],
            OFFSETS[5],
            LEAST_CODES[5],
            GREATEST_CODES[5],
            r[5],
        ),
        quantise_lar(
            FACTORS[6],
            OFFSETS[6],
            LEAST_CODES[6],
            GREATEST_CODES[6],
            r[6],
        ),
        quantise_lar(
            FACTORS[7],
            OFFSETS[7],
            LEAST_CODES[7],
            GREATEST_CODES[7],
            r[7],
        ),
    ]
}

/// The code of one coefficient.
#[inline]
#[tactic(auto, unfolding(crate::specs::Quantising::code_from))]
fn quantise_lar(factor: i16, offset: i16, least: i16, most: i16, r: i16) -> u8
    requires low { negsuc 31 ≤ℤ least }
    requires between { least ≤ℤ most }
    requires high { most ≤ℤ pos 31 }
    ensures value { result ≡ code_from factor offset least most r }
    ensures most { pos result ≤ℤ (most -ℤ least) }
{
    limited(
        add(add(mult(factor, lar_of(r)), offset), 256) >> 9,
        least,
        most,
    )
}

/// The value within limits, counted from the lower one.
#[inline]
fn limited(q: i16, least: i16, most: i16) -> u8
    requires low { negsuc 31 ≤ℤ least }
    requires between { least ≤ℤ most }
    requires high { most ≤ℤ pos 31 }
    ensures value { result ≡ unsigned_abs (int_min (int_max q least) most -ℤ least) }
    ensures most { pos result ≤ℤ (most -ℤ least) }
{
    (q.max(least).min(most) - least) as u8
}

/// The ratio of a coefficient.
#[inline]
#[tactic(auto, unfolding(crate::specs::Quantising::ratio_from))]
fn lar_of(r: i16) -> i16
    ensures { result ≡ ratio_from r }
{
    let value = flattened(abs_word(r));
    if r < 0 { -value } else { value }
}

/// The ratio of a magnitude.
#[inline]
#[tactic(auto, unfolding(crate::specs::Quantising::flat))]
fn flattened(m: i16) -> i16
    requires { pos 0 ≤ℤ m }
    ensures value { result ≡ flat m }
    ensures sign { pos 0 ≤ℤ result }
{
    if m < 22118 {
        m >> 1
    } else if m < 31130 {
        m - 11059
    } else {
        (m - 26112) << 2
    }
}

#[cfg(test)]
mod tests {
    use super::*;

    #[test]
    fn codes_at_the_edges_of_the_pieces(rt: HostRuntime) {
        for (r, want) in [
            (
                [22117, -22118, 31129, -31130, 32767, -32768, 16384, -16384],
                [45, 19, 31, 0, 15, 0, 7, 0],
            ),
            (
                [-32767, 32767, -20000, 20000, -5000, 5000, -32768, 0],
                [0, 63, 8, 23, 6, 7, 0, 2],
            ),
            ([0; 8], [32, 32, 20, 11, 8, 5, 3, 2]),
        ] {
            assert_eq!(rt; quantise_lars(&r), want);
        }
    }
}
