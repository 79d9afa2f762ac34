// The codes of a sub-frame's level and pulses: GSM 06.10 section 5.2.15.
ghost use Rattle.std.specs.Prelude.{◌≡◌, ◌≤◌, ◌<◌, ◌+◌, ◌*◌, ◌^◌, ℕ, pos, ◌≤ℤ◌, unsigned_abs, replicate, slice_index};
ghost use Rattle.fixed_arith.specs.Word.{abs_of_word};
ghost use Rattle.frame_codec.specs.Frame.{FitAll};
ghost use Rattle.rpe_ltp.specs.Pulses.{level_of};
ghost use Rattle.rpe_ltp.specs.PulseCodes.{HasDigits, IsLevelCode, pulse_code, IsApcm};

use crate::pulses::level;
use fixed_arith::{greatest, mult, shift_left};

/// The reciprocal of each mantissa, as a fraction of 15 binary places (`NRFAC`).
const RECIPROCALS: [i16; 8] = [29128, 26215, 23832, 21846, 20165, 18725, 17476, 16384];

/// The code of the level (`xmaxc`, 6 bits) of the thirteen values on a grid (`xM`), and the code of each pulse (`xMc`, 3 bits) at that level
/// (GSM 06.10 section 5.2.15).
pub fn apcm(xm: &[i16; 13]) -> (u8, [u8; 13])
    ensures codes { IsApcm xm.now result.0 result.1 }
    ensures level { result.0 < 64 }
    ensures pulses { (i : ℕ) → i < 13 → slice_index result.1 i < 8 }
    ensures widths { FitAll (replicate 13 3) result.1 }
{
    let top = greatest(xm);
    let xmaxc = level_code(top as u16);
    let (shift, mantissa) = level(xmaxc);
    let mut xmc = [0; 13];
    for i in 0..13 {
        xmc[i] = code(shift, mantissa, xm[i], top);
    }
    (xmaxc, xmc)
}

/// The code of a greatest magnitude. Its level leaves room for each magnitude up to that one.
#[inline]
fn level_code(top: u16) -> u8
    requires { top < 32768 }
    ensures code { IsLevelCode top result }
    ensures fits { result < 64 }
    ensures room { (top + 1) * 2 ^ (level_of result).shift ≤ (9 + (level_of result).mantissa) * 2048 }
{
    let digits = digits_of(top >> 9);
    ((top >> (digits + 5)) + 8 * digits) as u8
}

/// The number of binary digits.
#[inline]
fn digits_of(n: u16) -> u16
    requires { n < 64 }
    ensures digits { HasDigits n result }
    ensures most { result ≤ 6 }
{
    match n {
        0 => 0,
        1 => 1,
        2..=3 => 2,
        4..=7 => 3,
        8..=15 => 4,
        16..=31 => 5,
        _ => 6,
    }
}

/// The code of a pulse.
#[inline]
fn code(shift: u32, mantissa: usize, x: i16, top: i16) -> u8
    requires shift { shift ≤ 10 }
    requires mantissa { mantissa < 8 }
    requires reach { abs_of_word x ≤ℤ top }
    requires room { (unsigned_abs top + 1) * 2 ^ shift ≤ (9 + mantissa) * 2048 }
    ensures value { pos result ≡ pulse_code (record { shift = shift; mantissa = mantissa }) x }
    ensures most { result < 8 }
{
    let step = mult(shift_left(x, shift), RECIPROCALS[mantissa]) >> 12;
    (step + 4) as u8
}

#[cfg(test)]
mod tests {
    use super::*;

    #[test]
    fn codes_at_the_edges_of_the_levels(rt: HostRuntime) {
        // the values, the code of their level and the codes of the pulses
        for (xm, level, codes) in [
            (
                [0, 0, 0, 0, 0, 0, 0, 0, 0, 0, 0, 0, 0],
                0,
                [4, 4, 4, 4, 4, 4, 4, 4, 4, 4, 4, 4, 4],
            ),
            (
                [1, -1, 0, 0, 0, 0, 0, 1, -1, 0, 0, 0, 0],
                0,
                [4, 3, 4, 4, 4, 4, 4, 4, 3, 4, 4, 4, 4],
            ),
            (
                [31, -31, 15, -15, 7, -7, 0, 1, -1, 3, -3, 23, -23],
                0,
                [7, 0, 5, 2, 4, 3, 4, 4, 3, 4, 3, 6, 1],
            ),
            (
                [32, -32, 16, -16, 8, -8, 0, 1, -1, 4, -4, 24, -24],
                1,
                [6, 2, 5, 3, 4, 3, 4, 4, 3, 4, 3, 5, 2],
            ),
            (
                [63, -63, 31, -31, 15, -15, 0, 1, -1, 7, -7, 47, -47],
                1,
                [7, 0, 5, 2, 4, 3, 4, 4, 3, 4, 3, 6, 1],
            ),
            (
                [64, -64, 32, -32, 16, -16, 0, 1, -1, 8, -8, 48, -48],
                2,
                [6, 1, 5, 2, 4, 3, 4, 4, 3, 4, 3, 6, 1],
            ),
            (
                [
                    511, -511, 255, -255, 127, -127, 0, 1, -1, 63, -63, 383, -383,
                ],
                15,
                [7, 0, 5, 2, 4, 3, 4, 4, 3, 4, 3, 6, 1],
            ),
            (
                [
                    512, -512, 256, -256, 128, -128, 0, 1, -1, 64, -64, 384, -384,
                ],
                16,
                [7, 0, 5, 2, 4, 3, 4, 4, 3, 4, 3, 6, 1],
            ),
            (
                [
                    1023, -1023, 511, -511, 255, -255, 0, 1, -1, 127, -127, 767, -767,
                ],
                23,
                [7, 0, 5, 2, 4, 3, 4, 4, 3, 4, 3, 6, 1],
            ),
            (
                [
                    1024, -1024, 512, -512, 256, -256, 0, 1, -1, 128, -128, 768, -768,
                ],
                24,
                [7, 0, 5, 2, 4, 3, 4, 4, 3, 4, 3, 6, 1],
            ),
            (
                [
                    2048, -2048, 1024, -1024, 512, -512, 0, 1, -1, 256, -256, 1536, -1536,
                ],
                32,
                [7, 0, 5, 2, 4, 3, 4, 4, 3, 4, 3, 6, 1],
            ),
            (
                [
                    4095, -4095, 2047, -2047, 1023, -1023, 0, 1, -1, 511, -511, 3071, -3071,
                ],
                39,
                [7, 0, 5, 2, 4, 3, 4, 4, 3, 4, 3, 6, 1],
            ),
            (
                [
                    8191, -8191, 4095, -4095, 2047, -2047, 0, 1, -1, 1023, -1023, 6143, -6143,
                ],
                47,
                [7, 0, 5, 2, 4, 3, 4, 4, 3, 4, 3, 6, 1],
            ),
            (
                [
                    8192, -8192, 4096, -4096, 2048, -2048, 0, 1, -1, 1024, -1024, 6144, -6144,
                ],
                48,
                [7, 0, 5, 2, 4, 3, 4, 4, 3, 4, 3, 6, 1],
            ),
            (
                [
                    16384, -16384, 8192, -8192, 4096, -4096, 0, 1, -1, 2048, -2048, 12288, -12288,
                ],
                56,
                [7, 0, 5, 2, 4, 3, 4, 4, 3, 4, 3, 6, 1],
            ),
            (
                [
                    32766, -32766, 16383, -16383, 8191, -8191, 0, 1, -1, 4095, -4095, 24574, -24574,
                ],
                63,
                [7, 0, 5, 2, 4, 3, 4, 4, 3, 4, 3, 6, 1],
            ),
            (
                [
                    32767, -32767, 16383, -16383, 8191, -8191, 0, 1, -1, 4095, -4095, 24575, -24575,
                ],
                63,
                [7, 0, 5, 2, 4, 3, 4, 4, 3, 4, 3, 6, 1],
            ),
            (
                [-32768, 32767, 0, 0, 0, 0, 0, 0, 0, 0, 0, 0, 0],
                63,
                [0, 7, 4, 4, 4, 4, 4, 4, 4, 4, 4, 4, 4],
            ),
            (
                [
                    -32768, -32768, -32768, -32768, -32768, -32768, -32768, -32768, -32768, -32768,
                    -32768, -32768, -32768,
                ],
                63,
                [0, 0, 0, 0, 0, 0, 0, 0, 0, 0, 0, 0, 0],
            ),
            (
                [
                    -32768, -32767, -28672, -28673, -24576, -20480, -4096, -4097, 4095, 4096,
                    12287, 12288, 32767,
                ],
                63,
                [0, 0, 0, 0, 1, 1, 3, 3, 4, 4, 5, 5, 7],
            ),
        ] {
            let (xmaxc, xmc) = apcm(&xm);
            assert_eq!(rt; xmaxc, level);
            assert_eq!(rt; xmc, codes, "at level {level}");
        }
    }

    #[test]
    fn each_level_by_its_least_magnitude(rt: HostRuntime) {
        // the least magnitude of a level, the level's code, and the code of the magnitude and of its negative
        for (least, level, high, low) in [
            (0, 0, 4, 4),
            (32, 1, 6, 2),
            (64, 2, 6, 1),
            (96, 3, 7, 1),
            (128, 4, 7, 0),
            (160, 5, 7, 0),
            (192, 6, 7, 0),
            (224, 7, 7, 0),
            (256, 8, 7, 0),
            (288, 9, 7, 0),
            (320, 10, 7, 0),
            (352, 11, 7, 0),
            (384, 12, 7, 0),
            (416, 13, 7, 0),
            (448, 14, 7, 0),
            (480, 15, 7, 0),
            (512, 16, 7, 0),
            (576, 17, 7, 0),
            (640, 18, 7, 0),
            (704, 19, 7, 0),
            (768, 20, 7, 0),
            (832, 21, 7, 0),
            (896, 22, 7, 0),
            (960, 23, 7, 0),
            (1024, 24, 7, 0),
            (1152, 25, 7, 0),
            (1280, 26, 7, 0),
            (1408, 27, 7, 0),
            (1536, 28, 7, 0),
            (1664, 29, 7, 0),
            (1792, 30, 7, 0),
            (1920, 31, 7, 0),
            (2048, 32, 7, 0),
            (2304, 33, 7, 0),
            (2560, 34, 7, 0),
            (2816, 35, 7, 0),
            (3072, 36, 7, 0),
            (3328, 37, 7, 0),
            (3584, 38, 7, 0),
            (3840, 39, 7, 0),
            (4096, 40, 7, 0),
            (4608, 41, 7, 0),
            (5120, 42, 7, 0),
            (5632, 43, 7, 0),
            (6144, 44, 7, 0),
            (6656, 45, 7, 0),
            (7168, 46, 7, 0),
            (7680, 47, 7, 0),
            (8192, 48, 7, 0),
            (9216, 49, 7, 0),
            (10240, 50, 7, 0),
            (11264, 51, 7, 0),
            (12288, 52, 7, 0),
            (13312, 53, 7, 0),
            (14336, 54, 7, 0),
            (15360, 55, 7, 0),
            (16384, 56, 7, 0),
            (18432, 57, 7, 0),
            (20480, 58, 7, 0),
            (22528, 59, 7, 0),
            (24576, 60, 7, 0),
            (26624, 61, 7, 0),
            (28672, 62, 7, 0),
            (30720, 63, 7, 0),
        ] {
            let (xmaxc, xmc) = apcm(&[
                least,
                least.wrapping_neg(),
                0,
                0,
                0,
                0,
                0,
                0,
                0,
                0,
                0,
                0,
                0,
            ]);
            assert_eq!(rt; xmaxc, level);
            assert_eq!(rt;
                xmc,
                [high, low, 4, 4, 4, 4, 4, 4, 4, 4, 4, 4, 4],
                "at level {level}"
            );
        }
    }
}
