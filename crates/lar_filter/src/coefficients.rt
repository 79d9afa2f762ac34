// Interpolation of the ratios, and the reflection coefficients: GSM 06.10 section 5.2.9.
ghost use Rattle.std.specs.Prelude.{◌≡◌, ℕ, ◌≤◌, ◌<◌, pos, ◌≤ℤ◌};
ghost use Rattle.fixed_arith.specs.Signal.{at};
ghost use Rattle.lar_filter.specs.Coefficients.{between, steepened, coefficient_of};
ghost use Rattle.lar_filter.specs.Parts.{IsPart};

use fixed_arith::{abs_word, add};

// How many samples the first three parts of a frame have.
pub(crate) const FIRST: usize = 13;

pub(crate) const SECOND: usize = 14;

pub(crate) const THIRD: usize = 13;

/// The ratios (`LARp`) of a part of a frame, from those of the frame before and of this one (GSM 06.10 section 5.2.9.1).
/// Part 0 is the frame's samples 0 to 12, part 1 is 13 to 26, part 2 is 27 to 39, and part 3 is 40 to 159.
#[inline]
pub fn interpolate(before: &[i16; 8], now: &[i16; 8], part: u8) -> [i16; 8]
    requires { part ≤ 3 }
    ensures { (i : ℕ) → i < 8 → at result i ≡ between part (at before.now i) (at now.now i) }
{
    let mut ratios = [0; 8];
    for i in 0..8 {
        ratios[i] = mix(part, before[i], now[i]);
    }
    ratios
}

/// One ratio of a part.
#[inline]
#[tactic(auto, unfolding(crate::specs::Coefficients::between))]
fn mix(part: u8, before: i16, now: i16) -> i16
    requires { part ≤ 3 }
    ensures { result ≡ between part before now }
{
    match part {
        0 => add(add(before >> 2, now >> 2), before >> 1),
        1 => add(before >> 1, now >> 1),
        2 => add(add(before >> 2, now >> 2), now >> 1),
        _ => now,
    }
}

/// The reflection coefficients (`rp`) of ratios (GSM 06.10 section 5.2.9.2).
#[inline]
pub fn reflection_of(lar: &[i16; 8]) -> [i16; 8]
    ensures { (i : ℕ) → i < 8 → at result i ≡ coefficient_of (at lar.now i) }
{
    let mut coefficients = [0; 8];
    for i in 0..8 {
        coefficients[i] = reflection(lar[i]);
    }
    coefficients
}

/// The reflection coefficients of a part of a frame, from the ratios of the frame before and of this one.
pub(crate) fn part_coefficients(before: &[i16; 8], now: &[i16; 8], part: u8) -> [i16; 8]
    requires { part ≤ 3 }
    ensures { IsPart before.now now.now part result }
{
    reflection_of(&interpolate(before, now, part))
}

/// The coefficient of a ratio.
#[inline]
#[tactic(auto, unfolding(crate::specs::Coefficients::coefficient_of, fixed_arith::specs::Word::abs_of_word, fixed_arith::specs::Word::clip_word))]
fn reflection(lar: i16) -> i16
    ensures { result ≡ coefficient_of lar }
{
    let value = steepen(abs_word(lar));
    if lar < 0 { -value } else { value }
}

/// The coefficient of a magnitude.
#[inline]
#[tactic(auto, unfolding(crate::specs::Coefficients::steepened, fixed_arith::specs::Word::add_words, fixed_arith::specs::Word::clip_word))]
fn steepen(magnitude: i16) -> i16
    requires { pos 0 ≤ℤ magnitude }
    ensures value { result ≡ steepened magnitude }
    ensures sign { pos 0 ≤ℤ result }
{
    if magnitude < 11059 {
        magnitude << 1
    } else if magnitude < 20070 {
        magnitude + 11059
    } else {
        add(magnitude >> 2, 26112)
    }
}

#[cfg(test)]
mod tests {
    use super::*;

    #[test]
    fn four_parts_between_two_frames(rt: HostRuntime) {
        let before = [25394, 25394, 9012, 16384, 8190, 11468, 7206, 9718];
        let now = [-25394, 24576, -13926, 13926, 6988, -3822, 5242, -3278];
        assert_eq!(rt;
            interpolate(&before, &now, 0),
            [12696, 25189, 3277, 15769, 7889, 7645, 6714, 6468]
        );
        assert_eq!(rt;
            interpolate(&before, &now, 1),
            [0, 24985, -2457, 15155, 7589, 3823, 6224, 3220]
        );
        assert_eq!(rt;
            interpolate(&before, &now, 2),
            [-12698, 24780, -8192, 14540, 7288, 0, 5732, -30]
        );
        assert_eq!(rt; interpolate(&before, &now, 3), now);
    }

    #[test]
    fn coefficients_at_the_edges_of_their_pieces(rt: HostRuntime) {
        let ratios = [0, -1, 11058, -11059, 20069, -20070, 32767, -32768];
        assert_eq!(rt;
            reflection_of(&ratios),
            [0, -2, 22116, -22118, 31128, -31129, 32767, -32767]
        );
    }
}
