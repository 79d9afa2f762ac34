// The pulses of a sub-frame: GSM 06.10 sections 5.2.15 to 5.2.17.
ghost use Rattle.std.specs.Prelude.{◌≡◌, ◌<◌, ◌≤◌, ℕ, pos, slice_index, map};
ghost use Rattle.fixed_arith.specs.Signal.{at};
ghost use Rattle.frame_codec.specs.Frame.{SubFits};
ghost use Rattle.rpe_ltp.specs.Pulses.{level_of, pulse_of, half_of, spread_at, excitation_at};

use fixed_arith::{add, mult_r};
use frame_codec::SubParams;

/// The factor of each mantissa, as a fraction of 15 binary places (`FAC`).
const FACTORS: [i16; 8] = [18431, 20479, 22527, 24575, 26623, 28671, 30719, 32767];

/// The values (`xMp`) of a sub-frame's thirteen pulses, from its level of 6 bits and its codes of 3 bits each
/// (GSM 06.10 sections 5.2.15 and 5.2.16).
#[inline]
pub fn inverse_apcm(xmaxc: u8, xmc: &[u8; 13]) -> [i16; 13]
    requires level { xmaxc < 64 }
    requires pulses { (i : ℕ) → i < 13 → slice_index xmc.now i < 8 }
    ensures { result ≡ map (pulse_of (level_of xmaxc)) xmc.now }
{
    let (shift, mantissa) = level(xmaxc);
    let mut values = [0; 13];
    for i in 0..13 {
        values[i] = pulse(shift, mantissa, xmc[i]);
    }
    values
}

/// The shift, which is 6 less the exponent, and the mantissa of a level's code.
#[inline]
pub(crate) fn level(xmaxc: u8) -> (u32, usize)
    requires { xmaxc < 64 }
    ensures level { record { shift = result.0; mantissa = result.1 } ≡ level_of xmaxc }
    ensures shift { result.0 ≤ 10 }
    ensures mantissa { result.1 < 8 }
{
    match xmaxc {
        0 => (10, 7),
        1 => (9, 7),
        2 | 3 => (8, 4 * xmaxc as usize - 5),
        4..8 => (7, 2 * xmaxc as usize - 7),
        8..16 => (6, xmaxc as usize - 8),
        _ => (7 - xmaxc as u32 / 8, xmaxc as usize % 8),
    }
}

/// Half a step at a shift.
#[inline]
fn half(shift: u32) -> i16
    requires { shift ≤ 10 }
    ensures { result ≡ pos (half_of shift) }
{
    if shift == 0 { 0 } else { 1 << (shift - 1) }
}

/// The value of a pulse.
#[inline]
#[tactic(auto, unfolding(crate::specs::Pulses::pulse_of))]
fn pulse(shift: u32, mantissa: usize, code: u8) -> i16
    requires shift { shift ≤ 10 }
    requires mantissa { mantissa < 8 }
    requires code { code < 8 }
    ensures { result ≡ pulse_of (record { shift = shift; mantissa = mantissa }) code }
{
    let scaled = mult_r(FACTORS[mantissa], (2 * i16::from(code) - 7) * 4096);
    add(scaled, half(shift)) >> shift
}

/// The long-term residual (`ep`) of a sub-frame: its pulses on every third place from the grid position on (GSM 06.10 section 5.2.17).
#[inline]
pub(crate) fn excitation(sub: &SubParams) -> [i16; 40]
    requires fits { SubFits sub.now }
    ensures { (k : ℕ) → k < 40 → at result k ≡ excitation_at sub.now k }
{
    let pulses = inverse_apcm(sub.xmaxc, &sub.xmc);
    spread(sub.mc as usize, &pulses)
}

/// The values on every third place from the grid position on, and 0 elsewhere.
#[inline]
fn spread(grid: usize, pulses: &[i16; 13]) -> [i16; 40]
    requires { grid < 4 }
    ensures { (k : ℕ) → k < 40 → at result k ≡ spread_at grid pulses.now k }
{
    let mut places = [0; 40];
    for i in 0..13 {
        places[grid + 3 * i] = pulses[i];
    }
    places
}

#[cfg(test)]
mod tests {
    use super::*;

    #[test]
    fn pulses_of_the_least_and_the_greatest_level(rt: HostRuntime) {
        let codes = [0, 1, 2, 3, 4, 5, 6, 7, 7, 7, 7, 7, 7];
        let least = [-28, -20, -12, -4, 4, 12, 20, 28, 28, 28, 28, 28, 28];
        assert_eq!(rt; inverse_apcm(0, &codes), least);
        let greatest = [
            -28671, -20479, -12288, -4096, 4096, 12288, 20479, 28671, 28671, 28671, 28671, 28671,
            28671,
        ];
        assert_eq!(rt; inverse_apcm(63, &codes), greatest);
    }

    #[test]
    fn greatest_pulse_of_a_level(rt: HostRuntime) {
        for (level, want) in [
            (1, 56),
            (2, 84),
            (3, 112),
            (7, 224),
            (8, 252),
            (15, 448),
            (16, 504),
            (31, 1792),
        ] {
            assert_eq!(rt; inverse_apcm(level, &[7; 13])[12], want, "at level {level}");
        }
    }
}
