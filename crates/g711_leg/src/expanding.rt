// From a code to its sample.
ghost use Rattle.std.specs.Prelude.{◌≡◌, ◌≤◌};
ghost use Rattle.g711_leg.specs.Codes.{bits_of, is_negative, magnitude_of, value_of};

use crate::law::Law;

/// The sample of a code, of 16 bits (ITU-T G.711).
#[tactic(auto, unfolding(crate::specs::Codes::value_of))]
pub fn expand(law: Law, code: u8) -> i16
    ensures { result ≡ value_of law code }
{
    let bits = bits(law, code);
    let size = magnitude(law, bits) as i16;
    if is_negative(law, bits) { -size } else { size }
}

/// The bits of sign, segment and step, without the inversion that they are sent with.
#[tactic(auto, unfolding(crate::specs::Codes::bits_of))]
fn bits(law: Law, code: u8) -> u8
    ensures { result ≡ bits_of law code }
{
    match law {
        Law::Mu => 255 - code,
        Law::A => code ^ 0x55,
    }
}

/// Whether these bits have the sign of a negative value.
fn is_negative(law: Law, bits: u8) -> bool
    ensures { result ≡ is_negative law bits }
{
    match law {
        Law::Mu => bits / 128 == 1,
        Law::A => bits / 128 != 1,
    }
}

/// The magnitude of these bits. Their sign does not matter.
#[tactic(auto, unfolding(crate::specs::Codes::magnitude_of))]
pub(crate) fn magnitude(law: Law, bits: u8) -> u32
    ensures value { result ≡ magnitude_of law bits }
    ensures most { result ≤ 32256 }
{
    let segment = u32::from(bits / 16 % 8);
    let step = u32::from(bits % 16);
    match law {
        Law::Mu => ((step * 8 + 132) << segment) - 132,
        Law::A if segment == 0 => step * 16 + 8,
        Law::A => (step * 16 + 264) << (segment - 1),
    }
}
