// The excitation of a piece, sub-frame by sub-frame: GSM 06.10 sections 5.2.11 to 5.2.18.
ghost use Rattle.std.specs.Prelude.{◌≡◌, ◌++◌, ℤ, List, All, length};
ghost use Rattle.frame_codec.specs.declared.params.SubParams.{SubParams};
ghost use Rattle.frame_codec.specs.Frame.{SubFits};
ghost use Rattle.fr_encoder.specs.Excitation.{Excites};

use frame_codec::SubParams;
use rpe_ltp::LongTerm;

/// The fields of the four sub-frames of a piece, from its short-term residual.
pub fn code_residual(long_term: &mut LongTerm, d: &[i16; 160]) -> [SubParams; 4]
    ensures fit { All SubFits result }
    ensures goes_on { (before : List ℤ) (subs : List SubParams) → Excites before subs long_term.old
        → Excites (before ++ d.now) (subs ++ result) long_term.new }
{
    let (first, rest) = d.split_at(40);
    let (second, rest) = rest.split_at(40);
    let (third, fourth) = rest.split_at(40);
    [
        long_term.code(&forty(first)),
        long_term.code(&forty(second)),
        long_term.code(&forty(third)),
        long_term.code(&forty(fourth)),
    ]
}

/// Forty values as an array.
#[inline]
fn forty(values: &[i16]) -> [i16; 40]
    requires { length values.now ≡ 40 }
    ensures { result ≡ values.now }
{
    let mut array = [0; 40];
    array.copy_from_slice(values);
    array
}
