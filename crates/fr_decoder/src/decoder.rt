// A decoder of full-rate frames: GSM 06.10 section 5.3.
ghost use Rattle.std.specs.Prelude.{◌∷◌, ◌++◌, [], ℤ, List, All, length, ◌≡◌};
ghost use Rattle.frame_codec.specs.declared.params.SubParams.{SubParams};
ghost use Rattle.frame_codec.specs.Frame.{Fields, SubFits};
ghost use Rattle.rpe_ltp.specs.LongTerm.{Remembers};
ghost use Rattle.fr_decoder.specs.Decoding.{Decodes};

use crate::deemphasis::deemphasise;
use frame_codec::{Params, SubParams};
use lar_filter::{Synthesis, decode_lars};
use rpe_ltp::LongTerm;
use std::marker::Model;

/// What the next frame needs of those before.
#[derive(Drop)]
pub struct Decoder {
    long_term: LongTerm,
    ratios: [i16; 8],
    filter: Synthesis,
    emphasis: i16,
}

impl Model for Decoder {
    ghost use Rattle.fr_decoder.specs.Decoding.{Kept};

    ghost Value = { Kept };

    ghost view = { λ d. record { long_term = d.long_term; ratios = d.ratios; filter = d.filter; emphasis = d.emphasis } };
}

impl Decoder {
    /// A decoder that was given no frame.
    pub fn new() -> Self
        ensures { Decodes [] [] result }
    {
        Decoder {
            long_term: LongTerm::new(),
            ratios: [0; 8],
            filter: Synthesis::new(),
            emphasis: 0,
        }
    }

    /// Decodes the next frame to 160 samples at 8 kHz, which are 20 ms. Each sample is a multiple of 8.
    pub fn decode(&mut self, params: &Params, out: &mut [i16; 160])

        // The frames before and this one are one list, and all samples are its decoded speech.
        ensures goes_on { (frames : List Fields) (samples : List ℤ) → Decodes frames samples self.old
            → Decodes (frames ++ params.now ∷ []) (samples ++ out.new) self.new }
    {
        fill_residual(&mut self.long_term, params.sub(), out);
        let ratios = decode_lars(params.larc());
        self.filter.run_frame(&self.ratios, &ratios, out);
        self.ratios = ratios;
        self.emphasis = deemphasise(self.emphasis, out);
    }
}

/// Puts the values of the four sub-frames in place.
fn fill_residual(long_term: &mut LongTerm, subs: &[SubParams; 4], out: &mut [i16; 160])
    requires fit { All SubFits subs.now }
    ensures goes_on { (before : List SubParams) (values : List ℤ) → Remembers before values long_term.old
        → Remembers (before ++ subs.now) (values ++ out.new) long_term.new }
{
    let (first, rest) = out.split_at_mut(40);
    let (second, rest) = rest.split_at_mut(40);
    let (third, fourth) = rest.split_at_mut(40);
    first.copy_from_slice(&long_term.step(&subs[0]));
    second.copy_from_slice(&long_term.step(&subs[1]));
    third.copy_from_slice(&long_term.step(&subs[2]));
    fourth.copy_from_slice(&long_term.step(&subs[3]));
}
