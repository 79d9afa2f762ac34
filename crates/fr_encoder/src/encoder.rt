// An encoder of full-rate frames: GSM 06.10 section 5.2.
ghost use Rattle.std.specs.Prelude.{◌∷◌, ◌++◌, [], ℤ, List};
ghost use Rattle.frame_codec.specs.Frame.{Fields};
ghost use Rattle.fr_encoder.specs.Coding.{Encodes};

use crate::excitation::code_residual;
use crate::front::Front;
use frame_codec::Params;
use rpe_ltp::LongTerm;
use std::marker::Model;

/// What the next piece needs of those before.
#[derive(Drop)]
pub struct Encoder {
    front: Front,
    long_term: LongTerm,
}

impl Model for Encoder {
    ghost use Rattle.fr_encoder.specs.Coding.{Held};

    ghost Value = { Held };

    ghost view = { λ e. record { front = e.front; long_term = e.long_term } };
}

impl Encoder {
    /// An encoder that was given no piece.
    pub fn new() -> Self
        ensures { Encodes [] [] result }
    {
        Encoder {
            front: Front::new(),
            long_term: LongTerm::new(),
        }
    }

    /// Codes the next piece, 160 samples at 8 kHz, which are 20 ms.
    pub fn encode(&mut self, samples: &[i16; 160]) -> Params

        // The pieces before and this one are one list, and all frames are its coded speech.
        ensures goes_on { (before : List ℤ) (frames : List Fields) → Encodes before frames self.old
            → Encodes (before ++ samples.now) (frames ++ result ∷ []) self.new }
    {
        let (larc, residual) = self.front.step(samples);
        let sub = code_residual(&mut self.long_term, &residual);
        Params::of(larc, sub).unwrap()
    }
}
