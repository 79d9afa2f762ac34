// The encoder's first part: from samples to the codes of the ratios and the short-term residual, GSM 06.10 sections 5.2.1 to 5.2.10.
ghost use Rattle.std.specs.Prelude.{◌≡◌, ◌<◌, [], slice_index};
ghost use Rattle.fr_encoder.specs.Fronting.{Fronts, FrontsOn};

use crate::piece_codes::code_ratios;
use crate::preprocessing::Preprocessing;
use lar_filter::{Analysis, decode_lars};
use std::marker::Model;

/// What the next piece needs of those before.
#[derive(Drop)]
pub struct Front {
    offset: Preprocessing,
    ratios: [i16; 8],
    filter: Analysis,
}

impl Model for Front {
    ghost use Rattle.fr_encoder.specs.Fronting.{Kept};

    ghost Value = { Kept };

    ghost view = { λ f. record { offset = f.offset; ratios = f.ratios; filter = f.filter } };
}

impl Front {
    /// An encoder's front that was given no piece.
    pub fn new() -> Self
        ensures { Fronts [] [] [] result }
    {
        Front {
            offset: Preprocessing::new(),
            ratios: [0; 8],
            filter: Analysis::new(),
        }
    }

    /// The codes of the log area ratios (`LARc`) of the next piece, 160 samples at 8 kHz, which are 20 ms, and its short-term residual d.
    pub fn step(&mut self, samples: &[i16; 160]) -> ([u8; 8], [i16; 160])

        // The pieces before and this one are one list, and all that was given is their short-term part.
        ensures goes_on { FrontsOn self.old self.new samples.now result.0 result.1 }
        ensures first { (slice_index result.0 0 < 64) × (slice_index result.0 1 < 64) }
        ensures second { (slice_index result.0 2 < 32) × (slice_index result.0 3 < 32) }
        ensures third { (slice_index result.0 4 < 16) × (slice_index result.0 5 < 16) }
        ensures fourth { (slice_index result.0 6 < 8) × (slice_index result.0 7 < 8) }
    {
        let mut values = *samples;
        self.offset.run(&mut values);
        let larc = code_ratios(&mut values);
        let ratios = decode_lars(&larc);
        self.filter.run_frame(&self.ratios, &ratios, &mut values);
        self.ratios = ratios;
        (larc, values)
    }
}
