// The codes of a piece: GSM 06.10 sections 5.2.4 to 5.2.7.
ghost use Rattle.std.specs.Prelude.{◌≡◌, ◌<◌, slice_index};
ghost use Rattle.lar_filter.specs.Autocorrelation.{onward};
ghost use Rattle.fr_encoder.specs.ShortTerm.{codes_of_piece};

use lar_filter::{autocorrelate, quantise_lars, schur};

/// The codes of a piece that was preprocessed; the samples are scaled, as they go into the filter.
pub fn code_ratios(samples: &mut [i16; 160]) -> [u8; 8]
    ensures codes { result ≡ codes_of_piece samples.old }
    ensures samples { samples.new ≡ onward samples.old }
    ensures first { (slice_index result 0 < 64) × (slice_index result 1 < 64) }
    ensures second { (slice_index result 2 < 32) × (slice_index result 3 < 32) }
    ensures third { (slice_index result 4 < 16) × (slice_index result 5 < 16) }
    ensures fourth { (slice_index result 6 < 8) × (slice_index result 7 < 8) }
{
    let sums = autocorrelate(samples);
    quantise_lars(&schur(&sums))
}
