// The speech of a list of items.
ghost use Rattle.std.specs.Prelude.{◌≡◌, ◌∷◌, ◌++◌, [], List, ℕ, ℤ, pos, replicate};
ghost use Rattle.frame_codec.specs.declared.item.Item.{Item};
ghost use Rattle.frame_codec.specs.declared.item.Item.TheVariants.{Idle};
ghost use Rattle.substitution.specs.Heard.{Voices};

use crate::heard::Heard;
use crate::masker::Masker;
use fr_decoder::Decoder;
use frame_codec::Item;
use std::marker::Model;

/// Plays items: a masker, and the decoder of what it gives.
#[derive(Drop)]
pub struct Voice {
    masker: Masker,
    decoder: Decoder,
}

impl Model for Voice {
    ghost use Rattle.substitution.specs.Heard.{Sounding};

    ghost Value = { Sounding };

    ghost view = { λ v. record { masker = v.masker; decoder = v.decoder } };
}

impl Voice {
    /// A voice that has played nothing. The seed is that of its masker.
    pub fn new(seed: [u8; 32]) -> Self
        ensures { Voices seed [] [] result }
    {
        Voice {
            masker: Masker::new(seed),
            decoder: Decoder::new(),
        }
    }

    /// Plays the next item: 160 samples at 8 kHz, which are 20 ms. `Idle` gives zeros and changes nothing.
    pub fn play(&mut self, item: Item, out: &mut [i16; 160])

        // An idle line is silent, and takes no time of the decoder.
        ensures idle { item ≡ Idle → (out.new ≡ replicate 160 (pos 0)) × (self.new ≡ self.old) }

        // The items before and this one are one list, and all samples are what is heard of it.
        ensures goes_on { (seed : List ℕ) (items : List Item) (samples : List ℤ) → Voices seed items samples self.old
            → Voices seed (items ++ item ∷ []) (samples ++ out.new) self.new }
    {
        match self.masker.step(item) {
            Heard::Nothing => be_silent(out),
            Heard::Speech(params) => self.decoder.decode(&params, out),
        }
    }
}

/// No speech: 160 zeros.
fn be_silent(out: &mut [i16; 160])
    ensures { out.new ≡ replicate 160 (pos 0) }
{
    *out = [0; 160];
}
