// Which fields are decoded for each item of a list.
ghost use Rattle.std.specs.Prelude.{◌≡◌, ◌∷◌, ◌++◌, [], List, ℕ};
ghost use Rattle.frame_codec.specs.declared.item.Item.{Item};
ghost use Rattle.substitution.specs.declared.heard.Heard.{Heard};
ghost use Rattle.substitution.specs.Masking.{Masks, Steps};

use crate::covering::cover;
use crate::heard::Heard;
use frame_codec::{Item, Params, unpack};
use rand_chacha::ChaCha8Rng;
use rand_core::SeedableRng;
use std::marker::Model;

/// Covers lost frames: the first repeats the last frame, those that follow fade it out (GSM 06.11, in this project's profile).
#[derive(Drop)]
pub struct Masker {
    last: Option<Params>,
    /// How many erasures there were since the last frame, up to 255.
    erasures: u8,
    words: ChaCha8Rng,
}

impl Model for Masker {
    ghost use Rattle.substitution.specs.Masking.{Kept};

    ghost Value = { Kept };

    ghost view = { λ m. record { last = m.last; erasures = m.erasures; words = m.words } };
}

impl Masker {
    /// A masker that was given no item. Its grid positions come from ChaCha8 with the seed as key.
    pub fn new(seed: [u8; 32]) -> Self
        ensures { Masks seed [] [] result }
    {
        Masker {
            last: None,
            erasures: 0,
            words: ChaCha8Rng::from_seed(seed),
        }
    }

    /// What is decoded for the next item: nothing exactly for `Idle`, which changes nothing.
    pub fn step(&mut self, item: Item) -> Heard

        // The item is taken by the rule of its kind.
        ensures exact { Steps self.old item result self.new }

        // The items before and this one are one list, and all that was given is its masking.
        ensures goes_on { (seed : List ℕ) (items : List Item) (heard : List Heard) → Masks seed items heard self.old
            → Masks seed (items ++ item ∷ []) (heard ++ result ∷ []) self.new }
    {
        match item {
            Item::Idle => Heard::Nothing,
            Item::Frame(frame) => {
                let params = unpack(&frame);
                self.last = Some(params);
                self.erasures = 0;
                Heard::Speech(params)
            }
            Item::Erasure => {
                self.erasures = self.erasures.saturating_add(1);
                Heard::Speech(cover(&self.last, self.erasures, &mut self.words))
            }
        }
    }
}
