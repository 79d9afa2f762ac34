// The random words of the generator.
ghost use Rattle.std.specs.Prelude.{◌≡◌, ◌+◌, ◌<◌, ◌^◌};
ghost use Rattle.replay_check.specs.Generator.{random_word, seed_key, words_text};

use byteorder::{ByteOrder, LittleEndian};
use rand_chacha::ChaCha8Rng;
use rand_core::SeedableRng;
use rand_core::utils::NextWord;
use std::marker::Model;

/// The words of ChaCha8, one after the other. They are seen as their key and the place of the next one.
#[derive(Drop)]
pub struct Words {
    words: ChaCha8Rng,
}

impl Model for Words {
    ghost use Rattle.std.specs.Prelude.{◌≡◌};
    ghost use Rattle.replay_check.specs.Drawn.{Drawn};

    ghost Value = { Drawn };

    ghost view = { λ w. record { key = w.words.key; place = w.words.word_pos } };

    ghost invariant = { λ w. w.words.stream ≡ 0 };
}

impl Words {
    /// The words of a seed, from the first on.
    pub fn new(seed: u64) -> Words
        ensures { result ≡ record { key = seed_key seed; place = 0 } }
    {
        let mut octets = [0; 32];
        LittleEndian::write_u64(&mut octets[..8], seed);
        Words {
            words: ChaCha8Rng::from_seed(octets),
        }
    }

    /// The next word.
    pub fn next(&mut self) -> u32
        requires { self.old.place + 1 < 2 ^ 68 }
        ensures word { result ≡ random_word self.old.key self.old.place }
        ensures state { self.new ≡ record self.old { place = self.old.place + 1 } }
    {
        self.words.next_word()
    }

    // The octets of the next four words.
    fn next_four(&mut self) -> [u8; 16]
        requires { self.old.place + 4 < 2 ^ 68 }
        ensures text { result ≡ words_text self.old.key self.old.place 4 }
        ensures key { self.new.key ≡ self.old.key }
        ensures place { self.new.place ≡ self.old.place + 4 }
    {
        let mut octets = [0; 16];
        LittleEndian::write_u32(&mut octets[..4], self.next());
        LittleEndian::write_u32(&mut octets[4..8], self.next());
        LittleEndian::write_u32(&mut octets[8..12], self.next());
        LittleEndian::write_u32(&mut octets[12..16], self.next());
        octets
    }

    /// The octets of the next eight words, each with its lowest octet first.
    pub fn next_eight(&mut self) -> [u8; 32]
        requires { self.old.place + 8 < 2 ^ 68 }
        ensures text { result ≡ words_text self.old.key self.old.place 8 }
        ensures key { self.new.key ≡ self.old.key }
        ensures place { self.new.place ≡ self.old.place + 8 }
    {
        let mut octets = [0; 32];
        octets[..16].copy_from_slice(&self.next_four());
        octets[16..].copy_from_slice(&self.next_four());
        octets
    }
}
