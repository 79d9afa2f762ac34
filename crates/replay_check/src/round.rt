// A round of the generator.
ghost use Rattle.std.specs.Prelude.{◌≡◌, ◌≤◌, ◌+◌, ◌*◌, ◌/◌, ◌<◌, ◌^◌, ◌∷◌};
ghost use Rattle.recorder.specs.Script.{FileFits};
ghost use Rattle.recorder.specs.declared.events.ScriptEvent.TheVariants.{File};
ghost use Rattle.replay_check.specs.Generator.{made_file, made_heading, made_number, words_text};

use crate::words::Words;
use frame_codec::{Frame33, frame_of};

const START: u64 = 1 << 32;

/// What a filer files in a round.
#[derive(Clone, Copy)]
pub struct Round {
    pub caller: u8,
    pub number: u64,
    pub frame: Frame33,
}

// The number of the frame, by the round's first word.
fn number_of(round: u32, word: u32) -> u64
    ensures value { result ≡ made_number round word }
    ensures small { result < 2 ^ 47 }
{
    let first = START + round as u64;
    match (word >> 16) % 16 {
        0 => first + 69,
        1 => first - 1,
        _ => first + ((word >> 8) % 8) as u64,
    }
}

// The frame whose first octet has the highest four bits of the round's first word.
fn frame_of_words(word: u32, words: &mut Words) -> Frame33
    requires { words.old.place + 8 < 2 ^ 68 }
    ensures text { result ≡ (208 + word / 2 ^ 28) ∷ words_text words.old.key words.old.place 8 }
    ensures key { words.new.key ≡ words.old.key }
    ensures place { words.new.place ≡ words.old.place + 8 }
{
    let mut octets = [0xD0 + (word >> 28) as u8; 33];
    octets[1..].copy_from_slice(&words.next_eight());
    frame_of(&octets).unwrap()
}

/// Draws what is filed in a round, of nine words.
pub fn round_of(round: u32, filers: u32, words: &mut Words) -> Round
    requires some { 1 ≤ filers }
    requires few { filers ≤ 64 }
    requires place { words.old.place ≡ 9 * round }
    ensures event { File result.caller result.number result.frame ≡ made_file words.old.key filers round }
    ensures fits { FileFits (made_heading filers) result.caller result.number result.frame }
    ensures key { words.new.key ≡ words.old.key }
    ensures place { words.new.place ≡ 9 * (round + 1) }
{
    let word = words.next();
    Round {
        caller: (word % filers) as u8,
        number: number_of(round, word),
        frame: frame_of_words(word, words),
    }
}
