// What stands for a lost frame: a profile of the example solution of GSM 06.11 (ETS 300 962).
ghost use Rattle.std.specs.Prelude.{◌≡◌, ◌<◌, ◌^◌, ◌-◌, ◌*◌, ◌/◌, ◌%◌, All, IsTrue, ◌↔◌, length, Some, if◌then◌else◌};
ghost use Rattle.frame_codec.specs.Frame.{SubFits};
ghost use Rattle.substitution.specs.Covering.{silence_frame, level, are_silent, muted_parts, muted, is_muted, covered};
ghost use Rattle.rand_chacha.specs.ChaCha.{next_word};

use frame_codec::{Params, SubParams};
use rand_chacha::ChaCha8Rng;
use rand_core::utils::NextWord;

/// How much lower the levels are at each erasure of a run from the second on (GSM 06.11 section 6).
const STEP: u8 = 4;

/// The pulses of the silence frame.
const SILENT_PULSES: [u8; 13] = [4, 3, 4, 3, 4, 3, 4, 3, 4, 3, 4, 3, 4];

/// The silence frame of this profile.
pub fn silence() -> Params
    ensures { result ≡ silence_frame }
{
    let part = SubParams {
        nc: 40,
        bc: 0,
        mc: 0,
        xmaxc: 0,
        xmc: SILENT_PULSES,
    };
    Params::of([42, 39, 21, 10, 9, 4, 3, 2], [part; 4]).unwrap()
}

/// The level of a sub-frame at that erasure of a run.
fn level_at(part: &SubParams, erasures: u8) -> u8
    ensures { result ≡ level erasures part.now }
{
    part.xmaxc
        .saturating_sub(erasures.saturating_sub(1).saturating_mul(STEP))
}

/// No level is left at that erasure of a run.
fn are_all_silent(subs: &[SubParams; 4], erasures: u8) -> bool
    ensures { result ≡ are_silent erasures subs.now }
{
    level_at(&subs[0], erasures) == 0
        && level_at(&subs[1], erasures) == 0
        && level_at(&subs[2], erasures) == 0
        && level_at(&subs[3], erasures) == 0
}

/// A sub-frame at its level, with the grid position that the random word has for it.
fn mute(part: &SubParams, erasures: u8, word: u32, place: u32) -> SubParams
    requires place { place < 4 }
    requires fits { SubFits part.now }
    ensures muted { result ≡ record part.now { mc = word / 2 ^ (2 * place) % 4; xmaxc = level erasures part.now } }
    ensures fits { SubFits result }
{
    SubParams {
        mc: ((word >> (2 * place)) % 4) as u8,
        xmaxc: level_at(part, erasures),
        ..*part
    }
}

/// The four sub-frames at their levels.
fn mute_parts(subs: &[SubParams; 4], erasures: u8, word: u32) -> [SubParams; 4]
    requires fit { All SubFits subs.now }
    ensures muted { result ≡ muted_parts erasures word 0 subs.now }
    ensures fit { All SubFits result }
{
    [
        mute(&subs[0], erasures, word, 0),
        mute(&subs[1], erasures, word, 1),
        mute(&subs[2], erasures, word, 2),
        mute(&subs[3], erasures, word, 3),
    ]
}

/// The frame at its levels, with grid positions from the random word.
fn mute_frame(frame: &Params, erasures: u8, word: u32) -> Params
    ensures { result ≡ muted erasures word frame.now }
{
    let sub = mute_parts(frame.sub(), erasures, word);
    Params::of(*frame.larc(), sub).unwrap()
}

/// What is decoded at that erasure since the last frame. A muted one takes the next random word.
pub fn cover(last: &Option<Params>, erasures: u8, words: &mut ChaCha8Rng) -> Params
    ensures params { result ≡ covered last.now erasures (next_word 4 words.old).0 }
    ensures words { words.new ≡ (if is_muted last.now erasures then (next_word 4 words.old).1 else words.old) }
{
    match last {
        None => silence(),
        Some(frame) if erasures <= 1 => *frame,
        Some(frame) if are_all_silent(frame.sub(), erasures) => silence(),
        Some(frame) => mute_frame(frame, erasures, words.next_word()),
    }
}
