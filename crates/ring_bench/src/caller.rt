// Who calls, whatever stands behind.
ghost use Rattle.std.specs.Prelude.{◌≡◌, ℕ, ◌+◌, ◌<◌, ◌^◌};
ghost use Rattle.playout.specs.declared.reply.FileReply.TheVariants.{Accepted, Beyond, Duplicate, Late};

use frame_codec::Frame33;
use playout::FileReply;

/// The number of the first tick.
pub(crate) const START: u64 = 4294967296;

/// 2^g slots.
pub(crate) const G: u32 = 5;

/// 2^G
pub(crate) const SLOTS: u64 = 32;

// No run comes near it.
const LAST: u64 = 1 << 46;

pub(crate) trait Filer {
    fn file(&mut self, number: u64, frame: &Frame33) -> FileReply
        requires { number < 2 ^ 47 };
}

pub(crate) trait Player {
    /// The number that the next tick plays.
    fn position(&self) -> u64;

    /// Plays the next number. Whether a frame was there.
    fn tick(&mut self) -> bool;
}

/// The number itself, where a filing takes it.
pub(crate) fn bounded(number: u64) -> u64
    ensures low { result < 2 ^ 47 }
    ensures same { number < 2 ^ 46 → result ≡ number }
{
    if number < LAST { number } else { LAST }
}

/// The number that a filer tries after this reply.
pub(crate) fn following(number: u64, reply: FileReply) -> u64
    requires { number < 2 ^ 47 }
    ensures accepted { reply ≡ Accepted → result ≡ number + 1 }
    ensures duplicate { reply ≡ Duplicate → result ≡ number + 1 }
    ensures late { (ahead : ℕ) → reply ≡ Late ahead → result ≡ ahead }
    ensures beyond { (ahead : ℕ) → reply ≡ Beyond ahead → result ≡ number }
{
    match reply {
        FileReply::Accepted | FileReply::Duplicate => number + 1,
        FileReply::Late { ahead } => ahead,
        FileReply::Beyond { ahead: _ } => number,
    }
}
