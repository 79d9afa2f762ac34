// What filers and the player call, whatever implements it.
ghost use Rattle.std.specs.Prelude.{◌≡◌, ◌≢◌, ◌<◌, ◌+◌, ◌^◌, ℕ, Option};
ghost use Rattle.frame_codec.specs.declared.item.Item.{Item};
ghost use Rattle.playout.specs.declared.call.Call.{Call};
ghost use Rattle.playout.specs.History.{ReplyFits};

use crate::reply::FileReply;
use frame_codec::{Frame33, Item};

/// A filer's side of a line. Each call is one step of a machine that others may share; none waits for anybody.
pub trait FilerSide {
    /// The side went from an earlier state to a later one by this call, with the reply in it.
    ghost did: { Self → Call → Self → Type 0 };

    /// Says the source of a packet, and answers the one that is held.
    fn source(&mut self, ssrc: u32) -> u32
        ensures did { did self.old (Call.SourceCall ssrc result) self.new };

    /// Says the timestamp of a packet, and answers the base that is held.
    fn base(&mut self, ts: u32) -> u32
        ensures did { did self.old (Call.BaseCall ts result) self.new };

    /// Files a frame under its number.
    fn file(&mut self, number: u64, frame: &Frame33) -> FileReply
        requires { number < 2 ^ 47 }
        ensures did { did self.old (Call.FileCall number frame.now result) self.new }
        ensures fits { ReplyFits number result };
}

/// The player's side of a line. Each call is one step; none waits for anybody.
pub trait PlayerSide {
    /// The side went from an earlier state to a later one by this call, with the reply in it.
    ghost did: { Self → Call → Self → Type 0 };

    /// The number that the next tick or retire takes.
    ghost position: { Self → ℕ };

    /// There are 2 ^ g slots.
    ghost g: { Self → ℕ };

    /// Answers the base that is held, or none as long as no packet came.
    fn peek(&mut self) -> Option<u32>
        ensures did { did self.old (Call.PeekCall result) self.new }
        ensures stays { position self.new ≡ position self.old }
        ensures slots { g self.new ≡ g self.old };

    /// Takes the item of the next number: its frame, or an erasure where none was filed.
    fn tick(&mut self) -> Item
        requires { position self.old < 2 ^ 33 }
        ensures did { did self.old (Call.TickCall result) self.new }
        ensures goes_on { position self.new ≡ position self.old + 1 }
        ensures slots { g self.new ≡ g self.old }
        ensures played { result ≢ Item.Idle };

    /// Whether a frame waits so many numbers ahead of the next one. Nothing is taken.
    fn look(&mut self, ahead: u32) -> bool
        requires slot { ahead < 2 ^ g self.old }
        requires position { position self.old < 2 ^ 33 }
        ensures did { did self.old (Call.LookCall ahead result) self.new }
        ensures stays { position self.new ≡ position self.old }
        ensures slots { g self.new ≡ g self.old };

    /// Lets a beat pass at the same number where no frame waits under it, and answers whether none does.
    fn hold(&mut self) -> bool
        requires { position self.old < 2 ^ 33 }
        ensures did { did self.old (Call.HoldCall result) self.new }
        ensures stays { position self.new ≡ position self.old }
        ensures slots { g self.new ≡ g self.old };

    /// Takes the item of the next number and leaves it unplayed: its frame, or an erasure where none was filed.
    fn retire(&mut self) -> Item
        requires { position self.old < 2 ^ 33 }
        ensures did { did self.old (Call.RetireCall result) self.new }
        ensures goes_on { position self.new ≡ position self.old + 1 }
        ensures slots { g self.new ≡ g self.old }
        ensures taken { result ≢ Item.Idle };
}
