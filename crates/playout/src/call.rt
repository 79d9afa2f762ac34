// The calls of the playout machine.
use crate::reply::FileReply;
use frame_codec::{Frame33, Item};

/// One call of a filer or of the player, with its reply.
#[derive(Clone, Copy, Debug, PartialEq, Eq)]
pub enum Call {
    /// A filer files a frame under a number of 20 ms ticks.
    FileCall {
        number: u64,
        frame: Frame33,
        reply: FileReply,
    },
    /// A filer says the source (RTP's SSRC) of its packet. The first one said is held.
    SourceCall {
        ssrc: u32,
        held: u32,
    },
    /// A filer says the timestamp of its packet. The first one said is held, as the base of the numbers.
    BaseCall {
        ts: u32,
        held: u32,
    },
    /// The player looks whether a base is held.
    PeekCall {
        held: Option<u32>,
    },
    /// The player takes the item of the next number. It is never `Idle`.
    TickCall {
        item: Item,
    },
    /// The player looks whether a frame waits so many numbers ahead, fewer than the line has slots.
    LookCall {
        ahead: u32,
        filled: bool,
    },
    /// The player lets a beat pass at the same number where no frame waits under it.
    HoldCall {
        held: bool,
    },
    /// The player takes the item of the next number and does not play it. It is never `Idle`.
    RetireCall {
        item: Item,
    },
}
