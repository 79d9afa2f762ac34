// The atomic steps of the ring.
use frame_codec::Frame33;

/// One atomic step of one seat, by the seat's number.
#[derive(Clone, Copy, Debug, PartialEq, Eq)]
pub enum CoreEvent {
    /// A pool becomes the caller of a berth that it has the right to.
    Enlist {
        seat: u32,
        berth: u32,
    },
    /// A filer looks at the slot of a number, with a frame to file.
    Load {
        seat: u32,
        number: u64,
        frame: Frame33,
    },
    /// A filer in flight puts its frame into the slot that it found free.
    Publish {
        seat: u32,
    },
    /// The player takes the item of its position.
    Tick {
        seat: u32,
    },
    /// A caller gives its cell back.
    Leave {
        seat: u32,
    },
    /// A pool hands on the right to one caller, or a caller writes a note: to a new seat.
    Split {
        seat: u32,
        right: u32,
    },
    /// A caller reads a note.
    Learn {
        seat: u32,
        note: u32,
    },
    /// A pool takes the list of a caller that has left.
    Gather {
        seat: u32,
        other: u32,
    },
    /// A filer says a source.
    Source {
        seat: u32,
        ssrc: u32,
    },
    /// A filer says a base.
    Base {
        seat: u32,
        ts: u32,
    },
    /// The player looks at the base.
    Peek {
        seat: u32,
    },
    /// The player looks whether a frame waits so many numbers ahead of its position.
    Look {
        seat: u32,
        ahead: u32,
    },
    /// The player takes the item of its position, which is not to be played.
    Retire {
        seat: u32,
    },
    /// The player looks whether no frame waits at its position, so that a beat may pass there.
    Hold {
        seat: u32,
    },
}
