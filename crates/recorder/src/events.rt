// The events of the files.
use crate::packet::Packet;
use frame_codec::Frame33;
use playout::FileReply;

/// An event of a script.
#[derive(Drop)]
pub enum ScriptEvent {
    /// The player takes the item of its next 20 ms.
    Tick,
    /// A filer, by its caller number, files a frame under a number of 20 ms ticks.
    File {
        caller: u8,
        number: u64,
        frame: Frame33,
    },
    /// A filer takes a datagram at a moment, in samples of 125 microseconds.
    Datagram {
        caller: u8,
        at: u32,
        octets: Packet,
    },
    /// The player makes its next beat.
    Beat,
}

/// An event of the player's journal.
#[derive(Clone, Copy, Debug, PartialEq, Eq)]
pub enum PlayEvent {
    /// A beat before there was a base.
    Idle,
    /// The held base (an RTP timestamp) was seen.
    Base { base: u32 },
    /// A tick for which no frame came.
    Erasure,
    /// A tick that played this frame.
    Frame(Frame33),
    /// A beat that passed at the same number, for which no frame had come.
    Held,
    /// No beat was let pass: a frame waited for the next number.
    Found,
    /// No frame waited so many numbers ahead of the next one.
    LookFree { ahead: u32 },
    /// A frame waited so many numbers ahead of the next one.
    LookFilled { ahead: u32 },
    /// A number for which no frame came was left out.
    RetiredErasure,
    /// A number was left out, with this frame.
    RetiredFrame(Frame33),
}

/// What a filer said of its packet, and what was held then.
#[derive(Clone, Copy, Debug, PartialEq, Eq)]
pub struct Asked2 {
    pub said: u32,
    pub held: u32,
}

/// An event of a filer's journal. Each datagram gives `Source` and `Base` where those calls were made, and then one
/// `File` for each frame, or one other event.
#[derive(Clone, Copy, Debug, PartialEq, Eq)]
pub enum FilerEvent {
    /// The source (RTP's SSRC) of the first packet was said.
    Source(Asked2),
    /// The timestamp of the first packet was said, as the base of the numbers.
    Base(Asked2),
    /// A frame was filed under a number, with this reply.
    File {
        number: u64,
        frame: Frame33,
        reply: FileReply,
    },
    /// The datagram was refused by its octets: 1 to 10 are the refusals of RTP, 17 to 22 those of RTCP. `detail` is 0
    /// where the refusal tells no number.
    Refused {
        code: u8,
        detail: u16,
    },
    /// An RTCP datagram was read.
    Rtcp,
    /// The packet is of another source than the held one.
    Stranger {
        ssrc: u32,
        held: u32,
    },
    /// The packet has no frame.
    Empty,
}
