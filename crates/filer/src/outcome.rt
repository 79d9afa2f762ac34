// What came of a datagram.
use crate::replies::Replies;
use rtcp_stats::RtcpFault;
use rtp_codec::RtpFault;

/// A call that said a value, with the value that is held since.
#[derive(Clone, Copy, Debug, PartialEq, Eq)]
pub struct Asked {
    pub said: u32,
    pub held: u32,
}

/// How a datagram ended.
#[derive(Drop, Debug)]
pub enum OutcomeEnd {
    /// An RTCP compound was read.
    Rtcp,
    /// An RTCP compound was refused.
    RtcpRefused(RtcpFault),
    /// A packet was refused.
    RtpRefused(RtpFault),
    /// A packet without a frame.
    Empty,
    /// A packet of another source than the held one.
    Stranger { ssrc: u32, held: u32 },
    /// The frames were filed, under `first` and the numbers that follow it, with these replies.
    Filed { first: u64, replies: Replies },
}

/// What came of a datagram. A value is there exactly where its call was made.
#[derive(Drop, Debug)]
pub struct Outcome {
    /// Whether the source was said.
    pub source: Option<Asked>,
    /// Whether the timestamp was said.
    pub base: Option<Asked>,
    pub end: OutcomeEnd,
}
