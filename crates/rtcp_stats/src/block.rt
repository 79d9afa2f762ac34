// The parts of a report.

/// What a sender says of itself in a sender report (RFC 3550 section 6.4.1).
#[derive(Clone, Copy, Debug, PartialEq, Eq)]
pub struct SenderInfo {
    pub ssrc: u32,
    /// The time of sending, as NTP counts it: seconds in the upper 32 bits.
    pub ntp: u64,
    /// The same time as a timestamp of the sender's packets.
    pub rtp: u32,
    /// How many packets the sender has sent.
    pub packets: u32,
    /// How many octets of payload the sender has sent.
    pub octets: u32,
}

/// What a receiver says of one source (RFC 3550 section 6.4.1).
#[derive(Clone, Copy, Debug, PartialEq, Eq)]
pub struct ReportBlock {
    pub ssrc: u32,
    /// The part of the packets that were lost since the last report, in 256ths.
    pub fraction: u8,
    /// How many packets were lost in all, a number of 24 bits with its sign.
    pub lost: i32,
    /// The highest sequence number, with the count of its cycles above the lower 16 bits.
    pub highest: u32,
    /// The interarrival jitter, in units of the timestamp.
    pub jitter: u32,
    /// The middle 32 bits of the last sender report's NTP time, or 0.
    pub lsr: u32,
    /// The delay since that report, in 65536ths of a second, or 0.
    pub dlsr: u32,
}
