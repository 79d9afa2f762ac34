// The fixed header of a packet.

/// The fields of the fixed header (RFC 3550 section 5.1).
#[derive(Clone, Copy, Debug, PartialEq, Eq)]
pub struct RtpHead {
    pub marker: bool,
    /// 7 bits; 3 is GSM full rate (RFC 3551 section 6).
    pub payload_type: u8,
    /// Rises by one a packet, and wraps.
    pub sequence: u16,
    /// In samples at 8 kHz, and wraps.
    pub timestamp: u32,
    /// The synchronization source.
    pub ssrc: u32,
}
