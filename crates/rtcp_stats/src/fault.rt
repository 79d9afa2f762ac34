// Why a datagram is no RTCP compound.

/// Why a datagram is refused. `Oversize` is tested first; then the packets are tested in order, each by the
/// other cases in this order. `at` is the octet where the packet begins.
#[derive(Clone, Copy, Debug, PartialEq, Eq)]
pub enum RtcpFault {
    /// 2048 octets or more.
    Oversize,
    /// Fewer than 4 octets are left, or the packet goes past the end of the datagram.
    Cut { at: u32 },
    /// A version other than 2.
    Version { at: u32 },
    /// The first packet is neither a sender report nor a receiver report.
    First,
    /// Padding in a packet that is not the last, or a count of padding that is 0, no multiple of 4, or more
    /// than the octets after the packet's first four.
    Padding { at: u32 },
    /// Without its padding the packet is too short for what it counts.
    Body { at: u32 },
}
