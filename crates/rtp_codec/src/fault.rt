// Why a datagram is refused.

/// Why a datagram is no packet with full-rate frames. The cases are tested in this order: each comes exactly
/// where its case holds and no earlier one does.
#[derive(Clone, Copy, Debug, PartialEq, Eq)]
pub enum RtpFault {
    /// 2048 octets or more.
    Oversize,
    /// Fewer than the 12 octets of the fixed header.
    Short,
    /// A version other than 2.
    Version,
    /// The list of contributing sources does not fit.
    CsrcShort,
    /// The extension's four octets, or its words, do not fit.
    ExtensionShort,
    /// Nothing follows the header where padding is said, or its count is 0 or more than what follows.
    Padding,
    /// Another payload type than 3, which is given.
    OtherPayload(u8),
    /// The payload is no multiple of 33 octets.
    Length,
    /// More than 10 frames.
    TooMany,
    /// The first frame, counted from 0, whose first nibble is not 0xD.
    Signature(u8),
}
