// One block of a redundant payload.

/// A block (RFC 2198 section 3), whose octets stay in the payload.
#[derive(Clone, Copy, Debug)]
pub struct RedBlock<'a> {
    /// 7 bits; 3 is GSM full rate (RFC 3551 section 6).
    pub payload_type: u8,
    /// How much the block's timestamp is below the packet's: 14 bits, and 0 for the primary block.
    pub offset: u32,
    pub octets: &'a [u8],
}
