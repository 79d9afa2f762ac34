// Why a redundant payload is refused.

/// Why a payload is no redundant one. The cases are tested in this order: each comes exactly where its case
/// holds and no earlier one does.
#[derive(Clone, Copy, Debug, PartialEq, Eq)]
pub enum RedFault {
    /// The headers do not end within the payload.
    Header,
    /// The older blocks go past the end.
    Block,
    /// The first block of payload type 3, counted over all blocks from 0, whose length is no multiple of 33.
    Length(u16),
    /// More than 10 frames in the blocks of payload type 3.
    TooMany,
    /// The first frame, counted from 0 over the blocks of payload type 3, whose first nibble is not 0xD.
    Signature(u8),
}
