// What is decoded for an item.
use frame_codec::Params;

/// What the decoder is given for an item of 20 ms.
#[derive(Clone, Copy, Debug, PartialEq, Eq)]
pub enum Heard {
    /// The line is idle: nothing is decoded.
    Nothing,
    /// These fields are decoded: of the frame that came, or of what stands for a lost one.
    Speech(Params),
}
