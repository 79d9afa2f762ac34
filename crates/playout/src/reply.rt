// What becomes of a frame that is filed.

/// The answer to a filed frame of a number. Only `Accepted` changes the line.
#[derive(Clone, Copy, Debug, Default, PartialEq, Eq)]
pub enum FileReply {
    /// The frame was taken, and waits for the tick or retire of its number.
    #[default]
    Accepted,
    /// A frame of this number is there already.
    Duplicate,
    /// The number's tick or retire is past. `ahead` is the next number of its slot that is still to come.
    Late { ahead: u64 },
    /// The number is past the end of the window. `ahead` is the number that its slot waits for.
    Beyond { ahead: u64 },
}
