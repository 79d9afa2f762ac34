// Why a command stopped before the end of its input.
use recorder::RecordFault;

/// Why a command stopped before the end of its input.
#[derive(Clone, Copy, Debug, PartialEq, Eq)]
pub enum Stop {
    /// The input has this fault.
    Refused(RecordFault),
    /// The input could not be read.
    ReadFault,
    /// The output or the notes could not be written.
    WriteFault,
}
