// Why a journal is not read.
use crate::fault::RecordEnd;

/// Why there is no journal.
#[derive(Clone, Copy, Debug, PartialEq, Eq)]
pub enum JournalRefusal {
    /// The input has a first fault, or the source failed.
    End(RecordEnd),
    /// There was no memory for the events.
    OutOfMemory,
}
