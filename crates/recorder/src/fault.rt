// How the reading of a file ends.

/// The first fault of an input that is not in its grammar, in the order of octets.
#[derive(Clone, Copy, Debug, PartialEq, Eq)]
pub enum RecordFault {
    /// One of the first eight octets that is there differs from the magic's.
    Magic,
    /// The kind at octet `at` is none of this file's.
    Kind { at: u64 },
    /// The input has `at` octets, and more were needed.
    Cut { at: u64 },
    /// The field that begins at octet `at` is out of its range.
    Field { at: u64 },
    /// 16777216 events were read, and the next octet is not the end mark.
    TooLong,
}

/// Why a reader gives no event.
#[derive(Clone, Copy, Debug, PartialEq, Eq)]
pub enum RecordEnd {
    /// The input is not in its grammar.
    Fault(RecordFault),
    /// The source failed.
    ReadFailed,
}

/// How a reader is over. It answers so from then on.
#[derive(Clone, Copy, Debug, PartialEq, Eq)]
pub enum Ending {
    /// At the end mark.
    Mark,
    /// At a fault.
    Refused(RecordEnd),
}
