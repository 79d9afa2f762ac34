// A fault of the outside.

/// The outside did not take or give what it was asked to. It comes only where the object's count of faults rose.
#[derive(Clone, Copy, Debug, PartialEq, Eq)]
pub struct Failed;
