// What a link in memory answers in turn.
use crate::octets::Octets;

/// One answer of a link in memory.
#[derive(Drop, Debug)]
pub enum LinkEntry {
    /// A datagram with its moment, in 8000ths of a second.
    Datagram(Octets, u32),
    /// Nothing has come.
    Idle,
    /// The call fails.
    Fail,
}
