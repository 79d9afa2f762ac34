//! The outside as the gateway sees it: sources and sinks of octets and links of datagrams, each with a count of its
//! faults, and clocks.
#![tactic(auto)]

mod failed;
mod filling;
mod link;
mod link_entry;
mod memory_clock;
mod memory_link;
mod memory_sink;
mod memory_source;
mod octets;
mod received;
mod sent_datagram;
mod sink;
mod source;
mod tick_clock;

pub use failed::Failed;
pub use filling::fill;
pub use gate_base::OutOfMemory;
pub use link::Link;
pub use link_entry::LinkEntry;
pub use memory_clock::MemoryClock;
pub use memory_link::MemoryLink;
pub use memory_sink::MemorySink;
pub use memory_source::MemorySource;
pub use octets::Octets;
pub use received::Received;
pub use sink::Sink;
pub use source::Source;
pub use tick_clock::{TickClock, TickNext};

#[cfg(test)]
mod tests;
