//! What crates that do not depend on each other share: the out-of-memory error, and counts of faults.
#![tactic(auto)]

mod faults;
mod memory;

pub use faults::FaultCount;
pub use memory::OutOfMemory;
