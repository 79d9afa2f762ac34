//! Frame numbers: the 32-bit timestamps of packets, unwrapped about the last one that was accepted.
#![tactic(auto)]

mod laws;
mod unwrapper;

pub use laws::only_extended;
pub use unwrapper::Unwrapper;

#[cfg(test)]
mod tests;
