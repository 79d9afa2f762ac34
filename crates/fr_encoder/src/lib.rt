//! The full-rate encoder: speech becomes frames.
#![tactic(auto)]

mod encoder;
mod excitation;
mod front;
mod judging;
mod laws;
mod piece_codes;
mod preprocessing;

pub use encoder::Encoder;
pub use front::Front;
pub use judging::is_coding;
pub use laws::coding_is_one;

#[cfg(test)]
mod tests;
