//! Laws of what is heard: it is one for a list of items, and a player's journal gives back what its speaker got.
#![tactic(auto)]

mod hearing;
mod laws;
#[cfg(test)]
mod line_tests;

pub use hearing::is_heard;
pub use laws::{beats_are_few, heard_is_one, journal_renders, run_renders, speech_is_one};
