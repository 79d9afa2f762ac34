//! The full-rate decoder: frames become speech.
#![tactic(auto)]

mod decoder;
mod deemphasis;

pub use decoder::Decoder;

#[cfg(test)]
mod tests;
