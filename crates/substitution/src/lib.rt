//! Substitution and muting of lost frames, and the voice that plays a list of items.
#![tactic(auto)]

mod covering;
mod heard;
mod masker;
mod voice;

pub use heard::Heard;
pub use masker::Masker;
pub use voice::Voice;

#[cfg(test)]
mod tests;
