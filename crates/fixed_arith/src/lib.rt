//! Word arithmetic of the full-rate codec: 16-bit words and 32-bit long words with limited results.
#![tactic(auto)]

mod long_words;
mod magnitudes;
mod words;

pub use long_words::{long_add, long_sub, norm_long};
pub use magnitudes::greatest;
pub use words::{abs_word, add, clip16, div_word, mult, mult_r, shift_left, sub};
