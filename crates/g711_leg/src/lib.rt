//! A leg in G.711: codes of 8 bits by both laws, expanded and compressed, and speech that goes out in them.
#![tactic(auto)]

mod au;
mod codes;
mod compressing;
mod expanding;
mod law;
mod laws;
mod leg;
mod outlet;

pub use au::au_head;
pub use compressing::compress;
pub use expanding::expand;
pub use law::Law;
pub use laws::{comes_back, goes_out};
pub use leg::Leg;

#[cfg(test)]
mod tests;
