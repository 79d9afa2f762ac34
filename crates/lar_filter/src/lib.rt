//! The short-term part of the full-rate codec: log area ratios, reflection coefficients and the lattice filter, in both directions.
#![tactic(auto)]

mod analysis;
mod autocorrelation;
mod coefficients;
mod quantising;
mod ratios;
mod reflection;
mod synthesis;

pub use analysis::Analysis;
pub use autocorrelation::autocorrelate;
pub use coefficients::{interpolate, reflection_of};
pub use quantising::quantise_lars;
pub use ratios::decode_lars;
pub use reflection::schur;
pub use synthesis::Synthesis;
