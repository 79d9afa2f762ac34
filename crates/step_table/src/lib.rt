//! Counted atomic steps on the words and cells of a ring, each of a kind that the ring's rule allows.
#![tactic(auto)]

mod closed;
mod kind;
mod opening;
mod rule;
mod steps;
mod table;

pub use closed::Closed;
pub use gate_base::OutOfMemory;
pub use kind::{Kind, Told};
pub use rule::RingLaw;
pub use steps::Steps;
pub use table::{StepSeat, StepTable};
