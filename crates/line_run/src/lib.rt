//! A whole line of the gateway on threads: up to 64 filers, each over a link and a journal of its own, beside one
//! player, all over one lock-free ring.
#![tactic(auto)]

mod caller;
mod ends;
mod fan;
mod gathering;
mod line;
mod line_end;
mod opening;
mod options;
mod plan;
mod player_caller;
mod run;

pub use ends::FilerEnds;
pub use filer::{FilerEnd, Tally};
pub use gate_base::OutOfMemory;
pub use line::Line;
pub use line_end::LineEnd;
pub use opening::open_line;
pub use options::LineOptions;
pub use player::{PlayTally, PlayerEnd};
pub use run::run_line;
pub use slot_ring::Left;

#[cfg(test)]
mod tests;
#[cfg(test)]
mod thread_tests;
