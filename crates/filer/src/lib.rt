//! A filer: each datagram of its link becomes calls on its side of a line, an outcome, events of its journal, and
//! statistics of its source, whose reports it sends.
#![tactic(auto)]

mod filer;
mod journal;
mod outcome;
mod packet;
mod replies;
mod report;
mod reporting;
mod run;
mod tally;
mod turn;

pub use filer::Filer;
pub use outcome::{Asked, Outcome, OutcomeEnd};
pub use recorder::Tally;
pub use replies::Replies;
pub use run::FilerEnd;
pub use tally::count_end;
pub use turn::Turn;

#[cfg(test)]
mod run_tests;
#[cfg(test)]
mod tests;
