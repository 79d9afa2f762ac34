//! A line of the gateway, from its words to its status and its notes: the command `serve`.
#![tactic(auto)]

mod serve;
mod serve_end;

pub use serve::{Served, run_serve};

#[cfg(test)]
mod serve_tests;
#[cfg(test)]
mod thread_tests;
