//! A script's run over the playout machine: the command `simulate`.
#![tactic(auto)]

mod filers;
mod playback;
mod run;
mod simulate_command;

pub use simulate_command::simulate;

#[cfg(test)]
mod packet_tests;
#[cfg(test)]
mod tests;
