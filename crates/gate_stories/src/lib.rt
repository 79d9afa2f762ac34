//! Stories of whole lines, from datagrams to speech and to the verdict on their journals: tests that need many crates.
#![tactic(auto)]

#[cfg(test)]
mod bursts;
#[cfg(test)]
mod pace;
