//! The lock-free playout ring: filers file and a player looks and ticks at once, with one legal history that explains all their calls.
#![tactic(auto)]

mod blank;
mod departed;
mod filer_side;
mod filing;
mod gather;
mod holding;
mod kinds;
mod left;
mod looking;
mod note;
mod opening;
mod pass;
mod player_side;
mod ring;
mod ticking;
mod words;

pub use blank::Blank;
pub use departed::Departed;
pub use filer_side::RingFiler;
pub use gate_base::OutOfMemory;
pub use gather::Gather;
pub use left::Left;
pub use note::Note;
pub use pass::{FilerPass, PlayerPass};
pub use player_side::RingPlayer;
pub use ring::SlotRing;
pub use step_table::Steps;

#[cfg(test)]
mod replay;
#[cfg(test)]
mod tests;
#[cfg(test)]
mod threads;
