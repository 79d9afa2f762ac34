//! A player: each beat plays an item of its side of a line, journals it, and sends return speech in pieces and packets.
#![tactic(auto)]

mod asking;
mod beat;
mod calls;
mod pieces;
mod player;
mod return_stream;
mod run;

pub use asking::ask;
pub use beat::Beat;
pub use calls::{BeatCalls, count_calls, held_after, item_of_beat, opened_after, write_calls};
pub use pieces::take_piece;
pub use player::Player;
pub use recorder::PlayTally;
pub use return_stream::{ReturnEnd, ReturnStream};
pub use run::PlayerEnd;

#[cfg(test)]
mod player_tests;
#[cfg(test)]
mod tests;
