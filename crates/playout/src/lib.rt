//! The playout machine: frames filed by number, and one taken at each tick.
#![tactic(auto)]

mod call;
mod laws;
mod map_filer;
mod map_line;
mod map_player;
mod pairs;
mod reply;
mod side;

pub use call::Call;
pub use gate_base::OutOfMemory;
pub use laws::{
    accepted_once, ahead_is_least, causes_are_one, causes_give_replies, first_is_held,
    looks_tell_accepted, position_counts_moves, replies_are_one, replies_have_causes,
    retires_take_accepted, ticks_play_accepted,
};
pub use map_filer::MapFiler;
pub use map_line::MapLine;
pub use map_player::MapPlayer;
pub use reply::FileReply;
pub use side::{FilerSide, PlayerSide};

#[cfg(test)]
mod tests;
