//! Any interleaving of the ring's callers, as plain data; and the playout machine and the ring's steps under one name.
#![tactic(auto)]

mod interleaving;

pub use gate_base::OutOfMemory;
pub use interleaving::core_run;
pub use playout::{
    Call, FileReply, FilerSide, MapFiler, MapLine, MapPlayer, PlayerSide, accepted_once,
    ahead_is_least, causes_are_one, causes_give_replies, first_is_held, looks_tell_accepted,
    position_counts_moves, replies_are_one, replies_have_causes, retires_take_accepted,
    ticks_play_accepted,
};
pub use ring_core::{
    Berth, CallList, Calling, Cell, CoreEvent, CoreState, Departing, Flight, Gathered, Known,
    PairList, Pooling, Rights, Role, Shape, SlotWord, View, callers_are_fresh,
    gathered_are_the_calls, lists_are_the_calls, opening_meets_the_rule, rule_holds,
    slots_are_near, steps_keep_the_rule,
};

#[cfg(test)]
mod plain_line;
#[cfg(test)]
mod tests;
