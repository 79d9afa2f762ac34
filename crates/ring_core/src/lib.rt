//! The ring that many threads share, as plain data: its rule, and the atomic steps that keep it.
#![tactic(auto)]

mod calling;
mod core_events;
mod core_state;
mod core_steps;
mod element;
mod event;
mod lists;
mod player_steps;
mod pool_steps;
mod ring_laws;
mod views;
mod words;

pub use core_state::CoreState;
pub use event::CoreEvent;
pub use gate_base::OutOfMemory;
pub use lists::{CallList, Gathered, PairList, Rights};
pub use player_steps::{Glance, Move};
pub use ring_laws::{
    callers_are_fresh, gathered_are_the_calls, lists_are_the_calls, opening_meets_the_rule,
    rule_holds, slots_are_near, steps_keep_the_rule,
};
pub use views::{Calling, Departing, Flight, Known, Pooling, Role, Shape, View};
pub use words::{Berth, Cell, SlotWord};

#[cfg(test)]
mod tests;
