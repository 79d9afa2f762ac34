//! Redundant payload: the blocks of one packet, with their refusals in order.
#![tactic(auto)]

mod block;
mod blocks;
mod fault;
mod judging;
mod laws;
mod read;
mod view;
mod walk;

pub use block::RedBlock;
pub use fault::RedFault;
pub use laws::blocks_spell_payloads;
pub use read::read_red;
pub use view::RedView;

#[cfg(test)]
mod tests;
