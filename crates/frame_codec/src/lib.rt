//! Full-rate frames: 33 octets each, and the fields that they spell.
#![tactic(auto)]

mod bits;
mod codes;
mod frame;
mod item;
mod laws;
mod packing;
mod params;

pub use frame::{BadSignature, Frame33, frame_of};
pub use item::Item;
pub use laws::{fields_are_one, frames_are_one, pack_of_unpack, unpack_of_pack};
pub use packing::{pack, unpack};
pub use params::{Params, SubParams};

#[cfg(test)]
mod tests;
