// The words of the ring, and its cells.
use frame_codec::Frame33;

/// The word of a slot: the number that it stands for now, whether that number's frame is there, and the cell
/// that has it.
#[derive(Clone, Copy, Debug, PartialEq, Eq)]
pub struct SlotWord {
    pub number: u64,
    pub filled: bool,
    pub cell: u32,
}

/// The word of a caller's berth.
#[derive(Clone, Copy, Debug, PartialEq, Eq)]
pub enum Berth {
    /// The caller has not enlisted: its cell.
    Fresh(u32),
    /// The caller has its cell.
    Out,
    /// The caller has left: the cell that it left behind.
    Home(u32),
}

/// A cell, which holds a frame or none.
#[derive(Clone, Copy, Debug, PartialEq, Eq)]
pub enum Cell {
    /// In the ring, with what it holds.
    AtHome(Option<Frame33>),
    /// Out with the seat of this number.
    OutWith(u32),
}
