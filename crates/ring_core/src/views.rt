// What each seat of the ring knows.
use crate::lists::{CallList, Gathered, PairList, Rights};
use frame_codec::Frame33;

/// The number of filers, and g where there are 2^g slots.
#[derive(Clone, Copy, Debug, PartialEq, Eq)]
pub struct Shape {
    pub filers: u32,
    pub g: u32,
}

/// What a caller knows by its own replies and by notes.
#[derive(Drop)]
pub struct Known {
    /// Numbers with the frames that were accepted under them.
    pub pairs: PairList,
    /// A position that the player has reached.
    pub position: u64,
    /// The held source.
    pub source: Option<u32>,
    /// The held base.
    pub base: Option<u32>,
}

/// A filer between its look at a free slot and its publishing there.
#[derive(Clone, Copy, Debug, PartialEq, Eq)]
pub struct Flight {
    pub number: u64,
    /// The cell that the free word named.
    pub cell: u32,
    pub frame: Frame33,
}

/// A seat that enlists callers and gathers their lists, each by caller number.
#[derive(Drop)]
pub struct Pooling {
    pub lists: Gathered,
    pub rights: Rights,
}

/// A caller that has enlisted.
#[derive(Drop)]
pub struct Calling {
    pub who: u32,
    pub list: CallList,
    /// The cell that it owns.
    pub spare: u32,
    pub flight: Option<Flight>,
    pub known: Known,
}

/// A caller that has left.
#[derive(Drop)]
pub struct Departing {
    pub who: u32,
    pub list: CallList,
}

/// What a seat is.
#[derive(Drop)]
pub enum Role {
    Pool(Pooling),
    Caller(Calling),
    Departed(Departing),
    Note(Known),
    /// It was joined to another seat.
    Spent,
}

/// What a seat is, and the shape of its ring.
#[derive(Drop)]
pub struct View {
    pub shape: Shape,
    pub role: Role,
}
