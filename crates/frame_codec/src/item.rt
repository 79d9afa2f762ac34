// What a beat plays.
use crate::frame::Frame33;

/// What the player has for 20 ms.
#[derive(Clone, Copy, Debug, PartialEq, Eq)]
pub enum Item {
    /// The line has not begun to play.
    Idle,
    /// The frame that was filed in time.
    Frame(Frame33),
    /// No frame came: a lost one, to be covered.
    Erasure,
}
