// How a line ended.
use crate::ends::FilerEnds;
use player::{PlayTally, PlayerEnd};
use slot_ring::Left;

/// What a line came to.
#[derive(Drop)]
pub struct LineEnd {
    /// How the player ended.
    pub player: PlayerEnd,
    /// What the player counted.
    pub played: PlayTally,
    /// How each filer ended, and what it counted.
    pub filers: FilerEnds,
    /// The frames that were accepted and not played.
    pub left: Left,
}
