// A line before it runs.
use crate::caller::Caller;
use crate::plan::Plan;
use crate::player_caller::PlayerCaller;
use slot_ring::{Blank, SlotRing};
use std::marker::Model;

/// A line with all its callers enlisted, and all the memory that it needs. Contracts see how many filers it has, and
/// its options.
#[derive(Drop)]
pub struct Line {
    pub(crate) plan: Plan,
    pub(crate) ring: SlotRing,
    pub(crate) callers: Vec<Caller>,
    pub(crate) player: PlayerCaller,
    pub(crate) blank: Blank,
}

impl Model for Line {
    ghost use Rattle.std.specs.Prelude.{◌≡◌, ◌≤◌, length};
    ghost use Rattle.line_run.specs.Callers.{AreNew, PlayerStands};
    ghost use Rattle.line_run.specs.Opening.{LineSeen};

    ghost Value = { LineSeen };

    ghost view = { λ l. l.plan };

    ghost invariant = { λ l. AreNew l.plan l.ring l.callers.items × (length l.callers.items ≡ l.plan.filers) × PlayerStands l.plan l.ring l.player × (l.blank.ring ≡ l.ring) × (l.ring.shape.filers ≡ l.plan.filers) × (l.ring.shape.g ≡ l.plan.options.g) × (l.plan.filers ≤ 64) };
}
