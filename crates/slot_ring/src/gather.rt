// Gathering the calls of those that have left.
ghost use Rattle.std.specs.Prelude.{◌≡◌, ◌+◌, Some, slice_set};
ghost use Rattle.slot_ring.specs.Seen.{no_lists};

use crate::blank::Blank;
use crate::departed::Departed;
use crate::kinds::Gathers;
use crate::ring::SlotRing;
use std::marker::Model;
use std::sync::ledger::Ledger;
use step_table::{StepSeat, Steps};

/// The calls of callers that have left. Contracts see them by caller number.
#[derive(Drop)]
pub struct Gather {
    pub(crate) seat: StepSeat,
}

impl Model for Gather {
    ghost use Rattle.slot_ring.specs.Seen.{GatherView, lists_in};
    ghost use Rattle.slot_ring.specs.Kept.{IsGather};

    ghost Value = { GatherView };

    ghost view = { λ b. record { ring = record { id = b.seat.table_id; shape = b.seat.me.0.shape }; lists = lists_in b.seat.me.0.role } };

    ghost invariant = { λ b. IsGather b.seat.me };
}

impl SlotRing {
    /// A blank becomes a gather, with no list yet. No step.
    pub fn gathering(&self, blank: Blank) -> Gather
        requires ring { blank.ring ≡ self.now }
        ensures ring { result.ring ≡ self.now }
        ensures lists { result.lists ≡ no_lists self.now.shape.filers }
    {
        let Blank { seat } = blank;
        Gather { seat }
    }

    /// Gathers the calls of a caller that has left. One step.
    pub fn gather<L: Ledger>(&self, gather: &mut Gather, departed: Departed, steps: &mut Steps<L>)
        requires ring { (gather.old.ring ≡ self.now) × (departed.ring ≡ self.now) }
        ensures ring { gather.new.ring ≡ self.now }
        ensures lists { gather.new.lists ≡ slice_set gather.old.lists departed.who (Some departed.list) }
        ensures counted { steps.new ≡ steps.old + 1 }
    {
        let Departed { seat } = departed;
        self.table.join::<Gathers, L>(&mut gather.seat, seat, steps);
    }
}
