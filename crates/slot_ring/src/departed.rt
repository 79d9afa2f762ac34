// Leaving the ring.
ghost use Rattle.std.specs.Prelude.{◌≡◌, ◌+◌};

use crate::kinds::Leaves;
use crate::pass::{FilerPass, PlayerPass};
use crate::ring::SlotRing;
use crate::words::home;
use std::marker::Model;
use std::sync::ledger::Ledger;
use step_table::{StepSeat, Steps};

/// A caller that has left. Contracts see its number and its calls.
#[derive(Drop)]
pub struct Departed {
    pub(crate) seat: StepSeat,
}

impl Model for Departed {
    ghost use Rattle.slot_ring.specs.Seen.{PassView, pass_view};
    ghost use Rattle.slot_ring.specs.Kept.{IsDeparted};

    ghost Value = { PassView };

    ghost view = { λ p. pass_view (record { id = p.seat.table_id; shape = p.seat.me.0.shape }) p.seat.me.0.role };

    ghost invariant = { λ p. IsDeparted p.seat.me };
}

impl SlotRing {
    /// A filer leaves. One step.
    pub fn leave_filer<L: Ledger>(&self, pass: FilerPass, steps: &mut Steps<L>) -> Departed
        requires ring { pass.ring ≡ self.now }
        ensures ring { result.ring ≡ self.now }
        ensures who { result.who ≡ pass.who }
        ensures list { result.list ≡ pass.list }
        ensures counted { steps.new ≡ steps.old + 1 }
    {
        let FilerPass {
            mut seat,
            who,
            spare,
        } = pass;
        let place = self.berth_place(who);
        self.table
            .swap::<Leaves, L>(&mut seat, place, home(spare), steps);
        Departed { seat }
    }

    /// The player leaves. One step.
    pub fn leave_player<L: Ledger>(&self, pass: PlayerPass, steps: &mut Steps<L>) -> Departed
        requires ring { pass.ring ≡ self.now }
        ensures ring { result.ring ≡ self.now }
        ensures who { result.who ≡ pass.who }
        ensures list { result.list ≡ pass.list }
        ensures counted { steps.new ≡ steps.old + 1 }
    {
        let PlayerPass {
            mut seat,
            spare,
            position: _,
        } = pass;
        let place = self.berth_place(self.filers);
        self.table
            .swap::<Leaves, L>(&mut seat, place, home(spare), steps);
        Departed { seat }
    }
}
