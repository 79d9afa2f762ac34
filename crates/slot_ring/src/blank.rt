// The right to enlist callers.
ghost use Rattle.std.specs.Prelude.{◌≡◌, ◌+◌, ◌<◌, ◌≤◌, [], Some, true, false, replicate, slice_get, slice_set};
ghost use Rattle.step_table.specs.Kinds.{split, enlist};
ghost use Rattle.slot_ring.specs.Seen.{nothing_known};

use crate::pass::{FilerPass, PlayerPass};
use crate::ring::SlotRing;
use crate::words::{OUT, START, fresh_cell};
use std::marker::{Brand, Model};
use std::sync::ledger::Ledger;
use step_table::{Kind, StepSeat, Steps};

/// The right to enlist callers. Contracts see which.
#[derive(Drop)]
pub struct Blank {
    pub(crate) seat: StepSeat,
}

impl Model for Blank {
    ghost use Rattle.slot_ring.specs.Seen.{BlankView, rights_in};
    ghost use Rattle.slot_ring.specs.Kept.{IsBlank};

    ghost Value = { BlankView };

    ghost view = { λ b. record { ring = record { id = b.seat.table_id; shape = b.seat.me.0.shape }; rights = rights_in b.seat.me.0.role } };

    ghost invariant = { λ b. IsBlank b.seat.me };
}

impl SlotRing {
    /// A blank with the right to caller `k` alone, which `blank` gives up. One step.
    pub fn split<L: Ledger>(&self, blank: &mut Blank, k: u32, steps: &mut Steps<L>) -> Blank
        requires ring { blank.old.ring ≡ self.now }
        requires right { slice_get blank.old.rights k ≡ Some true }
        ensures ring { (blank.new.ring ≡ self.now) × (result.ring ≡ self.now) }
        ensures rights { blank.new.rights ≡ slice_set blank.old.rights k false }
        ensures right { result.rights ≡ slice_set (replicate (self.now.shape.filers + 1) false) k true }
        ensures counted { steps.new ≡ steps.old + 1 }
    {
        self.split_as::<Brand, L>(blank, k, steps)
    }

    fn split_as<A: Kind, L: Ledger>(&self, blank: &mut Blank, k: u32, steps: &mut Steps<L>) -> Blank
        requires kind { A.kind ≡ split k }
        requires ring { blank.old.ring ≡ self.now }
        requires right { slice_get blank.old.rights k ≡ Some true }
        ensures ring { (blank.new.ring ≡ self.now) × (result.ring ≡ self.now) }
        ensures rights { blank.new.rights ≡ slice_set blank.old.rights k false }
        ensures right { result.rights ≡ slice_set (replicate (self.now.shape.filers + 1) false) k true }
        ensures counted { steps.new ≡ steps.old + 1 }
    {
        let seat = self.table.split::<A, L>(&mut blank.seat, steps);
        Blank { seat }
    }

    /// Filer `k` enlists. One step; its berth is fresh, since the right to it is there, so there is no refusal.
    pub fn enlist_filer<L: Ledger>(&self, blank: Blank, k: u32, steps: &mut Steps<L>) -> FilerPass
        requires ring { blank.ring ≡ self.now }
        requires filer { k < self.now.shape.filers }
        requires right { slice_get blank.rights k ≡ Some true }
        ensures ring { result.ring ≡ self.now }
        ensures who { result.who ≡ k }
        ensures list { result.list ≡ [] }
        ensures known { result.known ≡ nothing_known }
        ensures counted { steps.new ≡ steps.old + 1 }
    {
        self.enlist_filer_as::<Brand, L>(blank, k, steps)
    }

    fn enlist_filer_as<A: Kind, L: Ledger>(
        &self,
        blank: Blank,
        k: u32,
        steps: &mut Steps<L>,
    ) -> FilerPass
        requires kind { A.kind ≡ enlist k }
        requires ring { blank.ring ≡ self.now }
        requires filer { k < self.now.shape.filers }
        requires right { slice_get blank.rights k ≡ Some true }
        ensures ring { result.ring ≡ self.now }
        ensures who { result.who ≡ k }
        ensures list { result.list ≡ [] }
        ensures known { result.known ≡ nothing_known }
        ensures counted { steps.new ≡ steps.old + 1 }
    {
        let Blank { mut seat } = blank;
        let place = self.berth_place(k);
        let found = self.table.swap::<A, L>(&mut seat, place, OUT, steps);
        let spare = fresh_cell(found);
        FilerPass {
            seat,
            who: k,
            spare,
        }
    }

    /// The player enlists. One step, with no refusal, as of a filer.
    pub fn enlist_player<L: Ledger>(&self, blank: Blank, steps: &mut Steps<L>) -> PlayerPass
        requires ring { blank.ring ≡ self.now }
        requires right { slice_get blank.rights self.now.shape.filers ≡ Some true }
        ensures ring { result.ring ≡ self.now }
        ensures who { result.who ≡ self.now.shape.filers }
        ensures list { result.list ≡ [] }
        ensures known { result.known ≡ nothing_known }
        ensures counted { steps.new ≡ steps.old + 1 }
    {
        self.enlist_player_as::<Brand, L>(blank, self.filers, steps)
    }

    fn enlist_player_as<A: Kind, L: Ledger>(
        &self,
        blank: Blank,
        k: u32,
        steps: &mut Steps<L>,
    ) -> PlayerPass
        requires kind { A.kind ≡ enlist k }
        requires ring { blank.ring ≡ self.now }
        requires player { k ≡ self.now.shape.filers }
        requires right { slice_get blank.rights k ≡ Some true }
        ensures ring { result.ring ≡ self.now }
        ensures who { result.who ≡ k }
        ensures list { result.list ≡ [] }
        ensures known { result.known ≡ nothing_known }
        ensures counted { steps.new ≡ steps.old + 1 }
    {
        let Blank { mut seat } = blank;
        let place = self.berth_place(k);
        let found = self.table.swap::<A, L>(&mut seat, place, OUT, steps);
        let spare = fresh_cell(found);
        PlayerPass {
            seat,
            spare,
            position: START,
        }
    }
}
