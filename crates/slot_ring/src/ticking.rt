// How the player goes on: ticks and retires.
ghost use Rattle.std.specs.Prelude.{◌≡◌, ◌≢◌, ℕ, ◌+◌, ◌<◌, ◌^◌, List};
ghost use Rattle.frame_codec.specs.declared.item.Item.TheVariants.{Frame, Idle};
ghost use Rattle.playout.specs.declared.call.Call.TheVariants.{TickCall, RetireCall};
ghost use Rattle.ring_core.specs.Ring.{Has};
ghost use Rattle.ring_core.specs.Steps.{taken};
ghost use Rattle.slot_ring.specs.Seen.{position_in, Grown, known_after, TakeSays};
ghost use Rattle.slot_ring.specs.Kept.{IsMove, TakenAs};

use crate::kinds::{Retires, Ticks};
use crate::pass::PlayerPass;
use crate::ring::{SlotRing, slots_in};
use crate::words::{cell_of, free, is_filled};
use frame_codec::{Frame33, Item};
use std::sync::ledger::Ledger;
use step_table::{Kind, Steps};

// What is taken out of a slot, of its word and its cell.
fn item_from(filled: bool, kept: Option<Frame33>) -> Item
    ensures { result ≡ taken filled kept }
{
    if !filled {
        return Item::Erasure;
    }
    match kept {
        Some(frame) => Item::Frame(frame),
        None => Item::Erasure,
    }
}

impl SlotRing {
    /// Plays the item of the next number: its frame, or an erasure where none was filed in time. One step, a swap. A player that knows
    /// that a frame was accepted under this number is answered that frame.
    pub fn tick<L: Ledger>(&self, pass: &mut PlayerPass, steps: &mut Steps<L>) -> Item
        requires ring { pass.old.ring ≡ self.now }
        requires position { position_in pass.old < 2 ^ 33 }
        ensures call { Grown pass.old (TickCall result) pass.new }
        ensures known { pass.new.known ≡ known_after pass.old.known (position_in pass.old) (TickCall result) }
        ensures position { position_in pass.new ≡ position_in pass.old + 1 }
        ensures played { result ≢ Idle }
        ensures word { TakeSays (position_in pass.old) result }
        ensures fresh { (f : List ℕ) → Has pass.old.known.pairs (position_in pass.old) f → result ≡ Frame f }
        ensures counted { steps.new ≡ steps.old + 1 }
    {
        self.take::<Ticks, L>(pass, steps)
    }

    /// Takes the item of the next number as a tick does, and leaves it unplayed. One step, a swap. A player that knows that a frame was
    /// accepted under this number is answered that frame.
    pub fn retire<L: Ledger>(&self, pass: &mut PlayerPass, steps: &mut Steps<L>) -> Item
        requires ring { pass.old.ring ≡ self.now }
        requires position { position_in pass.old < 2 ^ 33 }
        ensures call { Grown pass.old (RetireCall result) pass.new }
        ensures known { pass.new.known ≡ known_after pass.old.known (position_in pass.old) (RetireCall result) }
        ensures position { position_in pass.new ≡ position_in pass.old + 1 }
        ensures taken { result ≢ Idle }
        ensures word { TakeSays (position_in pass.old) result }
        ensures fresh { (f : List ℕ) → Has pass.old.known.pairs (position_in pass.old) f → result ≡ Frame f }
        ensures counted { steps.new ≡ steps.old + 1 }
    {
        self.take::<Retires, L>(pass, steps)
    }

    // The word of the next number is swapped for a free one, for the number a turn later.
    fn take<A: Kind, L: Ledger>(&self, pass: &mut PlayerPass, steps: &mut Steps<L>) -> Item
        requires kind { IsMove A.kind }
        requires ring { pass.old.ring ≡ self.now }
        requires position { position_in pass.old < 2 ^ 33 }
        ensures taken { TakenAs A.kind pass.old result pass.new }
        ensures counted { steps.new ≡ steps.old + 1 }
    {
        let number = pass.position;
        let place = self.slot_place(number);
        let new = free(number + u64::from(slots_in(self.g)), pass.spare);
        let found = self.table.swap::<A, L>(&mut pass.seat, place, new, steps);
        let cell = cell_of(found);
        let kept = self.table.cell(&mut pass.seat, cell, None);
        let item = item_from(is_filled(found), kept);
        pass.spare = cell;
        pass.position = number + 1;
        item
    }
}
