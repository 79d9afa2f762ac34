// Filing a frame.
ghost use Rattle.std.specs.Prelude.{◌≡◌, ℕ, ◌+◌, ◌<◌, ◌≤◌, ◌^◌, List};
ghost use Rattle.playout.specs.declared.call.Call.TheVariants.{FileCall};
ghost use Rattle.ring_core.specs.declared.words.SlotWord.{SlotWord};
ghost use Rattle.playout.specs.History.{ReplyFits};
ghost use Rattle.ring_core.specs.Ring.{Has};
ghost use Rattle.step_table.specs.Packed.{pack_slot, Fits};
ghost use Rattle.step_table.specs.Kinds.{load};
ghost use Rattle.slot_ring.specs.Seen.{position_in, Grown, known_after, IsLate, IsSettled, SlotSays};
ghost use Rattle.slot_ring.specs.Kept.{FiledBy, reply_after};

use crate::kinds::Publishes;
use crate::pass::FilerPass;
use crate::ring::SlotRing;
use crate::words::{cell_of, full, is_filled, number_of};
use frame_codec::Frame33;
use playout::FileReply;
use std::marker::Brand;
use std::sync::ledger::Ledger;
use step_table::{Kind, Steps};

// The reply where the slot's word is no more the one that was loaded.
fn reply_to(found: u64, number: u64) -> FileReply
    ensures { (w : SlotWord) → found ≡ pack_slot w → Fits w → number ≤ w.number → result ≡ reply_after w number }
{
    let ahead = number_of(found);
    if ahead > number {
        FileReply::Late { ahead }
    } else {
        FileReply::Duplicate
    }
}

impl SlotRing {
    /// Files a frame under its number. At most two steps: a load of the slot's word and, where it is free for this number, an exchange.
    /// A filer that knows a position above the number is answered Late, and one that knows that the number was accepted Duplicate or
    /// Late.
    pub fn file<L: Ledger>(
        &self,
        pass: &mut FilerPass,
        number: u64,
        frame: &Frame33,
        steps: &mut Steps<L>,
    ) -> FileReply
        requires ring { pass.old.ring ≡ self.now }
        requires number { number < 2 ^ 47 }
        ensures call { Grown pass.old (FileCall number frame.now result) pass.new }
        ensures known { pass.new.known ≡ known_after pass.old.known (position_in pass.old) (FileCall number frame.now result) }
        ensures fits { ReplyFits number result }
        ensures word { SlotSays pass.old number result }
        ensures late { number < pass.old.known.position → IsLate result }
        ensures settled { (f : List ℕ) → Has pass.old.known.pairs number f → IsSettled result }
        ensures counted { (steps.old + 1 ≤ steps.new) × (steps.new ≤ steps.old + 2) }
    {
        self.file_as::<Brand, L>(pass, number, frame, steps)
    }

    fn file_as<A: Kind, L: Ledger>(
        &self,
        pass: &mut FilerPass,
        number: u64,
        frame: &Frame33,
        steps: &mut Steps<L>,
    ) -> FileReply
        requires kind { A.kind ≡ load number frame.now }
        requires ring { pass.old.ring ≡ self.now }
        requires number { number < 2 ^ 47 }
        ensures filed { FiledBy pass.old number frame.now result pass.new }
        ensures counted { (steps.old + 1 ≤ steps.new) × (steps.new ≤ steps.old + 2) }
    {
        let place = self.slot_place(number);
        let seen = self.table.load::<A, L>(&mut pass.seat, place, steps);
        let ahead = number_of(seen);
        if ahead > number {
            return FileReply::Late { ahead };
        }
        if ahead < number {
            return FileReply::Beyond { ahead };
        }
        if is_filled(seen) {
            return FileReply::Duplicate;
        }
        let cell = cell_of(seen);
        self.table.cell(&mut pass.seat, pass.spare, Some(*frame));
        let new = full(number, pass.spare);
        match self
            .table
            .compare_exchange::<Publishes, L>(&mut pass.seat, place, seen, new, steps)
        {
            Ok(_) => {
                pass.spare = cell;
                FileReply::Accepted
            }
            Err(found) => reply_to(found, number),
        }
    }
}
