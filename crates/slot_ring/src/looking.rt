// What the player looks at: the base, and what waits in the slots.
ghost use Rattle.std.specs.Prelude.{◌≡◌, ℕ, ◌+◌, ◌<◌, ◌^◌, List, Some, true, false};
ghost use Rattle.playout.specs.declared.call.Call.TheVariants.{PeekCall, LookCall, HoldCall};
ghost use Rattle.ring_core.specs.Ring.{Has, slot_count};
ghost use Rattle.slot_ring.specs.Seen.{position_in, Grown, known_after, PeekSays, LookSays, HoldSays};
ghost use Rattle.slot_ring.specs.Kept.{IsGlance, GlancedAs};

use crate::kinds::{Holds, Peeks};
use crate::pass::PlayerPass;
use crate::ring::SlotRing;
use crate::words::{is_filled, value_in};
use std::marker::Brand;
use std::sync::ledger::Ledger;
use step_table::{Kind, Steps};

impl SlotRing {
    /// The base that is held, or none. One step. A player that knows the held base is answered it.
    pub fn peek<L: Ledger>(&self, pass: &mut PlayerPass, steps: &mut Steps<L>) -> Option<u32>
        requires ring { pass.old.ring ≡ self.now }
        ensures call { Grown pass.old (PeekCall result) pass.new }
        ensures known { pass.new.known ≡ known_after pass.old.known (position_in pass.old) (PeekCall result) }
        ensures position { position_in pass.new ≡ position_in pass.old }
        ensures fresh { (x : ℕ) → pass.old.known.base ≡ Some x → result ≡ Some x }
        ensures word { PeekSays pass.old.known.base result }
        ensures counted { steps.new ≡ steps.old + 1 }
    {
        let place = self.base_word();
        let found = self.table.load::<Peeks, L>(&mut pass.seat, place, steps);
        value_in(found)
    }

    /// Whether a frame waits so many numbers ahead of the next one, fewer than there are slots. One step, a load; nothing is taken. A
    /// player that knows that a frame was accepted under that number is answered `true`.
    pub fn look<L: Ledger>(&self, pass: &mut PlayerPass, ahead: u32, steps: &mut Steps<L>) -> bool
        requires ring { pass.old.ring ≡ self.now }
        requires slot { ahead < slot_count self.now.shape }
        requires position { position_in pass.old < 2 ^ 33 }
        ensures call { Grown pass.old (LookCall ahead result) pass.new }
        ensures known { pass.new.known ≡ known_after pass.old.known (position_in pass.old) (LookCall ahead result) }
        ensures position { position_in pass.new ≡ position_in pass.old }
        ensures word { LookSays (position_in pass.old + ahead) result }
        ensures fresh { (f : List ℕ) → Has pass.old.known.pairs (position_in pass.old + ahead) f → result ≡ true }
        ensures counted { steps.new ≡ steps.old + 1 }
    {
        self.glance::<Brand, L>(pass, ahead, steps)
    }

    /// Whether no frame waits under the next number, so that a beat may pass there. One step, a load; nothing is taken. A player that
    /// knows that a frame was accepted under that number is answered `false`.
    pub fn hold<L: Ledger>(&self, pass: &mut PlayerPass, steps: &mut Steps<L>) -> bool
        requires ring { pass.old.ring ≡ self.now }
        requires position { position_in pass.old < 2 ^ 33 }
        ensures call { Grown pass.old (HoldCall result) pass.new }
        ensures known { pass.new.known ≡ known_after pass.old.known (position_in pass.old) (HoldCall result) }
        ensures position { position_in pass.new ≡ position_in pass.old }
        ensures word { HoldSays (position_in pass.old) result }
        ensures fresh { (f : List ℕ) → Has pass.old.known.pairs (position_in pass.old) f → result ≡ false }
        ensures counted { steps.new ≡ steps.old + 1 }
    {
        !self.glance::<Holds, L>(pass, 0, steps)
    }

    // Whether the slot so many numbers ahead is filled.
    fn glance<A: Kind, L: Ledger>(
        &self,
        pass: &mut PlayerPass,
        ahead: u32,
        steps: &mut Steps<L>,
    ) -> bool
        requires kind { IsGlance A.kind ahead }
        requires ring { pass.old.ring ≡ self.now }
        requires slot { ahead < slot_count self.now.shape }
        requires position { position_in pass.old < 2 ^ 33 }
        ensures glanced { GlancedAs A.kind pass.old result pass.new }
        ensures counted { steps.new ≡ steps.old + 1 }
    {
        let place = self.slot_place(pass.position + u64::from(ahead));
        let found = self.table.load::<A, L>(&mut pass.seat, place, steps);
        is_filled(found)
    }
}
