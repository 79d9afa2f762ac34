// The held source and base.
ghost use Rattle.std.specs.Prelude.{◌≡◌, ℕ, ◌+◌, Some};
ghost use Rattle.playout.specs.declared.call.Call.TheVariants.{SourceCall, BaseCall};
ghost use Rattle.step_table.specs.Kinds.{source, base};
ghost use Rattle.slot_ring.specs.Seen.{position_in, Grown, known_after, HeldSays};

use crate::pass::FilerPass;
use crate::ring::SlotRing;
use crate::words::{held, read, value_or};
use std::marker::Brand;
use std::sync::ledger::Ledger;
use step_table::{Kind, Steps};

impl SlotRing {
    /// Says the source of a packet, and answers the one that is held. One step. A filer that knows the held source is answered it.
    pub fn source<L: Ledger>(&self, pass: &mut FilerPass, ssrc: u32, steps: &mut Steps<L>) -> u32
        requires ring { pass.old.ring ≡ self.now }
        ensures call { Grown pass.old (SourceCall ssrc result) pass.new }
        ensures known { pass.new.known ≡ known_after pass.old.known (position_in pass.old) (SourceCall ssrc result) }
        ensures fresh { (x : ℕ) → pass.old.known.source ≡ Some x → result ≡ x }
        ensures word { HeldSays pass.old.known.source ssrc result }
        ensures counted { steps.new ≡ steps.old + 1 }
    {
        self.source_as::<Brand, L>(pass, ssrc, steps)
    }

    fn source_as<A: Kind, L: Ledger>(
        &self,
        pass: &mut FilerPass,
        ssrc: u32,
        steps: &mut Steps<L>,
    ) -> u32
        requires kind { A.kind ≡ source ssrc }
        requires ring { pass.old.ring ≡ self.now }
        ensures call { Grown pass.old (SourceCall ssrc result) pass.new }
        ensures known { pass.new.known ≡ known_after pass.old.known (position_in pass.old) (SourceCall ssrc result) }
        ensures fresh { (x : ℕ) → pass.old.known.source ≡ Some x → result ≡ x }
        ensures word { HeldSays pass.old.known.source ssrc result }
        ensures counted { steps.new ≡ steps.old + 1 }
    {
        let place = self.source_word();
        let answer = self
            .table
            .compare_exchange::<A, L>(&mut pass.seat, place, 0, held(ssrc), steps);
        value_or(read(answer), ssrc)
    }

    /// Says the timestamp of a packet, and answers the base that is held. One step. A filer that knows the held base is answered it.
    pub fn base<L: Ledger>(&self, pass: &mut FilerPass, ts: u32, steps: &mut Steps<L>) -> u32
        requires ring { pass.old.ring ≡ self.now }
        ensures call { Grown pass.old (BaseCall ts result) pass.new }
        ensures known { pass.new.known ≡ known_after pass.old.known (position_in pass.old) (BaseCall ts result) }
        ensures fresh { (x : ℕ) → pass.old.known.base ≡ Some x → result ≡ x }
        ensures word { HeldSays pass.old.known.base ts result }
        ensures counted { steps.new ≡ steps.old + 1 }
    {
        self.base_as::<Brand, L>(pass, ts, steps)
    }

    fn base_as<A: Kind, L: Ledger>(
        &self,
        pass: &mut FilerPass,
        ts: u32,
        steps: &mut Steps<L>,
    ) -> u32
        requires kind { A.kind ≡ base ts }
        requires ring { pass.old.ring ≡ self.now }
        ensures call { Grown pass.old (BaseCall ts result) pass.new }
        ensures known { pass.new.known ≡ known_after pass.old.known (position_in pass.old) (BaseCall ts result) }
        ensures fresh { (x : ℕ) → pass.old.known.base ≡ Some x → result ≡ x }
        ensures word { HeldSays pass.old.known.base ts result }
        ensures counted { steps.new ≡ steps.old + 1 }
    {
        let place = self.base_word();
        let answer = self
            .table
            .compare_exchange::<A, L>(&mut pass.seat, place, 0, held(ts), steps);
        value_or(read(answer), ts)
    }
}
