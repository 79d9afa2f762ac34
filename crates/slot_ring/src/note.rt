// What one caller knows, handed to another.
ghost use Rattle.std.specs.Prelude.{◌≡◌, ◌+◌};
ghost use Rattle.ring_core.specs.Steps.{merged};

use crate::kinds::{Learns, Notes};
use crate::pass::{FilerPass, PlayerPass};
use crate::ring::SlotRing;
use std::marker::Model;
use std::sync::ledger::Ledger;
use step_table::{StepSeat, Steps};

/// What a caller knew when it made this. It may go to another thread, and be learnt there.
#[derive(Drop)]
pub struct Note {
    pub(crate) seat: StepSeat,
}

impl Model for Note {
    ghost use Rattle.slot_ring.specs.Seen.{NoteView, known_in};
    ghost use Rattle.slot_ring.specs.Kept.{IsNote};

    ghost Value = { NoteView };

    ghost view = { λ n. record { ring = record { id = n.seat.table_id; shape = n.seat.me.0.shape }; known = known_in n.seat.me.0.role } };

    ghost invariant = { λ n. IsNote n.seat.me };
}

impl SlotRing {
    /// A note of what the filer knows. One step.
    pub fn note_filer<L: Ledger>(&self, pass: &mut FilerPass, steps: &mut Steps<L>) -> Note
        requires ring { pass.old.ring ≡ self.now }
        ensures pass { pass.new ≡ pass.old }
        ensures ring { result.ring ≡ self.now }
        ensures known { result.known ≡ pass.old.known }
        ensures counted { steps.new ≡ steps.old + 1 }
    {
        let seat = self.table.split::<Notes, L>(&mut pass.seat, steps);
        Note { seat }
    }

    /// A note of what the player knows. One step.
    pub fn note_player<L: Ledger>(&self, pass: &mut PlayerPass, steps: &mut Steps<L>) -> Note
        requires ring { pass.old.ring ≡ self.now }
        ensures pass { pass.new ≡ pass.old }
        ensures ring { result.ring ≡ self.now }
        ensures known { result.known ≡ pass.old.known }
        ensures counted { steps.new ≡ steps.old + 1 }
    {
        let seat = self.table.split::<Notes, L>(&mut pass.seat, steps);
        Note { seat }
    }

    /// The filer knows from now on what it or the note knew. One step.
    pub fn learn_filer<L: Ledger>(&self, pass: &mut FilerPass, note: Note, steps: &mut Steps<L>)
        requires ring { (pass.old.ring ≡ self.now) × (note.ring ≡ self.now) }
        ensures ring { pass.new.ring ≡ self.now }
        ensures who { pass.new.who ≡ pass.old.who }
        ensures list { pass.new.list ≡ pass.old.list }
        ensures known { pass.new.known ≡ merged pass.old.known note.known }
        ensures counted { steps.new ≡ steps.old + 1 }
    {
        let Note { seat } = note;
        self.table.join::<Learns, L>(&mut pass.seat, seat, steps);
    }

    /// The player knows from now on what it or the note knew. One step.
    pub fn learn_player<L: Ledger>(&self, pass: &mut PlayerPass, note: Note, steps: &mut Steps<L>)
        requires ring { (pass.old.ring ≡ self.now) × (note.ring ≡ self.now) }
        ensures ring { pass.new.ring ≡ self.now }
        ensures who { pass.new.who ≡ pass.old.who }
        ensures list { pass.new.list ≡ pass.old.list }
        ensures known { pass.new.known ≡ merged pass.old.known note.known }
        ensures counted { steps.new ≡ steps.old + 1 }
    {
        let Note { seat: told } = note;
        self.table.join::<Learns, L>(&mut pass.seat, told, steps);
    }
}
