// What a ring leaves.
ghost use Rattle.std.specs.Prelude.{◌≡◌, ◌*◌, ◌<◌, ◌≤◌, [], vec_capacity, length, slice_get};
ghost use Rattle.slot_ring.specs.Remains.{Ended, AllGathered, read_at, frames_left};

use crate::gather::Gather;
use crate::ring::{SlotRing, slots_in, turn_place};
use crate::words::{FILLED, NUMBERS, cell_of};
use frame_codec::Frame33;
use ring_core::gathered_are_the_calls;
use std::marker::Model;
use std::snapshot::Snapshot;
use step_table::Closed;

/// The frames that were accepted and not played, in rising number. Contracts see them, and the calls that were gathered.
#[derive(Drop)]
pub struct Left {
    frames: Vec<(u64, Frame33)>,
    lists: Snapshot<Gather>,
}

impl Model for Left {
    ghost use Rattle.slot_ring.specs.Remains.{LeftView};

    ghost Value = { LeftView };

    ghost view = { λ l. record { frames = l.frames.items; lists = l.lists.value.lists } };
}

impl SlotRing {
    /// The ring ends, where every caller has left and was gathered. One legal history has the gathered calls, and the frames that the
    /// machine has after it are left. No step.
    pub fn close(self, gather: Gather) -> Left
        requires ring { gather.ring ≡ self }
        requires all { AllGathered self.shape.filers gather.lists }
        ensures lists { result.lists ≡ gather.lists }
        ensures history { Ended self.shape gather.lists result.frames }
    {
        // A law: the call runs nothing, and gives what the proof needs.
        gathered_are_the_calls();
        let lists = Snapshot::of(&gather);
        let Gather { seat } = gather;
        let SlotRing {
            table,
            filers,
            g,
            mut room,
        } = self;
        let closed = table.close(seat);
        let slots = slots_in(g);
        collect(&closed, slots, slots + filers + 1, &mut room);
        drop(closed);
        Left {
            frames: room,
            lists,
        }
    }
}

// The frame of a number, where its slot's word has this number and is filled.
fn frame_at(closed: &Closed, slots: u32, cells: u32, number: u64) -> Option<Frame33>
    requires slots { (0 < slots) × (slots ≤ length closed.now.words) }
    requires cells { cells ≡ length closed.now.cells }
    ensures { result ≡ read_at slots closed.now.words closed.now.cells number }
{
    let word = closed.word(turn_place(number, slots));
    if word % NUMBERS != number || word < FILLED {
        return None;
    }
    let cell = cell_of(word);
    if cell >= cells {
        return None;
    }
    closed.cell(cell)
}

// The numbers of the window lie less than a turn away from that of the first word.
fn collect(closed: &Closed, slots: u32, cells: u32, frames: &mut Vec<(u64, Frame33)>)
    requires slots { (0 < slots) × (slots ≤ length closed.now.words) × (slots ≤ 1024) }
    requires cells { cells ≡ length closed.now.cells }
    requires space { (frames.old.items ≡ []) × (2 * slots ≤ vec_capacity frames.old) }
    ensures { frames.new.items ≡ frames_left slots closed.now.words closed.now.cells }
{
    let first = (closed.word(0) % NUMBERS).saturating_sub(slots as u64);
    let mut i = 0u64;
    while i < 2 * (slots as u64) {
        if let Some(frame) = frame_at(closed, slots, cells, first + i) {
            frames.push_reserved((first + i, frame));
        }
        i += 1;
    }
}

impl Left {
    /// How many frames are left.
    pub fn len(&self) -> usize
        ensures { result ≡ length self.now.frames }
    {
        self.frames.len()
    }

    /// The `i`-th of the frames with its number, or none from their count on.
    pub fn get(&self, i: usize) -> Option<(u64, Frame33)>
        ensures { result ≡ slice_get self.now.frames i }
    {
        if i >= self.frames.len() {
            return None;
        }
        Some(self.frames[i])
    }
}
