// The ring, which its callers share.
ghost use Rattle.std.specs.Prelude.{◌≡◌, ◌<◌, ◌≤◌, ◌%◌, ◌^◌, ◌+◌};
ghost use Rattle.ring_core.specs.Ring.{slot_count};
ghost use Rattle.step_table.specs.Kinds.{source_place, base_place};

use frame_codec::Frame33;
use std::marker::Model;
use step_table::StepTable;

/// A ring of 2^g slots for a number of filers and a player. Contracts see which ring it is, and its shape. Its calls take `&self`, and any
/// number of threads may make them at once; none waits, and none but `new` takes memory.
#[derive(Drop)]
pub struct SlotRing {
    pub(crate) table: StepTable,
    pub(crate) filers: u32,
    pub(crate) g: u32,
    // Where the frames that are left will go.
    pub(crate) room: Vec<(u64, Frame33)>,
}

impl Model for SlotRing {
    ghost use Rattle.std.specs.Prelude.{◌≡◌, ◌≤◌, ◌*◌, ◌^◌, [], vec_capacity};
    ghost use Rattle.step_table.specs.Packed.{Where};

    ghost Value = { Where };

    ghost view = { λ r. r.table };

    ghost invariant = { λ r. (r.table.shape.g ≡ r.g) × (r.table.shape.filers ≡ r.filers) × (r.room.items ≡ []) × (2 * 2 ^ r.g ≤ vec_capacity r.room) × (r.g ≤ 10) × (r.filers ≤ 64) };
}

// 2^g
pub(crate) fn slots_in(g: u32) -> u32
    requires { g ≤ 10 }
    ensures value { result ≡ 2 ^ g }
    ensures few { result ≤ 1024 }
    ensures some { 0 < result }
{
    1u32 << g
}

// The place of a number's slot.
pub(crate) fn turn_place(number: u64, slots: u32) -> u32
    requires { 0 < slots }
    ensures { result ≡ number % slots }
{
    (number % slots as u64) as u32
}

impl SlotRing {
    // The place of the word of a number's slot.
    pub(crate) fn slot_place(&self, number: u64) -> u32
        ensures { result ≡ number % slot_count self.now.shape }
    {
        turn_place(number, slots_in(self.g))
    }

    // The place of the word of a caller's berth.
    pub(crate) fn berth_place(&self, who: u32) -> u32
        requires { who ≤ self.now.shape.filers }
        ensures { result ≡ slot_count self.now.shape + who }
    {
        slots_in(self.g) + who
    }

    pub(crate) fn source_word(&self) -> u32
        ensures { result ≡ source_place self.now.shape }
    {
        slots_in(self.g) + (self.filers + 1)
    }

    pub(crate) fn base_word(&self) -> u32
        ensures { result ≡ base_place self.now.shape }
    {
        slots_in(self.g) + (self.filers + 2)
    }
}
