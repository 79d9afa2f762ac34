// A ring at its start.
ghost use Rattle.std.specs.Prelude.{◌≡◌, ◌+◌, ◌*◌, ◌^◌, ◌<◌, ◌≤◌, ◌++◌, map, replicate, true, IfOk, OnOk};
ghost use Rattle.ring_core.specs.declared.views.Shape.{Shape};
ghost use Rattle.ring_core.specs.Opening.{slots_from, berths_from, opening_ring};
ghost use Rattle.step_table.specs.Packed.{pack_slot, pack_berth, words_of};
ghost use Rattle.slot_ring.specs.Remains.{shape_of};

use crate::blank::Blank;
use crate::ring::{SlotRing, slots_in};
use crate::words::{NUMBERS, START};
use gate_base::OutOfMemory;
use std::alloc::Global;
use step_table::StepTable;

// The words of this many free slots.
fn push_slots(words: &mut Vec<u64>, count: u32) -> Result<(), OutOfMemory>
    requires { count ≤ 1024 }
    ensures { OnOk result (words.new.items ≡ words.old.items ++ map pack_slot (slots_from 0 count)) }
{
    let mut i = 0u32;
    while i < count {
        words.push(i as u64 * NUMBERS + START + i as u64)?;
        i += 1;
    }
    Ok(())
}

// The words of this many fresh berths, with the cells from this one on.
fn push_berths(words: &mut Vec<u64>, first: u32, count: u32) -> Result<(), OutOfMemory>
    requires { (first ≤ 1024) × (count ≤ 65) }
    ensures { OnOk result (words.new.items ≡ words.old.items ++ map pack_berth (berths_from first count)) }
{
    let mut i = 0u32;
    while i < count {
        words.push(4 * (first + i) as u64)?;
        i += 1;
    }
    Ok(())
}

fn opening_words(alloc: Global, filers: u32, g: u32) -> Result<Vec<u64>, OutOfMemory>
    requires { (filers ≤ 64) × (g ≤ 10) }
    ensures { IfOk result (λ v. v.items ≡ words_of (opening_ring (shape_of filers g))) }
{
    let slots = slots_in(g);
    let mut words = Vec::new(alloc);
    push_slots(&mut words, slots)?;
    push_berths(&mut words, slots, filers + 1)?;
    words.push(0)?;
    words.push(0)?;
    Ok(words)
}

impl SlotRing {
    /// A ring for `filers` filers, numbered from 0, and a player, whose number is `filers`, with 2^`g` slots; and the right to enlist
    /// each of them.
    ///
    /// # Errors
    /// `OutOfMemory`.
    pub fn new(alloc: Global, filers: u32, g: u32) -> Result<(SlotRing, Blank), OutOfMemory>
        requires filers { (1 ≤ filers) × (filers ≤ 64) }
        requires g { g ≤ 10 }
        ensures shape { IfOk result (λ t. (t.0.shape.filers ≡ filers) × (t.0.shape.g ≡ g)) }
        ensures blank { IfOk result (λ t. (t.1.ring ≡ t.0) × (t.1.rights ≡ replicate (filers + 1) true)) }
    {
        let words = opening_words(alloc, filers, g)?;
        let cells = slots_in(g) + filers + 1;
        let room = Vec::with_capacity(alloc, 2 * slots_in(g) as usize)?;
        let (table, seat) = StepTable::new(alloc, words, cells)?;
        Ok((
            SlotRing {
                table,
                filers,
                g,
                room,
            },
            Blank { seat },
        ))
    }
}
