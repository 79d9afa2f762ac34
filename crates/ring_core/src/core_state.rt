// The state of the ring, as a value of the program.
ghost use Rattle.std.specs.Prelude.{◌≡◌, ◌≤◌, List, IfOk, MatchOption};
ghost use Rattle.playout.specs.declared.call.Call.{Call};
ghost use Rattle.ring_core.specs.Opening.{berths_from, opening_ring, slots_from};
ghost use Rattle.ring_core.specs.CoreState.{HasList, IsListOf};

use crate::core_steps::slots_in;
use crate::pool_steps::pool_with;
use crate::views::{Role, Shape, View};
use crate::words::{Berth, Cell, SlotWord};
use gate_base::OutOfMemory;
use playout::Call;
use std::alloc::Global;
use std::marker::Model;

/// The number that the first tick or retire takes.
const START: u64 = 1 << 32;

/// The ring: its slot words, berth words, source and base words, cells, and a view for each seat.
#[derive(Drop)]
pub struct CoreState {
    pub(crate) slots: Vec<SlotWord>,
    pub(crate) berths: Vec<Berth>,
    pub(crate) source: Option<u32>,
    pub(crate) base: Option<u32>,
    pub(crate) cells: Vec<Cell>,
    pub(crate) views: Vec<View>,
}

impl Model for CoreState {
    ghost use Rattle.ring_core.specs.Ring.{Ring};

    ghost Value = { Ring };

    ghost use Rattle.ring_core.specs.CoreInside.{ring_of};

    ghost view = { ring_of };
}

// Free words for the first numbers, each with its own cell.
fn opening_slots(alloc: Global, slots: u32) -> Result<Vec<SlotWord>, OutOfMemory>
    ensures { IfOk result (λ v. v.items ≡ slots_from 0 slots) }
{
    let mut words = Vec::with_capacity(alloc, slots as usize)?;
    for i in 0..slots {
        words.push(SlotWord {
            number: START + u64::from(i),
            filled: false,
            cell: i,
        })?;
    }
    Ok(words)
}

// Fresh berths with the cells from this one on.
fn opening_berths(alloc: Global, first: u32, callers: u32) -> Result<Vec<Berth>, OutOfMemory>
    requires first { first ≤ 1024 }
    requires callers { callers ≤ 65 }
    ensures { IfOk result (λ v. v.items ≡ berths_from first callers) }
{
    let mut berths = Vec::with_capacity(alloc, callers as usize)?;
    for i in 0..callers {
        berths.push(Berth::Fresh(first + i))?;
    }
    Ok(berths)
}

impl CoreState {
    /// The ring at the start: free slots, fresh berths, and seat 0 with the right to enlist each caller.
    pub fn opening(alloc: Global, shape: Shape) -> Result<CoreState, OutOfMemory>
        requires filers { shape.filers ≤ 64 }
        requires g { shape.g ≤ 10 }
        ensures { IfOk result (λ s. s ≡ opening_ring shape) }
    {
        let slots = slots_in(shape) as u32;
        let callers = shape.filers + 1;
        let cells = (slots + callers) as usize;
        let first = View {
            shape,
            role: Role::Pool(pool_with(alloc, shape, None)?),
        };
        let mut views = Vec::with_capacity(alloc, 1)?;
        views.push(first)?;
        Ok(CoreState {
            slots: opening_slots(alloc, slots)?,
            berths: opening_berths(alloc, slots, callers)?,
            source: None,
            base: None,
            cells: Vec::from_elem(alloc, Cell::AtHome(None), cells)?,
            views,
        })
    }

    /// The calls of a caller, in whichever view they stand; none where no view has them.
    pub fn calls(&self, who: u32) -> &[Call]
        ensures { IsListOf self.now who result.now }
    {
        for view in &self.views {
            match view.calls_of(who) {
                Some(list) => return list,
                None => {}
            }
        }
        &[]
    }
}

impl View {
    // The list of a caller in this view.
    fn calls_of(&self, who: u32) -> Option<&[Call]>
        ensures { MatchOption result ((l : List Call) → HasList who l self.now.role → ⊥) (λ list. HasList who list.now self.now.role) }
    {
        match &self.role {
            Role::Caller(caller) => {
                if caller.who == who {
                    Some(caller.list.as_slice())
                } else {
                    None
                }
            }
            Role::Departed(gone) => {
                if gone.who == who {
                    Some(gone.list.as_slice())
                } else {
                    None
                }
            }
            Role::Pool(pool) => pool.lists.get(who),
            Role::Note(_) => None,
            Role::Spent => None,
        }
    }
}
