// What each atomic step makes of the view of the seat that steps, and of the ring's words and cells.
ghost use Rattle.std.specs.Prelude.{◌≡◌, ◌≤◌, ◌^◌, ℕ, IfOk, slice_set};
ghost use Rattle.ring_core.specs.Ring.{Ring, slot_count, word_of};
ghost use Rattle.ring_core.specs.Core.{base_role, glance_role, kept_in, learn_roles, leave_role, load_role, move_role, peek_role, publish_role, source_role};
ghost use Rattle.ring_core.specs.Steps.{caller_view, spent_view};
ghost use Rattle.ring_core.specs.CoreState.{Sees, StepsByReading, StepsOfTwo, StepsOnBase, StepsOnBerths, StepsOnSlots, StepsOnSource};
ghost use lib.ListN.{get_elem?};

use crate::element::{found, put};
use crate::player_steps::{Glance, Move};
use crate::views::{Calling, Departing, Role, Shape, View};
use crate::words::{Berth, Cell, SlotWord};
use frame_codec::Frame33;
use gate_base::OutOfMemory;

/// How many slots there are.
pub fn slots_in(shape: Shape) -> u64
    requires { shape.g ≤ 10 }
    ensures count { result ≡ slot_count shape }
    ensures some { 1 ≤ result }
    ensures few { result ≤ 2 ^ 10 }
{
    1 << shape.g
}

/// What a cell at home holds.
fn kept(cells: &[Cell], cell: u32) -> Option<Frame33>
    ensures { result ≡ kept_in (get_elem? cells.now cell) }
{
    match found(cells, cell as usize) {
        Some(Cell::AtHome(held)) => held,
        _ => None,
    }
}

/// The view of a caller.
pub fn caller_view(shape: Shape, caller: Calling) -> View
    ensures { result ≡ caller_view shape caller }
{
    View {
        shape,
        role: Role::Caller(caller),
    }
}

/// What a seat is that was joined to another.
pub fn spent_view() -> View
    ensures { result ≡ spent_view }
{
    View {
        shape: Shape { filers: 0, g: 0 },
        role: Role::Spent,
    }
}

/// The player takes what its slot has, and leaves the slot free for the number that comes there next.
pub fn go_on(
    shape: Shape,
    seat: u32,
    how: Move,
    view: View,
    slots: &mut Vec<SlotWord>,
    cells: &mut Vec<Cell>,
) -> Result<View, OutOfMemory>
    requires { shape.g ≤ 10 }
    ensures { IfOk result (λ v. StepsOnSlots seat view v slots.old.items slots.new.items cells.old.items cells.new.items (λ s. move_role shape s seat how)) }
{
    let View { shape: own, role } = view;
    let caller = match role {
        Role::Caller(caller) => caller,
        role => return Ok(View { shape: own, role }),
    };
    if !caller.may_move(shape) {
        return Ok(caller_view(own, caller));
    }
    let position = caller.position();
    let place = (position % slots_in(shape)) as usize;
    let word = match found(slots, place) {
        Some(word) => word,
        None => return Ok(caller_view(own, caller)),
    };
    let held = kept(cells, word.cell);
    let next = SlotWord {
        number: position + slots_in(shape),
        filled: false,
        cell: caller.spare,
    };
    put(slots, place, next);
    put(cells, caller.spare as usize, Cell::AtHome(None));
    put(cells, word.cell as usize, Cell::OutWith(seat));
    Ok(caller_view(shape, caller.moved(how, word, held)?))
}

/// The player looks at a slot of its window.
pub fn look(
    shape: Shape,
    glance: Glance,
    view: View,
    slots: &[SlotWord],
) -> Result<View, OutOfMemory>
    requires { shape.g ≤ 10 }
    ensures { IfOk result (λ v. StepsByReading view v slots.now (λ s seat. glance_role shape s seat glance)) }
{
    let View { shape: own, role } = view;
    let caller = match role {
        Role::Caller(caller) => caller,
        role => return Ok(View { shape: own, role }),
    };
    let ahead = u64::from(glance.ahead());
    if !caller.may_look(shape, ahead) {
        return Ok(caller_view(own, caller));
    }
    match found(
        slots,
        ((caller.position() + ahead) % slots_in(shape)) as usize,
    ) {
        Some(word) => Ok(caller_view(shape, caller.glanced(glance, word)?)),
        None => Ok(caller_view(own, caller)),
    }
}

/// A filer looks at the slot of its number.
pub fn load(
    shape: Shape,
    number: u64,
    frame: Frame33,
    view: View,
    slots: &[SlotWord],
) -> Result<View, OutOfMemory>
    requires { shape.g ≤ 10 }
    ensures { IfOk result (λ v. StepsByReading view v slots.now (λ s seat. load_role shape s seat number frame)) }
{
    let View { shape: own, role } = view;
    let caller = match role {
        Role::Caller(caller) => caller,
        role => return Ok(View { shape: own, role }),
    };
    if !caller.is_filer(shape) {
        return Ok(caller_view(own, caller));
    }
    match found(slots, (number % slots_in(shape)) as usize) {
        Some(word) => Ok(caller_view(shape, caller.loaded(word, number, frame)?)),
        None => Ok(caller_view(own, caller)),
    }
}

/// A filer in flight puts its frame into the slot, if it is still the one that it found free.
pub fn publish(
    shape: Shape,
    seat: u32,
    view: View,
    slots: &mut Vec<SlotWord>,
    cells: &mut Vec<Cell>,
) -> Result<View, OutOfMemory>
    requires { shape.g ≤ 10 }
    ensures { IfOk result (λ v. StepsOnSlots seat view v slots.old.items slots.new.items cells.old.items cells.new.items (λ s. publish_role shape s seat)) }
{
    let View { shape: own, role } = view;
    let caller = match role {
        Role::Caller(caller) => caller,
        role => return Ok(View { shape: own, role }),
    };
    if shape.filers <= caller.who {
        return Ok(caller_view(own, caller));
    }
    let in_flight = caller.flight;
    let flight = match in_flight {
        Some(flight) => flight,
        None => return Ok(caller_view(own, caller)),
    };
    let place = (flight.number % slots_in(shape)) as usize;
    let word = match found(slots, place) {
        Some(word) => word,
        None => return Ok(caller_view(own, caller)),
    };
    if word.number != flight.number || word.filled {
        let told = caller.loaded(word, flight.number, flight.frame)?;
        return Ok(caller_view(shape, told));
    }
    let full = SlotWord {
        number: flight.number,
        filled: true,
        cell: caller.spare,
    };
    put(slots, place, full);
    put(
        cells,
        caller.spare as usize,
        Cell::AtHome(Some(flight.frame)),
    );
    put(cells, flight.cell as usize, Cell::OutWith(seat));
    Ok(caller_view(shape, caller.published(flight)?))
}

/// A caller that is not in flight gives its cell back to its berth.
pub fn leave(shape: Shape, view: View, berths: &mut Vec<Berth>, cells: &mut Vec<Cell>) -> View
    ensures { (seat : ℕ) → StepsOnBerths seat view result berths.old.items berths.new.items cells.old.items cells.new.items (λ s. leave_role shape s seat) }
{
    let View { shape: own, role } = view;
    let caller = match role {
        Role::Caller(caller) => caller,
        role => return View { shape: own, role },
    };
    if caller.flight.is_some() {
        return caller_view(own, caller);
    }
    put(berths, caller.who as usize, Berth::Home(caller.spare));
    put(cells, caller.spare as usize, Cell::AtHome(None));
    let gone = Departing {
        who: caller.who,
        list: caller.list,
    };
    View {
        shape,
        role: Role::Departed(gone),
    }
}

/// A filer says a source, which is held if none is.
pub fn source(
    shape: Shape,
    ssrc: u32,
    view: View,
    source: &mut Option<u32>,
) -> Result<View, OutOfMemory>
    ensures { IfOk result (λ v. StepsOnSource view v source.old source.new (λ s seat. source_role shape s seat ssrc)) }
{
    let View { shape: own, role } = view;
    let caller = match role {
        Role::Caller(caller) => caller,
        role => return Ok(View { shape: own, role }),
    };
    if !caller.is_filer(shape) {
        return Ok(caller_view(own, caller));
    }
    let held = match *source {
        Some(held) => held,
        None => ssrc,
    };
    *source = Some(held);
    Ok(caller_view(shape, caller.sourced(ssrc, held)?))
}

/// A filer says a base, which is held if none is.
pub fn base(shape: Shape, ts: u32, view: View, base: &mut Option<u32>) -> Result<View, OutOfMemory>
    ensures { IfOk result (λ v. StepsOnBase view v base.old base.new (λ s seat. base_role shape s seat ts)) }
{
    let View { shape: own, role } = view;
    let caller = match role {
        Role::Caller(caller) => caller,
        role => return Ok(View { shape: own, role }),
    };
    if !caller.is_filer(shape) {
        return Ok(caller_view(own, caller));
    }
    let held = match *base {
        Some(held) => held,
        None => ts,
    };
    *base = Some(held);
    Ok(caller_view(shape, caller.based(ts, held)?))
}

/// The player looks at the base.
pub fn peek(shape: Shape, view: View, base: Option<u32>) -> Result<View, OutOfMemory>
    ensures { IfOk result (λ v. (s : Ring) (seat : ℕ) → s.base ≡ word_of base → Sees s seat view
        → record s { views = slice_set s.views seat v } ≡ peek_role shape s seat view.role) }
{
    let View { shape: own, role } = view;
    match role {
        Role::Caller(caller) => {
            if caller.who == shape.filers {
                Ok(caller_view(shape, caller.peeked(base)?))
            } else {
                Ok(caller_view(own, caller))
            }
        }
        role => Ok(View { shape: own, role }),
    }
}

/// A caller that is not in flight takes in a note, which is spent.
pub fn learn(shape: Shape, view: View, note: View) -> Result<(View, View), OutOfMemory>
    ensures { IfOk result (λ r. StepsOfTwo view note r.0 r.1 (learn_roles shape)) }
{
    let View { shape: own, role } = view;
    let caller = match role {
        Role::Caller(caller) => caller,
        role => return Ok((View { shape: own, role }, note)),
    };
    if caller.flight.is_some() {
        return Ok((caller_view(own, caller), note));
    }
    let View { shape: other, role } = note;
    match role {
        Role::Note(known) => Ok((caller_view(shape, caller.told(known)?), spent_view())),
        role => Ok((caller_view(own, caller), View { shape: other, role })),
    }
}
