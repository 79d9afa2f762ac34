// What pools do: enlisting a caller, handing on rights, gathering lists.
ghost use Rattle.std.specs.Prelude.{◌≡◌, ◌≤◌, ◌++◌, ℕ, IfOk, None, Some, slice_set};
ghost use Rattle.ring_core.specs.Ring.{Ring};
ghost use Rattle.ring_core.specs.Core.{enlist_role, gather_roles, split_role};
ghost use Rattle.ring_core.specs.Steps.{only, pool_view};
ghost use Rattle.ring_core.specs.Opening.{all_rights};
ghost use Rattle.ring_core.specs.CoreState.{IsFresh, Sees, StepsOfTwo, StepsOnBerths, list_of};

use crate::core_steps::{caller_view, spent_view};
use crate::element::{found, put};
use crate::lists::{Gathered, Rights};
use crate::views::{Calling, Pooling, Role, Shape, View};
use crate::words::{Berth, Cell};
use gate_base::OutOfMemory;
use std::alloc::Global;

/// The cell of a caller's berth, where it is fresh.
fn fresh_cell(berths: &[Berth], who: u32) -> Option<u32>
    ensures { IsFresh berths.now who result }
{
    match found(berths, who as usize) {
        Some(Berth::Fresh(cell)) => Some(cell),
        _ => None,
    }
}

fn pool_view(shape: Shape, pool: Pooling) -> View
    ensures { result ≡ pool_view shape pool }
{
    View {
        shape,
        role: Role::Pool(pool),
    }
}

/// A pool with no list, and with all rights or with one.
pub fn pool_with(alloc: Global, shape: Shape, right: Option<u32>) -> Result<Pooling, OutOfMemory>
    requires { shape.filers ≤ 64 }
    ensures all { right ≡ None → IfOk result (λ p. p ≡ all_rights shape) }
    ensures one { (who : ℕ) → right ≡ Some who → IfOk result (λ p. p ≡ only shape who) }
{
    let callers = shape.filers as usize + 1;
    let lists = Gathered::new(alloc, callers)?;
    let rights = match right {
        None => Rights::new(alloc, callers, true)?,
        Some(who) => Rights::new(alloc, callers, false)?.with(who, true),
    };
    Ok(Pooling { lists, rights })
}

/// A pool with no list becomes the caller of a fresh berth that it has the right to.
pub fn enlist(
    alloc: Global,
    shape: Shape,
    seat: u32,
    who: u32,
    view: View,
    berths: &mut Vec<Berth>,
    cells: &mut Vec<Cell>,
) -> View
    ensures { StepsOnBerths seat view result berths.old.items berths.new.items cells.old.items cells.new.items (λ s. enlist_role shape s seat who) }
{
    let View { shape: own, role } = view;
    let pool = match role {
        Role::Pool(pool) => pool,
        role => return View { shape: own, role },
    };
    if !pool.lists.is_empty() {
        return pool_view(own, pool);
    }
    if !pool.rights.has(who) {
        return pool_view(own, pool);
    }
    let cell = match fresh_cell(berths, who) {
        Some(cell) => cell,
        None => return pool_view(own, pool),
    };
    put(berths, who as usize, Berth::Out);
    put(cells, cell as usize, Cell::OutWith(seat));
    caller_view(shape, Calling::newcomer(alloc, who, cell))
}

/// A pool hands on one right, or a caller that is not in flight writes a note: with the new seat's view.
pub fn split(
    alloc: Global,
    shape: Shape,
    who: u32,
    view: View,
) -> Result<(View, Option<View>), OutOfMemory>
    requires { shape.filers ≤ 64 }
    ensures { IfOk result (λ r. (s : Ring) (seat : ℕ) → Sees s seat view
        → record s { views = slice_set s.views seat r.0 ++ list_of r.1 } ≡ split_role shape s seat who view.role) }
{
    let View { shape: own, role } = view;
    match role {
        Role::Pool(pool) => {
            if !pool.rights.has(who) {
                return Ok((pool_view(own, pool), None));
            }
            let only = pool_with(alloc, shape, Some(who))?;
            let rest = Pooling {
                lists: pool.lists,
                rights: pool.rights.with(who, false),
            };
            Ok((pool_view(shape, rest), Some(pool_view(shape, only))))
        }
        Role::Caller(caller) => {
            if caller.flight.is_some() {
                return Ok((caller_view(own, caller), None));
            }
            let note = View {
                shape,
                role: Role::Note(caller.known.copied(alloc)?),
            };
            Ok((caller_view(own, caller), Some(note)))
        }
        role => Ok((View { shape: own, role }, None)),
    }
}

/// A pool takes in the list of a caller that has left, whose seat is spent.
pub fn gather(shape: Shape, view: View, gone: View) -> (View, View)
    ensures { StepsOfTwo view gone result.0 result.1 (gather_roles shape) }
{
    let View { shape: own, role } = view;
    let pool = match role {
        Role::Pool(pool) => pool,
        role => return (View { shape: own, role }, gone),
    };
    let View { shape: other, role } = gone;
    match role {
        Role::Departed(departed) => {
            let more = Pooling {
                lists: pool.lists.with(departed.who, departed.list),
                rights: pool.rights,
            };
            (pool_view(shape, more), spent_view())
        }
        role => (pool_view(own, pool), View { shape: other, role }),
    }
}
