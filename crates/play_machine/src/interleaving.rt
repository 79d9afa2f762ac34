// Any interleaving of the ring's callers, one atomic step after the other.
ghost use Rattle.std.specs.Prelude.{◌≡◌, ◌≤◌, ◌<◌, ◌^◌, All, IfOk, length};
ghost use Rattle.ring_core.specs.Ring.{RingRule};
ghost use Rattle.ring_core.specs.Opening.{opening_ring};
ghost use Rattle.ring_core.specs.Core.{run, NumberFits};

use gate_base::OutOfMemory;
use ring_core::{CoreEvent, CoreState, Shape, rule_holds};
use std::alloc::Global;

/// The ring of 1 to 64 filers and 2^g slots after these events, each one atomic step of one seat. Seat 0 is the
/// first, with the right to enlist each caller; each split makes the next number. An event that its seat's
/// view does not allow changes nothing. Whatever the events, the ring meets the rule.
pub fn core_run(
    alloc: Global,
    filers: u32,
    g: u32,
    events: &Vec<CoreEvent>,
) -> Result<CoreState, OutOfMemory>
    requires some { 1 ≤ filers }
    requires few { filers ≤ 64 }
    requires g { g ≤ 10 }
    requires numbers { All NumberFits events.now.items }
    requires count { length events.now.items < 2 ^ 32 }
    ensures state { IfOk result (λ s. s ≡ run (record { filers = filers; g = g }) (opening_ring (record { filers = filers; g = g })) events.now.items) }
    ensures rule { IfOk result (RingRule (record { filers = filers; g = g })) }
{
    // A law of the ring: the call runs nothing, and proves the clause `rule`.
    rule_holds();
    let shape = Shape { filers, g };
    let mut state = CoreState::opening(alloc, shape)?;
    for event in events {
        state.happens(alloc, shape, event)?;
    }
    Ok(state)
}
