// The callers of a line leave its ring, and the ring is closed.
ghost use Rattle.std.specs.Prelude.{◌≡◌, ◌≤◌, length, map};
ghost use Rattle.slot_ring.specs.Remains.{Ended};
ghost use Rattle.line_run.specs.Callers.{AreLists, AreNumbered, GatheredOne, HasLists, HasPass, PlayerThere, told};

use crate::caller::Caller;
use crate::ends::FilerEnds;
use crate::line_end::LineEnd;
use crate::player_caller::PlayerCaller;
use slot_ring::{Blank, Gather, Left, SlotRing, Steps};
use std::marker::Brand;
use std::sync::ledger;
use std::sync::ledger::Ledger;

fn gather_caller<L: Ledger>(
    ring: &SlotRing,
    caller: Caller,
    who: usize,
    gather: &mut Gather,
    steps: &mut Steps<L>,
)
    requires caller { HasPass ring.now who caller }
    requires gather { gather.old.ring ≡ ring.now }
    ensures ring { gather.new.ring ≡ ring.now }
    ensures lists { GatheredOne caller gather.old.lists gather.new.lists }
{
    let Caller { pass, .. } = caller;
    let Some(pass) = pass else { unreachable!() };
    let departed = ring.leave_filer(pass, steps);
    ring.gather(gather, departed, steps);
}

// Each filer leaves, from the last on, and its calls are gathered.
fn gather_filers<L: Ledger>(
    ring: &SlotRing,
    callers: &mut Vec<Caller>,
    gather: &mut Gather,
    steps: &mut Steps<L>,
)
    requires callers { AreNumbered ring.now callers.old.items }
    requires gather { (gather.old.ring ≡ ring.now) × (length callers.old.items ≤ length gather.old.lists) }
    ensures ring { gather.new.ring ≡ ring.now }
    ensures lists { HasLists callers.old.items gather.old.lists gather.new.lists }
{
    while let Some(caller) = callers.pop() {
        gather_caller(ring, caller, callers.len(), gather, steps);
    }
}

// All leave, and the ring is closed.
fn leave_and_close<L: Ledger>(
    ring: SlotRing,
    mut callers: Vec<Caller>,
    player: PlayerCaller,
    blank: Blank,
    counted: ledger::Blank,
) -> Left
    requires callers { AreNumbered ring callers.items }
    requires many { length callers.items ≡ ring.shape.filers }
    requires player { PlayerThere ring player }
    requires blank { blank.ring ≡ ring }
    requires name { counted.name ≡ L.name }
    requires parts { (counted.parts ≡ L.parts) × (counted.parts ≡ 1) }
    ensures lists { AreLists ring.shape.filers callers.items player result.lists }
    ensures history { Ended ring.shape result.lists result.frames }
{
    let mut steps = Steps::<L>::open(counted);
    let mut gather = ring.gathering(blank);
    gather_filers(&ring, &mut callers, &mut gather, &mut steps);
    let PlayerCaller { pass, .. } = player;
    let Some(pass) = pass else { unreachable!() };
    let departed = ring.leave_player(pass, &mut steps);
    ring.gather(&mut gather, departed, &mut steps);
    ring.close(gather)
}

/// What came of all callers. They leave and are gathered, and the ring is closed.
pub(crate) fn end_line(
    ring: SlotRing,
    callers: Vec<Caller>,
    player: PlayerCaller,
    blank: Blank,
) -> LineEnd
    requires callers { AreNumbered ring callers.items }
    requires many { (length callers.items ≡ ring.shape.filers) × (length callers.items ≤ 64) }
    requires player { PlayerThere ring player }
    requires blank { blank.ring ≡ ring }
    ensures player { (result.player ≡ player.end) × (result.played ≡ player.tally) }
    ensures filers { result.filers ≡ map told callers.items }
    ensures lists { AreLists ring.shape.filers callers.items player result.left.lists }
    ensures history { Ended ring.shape result.left.lists result.left.frames }
{
    let filers = FilerEnds::of(callers.as_slice());
    let end = player.end;
    let played = player.tally;
    let left = leave_and_close::<Brand>(ring, callers, player, blank, ledger::Blank::new(1));
    LineEnd {
        player: end,
        played,
        filers,
        left,
    }
}
