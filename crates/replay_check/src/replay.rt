// Whether journals have a legal history.
ghost use Rattle.std.specs.Prelude.{ℕ, ◌≡◌, ◌<◌, ◌≤◌, ◌-◌, ◌+◌, ◌^◌, length, IfOk, slice_get, slice_index, slice_set};
ghost use Rattle.playout.specs.Machine.{opening_machine};
ghost use Rattle.replay_check.specs.Journals.{AreOfOneLine, journal_lists};
ghost use Rattle.replay_check.specs.Rule.{AreJournals, IsVerdict};
ghost use Rattle.replay_check.specs.Lists.{list_of};

use crate::making::make;
use crate::order::Order;
use crate::pick::pick;
use crate::recorded::Recorded;
use crate::verdict::Verdict;
use gate_base::OutOfMemory;
use playout::MapLine;
use recorder::{FilerJournal, PlayerJournal};
use std::alloc::Global;

// The verdict on the lists of the filers, and the player's behind them, from the line's opening on.
fn judge(alloc: Global, mut line: MapLine, lists: &Recorded<'_>) -> Result<Verdict, OutOfMemory>
    requires opening { line.machine ≡ opening_machine }
    requires filers { 0 < line.filers }
    requires few { length lists.now.filers ≤ 64 }
    requires journals { AreJournals (length lists.now.filers) (list_of lists.now) }
    requires short { (k : ℕ) → length (list_of lists.now k) ≤ 16777216 }
    ensures { IfOk result (λ v. IsVerdict (2 ^ line.g) (length lists.now.filers) (list_of lists.now) v) }
{
    let player = lists.len() - 1;
    let mut at: Vec<usize> = vec![in alloc; 0; lists.len()]?;
    let mut order: Vec<u32> = Vec::new(alloc);
    'steps: while let Some(taken) = pick(&line, lists, &at, player) {
        make(&mut line, &taken.call);
        at[taken.who] += 1;
        order.push(taken.who as u32)?;
    }
    'rest: for (who, place) in at.iter().enumerate() {
        if *place < lists.count(who) {
            return Ok(Verdict::Illegal {
                caller: who as u32,
                place: *place as u64,
            });
        }
    }
    Ok(Verdict::Legal(Order::of(order)))
}

/// Whether the journals of one line have a legal history: one history of the playout machine in which each caller's
/// calls are those of its journal, in their order. All heads are equal, and there is a journal for each filer, in the
/// order of their numbers.
///
/// The order is that of a rule. A call is possible where the machine would reply so; a frame that was accepted moreover only where
/// no later look or hold of the player tells that its number is absent. At each point the rule takes the player's next
/// call where it is a peek, a look or a hold and is possible, else the next call of the lowest filer whose next call is
/// possible, else the player's tick or retire where that is possible. Where it finds none and calls are left, no legal
/// history exists.
pub fn verify(
    alloc: Global,
    filers: &Vec<FilerJournal>,
    player: &PlayerJournal,
) -> Result<Verdict, OutOfMemory>
    requires { AreOfOneLine filers.now.items player.now }
    ensures { IfOk result (λ v. IsVerdict (2 ^ player.now.head.g) (length filers.now.items) (journal_lists filers.now.items player.now) v) }
{
    let head = player.head();
    let lists = Recorded::of(alloc, filers, player)?;
    let line = MapLine::new(alloc, head.filers as u32, head.g as u32)?;
    judge(alloc, line, &lists)
}
