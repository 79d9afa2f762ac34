// Which numbers the player's calls say are absent, and behind which of its calls none does any more.
ghost use Rattle.std.specs.Prelude.{◌≡◌, ◌<◌, ◌≤◌, ◌+◌, length, replicate, IfOk};
ghost use Rattle.playout.specs.History.{move_weight};
ghost use Rattle.recorder.specs.Journals.{PlayerRecordFits};
ghost use Rattle.replay_check.specs.Denials.{AreDenials, LooksWithin, denials_with};
ghost use Rattle.replay_check.specs.Journals.{plays_in};

use crate::plays::play_of;
use gate_base::OutOfMemory;
use playout::Call;
use recorder::PlayerJournal;
use std::alloc::Global;

// A line has at most so many slots, and a look reaches less far ahead.
const MOST_SLOTS: usize = 1024;

fn zeros(alloc: Global, len: usize) -> Result<Vec<u32>, OutOfMemory>
    ensures { IfOk result (λ v. v.items ≡ replicate len 0) }
{
    Ok(vec![in alloc; 0; len]?)
}

fn weight_of(call: &Call) -> usize
    ensures { result ≡ move_weight call.now }
{
    match call {
        Call::TickCall { .. } => 1,
        Call::RetireCall { .. } => 1,
        _ => 0,
    }
}

// Notes what the player's call at this place says is absent, behind so many ticks and retires.
fn note(denials: &mut Vec<u32>, call: &Call, moved: usize, place: usize)
    requires reach { LooksWithin 1024 call.now }
    requires room { moved + 1024 ≤ length denials.old.items }
    requires place { place < 16777216 }
    ensures { denials.new.items ≡ denials_with call.now moved place denials.old.items }
{
    match call {
        Call::LookCall {
            ahead,
            filled: false,
        } => {
            denials[moved + *ahead as usize] = place as u32 + 1;
        }
        Call::HoldCall { held: true } => {
            denials[moved] = place as u32 + 1;
        }
        _ => {}
    }
}

/// For each number from the first on, the place behind the last of the player's calls that says that it is absent, or 0 where none does.
pub fn denials_of(alloc: Global, player: &PlayerJournal) -> Result<Vec<u32>, OutOfMemory>
    ensures denials { IfOk result (λ v. AreDenials v.items (plays_in player.now.events)) }
    ensures fits { PlayerRecordFits player.now }
{
    let mut denials = zeros(alloc, player.len() + MOST_SLOTS)?;
    let mut moved = 0;
    'events: for place in 0..player.len() {
        let call = play_of(player.get(place));
        note(&mut denials, &call, moved, place);
        moved += weight_of(&call);
    }
    Ok(denials)
}
