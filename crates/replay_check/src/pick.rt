// The call that the rule takes next.
ghost use Rattle.std.specs.Prelude.{◌≡◌, ◌≤◌, ◌+◌, ◌↔◌, IsTrue, length};
ghost use Rattle.replay_check.specs.Picks.{FindsNext, FindsQuiet, IsHere, IsPossible, Picks};
ghost use Rattle.replay_check.specs.Rule.{IsQuiet, Waits};
ghost use Rattle.replay_check.specs.Lists.{left_of, list_of};

use crate::recorded::Recorded;
use playout::{Call, FileReply, MapLine};

fn is_quiet(call: &Call) -> bool
    ensures { IsTrue result ↔ IsQuiet call.now }
{
    match call {
        Call::PeekCall { .. } => true,
        Call::LookCall { .. } => true,
        Call::HoldCall { .. } => true,
        _ => false,
    }
}

// Whether a call has to wait for later calls of the player, of whose calls so many were taken.
fn waits(line: &MapLine, lists: &Recorded<'_>, at: &[usize], player: usize, call: &Call) -> bool
    requires player { player ≡ length lists.now.filers }
    requires at { length at.now ≡ length lists.now.filers + 1 }
    requires here { IsHere line.now lists.now at.now }
    ensures { IsTrue result ↔ Waits player line.now.machine (left_of (list_of lists.now) at.now) call.now }
{
    let _ = line;
    match call {
        Call::FileCall { number, reply, .. } => match reply {
            FileReply::Accepted => lists.denies(*number, at[player]),
            _ => false,
        },
        _ => false,
    }
}

// Whether a call is possible: the line would reply so, and it need not wait.
fn is_possible(
    line: &MapLine,
    lists: &Recorded<'_>,
    at: &[usize],
    player: usize,
    call: &Call,
) -> bool
    requires player { player ≡ length lists.now.filers }
    requires at { length at.now ≡ length lists.now.filers + 1 }
    requires here { IsHere line.now lists.now at.now }
    ensures { IsTrue result ↔ IsPossible line.now (left_of (list_of lists.now) at.now) player call.now }
{
    line.can(call) && !waits(line, lists, at, player, call)
}

// A caller's next call, where it is possible.
fn possible(
    line: &MapLine,
    lists: &Recorded<'_>,
    at: &[usize],
    player: usize,
    who: usize,
) -> Option<Call>
    requires player { player ≡ length lists.now.filers }
    requires at { length at.now ≡ length lists.now.filers + 1 }
    requires here { IsHere line.now lists.now at.now }
    requires known { who ≤ player }
    ensures { FindsNext result line.now (left_of (list_of lists.now) at.now) player who }
{
    match lists.call(who, at[who]) {
        Some(call) => {
            if is_possible(line, lists, at, player, &call) {
                Some(call)
            } else {
                None
            }
        }
        None => None,
    }
}

// The player's next call, where it takes nothing and is possible.
fn possible_quiet(line: &MapLine, lists: &Recorded<'_>, at: &[usize], player: usize) -> Option<Call>
    requires player { player ≡ length lists.now.filers }
    requires at { length at.now ≡ length lists.now.filers + 1 }
    requires here { IsHere line.now lists.now at.now }
    ensures { FindsQuiet result line.now (left_of (list_of lists.now) at.now) player }
{
    match possible(line, lists, at, player, player) {
        Some(call) => { if is_quiet(&call) { Some(call) } else { None } }
        None => None,
    }
}

/// A caller and its next call.
#[derive(Clone, Copy)]
pub struct Choice {
    pub who: usize,
    pub call: Call,
}

/// What the rule takes of the lists from these places on: a peek, a look or a hold of the player, else a call of the lowest
/// filer that has a possible one, else a tick or a retire of the player.
pub fn pick(line: &MapLine, lists: &Recorded<'_>, at: &[usize], player: usize) -> Option<Choice>
    requires player { player ≡ length lists.now.filers }
    requires at { length at.now ≡ length lists.now.filers + 1 }
    requires here { IsHere line.now lists.now at.now }
    ensures { Picks result line.now (left_of (list_of lists.now) at.now) player }
{
    if let Some(call) = possible_quiet(line, lists, at, player) {
        return Some(Choice { who: player, call });
    }
    'filers: for who in 0..player {
        if let Some(call) = possible(line, lists, at, player, who) {
            return Some(Choice { who, call });
        }
    }
    match possible(line, lists, at, player, player) {
        Some(call) => Some(Choice { who: player, call }),
        None => None,
    }
}
