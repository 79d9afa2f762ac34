// The calls of a beat.
ghost use Rattle.std.specs.Prelude.{◌≡◌, ◌<◌, ◌≤◌, ◌+◌, ◌^◌, ◌∷◌, ◌++◌, [], length};
ghost use Rattle.std.specs.List.{flat_map};
ghost use Rattle.gate_base.specs.Faults.{HasCause};
ghost use Rattle.gate_io.specs.Flow.{Gives};
ghost use Rattle.recorder.specs.Play.{call_text};
ghost use Rattle.recorder.specs.Tallies.{call_items};
ghost use Rattle.player.specs.Beats.{GivesOne, all_counted, held_after, held_by, opened_after, opened_by};

use frame_codec::Item;
use gate_io::{Failed, Sink};
use playout::Call;
use recorder::{PlayTally, call_item, play_event_of, write_play};
use std::marker::Model;

/// The calls of a beat on its side in their order, at most five.
#[derive(Drop, Debug)]
pub struct BeatCalls {
    kept: [Call; 5],
    count: usize,
}

impl Model for BeatCalls {
    ghost use Rattle.std.specs.Prelude.{◌≤◌, List, take};
    ghost use Rattle.playout.specs.declared.call.Call.{Call};

    ghost Value = { List Call };

    ghost view = { λ b. take b.count b.kept };

    ghost invariant = { λ b. b.count ≤ 5 };
}

impl BeatCalls {
    pub(crate) fn new() -> BeatCalls
        ensures { result ≡ [] }
    {
        BeatCalls {
            kept: [Call::PeekCall { held: None }; 5],
            count: 0,
        }
    }

    pub(crate) fn push(&mut self, call: Call)
        requires { length self.old < 5 }
        ensures { self.new ≡ self.old ++ call ∷ [] }
    {
        self.kept[self.count] = call;
        self.count += 1;
    }

    /// The calls.
    pub fn as_slice(&self) -> &[Call]
        ensures value { result.now ≡ self.now }
        ensures few { length self.now ≤ 5 }
    {
        &self.kept[..self.count]
    }
}

/// The item that is played: the only one that the calls of a beat give.
pub fn item_of_beat(calls: &BeatCalls) -> Item
    requires { GivesOne calls.now }
    ensures { flat_map call_items calls.now ≡ result ∷ [] }
{
    for call in calls.as_slice() {
        if let Some(item) = call_item(call) {
            return item;
        }
    }
    Item::Idle
}

/// Whether a base was seen or a tick made after these calls, where it was `opened` before them.
pub fn opened_after(opened: bool, calls: &BeatCalls) -> bool
    ensures { result ≡ opened_after opened calls.now }
{
    let mut now = opened;
    for call in calls.as_slice() {
        now = opens(now, call);
    }
    now
}

// The same after one call.
fn opens(opened: bool, call: &Call) -> bool
    ensures { result ≡ opened_by opened call.now }
{
    match call {
        Call::PeekCall { held: None } => opened,
        _ => true,
    }
}

/// How many numbers are held after these calls, where so many were `held` before them.
pub fn held_after(held: u32, calls: &BeatCalls) -> u32
    requires { held + 5 < 2 ^ 32 }
    ensures { result ≡ held_after held calls.now }
{
    let mut now = held;
    for call in calls.as_slice() {
        now = holds(now, call);
    }
    now
}

// The same after one call.
fn holds(held: u32, call: &Call) -> u32
    requires { held + 1 < 2 ^ 32 }
    ensures value { result ≡ held_by held call.now }
    ensures most { result ≤ held + 1 }
{
    match call {
        Call::HoldCall { held: true } => held + 1,
        Call::RetireCall { .. } => held.saturating_sub(1),
        _ => held,
    }
}

/// Counts the calls of a beat.
pub fn count_calls(calls: &BeatCalls, tally: &mut PlayTally)
    ensures { tally.new ≡ all_counted tally.old calls.now }
{
    for call in calls.as_slice() {
        tally.call(call);
    }
}

/// Gives the journal the events of the calls, each in one give. `Failed` comes from the journal, which then has a front of
/// them.
pub fn write_calls<J: Sink>(calls: &BeatCalls, journal: &mut J) -> Result<(), Failed>
    ensures given { Gives (J.given journal.old) (J.given journal.new) result (flat_map call_text calls.now) }
    ensures cause { HasCause (J.faults journal.old) (J.faults journal.new) result }
    ensures kin { J.kin journal.old journal.new }
{
    for call in calls.as_slice() {
        if let Err(Failed) = write_call(call, journal) {
            return Err(Failed);
        }
    }
    Ok(())
}

// Gives the event of a call, in one give.
fn write_call<J: Sink>(call: &Call, journal: &mut J) -> Result<(), Failed>
    ensures given { Gives (J.given journal.old) (J.given journal.new) result (call_text call.now) }
    ensures cause { HasCause (J.faults journal.old) (J.faults journal.new) result }
    ensures kin { J.kin journal.old journal.new }
{
    match play_event_of(call) {
        Some(event) => write_play(&event, journal),
        None => Ok(()),
    }
}
