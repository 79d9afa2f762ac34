// What the player's calls give: to its journal, and to be heard.
ghost use Rattle.std.specs.Prelude.{◌≡◌, option_to_list};
ghost use Rattle.recorder.specs.Play.{event_of_call, retired, ticked};
ghost use Rattle.recorder.specs.Tallies.{call_items};

use crate::events::PlayEvent;
use frame_codec::Item;
use playout::Call;

/// The event that the player's journal has of a call. Each call of the player has one, and those of the filers have
/// none.
pub fn play_event_of(call: &Call) -> Option<PlayEvent>
    ensures { result ≡ event_of_call call.now }
{
    match call {
        Call::PeekCall { held: None } => Some(PlayEvent::Idle),
        Call::PeekCall { held: Some(base) } => Some(PlayEvent::Base { base: *base }),
        Call::TickCall { item } => ticked(item),
        Call::LookCall {
            ahead,
            filled: false,
        } => Some(PlayEvent::LookFree { ahead: *ahead }),
        Call::LookCall {
            ahead,
            filled: true,
        } => Some(PlayEvent::LookFilled { ahead: *ahead }),
        Call::HoldCall { held: true } => Some(PlayEvent::Held),
        Call::HoldCall { held: false } => Some(PlayEvent::Found),
        Call::RetireCall { item } => retired(item),
        Call::FileCall { .. } | Call::SourceCall { .. } | Call::BaseCall { .. } => None,
    }
}

// The event of what a tick takes.
fn ticked(item: &Item) -> Option<PlayEvent>
    ensures { result ≡ ticked item.now }
{
    match item {
        Item::Idle => None,
        Item::Frame(frame) => Some(PlayEvent::Frame(*frame)),
        Item::Erasure => Some(PlayEvent::Erasure),
    }
}

// The event of what a retire takes.
fn retired(item: &Item) -> Option<PlayEvent>
    ensures { result ≡ retired item.now }
{
    match item {
        Item::Idle => None,
        Item::Frame(frame) => Some(PlayEvent::RetiredFrame(*frame)),
        Item::Erasure => Some(PlayEvent::RetiredErasure),
    }
}

/// What a call gives to be heard: an idle beat where it sees no base, an erasure where it lets a beat pass, and the item
/// of a tick. The other calls give nothing.
pub fn call_item(call: &Call) -> Option<Item>
    ensures { call_items call.now ≡ option_to_list result }
{
    match call {
        Call::PeekCall { held: None } => Some(Item::Idle),
        Call::HoldCall { held: true } => Some(Item::Erasure),
        Call::TickCall { item } => Some(*item),
        _ => None,
    }
}
