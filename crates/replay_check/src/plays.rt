// The call that an event of the player's journal tells.
ghost use Rattle.std.specs.Prelude.{◌≡◌};
ghost use Rattle.replay_check.specs.Journals.{play_of};

use frame_codec::Item;
use playout::Call;
use recorder::PlayEvent;

/// The call of an event of the player's journal.
pub fn play_of(event: &PlayEvent) -> Call
    ensures { result ≡ play_of event.now }
{
    match event {
        PlayEvent::Idle => Call::PeekCall { held: None },
        PlayEvent::Base { base } => Call::PeekCall { held: Some(*base) },
        PlayEvent::Erasure => Call::TickCall {
            item: Item::Erasure,
        },
        PlayEvent::Frame(frame) => Call::TickCall {
            item: Item::Frame(*frame),
        },
        PlayEvent::Held => Call::HoldCall { held: true },
        PlayEvent::Found => Call::HoldCall { held: false },
        PlayEvent::LookFree { ahead } => Call::LookCall {
            ahead: *ahead,
            filled: false,
        },
        PlayEvent::LookFilled { ahead } => Call::LookCall {
            ahead: *ahead,
            filled: true,
        },
        PlayEvent::RetiredErasure => Call::RetireCall {
            item: Item::Erasure,
        },
        PlayEvent::RetiredFrame(frame) => Call::RetireCall {
            item: Item::Frame(*frame),
        },
    }
}
