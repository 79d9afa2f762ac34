// A player's journal becomes the speech that it played.
ghost use Rattle.std.specs.Prelude.{◌≡◌, ◌≤◌, ◌∷◌, ◌++◌, [], List, Ok, option_to_list};
ghost use Rattle.gate_base.specs.Faults.{HasCause, Rose};
ghost use Rattle.playout.specs.declared.call.Call.{Call};
ghost use Rattle.recorder.specs.Heads.{IsHeading};
ghost use Rattle.recorder.specs.Reader.{headed_play};
ghost use Rattle.recorder.specs.Tallies.{play_tally};
ghost use Rattle.replay_check.specs.Journals.{play_of};
ghost use Rattle.replay_check.specs.Render.{Completes, GivesSpeechOf, PlayedBehind, Renders, Stops, StopsBehind, event_items};

use crate::plays::play_of;
use byteorder::{ByteOrder, LittleEndian};
use frame_codec::Item;
use gate_io::{Failed, Sink, Source};
use recorder::{
    Head, PlayEvent, PlayReader, PlayTally, RecordEnd, RecordFault, player_journals_have_no_fault,
};
use substitution::Voice;

/// How a journal was played.
#[derive(Clone, Copy, Debug, PartialEq, Eq)]
pub enum RenderEnd {
    /// It was played to its end mark, and this was counted.
    Done(PlayTally),
    /// The journal has this first fault.
    Refused(RecordFault),
    /// The journal could not be read.
    ReadFault,
    /// The speech could not be written.
    WriteFault,
}

// Plays an item: 160 samples at 8 kHz become 320 octets, the low octet of each first, in one give.
fn give_speech<O: Sink>(voice: &mut Voice, item: Item, pcm: &mut O) -> Result<(), Failed>
    ensures played { GivesSpeechOf (item ∷ []) voice.old voice.new (O.given pcm.old) (O.given pcm.new) result }
    ensures cause { HasCause (O.faults pcm.old) (O.faults pcm.new) result }
    ensures kin { O.kin pcm.old pcm.new }
{
    let mut samples = [0; 160];
    voice.play(item, &mut samples);
    let mut octets = [0; 320];
    LittleEndian::write_i16_into(&samples, &mut octets);
    pcm.give(&octets)
}

// What an event plays.
fn item_of(event: &PlayEvent) -> Option<Item>
    ensures { event_items event.now ≡ option_to_list result }
{
    match event {
        PlayEvent::Idle => Some(Item::Idle),
        PlayEvent::Base { .. } => None,
        PlayEvent::Erasure => Some(Item::Erasure),
        PlayEvent::Frame(frame) => Some(Item::Frame(*frame)),
        PlayEvent::Held => Some(Item::Erasure),
        PlayEvent::Found => None,
        PlayEvent::LookFree { .. } => None,
        PlayEvent::LookFilled { .. } => None,
        PlayEvent::RetiredErasure => None,
        PlayEvent::RetiredFrame(_) => None,
    }
}

// Counts an event's call, and plays what the event plays.
fn play_event<O: Sink>(
    event: &PlayEvent,
    voice: &mut Voice,
    tally: &mut PlayTally,
    pcm: &mut O,
) -> Result<(), Failed>
    ensures played { GivesSpeechOf (event_items event.now) voice.old voice.new (O.given pcm.old) (O.given pcm.new) result }
    ensures counted { (calls : List Call) → tally.old ≡ play_tally calls → tally.new ≡ play_tally (calls ++ play_of event.now ∷ []) }
    ensures cause { HasCause (O.faults pcm.old) (O.faults pcm.new) result }
    ensures kin { O.kin pcm.old pcm.new }
{
    tally.call(&play_of(event));
    match item_of(event) {
        Some(item) => give_speech(voice, item, pcm),
        None => Ok(()),
    }
}

// Plays the events after the head.
fn play_events<I: Source, O: Sink>(
    head: &Head,
    seed: [u8; 32],
    reader: &mut PlayReader,
    journal: &mut I,
    pcm: &mut O,
) -> RenderEnd
    requires heading { IsHeading head.now }
    requires read { reader.old ≡ headed_play (Ok head.now) }
    ensures played { PlayedBehind seed result head.now (I.left journal.old) (O.given pcm.old) (O.given pcm.new) }
    ensures stops { StopsBehind seed result head.now (I.left journal.old) (I.left journal.new) (O.given pcm.old) (O.given pcm.new) }
    ensures later { (I.faults journal.old ≤ I.faults journal.new) × (O.faults pcm.old ≤ O.faults pcm.new) }
    ensures read { result ≡ RenderEnd.ReadFault → Rose (I.faults journal.old) (I.faults journal.new) }
    ensures write { result ≡ RenderEnd.WriteFault → Rose (O.faults pcm.old) (O.faults pcm.new) }
    ensures kin { O.kin pcm.old pcm.new }
{
    let _ = head;
    let mut voice = Voice::new(seed);
    let mut tally = PlayTally::new();
    'events: loop {
        match reader.next(journal) {
            Ok(Some(event)) => match play_event(&event, &mut voice, &mut tally, pcm) {
                Ok(()) => {}
                Err(Failed) => return RenderEnd::WriteFault,
            },
            Ok(None) => return RenderEnd::Done(tally),
            Err(RecordEnd::Fault(fault)) => return RenderEnd::Refused(fault),
            Err(RecordEnd::ReadFailed) => return RenderEnd::ReadFault,
        }
    }
}

/// Plays a player's journal by a voice of this seed: the speech is 320 octets for each beat of 20 ms, which are 160
/// samples of 16 bits at 8 kHz, the low octet first. An Idle is silent, and a Held plays as an erasure does. A Base, what was looked
/// for and what was retired play nothing.
///
/// It takes no memory. A fault ends it there, and what was given stays: the speech of all events that were read, and
/// where a give failed that of all but the last, and a prefix of that.
pub fn render<I: Source, O: Sink>(seed: [u8; 32], journal: &mut I, pcm: &mut O) -> RenderEnd
    ensures renders { Renders seed result (I.left journal.old) (O.given pcm.old) (O.given pcm.new) }
    ensures stops { Stops seed result (I.left journal.old) (I.left journal.new) (O.given pcm.old) (O.given pcm.new) }
    ensures later { (I.faults journal.old ≤ I.faults journal.new) × (O.faults pcm.old ≤ O.faults pcm.new) }
    ensures read { result ≡ RenderEnd.ReadFault → Rose (I.faults journal.old) (I.faults journal.new) }
    ensures write { result ≡ RenderEnd.WriteFault → Rose (O.faults pcm.old) (O.faults pcm.new) }
    ensures complete { Completes result (I.left journal.old) }
    ensures kin { O.kin pcm.old pcm.new }
{
    // A journal that is whole is never refused.
    player_journals_have_no_fault();
    let mut reader = PlayReader::new();
    match reader.head(journal) {
        Ok(head) => play_events(&head, seed, &mut reader, journal, pcm),
        Err(RecordEnd::Fault(fault)) => RenderEnd::Refused(fault),
        Err(RecordEnd::ReadFailed) => RenderEnd::ReadFault,
    }
}
