// The player's journal, whole.
ghost use Rattle.std.specs.Prelude.{ℕ, ◌≡◌, ◌≤◌, ◌<◌, List, length, slice_index_or, take, None, Err, IfOk, IfSome, OnErr};
ghost use Rattle.std.specs.Io.KnownBytes.{Consumes};
ghost use Rattle.gate_base.specs.Faults.{Rose};
ghost use Rattle.recorder.specs.Heads.{IsHeading, head_fault, play_magic};
ghost use Rattle.recorder.specs.Journals.{PlayerRecordFits, HasPlayerFault, IsPlayerJournal, ReadsWhole, RefusesByFirst, RefusesByHead, player_text};
ghost use Rattle.recorder.specs.Reader.{IsWithin};
ghost use Rattle.recorder.specs.declared.fault.RecordFault.{RecordFault};

use crate::events::PlayEvent;
use crate::fault::RecordEnd;
use crate::heading::Head;
use crate::play_reader::PlayReader;
use crate::refusal::JournalRefusal;
use gate_io::Source;
use std::alloc::Global;
use std::marker::Model;

/// A player's journal in memory: its head and at most 16777216 events, all in their ranges and in order: Idle events
/// come first, then at most one Base, then the others.
#[derive(Drop)]
pub struct PlayerJournal {
    head: Head,
    events: Vec<PlayEvent>,
}

impl Model for PlayerJournal {
    ghost use Rattle.recorder.specs.Journals.{PlayerRecord, PlayerRecordFits};

    ghost Value = { PlayerRecord };

    ghost view = { λ j. record { head = j.head; events = j.events.items } };

    ghost invariant = { λ j. PlayerRecordFits record { head = j.head; events = j.events.items } };
}

impl PlayerJournal {
    /// Reads a whole journal, to its end mark. A refusal tells the input's first fault, and leaves the source
    /// somewhere within its input. Memory is taken only after the head, so that a fault of the head is always reported.
    pub fn read<I: Source>(alloc: Global, source: &mut I) -> Result<PlayerJournal, JournalRefusal>
        ensures text { IfOk result (λ j. Consumes (I.left source.old) (I.left source.new) (player_text j)) }
        ensures fits { IfOk result (λ j. PlayerRecordFits j) }
        ensures fault { (f : RecordFault) → result ≡ Err (JournalRefusal.End (RecordEnd.Fault f)) → IfSome (I.left source.old) (λ octets. HasPlayerFault octets f) }
        ensures later { I.faults source.old ≤ I.faults source.new }
        ensures failed { result ≡ Err (JournalRefusal.End RecordEnd.ReadFailed) → Rose (I.faults source.old) (I.faults source.new) }
        ensures complete { ReadsWhole IsPlayerJournal (I.left source.old) (I.faults source.old) (I.faults source.new) result }
        ensures head { RefusesByHead (λ octets. head_fault play_magic (take 12 octets)) (I.left source.old) result }
        ensures first { RefusesByFirst HasPlayerFault (I.left source.old) result }
        ensures part { OnErr result (IsWithin (I.left source.old) (I.left source.new)) }
    {
        PlayerJournal::read_whole(alloc, source)
    }

    // The same, apart from the fault that stands in the octets.
    fn read_whole<I: Source>(alloc: Global, source: &mut I) -> Result<PlayerJournal, JournalRefusal>
        ensures text { IfOk result (λ j. Consumes (I.left source.old) (I.left source.new) (player_text j)) }
        ensures fits { IfOk result (λ j. PlayerRecordFits j) }
        ensures fault { (f : RecordFault) → result ≡ Err (JournalRefusal.End (RecordEnd.Fault f)) → IfSome (I.left source.old) (λ octets. HasPlayerFault octets f) }
        ensures later { I.faults source.old ≤ I.faults source.new }
        ensures failed { result ≡ Err (JournalRefusal.End RecordEnd.ReadFailed) → Rose (I.faults source.old) (I.faults source.new) }
        ensures complete { ReadsWhole IsPlayerJournal (I.left source.old) (I.faults source.old) (I.faults source.new) result }
        ensures memory { result ≡ Err JournalRefusal.OutOfMemory → IfSome (I.left source.old) (λ octets. head_fault play_magic (take 12 octets) ≡ None) }
        ensures part { OnErr result (IsWithin (I.left source.old) (I.left source.new)) }
    {
        let mut reader = PlayReader::new();
        let head = match reader.head(source) {
            Ok(head) => head,
            Err(end) => return Err(JournalRefusal::End(end)),
        };
        let mut events: Vec<PlayEvent> = Vec::new(alloc);
        'events: loop {
            match reader.next(source) {
                Ok(Some(event)) => match events.push(event) {
                    Ok(()) => {}
                    Err(_) => return Err(JournalRefusal::OutOfMemory),
                },
                Ok(None) => return Ok(PlayerJournal { head, events }),
                Err(end) => return Err(JournalRefusal::End(end)),
            }
        }
    }

    /// The head of all files.
    pub fn head(&self) -> Head
        ensures value { result ≡ self.now.head }
        ensures fits { IsHeading result }
    {
        self.head
    }

    /// How many events there are.
    pub fn len(&self) -> usize
        ensures value { result ≡ length self.now.events }
        ensures fits { PlayerRecordFits self.now }
    {
        self.events.len()
    }

    /// The event at a place, counted from 0.
    pub fn get(&self, i: usize) -> &PlayEvent
        requires { i < length self.now.events }
        ensures value { result.now ≡ slice_index_or self.now.events i result.now }
        ensures fits { PlayerRecordFits self.now }
    {
        &self.events[i]
    }

    /// All events, in their order.
    pub fn events(&self) -> &[PlayEvent]
        ensures value { result.now ≡ self.now.events }
        ensures fits { PlayerRecordFits self.now }
    {
        &self.events
    }
}
