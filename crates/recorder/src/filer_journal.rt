// A filer's journal, whole.
ghost use Rattle.std.specs.Prelude.{ℕ, ◌≡◌, ◌≤◌, ◌<◌, List, length, slice_index_or, take, None, Err, IfOk, IfSome, OnErr};
ghost use Rattle.std.specs.Io.KnownBytes.{Consumes};
ghost use Rattle.gate_base.specs.Faults.{Rose};
ghost use Rattle.recorder.specs.Heads.{IsHeading};
ghost use Rattle.recorder.specs.Journals.{FilerRecordFits, HasFilerFault, IsFilerJournal, ReadsWhole, RefusesByFirst, RefusesByHead, filer_text};
ghost use Rattle.recorder.specs.Filing.{filer_head_fault};
ghost use Rattle.recorder.specs.Reader.{IsWithin};
ghost use Rattle.recorder.specs.declared.fault.RecordFault.{RecordFault};

use crate::events::FilerEvent;
use crate::fault::RecordEnd;
use crate::filer_head::FilerHead;
use crate::filer_reader::FilerReader;
use crate::heading::Head;
use crate::refusal::JournalRefusal;
use gate_io::Source;
use std::alloc::Global;
use std::marker::Model;

/// A filer's journal in memory: its head, its filer's number, and at most 16777216 events, all in their ranges.
#[derive(Drop)]
pub struct FilerJournal {
    head: FilerHead,
    events: Vec<FilerEvent>,
}

impl Model for FilerJournal {
    ghost use Rattle.recorder.specs.Journals.{FilerRecord, FilerRecordFits};

    ghost Value = { FilerRecord };

    ghost view = { λ j. record { head = j.head.head; caller = j.head.caller; events = j.events.items } };

    ghost invariant = { λ j. FilerRecordFits record { head = j.head.head; caller = j.head.caller; events = j.events.items } };
}

impl FilerJournal {
    /// Reads a whole journal, to its end mark. A refusal tells the input's first fault, and leaves the source
    /// somewhere within its input. Memory is taken only after the head, so that a fault of the head is always reported.
    pub fn read<I: Source>(alloc: Global, source: &mut I) -> Result<FilerJournal, JournalRefusal>
        ensures text { IfOk result (λ j. Consumes (I.left source.old) (I.left source.new) (filer_text j)) }
        ensures fits { IfOk result (λ j. FilerRecordFits j) }
        ensures fault { (f : RecordFault) → result ≡ Err (JournalRefusal.End (RecordEnd.Fault f)) → IfSome (I.left source.old) (λ octets. HasFilerFault octets f) }
        ensures later { I.faults source.old ≤ I.faults source.new }
        ensures failed { result ≡ Err (JournalRefusal.End RecordEnd.ReadFailed) → Rose (I.faults source.old) (I.faults source.new) }
        ensures complete { ReadsWhole IsFilerJournal (I.left source.old) (I.faults source.old) (I.faults source.new) result }
        ensures head { RefusesByHead (λ octets. filer_head_fault (take 13 octets)) (I.left source.old) result }
        ensures first { RefusesByFirst HasFilerFault (I.left source.old) result }
        ensures part { OnErr result (IsWithin (I.left source.old) (I.left source.new)) }
    {
        FilerJournal::read_whole(alloc, source)
    }

    // The same, apart from the fault that stands in the octets.
    fn read_whole<I: Source>(alloc: Global, source: &mut I) -> Result<FilerJournal, JournalRefusal>
        ensures text { IfOk result (λ j. Consumes (I.left source.old) (I.left source.new) (filer_text j)) }
        ensures fits { IfOk result (λ j. FilerRecordFits j) }
        ensures fault { (f : RecordFault) → result ≡ Err (JournalRefusal.End (RecordEnd.Fault f)) → IfSome (I.left source.old) (λ octets. HasFilerFault octets f) }
        ensures later { I.faults source.old ≤ I.faults source.new }
        ensures failed { result ≡ Err (JournalRefusal.End RecordEnd.ReadFailed) → Rose (I.faults source.old) (I.faults source.new) }
        ensures complete { ReadsWhole IsFilerJournal (I.left source.old) (I.faults source.old) (I.faults source.new) result }
        ensures memory { result ≡ Err JournalRefusal.OutOfMemory → IfSome (I.left source.old) (λ octets. filer_head_fault (take 13 octets) ≡ None) }
        ensures part { OnErr result (IsWithin (I.left source.old) (I.left source.new)) }
    {
        let mut reader = FilerReader::new();
        let head = match reader.head(source) {
            Ok(head) => head,
            Err(end) => return Err(JournalRefusal::End(end)),
        };
        let mut events: Vec<FilerEvent> = Vec::new(alloc);
        'events: loop {
            match reader.next(source) {
                Ok(Some(event)) => match events.extend_from_slice(&[event]) {
                    Ok(()) => {}
                    Err(_) => return Err(JournalRefusal::OutOfMemory),
                },
                Ok(None) => return Ok(FilerJournal { head, events }),
                Err(end) => return Err(JournalRefusal::End(end)),
            }
        }
    }

    /// The head of all files.
    pub fn head(&self) -> Head
        ensures value { result ≡ self.now.head }
        ensures fits { IsHeading result }
    {
        self.head.head
    }

    /// The number of the filer, below the number of filers.
    pub fn caller(&self) -> u8
        ensures value { result ≡ self.now.caller }
        ensures known { result < self.now.head.filers }
    {
        self.head.caller
    }

    /// How many events there are.
    pub fn len(&self) -> usize
        ensures value { result ≡ length self.now.events }
        ensures fits { FilerRecordFits self.now }
    {
        self.events.len()
    }

    /// The event at a place, counted from 0.
    pub fn get(&self, i: usize) -> &FilerEvent
        requires { i < length self.now.events }
        ensures value { result.now ≡ slice_index_or self.now.events i result.now }
        ensures fits { FilerRecordFits self.now }
    {
        &self.events[i]
    }

    /// All events, in their order.
    pub fn events(&self) -> &[FilerEvent]
        ensures value { result.now ≡ self.now.events }
        ensures fits { FilerRecordFits self.now }
    {
        &self.events
    }
}
