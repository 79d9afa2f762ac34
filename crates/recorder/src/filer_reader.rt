// A filer's journal, event by event.
ghost use Rattle.std.specs.Prelude.{◌+◌, ◌≡◌, ◌≤◌, ◌<◌, ◌⊎◌, ◌^◌, length, take, None, Some, IfOk, IfSome, IsSome, IsErrOf, OnErr};
ghost use Rattle.std.specs.Io.KnownBytes.{Consumes};
ghost use Rattle.gate_base.specs.Faults.{Rose};
ghost use Rattle.gate_io.specs.Flow.{ConsumesFewer};
ghost use Rattle.recorder.specs.Files.{event_limit};
ghost use Rattle.recorder.specs.Filing.{FilerFits, IsFilerHead, filer_answer_text, filer_event_text, filer_fault_at, filer_head_fault, filer_head_text, longest_filed, reply_text};
ghost use Rattle.recorder.specs.Reader.{Tells, again, filer_again, fresh_filer, headed_filer, stepped_filer};

use crate::events::FilerEvent;
use crate::fault::{Ending, RecordEnd};
use crate::filer_head::{FilerHead, read_filer_head};
use crate::filer_read::read_filer_event;
use crate::reading::{Reading, answer_again};
use gate_io::Source;
use playout::FileReply;
use std::marker::Model;

/// Reads a filer's journal from any source, event by event. It keeps where it is and how it ended.
#[derive(Drop)]
pub struct FilerReader {
    head: Option<FilerHead>,
    reading: Reading,
}

impl Model for FilerReader {
    ghost use Rattle.recorder.specs.Reader.{FilerProgress};

    ghost Value = { FilerProgress };

    ghost view = { λ r. record { head = r.head; reading = r.reading } };
}

impl FilerReader {
    /// A reader at the beginning of its source.
    pub fn new() -> FilerReader
        ensures { result ≡ fresh_filer }
    {
        FilerReader {
            head: None,
            reading: Reading::new(),
        }
    }

    /// Reads the head. Once it is decided, the same is answered again and nothing is taken. A refusal has taken no more
    /// than a head's octets.
    pub fn head<I: Source>(&mut self, source: &mut I) -> Result<FilerHead, RecordEnd>
        ensures again { IfSome (filer_again self.old.head self.old.reading.over) (λ a. (result ≡ a) × (self.new ≡ self.old) × (source.new ≡ source.old)) }
        ensures text { self.old ≡ fresh_filer → IfOk result (λ h. Consumes (I.left source.old) (I.left source.new) (filer_head_text h.head h.caller)) }
        ensures fits { self.old ≡ fresh_filer → IfOk result (λ h. IsFilerHead h) }
        ensures fault { self.old ≡ fresh_filer → IfSome (I.left source.old) (λ octets. Tells result (filer_head_fault (take 13 octets))) }
        ensures state { self.old ≡ fresh_filer → self.new ≡ headed_filer result }
        ensures part { OnErr result (ConsumesFewer 14 (I.left source.old) (I.left source.new)) }
        ensures later { I.faults source.old ≤ I.faults source.new }
        ensures failed { IsErrOf result RecordEnd.ReadFailed → Rose (I.faults source.old) (I.faults source.new) ⊎ (self.old.reading.over ≡ Some (Ending.Refused RecordEnd.ReadFailed)) }
    {
        if let Some(head) = self.head {
            return Ok(head);
        }
        if let Some(Ending::Refused(end)) = self.reading.over() {
            return Err(end);
        }
        match read_filer_head(source) {
            Ok(head) => {
                self.head = Some(FilerHead {
                    head: head.head,
                    caller: head.caller,
                });
                self.reading = Reading::behind(13);
                Ok(head)
            }
            Err(end) => {
                self.reading.end(Ending::Refused(end));
                Err(end)
            }
        }
    }

    /// Reads the next event, or none at the end mark. Once the reader is over, the same is answered again and
    /// nothing is taken. A refusal has taken no more than an event's octets.
    pub fn next<I: Source>(&mut self, source: &mut I) -> Result<Option<FilerEvent>, RecordEnd>
        requires { IsSome self.old.head }
        ensures again { IfSome self.old.reading.over (λ e. (result ≡ again e) × (self.new ≡ self.old) × (source.new ≡ source.old)) }
        ensures text { self.old.reading.over ≡ None → IfOk result (λ o. Consumes (I.left source.old) (I.left source.new) (filer_answer_text o)) }
        ensures fits { self.old.reading.over ≡ None → IfOk result (λ o. IfSome o (λ e. FilerFits e × (self.old.reading.count < event_limit))) }
        ensures fault { self.old.reading.over ≡ None → IfSome (I.left source.old) (λ octets. Tells result (filer_fault_at self.old.reading.count self.old.reading.at octets)) }
        ensures state { self.old.reading.over ≡ None → self.new ≡ stepped_filer self.old result }
        ensures kept { self.new.head ≡ self.old.head }
        ensures part { OnErr result (ConsumesFewer (longest_filed + 1) (I.left source.old) (I.left source.new)) }
        ensures later { I.faults source.old ≤ I.faults source.new }
        ensures failed { IsErrOf result RecordEnd.ReadFailed → Rose (I.faults source.old) (I.faults source.new) ⊎ (self.old.reading.over ≡ Some (Ending.Refused RecordEnd.ReadFailed)) }
    {
        if let Some(over) = self.reading.over() {
            return answer_again(over);
        }
        match read_filer_event(self.reading.count(), self.reading.at(), source) {
            Ok(Some(event)) => {
                self.reading.pass(size_of(&event));
                Ok(Some(event))
            }
            Ok(None) => {
                self.reading.end(Ending::Mark);
                Ok(None)
            }
            Err(end) => {
                self.reading.end(Ending::Refused(end));
                Err(end)
            }
        }
    }
}

// How many octets an event has.
fn size_of(event: &FilerEvent) -> u64
    ensures value { result ≡ length (filer_event_text event.now) }
    ensures small { result ≤ 4096 }
{
    match event {
        FilerEvent::Source(_) | FilerEvent::Base(_) | FilerEvent::Stranger { .. } => 9,
        FilerEvent::File { frame, reply, .. } => {
            9 + frame.octets().len() as u64 + ahead_size(reply)
        }
        FilerEvent::Refused { .. } => 4,
        FilerEvent::Rtcp | FilerEvent::Empty => 1,
    }
}

// How many octets the number has that a reply tells.
fn ahead_size(reply: &FileReply) -> u64
    ensures value { result ≡ length (reply_text reply.now) }
    ensures small { result ≤ 8 }
{
    match reply {
        FileReply::Accepted | FileReply::Duplicate => 0,
        FileReply::Late { .. } | FileReply::Beyond { .. } => 8,
    }
}
