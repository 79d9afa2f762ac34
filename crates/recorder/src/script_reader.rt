// A script, event by event.
ghost use Rattle.std.specs.Prelude.{◌+◌, ◌≡◌, ◌≤◌, ◌<◌, ◌⊎◌, length, take, None, Some, IfOk, IfSome, IsSome, IsErrOf, OnErr};
ghost use Rattle.std.specs.Io.KnownBytes.{Consumes};
ghost use Rattle.gate_base.specs.Faults.{Rose};
ghost use Rattle.gate_io.specs.Flow.{ConsumesFewer};
ghost use Rattle.recorder.specs.Heads.{Heading, IsHeading, head_fault, head_text, script_magic};
ghost use Rattle.recorder.specs.Reader.{Tells, again, fresh, head_again, headed, stepped};
ghost use Rattle.recorder.specs.Files.{event_limit};
ghost use Rattle.recorder.specs.Script.{EventFits, answer_text, event_text, fault_at, longest_event};

use crate::events::ScriptEvent;
use crate::fault::{Ending, RecordEnd};
use crate::heading::Head;
use crate::reading::{Reading, answer_again};
use crate::script_read::read_event;
use gate_io::Source;
use std::marker::Model;

const MAGIC: &[u8; 8] = b"GSMGSC01";

/// Reads a script from any source, event by event. It keeps where it is and how it ended.
#[derive(Drop)]
pub struct ScriptReader {
    reading: Reading,
}

impl Model for ScriptReader {
    ghost use Rattle.recorder.specs.Reader.{Progress};

    ghost Value = { Progress };

    ghost view = { λ r. r.reading };
}

impl ScriptReader {
    /// A reader at the beginning of its source.
    pub fn new() -> ScriptReader
        ensures { result ≡ fresh }
    {
        ScriptReader {
            reading: Reading::new(),
        }
    }

    /// Reads the head. Once it is decided, the same is answered again and nothing is taken. A refusal has taken no more
    /// than a head's octets.
    pub fn head<I: Source>(&mut self, source: &mut I) -> Result<Head, RecordEnd>
        ensures again { IfSome (head_again self.old.head self.old.over) (λ a. (result ≡ a) × (self.new ≡ self.old) × (source.new ≡ source.old)) }
        ensures text { self.old ≡ fresh → IfOk result (λ h. Consumes (I.left source.old) (I.left source.new) (head_text script_magic h)) }
        ensures fits { self.old ≡ fresh → IfOk result (λ h. IsHeading h) }
        ensures fault { self.old ≡ fresh → IfSome (I.left source.old) (λ octets. Tells result (head_fault script_magic (take 12 octets))) }
        ensures state { self.old ≡ fresh → self.new ≡ headed result }
        ensures part { OnErr result (ConsumesFewer 13 (I.left source.old) (I.left source.new)) }
        ensures later { I.faults source.old ≤ I.faults source.new }
        ensures failed { IsErrOf result RecordEnd.ReadFailed → Rose (I.faults source.old) (I.faults source.new) ⊎ (self.old.over ≡ Some (Ending.Refused RecordEnd.ReadFailed)) }
    {
        self.reading.head(MAGIC, source)
    }

    /// Reads the next event, or none at the end mark. Once the reader is over, the same is answered again and
    /// nothing is taken. A refusal has taken no more than an event's octets.
    pub fn next<I: Source>(&mut self, source: &mut I) -> Result<Option<ScriptEvent>, RecordEnd>
        requires { IsSome self.old.head }
        ensures again { IfSome self.old.over (λ e. (result ≡ again e) × (self.new ≡ self.old) × (source.new ≡ source.old)) }
        ensures text { self.old.over ≡ None → IfOk result (λ o. Consumes (I.left source.old) (I.left source.new) (answer_text o)) }
        ensures fits { (h : Heading) → self.old.head ≡ Some h → self.old.over ≡ None → IfOk result (λ o. IfSome o (λ e. EventFits h e × (self.old.count < event_limit))) }
        ensures fault { (h : Heading) → self.old.head ≡ Some h → self.old.over ≡ None → IfSome (I.left source.old) (λ octets. Tells result (fault_at h self.old.count self.old.at octets)) }
        ensures state { self.old.over ≡ None → self.new ≡ stepped self.old result }
        ensures kept { self.new.head ≡ self.old.head }
        ensures part { OnErr result (ConsumesFewer (longest_event + 1) (I.left source.old) (I.left source.new)) }
        ensures later { I.faults source.old ≤ I.faults source.new }
        ensures failed { IsErrOf result RecordEnd.ReadFailed → Rose (I.faults source.old) (I.faults source.new) ⊎ (self.old.over ≡ Some (Ending.Refused RecordEnd.ReadFailed)) }
    {
        if let Some(over) = self.reading.over() {
            return answer_again(over);
        }
        let head = self.reading.heading();
        match read_event(&head, self.reading.count(), self.reading.at(), source) {
            Ok(Some(event)) => {
                self.reading.pass(size_of(&event));
                Ok(Some(event))
            }
            Ok(None) => {
                self.reading.end(Ending::Mark);
                Ok(None)
            }
            Err(end) => {
                self.reading.end(Ending::Refused(end));
                Err(end)
            }
        }
    }
}

// How many octets an event has.
fn size_of(event: &ScriptEvent) -> u64
    ensures value { result ≡ length (event_text event.now) }
    ensures small { result ≤ 4096 }
{
    match event {
        ScriptEvent::Tick | ScriptEvent::Beat => 1,
        ScriptEvent::Datagram { octets, .. } => 8 + octets.octets().len() as u64,
        ScriptEvent::File { frame, .. } => 10 + frame.octets().len() as u64,
    }
}
