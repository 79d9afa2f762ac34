// The player's journal, event by event.
ghost use Rattle.std.specs.Prelude.{◌+◌, ◌≡◌, ◌≤◌, ◌<◌, ◌⊎◌, length, take, None, Some, IfOk, IfSome, IsSome, IsErrOf, OnErr};
ghost use Rattle.std.specs.Io.KnownBytes.{Consumes};
ghost use Rattle.gate_base.specs.Faults.{Rose};
ghost use Rattle.gate_io.specs.Flow.{ConsumesFewer};
ghost use Rattle.recorder.specs.Files.{event_limit};
ghost use Rattle.recorder.specs.Heads.{Heading, IsHeading, head_fault, head_text, play_magic};
ghost use Rattle.recorder.specs.Play.{PlayFits, longest_play, may_open, play_answer_text, play_event_text, play_fault_at};
ghost use Rattle.recorder.specs.Reader.{Tells, again, fresh_play, head_again, headed_play, stepped_play};

use crate::events::PlayEvent;
use crate::fault::{Ending, RecordEnd};
use crate::heading::Head;
use crate::play_read::read_play_event;
use crate::reading::{Reading, answer_again};
use gate_io::Source;
use std::marker::Model;

const MAGIC: &[u8; 8] = b"GSMGPJ01";

/// Reads a player's journal from any source, event by event: Idle events, then at most one Base, then the others. It
/// keeps where it is and how it ended.
#[derive(Drop)]
pub struct PlayReader {
    reading: Reading,
    opening: bool,
}

impl Model for PlayReader {
    ghost use Rattle.recorder.specs.Reader.{PlayProgress};

    ghost Value = { PlayProgress };

    ghost view = { λ r. record { reading = r.reading; opening = r.opening } };
}

impl PlayReader {
    /// A reader at the beginning of its source.
    pub fn new() -> PlayReader
        ensures { result ≡ fresh_play }
    {
        PlayReader {
            reading: Reading::new(),
            opening: true,
        }
    }

    /// Reads the head. Once it is decided, the same is answered again and nothing is taken. A refusal has taken no more
    /// than a head's octets.
    pub fn head<I: Source>(&mut self, source: &mut I) -> Result<Head, RecordEnd>
        ensures again { IfSome (head_again self.old.reading.head self.old.reading.over) (λ a. (result ≡ a) × (self.new ≡ self.old) × (source.new ≡ source.old)) }
        ensures text { self.old ≡ fresh_play → IfOk result (λ h. Consumes (I.left source.old) (I.left source.new) (head_text play_magic h)) }
        ensures fits { self.old ≡ fresh_play → IfOk result (λ h. IsHeading h) }
        ensures fault { self.old ≡ fresh_play → IfSome (I.left source.old) (λ octets. Tells result (head_fault play_magic (take 12 octets))) }
        ensures state { self.old ≡ fresh_play → self.new ≡ headed_play result }
        ensures part { OnErr result (ConsumesFewer 13 (I.left source.old) (I.left source.new)) }
        ensures later { I.faults source.old ≤ I.faults source.new }
        ensures failed { IsErrOf result RecordEnd.ReadFailed → Rose (I.faults source.old) (I.faults source.new) ⊎ (self.old.reading.over ≡ Some (Ending.Refused RecordEnd.ReadFailed)) }
    {
        self.reading.head(MAGIC, source)
    }

    /// Reads the next event, or none at the end mark. An Idle or a Base out of order is an unknown kind, and a look
    /// tells of a number that the head's line has ahead. Once the reader is over, the same is answered again and
    /// nothing is taken. A refusal has taken no more than an event's octets.
    pub fn next<I: Source>(&mut self, source: &mut I) -> Result<Option<PlayEvent>, RecordEnd>
        requires { IsSome self.old.reading.head }
        ensures again { IfSome self.old.reading.over (λ e. (result ≡ again e) × (self.new ≡ self.old) × (source.new ≡ source.old)) }
        ensures text { self.old.reading.over ≡ None → IfOk result (λ o. Consumes (I.left source.old) (I.left source.new) (play_answer_text o)) }
        ensures fits { (h : Heading) → self.old.reading.head ≡ Some h → self.old.reading.over ≡ None → IfOk result (λ o. IfSome o (λ e. PlayFits h.g self.old.opening e × (self.old.reading.count < event_limit))) }
        ensures fault { (h : Heading) → self.old.reading.head ≡ Some h → self.old.reading.over ≡ None → IfSome (I.left source.old) (λ octets. Tells result (play_fault_at h.g self.old.opening self.old.reading.count self.old.reading.at octets)) }
        ensures state { self.old.reading.over ≡ None → self.new ≡ stepped_play self.old result }
        ensures kept { self.new.reading.head ≡ self.old.reading.head }
        ensures part { OnErr result (ConsumesFewer (longest_play + 1) (I.left source.old) (I.left source.new)) }
        ensures later { I.faults source.old ≤ I.faults source.new }
        ensures failed { IsErrOf result RecordEnd.ReadFailed → Rose (I.faults source.old) (I.faults source.new) ⊎ (self.old.reading.over ≡ Some (Ending.Refused RecordEnd.ReadFailed)) }
    {
        if let Some(over) = self.reading.over() {
            return answer_again(over);
        }
        let head = self.reading.heading();
        match read_play_event(
            &head,
            self.opening,
            self.reading.count(),
            self.reading.at(),
            source,
        ) {
            Ok(Some(event)) => {
                self.reading.pass(size_of(&event));
                self.opening = may_open(&event);
                Ok(Some(event))
            }
            Ok(None) => {
                self.reading.end(Ending::Mark);
                Ok(None)
            }
            Err(end) => {
                self.reading.end(Ending::Refused(end));
                Err(end)
            }
        }
    }
}

// Whether Idle and Base may come after an event.
fn may_open(event: &PlayEvent) -> bool
    ensures { result ≡ may_open event.now }
{
    matches!(event, PlayEvent::Idle)
}

// How many octets an event has.
fn size_of(event: &PlayEvent) -> u64
    ensures value { result ≡ length (play_event_text event.now) }
    ensures small { result ≤ 4096 }
{
    match event {
        PlayEvent::Base { .. } => 5,
        PlayEvent::LookFree { .. } | PlayEvent::LookFilled { .. } => 3,
        PlayEvent::Frame(frame) | PlayEvent::RetiredFrame(frame) => {
            1 + frame.octets().len() as u64
        }
        _ => 1,
    }
}
