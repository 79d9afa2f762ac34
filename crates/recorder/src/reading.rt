// What a reader keeps between its calls.
ghost use Rattle.std.specs.Prelude.{◌≡◌, ◌≤◌, ◌<◌, ◌⊎◌, ◌+◌, ◌^◌, length, take, Some, None, IfOk, IfSome, IsSome, IsErrOf, OnErr};
ghost use Rattle.std.specs.Io.KnownBytes.{Consumes};
ghost use Rattle.gate_base.specs.Faults.{Rose};
ghost use Rattle.gate_io.specs.Flow.{ConsumesFewer};
ghost use Rattle.recorder.specs.Heads.{IsHeading, head_fault, head_text};
ghost use Rattle.recorder.specs.Reader.{Tells, again, fresh, head_again, headed};
ghost use Rattle.recorder.specs.Files.{event_limit};

use crate::fault::{Ending, RecordEnd};
use crate::heading::Head;
use crate::read::read_head;
use gate_io::Source;
use std::marker::Model;

/// The head once it is read, the place and the number of events read, and how the reader ended.
#[derive(Drop)]
pub struct Reading {
    head: Option<Head>,
    at: u64,
    count: u32,
    over: Option<Ending>,
}

impl Model for Reading {
    ghost use Rattle.std.specs.Prelude.{◌+◌, ◌*◌, ◌≤◌};
    ghost use Rattle.recorder.specs.Reader.{Progress};
    ghost use Rattle.recorder.specs.Files.{event_limit};

    ghost Value = { Progress };

    ghost view = { λ r. record { head = r.head; at = r.at; count = r.count; over = r.over } };

    ghost invariant = { λ r. (r.at ≤ 13 + 4096 * r.count) × (r.count ≤ event_limit) };
}

impl Reading {
    /// Before any octet was read.
    pub fn new() -> Reading
        ensures { result ≡ fresh }
    {
        Reading {
            head: None,
            at: 0,
            count: 0,
            over: None,
        }
    }

    /// After a head of this many octets, which its reader keeps.
    pub fn behind(size: u64) -> Reading
        requires { size ≤ 13 }
        ensures { result ≡ record fresh { at = size } }
    {
        Reading {
            head: None,
            at: size,
            count: 0,
            over: None,
        }
    }

    /// How the reader ended.
    pub fn over(&self) -> Option<Ending>
        ensures { result ≡ self.now.over }
    {
        self.over
    }

    /// The head that was read.
    pub fn heading(&self) -> Head
        requires { IsSome self.now.head }
        ensures { Some result ≡ self.now.head }
    {
        self.head.unwrap()
    }

    /// The place of the next octet.
    pub fn at(&self) -> u64
        ensures value { result ≡ self.now.at }
        ensures small { result + 4096 < 2 ^ 64 }
    {
        self.at
    }

    /// How many events were read.
    pub fn count(&self) -> u32
        ensures { result ≡ self.now.count }
    {
        self.count
    }

    /// Reads the head. Once it is decided, it is answered again.
    pub fn head<I: Source>(&mut self, magic: &[u8; 8], source: &mut I) -> Result<Head, RecordEnd>
        ensures again { IfSome (head_again self.old.head self.old.over) (λ a. (result ≡ a) × (self.new ≡ self.old) × (source.new ≡ source.old)) }
        ensures text { self.old ≡ fresh → IfOk result (λ h. Consumes (I.left source.old) (I.left source.new) (head_text magic.now h)) }
        ensures fits { self.old ≡ fresh → IfOk result (λ h. IsHeading h) }
        ensures fault { self.old ≡ fresh → IfSome (I.left source.old) (λ octets. Tells result (head_fault magic.now (take 12 octets))) }
        ensures state { self.old ≡ fresh → self.new ≡ headed result }
        ensures part { OnErr result (ConsumesFewer 13 (I.left source.old) (I.left source.new)) }
        ensures later { I.faults source.old ≤ I.faults source.new }
        ensures failed { IsErrOf result RecordEnd.ReadFailed → Rose (I.faults source.old) (I.faults source.new) ⊎ (self.old.over ≡ Some (Ending.Refused RecordEnd.ReadFailed)) }
    {
        if let Some(head) = self.head {
            return Ok(head);
        }
        if let Some(Ending::Refused(end)) = self.over {
            return Err(end);
        }
        match read_head(magic, source) {
            Ok(head) => {
                self.head = Some(head);
                self.at = 12;
                self.count = 0;
                Ok(head)
            }
            Err(end) => {
                self.over = Some(Ending::Refused(end));
                Err(end)
            }
        }
    }

    /// Goes on after an event of this many octets.
    pub fn pass(&mut self, size: u64)
        requires size { size ≤ 4096 }
        requires more { self.old.count < event_limit }
        ensures { self.new ≡ record self.old { at = self.old.at + size; count = self.old.count + 1 } }
    {
        self.at += size;
        self.count += 1;
    }

    /// Is over from now on.
    pub fn end(&mut self, ending: Ending)
        ensures { self.new ≡ record self.old { over = Some ending } }
    {
        self.over = Some(ending);
    }
}

/// What a reader that is over answers.
pub fn answer_again<T>(over: Ending) -> Result<Option<T>, RecordEnd>
    ensures { result ≡ again over }
{
    match over {
        Ending::Mark => Ok(None),
        Ending::Refused(end) => Err(end),
    }
}
