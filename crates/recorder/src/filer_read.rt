// The events of a filer's journal from a source.
ghost use Rattle.std.specs.Prelude.{◌≡◌, ◌≢◌, ◌≤◌, ◌<◌, ◌+◌, ◌^◌, ◌∷◌, length, drop, None, Some, IfOk, IfSome, IsErrOf, MatchResult, OnErr};
ghost use Rattle.std.specs.Io.KnownBytes.{Consumes};
ghost use Rattle.gate_base.specs.Faults.{Rose};
ghost use Rattle.gate_io.specs.Flow.{ConsumesFewer};
ghost use Rattle.recorder.specs.Files.{event_limit};
ghost use Rattle.recorder.specs.Filing.{FilerFits, ReplyTells, filed_fault, filer_answer_text, filer_event_text, filer_fault_at, filer_field_fault, filer_width, longest_filed, reply_fault, reply_kind, reply_text};
ghost use Rattle.byteorder.specs.Endian.{big_number};
ghost use Rattle.recorder.specs.Reader.{Tells};

use crate::events::FilerEvent;
use crate::fault::{RecordEnd, RecordFault};
use crate::filer_fields::{ahead_of, filed_of, pair_of, refused_of};
use crate::read::read_kind;
use gate_io::{Failed, Source, fill};
use playout::FileReply;

// How many octets follow a kind, where it is one of the file's.
fn width_of(kind: u8) -> Option<usize>
    ensures width { result ≡ filer_width kind }
    ensures few { IfSome result (λ width. width ≤ 49) }
{
    match kind {
        0x20 | 0x21 | 0x28 => Some(8),
        0x22 | 0x23 => Some(41),
        0x24 | 0x25 => Some(49),
        0x26 => Some(3),
        0x27 | 0x29 => Some(0),
        _ => None,
    }
}

// The reply of a File of this kind, or the fault of the number that it tells.
fn reply_of(kind: u8, number: u64, from: u64, fields: &[u8]) -> Result<FileReply, RecordFault>
    requires kind { (34 ≤ kind) × (kind ≤ 37) }
    requires width { kind < 36 → length fields.now ≤ 41 }
    requires few { length fields.now ≤ 49 }
    requires long { 41 ≤ length fields.now }
    requires place { from + 49 < 2 ^ 64 }
    requires number { number ≡ big_number 8 fields.now }
    requires small { number < 2 ^ 47 }
    ensures kind { IfOk result (λ r. reply_kind r ≡ kind) }
    ensures text { IfOk result (λ r. reply_text r ≡ drop 41 fields.now) }
    ensures tells { IfOk result (λ r. ReplyTells number r) }
    ensures fault { MatchResult result (λ r. reply_fault kind from fields.now ≡ None) (λ f. reply_fault kind from fields.now ≡ Some f) }
{
    match kind {
        0x22 => Ok(FileReply::Accepted),
        0x23 => Ok(FileReply::Duplicate),
        0x24 => match ahead_of(true, number, from, fields) {
            Ok(ahead) => Ok(FileReply::Late { ahead }),
            Err(fault) => Err(fault),
        },
        _ => match ahead_of(false, number, from, fields) {
            Ok(ahead) => Ok(FileReply::Beyond { ahead }),
            Err(fault) => Err(fault),
        },
    }
}

// The File of this kind that has these fields, or their first fault.
fn file_of(kind: u8, from: u64, fields: &[u8]) -> Result<FilerEvent, RecordFault>
    requires kind { (34 ≤ kind) × (kind ≤ 37) }
    requires width { kind < 36 → length fields.now ≤ 41 }
    requires few { length fields.now ≤ 49 }
    requires place { from + 49 < 2 ^ 64 }
    ensures text { IfOk result (λ e. filer_event_text e ≡ kind ∷ fields.now) }
    ensures fits { IfOk result (λ e. FilerFits e) }
    ensures fault { MatchResult result (λ e. filed_fault from fields.now (reply_fault kind from fields.now) ≡ None) (λ f. filed_fault from fields.now (reply_fault kind from fields.now) ≡ Some f) }
{
    let (number, frame) = match filed_of(from, fields) {
        Ok(filed) => filed,
        Err(fault) => return Err(fault),
    };
    match reply_of(kind, number, from, fields) {
        Ok(reply) => Ok(FilerEvent::File {
            number,
            frame,
            reply,
        }),
        Err(fault) => Err(fault),
    }
}

// The event of a kind that has these fields, or their first fault. They stand from octet `from` of the file on.
fn filer_event(kind: u8, from: u64, fields: &[u8]) -> Result<FilerEvent, RecordFault>
    requires width { IfSome (filer_width kind) (λ width. length fields.now ≤ width) }
    requires known { filer_width kind ≢ None }
    requires place { from + 49 < 2 ^ 64 }
    ensures text { IfOk result (λ e. filer_event_text e ≡ kind ∷ fields.now) }
    ensures fits { IfOk result (λ e. FilerFits e) }
    ensures fault { MatchResult result (λ e. filer_field_fault kind from fields.now ≡ None) (λ f. filer_field_fault kind from fields.now ≡ Some f) }
{
    match kind {
        0x20 => match pair_of(from, fields) {
            Ok(asked) => Ok(FilerEvent::Source(asked)),
            Err(fault) => Err(fault),
        },
        0x21 => match pair_of(from, fields) {
            Ok(asked) => Ok(FilerEvent::Base(asked)),
            Err(fault) => Err(fault),
        },
        0x28 => match pair_of(from, fields) {
            Ok(pair) => Ok(FilerEvent::Stranger {
                ssrc: pair.said,
                held: pair.held,
            }),
            Err(fault) => Err(fault),
        },
        0x26 => match refused_of(from, fields) {
            Ok((code, detail)) => Ok(FilerEvent::Refused { code, detail }),
            Err(fault) => Err(fault),
        },
        0x27 => Ok(FilerEvent::Rtcp),
        0x29 => Ok(FilerEvent::Empty),
        _ => file_of(kind, from, fields),
    }
}

/// Reads an event, or the end mark. `count` events were read, and it begins at octet `at`.
pub fn read_filer_event<I: Source>(
    count: u32,
    at: u64,
    source: &mut I,
) -> Result<Option<FilerEvent>, RecordEnd>
    requires { at + 4096 < 2 ^ 64 }
    ensures text { IfOk result (λ o. Consumes (I.left source.old) (I.left source.new) (filer_answer_text o)) }
    ensures fits { IfOk result (λ o. IfSome o (λ e. FilerFits e × (count < event_limit))) }
    ensures fault { IfSome (I.left source.old) (λ octets. Tells result (filer_fault_at count at octets)) }
    ensures part { OnErr result (ConsumesFewer (longest_filed + 1) (I.left source.old) (I.left source.new)) }
    ensures later { I.faults source.old ≤ I.faults source.new }
    ensures failed { IsErrOf result RecordEnd.ReadFailed → Rose (I.faults source.old) (I.faults source.new) }
{
    let kind = match read_kind(count, at, source) {
        Ok(Some(kind)) => kind,
        Ok(None) => return Ok(None),
        Err(end) => return Err(end),
    };
    let width = match width_of(kind) {
        Some(width) => width,
        None => return Err(RecordEnd::Fault(RecordFault::Kind { at })),
    };
    let mut octets = [0; 49];
    let fields = &mut octets[..width];
    match fill(source, fields) {
        Err(Failed) => Err(RecordEnd::ReadFailed),
        Ok(there) => match filer_event(kind, at + 1, &fields[..there]) {
            Ok(event) => Ok(Some(event)),
            Err(fault) => Err(RecordEnd::Fault(fault)),
        },
    }
}
