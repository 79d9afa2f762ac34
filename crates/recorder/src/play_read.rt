// The events of the player's journal from a source.
ghost use Rattle.std.specs.Prelude.{◌≡◌, ◌≢◌, ◌≤◌, ◌<◌, ◌+◌, ◌^◌, ◌∷◌, length, None, Some, IfOk, IfSome, IsErrOf, MatchResult, OnErr};
ghost use Rattle.std.specs.Io.KnownBytes.{Consumes};
ghost use Rattle.byteorder.specs.Endian.{big_bytes};
ghost use Rattle.frame_codec.specs.Octets.{IsFrame};
ghost use Rattle.gate_base.specs.Faults.{Rose};
ghost use Rattle.gate_io.specs.Flow.{ConsumesFewer};
ghost use Rattle.recorder.specs.Fields.{judged};
ghost use Rattle.recorder.specs.Files.{event_limit, is_signed};
ghost use Rattle.recorder.specs.Play.{PlayFits, is_ahead, longest_play, play_answer_text, play_event_text, play_fault_at, play_field_fault, play_width};
ghost use Rattle.recorder.specs.Reader.{Tells};

use crate::events::PlayEvent;
use crate::fault::{RecordEnd, RecordFault};
use crate::fields::{cut_behind, frame_at};
use crate::heading::Head;
use crate::read::read_kind;
use byteorder::{BigEndian, ByteOrder};
use frame_codec::Frame33;
use gate_io::{Failed, Source, fill};

// How many octets follow a kind, where it is one of the file's and in order.
fn width_of(opening: bool, kind: u8) -> Option<usize>
    ensures width { result ≡ play_width opening kind }
    ensures few { IfSome result (λ width. width ≤ 33) }
{
    match kind {
        0x12 | 0x14 | 0x15 | 0x18 => Some(0),
        0x13 | 0x19 => Some(33),
        0x16 | 0x17 => Some(2),
        0x10 if opening => Some(0),
        0x11 if opening => Some(4),
        _ => None,
    }
}

// The frame of this field, or the field's fault.
fn framed(from: u64, fields: &[u8]) -> Result<Frame33, RecordFault>
    requires few { length fields.now ≤ 33 }
    requires place { from + 33 < 2 ^ 64 }
    ensures text { IfOk result (λ f. f ≡ fields.now) }
    ensures fits { IfOk result (λ f. IsFrame f) }
    ensures fault { MatchResult result (λ f. judged fields.now from 0 33 is_signed None ≡ None) (λ e. judged fields.now from 0 33 is_signed None ≡ Some e) }
{
    if fields.len() < 33 {
        return Err(cut_behind(from, fields));
    }
    frame_at(fields, from)
}

// How many numbers ahead this field tells, fewer than the line has slots, or the field's fault.
fn look_of(head: &Head, from: u64, fields: &[u8]) -> Result<u32, RecordFault>
    requires few { length fields.now ≤ 2 }
    requires place { from + 33 < 2 ^ 64 }
    ensures text { IfOk result (λ a. big_bytes 2 a ≡ fields.now) }
    ensures fits { IfOk result (λ a. a < 2 ^ head.now.g) }
    ensures fault { MatchResult result (λ a. judged fields.now from 0 2 (is_ahead head.now.g) None ≡ None) (λ e. judged fields.now from 0 2 (is_ahead head.now.g) None ≡ Some e) }
{
    if fields.len() < 2 {
        return Err(cut_behind(from, fields));
    }
    let ahead = BigEndian::read_u16(fields);
    if ahead >= 1 << head.g {
        return Err(RecordFault::Field { at: from });
    }
    Ok(ahead as u32)
}

// The event of a kind that has this field, or the field's fault. It stands at octet `from` of the file.
fn play_event(
    head: &Head,
    opening: bool,
    kind: u8,
    from: u64,
    fields: &[u8],
) -> Result<PlayEvent, RecordFault>
    requires width { IfSome (play_width opening kind) (λ width. length fields.now ≤ width) }
    requires known { play_width opening kind ≢ None }
    requires place { from + 33 < 2 ^ 64 }
    ensures text { IfOk result (λ e. play_event_text e ≡ kind ∷ fields.now) }
    ensures fits { IfOk result (λ e. PlayFits head.now.g opening e) }
    ensures fault { MatchResult result (λ e. play_field_fault head.now.g kind from fields.now ≡ None) (λ f. play_field_fault head.now.g kind from fields.now ≡ Some f) }
{
    match kind {
        0x10 => Ok(PlayEvent::Idle),
        0x12 => Ok(PlayEvent::Erasure),
        0x14 => Ok(PlayEvent::Held),
        0x15 => Ok(PlayEvent::Found),
        0x18 => Ok(PlayEvent::RetiredErasure),
        0x11 => {
            if fields.len() < 4 {
                return Err(cut_behind(from, fields));
            }
            Ok(PlayEvent::Base {
                base: BigEndian::read_u32(fields),
            })
        }
        0x16 => match look_of(head, from, fields) {
            Ok(ahead) => Ok(PlayEvent::LookFree { ahead }),
            Err(fault) => Err(fault),
        },
        0x17 => match look_of(head, from, fields) {
            Ok(ahead) => Ok(PlayEvent::LookFilled { ahead }),
            Err(fault) => Err(fault),
        },
        0x13 => match framed(from, fields) {
            Ok(frame) => Ok(PlayEvent::Frame(frame)),
            Err(fault) => Err(fault),
        },
        _ => match framed(from, fields) {
            Ok(frame) => Ok(PlayEvent::RetiredFrame(frame)),
            Err(fault) => Err(fault),
        },
    }
}

/// Reads an event, or the end mark. `count` events were read, and it begins at octet `at`; Idle and Base may come
/// where `opening` says so.
pub fn read_play_event<I: Source>(
    head: &Head,
    opening: bool,
    count: u32,
    at: u64,
    source: &mut I,
) -> Result<Option<PlayEvent>, RecordEnd>
    requires { at + 4096 < 2 ^ 64 }
    ensures text { IfOk result (λ o. Consumes (I.left source.old) (I.left source.new) (play_answer_text o)) }
    ensures fits { IfOk result (λ o. IfSome o (λ e. PlayFits head.now.g opening e × (count < event_limit))) }
    ensures fault { IfSome (I.left source.old) (λ octets. Tells result (play_fault_at head.now.g opening count at octets)) }
    ensures part { OnErr result (ConsumesFewer (longest_play + 1) (I.left source.old) (I.left source.new)) }
    ensures later { I.faults source.old ≤ I.faults source.new }
    ensures failed { IsErrOf result RecordEnd.ReadFailed → Rose (I.faults source.old) (I.faults source.new) }
{
    let kind = match read_kind(count, at, source) {
        Ok(Some(kind)) => kind,
        Ok(None) => return Ok(None),
        Err(end) => return Err(end),
    };
    let width = match width_of(opening, kind) {
        Some(width) => width,
        None => return Err(RecordEnd::Fault(RecordFault::Kind { at })),
    };
    let mut octets = [0; 33];
    let fields = &mut octets[..width];
    match fill(source, fields) {
        Err(Failed) => Err(RecordEnd::ReadFailed),
        Ok(there) => match play_event(head, opening, kind, at + 1, &fields[..there]) {
            Ok(event) => Ok(Some(event)),
            Err(fault) => Err(RecordEnd::Fault(fault)),
        },
    }
}
