// The events of a script from a source, a whole group of fields at once.
ghost use Rattle.std.specs.Prelude.{◌≡◌, ◌≤◌, ◌<◌, ◌+◌, ◌^◌, ◌∷◌, List, ℕ, length, take, IfOk, IfSome, IsErrOf, OnErr};
ghost use Rattle.std.specs.Io.KnownBytes.{Consumes};
ghost use Rattle.gate_base.specs.Faults.{Rose};
ghost use Rattle.gate_io.specs.Flow.{ConsumesFewer};
ghost use Rattle.recorder.specs.Files.{event_limit};
ghost use Rattle.recorder.specs.Reader.{Tells};
ghost use Rattle.recorder.specs.Script.{EventFits, answer_text, event_text, fault_at, file_fault, longest_event, octets_fault, whole_datagram_fault};

use crate::events::ScriptEvent;
use crate::fault::{RecordEnd, RecordFault};
use crate::fields::{datagram_head, file_event};
use crate::heading::Head;
use crate::packet::Packet;
use crate::read::read_kind;
use gate_io::{Failed, Source, fill};

// Reads the fields of a File, of which the first stands at octet `from`.
fn read_file<I: Source>(head: &Head, from: u64, source: &mut I) -> Result<ScriptEvent, RecordEnd>
    requires { from + 42 < 2 ^ 64 }
    ensures text { IfOk result (λ e. (fields : List ℕ) × (event_text e ≡ 2 ∷ fields) × Consumes (I.left source.old) (I.left source.new) fields) }
    ensures fits { IfOk result (λ e. EventFits head.now e) }
    ensures fault { IfSome (I.left source.old) (λ octets. Tells result (file_fault head.now from (take 42 octets))) }
    ensures part { OnErr result (ConsumesFewer 43 (I.left source.old) (I.left source.new)) }
    ensures later { I.faults source.old ≤ I.faults source.new }
    ensures failed { IsErrOf result RecordEnd.ReadFailed → Rose (I.faults source.old) (I.faults source.new) }
{
    let mut octets = [0; 42];
    match fill(source, &mut octets) {
        Err(Failed) => Err(RecordEnd::ReadFailed),
        Ok(count) => match file_event(head, from, &octets[..count]) {
            Ok(event) => Ok(event),
            Err(fault) => Err(RecordEnd::Fault(fault)),
        },
    }
}

// Reads so many octets of a Datagram, of which the first stands at octet `from`.
fn read_octets<I: Source>(from: u64, count: u16, source: &mut I) -> Result<Packet, RecordEnd>
    requires few { count ≤ 2048 }
    requires place { from + 2048 < 2 ^ 64 }
    ensures text { IfOk result (λ p. Consumes (I.left source.old) (I.left source.new) p × (length p ≡ count)) }
    ensures fault { IfSome (I.left source.old) (λ octets. Tells result (octets_fault from count octets)) }
    ensures part { OnErr result (ConsumesFewer 2049 (I.left source.old) (I.left source.new)) }
    ensures later { I.faults source.old ≤ I.faults source.new }
    ensures failed { IsErrOf result RecordEnd.ReadFailed → Rose (I.faults source.old) (I.faults source.new) }
{
    let mut octets = [0; 2048];
    let piece = &mut octets[..count as usize];
    match fill(source, piece) {
        Err(Failed) => Err(RecordEnd::ReadFailed),
        Ok(there) => {
            if there < count as usize {
                return Err(RecordEnd::Fault(RecordFault::Cut {
                    at: from + there as u64,
                }));
            }
            Ok(Packet::of(piece))
        }
    }
}

// Reads the fields and the octets of a Datagram, of which the first stands at octet `from`.
fn read_datagram<I: Source>(
    head: &Head,
    from: u64,
    source: &mut I,
) -> Result<ScriptEvent, RecordEnd>
    requires { from + 2055 < 2 ^ 64 }
    ensures text { IfOk result (λ e. (fields : List ℕ) × (event_text e ≡ 3 ∷ fields) × Consumes (I.left source.old) (I.left source.new) fields) }
    ensures fits { IfOk result (λ e. EventFits head.now e) }
    ensures fault { IfSome (I.left source.old) (λ octets. Tells result (whole_datagram_fault head.now from octets)) }
    ensures part { OnErr result (ConsumesFewer 2056 (I.left source.old) (I.left source.new)) }
    ensures later { I.faults source.old ≤ I.faults source.new }
    ensures failed { IsErrOf result RecordEnd.ReadFailed → Rose (I.faults source.old) (I.faults source.new) }
{
    let mut fixed = [0; 7];
    let fields = match fill(source, &mut fixed) {
        Err(Failed) => return Err(RecordEnd::ReadFailed),
        Ok(count) => match datagram_head(head, from, &fixed[..count]) {
            Ok(fields) => fields,
            Err(fault) => return Err(RecordEnd::Fault(fault)),
        },
    };
    match read_octets(from + 7, fields.length, source) {
        Ok(octets) => Ok(ScriptEvent::Datagram {
            caller: fields.caller,
            at: fields.at,
            octets,
        }),
        Err(end) => Err(end),
    }
}

/// Reads an event, or the end mark. `count` events were read, and it begins at octet `at`.
pub fn read_event<I: Source>(
    head: &Head,
    count: u32,
    at: u64,
    source: &mut I,
) -> Result<Option<ScriptEvent>, RecordEnd>
    requires { at + 4096 < 2 ^ 64 }
    ensures text { IfOk result (λ o. Consumes (I.left source.old) (I.left source.new) (answer_text o)) }
    ensures fits { IfOk result (λ o. IfSome o (λ e. EventFits head.now e × (count < event_limit))) }
    ensures fault { IfSome (I.left source.old) (λ octets. Tells result (fault_at head.now count at octets)) }
    ensures part { OnErr result (ConsumesFewer (longest_event + 1) (I.left source.old) (I.left source.new)) }
    ensures later { I.faults source.old ≤ I.faults source.new }
    ensures failed { IsErrOf result RecordEnd.ReadFailed → Rose (I.faults source.old) (I.faults source.new) }
{
    let kind = match read_kind(count, at, source) {
        Ok(Some(kind)) => kind,
        Ok(None) => return Ok(None),
        Err(end) => return Err(end),
    };
    match kind {
        1 => Ok(Some(ScriptEvent::Tick)),
        2 => match read_file(head, at + 1, source) {
            Ok(event) => Ok(Some(event)),
            Err(end) => Err(end),
        },
        3 => match read_datagram(head, at + 1, source) {
            Ok(event) => Ok(Some(event)),
            Err(end) => Err(end),
        },
        4 => Ok(Some(ScriptEvent::Beat)),
        _ => Err(RecordEnd::Fault(RecordFault::Kind { at })),
    }
}
