// What each file has: a head, kinds, and the end mark.
ghost use Rattle.std.specs.Prelude.{◌≡◌, ◌≢◌, ◌≤◌, ◌<◌, ◌∷◌, [], List, ℕ, Option, take, Some, None, IfOk, IfSome, IsErrOf, OnErr};
ghost use Rattle.std.specs.Io.KnownBytes.{Consumes};
ghost use Rattle.gate_base.specs.Faults.{Rose};
ghost use Rattle.gate_io.specs.Flow.{ConsumesFewer};
ghost use Rattle.recorder.specs.Files.{answer_by, end_mark, event_limit, fault_by};
ghost use Rattle.recorder.specs.Heads.{IsHeading, head_fault, head_text};
ghost use Rattle.recorder.specs.Reader.{Tells, TellsNoKind};
ghost use Rattle.recorder.specs.declared.fault.RecordFault.{RecordFault};

use crate::fault::{RecordEnd, RecordFault};
use crate::heading::{Head, head_of};
use gate_io::{Failed, Source, fill};

const END_MARK: u8 = 0xFF;

const EVENT_LIMIT: u32 = 16777216;

/// Reads a head with this magic.
pub fn read_head<I: Source>(magic: &[u8; 8], source: &mut I) -> Result<Head, RecordEnd>
    ensures text { IfOk result (λ h. Consumes (I.left source.old) (I.left source.new) (head_text magic.now h)) }
    ensures fits { IfOk result (λ h. IsHeading h) }
    ensures fault { IfSome (I.left source.old) (λ octets. Tells result (head_fault magic.now (take 12 octets))) }
    ensures part { OnErr result (ConsumesFewer 13 (I.left source.old) (I.left source.new)) }
    ensures later { I.faults source.old ≤ I.faults source.new }
    ensures failed { IsErrOf result RecordEnd.ReadFailed → Rose (I.faults source.old) (I.faults source.new) }
{
    let mut octets = [0; 12];
    match fill(source, &mut octets) {
        Err(Failed) => Err(RecordEnd::ReadFailed),
        Ok(count) => match head_of(magic, &octets[..count]) {
            Ok(head) => Ok(head),
            Err(fault) => Err(RecordEnd::Fault(fault)),
        },
    }
}

/// Reads the kind of an event, or the end mark. `count` events were read, and it stands at octet `at`.
pub fn read_kind<I: Source>(count: u32, at: u64, source: &mut I) -> Result<Option<u8>, RecordEnd>
    ensures text { IfOk result (λ o. Consumes (I.left source.old) (I.left source.new) (answer_by (λ kind. kind ∷ []) o)) }
    ensures kind { IfOk result (λ o. IfSome o (λ kind. (kind ≢ end_mark) × (count < event_limit))) }
    ensures fault { (behind : ℕ → ℕ → List ℕ → Option RecordFault) → IfSome (I.left source.old) (λ octets. TellsNoKind result (fault_by behind count at octets)) }
    ensures part { OnErr result (ConsumesFewer 2 (I.left source.old) (I.left source.new)) }
    ensures later { I.faults source.old ≤ I.faults source.new }
    ensures failed { IsErrOf result RecordEnd.ReadFailed → Rose (I.faults source.old) (I.faults source.new) }
{
    let mut octets = [0; 1];
    match fill(source, &mut octets) {
        Err(Failed) => return Err(RecordEnd::ReadFailed),
        Ok(0) => return Err(RecordEnd::Fault(RecordFault::Cut { at })),
        Ok(_) => {}
    }
    if octets[0] == END_MARK {
        return Ok(None);
    }
    if count >= EVENT_LIMIT {
        return Err(RecordEnd::Fault(RecordFault::TooLong));
    }
    Ok(Some(octets[0]))
}
