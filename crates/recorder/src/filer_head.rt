// The head of a filer's journal.
ghost use Rattle.std.specs.Prelude.{◌≡◌, ◌≤◌, length, take, None, Some, IfOk, IfSome, IsErrOf, MatchResult, OnErr};
ghost use Rattle.std.specs.Io.KnownBytes.{Consumes};
ghost use Rattle.gate_base.specs.Faults.{Rose};
ghost use Rattle.gate_io.specs.Flow.{ConsumesFewer};
ghost use Rattle.recorder.specs.Filing.{IsFilerHead, filer_head_fault, filer_head_text};
ghost use Rattle.recorder.specs.Reader.{Tells};

use crate::fault::{RecordEnd, RecordFault};
use crate::heading::{Head, head_of};
use gate_io::{Failed, Source, fill};

const MAGIC: &[u8; 8] = b"GSMGFJ01";

/// The head of a filer's journal: that of all files, and the filer's own number, below the number of filers.
#[derive(Clone, Copy, Debug, PartialEq, Eq)]
pub struct FilerHead {
    pub head: Head,
    pub caller: u8,
}

// The head that has these octets, or its first fault.
fn filer_head_of(octets: &[u8]) -> Result<FilerHead, RecordFault>
    requires { length octets.now ≤ 13 }
    ensures text { IfOk result (λ h. filer_head_text h.head h.caller ≡ octets.now) }
    ensures fits { IfOk result (λ h. IsFilerHead h) }
    ensures fault { MatchResult result (λ h. filer_head_fault octets.now ≡ None) (λ f. filer_head_fault octets.now ≡ Some f) }
{
    let head = match head_of(MAGIC, &octets[..octets.len().min(12)]) {
        Ok(head) => head,
        Err(fault) => return Err(fault),
    };
    if octets.len() < 13 {
        return Err(RecordFault::Cut {
            at: octets.len() as u64,
        });
    }
    let caller = octets[12];
    if caller >= head.filers {
        return Err(RecordFault::Field { at: 12 });
    }
    Ok(FilerHead { head, caller })
}

/// Reads the head of a filer's journal.
pub fn read_filer_head<I: Source>(source: &mut I) -> Result<FilerHead, RecordEnd>
    ensures text { IfOk result (λ h. Consumes (I.left source.old) (I.left source.new) (filer_head_text h.head h.caller)) }
    ensures fits { IfOk result (λ h. IsFilerHead h) }
    ensures fault { IfSome (I.left source.old) (λ octets. Tells result (filer_head_fault (take 13 octets))) }
    ensures part { OnErr result (ConsumesFewer 14 (I.left source.old) (I.left source.new)) }
    ensures later { I.faults source.old ≤ I.faults source.new }
    ensures failed { IsErrOf result RecordEnd.ReadFailed → Rose (I.faults source.old) (I.faults source.new) }
{
    let mut octets = [0; 13];
    match fill(source, &mut octets) {
        Err(Failed) => Err(RecordEnd::ReadFailed),
        Ok(count) => match filer_head_of(&octets[..count]) {
            Ok(head) => Ok(head),
            Err(fault) => Err(RecordEnd::Fault(fault)),
        },
    }
}
