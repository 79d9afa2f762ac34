// The fields of the events of a filer's journal, judged from the left.
ghost use Rattle.std.specs.Prelude.{◌≡◌, ◌≢◌, ◌≤◌, ◌<◌, ◌+◌, ◌^◌, ◌∷◌, ◌++◌, length, take, drop, Option, true, false, None, Some, IfOk, MatchResult};
ghost use Rattle.byteorder.specs.Endian.{big_bytes, big_number};
ghost use Rattle.frame_codec.specs.Octets.{IsFrame};
ghost use Rattle.recorder.specs.Filing.{RefusedFits, ahead_fault, ahead_passes, filed_fault, has_detail, is_code, pair_fault, refused_fault};
ghost use Rattle.recorder.specs.declared.fault.RecordFault.{RecordFault};

use crate::events::Asked2;
use crate::fault::RecordFault;
use crate::fields::{NUMBERS, cut_behind, frame_at};
use byteorder::{BigEndian, ByteOrder};
use frame_codec::Frame33;

// The numbers that a Late tells are below this one.
const AHEADS: u64 = 1 << 48;

/// The two numbers of these fields, or where the file is cut off.
pub fn pair_of(from: u64, fields: &[u8]) -> Result<Asked2, RecordFault>
    requires few { length fields.now ≤ 8 }
    requires place { from + 8 < 2 ^ 64 }
    ensures text { IfOk result (λ a. big_bytes 4 a.said ++ big_bytes 4 a.held ≡ fields.now) }
    ensures fault { MatchResult result (λ a. pair_fault from fields.now ≡ None) (λ f. pair_fault from fields.now ≡ Some f) }
{
    if fields.len() < 8 {
        return Err(cut_behind(from, fields));
    }
    Ok(Asked2 {
        said: BigEndian::read_u32(&fields[..4]),
        held: BigEndian::read_u32(&fields[4..8]),
    })
}

/// The number and the frame that these fields begin with, or their first fault.
pub fn filed_of(from: u64, fields: &[u8]) -> Result<(u64, Frame33), RecordFault>
    requires few { length fields.now ≤ 49 }
    requires place { from + 49 < 2 ^ 64 }
    ensures text { IfOk result (λ p. big_bytes 8 p.0 ++ p.1 ≡ take 41 fields.now) }
    ensures value { IfOk result (λ p. p.0 ≡ big_number 8 fields.now) }
    ensures fits { IfOk result (λ p. (p.0 < 2 ^ 47) × IsFrame p.1 × (41 ≤ length fields.now)) }
    ensures fault { (rest : Option RecordFault) → MatchResult result (λ p. filed_fault from fields.now rest ≡ rest) (λ f. filed_fault from fields.now rest ≡ Some f) }
{
    if fields.len() < 8 {
        return Err(cut_behind(from, fields));
    }
    let number = BigEndian::read_u64(&fields[..8]);
    if number >= NUMBERS {
        return Err(RecordFault::Field { at: from });
    }
    if fields.len() < 41 {
        return Err(cut_behind(from, fields));
    }
    match frame_at(&fields[8..41], from + 8) {
        Ok(frame) => Ok((number, frame)),
        Err(fault) => Err(fault),
    }
}

/// The number that a Late or a Beyond of this number has after the frame, or its fault.
pub fn ahead_of(late: bool, number: u64, from: u64, fields: &[u8]) -> Result<u64, RecordFault>
    requires few { length fields.now ≤ 49 }
    requires place { from + 49 < 2 ^ 64 }
    requires number { number ≡ big_number 8 fields.now }
    ensures text { IfOk result (λ ahead. (big_bytes 8 ahead ≡ drop 41 fields.now) × (length fields.now ≡ 49)) }
    ensures passes { IfOk result (λ ahead. ahead_passes late number ahead ≡ true) }
    ensures fault { MatchResult result (λ ahead. ahead_fault late from fields.now ≡ None) (λ f. ahead_fault late from fields.now ≡ Some f) }
{
    if fields.len() < 49 {
        return Err(cut_behind(from, fields));
    }
    let ahead = BigEndian::read_u64(&fields[41..49]);
    let passes = if late {
        number < ahead && ahead < AHEADS
    } else {
        ahead < number
    };
    if passes {
        Ok(ahead)
    } else {
        Err(RecordFault::Field { at: from + 41 })
    }
}

fn is_code(code: u8) -> bool
    ensures { result ≡ is_code code }
{
    (code >= 1 && code <= 10) || (code >= 17 && code <= 22)
}

fn has_detail(code: u8) -> bool
    ensures { result ≡ has_detail code }
{
    code == 7 || code == 10 || code == 18 || code == 19 || code == 21 || code == 22
}

/// The code and the detail of a refusal, or their first fault.
pub fn refused_of(from: u64, fields: &[u8]) -> Result<(u8, u16), RecordFault>
    requires few { length fields.now ≤ 3 }
    requires place { from + 3 < 2 ^ 64 }
    ensures text { IfOk result (λ p. p.0 ∷ big_bytes 2 p.1 ≡ fields.now) }
    ensures fits { IfOk result (λ p. RefusedFits p.0 p.1) }
    ensures fault { MatchResult result (λ p. refused_fault from fields.now ≡ None) (λ f. refused_fault from fields.now ≡ Some f) }
{
    if fields.is_empty() {
        return Err(cut_behind(from, fields));
    }
    let code = fields[0];
    if !is_code(code) {
        return Err(RecordFault::Field { at: from });
    }
    if fields.len() < 3 {
        return Err(cut_behind(from, fields));
    }
    let detail = BigEndian::read_u16(&fields[1..]);
    if !has_detail(code) && detail != 0 {
        return Err(RecordFault::Field { at: from + 1 });
    }
    Ok((code, detail))
}
