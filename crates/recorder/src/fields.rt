// The fields of an event, judged from the left.
ghost use Rattle.std.specs.Prelude.{◌≡◌, ◌≤◌, ◌<◌, ◌+◌, ◌^◌, ◌∷◌, ◌++◌, length, None, Some, IfOk, MatchResult, true, false};
ghost use Rattle.byteorder.specs.Endian.{big_bytes};
ghost use Rattle.recorder.specs.Files.{is_signed};
ghost use Rattle.recorder.specs.Script.{event_text, EventFits, announced, datagram_fault, file_fault};

use crate::events::ScriptEvent;
use crate::fault::RecordFault;
use crate::heading::Head;
use byteorder::{BigEndian, ByteOrder};
use frame_codec::{Frame33, frame_of};

// Numbers of frames are below this one.
pub const NUMBERS: u64 = 1 << 47;

// A datagram of a script has no more octets.
const MOST_OCTETS: u16 = 2048;

/// The File that has these fields, or their first fault. The first of them stands at octet `from` of the file.
pub fn file_event(head: &Head, from: u64, fields: &[u8]) -> Result<ScriptEvent, RecordFault>
    requires few { length fields.now ≤ 42 }
    requires place { from + 42 < 2 ^ 64 }
    ensures event { IfOk result (λ e. event_text e ≡ 2 ∷ fields.now) }
    ensures fits { IfOk result (λ e. EventFits head.now e) }
    ensures fault { MatchResult result (λ e. file_fault head.now from fields.now ≡ None) (λ f. file_fault head.now from fields.now ≡ Some f) }
{
    if fields.is_empty() {
        return Err(cut_behind(from, fields));
    }
    let caller = fields[0];
    if caller >= head.filers {
        return Err(RecordFault::Field { at: from });
    }
    if fields.len() < 9 {
        return Err(cut_behind(from, fields));
    }
    let number = BigEndian::read_u64(&fields[1..9]);
    if number >= NUMBERS {
        return Err(RecordFault::Field { at: from + 1 });
    }
    if fields.len() < 42 {
        return Err(cut_behind(from, fields));
    }
    match frame_at(&fields[9..42], from + 9) {
        Ok(frame) => Ok(ScriptEvent::File {
            caller,
            number,
            frame,
        }),
        Err(fault) => Err(fault),
    }
}

/// Where the file is cut off that ends after these fields.
pub fn cut_behind(from: u64, fields: &[u8]) -> RecordFault
    requires { from + length fields.now < 2 ^ 64 }
    ensures { result ≡ RecordFault.Cut (from + length fields.now) }
{
    RecordFault::Cut {
        at: from + fields.len() as u64,
    }
}

/// The fields of a Datagram before its octets.
#[derive(Clone, Copy, Debug, PartialEq, Eq)]
pub struct DatagramHead {
    pub caller: u8,
    pub at: u32,
    pub length: u16,
}

/// The Datagram's head that has these fields, or their first fault. The first of them stands at octet `from` of the file.
pub fn datagram_head(head: &Head, from: u64, fields: &[u8]) -> Result<DatagramHead, RecordFault>
    requires few { length fields.now ≤ 7 }
    requires place { from + 7 < 2 ^ 64 }
    ensures text { IfOk result (λ d. fields.now ≡ d.caller ∷ (big_bytes 4 d.at ++ big_bytes 2 d.length)) }
    ensures fits { IfOk result (λ d. (d.caller < head.now.filers) × (d.at < 2 ^ 32) × (d.length ≤ 2048)) }
    ensures announced { IfOk result (λ d. announced fields.now ≡ d.length) }
    ensures fault { MatchResult result (λ d. datagram_fault head.now from fields.now ≡ None) (λ f. datagram_fault head.now from fields.now ≡ Some f) }
{
    if fields.is_empty() {
        return Err(cut_behind(from, fields));
    }
    let caller = fields[0];
    if caller >= head.filers {
        return Err(RecordFault::Field { at: from });
    }
    if fields.len() < 5 {
        return Err(cut_behind(from, fields));
    }
    let at = BigEndian::read_u32(&fields[1..5]);
    if fields.len() < 7 {
        return Err(cut_behind(from, fields));
    }
    let length = BigEndian::read_u16(&fields[5..7]);
    if length > MOST_OCTETS {
        return Err(RecordFault::Field { at: from + 5 });
    }
    Ok(DatagramHead { caller, at, length })
}

/// The frame of these octets, of which the first stands at octet `at` of the file, or that field's fault.
pub fn frame_at(octets: &[u8], at: u64) -> Result<Frame33, RecordFault>
    requires { length octets.now ≡ 33 }
    ensures frame { MatchResult result (λ f. (f ≡ octets.now) × (is_signed octets.now ≡ true)) (λ f. (f ≡ RecordFault.Field at) × (is_signed octets.now ≡ false)) }
{
    let mut whole = [0; 33];
    whole.copy_from_slice(octets);
    match frame_of(&whole) {
        Ok(frame) => Ok(frame),
        Err(_) => Err(RecordFault::Field { at }),
    }
}
