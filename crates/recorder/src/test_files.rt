// Files for the tests: octets written as text, and how the reading of them ends.
ghost use Rattle.std.specs.Prelude.{◌≤◌, IsSome};

use crate::*;
use frame_codec::{BadSignature, Frame33, frame_of};
use gate_base::OutOfMemory;
use gate_io::MemorySource;
use std::alloc::{AllocError, Global};

/// One filer, 2^6 slots and delay 3: a File at 12, a Tick at 55 and a File at 56.
pub const SCRIPT: &str =
    "script 01060003 02 00 0000000100000040 frame 01 02 00 00007FFFFFFFFFFF frame FF";

/// A Datagram of two octets at moment 7, at 12, and a Beat at 22.
pub const EXCHANGE: &str = "script 01060003 03 00 00000007 0002 ABCD 04 FF";

/// An Idle at 12, a Base at 13, an Erasure at 18 and a Frame at 19.
pub const PLAYED: &str = "player 01060003 10 11 000003E8 12 13 frame FF";

/// A player that may hold: a Base at 12, a Found at 17, a Frame at 18, a Held at 52, a LookFilled of the next number at 53
/// and a Frame at 56.
pub const ELASTIC: &str = "player 01060003 11 000003E8 15 13 frame 14 17 0000 13 frame FF";

/// The same where a number was lost: a LookFree of the next number at 53, a LookFilled of the number after it at 56, a
/// RetiredErasure at 59, a Frame at 60, and a RetiredFrame at 94.
pub const RETIRED: &str =
    "player 01060003 11 000003E8 15 13 frame 14 16 0000 17 0001 18 13 frame 19 frame FF";

/// Two filers, of filer 1: an event of each kind at 13, 22, 31, 73, 115, 165, 215, 219, 220 and 229.
pub const FILED: &str = "filer 02060003 01 20 000003E8 00000102 21 000003E8 00000102
22 0000000100000003 frame 23 0000000100000003 frame
24 0000000100000003 frame 0000000100000004 25 0000000100000003 frame 0000000100000002
26 07 000D 27 28 00000001 00000002 29 FF";

// The frame of the files.
const FRAME: [u8; 33] = [
    0xDE, 0x55, 0x55, 0x55, 0x55, 0x55, 0x55, 0x55, 0x55, 0x55, 0x55, 0x55, 0x55, 0x55, 0x55, 0x55,
    0x55, 0x55, 0x55, 0x55, 0x55, 0x55, 0x55, 0x55, 0x55, 0x55, 0x55, 0x55, 0x55, 0x55, 0x55, 0x55,
    0x55,
];

pub fn frame() -> Result<Frame33, BadSignature> {
    frame_of(&FRAME)
}

// The value of a hexadecimal digit, in capitals.
fn digit_value(digit: u8) -> u8 {
    if digit <= b'9' {
        digit.wrapping_sub(b'0')
    } else {
        digit.wrapping_sub(b'A' - 10)
    }
}

fn put_digits(octets: &mut Vec<u8>, digits: &[u8]) -> Result<(), AllocError> {
    for i in 0..digits.len() / 2 {
        let high = digit_value(digits[2 * i]);
        let low = digit_value(digits[2 * i + 1]);
        octets.extend_from_slice(&[high.wrapping_mul(16).wrapping_add(low)])?;
    }
    Ok(())
}

fn put_word(octets: &mut Vec<u8>, word: &str) -> Result<(), AllocError> {
    match word {
        "script" => octets.extend_from_slice(b"GSMGSC01"),
        "player" => octets.extend_from_slice(b"GSMGPJ01"),
        "filer" => octets.extend_from_slice(b"GSMGFJ01"),
        "frame" => octets.extend_from_slice(&FRAME),
        digits => put_digits(octets, digits.as_bytes()),
    }
}

/// The octets that words write: hexadecimal digits, the magic of a file, or a frame.
pub fn octets_of(alloc: Global, text: &str) -> Result<Vec<u8>, OutOfMemory> {
    let mut octets = Vec::new(alloc);
    for word in text.split_whitespace() {
        put_word(&mut octets, word)?;
    }
    Ok(octets)
}

/// A head, this many events of this kind, which has no fields, and the end mark.
pub fn long_of(alloc: Global, head: &str, kind: u8, events: usize) -> Result<Vec<u8>, OutOfMemory> {
    let mut octets = octets_of(alloc, head)?;
    for _ in 0..events {
        octets.extend_from_slice(&[kind])?;
    }
    octets.extend_from_slice(&[0xFF])?;
    Ok(octets)
}

/// A reader of a script that has read the head.
#[derive(Drop)]
pub struct Opened {
    reader: ScriptReader,
    ghost headed: { IsSome reader.head },
}

impl Opened {
    pub fn of(source: &mut MemorySource) -> Result<Opened, RecordEnd> {
        let mut reader = ScriptReader::new();
        match reader.head(source) {
            Ok(_) => Ok(Opened { reader }),
            Err(end) => Err(end),
        }
    }

    pub fn next(&mut self, source: &mut MemorySource) -> Result<Option<ScriptEvent>, RecordEnd> {
        self.reader.next(source)
    }

    // How many events there are.
    fn count(&mut self, source: &mut MemorySource) -> Result<usize, RecordEnd> {
        for n in 0..1000 {
            if self.next(source)?.is_none() {
                return Ok(n);
            }
        }
        Ok(1000)
    }
}

/// A reader of a player's journal that has read the head.
#[derive(Drop)]
pub struct Begun {
    reader: PlayReader,
    ghost headed: { IsSome reader.reading.head },
}

impl Begun {
    pub fn of(source: &mut MemorySource) -> Result<Begun, RecordEnd> {
        let mut reader = PlayReader::new();
        match reader.head(source) {
            Ok(_) => Ok(Begun { reader }),
            Err(end) => Err(end),
        }
    }

    pub fn next(&mut self, source: &mut MemorySource) -> Result<Option<PlayEvent>, RecordEnd> {
        self.reader.next(source)
    }

    // How many events there are.
    fn count(&mut self, source: &mut MemorySource) -> Result<usize, RecordEnd> {
        for n in 0..1000 {
            if self.next(source)?.is_none() {
                return Ok(n);
            }
        }
        Ok(1000)
    }
}

/// Files, by what reads them.
#[derive(Clone, Copy)]
pub enum Kept {
    Script,
    Beats,
    Player,
    Filer,
}

fn script_end(source: &mut MemorySource) -> Result<usize, RecordEnd> {
    match Opened::of(source) {
        Ok(mut opened) => opened.count(source),
        Err(end) => Err(end),
    }
}

fn beats_end(source: &mut MemorySource) -> Result<usize, RecordEnd> {
    match Begun::of(source) {
        Ok(mut begun) => begun.count(source),
        Err(end) => Err(end),
    }
}

fn player_end(
    alloc: Global,
    source: &mut MemorySource,
) -> Result<Result<usize, RecordEnd>, OutOfMemory> {
    match PlayerJournal::read(alloc, source) {
        Ok(journal) => Ok(Ok(journal.len())),
        Err(JournalRefusal::End(end)) => Ok(Err(end)),
        Err(JournalRefusal::OutOfMemory) => Err(OutOfMemory),
    }
}

fn filer_end(
    alloc: Global,
    source: &mut MemorySource,
) -> Result<Result<usize, RecordEnd>, OutOfMemory> {
    match FilerJournal::read(alloc, source) {
        Ok(journal) => Ok(Ok(journal.len())),
        Err(JournalRefusal::End(end)) => Ok(Err(end)),
        Err(JournalRefusal::OutOfMemory) => Err(OutOfMemory),
    }
}

/// How the reading of such a file ends: with this many events at the end mark, or by a fault. It comes in pieces of this
/// size, and the take of this number fails.
pub fn end_of_file(
    alloc: Global,
    kept: Kept,
    octets: &[u8],
    piece: usize,
    fails: &[u64],
) -> Result<Result<usize, RecordEnd>, OutOfMemory>
    requires { 1 ≤ piece }
{
    let mut source = MemorySource::new(alloc, octets, piece, fails)?;
    match kept {
        Kept::Script => Ok(script_end(&mut source)),
        Kept::Beats => Ok(beats_end(&mut source)),
        Kept::Player => player_end(alloc, &mut source),
        Kept::Filer => filer_end(alloc, &mut source),
    }
}

/// Whether each prefix of the file is cut off where it ends.
pub fn cuts_are_told(alloc: Global, kept: Kept, octets: &[u8]) -> Result<bool, OutOfMemory> {
    for n in 0..octets.len() {
        let cut = RecordEnd::Fault(RecordFault::Cut { at: n as u64 });
        if end_of_file(alloc, kept, &octets[..n], 7, &[])? != Err(cut) {
            return Ok(false);
        }
    }
    Ok(true)
}

/// Whether the file has this fault where the octet at this place is another.
pub fn has_fault(
    alloc: Global,
    kept: Kept,
    text: &str,
    at: usize,
    octet: u8,
    fault: RecordFault,
) -> Result<bool, OutOfMemory> {
    let mut octets = octets_of(alloc, text)?;
    if at < octets.len() {
        octets[at] = octet;
    }
    Ok(end_of_file(alloc, kept, &octets, 3, &[])? == Err(RecordEnd::Fault(fault)))
}
