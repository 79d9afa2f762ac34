ghost use Rattle.std.specs.Prelude.{◌≤◌};

use crate::simulate_command::simulate;
use gate_io::{MemorySink, MemorySource};
use gate_notes::Status;
use std::alloc::{AllocError, Global};
use std::test::Fail;

// A frame of 160 coded zeros, and the silence frame, behind their first five octets.
const ZEROS: [u8; 5] = [0xD8, 0x20, 0xA2, 0xE1, 0x5A];

const ZERO_PART: [u8; 7] = [0x50, 0x00, 0x49, 0x24, 0x92, 0x49, 0x24];

const SILENCE: [u8; 5] = [0xDA, 0xA7, 0xAA, 0xA5, 0x1A];

const SILENCE_PART: [u8; 7] = [0x50, 0x00, 0x47, 0x1C, 0x71, 0xC7, 0x1C];

const EMPTY_SUMMARY: &str = "ticks 0 frames 0 erasures 0 idle 0
all datagrams 0 accepted 0 duplicate 0 late 0 beyond 0 refused 0 stranger 0 rtcp 0 empty 0
";

fn put_times(octets: &mut Vec<u8>, part: &[u8], times: usize) -> Result<(), AllocError> {
    for _ in 0..times {
        octets.extend_from_slice(part)?;
    }
    Ok(())
}

// The value of a hexadecimal digit, in capitals.
fn digit_value(digit: u8) -> u8 {
    if digit <= b'9' {
        digit.wrapping_sub(b'0')
    } else {
        digit.wrapping_sub(b'A' - 10)
    }
}

fn put_digits(octets: &mut Vec<u8>, digits: &[u8]) -> Result<(), AllocError> {
    for i in 0..digits.len() / 2 {
        let high = digit_value(digits[2 * i]);
        let low = digit_value(digits[2 * i + 1]);
        octets.extend_from_slice(&[high.wrapping_mul(16).wrapping_add(low)])?;
    }
    Ok(())
}

fn put_word(octets: &mut Vec<u8>, word: &str) -> Result<(), AllocError> {
    match word {
        "script" => octets.extend_from_slice(b"GSMGSC01"),
        "journal" => octets.extend_from_slice(b"GSMGPJ01"),
        "zeros" => {
            octets.extend_from_slice(&ZEROS)?;
            put_times(octets, &ZERO_PART, 4)
        }
        "silence" => {
            octets.extend_from_slice(&SILENCE)?;
            put_times(octets, &SILENCE_PART, 4)
        }
        "parts" => put_times(octets, &ZERO_PART, 4),
        "long" => put_times(octets, &[0x80], 2046),
        digits => put_digits(octets, digits.as_bytes()),
    }
}

// The octets that words write: hexadecimal digits, or the name of a magic, of a frame, of a frame's four parts, or of the
// 2046 octets behind the first two of the longest datagram.
fn octets_of(alloc: Global, text: &str) -> Result<Vec<u8>, AllocError> {
    let mut octets = Vec::new(alloc);
    for word in text.split_whitespace() {
        put_word(&mut octets, word)?;
    }
    Ok(octets)
}

// How a run ended, with what it gave.
#[derive(Drop)]
struct Ended {
    status: Status,
    output: MemorySink,
    notes: MemorySink,
}

// Simulates these octets to a journal. They come in pieces of this length; the listed reads, and gives of the output, fail.
fn run_over(
    alloc: Global,
    octets: &[u8],
    piece: usize,
    reads: &[u64],
    gives: &[(u64, usize)],
) -> Result<Ended, Fail>
    requires { 1 ≤ piece }
{
    let mut input = MemorySource::new(alloc, octets, piece, reads)?;
    let mut output = MemorySink::new(alloc, 10000, gives)?;
    let mut notes = MemorySink::new(alloc, 10000, &[])?;
    let status = simulate(alloc, None, &mut input, &mut output, &mut notes);
    Ok(Ended {
        status,
        output,
        notes,
    })
}

// Whether a run in pieces of this length ends with this status and these octets and notes.
fn ends_so(
    alloc: Global,
    input: &[u8],
    piece: usize,
    status: Status,
    output: &[u8],
    notes: &str,
) -> Result<bool, Fail>
    requires { 1 ≤ piece }
{
    let ended = run_over(alloc, input, piece, &[], &[])?;
    Ok(
        ended.status == status
            && *ended.output.octets() == *output
            && *ended.notes.octets() == *notes.as_bytes(),
    )
}

// Whether a run comes to this status, output and notes, in pieces of one, seven and a thousand octets.
pub fn comes_to(
    alloc: Global,
    input: &str,
    status: Status,
    output: &str,
    notes: &str,
) -> Result<bool, Fail> {
    let input = octets_of(alloc, input)?;
    let output = octets_of(alloc, output)?;
    Ok(
        ends_so(alloc, &input, 1, status, &output, notes)?
            && ends_so(alloc, &input, 7, status, &output, notes)?
            && ends_so(alloc, &input, 1000, status, &output, notes)?,
    )
}

// Whether a run octet by octet, in which the listed reads and gives fail, comes to this status and output, with no note.
fn breaks_as(
    alloc: Global,
    input: &str,
    reads: &[u64],
    gives: &[(u64, usize)],
    status: Status,
    output: &str,
) -> Result<bool, Fail> {
    let input = octets_of(alloc, input)?;
    let output = octets_of(alloc, output)?;
    let ended = run_over(alloc, &input, 1, reads, gives)?;
    Ok(
        ended.status == status
            && *ended.output.octets() == *output.as_slice()
            && ended.notes.octets().len() == 0,
    )
}

#[test]
fn an_empty_script_gives_an_empty_journal(rt: HostRuntime) -> Result<(), Fail> {
    let came = comes_to(
        rt.alloc(),
        "script 01060003 FF",
        Status::Done,
        "journal 01060003 FF",
        EMPTY_SUMMARY,
    )?;
    assert!(rt; came);
    Ok(())
}

#[test]
fn one_frame_of_two_filers_is_played_once(rt: HostRuntime) -> Result<(), Fail> {
    let came = comes_to(
        rt.alloc(),
        "script 02060003 0200 0000000100000000 zeros 0201 0000000100000000 silence 01 FF",
        Status::Done,
        "journal 02060003 13 zeros FF",
        "1 duplicate 4294967296
ticks 1 frames 1 erasures 0 idle 0
all datagrams 0 accepted 1 duplicate 1 late 0 beyond 0 refused 0 stranger 0 rtcp 0 empty 0
",
    )?;
    assert!(rt; came);
    Ok(())
}

#[test]
fn a_ring_of_one_slot_takes_one_frame_a_tick(rt: HostRuntime) -> Result<(), Fail> {
    let came = comes_to(
        rt.alloc(),
        "script 01000000 0200 0000000100000000 zeros 0200 0000000100000001 zeros 01
         0200 0000000100000000 zeros 0200 0000000100000001 silence 01 01 FF",
        Status::Done,
        "journal 01000000 13 zeros 13 silence 12 FF",
        "0 beyond 4294967297 4294967296
0 late 4294967296 4294967297
ticks 3 frames 2 erasures 1 idle 0
all datagrams 0 accepted 2 duplicate 0 late 1 beyond 1 refused 0 stranger 0 rtcp 0 empty 0
",
    )?;
    assert!(rt; came);
    Ok(())
}

#[test]
fn the_window_has_its_bounds(rt: HostRuntime) -> Result<(), Fail> {
    let came = comes_to(
        rt.alloc(),
        "script 01060000 0200 000000010000003F zeros 0200 0000000100000040 zeros 0200 00000000FFFFFFFF zeros FF",
        Status::Done,
        "journal 01060000 FF",
        "0 beyond 4294967360 4294967296
0 late 4294967295 4294967359
ticks 0 frames 0 erasures 0 idle 0
all datagrams 0 accepted 1 duplicate 0 late 1 beyond 1 refused 0 stranger 0 rtcp 0 empty 0
",
    )?;
    assert!(rt; came);
    Ok(())
}

// Whether `simulate` refuses the octets, with this output and note.
fn is_refused(alloc: Global, input: &str, output: &str, note: &str) -> Result<bool, Fail> {
    comes_to(alloc, input, Status::Input, output, note)
}

#[test]
fn the_first_fault_is_noted_with_its_place(rt: HostRuntime) -> Result<(), Fail> {
    let alloc = rt.alloc();
    let none = is_refused(alloc, "", "", "input 0 cut 0\n")?;
    let magic = is_refused(alloc, "00", "", "input 0 magic\n")?;
    let kind = is_refused(
        alloc,
        "script 01060003 09",
        "journal 01060003",
        "input 0 kind 12\n",
    )?;
    assert!(rt; none && magic && kind);
    let field = is_refused(
        alloc,
        "script 01060003 0201 0000000100000000 zeros",
        "journal 01060003",
        "input 0 field 13\n",
    )?;
    let cut = is_refused(
        alloc,
        "script 01060003 01 0200",
        "journal 01060003 12",
        "input 0 cut 15\n",
    )?;
    assert!(rt; field && cut);
    Ok(())
}

#[test]
fn a_fault_in_mid_stream_ends_the_run_there(rt: HostRuntime) -> Result<(), Fail> {
    let alloc = rt.alloc();
    let input = "script 01060003 010101 FF";
    let head = breaks_as(alloc, input, &[7], &[], Status::ReadFault, "")?;
    let read = breaks_as(
        alloc,
        input,
        &[14],
        &[],
        Status::ReadFault,
        "journal 01060003 1212",
    )?;
    let write = breaks_as(
        alloc,
        input,
        &[],
        &[(2, 0)],
        Status::WriteFault,
        "journal 01060003 12",
    )?;
    assert!(rt; head && read && write);
    Ok(())
}
