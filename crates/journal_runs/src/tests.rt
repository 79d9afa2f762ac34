use crate::make_command::make;
use crate::render_command::render;
use gate_io::{MemorySink, MemorySource};
use gate_notes::Status;
use std::alloc::{AllocError, Global};
use std::test::Fail;

// A frame of 160 coded zeros, and the silence frame, behind their first five octets.
const ZEROS: [u8; 5] = [0xD8, 0x20, 0xA2, 0xE1, 0x5A];

const ZERO_PART: [u8; 7] = [0x50, 0x00, 0x49, 0x24, 0x92, 0x49, 0x24];

const SILENCE: [u8; 5] = [0xDA, 0xA7, 0xAA, 0xA5, 0x1A];

const SILENCE_PART: [u8; 7] = [0x50, 0x00, 0x47, 0x1C, 0x71, 0xC7, 0x1C];

fn put_times(octets: &mut Vec<u8>, part: &[u8], times: usize) -> Result<(), AllocError> {
    for _ in 0..times {
        octets.extend_from_slice(part)?;
    }
    Ok(())
}

// The value of a hexadecimal digit, in capitals.
fn digit_value(digit: u8) -> u8 {
    if digit <= b'9' {
        digit.wrapping_sub(b'0')
    } else {
        digit.wrapping_sub(b'A' - 10)
    }
}

fn put_digits(octets: &mut Vec<u8>, digits: &[u8]) -> Result<(), AllocError> {
    for i in 0..digits.len() / 2 {
        let high = digit_value(digits[2 * i]);
        let low = digit_value(digits[2 * i + 1]);
        octets.extend_from_slice(&[high.wrapping_mul(16).wrapping_add(low)])?;
    }
    Ok(())
}

fn put_word(octets: &mut Vec<u8>, word: &str) -> Result<(), AllocError> {
    match word {
        "journal" => octets.extend_from_slice(b"GSMGPJ01"),
        "filer" => octets.extend_from_slice(b"GSMGFJ01"),
        "zeros" => {
            octets.extend_from_slice(&ZEROS)?;
            put_times(octets, &ZERO_PART, 4)
        }
        "silence" => {
            octets.extend_from_slice(&SILENCE)?;
            put_times(octets, &SILENCE_PART, 4)
        }
        "parts" => put_times(octets, &ZERO_PART, 4),
        digits => put_digits(octets, digits.as_bytes()),
    }
}

// The octets that words write: hexadecimal digits, or the name of a magic, of a frame, or of a frame's four parts.
pub fn octets_of(alloc: Global, text: &str) -> Result<Vec<u8>, AllocError> {
    let mut octets = Vec::new(alloc);
    for word in text.split_whitespace() {
        put_word(&mut octets, word)?;
    }
    Ok(octets)
}

// Whether `render` refuses a journal of these events behind so many octets of speech.
fn is_refused(alloc: Global, events: &str, speech: usize, note: &str) -> Result<bool, Fail> {
    let octets = octets_of(alloc, events)?;
    let mut input = MemorySource::new(alloc, &octets, 7, &[])?;
    let mut output = MemorySink::new(alloc, 10000, &[])?;
    let mut notes = MemorySink::new(alloc, 10000, &[])?;
    let status = render([0; 32], &mut input, &mut output, &mut notes);
    Ok(
        status == Status::Input
            && output.octets().len() == speech
            && *notes.octets() == *note.as_bytes(),
    )
}

#[test]
fn a_journal_that_is_none_is_refused(rt: HostRuntime) -> Result<(), Fail> {
    let alloc = rt.alloc();
    let order = is_refused(alloc, "journal 01060003 12 10 FF", 320, "input 0 kind 13\n")?;
    let cut = is_refused(alloc, "journal 01060003 10 10 13", 640, "input 0 cut 15\n")?;
    let kind = is_refused(alloc, "journal 01060003 10 01 FF", 320, "input 0 kind 13\n")?;
    assert!(rt; order && cut && kind);
    Ok(())
}

// The script of a thousand rounds for four filers.
fn made(alloc: Global) -> Result<MemorySink, Fail> {
    let mut output = MemorySink::new(alloc, 50000, &[])?;
    let mut notes = MemorySink::new(alloc, 1000, &[])?;
    let _status = make(alloc, 7, 1000, 4, &mut output, &mut notes);
    Ok(output)
}

#[test]
fn a_script_is_made_from_its_seed_alone(rt: HostRuntime) -> Result<(), Fail> {
    let script = made(rt.alloc())?;
    let again = made(rt.alloc())?;
    assert_eq!(rt; script.octets().len(), 44013);
    assert!(rt; *script.octets() == *again.octets());
    Ok(())
}
