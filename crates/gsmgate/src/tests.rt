use crate::offline::run_offline;
use crate::places::addresses;
use gate_io::{MemorySink, MemorySource};
use gate_notes::Status;
use std::alloc::{AllocError, Global};
use std::test::Fail;

// A frame of 160 coded zeros, and the silence frame, behind their first five octets.
const ZEROS: [u8; 5] = [0xD8, 0x20, 0xA2, 0xE1, 0x5A];

const ZERO_PART: [u8; 7] = [0x50, 0x00, 0x49, 0x24, 0x92, 0x49, 0x24];

const SILENCE: [u8; 5] = [0xDA, 0xA7, 0xAA, 0xA5, 0x1A];

const SILENCE_PART: [u8; 7] = [0x50, 0x00, 0x47, 0x1C, 0x71, 0xC7, 0x1C];

fn put_times(octets: &mut Vec<u8>, part: &[u8], times: usize) -> Result<(), AllocError> {
    for _ in 0..times {
        octets.extend_from_slice(part)?;
    }
    Ok(())
}

// The value of a hexadecimal digit, in capitals.
fn digit_value(digit: u8) -> u8 {
    if digit <= b'9' {
        digit.wrapping_sub(b'0')
    } else {
        digit.wrapping_sub(b'A' - 10)
    }
}

fn put_digits(octets: &mut Vec<u8>, digits: &[u8]) -> Result<(), AllocError> {
    for i in 0..digits.len() / 2 {
        let high = digit_value(digits[2 * i]);
        let low = digit_value(digits[2 * i + 1]);
        octets.extend_from_slice(&[high.wrapping_mul(16).wrapping_add(low)])?;
    }
    Ok(())
}

fn put_word(octets: &mut Vec<u8>, word: &str) -> Result<(), AllocError> {
    match word {
        "script" => octets.extend_from_slice(b"GSMGSC01"),
        "journal" => octets.extend_from_slice(b"GSMGPJ01"),
        "filer" => octets.extend_from_slice(b"GSMGFJ01"),
        "zeros" => {
            octets.extend_from_slice(&ZEROS)?;
            put_times(octets, &ZERO_PART, 4)
        }
        "silence" => {
            octets.extend_from_slice(&SILENCE)?;
            put_times(octets, &SILENCE_PART, 4)
        }
        digits => put_digits(octets, digits.as_bytes()),
    }
}

// The octets that words write: hexadecimal digits, or the name of a magic or of a frame.
pub fn octets_of(alloc: Global, text: &str) -> Result<Vec<u8>, AllocError> {
    let mut octets = Vec::new(alloc);
    for word in text.split_whitespace() {
        put_word(&mut octets, word)?;
    }
    Ok(octets)
}

pub fn words_of(alloc: Global, line: &str) -> Result<Vec<String>, AllocError> {
    let mut words = Vec::new(alloc);
    for word in line.split_whitespace() {
        words.push(String::from_str(alloc, word)?)?;
    }
    Ok(words)
}

// Whether a line over one input is refused by its usage.
fn is_refused(alloc: Global, line: &str) -> Result<bool, Fail> {
    let words = words_of(alloc, line)?;
    let mut inputs = Vec::new(alloc);
    inputs.push(MemorySource::new(alloc, b"", 1, &[])?)?;
    let mut output = MemorySink::new(alloc, 100, &[])?;
    let mut notes = MemorySink::new(alloc, 100, &[])?;
    let status = run_offline(alloc, &words, &mut inputs, &mut output, &mut notes);
    Ok(
        status == Status::Usage
            && *notes.octets() == *b"usage\n".as_slice()
            && output.octets().is_empty(),
    )
}

#[test]
fn other_words_are_refused(rt: HostRuntime) -> Result<(), Fail> {
    let alloc = rt.alloc();
    for line in ["simulat a b", "simulate --seed 1 a b", "make 7 0 4 out", ""] {
        let words = words_of(alloc, line)?;
        let no_places = matches!(addresses(alloc, &words), Err(Status::Usage));
        assert!(rt; no_places && is_refused(alloc, line)?);
    }
    Ok(())
}

#[test]
fn another_number_of_inputs_is_refused(rt: HostRuntime) -> Result<(), Fail> {
    for line in ["verify out player filer", "make 7 1000 4 out", SERVE] {
        assert!(rt; is_refused(rt.alloc(), line)?);
    }
    Ok(())
}

#[test]
fn a_line_over_files_names_its_places(rt: HostRuntime) -> Result<(), Fail> {
    let alloc = rt.alloc();
    let words = words_of(alloc, "verify order played first second")?;
    let Ok(places) = addresses(alloc, &words) else {
        assert!(rt; false);
        return Ok(());
    };
    assert!(rt; !places.serve && places.ticks == 0);
    assert_eq!(rt; places.inputs.len(), 3);
    assert_eq!(rt; places.inputs[0].as_str(), "played");
    assert_eq!(rt; places.inputs[2].as_str(), "second");
    assert_eq!(rt; places.output.as_str(), "order");
    assert_eq!(rt; places.links.len() + places.journals.len(), 0);
    Ok(())
}

const SERVE: &str =
    "serve --ticks 50 --reply 127.0.0.1:4010 --speaker heard --microphone said --journals call
    127.0.0.1:4000 127.0.0.1:4002";

#[test]
fn a_line_of_serve_names_its_places(rt: HostRuntime) -> Result<(), Fail> {
    let alloc = rt.alloc();
    let words = words_of(alloc, SERVE)?;
    let Ok(places) = addresses(alloc, &words) else {
        assert!(rt; false);
        return Ok(());
    };
    assert!(rt; places.serve && places.ticks == 50 && places.inputs.is_empty());
    assert_eq!(rt; places.links.len(), 2);
    assert_eq!(rt; places.links[1].as_str(), "127.0.0.1:4002");
    assert_eq!(rt; places.reply.as_str(), "127.0.0.1:4010");
    assert_eq!(rt; places.speaker.as_str(), "heard");
    assert_eq!(rt; places.microphone.as_str(), "said");
    assert_eq!(rt; places.journals.len(), 3);
    assert_eq!(rt; places.journals[0].as_str(), "call.player");
    assert_eq!(rt; places.journals[2].as_str(), "call.1");
    Ok(())
}
