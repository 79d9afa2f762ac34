ghost use Rattle.std.specs.Prelude.{◌≤◌};

use crate::decode_command::decode;
use crate::encode_command::encode;
use gate_io::{MemorySink, MemorySource};
use gate_notes::Status;
use std::alloc::{AllocError, Global};
use std::test::Fail;

// A frame of 160 coded zeros, behind its first five octets.
const ZEROS: [u8; 5] = [0xD8, 0x20, 0xA2, 0xE1, 0x5A];

const ZERO_PART: [u8; 7] = [0x50, 0x00, 0x49, 0x24, 0x92, 0x49, 0x24];

// A frame of four such parts behind its first five octets, and more octets behind it.
fn frame_of(alloc: Global, first: &[u8; 5], more: &[u8]) -> Result<Vec<u8>, AllocError> {
    let mut octets = Vec::new(alloc);
    octets.extend_from_slice(first)?;
    for _ in 0..4 {
        octets.extend_from_slice(&ZERO_PART)?;
    }
    octets.extend_from_slice(more)?;
    Ok(octets)
}

// How a run ended, with what it gave.
#[derive(Drop)]
struct Ended {
    status: Status,
    output: MemorySink,
    notes: MemorySink,
}

// Decodes these octets, which come in pieces of this length. The listed gives of the output fail.
fn decoded(
    alloc: Global,
    octets: &[u8],
    piece: usize,
    gives: &[(u64, usize)],
) -> Result<Ended, Fail>
    requires { 1 ≤ piece }
{
    let mut input = MemorySource::new(alloc, octets, piece, &[])?;
    let mut output = MemorySink::new(alloc, 10000, gives)?;
    let mut notes = MemorySink::new(alloc, 10000, &[])?;
    let status = decode(&mut input, &mut output, &mut notes);
    Ok(Ended {
        status,
        output,
        notes,
    })
}

// Codes these octets, which come in pieces of seven. The listed reads, and gives of the output, fail.
fn encoded(
    alloc: Global,
    octets: &[u8],
    reads: &[u64],
    gives: &[(u64, usize)],
) -> Result<Ended, Fail> {
    let mut input = MemorySource::new(alloc, octets, 7, reads)?;
    let mut output = MemorySink::new(alloc, 10000, gives)?;
    let mut notes = MemorySink::new(alloc, 10000, &[])?;
    let status = encode(&mut input, &mut output, &mut notes);
    Ok(Ended {
        status,
        output,
        notes,
    })
}

#[test]
fn frames_are_decoded_to_octets(rt: HostRuntime) -> Result<(), Fail> {
    let alloc = rt.alloc();
    let octets = frame_of(alloc, &ZEROS, &[])?;
    let whole = decoded(alloc, &octets, 5, &[])?;
    assert!(rt; whole.status == Status::Done && *whole.notes.octets() == *b"frames 1\n".as_slice());
    assert!(rt;
        whole.output.octets().len() == 320
            && whole.output.octets().starts_with(&[8, 0, 0, 0, 0, 0, 8, 0])
    );
    Ok(())
}

// Whether octets in pieces of this length are decoded to this status and note, and no speech.
fn is_silent(
    alloc: Global,
    octets: &[u8],
    piece: usize,
    status: Status,
    notes: &str,
) -> Result<bool, Fail>
    requires { 1 ≤ piece }
{
    let ended = decoded(alloc, octets, piece, &[])?;
    Ok(
        ended.status == status
            && ended.output.octets().len() == 0
            && *ended.notes.octets() == *notes.as_bytes(),
    )
}

// The same in pieces of one, seven and a thousand octets.
fn gives_nothing(alloc: Global, octets: &[u8], status: Status, notes: &str) -> Result<bool, Fail> {
    Ok(
        is_silent(alloc, octets, 1, status, notes)?
            && is_silent(alloc, octets, 7, status, notes)?
            && is_silent(alloc, octets, 1000, status, notes)?,
    )
}

#[test]
fn frames_that_are_none_are_refused(rt: HostRuntime) -> Result<(), Fail> {
    let alloc = rt.alloc();
    let octets = frame_of(alloc, &ZEROS, &[0xD8])?;
    let cut = decoded(alloc, &octets, 5, &[])?;
    assert!(rt;
        cut.status == Status::Input && *cut.notes.octets() == *b"input 0 cut 34\n".as_slice()
    );
    let broken = decoded(alloc, &octets, 5, &[(0, 7)])?;
    assert!(rt; broken.status == Status::WriteFault && broken.output.octets().len() == 7);
    assert!(rt; broken.notes.octets().is_empty());
    let unsigned = frame_of(alloc, &[0xC8, 0, 0, 0, 0], &[])?;
    let other = gives_nothing(alloc, &unsigned, Status::Input, "input 0 field 0\n")?;
    let none = gives_nothing(alloc, &[], Status::Done, "frames 0\n")?;
    assert!(rt; other && none);
    Ok(())
}

// Speech of so many zeros.
fn zeros(alloc: Global, count: usize) -> Result<Vec<u8>, Fail> {
    let mut octets = Vec::new(alloc);
    for _ in 0..count {
        octets.extend_from_slice(&[0])?;
    }
    Ok(octets)
}

// Whether `encode` codes so many zeros to so many octets of frames, in pieces of seven octets.
fn encodes_to(alloc: Global, count: usize, given: usize, notes: &str) -> Result<bool, Fail> {
    let octets = zeros(alloc, count)?;
    let zero = frame_of(alloc, &ZEROS, &[])?;
    let ended = encoded(alloc, &octets, &[], &[])?;
    Ok(
        ended.status == Status::Done
            && ended.output.octets().len() == given
            && (given == 0 || ended.output.octets().ends_with(zero.as_slice()))
            && *ended.notes.octets() == *notes.as_bytes(),
    )
}

#[test]
fn speech_is_encoded_piece_by_piece(rt: HostRuntime) -> Result<(), Fail> {
    let alloc = rt.alloc();
    let none = encodes_to(alloc, 0, 0, "frames 0\n")?;
    let one = encodes_to(alloc, 320, 33, "frames 1\n")?;
    let filled = encodes_to(alloc, 500, 66, "frames 2\n")?;
    assert!(rt; none && one && filled);
    let octets = zeros(alloc, 500)?;
    let unread = encoded(alloc, &octets, &[50], &[])?;
    assert!(rt; unread.status == Status::ReadFault && unread.output.octets().len() == 33);
    let broken = encoded(alloc, &octets, &[], &[(1, 5)])?;
    assert!(rt; broken.status == Status::WriteFault && broken.output.octets().len() == 38);
    assert!(rt; broken.notes.octets().is_empty());
    Ok(())
}
