use crate::tests::octets_of;
use crate::verify_command::verify;
use gate_io::{MemorySink, MemorySource};
use gate_notes::Status;
use std::alloc::Global;
use std::test::Fail;

// Whether the journals in these inputs come to this status, output and notes.
fn judges_as(
    alloc: Global,
    texts: &[&str],
    status: Status,
    output: &str,
    notes: &str,
) -> Result<bool, Fail> {
    let mut inputs = Vec::new(alloc);
    for text in texts {
        let octets = octets_of(alloc, text)?;
        inputs.push(MemorySource::new(alloc, &octets, 7, &[])?)?;
    }
    if inputs.len() < 2 {
        return Ok(false);
    }
    let mut given = MemorySink::new(alloc, 10000, &[])?;
    let mut noted = MemorySink::new(alloc, 10000, &[])?;
    let ended = verify(alloc, inputs.as_mut_slice(), &mut given, &mut noted);
    Ok(
        ended == status
            && *given.octets() == *output.as_bytes()
            && *noted.octets() == *notes.as_bytes(),
    )
}

#[test]
fn a_legal_history_is_told_by_its_callers(rt: HostRuntime) -> Result<(), Fail> {
    let legal = judges_as(
        rt.alloc(),
        &[
            "journal 02060003 13 zeros FF",
            "filer 02060003 00 22 0000000100000000 zeros FF",
            "filer 02060003 01 23 0000000100000000 silence FF",
        ],
        Status::Done,
        "0\n1\np\n",
        "legal 3\n",
    )?;
    assert!(rt; legal);
    Ok(())
}

#[test]
fn two_accepted_frames_of_one_number_are_illegal(rt: HostRuntime) -> Result<(), Fail> {
    let illegal = judges_as(
        rt.alloc(),
        &[
            "journal 02060003 13 zeros FF",
            "filer 02060003 00 22 0000000100000000 zeros FF",
            "filer 02060003 01 22 0000000100000000 zeros FF",
        ],
        Status::Illegal,
        "",
        "illegal 1 0\n",
    )?;
    assert!(rt; illegal);
    Ok(())
}

#[test]
fn ten_frames_over_both_ends_of_the_window_are_legal(rt: HostRuntime) -> Result<(), Fail> {
    let legal = judges_as(
        rt.alloc(),
        &[
            "journal 01020000 13 zeros 121212 13 D803000000 parts 13 D804000000 parts 13 D805000000 parts
             13 D806000000 parts FF",
            "filer 01020000 00 20 12345678 12345678 21 000003E8 000003E8
             22 0000000100000000 zeros
             24 0000000100000001 D800000000 parts 0000000100000005
             24 0000000100000002 D801000000 parts 0000000100000006
             24 0000000100000003 D802000000 parts 0000000100000007
             22 0000000100000004 D803000000 parts 22 0000000100000005 D804000000 parts
             22 0000000100000006 D805000000 parts 22 0000000100000007 D806000000 parts
             25 0000000100000008 D807000000 parts 0000000100000004
             25 0000000100000009 D808000000 parts 0000000100000005
             25 000000010000000A D809000000 parts 0000000100000006 FF",
        ],
        Status::Done,
        "0\n0\n0\np\np\n0\np\n0\np\n0\n0\n0\n0\n0\n0\n0\n0\np\np\np\np\n",
        "legal 21\n",
    )?;
    assert!(rt; legal);
    Ok(())
}

// Whether `verify` refuses the inputs, with this note.
fn is_refused(alloc: Global, texts: &[&str], note: &str) -> Result<bool, Fail> {
    judges_as(alloc, texts, Status::Input, "", note)
}

#[test]
fn the_first_fault_of_the_inputs_is_noted(rt: HostRuntime) -> Result<(), Fail> {
    let alloc = rt.alloc();
    let filer = "filer 01060003 00 FF";
    let cut = is_refused(alloc, &["journal", filer], "input 0 cut 8\n")?;
    let many = is_refused(
        alloc,
        &["journal 03060003 FF", filer, filer],
        "input 0 field 8\n",
    )?;
    let other_g = is_refused(
        alloc,
        &["journal 01060003 FF", "filer 01050003 00 FF"],
        "input 1 field 9\n",
    )?;
    assert!(rt; cut && many && other_g);
    let caller = is_refused(
        alloc,
        &[
            "journal 02060003 FF",
            "filer 02060003 01 FF",
            "filer 02060003 00 FF",
        ],
        "input 1 field 12\n",
    )?;
    let delay = is_refused(
        alloc,
        &[
            "journal 02060003 FF",
            "filer 02060003 00 FF",
            "filer 02060002 01",
        ],
        "input 2 cut 13\n",
    )?;
    assert!(rt; caller && delay);
    Ok(())
}
