use crate::tests::comes_to;
use gate_notes::Status;
use std::test::Fail;

#[test]
fn packets_come_late_and_beats_wait_for_the_first(rt: HostRuntime) -> Result<(), Fail> {
    let came = comes_to(
        rt.alloc(),
        "script 01060003
         04 0300 00000000 002D 80030001 000003E8 12345678 zeros
         04 0300 00000000 002D 80030002 00000488 12345678 zeros
         04 0300 00000000 002D 80030003 00000528 12345678 zeros
         04040404 FF",
        Status::Done,
        "journal 01060003 10 11 000003E8 121212 13 zeros 13 zeros 13 zeros FF",
        "ticks 6 frames 3 erasures 3 idle 1
all datagrams 3 accepted 3 duplicate 0 late 0 beyond 0 refused 0 stranger 0 rtcp 0 empty 0
",
    )?;
    assert!(rt; came);
    Ok(())
}

#[test]
fn ten_frames_reach_over_both_ends_of_the_window(rt: HostRuntime) -> Result<(), Fail> {
    let came = comes_to(
        rt.alloc(),
        "script 01020000 0300 00000000 002D 80030001 000003E8 12345678 zeros 01010101
         0300 00000000 0156 80030002 00000488 12345678
         D800000000 parts D801000000 parts D802000000 parts D803000000 parts D804000000 parts
         D805000000 parts D806000000 parts D807000000 parts D808000000 parts D809000000 parts
         01010101 FF",
        Status::Done,
        "journal 01020000 13 zeros 121212 13 D803000000 parts 13 D804000000 parts 13 D805000000 parts
         13 D806000000 parts FF",
        "0 late 4294967297 4294967301
0 late 4294967298 4294967302
0 late 4294967299 4294967303
0 beyond 4294967304 4294967300
0 beyond 4294967305 4294967301
0 beyond 4294967306 4294967302
ticks 8 frames 5 erasures 3 idle 0
all datagrams 2 accepted 5 duplicate 0 late 3 beyond 3 refused 0 stranger 0 rtcp 0 empty 0
",
    )?;
    assert!(rt; came);
    Ok(())
}

// Packets that are refused, each for another cause, with one that has no frame.
const REFUSED: &str = "script 01060003
    0300 00000000 000B 80030001 000003E8 123456
    0300 00000000 000C 40030001 000003E8 12345678
    0300 00000000 000C 81030001 000003E8 12345678
    0300 00000000 000C 90030001 000003E8 12345678
    0300 00000000 000E A0030001 000003E8 12345678 D800
    0300 00000000 000E A0030001 000003E8 12345678 D803
    0300 00000000 000D 800D0001 000003E8 12345678 D8
    0300 00000000 000D 80650001 000003E8 12345678 D8
    0300 00000000 000D 80030001 000003E8 12345678 D8
    0300 00000000 000C 80030001 000003E8 12345678
    0300 00000000 004E 80030001 000003E8 12345678 zeros C800000000 parts
    0300 00000000 0177 80030001 000003E8 12345678
    zeros zeros zeros zeros zeros zeros zeros zeros zeros zeros zeros
    0300 00000000 0800 8080 long FF";

#[test]
fn refused_packets_are_noted_with_their_causes(rt: HostRuntime) -> Result<(), Fail> {
    let came = comes_to(
        rt.alloc(),
        REFUSED,
        Status::Done,
        "journal 01060003 FF",
        "0 refused short
0 refused version
0 refused csrc
0 refused extension
0 refused padding
0 refused padding
0 refused payload 13
0 refused payload 101
0 refused length
0 refused signature 1
0 refused many
0 refused oversize
ticks 0 frames 0 erasures 0 idle 0
all datagrams 13 accepted 0 duplicate 0 late 0 beyond 0 refused 12 stranger 0 rtcp 0 empty 1
",
    )?;
    assert!(rt; came);
    Ok(())
}

#[test]
fn packets_of_another_source_are_noted(rt: HostRuntime) -> Result<(), Fail> {
    let came = comes_to(
        rt.alloc(),
        "script 01060003
         0300 00000000 0035 91030001 000003E8 12345678 00000009 00000000 zeros
         0300 00000000 002D 80030001 0000044C 12345678 zeros
         0300 00000000 002D 80030001 000003E8 00000001 zeros FF",
        Status::Done,
        "journal 01060003 FF",
        "0 duplicate 4294967299
0 stranger 1 305419896
ticks 0 frames 0 erasures 0 idle 0
all datagrams 3 accepted 1 duplicate 1 late 0 beyond 0 refused 0 stranger 1 rtcp 0 empty 0
",
    )?;
    assert!(rt; came);
    Ok(())
}

#[test]
fn refused_compounds_are_noted_with_their_places(rt: HostRuntime) -> Result<(), Fail> {
    let came = comes_to(
        rt.alloc(),
        "script 02060003
         0301 00000000 0800 80C9 long
         0300 00000000 0008 80C90002 00000001
         0300 00000000 0010 80C90001 00000001 40C90001 00000001
         0301 00000000 0008 80CA0001 00000001
         0300 00000000 000C A0C90002 00000001 00000003
         0300 00000000 0008 81C90001 00000001
         0300 00000000 0008 80C90001 00000001 FF",
        Status::Done,
        "journal 02060003 FF",
        "1 refused rtcp oversize
0 refused rtcp cut 0
0 refused rtcp version 8
1 refused rtcp first
0 refused rtcp padding 0
0 refused rtcp body 0
ticks 0 frames 0 erasures 0 idle 0
all datagrams 7 accepted 0 duplicate 0 late 0 beyond 0 refused 6 stranger 0 rtcp 1 empty 0
",
    )?;
    assert!(rt; came);
    Ok(())
}

#[test]
fn timestamps_wrap_for_each_filer_by_itself(rt: HostRuntime) -> Result<(), Fail> {
    let came = comes_to(
        rt.alloc(),
        "script 02060003
         0300 00000000 002D 80030001 FFFFFFA0 12345678 zeros
         0300 00000000 002D 80030002 00000040 12345678 zeros
         0301 00000000 002D 80030001 FFFFFF9F 12345678 zeros
         0301 00000000 002D 80030002 FFFFFFA0 12345678 zeros
         0301 00000000 002D 80030003 00000040 12345678 zeros
         0300 00000000 002D 80030003 FFFFFF9F 12345678 zeros FF",
        Status::Done,
        "journal 02060003 FF",
        "1 duplicate 4294967299
1 duplicate 4294967300
0 duplicate 4294967298
ticks 0 frames 0 erasures 0 idle 0
all datagrams 6 accepted 3 duplicate 3 late 0 beyond 0 refused 0 stranger 0 rtcp 0 empty 0
",
    )?;
    assert!(rt; came);
    Ok(())
}
