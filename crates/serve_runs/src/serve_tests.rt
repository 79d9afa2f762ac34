use crate::serve::run_serve;
use filer::FilerEnd;
use gate_io::{MemoryClock, MemoryLink, MemorySink, MemorySource};
use gate_notes::Status;
use player::PlayerEnd;
use std::alloc::{AllocError, Global};
use std::sync::Wait;
use std::test::Fail;
use std::thread::Threads;

pub const LINE: &str =
    "serve --reply 127.0.0.1:9000 --speaker s --microphone m --journals j 127.0.0.1:9001";

pub fn words(alloc: Global, line: &str) -> Result<Vec<String>, AllocError> {
    let mut words = Vec::new(alloc);
    for word in line.split_whitespace() {
        words.push(String::from_str(alloc, word)?)?;
    }
    Ok(words)
}

// What a line of one link, which has nothing, came to.
#[derive(Clone, Copy, PartialEq, Eq, Debug)]
struct Came {
    status: Status,
    player: Option<PlayerEnd>,
    filer: Option<FilerEnd>,
    heard: usize,
    is_silent: bool,
    sent: usize,
    is_packet: bool,
    played: bool,
    filed: bool,
    noted: bool,
}

// The packet of one piece of silence, number 0 of source 1.
fn is_first_packet(reply: &MemoryLink) -> bool {
    if reply.sent_count() != 1 {
        return false;
    }
    let packet = reply.sent(0);
    packet.len() == 45
        && packet.starts_with(&[
            0x80, 3, 0, 0, 0, 0, 0, 0, 0, 0, 0, 1, 0xD8, 0x20, 0xA2, 0xE1, 0x5A,
        ])
        && packet.ends_with(&[0x50, 0, 0x49, 0x24, 0x92, 0x49, 0x24])
}

// Runs the words over objects in memory: so many ticks, a piece of silence at the microphone, and a speaker that fails so.
fn comes_to<R: Threads + Wait + Sync>(
    rt: &R,
    alloc: Global,
    line: &str,
    ticks: u64,
    fails: &[(u64, usize)],
    played: &[u8],
    noted: &str,
) -> Result<Came, Fail> {
    let words = words(alloc, line)?;
    let mut links = Vec::new(alloc);
    links.push(MemoryLink::new(alloc, Vec::new(alloc), &[], 4)?)?;
    let mut reply = MemoryLink::new(alloc, Vec::new(alloc), &[], 4)?;
    let mut microphone = MemorySource::new(alloc, &[0; 320], 320, &[])?;
    let mut speaker = MemorySink::new(alloc, 2000, fails)?;
    let mut journals = Vec::new(alloc);
    journals.push(MemorySink::new(alloc, 100, &[])?)?;
    journals.push(MemorySink::new(alloc, 100, &[])?)?;
    let mut notes = MemorySink::new(alloc, 1000, &[])?;
    let mut clock = MemoryClock::new(ticks);
    let served = run_serve(
        rt,
        alloc,
        &words,
        &mut links,
        &mut reply,
        &mut microphone,
        &mut speaker,
        &mut journals,
        &mut notes,
        &mut clock,
    );
    let (player, filer) = match &served.end {
        Some(end) if end.filers.len() == 1 => (Some(end.player), Some(end.filers.get(0).0)),
        _ => (None, None),
    };
    Ok(Came {
        status: served.status,
        player,
        filer,
        heard: speaker.octets().len(),
        is_silent: speaker.octets().iter().all(|octet| *octet == 0),
        sent: reply.sent_count(),
        is_packet: is_first_packet(&reply),
        played: journals[0].octets() == played,
        filed: journals[1].octets() == b"GSMGFJ01\x01\x06\x00\x03\x00\xFF".as_slice(),
        noted: notes.octets() == noted.as_bytes(),
    })
}

#[test]
fn a_line_with_nothing_to_file_plays_silence(rt: HostRuntime) -> Result<(), Fail> {
    let came = comes_to(
        &rt,
        rt.alloc(),
        LINE,
        2,
        &[],
        b"GSMGPJ01\x01\x06\x00\x03\x10\x10\xFF",
        "ticks 0 frames 0 erasures 0 idle 2
link 0 datagrams 0 accepted 0 duplicate 0 late 0 beyond 0 refused 0 stranger 0 rtcp 0 empty 0
",
    )?;
    assert_eq!(rt;
        came,
        Came {
            status: Status::Done,
            player: Some(PlayerEnd::Ended),
            filer: Some(FilerEnd::Ended),
            heard: 640,
            is_silent: true,
            sent: 1,
            is_packet: true,
            played: true,
            filed: true,
            noted: true
        }
    );
    Ok(())
}

#[test]
fn a_speaker_that_fails_ends_the_player_alone(rt: HostRuntime) -> Result<(), Fail> {
    let came = comes_to(
        &rt,
        rt.alloc(),
        LINE,
        3,
        &[(2, 7)],
        b"GSMGPJ01\x01\x06\x00\x03\x10\x10\xFF",
        "ticks 0 frames 0 erasures 0 idle 3
link 0 datagrams 0 accepted 0 duplicate 0 late 0 beyond 0 refused 0 stranger 0 rtcp 0 empty 0
",
    )?;
    assert_eq!(rt; came.status, Status::WriteFault);
    assert_eq!(rt; came.player, Some(PlayerEnd::SpeakerFault));
    assert_eq!(rt; came.filer, Some(FilerEnd::Ended));
    assert_eq!(rt; came.heard, 647);
    assert!(rt; came.played && came.filed && came.noted);
    Ok(())
}

// A number out of its range, another command, and more links than are there.
const OTHERS: [&str; 3] = [
    "serve --ring 11 --reply 127.0.0.1:9000 --speaker s --microphone m --journals j 127.0.0.1:9001",
    "simulate a b",
    "serve --reply 127.0.0.1:9000 --speaker s --microphone m --journals j 127.0.0.1:9001 127.0.0.1:9002",
];

#[test]
fn words_of_no_such_line_are_refused(rt: HostRuntime) -> Result<(), Fail> {
    for line in OTHERS {
        let came = comes_to(&rt, rt.alloc(), line, 2, &[], b"", "usage\n")?;
        assert_eq!(rt; came.status, Status::Usage);
        assert_eq!(rt; came.player, None);
        assert_eq!(rt; came.heard, 0);
        assert!(rt; came.noted);
    }
    Ok(())
}
