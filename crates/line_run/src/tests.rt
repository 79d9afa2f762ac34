// Lines over objects in memory.
ghost use Rattle.std.specs.Prelude.{◌≡◌, ◌≤◌, IfOk, length};

use super::*;
use gate_io::{LinkEntry, MemoryClock, MemoryLink, MemorySink, MemorySource, Octets};
use std::alloc::Global;
use std::sync::Wait;
use std::test::Fail;
use std::thread::Threads;

const OPTIONS: LineOptions = LineOptions {
    g: 6,
    delay: 3,
    seed: [0; 32],
    ticks: 15000,
    report: 250,
    own: 1,
    sequence: 0,
    stamp: 0,
    elastic: 0,
};

// The first twelve octets of return speech.
const FIRST: [u8; 12] = [0x80, 3, 0, 0, 0, 0, 0, 0, 0, 0, 0, 1];

fn is_first_packet(octets: &[u8]) -> bool {
    octets.len() == 45 && octets.starts_with(&FIRST)
}

// A link that gives nothing.
fn quiet_link(alloc: Global, room: usize) -> Result<MemoryLink, Fail> {
    Ok(MemoryLink::new(alloc, Vec::new(alloc), &[], room)?)
}

// Two journals with so much room.
fn two_journals(alloc: Global, rooms: (usize, usize)) -> Result<Vec<MemorySink>, Fail>
    ensures { IfOk result (λ v. length v.items ≡ 2) }
{
    let mut journals = Vec::new(alloc);
    journals.push(MemorySink::new(alloc, rooms.0, &[])?)?;
    journals.push(MemorySink::new(alloc, rooms.1, &[])?)?;
    Ok(journals)
}

fn one_link(alloc: Global) -> Result<Vec<MemoryLink>, Fail>
    ensures { IfOk result (λ v. length v.items ≡ 1) }
{
    let mut links = Vec::new(alloc);
    links.push(quiet_link(alloc, 0)?)?;
    Ok(links)
}

// What came of a line of one filer, whose link gives nothing.
#[derive(Clone, Copy)]
struct OneFiler {
    player: PlayerEnd,
    idle: u64,
    filer: FilerEnd,
    left: usize,
}

fn one_filer(end: &LineEnd) -> OneFiler
    requires { 1 ≤ length end.now.filers }
{
    OneFiler {
        player: end.player,
        idle: end.played.idle,
        filer: end.filers.get(0).0,
        left: end.left.len(),
    }
}

// Runs it over so many ticks with 320 octets at the microphone.
fn line_of_one<R: Threads + Wait + Sync>(
    rt: &R,
    alloc: Global,
    ticks: u64,
    reply: &mut MemoryLink,
    speaker: &mut MemorySink,
    journals: &mut Vec<MemorySink>,
) -> Result<OneFiler, Fail>
    requires { length journals.old.items ≡ 2 }
{
    let mut links = one_link(alloc)?;
    let mut microphone = MemorySource::new(alloc, &[0; 320], 320, &[])?;
    let line = open_line(alloc, 1, &OPTIONS)?;
    let mut clock = MemoryClock::new(ticks);
    let end = run_line(
        rt,
        line,
        &mut links,
        reply,
        &mut microphone,
        speaker,
        journals,
        &mut clock,
    );
    Ok(one_filer(&end))
}

// Whether two journals have these texts.
fn has_texts(journals: &[MemorySink], first: &[u8], second: &[u8]) -> bool {
    journals.len() == 2 && *journals[0].octets() == *first && *journals[1].octets() == *second
}

#[test]
fn a_line_without_a_packet_plays_silence(rt: HostRuntime) -> Result<(), Fail> {
    let mut reply = quiet_link(rt.alloc(), 4)?;
    let mut speaker = MemorySink::new(rt.alloc(), 1000, &[])?;
    let mut journals = two_journals(rt.alloc(), (100, 100))?;
    let end = line_of_one(&rt, rt.alloc(), 2, &mut reply, &mut speaker, &mut journals)?;
    assert_eq!(rt;
        (end.player, end.filer),
        (PlayerEnd::Ended, FilerEnd::Ended)
    );
    assert_eq!(rt; (end.idle, end.left), (2, 0));
    assert_eq!(rt; speaker.octets().len(), 640);
    assert!(rt; speaker.octets().starts_with(&[0; 640]));
    assert!(rt; reply.sent_count() == 1 && is_first_packet(reply.sent(0)));
    let text = b"GSMGPJ01\x01\x06\0\x03\x10\x10\xFF";
    assert!(rt; has_texts(&journals, text, b"GSMGFJ01\x01\x06\0\x03\0\xFF"));
    Ok(())
}

#[test]
fn a_speaker_that_fails_ends_the_player_alone(rt: HostRuntime) -> Result<(), Fail> {
    let mut reply = quiet_link(rt.alloc(), 4)?;
    let mut speaker = MemorySink::new(rt.alloc(), 1000, &[(2, 7)])?;
    let mut journals = two_journals(rt.alloc(), (100, 100))?;
    let end = line_of_one(&rt, rt.alloc(), 3, &mut reply, &mut speaker, &mut journals)?;
    assert_eq!(rt;
        (end.player, end.filer),
        (PlayerEnd::SpeakerFault, FilerEnd::Ended)
    );
    assert_eq!(rt;
        (end.left, speaker.octets().len(), reply.sent_count()),
        (0, 647, 1)
    );
    let text = b"GSMGPJ01\x01\x06\0\x03\x10\x10\xFF";
    assert!(rt; has_texts(&journals, text, b"GSMGFJ01\x01\x06\0\x03\0\xFF"));
    Ok(())
}

#[test]
fn a_journal_without_room_for_its_head_ends_its_filer_alone(rt: HostRuntime) -> Result<(), Fail> {
    let mut reply = quiet_link(rt.alloc(), 4)?;
    let mut speaker = MemorySink::new(rt.alloc(), 1000, &[])?;
    let mut journals = two_journals(rt.alloc(), (100, 5))?;
    let end = line_of_one(&rt, rt.alloc(), 2, &mut reply, &mut speaker, &mut journals)?;
    assert_eq!(rt;
        (end.player, end.filer),
        (PlayerEnd::Ended, FilerEnd::JournalFault)
    );
    assert_eq!(rt; speaker.octets().len(), 640);
    let text = b"GSMGPJ01\x01\x06\0\x03\x10\x10\xFF";
    assert!(rt; has_texts(&journals, text, b"GSMGF"));
    Ok(())
}

#[test]
fn a_journal_without_room_for_its_head_ends_the_player_alone(rt: HostRuntime) -> Result<(), Fail> {
    let mut reply = quiet_link(rt.alloc(), 4)?;
    let mut speaker = MemorySink::new(rt.alloc(), 1000, &[])?;
    let mut journals = two_journals(rt.alloc(), (9, 100))?;
    let end = line_of_one(&rt, rt.alloc(), 2, &mut reply, &mut speaker, &mut journals)?;
    assert_eq!(rt;
        (end.player, end.filer),
        (PlayerEnd::JournalFault, FilerEnd::Ended)
    );
    assert_eq!(rt; (speaker.octets().len(), reply.sent_count()), (0, 0));
    let text = b"GSMGPJ01\x01";
    assert!(rt; has_texts(&journals, text, b"GSMGFJ01\x01\x06\0\x03\0\xFF"));
    Ok(())
}

// A link that gives one packet of one frame.
fn link_of_a_packet(alloc: Global) -> Result<MemoryLink, Fail> {
    let mut octets = [0; 45];
    octets[0] = 0x80;
    octets[1] = 3;
    octets[11] = 7;
    octets[12] = 0xD8;
    let mut entries = Vec::new(alloc);
    entries.push(LinkEntry::Datagram(Octets::of(octets.to_vec(alloc)?), 0))?;
    Ok(MemoryLink::new(alloc, entries, &[], 0)?)
}

fn two_links(alloc: Global) -> Result<Vec<MemoryLink>, Fail>
    ensures { IfOk result (λ v. length v.items ≡ 2) }
{
    let mut links = Vec::new(alloc);
    links.push(link_of_a_packet(alloc)?)?;
    links.push(link_of_a_packet(alloc)?)?;
    Ok(links)
}

fn three_journals(alloc: Global) -> Result<Vec<MemorySink>, Fail>
    ensures { IfOk result (λ v. length v.items ≡ 3) }
{
    let mut journals = two_journals(alloc, (100, 100))?;
    journals.push(MemorySink::new(alloc, 100, &[])?)?;
    Ok(journals)
}

// What came of a line of two filers: how many ends there are, what both counted, and how many frames are left, with
// the number of the first.
#[derive(Clone, Copy)]
struct TwoFilers {
    ends: usize,
    one: Tally,
    two: Tally,
    left: usize,
    number: u64,
}

fn two_filers(end: &LineEnd) -> TwoFilers
    requires { 2 ≤ length end.now.filers }
{
    let number = match end.left.get(0) {
        Some((number, _)) => number,
        None => 0,
    };
    TwoFilers {
        ends: end.filers.len(),
        one: end.filers.get(0).1,
        two: end.filers.get(1).1,
        left: end.left.len(),
        number,
    }
}

// Runs it with a packet for each, and a clock that gives no tick.
fn line_of_two<R: Threads + Wait + Sync>(
    rt: &R,
    alloc: Global,
    reply: &mut MemoryLink,
    speaker: &mut MemorySink,
) -> Result<TwoFilers, Fail> {
    let mut links = two_links(alloc)?;
    let mut journals = three_journals(alloc)?;
    let mut microphone = MemorySource::new(alloc, &[], 1, &[])?;
    let line = open_line(alloc, 2, &OPTIONS)?;
    let mut clock = MemoryClock::new(0);
    let end = run_line(
        rt,
        line,
        &mut links,
        reply,
        &mut microphone,
        speaker,
        &mut journals,
        &mut clock,
    );
    Ok(two_filers(&end))
}

#[test]
fn a_frame_that_two_filers_file_is_accepted_once(rt: HostRuntime) -> Result<(), Fail> {
    let mut reply = quiet_link(rt.alloc(), 0)?;
    let mut speaker = MemorySink::new(rt.alloc(), 0, &[])?;
    let end = line_of_two(&rt, rt.alloc(), &mut reply, &mut speaker)?;
    let (one, two) = (end.one, end.two);
    assert!(rt; one.accepted == two.duplicate && two.accepted == one.duplicate);
    assert!(rt; one.accepted != two.accepted && one.datagrams == 1 && two.datagrams == 1);
    assert_eq!(rt; (end.ends, end.left, end.number), (2, 1, (1 << 32) + 3));
    Ok(())
}
