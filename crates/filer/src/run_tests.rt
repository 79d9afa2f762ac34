use super::tests::{Came, came_of};
use super::*;
use gate_io::{LinkEntry, MemoryLink, MemorySink, Octets};
use playout::{MapFiler, MapLine};
use rtcp_stats::RtcpFault;
use std::alloc::Global;
use std::sync::Wait;
use std::test::Fail;

// Sequence number, timestamp and moment of six packets, of which all but the first are valid.
const PACKETS: [(u16, u32, u32); 6] = [
    (65534, 0, 1000),
    (65535, 160, 1160),
    (0, 320, 1330),
    (2, 640, 1640),
    (1, 480, 1650),
    (1, 480, 1660),
];

// The report on these packets: fraction 0, one packet more than expected, highest 65538, jitter 11.
const REPORT: [u8; 52] = [
    0x81, 0xC9, 0, 7, 0, 0, 0, 1, 0x12, 0x34, 0x56, 0x78, 0, 0xFF, 0xFF, 0xFF, 0, 1, 0, 2, 0, 0, 0,
    0x0B, 0, 0, 0, 0, 0, 0, 0, 0, 0x81, 0xCA, 0, 4, 0, 0, 0, 1, 1, 7, b'g', b's', b'm', b'g', b'a',
    b't', b'e', 0, 0, 0,
];

// A packet of one frame from the source 0x12345678.
fn packet(sequence: u16, timestamp: u32) -> [u8; 45] {
    let mut octets = [0; 45];
    octets[0] = 0x80;
    octets[1] = 3;
    octets[2..4].copy_from_slice(&sequence.to_be_bytes());
    octets[4..8].copy_from_slice(&timestamp.to_be_bytes());
    octets[8..12].copy_from_slice(&[0x12, 0x34, 0x56, 0x78]);
    octets[12] = 0xD8;
    octets
}

// The six packets with an idle answer behind each, then a failure where it is asked for.
fn script(alloc: Global, fails: bool) -> Result<Vec<LinkEntry>, Fail> {
    let mut entries = Vec::new(alloc);
    for (sequence, timestamp, at) in PACKETS {
        let octets = Octets::of(packet(sequence, timestamp).to_vec(alloc)?);
        entries.push(LinkEntry::Datagram(octets, at))?;
        entries.push(LinkEntry::Idle)?;
    }
    if fails {
        entries.push(LinkEntry::Fail)?;
    }
    Ok(entries)
}

// The journal of the six packets: both calls, five frames accepted and a duplicate, and the end mark.
fn is_whole(octets: &[u8]) -> bool {
    let front = [
        0x20, 0x12, 0x34, 0x56, 0x78, 0x12, 0x34, 0x56, 0x78, 0x21, 0, 0, 0, 0, 0, 0, 0, 0, 0x22,
        0, 0, 0, 1, 0, 0, 0, 3, 0xD8,
    ];
    octets.len() == 271
        && octets.starts_with(&front)
        && octets[228] == 0x23
        && octets[236] == 6
        && octets[270] == 0xFF
}

// What came of a run over the packets, with a report after five valid ones.
#[derive(Clone, Copy)]
struct RunEnd {
    end: FilerEnd,
    octets: usize,
    is_whole: bool,
    sent: usize,
    is_report: bool,
}

// A link that fails behind the packets where it is asked to, and whose listed sends fail; a journal whose give with this
// number fails.
fn ran<R: Wait>(
    rt: &R,
    alloc: Global,
    fails: bool,
    sends: &[u64],
    give: u64,
) -> Result<RunEnd, Fail> {
    let mut link = MemoryLink::new(alloc, script(alloc, fails)?, sends, 4)?;
    let mut journal = MemorySink::new(alloc, 271, &[(give, 0)])?;
    let mut side = MapFiler::of(MapLine::new(alloc, 1, 6)?, 0);
    Ok(ran_over(rt, &mut side, &mut link, &mut journal))
}

fn ran_over<R: Wait>(
    rt: &R,
    side: &mut MapFiler,
    link: &mut MemoryLink,
    journal: &mut MemorySink,
) -> RunEnd {
    let mut filer = Filer::new(3, 1, 5);
    let end = filer.run(rt, side, link, journal);
    let sent = link.sent_count();
    RunEnd {
        end,
        octets: journal.octets().len(),
        is_whole: is_whole(journal.octets()),
        sent,
        is_report: sent == 1 && link.sent(0).starts_with(&REPORT),
    }
}

#[test]
fn a_run_journals_its_datagrams_and_reports_them(rt: HostRuntime) -> Result<(), Fail> {
    let run = ran(&rt, rt.alloc(), false, &[], 9)?;
    assert_eq!(rt; run.end, FilerEnd::Ended);
    assert!(rt; run.is_whole);
    assert!(rt; run.is_report);
    Ok(())
}

#[test]
fn each_give_to_the_journal_that_fails_ends_the_run(rt: HostRuntime) -> Result<(), Fail> {
    let sizes = [0, 9, 18, 60, 102, 144, 186, 228, 270];
    for k in 0..9 {
        let run = ran(&rt, rt.alloc(), false, &[], k as u64)?;
        assert_eq!(rt; run.end, FilerEnd::JournalFault);
        assert_eq!(rt; run.octets, sizes[k]);
        assert_eq!(rt; run.sent, k / 8);
    }
    Ok(())
}

#[test]
fn a_link_that_fails_ends_the_run_behind_the_end_mark(rt: HostRuntime) -> Result<(), Fail> {
    let failed = ran(&rt, rt.alloc(), true, &[], 9)?;
    assert_eq!(rt; failed.end, FilerEnd::LinkFault);
    assert!(rt; failed.is_whole && failed.is_report);
    let unsent = ran(&rt, rt.alloc(), false, &[0], 9)?;
    assert_eq!(rt; unsent.end, FilerEnd::LinkFault);
    assert!(rt; unsent.is_whole && unsent.sent == 0);
    let unmarked = ran(&rt, rt.alloc(), true, &[], 8)?;
    assert_eq!(rt; unmarked.end, FilerEnd::LinkFault);
    assert_eq!(rt; unmarked.octets, 270);
    Ok(())
}

// An entry of the link behind the others.
fn put(alloc: Global, entries: &mut Vec<LinkEntry>, octets: &[u8]) -> Result<(), Fail> {
    let octets = Octets::of(octets.to_vec(alloc)?);
    entries.push(LinkEntry::Datagram(octets, 0))?;
    Ok(())
}

// A packet of two frames, then one that is a duplicate, one too late and one too far ahead, a packet and a compound that
// are refused, a compound, a packet of another source and one without a frame.
fn every_outcome(alloc: Global) -> Result<Vec<LinkEntry>, Fail> {
    let mut entries = Vec::new(alloc);
    let mut two = packet(1, 0).to_vec(alloc)?;
    two.extend_from_slice(&packet(1, 0)[12..])?;
    put(alloc, &mut entries, &two)?;
    put(alloc, &mut entries, &packet(2, 0))?;
    put(alloc, &mut entries, &packet(3, 0xFFFF_F9C0))?;
    put(alloc, &mut entries, &packet(4, 16000))?;
    put(alloc, &mut entries, &packet(5, 0)[..11])?;
    put(alloc, &mut entries, &[0x80, 0xC9, 0, 1, 0, 0, 0])?;
    put(alloc, &mut entries, &[0x80, 0xC9, 0, 1, 0, 0, 0, 1])?;
    let mut other = packet(6, 0);
    other[8] = 1;
    put(alloc, &mut entries, &other)?;
    put(alloc, &mut entries, &packet(7, 0)[..12])?;
    Ok(entries)
}

// How a run over every outcome ends, and how many octets its journal has, whose give with this number fails.
fn journaled<R: Wait>(rt: &R, alloc: Global, give: u64) -> Result<(FilerEnd, usize), Fail> {
    let mut link = MemoryLink::new(alloc, every_outcome(alloc)?, &[], 4)?;
    let mut journal = MemorySink::new(alloc, 264, &[(give, 0)])?;
    let mut side = MapFiler::of(MapLine::new(alloc, 1, 6)?, 0);
    let ran = ran_over(rt, &mut side, &mut link, &mut journal);
    Ok((ran.end, ran.octets))
}

#[test]
fn each_event_of_a_journal_is_one_give(rt: HostRuntime) -> Result<(), Fail> {
    let sizes = [0, 9, 18, 60, 102, 144, 194, 244, 248, 252, 253, 262, 263];
    for k in 0..13 {
        let (end, octets) = journaled(&rt, rt.alloc(), k as u64)?;
        assert_eq!(rt; end, FilerEnd::JournalFault);
        assert_eq!(rt; octets, sizes[k]);
    }
    let (end, octets) = journaled(&rt, rt.alloc(), 13)?;
    assert_eq!(rt; end, FilerEnd::Ended);
    assert_eq!(rt; octets, 264);
    Ok(())
}

// The first turn of a new filer over these entries; the journal has so much room.
fn turned(alloc: Global, entries: Vec<LinkEntry>, room: usize) -> Result<Turn, Fail> {
    let mut link = MemoryLink::new(alloc, entries, &[], 0)?;
    let mut journal = MemorySink::new(alloc, room, &[])?;
    let mut side = MapFiler::of(MapLine::new(alloc, 1, 6)?, 0);
    Ok(turn_over(&mut side, &mut link, &mut journal))
}

fn turn_over(side: &mut MapFiler, link: &mut MemoryLink, journal: &mut MemorySink) -> Turn {
    let mut filer = Filer::new(3, 1, 5);
    filer.turn(side, link, journal)
}

fn one(alloc: Global, entry: LinkEntry) -> Result<Vec<LinkEntry>, Fail> {
    let mut entries = Vec::new(alloc);
    entries.push(entry)?;
    Ok(entries)
}

#[test]
fn a_turn_is_one_receive(rt: HostRuntime) -> Result<(), Fail> {
    let alloc = rt.alloc();
    assert_eq!(rt; turned(alloc, script(alloc, false)?, 60)?, Turn::Went);
    assert_eq!(rt;
        turned(alloc, script(alloc, false)?, 59)?,
        Turn::JournalFault
    );
    assert_eq!(rt; turned(alloc, one(alloc, LinkEntry::Idle)?, 0)?, Turn::Idle);
    assert_eq!(rt;
        turned(alloc, one(alloc, LinkEntry::Fail)?, 0)?,
        Turn::LinkFault
    );
    assert_eq!(rt; turned(alloc, Vec::new(alloc), 0)?, Turn::Ended);
    Ok(())
}

// How a datagram of at most 64 octets ends at a new filer.
fn end_of(alloc: Global, datagram: &[u8]) -> Result<Came, Fail> {
    let mut side = MapFiler::of(MapLine::new(alloc, 1, 6)?, 0);
    Ok(end_over(&mut side, datagram))
}

fn end_over(side: &mut MapFiler, datagram: &[u8]) -> Came {
    let mut filer = Filer::new(3, 1, 5);
    let mut piece = [0; 64];
    let len = datagram.len().min(64);
    piece[..len].copy_from_slice(&datagram[..len]);
    came_of(&filer.take(side, &piece[..len], 0).end)
}

#[test]
fn compounds_are_read_or_refused(rt: HostRuntime) -> Result<(), Fail> {
    let alloc = rt.alloc();
    assert_eq!(rt; end_of(alloc, &REPORT)?, Came::Rtcp);
    assert_eq!(rt; end_of(alloc, &[0x80, 0xC9, 0, 1, 0, 0, 0, 1])?, Came::Rtcp);
    assert_eq!(rt;
        end_of(alloc, &[0x80, 0xC9, 0, 2, 0, 0, 0, 1])?,
        Came::RtcpRefused(RtcpFault::Cut { at: 0 })
    );
    assert_eq!(rt;
        end_of(alloc, &[0x80, 0xCA, 0, 1, 0, 0, 0, 1])?,
        Came::RtcpRefused(RtcpFault::First)
    );
    assert_eq!(rt;
        end_of(alloc, &[0xA0, 0xC9, 0, 2, 0, 0, 0, 1, 0, 0, 0, 4])?,
        Came::Rtcp
    );
    assert_eq!(rt;
        end_of(alloc, &[0xA0, 0xC9, 0, 2, 0, 0, 0, 1, 0, 0, 0, 3])?,
        Came::RtcpRefused(RtcpFault::Padding { at: 0 })
    );
    assert_eq!(rt;
        end_of(alloc, &[0x81, 0xC9, 0, 1, 0, 0, 0, 1])?,
        Came::RtcpRefused(RtcpFault::Body { at: 0 })
    );
    Ok(())
}
