use super::*;
use std::alloc::Global;
use std::test::Fail;

// Takes an octet at a time until a call fails or the end comes.
fn drained<I: Source>(source: &mut I, octets: &mut [u8; 8]) -> (usize, bool) {
    for i in 0..8 {
        let mut piece = [0; 1];
        match source.take(&mut piece) {
            Ok(0) => return (i, true),
            Ok(_) => octets[i] = piece[0],
            Err(Failed) => return (i, false),
        }
    }
    (8, false)
}

#[test]
fn a_source_gives_its_octets_and_fails_where_it_is_told(rt: HostRuntime) -> Result<(), Fail> {
    let mut source = MemorySource::new(rt.alloc(), b"abc", 1, &[2])?;
    let mut octets = [0; 8];
    assert_eq!(rt; drained(&mut source, &mut octets), (2, false));
    assert_eq!(rt; octets[..2], *b"ab".as_slice());
    assert_eq!(rt; drained(&mut source, &mut octets), (1, true));
    assert_eq!(rt; octets[0], b'c');
    Ok(())
}

#[test]
fn a_piece_is_filled_from_short_takes(rt: HostRuntime) -> Result<(), Fail> {
    let mut source = MemorySource::new(rt.alloc(), b"abcdefg", 3, &[])?;
    let mut piece = [0; 5];
    assert_eq!(rt; fill(&mut source, &mut piece), Ok(5));
    assert_eq!(rt; &piece, b"abcde");
    assert_eq!(rt; fill(&mut source, &mut piece), Ok(2));
    assert_eq!(rt; piece[..2], *b"fg".as_slice());
    assert_eq!(rt; fill(&mut source, &mut piece), Ok(0));
    let mut failing = MemorySource::new(rt.alloc(), b"abcdefg", 3, &[1])?;
    assert_eq!(rt; fill(&mut failing, &mut piece), Err(Failed));
    Ok(())
}

#[test]
fn a_sink_keeps_what_fits_and_fails_where_it_is_told(rt: HostRuntime) -> Result<(), Fail> {
    let mut sink = MemorySink::new(rt.alloc(), 6, &[(1, 1), (1, 9)])?;
    assert_eq!(rt; sink.give(b"ab"), Ok(()));
    assert_eq!(rt; sink.give(b"cd"), Err(Failed));
    assert_eq!(rt; sink.give(b"ef"), Ok(()));
    assert_eq!(rt; sink.give(b"gh"), Err(Failed));
    assert_eq!(rt; sink.octets(), b"abcefg".as_slice());
    Ok(())
}

fn octets(alloc: Global, count: usize, value: u8) -> Result<Octets, OutOfMemory> {
    let mut octets = Vec::with_capacity(alloc, count)?;
    for _ in 0..count {
        octets.push(value)?;
    }
    Ok(Octets::of(octets))
}

#[test]
fn a_link_answers_its_script_and_fails_where_it_is_told(rt: HostRuntime) -> Result<(), Fail> {
    let mut script = Vec::new(rt.alloc());
    script.push(LinkEntry::Datagram(octets(rt.alloc(), 3, 7)?, 4294967295))?;
    script.push(LinkEntry::Idle)?;
    script.push(LinkEntry::Fail)?;
    script.push(LinkEntry::Datagram(octets(rt.alloc(), 2049, 9)?, 5))?;
    let mut link = MemoryLink::new(rt.alloc(), script, &[], 0)?;
    let mut piece = [0; 2048];
    let first = Received::Datagram {
        len: 3,
        at: 4294967295,
    };
    assert_eq!(rt; link.receive(&mut piece), Ok(first));
    assert_eq!(rt; piece[..3], *b"\x07\x07\x07".as_slice());
    assert_eq!(rt; link.receive(&mut piece), Ok(Received::Idle));
    assert_eq!(rt; link.receive(&mut piece), Err(Failed));
    let cut = Received::Datagram { len: 2048, at: 5 };
    assert_eq!(rt; link.receive(&mut piece), Ok(cut));
    assert_eq!(rt; piece[2047], 9);
    assert_eq!(rt; link.receive(&mut piece), Ok(Received::Ended));
    assert_eq!(rt; link.receive(&mut piece), Ok(Received::Ended));
    Ok(())
}

#[test]
fn a_link_keeps_what_it_sends_where_there_is_room(rt: HostRuntime) -> Result<(), Fail> {
    let script = Vec::new(rt.alloc());
    let mut link = MemoryLink::new(rt.alloc(), script, &[1], 2)?;
    let long = [1; 2049];
    assert_eq!(rt; link.send(b"ab"), Ok(()));
    assert_eq!(rt; link.send(b"cd"), Err(Failed));
    assert_eq!(rt; link.send(&long), Err(Failed));
    assert_eq!(rt; link.sent_count(), 1);
    assert_eq!(rt; link.send(&long[..2048]), Ok(()));
    assert_eq!(rt; link.send(b"ef"), Err(Failed));
    assert_eq!(rt; link.sent_count(), 2);
    assert_eq!(rt; link.sent(0), b"ab".as_slice());
    assert_eq!(rt; link.sent(1).len(), 2048);
    Ok(())
}

#[test]
fn a_clock_gives_its_ticks(rt: HostRuntime) {
    let mut clock = MemoryClock::new(2);
    assert_eq!(rt; clock.wait(), TickNext::Tick);
    assert_eq!(rt; clock.wait(), TickNext::Tick);
    assert_eq!(rt; clock.wait(), TickNext::Ended);
    assert_eq!(rt; clock.wait(), TickNext::Ended);
}
