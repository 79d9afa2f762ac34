// Whether the callers of a line run at once: a link and a clock that wait for each other. A body that makes their calls on one
// thread fails one of these tests, in whatever order it makes them.
use crate::serve::run_serve;
use crate::serve_tests::{LINE, words};
use gate_io::{Failed, Link, MemorySink, MemorySource, Received, TickClock, TickNext};
use gate_notes::Status;
use std::alloc::Global;
use std::sync::Wait;
use std::sync::atomic::{AtomicU64, Ordering};
use std::test::Fail;
use std::thread;
use std::thread::Threads;

// So often one looks for the other.
const LOOKS: u64 = 10_000_000;

// How far the link and the clock have come.
#[derive(Drop)]
struct Flags {
    link: AtomicU64,
    clock: AtomicU64,
}

impl Flags {
    fn new() -> Flags {
        Flags {
            link: AtomicU64::new(0),
            clock: AtomicU64::new(0),
        }
    }
}

fn is_raised(flag: &AtomicU64) -> bool {
    flag.load(Ordering::SeqCst) != 0
}

fn raise(flag: &AtomicU64) {
    flag.store(1, Ordering::SeqCst);
}

// Looks for a flag, yielding between looks. Answers whether it was raised in time.
fn sees(flag: &AtomicU64) -> bool {
    for _ in 0..LOOKS {
        if is_raised(flag) {
            return true;
        }
        thread::yield_now();
    }
    false
}

// A packet of the source 0x12345678 with one frame.
fn put_packet(sequence: u8, into: &mut [u8; 2048]) {
    let head = [0x80, 3, 0, sequence, 0, 0, 3, 0xE8, 0x12, 0x34, 0x56, 0x78];
    into[..12].copy_from_slice(&head);
    into[12] = 0xD8;
}

const PACKET: Received = Received::Datagram { len: 45, at: 0 };

// A link whose second datagram comes once the clock has given a tick. It looks so often at most.
#[derive(Drop)]
struct GatedLink<'a> {
    flags: &'a Flags,
    given: u8,
    looks: u64,
    ended: bool,
}

impl<'a> Link for GatedLink<'a> {
    ghost use Rattle.std.specs.Prelude.{None};

    ghost log = { λ s. None };

    ghost ended = { λ s. s.ended };

    ghost faults = { λ s. 0 };

    fn receive(&mut self, into: &mut [u8; 2048]) -> Result<Received, Failed> {
        if self.given >= 2 || self.looks == 0 {
            self.ended = true;
            return Ok(Received::Ended);
        }
        if self.given == 1 && !is_raised(&self.flags.clock) {
            self.looks -= 1;
            thread::yield_now();
            return Ok(Received::Idle);
        }
        self.given += 1;
        put_packet(self.given, into);
        if self.given == 2 {
            raise(&self.flags.link);
        }
        Ok(PACKET)
    }

    fn send(&mut self, _from: &[u8]) -> Result<(), Failed> {
        Ok(())
    }
}

// A clock of two ticks, the second of which waits for the link: at its second datagram, or at its second receive.
#[derive(Drop)]
struct WaitingClock<'a> {
    flags: &'a Flags,
    given: u8,
    saw: bool,
    ended: bool,
}

impl<'a> TickClock for WaitingClock<'a> {
    ghost ticks = { λ s. s.given };

    ghost ended = { λ s. s.ended };

    fn wait(&mut self) -> TickNext {
        if self.given >= 2 {
            self.ended = true;
            return TickNext::Ended;
        }
        if self.given == 1 {
            raise(&self.flags.clock);
            self.saw = sees(&self.flags.link);
        }
        self.given += 1;
        TickNext::Tick
    }
}

// A link whose second receive waits for the second wait of the clock.
#[derive(Drop)]
struct MeetingLink<'a> {
    flags: &'a Flags,
    receives: u8,
    saw: bool,
    ended: bool,
}

impl<'a> Link for MeetingLink<'a> {
    ghost use Rattle.std.specs.Prelude.{None};

    ghost log = { λ s. None };

    ghost ended = { λ s. s.ended };

    ghost faults = { λ s. 0 };

    fn receive(&mut self, _into: &mut [u8; 2048]) -> Result<Received, Failed> {
        if self.receives >= 2 {
            self.ended = true;
            return Ok(Received::Ended);
        }
        if self.receives == 1 {
            raise(&self.flags.link);
            self.saw = sees(&self.flags.clock);
        }
        self.receives += 1;
        Ok(Received::Idle)
    }

    fn send(&mut self, _from: &[u8]) -> Result<(), Failed> {
        Ok(())
    }
}

// Runs a line of one link beside a clock that waits for it. Answers the status, and whether the clock saw the link.
fn runs<R: Threads + Wait + Sync, P: Link + Send>(
    rt: &R,
    alloc: Global,
    flags: &Flags,
    links: &mut Vec<P>,
    reply: &mut P,
) -> Result<(Status, bool), Fail> {
    let words = words(alloc, LINE)?;
    let mut microphone = MemorySource::new(alloc, &[], 320, &[])?;
    let mut speaker = MemorySink::new(alloc, 2000, &[])?;
    let mut journals = Vec::new(alloc);
    journals.push(MemorySink::new(alloc, 1000, &[])?)?;
    journals.push(MemorySink::new(alloc, 1000, &[])?)?;
    let mut notes = MemorySink::new(alloc, 1000, &[])?;
    let mut clock = WaitingClock {
        flags,
        given: 0,
        saw: false,
        ended: false,
    };
    let served = run_serve(
        rt,
        alloc,
        &words,
        links,
        reply,
        &mut microphone,
        &mut speaker,
        &mut journals,
        &mut notes,
        &mut clock,
    );
    Ok((served.status, clock.saw))
}

fn gated(flags: &Flags) -> GatedLink<'_> {
    GatedLink {
        flags,
        given: 0,
        looks: LOOKS,
        ended: false,
    }
}

#[test]
fn a_datagram_waits_for_a_tick_and_a_tick_for_a_datagram(rt: HostRuntime) -> Result<(), Fail> {
    let flags = Flags::new();
    let mut links = Vec::new(rt.alloc());
    links.push(gated(&flags))?;
    let (status, saw) = runs(&rt, rt.alloc(), &flags, &mut links, &mut gated(&flags))?;
    assert_eq!(rt; status, Status::Done);
    assert!(rt; saw);
    let Some(link) = links.pop() else {
        return Err(Fail::from("no link"));
    };
    assert_eq!(rt; link.given, 2);
    Ok(())
}

fn meeting(flags: &Flags) -> MeetingLink<'_> {
    MeetingLink {
        flags,
        receives: 0,
        saw: false,
        ended: false,
    }
}

#[test]
fn a_receive_and_a_wait_meet(rt: HostRuntime) -> Result<(), Fail> {
    let flags = Flags::new();
    let mut links = Vec::new(rt.alloc());
    links.push(meeting(&flags))?;
    let (status, saw) = runs(&rt, rt.alloc(), &flags, &mut links, &mut meeting(&flags))?;
    assert_eq!(rt; status, Status::Done);
    let Some(link) = links.pop() else {
        return Err(Fail::from("no link"));
    };
    assert!(rt; saw && link.saw);
    Ok(())
}
