// Links and a clock in step: a tick comes only once each link has given all that came before it. So what a line plays is known,
// though its threads run as they like.

use byteorder::{BigEndian, ByteOrder};
use gate_io::{Failed, Link, Received, TickClock, TickNext};
use std::sync::atomic::{AtomicU64, Ordering};
use std::thread;

/// How many ticks the clock gives.
pub const TICKS: u64 = 80;

// So often the clock looks for the links.
const LOOKS: u64 = 10_000_000;

/// How many ticks have begun, and how often a link said that it had nothing more for the last of them.
#[derive(Drop)]
pub struct Pace {
    begun: AtomicU64,
    done: AtomicU64,
}

impl Pace {
    pub fn new() -> Pace {
        Pace {
            begun: AtomicU64::new(0),
            done: AtomicU64::new(0),
        }
    }

    // Waits until the links have said so often that they have nothing more, yielding between looks.
    fn wait(&self, count: u64) {
        for _ in 0..LOOKS {
            if self.done.load(Ordering::SeqCst) >= count {
                return;
            }
            thread::yield_now();
        }
    }
}

/// A packet of one frame: its place in the call, and the tick before which it comes.
#[derive(Clone, Copy)]
pub struct Sent {
    pub place: u16,
    pub due: u64,
}

// Writes an RTP packet of payload type 3, whose frame tells its place.
fn write_packet(place: u16, into: &mut [u8; 2048]) {
    let stamp = 1000 + 160 * place as u32;
    let mut octets = [0; 45];
    octets[0] = 0x80;
    octets[1] = 3;
    BigEndian::write_u16(&mut octets[2..4], place);
    BigEndian::write_u32(&mut octets[4..8], stamp);
    octets[11] = 7;
    octets[12] = 0xD0;
    BigEndian::write_u16(&mut octets[20..22], place);
    into[..45].copy_from_slice(&octets);
}

/// A link that gives its packets in their order, each as soon as its tick has begun.
#[derive(Drop)]
pub struct PacedLink<'a> {
    pace: &'a Pace,
    sent: Vec<Sent>,
    next: usize,
    seen: u64,
    ended: bool,
}

impl<'a> PacedLink<'a> {
    pub fn new(pace: &'a Pace, sent: Vec<Sent>) -> PacedLink<'a> {
        PacedLink {
            pace,
            sent,
            next: 0,
            seen: 0,
            ended: false,
        }
    }

    // The next packet, where its tick has begun.
    fn come(&self, begun: u64) -> Option<u16> {
        match self.sent.get(self.next) {
            Some(sent) if sent.due < begun => Some(sent.place),
            _ => None,
        }
    }
}

impl<'a> Link for PacedLink<'a> {
    ghost use Rattle.std.specs.Prelude.{None};

    ghost log = { λ s. None };

    ghost ended = { λ s. s.ended };

    ghost faults = { λ s. 0 };

    fn receive(&mut self, into: &mut [u8; 2048]) -> Result<Received, Failed> {
        let begun = self.pace.begun.load(Ordering::SeqCst);
        if let Some(place) = self.come(begun) {
            write_packet(place, into);
            self.next = self.next.saturating_add(1);
            return Ok(Received::Datagram { len: 45, at: 0 });
        }
        if self.seen < begun {
            self.seen = begun;
            self.pace.done.fetch_add(1, Ordering::SeqCst);
        }
        if begun >= TICKS {
            self.ended = true;
            return Ok(Received::Ended);
        }
        thread::yield_now();
        Ok(Received::Idle)
    }

    fn send(&mut self, _from: &[u8]) -> Result<(), Failed> {
        Ok(())
    }
}

/// A clock whose ticks wait for so many links.
#[derive(Drop)]
pub struct PacedClock<'a> {
    pace: &'a Pace,
    links: u64,
    given: u64,
    ended: bool,
}

impl<'a> PacedClock<'a> {
    pub fn new(pace: &'a Pace, links: u64) -> PacedClock<'a> {
        PacedClock {
            pace,
            links,
            given: 0,
            ended: false,
        }
    }
}

impl<'a> TickClock for PacedClock<'a> {
    ghost ticks = { λ s. s.given };

    ghost ended = { λ s. s.ended };

    fn wait(&mut self) -> TickNext {
        if self.given >= TICKS {
            self.ended = true;
            return TickNext::Ended;
        }
        self.given += 1;
        self.pace.begun.store(self.given, Ordering::SeqCst);
        self.pace.wait(self.links.saturating_mul(self.given));
        TickNext::Tick
    }
}
