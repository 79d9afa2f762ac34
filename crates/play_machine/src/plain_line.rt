// A line as a plain list, and all short sequences of events on it and on the ring.
use super::*;
use frame_codec::{Frame33, Item, frame_of};
use std::alloc::Global;
use std::test::Fail;

const START: u64 = 4294967296;

// 160 coded zeros.
const Z: [u8; 33] = [
    0xD8, 0x20, 0xA2, 0xE1, 0x5A, 0x50, 0x00, 0x49, 0x24, 0x92, 0x49, 0x24, 0x50, 0x00, 0x49, 0x24,
    0x92, 0x49, 0x24, 0x50, 0x00, 0x49, 0x24, 0x92, 0x49, 0x24, 0x50, 0x00, 0x49, 0x24, 0x92, 0x49,
    0x24,
];

// The silence frame.
const W: [u8; 33] = [
    0xDA, 0xA7, 0xAA, 0xA5, 0x1A, 0x50, 0x00, 0x47, 0x1C, 0x71, 0xC7, 0x1C, 0x50, 0x00, 0x47, 0x1C,
    0x71, 0xC7, 0x1C, 0x50, 0x00, 0x47, 0x1C, 0x71, 0xC7, 0x1C, 0x50, 0x00, 0x47, 0x1C, 0x71, 0xC7,
    0x1C,
];

// The kinds of event, of which those below FILES are the player's. The others file under one of two numbers.
const KINDS: u32 = 6;

const FILES: u32 = 4;

// Two slots, and numbers that count from 0: whether a frame waits under each, and the next one to take. All frames
// of even numbers are the same, and those of odd numbers. With the calls of both callers so far.
#[derive(Drop)]
struct PlainLine {
    waits: Vec<bool>,
    next: u64,
    even: Frame33,
    odd: Frame33,
    played: Vec<Call>,
    filed: Vec<Call>,
}

impl PlainLine {
    fn frame(&self, number: u64) -> Frame33 {
        if number % 2 == 0 { self.even } else { self.odd }
    }

    fn keep(&mut self, kind: u32, call: Call) -> bool {
        if kind < FILES {
            self.played.extend_from_slice(&[call]).is_ok()
        } else {
            self.filed.extend_from_slice(&[call]).is_ok()
        }
    }

    fn waits(&self, number: u64) -> bool {
        match self.waits.get(number as usize) {
            Some(waits) => *waits,
            None => false,
        }
    }

    fn put(&mut self, number: u64, waits: bool) {
        let at = number as usize;
        if at < self.waits.len() {
            self.waits[at] = waits;
        }
    }

    fn file(&mut self, number: u64) -> FileReply {
        let last = self.next.wrapping_add(1);
        let like = if self.next % 2 == number % 2 {
            self.next
        } else {
            last
        };
        let ahead = START.wrapping_add(like);
        if number < self.next {
            return FileReply::Late { ahead };
        }
        if number > last {
            return FileReply::Beyond { ahead };
        }
        if self.waits(number) {
            return FileReply::Duplicate;
        }
        self.put(number, true);
        FileReply::Accepted
    }

    fn take(&mut self) -> Item {
        let number = self.next;
        let waits = self.waits(number);
        self.put(number, false);
        self.next = number.wrapping_add(1);
        if waits {
            Item::Frame(self.frame(number))
        } else {
            Item::Erasure
        }
    }

    // What happens, and the call with its reply.
    fn event(&mut self, kind: u32) -> (CoreEvent, Call) {
        match kind {
            0 => (
                CoreEvent::Tick { seat: 0 },
                Call::TickCall { item: self.take() },
            ),
            1 => (
                CoreEvent::Retire { seat: 0 },
                Call::RetireCall { item: self.take() },
            ),
            2 => (
                CoreEvent::Hold { seat: 0 },
                Call::HoldCall {
                    held: !self.waits(self.next),
                },
            ),
            3 => self.look(1),
            4 => self.filing(1),
            _ => self.filing(2),
        }
    }

    fn look(&mut self, ahead: u32) -> (CoreEvent, Call) {
        let filled = self.waits(self.next.wrapping_add(u64::from(ahead)));
        (
            CoreEvent::Look { seat: 0, ahead },
            Call::LookCall { ahead, filled },
        )
    }

    fn filing(&mut self, at: u64) -> (CoreEvent, Call) {
        let number = START.wrapping_add(at);
        let frame = self.frame(at);
        let reply = self.file(at);
        (
            CoreEvent::Load {
                seat: 1,
                number,
                frame,
            },
            Call::FileCall {
                number,
                frame,
                reply,
            },
        )
    }
}

fn happens(alloc: Global, state: &mut CoreState, event: CoreEvent) -> bool {
    state
        .happens(alloc, Shape { filers: 1, g: 1 }, &event)
        .is_ok()
}

// The ring with the player at seat 0 and a filer at seat 1.
fn opened(alloc: Global) -> Option<CoreState> {
    let mut state = CoreState::opening(alloc, Shape { filers: 1, g: 1 }).ok()?;
    let split = happens(alloc, &mut state, CoreEvent::Split { seat: 0, right: 0 });
    let filer = happens(alloc, &mut state, CoreEvent::Enlist { seat: 1, berth: 0 });
    let player = happens(alloc, &mut state, CoreEvent::Enlist { seat: 0, berth: 1 });
    if split && filer && player {
        Some(state)
    } else {
        None
    }
}

// Before any call.
fn plain(alloc: Global, even: Frame33, odd: Frame33) -> Option<PlainLine> {
    let waits = Vec::from_elem(alloc, false, 8).ok()?;
    Some(PlainLine {
        waits,
        next: 0,
        even,
        odd,
        played: Vec::new(alloc),
        filed: Vec::new(alloc),
    })
}

// Takes one event on both.
fn goes_on(alloc: Global, state: &mut CoreState, line: &mut PlainLine, kind: u32) -> bool {
    let (event, call) = line.event(kind);
    let first = happens(alloc, state, event);
    let second = kind < FILES || happens(alloc, state, CoreEvent::Publish { seat: 1 });
    first && second && line.keep(kind, call)
}

// Takes the six events that a number spells.
fn go_all(alloc: Global, state: &mut CoreState, line: &mut PlainLine, code: u32) -> bool {
    let mut rest = code;
    for _ in 0..6 {
        if !goes_on(alloc, state, line, rest % KINDS) {
            return false;
        }
        rest /= KINDS;
    }
    true
}

// Whether the callers' lists on the ring are then those of the plain line.
fn agrees(alloc: Global, code: u32, even: Frame33, odd: Frame33) -> Option<bool> {
    let mut state = opened(alloc)?;
    let mut line = plain(alloc, even, odd)?;
    let went = go_all(alloc, &mut state, &mut line, code);
    let filed = state.calls(0) == line.filed.as_slice();
    let played = state.calls(1) == line.played.as_slice();
    Some(went && filed && played)
}

// How many of the sequences with a number below this one agree.
fn agreeing(alloc: Global, codes: u32, even: Frame33, odd: Frame33) -> u32 {
    let mut count: u32 = 0;
    for code in 0..codes {
        if let Some(true) = agrees(alloc, code, even, odd) {
            count = count.wrapping_add(1);
        }
    }
    count
}

#[test]
fn all_sequences_of_six_events_agree(rt: HostRuntime) -> Result<(), Fail> {
    let (even, odd) = (frame_of(&Z)?, frame_of(&W)?);
    assert!(rt; agreeing(rt.alloc(), 46656, even, odd) == 46656);
    Ok(())
}
