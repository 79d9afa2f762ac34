// One caller alone, over a filer that takes its time and a player that does not.
use crate::caller::{Filer, Player, START};
use crate::measure;
use crate::measure::{Load, Measured};
use frame_codec::{Frame33, frame_of};
use playout::FileReply;
use std::sync::atomic::{AtomicU64, Ordering};
use std::time::{Clock, Instant};

// How often the filer adds for one frame: a millisecond or so.
const ADDS: u32 = 200_000;

#[derive(Drop)]
struct SlowFiler {
    sum: AtomicU64,
}

impl Filer for SlowFiler {
    fn file(&mut self, number: u64, _frame: &Frame33) -> FileReply {
        for _ in 0..ADDS {
            self.sum.fetch_add(1, Ordering::SeqCst);
        }
        if number % 2 == 0 {
            FileReply::Accepted
        } else {
            FileReply::Duplicate
        }
    }
}

#[derive(Drop)]
struct QuickPlayer {
    position: u64,
}

impl Player for QuickPlayer {
    fn position(&self) -> u64 {
        self.position
    }

    fn tick(&mut self) -> bool {
        self.position = self.position.saturating_add(1);
        self.position % 4 == 0
    }
}

fn measure_slow_filer<R: Clock>(rt: &R, zero: Instant, frame: &Frame33) -> Measured {
    let mut filer = SlowFiler {
        sum: AtomicU64::new(0),
    };
    let mut player = QuickPlayer { position: START };
    let load = Load {
        turns: 2,
        numbers: 0,
    };
    measure::alone(rt, zero, &mut filer, &mut player, frame, load)
}

#[test]
fn costs_and_counts_are_of_the_calls_that_they_name(rt: HostRuntime) {
    let Ok(zero) = Instant::now(&rt) else {
        panic!(rt; "the clock cannot be read");
    };
    let Ok(frame) = frame_of(&[0xD0; 33]) else {
        panic!(rt; "no frame");
    };
    let of = measure_slow_filer(&rt, zero, &frame);
    assert!(rt; of.costs.file > of.costs.tick);
    assert_eq!(rt; of.costs.tries, 100);
    assert_eq!(rt; of.counts.accepted, 32);
    assert_eq!(rt; of.counts.played, 16);
    assert_eq!(rt; of.counts.next, START + 64);
    assert_eq!(rt; of.counts.at_once, 1);
}
