// The same loads, exchanges and swaps on words with nothing around them.
use crate::caller::{Filer, Player, SLOTS, START};
use crate::measure;
use crate::measure::{Four, Load, Measured};
use frame_codec::Frame33;
use gate_base::OutOfMemory;
use playout::FileReply;
use std::alloc::Global;
use std::sync::atomic::{AtomicU64, Ordering};
use std::thread::Threads;
use std::time::{Clock, Instant};

// A slot's word is twice the number that it waits for, and one more where a frame was filed.
#[derive(Drop)]
struct Filing<'a> {
    words: &'a Vec<AtomicU64>,
}

#[derive(Drop)]
struct Playing<'a> {
    words: &'a Vec<AtomicU64>,
    position: u64,
}

fn word_of(words: &Vec<AtomicU64>, number: u64) -> Option<&AtomicU64> {
    words.get((number % SLOTS) as usize)
}

impl<'a> Filer for Filing<'a> {
    fn file(&mut self, number: u64, _: &Frame33) -> FileReply {
        let Some(word) = word_of(self.words, number) else {
            return FileReply::Duplicate;
        };
        let seen = word.load(Ordering::SeqCst);
        let ahead = seen / 2;
        if ahead > number {
            return FileReply::Late { ahead };
        }
        if ahead < number {
            return FileReply::Beyond { ahead };
        }
        if seen % 2 == 1 {
            return FileReply::Duplicate;
        }
        match word.compare_exchange(seen, 2 * number + 1, Ordering::SeqCst, Ordering::SeqCst) {
            Ok(_) => FileReply::Accepted,
            Err(_) => FileReply::Duplicate,
        }
    }
}

impl<'a> Player for Playing<'a> {
    fn position(&self) -> u64 {
        self.position
    }

    fn tick(&mut self) -> bool {
        let number = self.position;
        self.position = number.wrapping_add(1);
        let Some(word) = word_of(self.words, number) else {
            return false;
        };
        let next = number.wrapping_add(SLOTS).wrapping_mul(2);
        word.swap(next, Ordering::SeqCst) % 2 == 1
    }
}

fn open(alloc: Global) -> Result<Vec<AtomicU64>, OutOfMemory> {
    let mut words = Vec::with_capacity(alloc, SLOTS as usize)?;
    for i in 0..SLOTS {
        words.push(AtomicU64::new(2 * (START + i)))?;
    }
    Ok(words)
}

pub(crate) fn alone<R: Clock>(
    rt: &R,
    alloc: Global,
    zero: Instant,
    frame: &Frame33,
    load: Load,
) -> Result<Measured, OutOfMemory> {
    let words = open(alloc)?;
    let mut filer = Filing { words: &words };
    let mut player = Playing {
        words: &words,
        position: START,
    };
    Ok(measure::alone(rt, zero, &mut filer, &mut player, frame, load))
}

pub(crate) fn contended<R: Threads + Clock + Sync>(
    rt: &R,
    alloc: Global,
    zero: Instant,
    frame: &Frame33,
    load: Load,
) -> Result<Measured, OutOfMemory> {
    let words = open(alloc)?;
    let mut filers = Four {
        a: Filing { words: &words },
        b: Filing { words: &words },
        c: Filing { words: &words },
        d: Filing { words: &words },
    };
    let mut player = Playing {
        words: &words,
        position: START,
    };
    Ok(measure::contended(rt, zero, &mut filers, &mut player, frame, load))
}
