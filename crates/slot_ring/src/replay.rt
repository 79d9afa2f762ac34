// A plain program that finds one history of the calls of four filers and a player.
use super::tests::START;
use super::*;
use frame_codec::{Frame33, Item};
use playout::{Call, FileReply};
use std::alloc::Global;

// How often a filer tries a number.
pub(crate) const TRIES: u64 = 8;

// The replies of each of four filers, and the player's calls.
#[derive(Drop)]
pub(crate) struct Answers {
    pub(crate) a: Vec<FileReply>,
    pub(crate) b: Vec<FileReply>,
    pub(crate) c: Vec<FileReply>,
    pub(crate) d: Vec<FileReply>,
    pub(crate) calls: Vec<Call>,
}

// What stands behind the replies: the number that the next tick or retire takes, the filers whose frames wait, and the numbers at which
// the player finds no frame, with how many of these are past.
#[derive(Drop)]
struct Replay {
    position: u64,
    waiting: Vec<(u64, u32)>,
    missing: Vec<u64>,
    past: usize,
}

// The numbers at which the player's looks and holds find no frame, in their order.
fn missing_in(alloc: Global, calls: &[Call]) -> Result<Vec<u64>, OutOfMemory> {
    let mut position = START;
    let mut missing = Vec::new(alloc);
    for call in calls {
        match call {
            Call::LookCall {
                ahead,
                filled: false,
            } => missing.push(position.saturating_add(*ahead as u64))?,
            Call::HoldCall { held: true } => missing.push(position)?,
            Call::TickCall { item: _ } => position = position.saturating_add(1),
            Call::RetireCall { item: _ } => position = position.saturating_add(1),
            _ => {}
        }
    }
    Ok(missing)
}

impl Replay {
    fn filer_at(&self, number: u64) -> Option<u32> {
        for pair in &self.waiting {
            if pair.0 == number {
                return Some(pair.1);
            }
        }
        None
    }

    fn is_ahead(&self, number: u64, ahead: u64) -> bool {
        ahead >= self.position && ahead < self.position.saturating_add(4) && ahead % 4 == number % 4
    }

    // Whether the player still is to find no frame there.
    fn is_missing(&self, number: u64) -> bool {
        for i in self.past..self.missing.len() {
            if self.missing[i] == number {
                return true;
            }
        }
        false
    }

    // Whether the reply may be given now.
    fn agrees(&self, number: u64, reply: FileReply) -> bool {
        let end = self.position.saturating_add(4);
        let within = number >= self.position && number < end;
        match reply {
            FileReply::Accepted => {
                within && self.filer_at(number).is_none() && !self.is_missing(number)
            }
            FileReply::Duplicate => within && self.filer_at(number).is_some(),
            FileReply::Late { ahead } => number < self.position && self.is_ahead(number, ahead),
            FileReply::Beyond { ahead } => number >= end && self.is_ahead(number, ahead),
        }
    }

    // Takes the replies of one filer, from this one on, as far as they may be given now.
    fn take(&mut self, who: u32, replies: &[FileReply], from: usize) -> Result<usize, OutOfMemory> {
        for i in from..replies.len() {
            if !self.agrees(START + i as u64 / TRIES, replies[i]) {
                return Ok(i);
            }
            if replies[i] == FileReply::Accepted {
                self.waiting.push((START + i as u64 / TRIES, who))?;
            }
        }
        Ok(replies.len())
    }

    // Takes what may be given before the player's next call. A reply may wait for another filer's; the window has four numbers, so a few
    // rounds take all.
    fn take_all(
        &mut self,
        answers: &Answers,
        mut taken: [usize; 4],
    ) -> Result<[usize; 4], OutOfMemory> {
        for _ in 0..8 {
            taken[0] = self.take(0, answers.a.as_slice(), taken[0])?;
            taken[1] = self.take(1, answers.b.as_slice(), taken[1])?;
            taken[2] = self.take(2, answers.c.as_slice(), taken[2])?;
            taken[3] = self.take(3, answers.d.as_slice(), taken[3])?;
        }
        Ok(taken)
    }

    // Goes on by one number, where the item is what waits.
    fn goes_on(&mut self, item: Item, frames: &[Frame33]) -> bool {
        let right = match self.filer_at(self.position) {
            Some(who) => match frames.get(who as usize) {
                Some(frame) => item == Item::Frame(*frame),
                None => false,
            },
            None => item == Item::Erasure,
        };
        let number = self.position;
        self.waiting.retain(|pair| pair.0 != number);
        self.position = number.saturating_add(1);
        right
    }

    // Whether a frame waits as the player found it.
    fn shows(&mut self, number: u64, filled: bool) -> bool {
        if !filled {
            self.past = self.past.saturating_add(1);
        }
        self.filer_at(number).is_some() == filled
    }

    // Takes the player's next call, where its answer may be given now.
    fn play(&mut self, call: &Call, frames: &[Frame33]) -> bool {
        match call {
            Call::LookCall { ahead, filled } => {
                self.shows(self.position.saturating_add(*ahead as u64), *filled)
            }
            Call::HoldCall { held } => self.shows(self.position, !*held),
            Call::TickCall { item } => self.goes_on(*item, frames),
            Call::RetireCall { item } => self.goes_on(*item, frames),
            _ => false,
        }
    }

    // Whether there is one history of all calls, in which each reply is given as early as it may be.
    fn takes_the_calls(
        &mut self,
        answers: &Answers,
        frames: &[Frame33],
    ) -> Result<bool, OutOfMemory> {
        let mut taken = self.take_all(answers, [0; 4])?;
        for call in &answers.calls {
            if !self.play(call, frames) {
                return Ok(false);
            }
            taken = self.take_all(answers, taken)?;
        }
        Ok(
            taken
                == [
                    answers.a.len(),
                    answers.b.len(),
                    answers.c.len(),
                    answers.d.len(),
                ],
        )
    }

    // Whether what is left is what waits, in rising number.
    fn leaves(&self, left: &Left, frames: &[Frame33]) -> bool {
        let mut last = 0;
        for i in 0..left.len() {
            let Some((number, frame)) = left.get(i) else {
                return false;
            };
            let there = match self.filer_at(number) {
                Some(who) => frames.get(who as usize) == Some(&frame),
                None => false,
            };
            if !there || number <= last {
                return false;
            }
            last = number;
        }
        left.len() == self.waiting.len()
    }
}

// Whether one history has these answers and leaves these frames. Each filer files a frame of its own.
pub(crate) fn has_history(
    alloc: Global,
    answers: &Answers,
    left: &Left,
    frames: &[Frame33],
) -> Result<bool, OutOfMemory> {
    let mut replay = Replay {
        position: START,
        waiting: Vec::new(alloc),
        missing: missing_in(alloc, answers.calls.as_slice())?,
        past: 0,
    };
    if !replay.takes_the_calls(answers, frames)? {
        return Ok(false);
    }
    Ok(replay.leaves(left, frames))
}
