// What calls take.
ghost use Rattle.std.specs.Prelude.{◌≡◌, ◌+◌, ◌-◌, ◌*◌, ◌/◌, ◌<◌, ◌≤◌, ◌^◌};
ghost use Rattle.std.specs.Thread.{IsSync};
ghost use denote.Param.Send.{IsSend};

use crate::caller::{Filer, Player, SLOTS, START, bounded, following};
use frame_codec::Frame33;
use playout::FileReply;
use std::sync::atomic::{AtomicU64, Ordering};
use std::thread;
use std::thread::{Threads, join_mut};
use std::time::{Clock, Instant};

// No filer calls more often, even beside a player that stands still.
const MOST: u64 = 1000000000;

// The four filers and the player.
const CALLERS: u64 = 5;

// So often each looks for the others before it begins.
const LOOKS: u64 = 10_000_000;

/// How much is called: how often the slots are filled and played where one thread calls, and the numbers that are played where
/// several do.
#[derive(Clone, Copy)]
pub(crate) struct Load {
    pub(crate) turns: u64,
    pub(crate) numbers: u64,
}

/// Nanoseconds of a call, and how often a filer called for 100 numbers.
#[derive(Clone, Copy)]
pub(crate) struct Costs {
    pub(crate) file: u64,
    pub(crate) tries: u64,
    pub(crate) tick: u64,
}

/// How many frames were accepted, and how many played; the number that the next tick plays; and how many callers began at once.
#[derive(Clone, Copy)]
pub(crate) struct Counts {
    pub(crate) accepted: u64,
    pub(crate) played: u64,
    pub(crate) next: u64,
    pub(crate) at_once: u64,
}

/// What calls took, and what came of them.
#[derive(Clone, Copy)]
pub(crate) struct Measured {
    pub(crate) costs: Costs,
    pub(crate) counts: Counts,
}

// Nanoseconds of so many calls, how many frames were taken by them, and how many callers began at once.
#[derive(Clone, Copy)]
struct Spent {
    nanos: u64,
    calls: u64,
    frames: u64,
    at_once: u64,
}

fn together(one: Spent, two: Spent) -> Spent
    ensures nanos { one.nanos + two.nanos < 2 ^ 64 → result.nanos ≡ one.nanos + two.nanos }
    ensures calls { one.calls + two.calls < 2 ^ 64 → result.calls ≡ one.calls + two.calls }
    ensures frames { one.frames + two.frames < 2 ^ 64 → result.frames ≡ one.frames + two.frames }
    ensures at_once { one.at_once + two.at_once < 2 ^ 64 → result.at_once ≡ one.at_once + two.at_once }
{
    Spent {
        nanos: one.nanos.saturating_add(two.nanos),
        calls: one.calls.saturating_add(two.calls),
        frames: one.frames.saturating_add(two.frames),
        at_once: one.at_once.saturating_add(two.at_once),
    }
}

fn per_call(spent: Spent) -> u64
    ensures { 1 ≤ spent.calls → result ≡ spent.nanos / spent.calls }
{
    spent.nanos / spent.calls.max(1)
}

// How often each of four filers called for 100 numbers, of all their calls for so many.
fn tries_of(calls: u64, numbers: u64) -> u64
    ensures { 25 ≤ numbers → result ≡ calls / (numbers / 25) }
{
    calls / (numbers / 25).max(1)
}

// Nanoseconds since then, or 0 where the clock cannot be read.
fn nanos<R: Clock>(rt: &R, zero: Instant) -> u64 {
    match zero.elapsed(rt) {
        Ok(passed) => passed
            .as_secs()
            .saturating_mul(1_000_000_000)
            .saturating_add(passed.subsec_nanos() as u64),
        Err(_) => 0,
    }
}

// Files a frame for each slot. How many were accepted.
fn file_turn<F: Filer>(filer: &mut F, first: u64, frame: &Frame33) -> u64 {
    let mut accepted = 0u64;
    for i in 0..SLOTS {
        if filer.file(bounded(first.saturating_add(i)), frame) == FileReply::Accepted {
            accepted = accepted.saturating_add(1);
        }
    }
    accepted
}

// Plays each slot. How many had a frame.
fn tick_turn<P: Player>(player: &mut P) -> u64 {
    let mut played = 0u64;
    for _ in 0..SLOTS {
        if player.tick() {
            played = played.saturating_add(1);
        }
    }
    played
}

fn turn(nanos: u64, frames: u64) -> Spent
    ensures { result ≡ record { nanos = nanos; calls = 32; frames = frames; at_once = 0 } }
{
    Spent {
        nanos,
        calls: SLOTS,
        frames,
        at_once: 0,
    }
}

const NOTHING: Spent = Spent {
    nanos: 0,
    calls: 0,
    frames: 0,
    at_once: 0,
};

// What filing came to, and what ticking did.
#[derive(Clone, Copy)]
struct Work {
    file: Spent,
    tick: Spent,
}

// One turn of the slots, by the clock before its filing, between that and its ticking, and behind it.
fn one_turn(begun: u64, filed: u64, ended: u64, accepted: u64, played: u64) -> Work
    ensures file { begun ≤ filed → result.file ≡ record { nanos = filed - begun; calls = 32; frames = accepted; at_once = 0 } }
    ensures tick { filed ≤ ended → result.tick ≡ record { nanos = ended - filed; calls = 32; frames = played; at_once = 0 } }
{
    Work {
        file: turn(filed.saturating_sub(begun), accepted),
        tick: turn(ended.saturating_sub(filed), played),
    }
}

// The costs of a file are those of the filing, and the costs of a tick those of the ticking.
fn summed_up(work: Work, tries: u64, next: u64, at_once: u64) -> Measured
    ensures file { 1 ≤ work.file.calls → result.costs.file ≡ work.file.nanos / work.file.calls }
    ensures tick { 1 ≤ work.tick.calls → result.costs.tick ≡ work.tick.nanos / work.tick.calls }
    ensures tries { result.costs.tries ≡ tries }
    ensures counts { result.counts ≡ record { accepted = work.file.frames; played = work.tick.frames; next = next; at_once = at_once } }
{
    Measured {
        costs: Costs {
            file: per_call(work.file),
            tries,
            tick: per_call(work.tick),
        },
        counts: Counts {
            accepted: work.file.frames,
            played: work.tick.frames,
            next,
            at_once,
        },
    }
}

/// One thread fills the slots and plays them, again and again.
pub(crate) fn alone<R: Clock, F: Filer, P: Player>(
    rt: &R,
    zero: Instant,
    filer: &mut F,
    player: &mut P,
    frame: &Frame33,
    load: Load,
) -> Measured {
    let (mut file, mut tick) = (NOTHING, NOTHING);
    for _ in 0..load.turns {
        let begun = nanos(rt, zero);
        let accepted = file_turn(filer, player.position(), frame);
        let filed = nanos(rt, zero);
        let played = tick_turn(player);
        let ended = nanos(rt, zero);
        let turn = one_turn(begun, filed, ended, accepted, played);
        file = together(file, turn.file);
        tick = together(tick, turn.tick);
    }
    summed_up(Work { file, tick }, 100, player.position(), 1)
}

// Comes to where the callers meet, and waits for the others, yielding between looks. 1 where all came in time.
fn meet(come: &AtomicU64) -> u64 {
    come.fetch_add(1, Ordering::SeqCst);
    for _ in 0..LOOKS {
        if come.load(Ordering::SeqCst) >= CALLERS {
            return 1;
        }
        thread::yield_now();
    }
    0
}

// Files number after number, as the replies say, until all are played or filed.
fn file_on<R: Clock, F: Filer>(
    rt: &R,
    zero: Instant,
    filer: &mut F,
    frame: &Frame33,
    numbers: u64,
    come: &AtomicU64,
) -> Spent {
    let at_once = meet(come);
    let begun = nanos(rt, zero);
    let mut number = START;
    let mut calls = 0u64;
    let mut frames = 0u64;
    for _ in 0..MOST {
        if number >= START.saturating_add(numbers) {
            break;
        }
        let tried = bounded(number);
        let reply = filer.file(tried, frame);
        if reply == FileReply::Accepted {
            frames = frames.saturating_add(1);
        }
        number = following(tried, reply);
        calls = calls.saturating_add(1);
    }
    Spent {
        nanos: nanos(rt, zero).saturating_sub(begun),
        calls,
        frames,
        at_once,
    }
}

fn tick_on<R: Clock, P: Player>(
    rt: &R,
    zero: Instant,
    player: &mut P,
    numbers: u64,
    come: &AtomicU64,
) -> Spent {
    let at_once = meet(come);
    let begun = nanos(rt, zero);
    let mut frames = 0u64;
    for _ in 0..numbers {
        if player.tick() {
            frames = frames.saturating_add(1);
        }
    }
    Spent {
        nanos: nanos(rt, zero).saturating_sub(begun),
        calls: numbers,
        frames,
        at_once,
    }
}

fn two_filers<R: Threads + Clock + Sync, F: Filer + Send>(
    rt: &R,
    zero: Instant,
    one: &mut F,
    two: &mut F,
    frame: &Frame33,
    numbers: u64,
    come: &AtomicU64,
) -> Spent {
    let (one, two) = join_mut(
        rt,
        &mut || file_on(rt, zero, one, frame, numbers, come),
        &mut || file_on(rt, zero, two, frame, numbers, come),
    );
    together(one, two)
}

/// The filers of a contest.
#[derive(Drop)]
pub(crate) struct Four<F> {
    pub(crate) a: F,
    pub(crate) b: F,
    pub(crate) c: F,
    pub(crate) d: F,
}

fn four_filers<R: Threads + Clock + Sync, F: Filer + Send>(
    rt: &R,
    zero: Instant,
    filers: &mut Four<F>,
    frame: &Frame33,
    numbers: u64,
    come: &AtomicU64,
) -> Spent {
    let Four { a, b, c, d } = filers;
    let (one, two) = join_mut(
        rt,
        &mut || -> Spent
            requires { IsSync R.row × IsSend F.row }
        { two_filers(rt, zero, a, b, frame, numbers, come) },
        &mut || -> Spent
            requires { IsSync R.row × IsSend F.row }
        { two_filers(rt, zero, c, d, frame, numbers, come) },
    );
    together(one, two)
}

/// Four filers beside a player, each in a thread of its own.
pub(crate) fn contended<R: Threads + Clock + Sync, F: Filer + Send, P: Player + Send>(
    rt: &R,
    zero: Instant,
    filers: &mut Four<F>,
    player: &mut P,
    frame: &Frame33,
    load: Load,
) -> Measured {
    let numbers = load.numbers;
    let gate = AtomicU64::new(0);
    let come = &gate;
    let (file, tick) = join_mut(
        rt,
        &mut || -> Spent
            requires { IsSync R.row × IsSend F.row }
        { four_filers(rt, zero, filers, frame, numbers, come) },
        &mut || tick_on(rt, zero, player, numbers, come),
    );
    let tries = tries_of(file.calls, numbers);
    let at_once = file.at_once.saturating_add(tick.at_once);
    summed_up(Work { file, tick }, tries, player.position(), at_once)
}
