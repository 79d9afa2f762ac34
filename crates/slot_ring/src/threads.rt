// Four filers and a player at once.
ghost use Rattle.std.specs.Prelude.{◌≡◌, ◌<◌, ◌≤◌, ◌+◌, ◌^◌, [], IfOk};
ghost use Rattle.std.specs.Thread.{IsSync};
ghost use Rattle.slot_ring.specs.Seen.{position_in};

use super::replay::{Answers, TRIES, has_history};
use super::tests::{START, Z};
use super::*;
use frame_codec::{Frame33, frame_of};
use playout::{Call, FileReply};
use std::alloc::Global;
use std::marker::Brand;
use std::sync::ledger;
use std::sync::ledger::Ledger;
use std::test::Fail;
use std::thread;
use std::thread::{Threads, join_mut};

// Each filer tries 600 numbers, one after the other, so often each.
const CALLS: u64 = 4800;

// Half of the player's calls go on by a number: fewer than the filers' numbers, so that frames may be left.
const PLAYS: u64 = 960;

#[derive(Drop)]
struct Filing {
    pass: FilerPass,
    frame: Frame33,
    replies: Vec<FileReply>,
}

#[derive(Drop)]
struct Playing {
    pass: PlayerPass,
    calls: Vec<Call>,
}

fn file_over<L: Ledger>(
    ring: &SlotRing,
    pass: &mut FilerPass,
    counted: ledger::Blank,
    frame: &Frame33,
    replies: &mut Vec<FileReply>,
)
    requires ring { pass.old.ring ≡ ring.now }
    requires name { counted.name ≡ L.name }
    requires parts { (counted.parts ≡ L.parts) × (counted.parts ≡ 1) }
    ensures ring { pass.new.ring ≡ ring.now }
    ensures who { pass.new.who ≡ pass.old.who }
{
    let mut steps = Steps::<L>::open(counted);
    let mut i = 0;
    while i < CALLS {
        let reply = ring.file(pass, START + i / TRIES, frame, &mut steps);
        if replies.extend_from_slice(&[reply]).is_err() {
            return;
        }
        thread::yield_now();
        i += 1;
    }
}

fn run_filing(ring: &SlotRing, filing: &mut Filing)
    requires { filing.old.pass.ring ≡ ring.now }
    ensures ring { filing.new.pass.ring ≡ ring.now }
    ensures who { filing.new.pass.who ≡ filing.old.pass.who }
{
    file_over::<Brand>(
        ring,
        &mut filing.pass,
        ledger::Blank::new(1),
        &filing.frame,
        &mut filing.replies,
    );
}

// The player holds, looks, ticks and retires in turn.
fn play_once<L: Ledger>(
    ring: &SlotRing,
    pass: &mut PlayerPass,
    made: u64,
    steps: &mut Steps<L>,
) -> Call
    requires ring { pass.old.ring ≡ ring.now }
    requires slots { ring.now.shape.g ≡ 2 }
    requires position { position_in pass.old < 2 ^ 33 }
    ensures ring { pass.new.ring ≡ ring.now }
    ensures who { pass.new.who ≡ pass.old.who }
    ensures position { position_in pass.new ≤ position_in pass.old + 1 }
{
    match made % 4 {
        0 => Call::HoldCall {
            held: ring.hold(pass, steps),
        },
        1 => {
            let ahead = (made / 4 % 4) as u32;
            Call::LookCall {
                ahead,
                filled: ring.look(pass, ahead, steps),
            }
        }
        2 => Call::TickCall {
            item: ring.tick(pass, steps),
        },
        _ => Call::RetireCall {
            item: ring.retire(pass, steps),
        },
    }
}

// Sixteen calls slower than the filers' numbers, and sixteen at once.
fn pause(made: u64) {
    if made % 32 < 16 {
        for _ in 0..TRIES {
            thread::yield_now();
        }
    }
}

fn play_over<L: Ledger>(
    ring: &SlotRing,
    pass: &mut PlayerPass,
    counted: ledger::Blank,
    calls: &mut Vec<Call>,
)
    requires ring { pass.old.ring ≡ ring.now }
    requires slots { ring.now.shape.g ≡ 2 }
    requires position { position_in pass.old ≤ 2 ^ 32 }
    requires name { counted.name ≡ L.name }
    requires parts { (counted.parts ≡ L.parts) × (counted.parts ≡ 1) }
    ensures ring { pass.new.ring ≡ ring.now }
    ensures who { pass.new.who ≡ pass.old.who }
{
    let mut steps = Steps::<L>::open(counted);
    let mut made = 0;
    while made < PLAYS {
        let call = play_once(ring, pass, made, &mut steps);
        if calls.extend_from_slice(&[call]).is_err() {
            return;
        }
        pause(made);
        made += 1;
    }
}

fn run_playing(ring: &SlotRing, playing: &mut Playing)
    requires ring { playing.old.pass.ring ≡ ring.now }
    requires slots { ring.now.shape.g ≡ 2 }
    requires position { position_in playing.old.pass ≤ 2 ^ 32 }
    ensures ring { playing.new.pass.ring ≡ ring.now }
    ensures who { playing.new.pass.who ≡ playing.old.pass.who }
{
    play_over::<Brand>(
        ring,
        &mut playing.pass,
        ledger::Blank::new(1),
        &mut playing.calls,
    );
}

fn pair<R: Threads + Sync>(rt: &R, ring: &SlotRing, one: &mut Filing, two: &mut Filing)
    requires { (one.old.pass.ring ≡ ring.now) × (two.old.pass.ring ≡ ring.now) }
    ensures one { (one.new.pass.ring ≡ ring.now) × (one.new.pass.who ≡ one.old.pass.who) }
    ensures two { (two.new.pass.ring ≡ ring.now) × (two.new.pass.who ≡ two.old.pass.who) }
{
    join_mut(
        rt,
        &mut || run_filing(ring, one),
        &mut || run_filing(ring, two),
    );
}

fn two_pairs<R: Threads + Sync>(
    rt: &R,
    ring: &SlotRing,
    a: &mut Filing,
    b: &mut Filing,
    c: &mut Filing,
    d: &mut Filing,
)
    requires { (a.old.pass.ring ≡ ring.now) × (b.old.pass.ring ≡ ring.now) × (c.old.pass.ring ≡ ring.now) × (d.old.pass.ring ≡ ring.now) }
    ensures a { (a.new.pass.ring ≡ ring.now) × (a.new.pass.who ≡ a.old.pass.who) }
    ensures b { (b.new.pass.ring ≡ ring.now) × (b.new.pass.who ≡ b.old.pass.who) }
    ensures c { (c.new.pass.ring ≡ ring.now) × (c.new.pass.who ≡ c.old.pass.who) }
    ensures d { (d.new.pass.ring ≡ ring.now) × (d.new.pass.who ≡ d.old.pass.who) }
{
    join_mut(
        rt,
        &mut ||
            requires { IsSync R.row × (a.now.pass.ring ≡ ring.now) × (b.now.pass.ring ≡ ring.now) }
            ensures a { (a.exit.now.pass.ring ≡ ring.entry.now) × (a.exit.now.pass.who ≡ a.entry.now.pass.who) }
            ensures b { (b.exit.now.pass.ring ≡ ring.entry.now) × (b.exit.now.pass.who ≡ b.entry.now.pass.who) }
        { pair(rt, ring, a, b) },
        &mut ||
            requires { IsSync R.row × (c.now.pass.ring ≡ ring.now) × (d.now.pass.ring ≡ ring.now) }
            ensures c { (c.exit.now.pass.ring ≡ ring.entry.now) × (c.exit.now.pass.who ≡ c.entry.now.pass.who) }
            ensures d { (d.exit.now.pass.ring ≡ ring.entry.now) × (d.exit.now.pass.who ≡ d.entry.now.pass.who) }
        { pair(rt, ring, c, d) },
    );
}

fn all_at_once<R: Threads + Sync>(
    rt: &R,
    ring: &SlotRing,
    a: &mut Filing,
    b: &mut Filing,
    c: &mut Filing,
    d: &mut Filing,
    p: &mut Playing,
)
    requires filers { (a.old.pass.ring ≡ ring.now) × (b.old.pass.ring ≡ ring.now) × (c.old.pass.ring ≡ ring.now) × (d.old.pass.ring ≡ ring.now) }
    requires player { (p.old.pass.ring ≡ ring.now) × (position_in p.old.pass ≤ 2 ^ 32) × (ring.now.shape.g ≡ 2) }
    ensures a { (a.new.pass.ring ≡ ring.now) × (a.new.pass.who ≡ a.old.pass.who) }
    ensures b { (b.new.pass.ring ≡ ring.now) × (b.new.pass.who ≡ b.old.pass.who) }
    ensures c { (c.new.pass.ring ≡ ring.now) × (c.new.pass.who ≡ c.old.pass.who) }
    ensures d { (d.new.pass.ring ≡ ring.now) × (d.new.pass.who ≡ d.old.pass.who) }
    ensures p { (p.new.pass.ring ≡ ring.now) × (p.new.pass.who ≡ p.old.pass.who) }
{
    join_mut(
        rt,
        &mut || run_playing(ring, p),
        &mut ||
            requires { IsSync R.row × (a.now.pass.ring ≡ ring.now) × (b.now.pass.ring ≡ ring.now) × (c.now.pass.ring ≡ ring.now) × (d.now.pass.ring ≡ ring.now) }
            ensures a { (a.exit.now.pass.ring ≡ ring.entry.now) × (a.exit.now.pass.who ≡ a.entry.now.pass.who) }
            ensures b { (b.exit.now.pass.ring ≡ ring.entry.now) × (b.exit.now.pass.who ≡ b.entry.now.pass.who) }
            ensures c { (c.exit.now.pass.ring ≡ ring.entry.now) × (c.exit.now.pass.who ≡ c.entry.now.pass.who) }
            ensures d { (d.exit.now.pass.ring ≡ ring.entry.now) × (d.exit.now.pass.who ≡ d.entry.now.pass.who) }
        { two_pairs(rt, ring, a, b, c, d) },
    );
}

fn no_answers(alloc: Global) -> Result<Answers, OutOfMemory> {
    let calls = CALLS as usize;
    Ok(Answers {
        a: Vec::with_capacity(alloc, calls)?,
        b: Vec::with_capacity(alloc, calls)?,
        c: Vec::with_capacity(alloc, calls)?,
        d: Vec::with_capacity(alloc, calls)?,
        calls: Vec::with_capacity(alloc, PLAYS as usize)?,
    })
}

// A ring of four filers with four slots, all enlisted, and the blank that is left.
#[derive(Drop)]
struct Crew {
    ring: SlotRing,
    one: FilerPass,
    two: FilerPass,
    three: FilerPass,
    four: FilerPass,
    player: PlayerPass,
    blank: Blank,
}

fn open<L: Ledger>(alloc: Global, steps: &mut Steps<L>) -> Result<Crew, OutOfMemory>
    ensures shape { IfOk result (λ o. (o.ring.shape.filers ≡ 4) × (o.ring.shape.g ≡ 2)) }
    ensures filers { IfOk result (λ o. (o.one.ring ≡ o.ring) × (o.two.ring ≡ o.ring) × (o.three.ring ≡ o.ring) × (o.four.ring ≡ o.ring)) }
    ensures rings { IfOk result (λ o. (o.player.ring ≡ o.ring) × (o.blank.ring ≡ o.ring)) }
    ensures who { IfOk result (λ o. (o.one.who ≡ 0) × (o.two.who ≡ 1) × (o.three.who ≡ 2) × (o.four.who ≡ 3) × (o.player.who ≡ 4)) }
    ensures list { IfOk result (λ o. o.player.list ≡ []) }
{
    let (ring, mut blank) = SlotRing::new(alloc, 4, 2)?;
    let first = ring.split(&mut blank, 0, steps);
    let second = ring.split(&mut blank, 1, steps);
    let third = ring.split(&mut blank, 2, steps);
    let fourth = ring.split(&mut blank, 3, steps);
    let fifth = ring.split(&mut blank, 4, steps);
    let one = ring.enlist_filer(first, 0, steps);
    let two = ring.enlist_filer(second, 1, steps);
    let three = ring.enlist_filer(third, 2, steps);
    let four = ring.enlist_filer(fourth, 3, steps);
    let player = ring.enlist_player(fifth, steps);
    Ok(Crew {
        ring,
        one,
        two,
        three,
        four,
        player,
        blank,
    })
}

// The calls of all five, each in a thread of its own.
fn contest<R: Threads + Sync>(
    rt: &R,
    crew: Crew,
    answers: Answers,
    frames: &[Frame33; 4],
) -> (Crew, Answers)
    requires filers { (crew.one.ring ≡ crew.ring) × (crew.two.ring ≡ crew.ring) × (crew.three.ring ≡ crew.ring) × (crew.four.ring ≡ crew.ring) }
    requires player { (crew.player.ring ≡ crew.ring) × (crew.player.list ≡ []) × (crew.ring.shape.g ≡ 2) }
    ensures ring { (result.0.ring ≡ crew.ring) × (result.0.blank ≡ crew.blank) }
    ensures filers { (result.0.one.ring ≡ crew.ring) × (result.0.two.ring ≡ crew.ring) × (result.0.three.ring ≡ crew.ring) × (result.0.four.ring ≡ crew.ring) }
    ensures player { (result.0.player.ring ≡ crew.ring) × (result.0.player.who ≡ crew.player.who) }
    ensures who { (result.0.one.who ≡ crew.one.who) × (result.0.two.who ≡ crew.two.who) × (result.0.three.who ≡ crew.three.who) × (result.0.four.who ≡ crew.four.who) }
{
    let Crew {
        ring,
        one,
        two,
        three,
        four,
        player,
        blank,
    } = crew;
    let Answers { a, b, c, d, calls } = answers;
    let mut a = begin(one, frames[0], a);
    let mut b = begin(two, frames[1], b);
    let mut c = begin(three, frames[2], c);
    let mut d = begin(four, frames[3], d);
    let mut p = Playing {
        pass: player,
        calls,
    };
    all_at_once(rt, &ring, &mut a, &mut b, &mut c, &mut d, &mut p);
    let (one, a) = finish(a);
    let (two, b) = finish(b);
    let (three, c) = finish(c);
    let (four, d) = finish(d);
    let Playing {
        pass: player,
        calls,
    } = p;
    let crew = Crew {
        ring,
        one,
        two,
        three,
        four,
        player,
        blank,
    };
    (crew, Answers { a, b, c, d, calls })
}

fn begin(pass: FilerPass, frame: Frame33, replies: Vec<FileReply>) -> Filing
    ensures { result.pass ≡ pass }
{
    Filing {
        pass,
        frame,
        replies,
    }
}

fn finish(filing: Filing) -> (FilerPass, Vec<FileReply>)
    ensures { result.0 ≡ filing.pass }
{
    let Filing {
        pass,
        frame: _,
        replies,
    } = filing;
    (pass, replies)
}

// All leave, are gathered, and the ring is closed.
fn end<L: Ledger>(crew: Crew, steps: &mut Steps<L>) -> Left
    requires shape { crew.ring.shape.filers ≡ 4 }
    requires filers { (crew.one.ring ≡ crew.ring) × (crew.two.ring ≡ crew.ring) × (crew.three.ring ≡ crew.ring) × (crew.four.ring ≡ crew.ring) }
    requires rings { (crew.player.ring ≡ crew.ring) × (crew.blank.ring ≡ crew.ring) }
    requires who { (crew.one.who ≡ 0) × (crew.two.who ≡ 1) × (crew.three.who ≡ 2) × (crew.four.who ≡ 3) × (crew.player.who ≡ 4) }
{
    let Crew {
        ring,
        one,
        two,
        three,
        four,
        player,
        blank,
    } = crew;
    let mut gather = ring.gathering(blank);
    let gone = ring.leave_filer(one, steps);
    ring.gather(&mut gather, gone, steps);
    let gone = ring.leave_filer(two, steps);
    ring.gather(&mut gather, gone, steps);
    let gone = ring.leave_filer(three, steps);
    ring.gather(&mut gather, gone, steps);
    let gone = ring.leave_filer(four, steps);
    ring.gather(&mut gather, gone, steps);
    let gone = ring.leave_player(player, steps);
    ring.gather(&mut gather, gone, steps);
    ring.close(gather)
}

// What a contest comes to.
#[derive(Drop)]
struct Outcome {
    answers: Answers,
    left: Left,
}

fn run_contest<R: Threads + Sync, L: Ledger>(
    rt: &R,
    alloc: Global,
    counted: ledger::Blank,
    frames: &[Frame33; 4],
) -> Result<Outcome, OutOfMemory>
    requires name { counted.name ≡ L.name }
    requires parts { (counted.parts ≡ L.parts) × (counted.parts ≡ 1) }
{
    let mut steps = Steps::<L>::open(counted);
    let answers = no_answers(alloc)?;
    let crew = open(alloc, &mut steps)?;
    let (crew, answers) = contest(rt, crew, answers, frames);
    Ok(Outcome {
        answers,
        left: end(crew, &mut steps),
    })
}

// Whether each has made all its calls.
fn all_called(answers: &Answers) -> bool {
    let calls = CALLS as usize;
    answers.a.len() == calls
        && answers.b.len() == calls
        && answers.c.len() == calls
        && answers.d.len() == calls
        && answers.calls.len() == PLAYS as usize
}

fn frame_ending(last: u8) -> Result<Frame33, Fail> {
    let mut octets = Z;
    octets[32] = last;
    Ok(frame_of(&octets)?)
}

#[test]
fn four_filers_beside_a_player(rt: HostRuntime) -> Result<(), Fail> {
    let frames = [
        frame_ending(1)?,
        frame_ending(2)?,
        frame_ending(3)?,
        frame_ending(4)?,
    ];
    let outcome = run_contest::<HostRuntime, Brand>(
        &rt,
        rt.alloc(),
        ledger::Blank::new(1),
        &frames,
    )?;
    assert!(rt; all_called(&outcome.answers));
    assert!(rt;
        has_history(
            rt.alloc(),
            &outcome.answers,
            &outcome.left,
            frames.as_slice()
        )?
    );
    Ok(())
}
