// A line of two filers whose packets come late by bursts, and whose delay may grow by three frames.
ghost use Rattle.std.specs.Prelude.{◌≡◌, IfOk, length};

use crate::pace::{Pace, PacedClock, PacedLink, Sent};
use gate_io::{MemorySink, MemorySource};
use line_run::{LineOptions, PlayTally, open_line, run_line};
use recorder::{FilerJournal, PlayEvent, PlayerJournal};
use replay_check::{RenderEnd, Verdict, are_of_one_line, render, verify};
use std::alloc::Global;
use std::sync::Wait;
use std::test::Fail;
use std::thread::Threads;

const OPTIONS: LineOptions = LineOptions {
    g: 4,
    delay: 1,
    seed: [9; 32],
    ticks: 15000,
    report: 250,
    own: 1,
    sequence: 0,
    stamp: 0,
    elastic: 3,
};

// Of each twenty frames of the call the ninth to the twelfth come together, the first of them four ticks late, and the sixteenth is lost.
fn due(place: u16) -> Option<u64> {
    match place % 20 {
        8 | 9 | 10 | 11 => Some(place as u64 / 20 * 20 + 12),
        15 => None,
        _ => Some(place as u64),
    }
}

// The packets of a link: every second of the call.
fn packets(alloc: Global, parity: u16) -> Result<Vec<Sent>, Fail> {
    let mut sent = Vec::new(alloc);
    for place in 0..60u16 {
        match due(place) {
            Some(due) if place % 2 == parity => sent.push(Sent { place, due })?,
            _ => {}
        }
    }
    Ok(sent)
}

fn two_links<'a>(alloc: Global, pace: &'a Pace) -> Result<Vec<PacedLink<'a>>, Fail>
    ensures { IfOk result (λ v. length v.items ≡ 2) }
{
    let mut links = Vec::new(alloc);
    links.push(PacedLink::new(pace, packets(alloc, 0)?))?;
    links.push(PacedLink::new(pace, packets(alloc, 1)?))?;
    Ok(links)
}

fn three_journals(alloc: Global) -> Result<Vec<MemorySink>, Fail>
    ensures { IfOk result (λ v. length v.items ≡ 3) }
{
    let mut journals = Vec::new(alloc);
    journals.push(MemorySink::new(alloc, 10000, &[])?)?;
    journals.push(MemorySink::new(alloc, 10000, &[])?)?;
    journals.push(MemorySink::new(alloc, 10000, &[])?)?;
    Ok(journals)
}

// Runs the line, and tells what its player counted.
fn run<R: Threads + Wait + Sync>(
    rt: &R,
    alloc: Global,
    pace: &Pace,
    speaker: &mut MemorySink,
    journals: &mut Vec<MemorySink>,
) -> Result<PlayTally, Fail>
    requires { length journals.old.items ≡ 3 }
{
    let mut links = two_links(alloc, pace)?;
    let mut reply = PacedLink::new(pace, Vec::new(alloc));
    let mut microphone = MemorySource::new(alloc, &[], 1, &[])?;
    let mut clock = PacedClock::new(pace, 2);
    let line = open_line(alloc, 2, &OPTIONS)?;
    let end = run_line(
        rt,
        line,
        &mut links,
        &mut reply,
        &mut microphone,
        speaker,
        journals,
        &mut clock,
    );
    Ok(end.played)
}

// What a journal was given, the player's before those of the filers.
fn text_of(journals: &[MemorySink], place: usize) -> &[u8] {
    match journals.get(place) {
        Some(journal) => journal.octets(),
        None => &[],
    }
}

fn filer_of(alloc: Global, text: &[u8]) -> Result<Option<FilerJournal>, Fail> {
    let mut octets = MemorySource::new(alloc, text, 100, &[])?;
    Ok(FilerJournal::read(alloc, &mut octets).ok())
}

fn player_of(alloc: Global, text: &[u8]) -> Result<Option<PlayerJournal>, Fail> {
    let mut octets = MemorySource::new(alloc, text, 100, &[])?;
    Ok(PlayerJournal::read(alloc, &mut octets).ok())
}

// Whether the journals are those of one line, and the verdict on them is that they are legal.
fn is_legal(alloc: Global, journals: &[MemorySink]) -> Result<bool, Fail> {
    let mut filers = Vec::new(alloc);
    for place in 1..3 {
        match filer_of(alloc, text_of(journals, place))? {
            Some(filer) => filers.push(filer)?,
            None => return Ok(false),
        }
    }
    let Some(player) = player_of(alloc, text_of(journals, 0))? else {
        return Ok(false);
    };
    if !are_of_one_line(&filers, &player) {
        return Ok(false);
    }
    Ok(match verify(alloc, &filers, &player)? {
        Verdict::Legal(_) => true,
        Verdict::Illegal { .. } => false,
    })
}

// Whether the player's journal renders to this speech.
fn renders(alloc: Global, text: &[u8], speech: &[u8]) -> Result<bool, Fail> {
    let mut octets = MemorySource::new(alloc, text, 100, &[])?;
    let mut again = MemorySink::new(alloc, 100000, &[])?;
    Ok(match render([9; 32], &mut octets, &mut again) {
        RenderEnd::Done(_) => *again.octets() == *speech,
        _ => false,
    })
}

// The greatest number that was held at once, or none where one was retired of none that was held.
fn most_held(events: &[PlayEvent]) -> Option<u32> {
    let mut held = 0u32;
    let mut most = 0u32;
    for event in events {
        match event {
            PlayEvent::Held => held = held.saturating_add(1),
            PlayEvent::RetiredErasure | PlayEvent::RetiredFrame(_) => held = held.checked_sub(1)?,
            _ => {}
        }
        most = most.max(held);
    }
    Some(most)
}

fn most_held_in(alloc: Global, text: &[u8]) -> Result<Option<u32>, Fail> {
    Ok(match player_of(alloc, text)? {
        Some(read) => most_held(read.events()),
        None => None,
    })
}

// Expected counts are those of a list of numbers and the rule of the beat, by hand.
#[test]
fn a_line_through_bursts_holds_and_retires(rt: HostRuntime) -> Result<(), Fail> {
    let pace = Pace::new();
    let mut speaker = MemorySink::new(rt.alloc(), 100000, &[])?;
    let mut journals = three_journals(rt.alloc())?;
    let tally = run(&rt, rt.alloc(), &pace, &mut speaker, &mut journals)?;
    let player = text_of(&journals, 0);
    assert!(rt; is_legal(rt.alloc(), &journals)?);
    assert!(rt; renders(rt.alloc(), player, speaker.octets())?);
    assert_eq!(rt; most_held_in(rt.alloc(), player)?, Some(3));
    assert_eq!(rt; (tally.held, tally.retired), (7, 4));
    assert_eq!(rt; (tally.idle, tally.frames, tally.erasures), (0, 57, 16));
    assert!(rt; speaker.octets().len() == 80 * 320);
    Ok(())
}
