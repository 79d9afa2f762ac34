// Whether all callers of a line run at once: four links and a clock that wait for each other. A body that makes the calls of
// any two of them in turn fails.
ghost use Rattle.std.specs.Prelude.{◌≡◌, IfOk, length};

use super::*;
use gate_io::{Failed, Link, MemorySink, MemorySource, Received, TickClock, TickNext};
use std::alloc::Global;
use std::sync::Wait;
use std::sync::atomic::{AtomicU64, Ordering};
use std::test::Fail;
use std::thread;
use std::thread::Threads;

// The four filers and the player.
const CALLERS: u64 = 5;

// So often each looks for the others.
const LOOKS: u64 = 10_000_000;

const OPTIONS: LineOptions = LineOptions {
    g: 2,
    delay: 0,
    seed: [0; 32],
    ticks: 10,
    report: 1,
    own: 1,
    sequence: 0,
    stamp: 0,
    elastic: 0,
};

// Comes, and waits for the others, yielding between looks. Answers whether all came in time.
fn meets(come: &AtomicU64) -> bool {
    come.fetch_add(1, Ordering::SeqCst);
    for _ in 0..LOOKS {
        if come.load(Ordering::SeqCst) >= CALLERS {
            return true;
        }
        thread::yield_now();
    }
    false
}

// A link that waits for the others in its second receive.
#[derive(Drop)]
struct MeetingLink<'a> {
    come: &'a AtomicU64,
    receives: u8,
    met: bool,
    ended: bool,
}

impl<'a> Link for MeetingLink<'a> {
    ghost use Rattle.std.specs.Prelude.{None};

    ghost log = { λ s. None };

    ghost ended = { λ s. s.ended };

    ghost faults = { λ s. 0 };

    fn receive(&mut self, _into: &mut [u8; 2048]) -> Result<Received, Failed> {
        if self.receives >= 2 {
            self.ended = true;
            return Ok(Received::Ended);
        }
        if self.receives == 1 {
            self.met = meets(self.come);
        }
        self.receives += 1;
        Ok(Received::Idle)
    }

    fn send(&mut self, _from: &[u8]) -> Result<(), Failed> {
        Ok(())
    }
}

// A clock of two ticks that waits for the others before its second.
#[derive(Drop)]
struct MeetingClock<'a> {
    come: &'a AtomicU64,
    given: u8,
    met: bool,
    ended: bool,
}

impl<'a> TickClock for MeetingClock<'a> {
    ghost ticks = { λ s. s.given };

    ghost ended = { λ s. s.ended };

    fn wait(&mut self) -> TickNext {
        if self.given >= 2 {
            self.ended = true;
            return TickNext::Ended;
        }
        if self.given == 1 {
            self.met = meets(self.come);
        }
        self.given += 1;
        TickNext::Tick
    }
}

fn meeting(come: &AtomicU64) -> MeetingLink<'_> {
    MeetingLink {
        come,
        receives: 0,
        met: false,
        ended: false,
    }
}

fn four_links<'a>(alloc: Global, come: &'a AtomicU64) -> Result<Vec<MeetingLink<'a>>, Fail>
    ensures { IfOk result (λ v. length v.items ≡ 4) }
{
    let mut links = Vec::new(alloc);
    links.push(meeting(come))?;
    links.push(meeting(come))?;
    links.push(meeting(come))?;
    links.push(meeting(come))?;
    Ok(links)
}

fn five_journals(alloc: Global) -> Result<Vec<MemorySink>, Fail>
    ensures { IfOk result (λ v. length v.items ≡ 5) }
{
    let mut journals = Vec::new(alloc);
    journals.push(MemorySink::new(alloc, 100, &[])?)?;
    journals.push(MemorySink::new(alloc, 100, &[])?)?;
    journals.push(MemorySink::new(alloc, 100, &[])?)?;
    journals.push(MemorySink::new(alloc, 100, &[])?)?;
    journals.push(MemorySink::new(alloc, 100, &[])?)?;
    Ok(journals)
}

// Runs a line of four filers. Answers whether the player came to its end.
fn runs<'a, R: Threads + Wait + Sync>(
    rt: &R,
    alloc: Global,
    links: &mut Vec<MeetingLink<'a>>,
    reply: &mut MeetingLink<'a>,
    clock: &mut MeetingClock<'a>,
) -> Result<bool, Fail>
    requires { length links.old.items ≡ 4 }
{
    let mut journals = five_journals(alloc)?;
    let mut microphone = MemorySource::new(alloc, &[], 1, &[])?;
    let mut speaker = MemorySink::new(alloc, 640, &[])?;
    let line = open_line(alloc, 4, &OPTIONS)?;
    let end = run_line(
        rt,
        line,
        links,
        reply,
        &mut microphone,
        &mut speaker,
        &mut journals,
        clock,
    );
    Ok(end.player == PlayerEnd::Ended)
}

#[test]
fn four_links_and_a_clock_meet(rt: HostRuntime) -> Result<(), Fail> {
    let come = AtomicU64::new(0);
    let mut links = four_links(rt.alloc(), &come)?;
    let mut clock = MeetingClock {
        come: &come,
        given: 0,
        met: false,
        ended: false,
    };
    let ended = runs(&rt, rt.alloc(), &mut links, &mut meeting(&come), &mut clock)?;
    assert!(rt; ended && clock.met);
    for link in &links {
        assert!(rt; link.met);
    }
    Ok(())
}
