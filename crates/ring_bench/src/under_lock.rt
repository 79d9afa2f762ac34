// The same calls on one thread's line, under a lock.
ghost use Rattle.std.specs.Prelude.{◌≡◌, ◌<◌, ◌^◌};

use crate::caller::{Filer, G, Player, START};
use crate::measure;
use crate::measure::{Four, Load, Measured};
use frame_codec::{Frame33, Item};
use gate_base::OutOfMemory;
use playout::{FileReply, MapLine};
use std::alloc::Global;
use std::sync::{Mutex, Wait};
use std::thread::Threads;
use std::time::{Clock, Instant};

// The ticks end where the line's end.
const END: u64 = 2 * START;

#[derive(Drop)]
struct Line {
    line: MapLine,
    ghost filers: { line.filers ≡ 4 },
}

impl Line {
    fn file(&mut self, who: u32, number: u64, frame: &Frame33) -> FileReply
        requires { (who < 4) × (number < 2 ^ 47) }
    {
        self.line.file(who, number, frame)
    }

    fn tick(&mut self) -> bool {
        if self.line.position() < END {
            return self.line.tick() != Item::Erasure;
        }
        false
    }
}

#[derive(Drop)]
struct Filing<'a, R: Wait> {
    rt: &'a R,
    line: &'a Mutex<Line>,
    who: u32,
    ghost low: { who < 4 },
}

#[derive(Drop)]
struct Playing<'a, R: Wait> {
    rt: &'a R,
    line: &'a Mutex<Line>,
}

impl<'a, R: Wait> Filer for Filing<'a, R> {
    fn file(&mut self, number: u64, frame: &Frame33) -> FileReply {
        self.line.lock(self.rt).file(self.who, number, frame)
    }
}

impl<'a, R: Wait> Player for Playing<'a, R> {
    fn position(&self) -> u64 {
        self.line.lock(self.rt).line.position()
    }

    fn tick(&mut self) -> bool {
        self.line.lock(self.rt).tick()
    }
}

fn open(alloc: Global) -> Result<Line, OutOfMemory> {
    let line = MapLine::new(alloc, 4, G)?;
    Ok(Line { line })
}

fn of_filer<'a, R: Wait>(rt: &'a R, line: &'a Mutex<Line>, who: u32) -> Filing<'a, R>
    requires { who < 4 }
{
    Filing { rt, line, who }
}

pub(crate) fn alone<R: Clock + Wait>(
    rt: &R,
    alloc: Global,
    zero: Instant,
    frame: &Frame33,
    load: Load,
) -> Result<Measured, OutOfMemory> {
    let line = Mutex::new(open(alloc)?);
    let mut filer = of_filer(rt, &line, 0);
    let mut player = Playing { rt, line: &line };
    Ok(measure::alone(rt, zero, &mut filer, &mut player, frame, load))
}

pub(crate) fn contended<R: Threads + Clock + Wait + Sync>(
    rt: &R,
    alloc: Global,
    zero: Instant,
    frame: &Frame33,
    load: Load,
) -> Result<Measured, OutOfMemory> {
    let line = Mutex::new(open(alloc)?);
    let mut filers = Four {
        a: of_filer(rt, &line, 0),
        b: of_filer(rt, &line, 1),
        c: of_filer(rt, &line, 2),
        d: of_filer(rt, &line, 3),
    };
    let mut player = Playing { rt, line: &line };
    Ok(measure::contended(rt, zero, &mut filers, &mut player, frame, load))
}
