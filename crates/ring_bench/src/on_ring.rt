// Calls over the ring.
ghost use Rattle.std.specs.Prelude.{◌≡◌, ◌<◌, ◌^◌, IfOk};
ghost use Rattle.slot_ring.specs.Seen.{position_in};

use crate::caller::{Filer, G, Player, START};
use crate::measure;
use crate::measure::{Four, Load, Measured};
use frame_codec::{Frame33, Item};
use gate_base::OutOfMemory;
use playout::FileReply;
use slot_ring::{FilerPass, PlayerPass, SlotRing, Steps};
use std::alloc::Global;
use std::marker::Brand;
use std::sync::ledger;
use std::sync::ledger::Ledger;
use std::thread::Threads;
use std::time::{Clock, Instant};

// The player's ticks end where the ring's end.
const END: u64 = 2 * START;

#[derive(Drop)]
struct Filing<'a> {
    ring: &'a SlotRing,
    pass: FilerPass,
    ghost ours: { pass.ring ≡ ring.now },
}

#[derive(Drop)]
struct Playing<'a> {
    ring: &'a SlotRing,
    pass: PlayerPass,
    ghost ours: { pass.ring ≡ ring.now },
}

fn of_filer(ring: &SlotRing, pass: FilerPass) -> Filing<'_>
    requires { pass.ring ≡ ring.now }
{
    Filing { ring, pass }
}

fn of_player(ring: &SlotRing, pass: PlayerPass) -> Playing<'_>
    requires { pass.ring ≡ ring.now }
{
    Playing { ring, pass }
}

fn file_once<L: Ledger>(
    ring: &SlotRing,
    pass: &mut FilerPass,
    counted: ledger::Blank,
    number: u64,
    frame: &Frame33,
) -> FileReply
    requires ring { pass.old.ring ≡ ring.now }
    requires number { number < 2 ^ 47 }
    requires name { counted.name ≡ L.name }
    requires parts { (counted.parts ≡ L.parts) × (counted.parts ≡ 1) }
    ensures { pass.new.ring ≡ ring.now }
{
    let mut steps = Steps::<L>::open(counted);
    ring.file(pass, number, frame, &mut steps)
}

fn tick_once<L: Ledger>(ring: &SlotRing, pass: &mut PlayerPass, counted: ledger::Blank) -> bool
    requires ring { pass.old.ring ≡ ring.now }
    requires position { position_in pass.old < 2 ^ 33 }
    requires name { counted.name ≡ L.name }
    requires parts { (counted.parts ≡ L.parts) × (counted.parts ≡ 1) }
    ensures { pass.new.ring ≡ ring.now }
{
    let mut steps = Steps::<L>::open(counted);
    ring.tick(pass, &mut steps) != Item::Erasure
}

impl<'a> Filer for Filing<'a> {
    fn file(&mut self, number: u64, frame: &Frame33) -> FileReply {
        file_once::<Brand>(
            self.ring,
            &mut self.pass,
            ledger::Blank::new(1),
            number,
            frame,
        )
    }
}

impl<'a> Player for Playing<'a> {
    fn position(&self) -> u64 {
        self.pass.position()
    }

    fn tick(&mut self) -> bool {
        if self.pass.position() < END {
            return tick_once::<Brand>(self.ring, &mut self.pass, ledger::Blank::new(1));
        }
        false
    }
}

// A ring of four filers, all enlisted.
#[derive(Drop)]
struct Crew {
    ring: SlotRing,
    one: FilerPass,
    two: FilerPass,
    three: FilerPass,
    four: FilerPass,
    player: PlayerPass,
}

fn open<L: Ledger>(alloc: Global, counted: ledger::Blank) -> Result<Crew, OutOfMemory>
    requires name { counted.name ≡ L.name }
    requires parts { (counted.parts ≡ L.parts) × (counted.parts ≡ 1) }
    ensures filers { IfOk result (λ o. (o.one.ring ≡ o.ring) × (o.two.ring ≡ o.ring) × (o.three.ring ≡ o.ring) × (o.four.ring ≡ o.ring)) }
    ensures player { IfOk result (λ o. o.player.ring ≡ o.ring) }
{
    let mut steps = Steps::<L>::open(counted);
    let (ring, mut blank) = SlotRing::new(alloc, 4, G)?;
    let first = ring.split(&mut blank, 0, &mut steps);
    let second = ring.split(&mut blank, 1, &mut steps);
    let third = ring.split(&mut blank, 2, &mut steps);
    let fourth = ring.split(&mut blank, 3, &mut steps);
    let fifth = ring.split(&mut blank, 4, &mut steps);
    let one = ring.enlist_filer(first, 0, &mut steps);
    let two = ring.enlist_filer(second, 1, &mut steps);
    let three = ring.enlist_filer(third, 2, &mut steps);
    let four = ring.enlist_filer(fourth, 3, &mut steps);
    let player = ring.enlist_player(fifth, &mut steps);
    Ok(Crew {
        ring,
        one,
        two,
        three,
        four,
        player,
    })
}

pub(crate) fn alone<R: Clock>(
    rt: &R,
    alloc: Global,
    zero: Instant,
    frame: &Frame33,
    load: Load,
) -> Result<Measured, OutOfMemory> {
    let Crew {
        ring,
        one,
        two: _,
        three: _,
        four: _,
        player,
    } = open::<Brand>(alloc, ledger::Blank::new(1))?;
    let mut filer = of_filer(&ring, one);
    let mut player = of_player(&ring, player);
    Ok(measure::alone(rt, zero, &mut filer, &mut player, frame, load))
}

pub(crate) fn contended<R: Threads + Clock + Sync>(
    rt: &R,
    alloc: Global,
    zero: Instant,
    frame: &Frame33,
    load: Load,
) -> Result<Measured, OutOfMemory> {
    let Crew {
        ring,
        one,
        two,
        three,
        four,
        player,
    } = open::<Brand>(alloc, ledger::Blank::new(1))?;
    let mut filers = Four {
        a: of_filer(&ring, one),
        b: of_filer(&ring, two),
        c: of_filer(&ring, three),
        d: of_filer(&ring, four),
    };
    let mut player = of_player(&ring, player);
    Ok(measure::contended(rt, zero, &mut filers, &mut player, frame, load))
}
