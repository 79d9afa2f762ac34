// A line is opened: all its memory is taken here.
ghost use Rattle.std.specs.Prelude.{◌≡◌, ◌≤◌, length, IfOk, OnOk};
ghost use Rattle.line_run.specs.Callers.{AreNew, HasRightsFrom};
ghost use Rattle.line_run.specs.Opening.{AreOptions};

use crate::caller::Caller;
use crate::line::Line;
use crate::options::LineOptions;
use crate::plan::Plan;
use crate::player_caller::PlayerCaller;
use filer::{FilerEnd, Tally};
use gate_base::OutOfMemory;
use player::{PlayTally, PlayerEnd};
use slot_ring::{Blank, FilerPass, SlotRing, Steps};
use std::alloc::Global;
use std::marker::Brand;
use std::sync::ledger;
use std::sync::ledger::Ledger;

// A filer that has not run.
fn newcomer(number: u8, pass: FilerPass) -> Caller
    ensures pass { result.pass ≡ Some pass }
    ensures number { result.number ≡ number }
{
    Caller {
        number,
        pass: Some(pass),
        end: FilerEnd::Ended,
        tally: Tally::new(),
    }
}

fn enlist_filers<L: Ledger>(
    plan: &Plan,
    ring: &SlotRing,
    blank: &mut Blank,
    filers: u32,
    callers: &mut Vec<Caller>,
    steps: &mut Steps<L>,
) -> Result<(), OutOfMemory>
    requires filers { (filers ≡ ring.now.shape.filers) × (filers ≡ plan.now.filers) × (filers ≤ 64) }
    requires blank { (blank.old.ring ≡ ring.now) × HasRightsFrom 0 filers blank.old.rights }
    requires callers { length callers.old.items ≡ 0 }
    ensures blank { OnOk result ((blank.new.ring ≡ ring.now) × HasRightsFrom filers filers blank.new.rights) }
    ensures callers { OnOk result (AreNew plan.now ring.now callers.new.items × (length callers.new.items ≡ filers)) }
{
    let mut who = 0u32;
    while who < filers {
        let one = ring.split(blank, who, steps);
        let pass = ring.enlist_filer(one, who, steps);
        callers.push(newcomer(who as u8, pass))?;
        who += 1;
    }
    Ok(())
}

fn enlist_all<L: Ledger>(
    alloc: Global,
    plan: Plan,
    ring: SlotRing,
    mut blank: Blank,
    filers: u32,
    name: ledger::Blank,
) -> Result<Line, OutOfMemory>
    requires filers { (filers ≡ ring.shape.filers) × (filers ≡ plan.filers) × (filers ≤ 64) }
    requires g { ring.shape.g ≡ plan.options.g }
    requires blank { (blank.ring ≡ ring) × HasRightsFrom 0 filers blank.rights }
    requires name { name.name ≡ L.name }
    requires parts { (name.parts ≡ L.parts) × (name.parts ≡ 1) }
    ensures { IfOk result (λ l. l ≡ plan) }
{
    let mut steps = Steps::<L>::open(name);
    let mut callers = Vec::new(alloc);
    enlist_filers(&plan, &ring, &mut blank, filers, &mut callers, &mut steps)?;
    let one = ring.split(&mut blank, filers, &mut steps);
    let pass = ring.enlist_player(one, &mut steps);
    let player = PlayerCaller {
        pass: Some(pass),
        end: PlayerEnd::Ended,
        tally: PlayTally::new(),
    };
    Ok(Line {
        plan,
        ring,
        callers,
        player,
        blank,
    })
}

/// A line of `filers` filers and a player, all enlisted. Nothing that it does later takes memory.
///
/// # Errors
/// `OutOfMemory`.
pub fn open_line(alloc: Global, filers: u32, options: &LineOptions) -> Result<Line, OutOfMemory>
    requires filers { (1 ≤ filers) × (filers ≤ 64) }
    requires options { AreOptions options.now }
    ensures { IfOk result (λ l. (l.filers ≡ filers) × (l.options ≡ options.now)) }
{
    let plan = Plan::new(filers, options);
    let (ring, blank) = SlotRing::new(alloc, filers, options.g)?;
    enlist_all::<Brand>(alloc, plan, ring, blank, filers, ledger::Blank::new(1))
}
