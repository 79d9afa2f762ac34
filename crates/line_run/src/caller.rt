// A filer of a line, and its run.
ghost use Rattle.std.specs.Prelude.{◌≡◌, ◌≤◌, [], true};
ghost use Rattle.gate_base.specs.Faults.{Rose};
ghost use Rattle.line_run.specs.Callers.{CallerRan, Stands};
ghost use Rattle.line_run.specs.Objects.{FiledOver};
ghost use Rattle.line_run.specs.Seen.{link_seen, sink_seen};

use crate::plan::Plan;
use filer::{Filer, FilerEnd, Tally};
use gate_io::{Link, Sink};
use recorder::write_filer_head;
use slot_ring::{FilerPass, RingFiler, SlotRing, Steps};
use std::marker::Brand;
use std::sync::Wait;
use std::sync::ledger::{Blank, Ledger};

/// A filer that has enlisted: its number, its pass where it does not run, and what came of its run.
#[derive(Drop)]
pub(crate) struct Caller {
    pub(crate) number: u8,
    pub(crate) pass: Option<FilerPass>,
    pub(crate) end: FilerEnd,
    pub(crate) tally: Tally,
}

/// Gives the journal its head, and runs the filer over its link. Where the head fails nothing is read.
pub(crate) fn run_one<R: Wait, P: Link, J: Sink>(
    rt: &R,
    plan: &Plan,
    ring: &SlotRing,
    caller: &mut Caller,
    link: &mut P,
    journal: &mut J,
)
    requires { Stands plan.now ring.now caller.old }
    ensures { CallerRan plan.now ring.now (link_seen P.Link) (sink_seen J.Sink) J.kin caller.old link.old journal.old caller.new link.new journal.new }
{
    if write_filer_head(&plan.head(), caller.number, journal).is_err() {
        caller.end = FilerEnd::JournalFault;
        caller.tally = Tally::new();
        return;
    }
    let Some(pass) = caller.pass.take() else {
        unreachable!()
    };
    let mut filer = plan.filer();
    let (pass, end) = run_over::<Brand, R, P, J>(
        rt,
        ring,
        pass,
        Blank::new(1),
        &mut filer,
        link,
        journal,
    );
    caller.pass = Some(pass);
    caller.end = end;
    caller.tally = filer.tally();
}

fn run_over<L: Ledger, R: Wait, P: Link, J: Sink>(
    rt: &R,
    ring: &SlotRing,
    pass: FilerPass,
    blank: Blank,
    filer: &mut Filer,
    link: &mut P,
    journal: &mut J,
) -> (FilerPass, FilerEnd)
    requires ring { pass.ring ≡ ring.now }
    requires list { pass.list ≡ [] }
    requires name { blank.name ≡ L.name }
    requires parts { (blank.parts ≡ L.parts) × (blank.parts ≡ 1) }
    ensures pass { (result.0.ring ≡ pass.ring) × (result.0.who ≡ pass.who) }
    ensures ran { FiledOver P.Link J.Sink filer.old link.old journal.old filer.new link.new journal.new result.0.list result.1 }
    ensures ended { result.1 ≡ FilerEnd.Ended → P.ended link.new ≡ true }
    ensures link_later { P.faults link.old ≤ P.faults link.new }
    ensures link_fault { result.1 ≡ FilerEnd.LinkFault → Rose (P.faults link.old) (P.faults link.new) }
    ensures journal_later { J.faults journal.old ≤ J.faults journal.new }
    ensures journal_fault { result.1 ≡ FilerEnd.JournalFault → Rose (J.faults journal.old) (J.faults journal.new) }
    ensures kin { J.kin journal.old journal.new }
{
    let mut side = RingFiler::new(ring, pass, Steps::<L>::open(blank));
    let end = filer.run(rt, &mut side, link, journal);
    (side.into_pass(), end)
}
