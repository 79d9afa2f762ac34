// All filers of a line at once, each on a thread of its own.
ghost use Rattle.std.specs.Prelude.{◌≡◌, ◌<◌, length};
ghost use Rattle.std.specs.Thread.{IsSend, IsSync};
ghost use Rattle.line_run.specs.Callers.{Stands};
ghost use Rattle.line_run.specs.Fan.{AtEach};
ghost use Rattle.line_run.specs.Objects.{FilersRanOver};

use crate::caller::{Caller, run_one};
use crate::plan::Plan;
use gate_io::{Link, Sink};
use slot_ring::SlotRing;
use std::sync::Wait;
use std::thread::{Threads, join_mut};

/// Runs each filer over the link and the journal at its place.
#[cycle(halves)]
pub(crate) fn fan_out<R: Threads + Wait + Sync, P: Link + Send, J: Sink + Send>(
    rt: &R,
    plan: &Plan,
    ring: &SlotRing,
    callers: &mut [Caller],
    links: &mut [P],
    journals: &mut [J],
)
    requires links { length links.old ≡ length callers.old }
    requires journals { length journals.old ≡ length callers.old }
    requires stand { AtEach (Stands plan.now ring.now) callers.old }
    ensures { FilersRanOver P.Link J.Sink plan.now ring.now callers.old links.old journals.old callers.new links.new journals.new }
{
    let count = callers.len();
    if count == 0 {
        return;
    }
    if count == 1 {
        run_one(
            rt,
            plan,
            ring,
            &mut callers[0],
            &mut links[0],
            &mut journals[0],
        );
        return;
    }
    let half = count / 2;
    let (a, b) = callers.split_at_mut(half);
    let (p, q) = links.split_at_mut(half);
    let (j, k) = journals.split_at_mut(half);
    both_halves(rt, plan, ring, a, p, j, b, q, k);
}

#[cycle(halves)]
fn both_halves<R: Threads + Wait + Sync, P: Link + Send, J: Sink + Send>(
    rt: &R,
    plan: &Plan,
    ring: &SlotRing,
    a: &mut [Caller],
    p: &mut [P],
    j: &mut [J],
    b: &mut [Caller],
    q: &mut [P],
    k: &mut [J],
)
    requires some { (0 < length a.old) × (0 < length b.old) }
    requires front { (length p.old ≡ length a.old) × (length j.old ≡ length a.old) × AtEach (Stands plan.now ring.now) a.old }
    requires back { (length q.old ≡ length b.old) × (length k.old ≡ length b.old) × AtEach (Stands plan.now ring.now) b.old }
    ensures front { FilersRanOver P.Link J.Sink plan.now ring.now a.old p.old j.old a.new p.new j.new }
    ensures back { FilersRanOver P.Link J.Sink plan.now ring.now b.old q.old k.old b.new q.new k.new }
{
    let mut front = ||
        requires { IsSync R.row × IsSend P.row × IsSend J.row × (length p.now ≡ length a.now) × (length j.now ≡ length a.now) × AtEach (Stands plan.now ring.now) a.now }
        ensures { FilersRanOver P.Link J.Sink plan.entry.now ring.entry.now a.entry.now p.entry.now j.entry.now a.exit.now p.exit.now j.exit.now }
    { fan_out(rt, plan, ring, a, p, j) };
    let mut back = ||
        requires { IsSync R.row × IsSend P.row × IsSend J.row × (length q.now ≡ length b.now) × (length k.now ≡ length b.now) × AtEach (Stands plan.now ring.now) b.now }
        ensures { FilersRanOver P.Link J.Sink plan.entry.now ring.entry.now b.entry.now q.entry.now k.entry.now b.exit.now q.exit.now k.exit.now }
    { fan_out(rt, plan, ring, b, q, k) };
    join_mut(rt, &mut front, &mut back);
}
