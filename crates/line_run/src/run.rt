// A line from its start to its end.
ghost use Rattle.std.specs.Prelude.{◌≡◌, ◌+◌, length};
ghost use Rattle.std.specs.Thread.{IsSend, IsSync};
ghost use Rattle.line_run.specs.Callers.{AreNew, PlayerStands, Stands};
ghost use Rattle.line_run.specs.Fan.{AreKin, AtEach};
ghost use Rattle.line_run.specs.Objects.{AllRanOver, EndsUnlessFault, FilersRanOver, PlayerRanOver, RanOver, objects, ports_at};

use crate::caller::Caller;
use crate::fan::fan_out;
use crate::gathering::end_line;
use crate::line::Line;
use crate::line_end::LineEnd;
use crate::plan::Plan;
use crate::player_caller::{PlayerCaller, run_playing};
use gate_io::{Link, Sink, Source, TickClock};
use slot_ring::SlotRing;
use std::sync::Wait;
use std::thread::{Threads, join_mut};

// The filers at once, and the player beside them.
fn all_at_once<
    R: Threads + Wait + Sync,
    P: Link + Send,
    I: Source + Send,
    O: Sink + Send,
    J: Sink + Send,
    C: TickClock + Send,
>(
    rt: &R,
    plan: &Plan,
    ring: &SlotRing,
    callers: &mut [Caller],
    links: &mut [P],
    journals: &mut [J],
    player: &mut PlayerCaller,
    clock: &mut C,
    speaker: &mut O,
    journal: &mut J,
    microphone: &mut I,
    reply: &mut P,
)
    requires many { (length links.old ≡ length callers.old) × (length journals.old ≡ length callers.old) }
    requires filers { AtEach (Stands plan.now ring.now) callers.old }
    requires player { PlayerStands plan.now ring.now player.old }
    ensures filers { FilersRanOver P.Link J.Sink plan.now ring.now callers.old links.old journals.old callers.new links.new journals.new }
    ensures player { PlayerRanOver C.TickClock O.Sink J.Sink I.Source P.Link plan.now ring.now (ports_at clock.old speaker.old journal.old microphone.old reply.old) (ports_at clock.new speaker.new journal.new microphone.new reply.new) player.new }
    ensures kin { O.kin speaker.old speaker.new }
    ensures journal_kin { J.kin journal.old journal.new }
{
    let mut filers = ||
        requires { IsSync R.row × IsSend P.row × IsSend J.row × (length links.now ≡ length callers.now) × (length journals.now ≡ length callers.now) × AtEach (Stands plan.now ring.now) callers.now }
        ensures { FilersRanOver P.Link J.Sink plan.entry.now ring.entry.now callers.entry.now links.entry.now journals.entry.now callers.exit.now links.exit.now journals.exit.now }
    { fan_out(rt, plan, ring, callers, links, journals) };
    join_mut(
        rt,
        &mut filers,
        &mut || run_playing(
            plan, ring, player, clock, speaker, journal, microphone, reply,
        ),
    );
}

// All callers, the player over the first journal.
fn run_all<
    R: Threads + Wait + Sync,
    P: Link + Send,
    I: Source + Send,
    O: Sink + Send,
    J: Sink + Send,
    C: TickClock + Send,
>(
    rt: &R,
    plan: &Plan,
    ring: &SlotRing,
    callers: &mut Vec<Caller>,
    links: &mut Vec<P>,
    journals: &mut Vec<J>,
    player: &mut PlayerCaller,
    clock: &mut C,
    speaker: &mut O,
    microphone: &mut I,
    reply: &mut P,
)
    requires links { length links.old.items ≡ length callers.old.items }
    requires journals { length journals.old.items ≡ 1 + length callers.old.items }
    requires filers { AreNew plan.now ring.now callers.old.items }
    requires player { PlayerStands plan.now ring.now player.old }
    ensures ran { AllRanOver P.Link I.Source O.Sink J.Sink C.TickClock plan.now ring.now callers.old.items (objects links.old reply.old microphone.old speaker.old journals.old clock.old) callers.new.items (objects links.new reply.new microphone.new speaker.new journals.new clock.new) player.new }
    ensures kin { O.kin speaker.old speaker.new }
{
    let (first, rest) = journals.as_mut_slice().split_at_mut(1);
    all_at_once(
        rt,
        plan,
        ring,
        callers.as_mut_slice(),
        links.as_mut_slice(),
        rest,
        player,
        clock,
        speaker,
        &mut first[0],
        microphone,
        reply,
    );
}

/// Runs all callers of a line at once: each filer over the link at its place, and the player over the other objects.
/// Journal 0 is the player's, and journal 1 + i is that of filer i; each gets its head first, and no link is received
/// from, nor a tick taken, for a journal that fails at it. Then all callers leave the ring, and what is left in it is
/// reported. It waits as long as the links and the clock do, and takes no memory.
pub fn run_line<
    R: Threads + Wait + Sync,
    P: Link + Send,
    I: Source + Send,
    O: Sink + Send,
    J: Sink + Send,
    C: TickClock + Send,
>(
    rt: &R,
    line: Line,
    links: &mut Vec<P>,
    reply: &mut P,
    microphone: &mut I,
    speaker: &mut O,
    journals: &mut Vec<J>,
    clock: &mut C,
) -> LineEnd
    requires links { length links.old.items ≡ line.filers }
    requires journals { length journals.old.items ≡ 1 + line.filers }
    ensures ran { RanOver P.Link I.Source O.Sink J.Sink C.TickClock line (objects links.old reply.old microphone.old speaker.old journals.old clock.old) (objects links.new reply.new microphone.new speaker.new journals.new clock.new) result }
    ensures kin { O.kin speaker.old speaker.new }
    ensures journals_kin { AreKin J.kin journals.old.items journals.new.items }
    ensures complete { EndsUnlessFault P.Link I.Source O.Sink J.Sink C.TickClock (objects links.old reply.old microphone.old speaker.old journals.old clock.old) (objects links.new reply.new microphone.new speaker.new journals.new clock.new) result }
{
    let Line {
        plan,
        ring,
        mut callers,
        mut player,
        blank,
    } = line;
    run_all(
        rt,
        &plan,
        &ring,
        &mut callers,
        links,
        journals,
        &mut player,
        clock,
        speaker,
        microphone,
        reply,
    );
    end_line(ring, callers, player, blank)
}
