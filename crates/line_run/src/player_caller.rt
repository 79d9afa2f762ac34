// The player of a line, and its run.
ghost use Rattle.std.specs.Prelude.{◌≡◌, ◌≤◌, []};
ghost use Rattle.gate_base.specs.Faults.{Rose};
ghost use Rattle.line_run.specs.Callers.{PlayerStands};
ghost use Rattle.line_run.specs.Objects.{PlayedOver, PlayerRanOver, ports_at};

use crate::plan::Plan;
use gate_io::{Link, Sink, Source, TickClock};
use player::{PlayTally, PlayerEnd};
use recorder::write_play_head;
use slot_ring::{PlayerPass, RingPlayer, SlotRing, Steps};
use std::marker::Brand;
use std::sync::ledger::{Blank, Ledger};

/// The player that has enlisted: its pass where it does not run, and what came of its run.
#[derive(Drop)]
pub(crate) struct PlayerCaller {
    pub(crate) pass: Option<PlayerPass>,
    pub(crate) end: PlayerEnd,
    pub(crate) tally: PlayTally,
}

/// Gives the journal its head, and runs the player over its objects. Where the head fails no tick is taken.
pub(crate) fn run_playing<I: Source, O: Sink, J: Sink, P: Link, C: TickClock>(
    plan: &Plan,
    ring: &SlotRing,
    caller: &mut PlayerCaller,
    clock: &mut C,
    speaker: &mut O,
    journal: &mut J,
    microphone: &mut I,
    reply: &mut P,
)
    requires { PlayerStands plan.now ring.now caller.old }
    ensures ran { PlayerRanOver C.TickClock O.Sink J.Sink I.Source P.Link plan.now ring.now (ports_at clock.old speaker.old journal.old microphone.old reply.old) (ports_at clock.new speaker.new journal.new microphone.new reply.new) caller.new }
    ensures kin { O.kin speaker.old speaker.new }
    ensures journal_kin { J.kin journal.old journal.new }
{
    if write_play_head(&plan.head(), journal).is_err() {
        caller.end = PlayerEnd::JournalFault;
        caller.tally = PlayTally::new();
        return;
    }
    let Some(pass) = caller.pass.take() else {
        unreachable!()
    };
    let (pass, end, tally) = play_over::<Brand, I, O, J, P, C>(
        plan,
        ring,
        pass,
        Blank::new(1),
        clock,
        speaker,
        journal,
        microphone,
        reply,
    );
    caller.pass = Some(pass);
    caller.end = end;
    caller.tally = tally;
}

fn play_over<L: Ledger, I: Source, O: Sink, J: Sink, P: Link, C: TickClock>(
    plan: &Plan,
    ring: &SlotRing,
    pass: PlayerPass,
    blank: Blank,
    clock: &mut C,
    speaker: &mut O,
    journal: &mut J,
    microphone: &mut I,
    reply: &mut P,
) -> (PlayerPass, PlayerEnd, PlayTally)
    requires ring { pass.ring ≡ ring.now }
    requires list { pass.list ≡ [] }
    requires slots { ring.now.shape.g ≡ plan.now.options.g }
    requires name { blank.name ≡ L.name }
    requires parts { (blank.parts ≡ L.parts) × (blank.parts ≡ 1) }
    ensures pass { (result.0.ring ≡ pass.ring) × (result.0.who ≡ pass.who) }
    ensures played { PlayedOver C.TickClock O.Sink J.Sink I.Source P.Link plan.now.options (ports_at clock.old speaker.old journal.old microphone.old reply.old) (ports_at clock.new speaker.new journal.new microphone.new reply.new) result.0.list result.1 result.2 }
    ensures speaker_later { O.faults speaker.old ≤ O.faults speaker.new }
    ensures speaker_fault { result.1 ≡ PlayerEnd.SpeakerFault → Rose (O.faults speaker.old) (O.faults speaker.new) }
    ensures journal_later { J.faults journal.old ≤ J.faults journal.new }
    ensures journal_fault { result.1 ≡ PlayerEnd.JournalFault → Rose (J.faults journal.old) (J.faults journal.new) }
    ensures mic_later { I.faults microphone.old ≤ I.faults microphone.new }
    ensures mic_fault { result.1 ≡ PlayerEnd.MicFault → Rose (I.faults microphone.old) (I.faults microphone.new) }
    ensures reply_later { P.faults reply.old ≤ P.faults reply.new }
    ensures reply_fault { result.1 ≡ PlayerEnd.ReplyFault → Rose (P.faults reply.old) (P.faults reply.new) }
    ensures kin { O.kin speaker.old speaker.new }
    ensures journal_kin { J.kin journal.old journal.new }
{
    let mut side = RingPlayer::new(ring, pass, Steps::<L>::open(blank));
    let mut player = plan.player();
    let end = player.run(&mut side, clock, speaker, journal, microphone, reply);
    (side.into_pass(), end, player.tally())
}
