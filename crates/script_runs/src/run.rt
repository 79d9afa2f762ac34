// A script's run as it goes on.
ghost use Rattle.std.specs.Prelude.{◌≡◌, ◌≤◌, ◌<◌, ◌+◌, ◌^◌, List, OnErr, length, false};
ghost use Rattle.gate_base.specs.Faults.{HasCause};
ghost use Rattle.recorder.specs.Tallies.{no_plays, no_tally};
ghost use Rattle.recorder.specs.declared.events.ScriptEvent.TheVariants.{File, Datagram};
ghost use Rattle.script_runs.specs.Calls.{IsCallable};
ghost use Rattle.gate_notes.specs.Exchange.{GiveFailed, giving_of};
ghost use Rattle.script_runs.specs.declared.playback.Playback.{Playback};
ghost use Rattle.script_runs.specs.declared.run.Run.{Run};

use crate::filers::take_by;
use crate::playback::Playback;
use filer::{Filer, count_end};
use frame_codec::Frame33;
use gate_io::{Failed, Sink};
use gate_notes::{give_end, give_reply};
use player::{ask, count_calls, opened_after};
use playout::{MapFiler, MapLine, MapPlayer};
use recorder::{Packet, PlayTally, ScriptEvent, Tally};

/// A script's run: the line that its events call, the callers' states, and what was counted of the calls.
#[derive(Drop)]
pub struct Run {
    pub line: MapLine,
    /// The filers, by their caller numbers.
    pub filers: Vec<Filer>,
    /// Whether the player has seen a base or made a tick.
    pub opened: bool,
    pub played: PlayTally,
    pub filed: Tally,
}

impl Run {
    ghost use Rattle.script_runs.specs.Applies.{HasApplied, HasFiled, HasPlayed};

    /// A run before its first event.
    pub fn new(line: MapLine, filers: Vec<Filer>) -> Run
        ensures { result ≡ record { line = line; filers = filers; opened = false; played = no_plays; filed = no_tally } }
    {
        Run {
            line,
            filers,
            opened: false,
            played: PlayTally::new(),
            filed: Tally::new(),
        }
    }

    /// Makes the calls of an event, and answers the run after it. The output gets what the playback has of the
    /// calls, and the notes the event's lines.
    pub fn apply<O: Sink, E: Sink>(
        self,
        event: &ScriptEvent,
        playback: &mut Playback,
        output: &mut O,
        notes: &mut E,
    ) -> Result<Run, Failed>
        requires callable { IsCallable self.line.filers event.now }
        requires filers { length self.filers.items ≡ self.line.filers }
        requires position { self.line.machine.position + 1 < 2 ^ 33 }
        ensures applied { HasApplied event.now self result playback.old playback.new (giving_of O.Sink E.Sink output.old output.new notes.old notes.new) }
        ensures later { (O.faults output.old ≤ O.faults output.new) × (E.faults notes.old ≤ E.faults notes.new) }
        ensures failed { OnErr result (GiveFailed O.Sink E.Sink output.old output.new notes.old notes.new) }
        ensures kin { O.kin output.old output.new × E.kin notes.old notes.new }
    {
        match event {
            ScriptEvent::Tick => self.play(true, playback, output),
            ScriptEvent::File {
                caller,
                number,
                frame,
            } => self.file(*caller, *number, frame, notes),
            ScriptEvent::Datagram { caller, at, octets } => {
                self.datagram(*caller, *at, octets, notes)
            }
            ScriptEvent::Beat => {
                let opened = self.opened;
                self.play(opened, playback, output)
            }
        }
    }

    // What the player plays: `opened` says whether a base was seen or a tick made before. It holds no number.
    fn play<O: Sink>(
        self,
        opened: bool,
        playback: &mut Playback,
        output: &mut O,
    ) -> Result<Run, Failed>
        requires position { self.line.machine.position + 1 < 2 ^ 33 }
        ensures applied { HasPlayed opened self result playback.old playback.new (O.given output.old) (O.given output.new) }
        ensures cause { HasCause (O.faults output.old) (O.faults output.new) result }
        ensures kin { O.kin output.old output.new }
    {
        let Run {
            line,
            filers,
            opened: before,
            mut played,
            filed,
        } = self;
        let mut side = MapPlayer::of(line);
        let calls = ask(0, 0, opened, &mut side);
        count_calls(&calls, &mut played);
        let run = Run {
            line: side.back(),
            filers,
            opened: opened_after(before, &calls),
            played,
            filed,
        };
        match playback.beat(&calls, output) {
            Ok(()) => Ok(run),
            Err(Failed) => Err(Failed),
        }
    }

    // A filer's bare call.
    fn file<E: Sink>(
        mut self,
        caller: u8,
        number: u64,
        frame: &Frame33,
        notes: &mut E,
    ) -> Result<Run, Failed>
        requires caller { caller < self.line.filers }
        requires number { number < 2 ^ 47 }
        ensures applied { HasFiled (File caller number frame.now) self result (E.given notes.old) (E.given notes.new) }
        ensures cause { HasCause (E.faults notes.old) (E.faults notes.new) result }
        ensures kin { E.kin notes.old notes.new }
    {
        let reply = self.line.file(caller as u32, number, frame);
        self.filed.reply(&reply);
        match give_reply(caller, number, &reply, notes) {
            Ok(()) => Ok(self),
            Err(Failed) => Err(Failed),
        }
    }

    // A filer takes a datagram.
    fn datagram<E: Sink>(
        self,
        caller: u8,
        at: u32,
        octets: &Packet,
        notes: &mut E,
    ) -> Result<Run, Failed>
        requires caller { caller < self.line.filers }
        requires filers { length self.filers.items ≡ self.line.filers }
        ensures applied { HasFiled (Datagram caller at octets.now) self result (E.given notes.old) (E.given notes.new) }
        ensures cause { HasCause (E.faults notes.old) (E.faults notes.new) result }
        ensures kin { E.kin notes.old notes.new }
    {
        let Run {
            line,
            mut filers,
            opened,
            played,
            mut filed,
        } = self;
        let mut side = MapFiler::of(line, caller as u32);
        let outcome = take_by(filers.as_mut_slice(), caller, &mut side, octets, at);
        count_end(&mut filed, &outcome.end);
        let run = Run {
            line: side.back(),
            filers,
            opened,
            played,
            filed,
        };
        match give_end(caller, &outcome.end, notes) {
            Ok(()) => Ok(run),
            Err(Failed) => Err(Failed),
        }
    }
}
