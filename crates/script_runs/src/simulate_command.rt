// The command `simulate`: a script becomes the player's journal, or the speech that is heard.
ghost use Rattle.std.specs.Prelude.{◌≡◌, ◌≤◌, ◌⊎◌, List, Err, IfOk};
ghost use Rattle.gate_base.specs.Faults.{HasCause, Rose};
ghost use Rattle.gate_io.specs.Flow.{Gives};
ghost use Rattle.script_runs.specs.Calls.{opening_callers};
ghost use Rattle.gate_notes.specs.Notes.{tallies_text};
ghost use Rattle.gate_notes.specs.Exchange.{GiveFailed, exchange_of};
ghost use Rattle.script_runs.specs.Playing.{end_text};
ghost use Rattle.script_runs.specs.Ran.{Finishes, HasRun, IsOpened, IsStarted, StopsAt};
ghost use Rattle.script_runs.specs.Simulate.{Completes, Ends, Stops};

use crate::filers::new_filers;
use crate::playback::Playback;
use crate::run::Run;
use gate_base::OutOfMemory;
use gate_io::{Failed, Sink, Source};
use gate_notes::{Status, Stop, give_summary, note_fault};
use playout::MapLine;
use recorder::{Head, RecordEnd, ScriptReader, scripts_have_no_fault};
use std::alloc::Global;

// Runs the events of a script to its end mark, its first fault or a fault of the outside.
fn run_events<I: Source, O: Sink, E: Sink>(
    head: &Head,
    reader: &mut ScriptReader,
    start: Run,
    playback: &mut Playback,
    input: &mut I,
    output: &mut O,
    notes: &mut E,
) -> Result<Run, Stop>
    requires { IsStarted head.now reader.old start }
    ensures ran { HasRun head.now playback.old playback.new (exchange_of I.Source O.Sink E.Sink input.old output.old output.new notes.old notes.new) result }
    ensures stops { StopsAt result head.now playback.old playback.new (I.left input.old) (I.left input.new) (O.given output.old) (O.given output.new) (E.given notes.old) (E.given notes.new) }
    ensures later { (I.faults input.old ≤ I.faults input.new) × (O.faults output.old ≤ O.faults output.new) × (E.faults notes.old ≤ E.faults notes.new) }
    ensures read { result ≡ Err Stop.ReadFault → Rose (I.faults input.old) (I.faults input.new) }
    ensures write { result ≡ Err Stop.WriteFault → GiveFailed O.Sink E.Sink output.old output.new notes.old notes.new }
    ensures kin { O.kin output.old output.new × E.kin notes.old notes.new }
{
    let mut run = start;
    'events: loop {
        match reader.next(input) {
            Ok(Some(event)) => match run.apply(&event, playback, output, notes) {
                Ok(next) => run = next,
                Err(Failed) => return Err(Stop::WriteFault),
            },
            Ok(None) => return Ok(run),
            Err(RecordEnd::Fault(fault)) => return Err(Stop::Refused(fault)),
            Err(RecordEnd::ReadFailed) => return Err(Stop::ReadFault),
        }
    }
}

// Gives the output's end and the summary.
fn finish<O: Sink, E: Sink>(run: &Run, playback: &Playback, output: &mut O, notes: &mut E) -> Status
    ensures finishes { Finishes result (O.given output.old) (O.given output.new) (E.given notes.old) (E.given notes.new) (end_text playback.now) (tallies_text run.now.played run.now.filed) }
    ensures later { (O.faults output.old ≤ O.faults output.new) × (E.faults notes.old ≤ E.faults notes.new) }
    ensures write { result ≡ Status.WriteFault → GiveFailed O.Sink E.Sink output.old output.new notes.old notes.new }
    ensures kin { O.kin output.old output.new × E.kin notes.old notes.new }
{
    match playback.end(output) {
        Ok(()) => match give_summary(&run.played, &run.filed, notes) {
            Ok(()) => Status::Done,
            Err(Failed) => Status::WriteFault,
        },
        Err(Failed) => Status::WriteFault,
    }
}

// A run before its first event: all the memory that a script wants.
fn open_run(alloc: Global, head: &Head) -> Result<Run, OutOfMemory>
    ensures { IfOk result (IsOpened head.now) }
{
    let line = match MapLine::new(alloc, head.filers as u32, head.g as u32) {
        Ok(line) => line,
        Err(OutOfMemory) => return Err(OutOfMemory),
    };
    match new_filers(alloc, head.filers, head.delay) {
        Ok(filers) => Ok(Run::new(line, filers)),
        Err(OutOfMemory) => Err(OutOfMemory),
    }
}

/// Runs a script over the playout machine, in the script's own order. The output gets the player's journal, or
/// with the seed of a voice the speech that is heard: 320 octets for each beat and each tick, which are 160
/// samples of 16 bits at 8 kHz, the low octet first. The notes get the datagrams that were refused, the replies
/// that are not Accepted, and a summary.
///
/// Memory is taken after the script's head alone, before anything is given. A fault ends the run there,
/// and what was given stays: what all events that were read give, and where a give failed what all but the
/// last give, and a prefix of what that one gives.
pub fn simulate<I: Source, O: Sink, E: Sink>(
    alloc: Global,
    voice: Option<[u8; 32]>,
    input: &mut I,
    output: &mut O,
    notes: &mut E,
) -> Status
    ensures ends { Ends voice result (exchange_of I.Source O.Sink E.Sink input.old output.old output.new notes.old notes.new) }
    ensures stops { Stops voice result (exchange_of I.Source O.Sink E.Sink input.old output.old output.new notes.old notes.new) (I.left input.new) }
    ensures later { (I.faults input.old ≤ I.faults input.new) × (O.faults output.old ≤ O.faults output.new) × (E.faults notes.old ≤ E.faults notes.new) }
    ensures read { result ≡ Status.ReadFault → Rose (I.faults input.old) (I.faults input.new) }
    ensures write { result ≡ Status.WriteFault → GiveFailed O.Sink E.Sink output.old output.new notes.old notes.new }
    ensures complete { Completes result (I.left input.old) (Rose (I.faults input.old) (I.faults input.new) ⊎ GiveFailed O.Sink E.Sink output.old output.new notes.old notes.new) }
    ensures kin { O.kin output.old output.new × E.kin notes.old notes.new }
{
    // A valid script is never refused.
    scripts_have_no_fault();
    let mut reader = ScriptReader::new();
    let head = match reader.head(input) {
        Ok(head) => head,
        Err(RecordEnd::Fault(fault)) => {
            note_fault(0, fault, notes);
            return Status::Input;
        }
        Err(RecordEnd::ReadFailed) => return Status::ReadFault,
    };
    let run = match open_run(alloc, &head) {
        Ok(run) => run,
        Err(OutOfMemory) => return Status::OutOfMemory,
    };
    let mut playback = Playback::new(voice);
    match playback.front(&head, output) {
        Ok(()) => {}
        Err(Failed) => return Status::WriteFault,
    }
    match run_events(&head, &mut reader, run, &mut playback, input, output, notes) {
        Ok(last) => finish(&last, &playback, output, notes),
        Err(Stop::Refused(fault)) => {
            note_fault(0, fault, notes);
            Status::Input
        }
        Err(Stop::ReadFault) => Status::ReadFault,
        Err(Stop::WriteFault) => Status::WriteFault,
    }
}
