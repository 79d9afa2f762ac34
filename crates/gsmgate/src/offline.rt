// The commands that work on files.
ghost use Rattle.std.specs.Prelude.{◌≡◌, ◌≤◌, ◌↔◌, ◌⊎◌, [], ◌∷◌, Some, true, false, map, length};
ghost use Rattle.gate_base.specs.Faults.{Rose};
ghost use Rattle.gate_notes.specs.Exchange.{NoneFell, SomeRose};
ghost use Rattle.command_line.specs.Lines.{has_inputs};
ghost use Rattle.command_line.specs.Ranges.{IsCommand, IsWithin};
ghost use Rattle.command_line.specs.declared.line.Line.TheVariants.{Files};
ghost use Rattle.gsmgate.specs.Commands.{CompletesAs, EndsAs, StopsAs};
ghost use Rattle.gsmgate.specs.Offline.{FilesRan, FilesStopped, LineRanAs, LineStoppedAs, NoCountFell, OneFailed, OnlyRefused, RanAs, SomeFailed, StoppedAs, UnreadUnlessFit, files_fit, lent, passed};

use command_line::{Command, FilesLine, Line, Refusal, read_line};
use gate_io::{Sink, Source};
use gate_notes::{Status, refuse_words};
use journal_runs::{make, render, verify};
use script_runs::simulate;
use speech_files::{decode, encode};
use std::alloc::Global;

/// Does the command of the words over the inputs, the output and the notes that are handed in.
///
/// `Usage` comes exactly where the arguments are not a valid command over files, or another number of inputs was handed in than they
/// name, unless memory is out: nothing is taken then, and nothing given but the line `usage` to the notes.
pub fn run_offline<I: Source, O: Sink, E: Sink>(
    alloc: Global,
    words: &Vec<String>,
    inputs: &mut Vec<I>,
    output: &mut O,
    notes: &mut E,
) -> Status
    ensures usage { result ≡ Status.Usage → files_fit words.now inputs.old ≡ false }
    ensures usage_only { files_fit words.now inputs.old ≡ false → (result ≡ Status.Usage) ⊎ (result ≡ Status.OutOfMemory) }
    ensures untouched { result ≡ Status.Usage → OnlyRefused E.Sink (lent inputs.old output.old notes.old) (lent inputs.new output.new notes.new) }
    ensures unread { UnreadUnlessFit words.now result (lent inputs.old output.old notes.old) (lent inputs.new output.new notes.new) }
    ensures ran { FilesRan I.Source O.Sink E.Sink words.now result (lent inputs.old output.old notes.old) (lent inputs.new output.new notes.new) }
    ensures stops { FilesStopped I.Source O.Sink E.Sink words.now result (lent inputs.old output.old notes.old) (lent inputs.new output.new notes.new) }
    ensures many { length inputs.new.items ≡ length inputs.old.items }
    ensures read { result ≡ Status.ReadFault → SomeRose (map I.faults inputs.old.items) (map I.faults inputs.new.items) }
    ensures write { result ≡ Status.WriteFault → Rose (O.faults output.old) (O.faults output.new) ⊎ Rose (E.faults notes.old) (E.faults notes.new) }
    ensures later { NoCountFell I.Source O.Sink E.Sink (lent inputs.old output.old notes.old) (lent inputs.new output.new notes.new) }
    ensures kin { O.kin output.old output.new × E.kin notes.old notes.new }
{
    match read_line(alloc, words) {
        Ok(line) => run_line(alloc, &line, inputs, output, notes),
        Err(Refusal::Usage) => refuse_words(notes),
        Err(Refusal::OutOfMemory) => Status::OutOfMemory,
    }
}

// Does the command of a line.
fn run_line<I: Source, O: Sink, E: Sink>(
    alloc: Global,
    line: &Line<'_>,
    inputs: &mut Vec<I>,
    output: &mut O,
    notes: &mut E,
) -> Status
    requires { IsWithin line.now }
    ensures usage { (result ≡ Status.Usage) ↔ (has_inputs (Some line.now) (length inputs.old.items) ≡ false) }
    ensures untouched { result ≡ Status.Usage → OnlyRefused E.Sink (lent inputs.old output.old notes.old) (lent inputs.new output.new notes.new) }
    ensures ran { LineRanAs I.Source O.Sink E.Sink line.now result (lent inputs.old output.old notes.old) (lent inputs.new output.new notes.new) }
    ensures stops { LineStoppedAs I.Source O.Sink E.Sink line.now result (lent inputs.old output.old notes.old) (lent inputs.new output.new notes.new) }
    ensures many { length inputs.new.items ≡ length inputs.old.items }
    ensures read { result ≡ Status.ReadFault → SomeRose (map I.faults inputs.old.items) (map I.faults inputs.new.items) }
    ensures write { result ≡ Status.WriteFault → Rose (O.faults output.old) (O.faults output.new) ⊎ Rose (E.faults notes.old) (E.faults notes.new) }
    ensures later { NoCountFell I.Source O.Sink E.Sink (lent inputs.old output.old notes.old) (lent inputs.new output.new notes.new) }
    ensures kin { O.kin output.old output.new × E.kin notes.old notes.new }
{
    match line {
        Line::Files(files) => run_over(alloc, files, inputs, output, notes),
        Line::Serve(_) => refuse_words(notes),
    }
}

// Does the command of a line over files.
fn run_over<I: Source, O: Sink, E: Sink>(
    alloc: Global,
    line: &FilesLine<'_>,
    inputs: &mut Vec<I>,
    output: &mut O,
    notes: &mut E,
) -> Status
    requires { IsCommand line.now.command (length line.now.inputs) }
    ensures usage { (result ≡ Status.Usage) ↔ (has_inputs (Some (Files line.now)) (length inputs.old.items) ≡ false) }
    ensures untouched { result ≡ Status.Usage → OnlyRefused E.Sink (lent inputs.old output.old notes.old) (lent inputs.new output.new notes.new) }
    ensures ran { (result ≡ Status.Usage → ⊥) → RanAs I.Source O.Sink E.Sink line.now.command result (lent inputs.old output.old notes.old) (lent inputs.new output.new notes.new) }
    ensures stops { (result ≡ Status.Usage → ⊥) → StoppedAs I.Source O.Sink E.Sink line.now.command result (lent inputs.old output.old notes.old) (lent inputs.new output.new notes.new) }
    ensures many { length inputs.new.items ≡ length inputs.old.items }
    ensures read { result ≡ Status.ReadFault → SomeRose (map I.faults inputs.old.items) (map I.faults inputs.new.items) }
    ensures write { result ≡ Status.WriteFault → Rose (O.faults output.old) (O.faults output.new) ⊎ Rose (E.faults notes.old) (E.faults notes.new) }
    ensures later { NoCountFell I.Source O.Sink E.Sink (lent inputs.old output.old notes.old) (lent inputs.new output.new notes.new) }
    ensures kin { O.kin output.old output.new × E.kin notes.old notes.new }
{
    if line.inputs.len() != inputs.len() {
        return refuse_words(notes);
    }
    run_command(alloc, line.command, inputs.as_mut_slice(), output, notes)
}

// Does a command over its inputs.
fn run_command<I: Source, O: Sink, E: Sink>(
    alloc: Global,
    command: Command,
    inputs: &mut [I],
    output: &mut O,
    notes: &mut E,
) -> Status
    requires { IsCommand command (length inputs.old) }
    ensures ends { EndsAs command result (map I.left inputs.old) (passed O.Sink E.Sink output.old notes.old output.new notes.new) }
    ensures stops { StopsAs command result I.left I.faults inputs.old inputs.new (passed O.Sink E.Sink output.old notes.old output.new notes.new) }
    ensures line { result ≡ Status.Usage → ⊥ }
    ensures later { NoneFell (map I.faults inputs.old) (map I.faults inputs.new) × (O.faults output.old ≤ O.faults output.new) × (E.faults notes.old ≤ E.faults notes.new) }
    ensures read { result ≡ Status.ReadFault → SomeRose (map I.faults inputs.old) (map I.faults inputs.new) }
    ensures write { result ≡ Status.WriteFault → Rose (O.faults output.old) (O.faults output.new) ⊎ Rose (E.faults notes.old) (E.faults notes.new) }
    ensures complete { CompletesAs command result (map I.left inputs.old) (SomeFailed I.Source O.Sink E.Sink inputs.old output.old notes.old inputs.new output.new notes.new) }
    ensures kin { O.kin output.old output.new × E.kin notes.old notes.new }
{
    match command {
        Command::Verify => verify(alloc, inputs, output, notes),
        Command::Make {
            seed,
            count,
            filers,
        } => make(alloc, seed, count, filers, output, notes),
        _ => run_one(alloc, command, &mut inputs[0], output, notes),
    }
}

// Does a command over its one input.
fn run_one<I: Source, O: Sink, E: Sink>(
    alloc: Global,
    command: Command,
    input: &mut I,
    output: &mut O,
    notes: &mut E,
) -> Status
    requires { IsCommand command 1 }
    ensures ends { EndsAs command result (I.left input.old ∷ []) (passed O.Sink E.Sink output.old notes.old output.new notes.new) }
    ensures stops { StopsAs command result I.left I.faults (input.old ∷ []) (input.new ∷ []) (passed O.Sink E.Sink output.old notes.old output.new notes.new) }
    ensures line { result ≡ Status.Usage → ⊥ }
    ensures later { (I.faults input.old ≤ I.faults input.new) × (O.faults output.old ≤ O.faults output.new) × (E.faults notes.old ≤ E.faults notes.new) }
    ensures read { result ≡ Status.ReadFault → Rose (I.faults input.old) (I.faults input.new) }
    ensures write { result ≡ Status.WriteFault → Rose (O.faults output.old) (O.faults output.new) ⊎ Rose (E.faults notes.old) (E.faults notes.new) }
    ensures complete { CompletesAs command result (I.left input.old ∷ []) (OneFailed I.Source O.Sink E.Sink input.old output.old notes.old input.new output.new notes.new) }
    ensures kin { O.kin output.old output.new × E.kin notes.old notes.new }
{
    match command {
        Command::Simulate { voice } => simulate(alloc, voice, input, output, notes),
        Command::Decode => decode(input, output, notes),
        Command::Encode => encode(input, output, notes),
        Command::Render { seed } => render(seed, input, output, notes),
        Command::Verify => unreachable!(),
        Command::Make { .. } => unreachable!(),
    }
}
