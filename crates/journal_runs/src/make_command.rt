// The command `make`: a script from random words.
ghost use Rattle.std.specs.Prelude.{◌≡◌, ◌≤◌};
ghost use Rattle.gate_notes.specs.Exchange.{GiveFailed, giving_of};
ghost use Rattle.journal_runs.specs.Make.{Completes, Ends};

use gate_base::OutOfMemory;
use gate_io::{Failed, Sink};
use gate_notes::{Status, give_summary};
use replay_check::{Made, make_script};
use std::alloc::Global;

/// Makes a script of `count` rounds, 1 to 1000000, for 1 to 64 filers: each round is a File and a Tick. The output
/// gets the script, and the notes the summary of its run.
///
/// Memory is wanted before anything is given.
pub fn make<O: Sink, E: Sink>(
    alloc: Global,
    seed: u64,
    count: u32,
    filers: u32,
    output: &mut O,
    notes: &mut E,
) -> Status
    requires rounds { (1 ≤ count) × (count ≤ 1000000) }
    requires filers { (1 ≤ filers) × (filers ≤ 64) }
    ensures ends { Ends seed count filers result (giving_of O.Sink E.Sink output.old output.new notes.old notes.new) }
    ensures later { (O.faults output.old ≤ O.faults output.new) × (E.faults notes.old ≤ E.faults notes.new) }
    ensures write { result ≡ Status.WriteFault → GiveFailed O.Sink E.Sink output.old output.new notes.old notes.new }
    ensures complete { Completes result (GiveFailed O.Sink E.Sink output.old output.new notes.old notes.new) }
    ensures kin { O.kin output.old output.new × E.kin notes.old notes.new }
{
    match make_script(alloc, seed, count, filers, output) {
        Ok(Made::Done(plays, tally)) => match give_summary(&plays, &tally, notes) {
            Ok(()) => Status::Done,
            Err(Failed) => Status::WriteFault,
        },
        Ok(Made::WriteFault) => Status::WriteFault,
        Err(OutOfMemory) => Status::OutOfMemory,
    }
}
