// The command `verify`: whether the journals of a line have a legal history.
ghost use Rattle.std.specs.Prelude.{ℕ, ◌≡◌, ◌≤◌, ◌⊎◌, List, Option, length, map};
ghost use Rattle.gate_notes.specs.Exchange.{GainedUnlessFault, GiveFailed, NoneFell, SomeRose, giving_of};
ghost use Rattle.journal_runs.specs.Verify.{Completes, Ends, HasVerdict, StopsAtInput};
ghost use Rattle.journal_runs.specs.VerifyRuns.{IsRefused};

use crate::journals::{Unread, read_journals};
use crate::order_lines::give_order;
use gate_base::OutOfMemory;
use gate_io::{Failed, Sink, Source};
use gate_notes::{Status, give_illegal, give_legal, note_fault};
use recorder::{filer_journals_have_no_fault, player_journals_have_no_fault};
use replay_check::Verdict;
use std::alloc::Global;

// Notes why the journals were not read. A fault of the notes changes nothing: the input's came first.
fn refuse<E: Sink>(unread: Unread, notes: &mut E) -> Status
    ensures refused { IsRefused unread result (E.given notes.old) (E.given notes.new) (E.faults notes.old) (E.faults notes.new) }
    ensures later { E.faults notes.old ≤ E.faults notes.new }
    ensures kin { E.kin notes.old notes.new }
{
    match unread {
        Unread::Fault { input, fault } => {
            note_fault(input, fault, notes);
            Status::Input
        }
        Unread::ReadFault => Status::ReadFault,
        Unread::OutOfMemory => Status::OutOfMemory,
    }
}

// Gives the verdict on the journals of this many filers.
fn give_verdict<O: Sink, E: Sink>(
    verdict: &Verdict,
    filers: u32,
    output: &mut O,
    notes: &mut E,
) -> Status
    ensures ends { (inputs : List (Option (List ℕ))) → HasVerdict inputs filers verdict.now → Ends result inputs (giving_of O.Sink E.Sink output.old output.new notes.old notes.new) }
    ensures comes { (result ≡ Status.Done) ⊎ (result ≡ Status.Illegal) ⊎ (result ≡ Status.WriteFault) }
    ensures later { (O.faults output.old ≤ O.faults output.new) × (E.faults notes.old ≤ E.faults notes.new) }
    ensures write { result ≡ Status.WriteFault → GiveFailed O.Sink E.Sink output.old output.new notes.old notes.new }
    ensures kin { O.kin output.old output.new × E.kin notes.old notes.new }
{
    match verdict {
        Verdict::Legal(order) => match give_order(order, filers, output) {
            Ok(()) => match give_legal(order.len() as u64, notes) {
                Ok(()) => Status::Done,
                Err(Failed) => Status::WriteFault,
            },
            Err(Failed) => Status::WriteFault,
        },
        Verdict::Illegal { caller, place } => match give_illegal(*caller, *place, notes) {
            Ok(()) => Status::Illegal,
            Err(Failed) => Status::WriteFault,
        },
    }
}

/// Judges the journals of one line: the first input is the player's, and the others are the filers', in the order of their
/// numbers. Where they have a legal history, the output gets the caller of each call, a line each, and the notes how many
/// calls there are; where they have none, the notes get the caller and the place where no call is possible.
///
/// All journals are read before anything is given. The first fault of an input, or of its head, ends the run there.
pub fn verify<I: Source, O: Sink, E: Sink>(
    alloc: Global,
    inputs: &mut [I],
    output: &mut O,
    notes: &mut E,
) -> Status
    requires { 2 ≤ length inputs.old }
    ensures ends { Ends result (map I.left inputs.old) (giving_of O.Sink E.Sink output.old output.new notes.old notes.new) }
    ensures many { length inputs.new ≡ length inputs.old }
    ensures later { NoneFell (map I.faults inputs.old) (map I.faults inputs.new) × (O.faults output.old ≤ O.faults output.new) × (E.faults notes.old ≤ E.faults notes.new) }
    ensures read { result ≡ Status.ReadFault → SomeRose (map I.faults inputs.old) (map I.faults inputs.new) }
    ensures behind { StopsAtInput result (map I.left inputs.old) I.faults inputs.old inputs.new (GainedUnlessFault (E.given notes.old) (E.given notes.new) (E.faults notes.old) (E.faults notes.new)) }
    ensures write { result ≡ Status.WriteFault → GiveFailed O.Sink E.Sink output.old output.new notes.old notes.new }
    ensures complete { Completes result (map I.left inputs.old) (SomeRose (map I.faults inputs.old) (map I.faults inputs.new) ⊎ GiveFailed O.Sink E.Sink output.old output.new notes.old notes.new) }
    ensures kin { O.kin output.old output.new × E.kin notes.old notes.new }
{
    player_journals_have_no_fault();
    filer_journals_have_no_fault();
    let journals = match read_journals(alloc, inputs) {
        Ok(journals) => journals,
        Err(unread) => return refuse(unread, notes),
    };
    match replay_check::verify(alloc, &journals.filers, &journals.player) {
        Ok(verdict) => {
            let filers = journals.player.head().filers as u32;
            give_verdict(&verdict, filers, output, notes)
        }
        Err(OutOfMemory) => Status::OutOfMemory,
    }
}
