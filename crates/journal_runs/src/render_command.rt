// The command `render`: a player's journal becomes the speech that it played.
ghost use Rattle.std.specs.Prelude.{◌≡◌, ◌≤◌, ◌⊎◌};
ghost use Rattle.gate_base.specs.Faults.{Rose};
ghost use Rattle.gate_notes.specs.Exchange.{GiveFailed, exchange_of};
ghost use Rattle.journal_runs.specs.Render.{Completes, Ends, StopsAt};

use gate_io::{Failed, Sink, Source};
use gate_notes::{Status, give_plays, note_fault};
use replay_check::RenderEnd;

/// Plays a player's journal by a voice of this seed: the output gets 320 octets for each beat of 20 ms, and the notes
/// what the beats came to.
///
/// It takes no memory. A fault ends the run there, and what was given stays: the speech of all events that were read,
/// and where a give of speech failed that of all but the last, and a prefix of that.
pub fn render<I: Source, O: Sink, E: Sink>(
    seed: [u8; 32],
    input: &mut I,
    output: &mut O,
    notes: &mut E,
) -> Status
    ensures ends { Ends seed result (exchange_of I.Source O.Sink E.Sink input.old output.old output.new notes.old notes.new) }
    ensures stops { StopsAt seed result (exchange_of I.Source O.Sink E.Sink input.old output.old output.new notes.old notes.new) (I.left input.new) }
    ensures later { (I.faults input.old ≤ I.faults input.new) × (O.faults output.old ≤ O.faults output.new) × (E.faults notes.old ≤ E.faults notes.new) }
    ensures read { result ≡ Status.ReadFault → Rose (I.faults input.old) (I.faults input.new) }
    ensures write { result ≡ Status.WriteFault → GiveFailed O.Sink E.Sink output.old output.new notes.old notes.new }
    ensures complete { Completes result (I.left input.old) (Rose (I.faults input.old) (I.faults input.new) ⊎ GiveFailed O.Sink E.Sink output.old output.new notes.old notes.new) }
    ensures kin { O.kin output.old output.new × E.kin notes.old notes.new }
{
    match replay_check::render(seed, input, output) {
        RenderEnd::Done(tally) => match give_plays(&tally, notes) {
            Ok(()) => Status::Done,
            Err(Failed) => Status::WriteFault,
        },
        RenderEnd::Refused(fault) => {
            note_fault(0, fault, notes);
            Status::Input
        }
        RenderEnd::ReadFault => Status::ReadFault,
        RenderEnd::WriteFault => Status::WriteFault,
    }
}
