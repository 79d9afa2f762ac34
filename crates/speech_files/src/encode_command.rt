// The command `encode`: speech becomes coded frames.
ghost use Rattle.std.specs.Prelude.{◌≡◌, ◌≤◌, ◌⊎◌, List, ℕ, Err};
ghost use Rattle.gate_base.specs.Faults.{HasCause, Rose};
ghost use Rattle.speech_files.specs.Encode.{Completes, Ends};
ghost use Rattle.speech_files.specs.EncodeRuns.{GivesFrameOf, HasEncoded};
ghost use Rattle.gate_notes.specs.Exchange.{GiveFailed, exchange_of};

use fr_encoder::Encoder;
use frame_codec::pack;
use gate_io::{Failed, Sink, Source};
use gate_notes::{Status, Stop, give_frames, note_fault};
use player::take_piece;
use recorder::RecordFault;

/// The most pieces that a run takes: 93 hours of speech.
const PIECE_LIMIT: u32 = 16777216;

// Codes the next piece, and gives its frame.
fn code_piece<O: Sink>(
    encoder: &mut Encoder,
    samples: &[i16; 160],
    output: &mut O,
) -> Result<(), Failed>
    ensures coded { GivesFrameOf samples.now encoder.old encoder.new (O.given output.old) (O.given output.new) result }
    ensures cause { HasCause (O.faults output.old) (O.faults output.new) result }
    ensures kin { O.kin output.old output.new }
{
    let frame = pack(&encoder.encode(samples));
    output.give(frame.octets())
}

// Codes pieces to the end of the input, and answers how many there were.
fn code_pieces<I: Source, O: Sink>(input: &mut I, output: &mut O) -> Result<u32, Stop>
    ensures ran { (pieces frames : List (List ℕ)) × HasEncoded result (I.left input.old) (O.given output.old) (O.given output.new) pieces frames }
    ensures later { (I.faults input.old ≤ I.faults input.new) × (O.faults output.old ≤ O.faults output.new) }
    ensures read { result ≡ Err Stop.ReadFault → Rose (I.faults input.old) (I.faults input.new) }
    ensures write { result ≡ Err Stop.WriteFault → Rose (O.faults output.old) (O.faults output.new) }
    ensures kin { O.kin output.old output.new }
{
    let mut encoder = Encoder::new();
    let mut count = 0;
    'pieces: loop {
        match take_piece(input) {
            Ok(Some(samples)) => {
                if count >= PIECE_LIMIT {
                    return Err(Stop::Refused(RecordFault::TooLong));
                }
                match code_piece(&mut encoder, &samples, output) {
                    Ok(()) => count += 1,
                    Err(Failed) => return Err(Stop::WriteFault),
                }
            }
            Ok(None) => return Ok(count),
            Err(Failed) => return Err(Stop::ReadFault),
        }
    }
}

/// Codes speech: pieces of 320 octets, which are 160 samples of 16 bits at 8 kHz, the low octet first. A last piece is
/// filled with zeros. The output gets a frame of 33 octets a piece, and the notes how many there were.
///
/// It takes no memory. A fault ends the run there, and what was given stays.
pub fn encode<I: Source, O: Sink, E: Sink>(input: &mut I, output: &mut O, notes: &mut E) -> Status
    ensures ends { Ends result (exchange_of I.Source O.Sink E.Sink input.old output.old output.new notes.old notes.new) }
    ensures later { (I.faults input.old ≤ I.faults input.new) × (O.faults output.old ≤ O.faults output.new) × (E.faults notes.old ≤ E.faults notes.new) }
    ensures read { result ≡ Status.ReadFault → Rose (I.faults input.old) (I.faults input.new) }
    ensures write { result ≡ Status.WriteFault → GiveFailed O.Sink E.Sink output.old output.new notes.old notes.new }
    ensures complete { Completes result (I.left input.old) (Rose (I.faults input.old) (I.faults input.new) ⊎ GiveFailed O.Sink E.Sink output.old output.new notes.old notes.new) }
    ensures kin { O.kin output.old output.new × E.kin notes.old notes.new }
{
    match code_pieces(input, output) {
        Ok(count) => match give_frames(count, notes) {
            Ok(()) => Status::Done,
            Err(Failed) => Status::WriteFault,
        },
        Err(Stop::Refused(fault)) => {
            note_fault(0, fault, notes);
            Status::Input
        }
        Err(Stop::ReadFault) => Status::ReadFault,
        Err(Stop::WriteFault) => Status::WriteFault,
    }
}
