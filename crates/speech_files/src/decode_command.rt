// The command `decode`: coded frames become speech.
ghost use Rattle.std.specs.Prelude.{◌≡◌, ◌≤◌, ◌<◌, ◌⊎◌, ◌+◌, List, [], ℤ, ℕ, Some, None, Ok, Err, IfOk, IfSome, IsErrOf, MatchResult, length, take};
ghost use Rattle.std.specs.Io.KnownBytes.{Consumes, IsAtEnd};
ghost use Rattle.gate_base.specs.Faults.{HasCause, Rose};
ghost use Rattle.frame_codec.specs.Octets.{IsFrame};
ghost use Rattle.recorder.specs.Reader.{Tells};
ghost use Rattle.gate_notes.specs.Exchange.{GiveFailed, exchange_of};
ghost use Rattle.speech_files.specs.Decode.{Completes, Ends, frame_fault, frame_limit};
ghost use Rattle.speech_files.specs.DecodeRuns.{GivesSpeechOf, HasDecoded};

use byteorder::{ByteOrder, LittleEndian};
use fr_decoder::Decoder;
use frame_codec::{BadSignature, Frame33, frame_of, unpack};
use gate_io::{Failed, Sink, Source, fill};
use gate_notes::{Status, Stop, give_frames, note_fault};
use recorder::{RecordEnd, RecordFault};

/// The most frames that a run takes: 93 hours of speech.
const FRAME_LIMIT: u32 = 16777216;

// Takes the next frame behind so many, or none at the end of the input.
fn next_frame<I: Source>(count: u32, input: &mut I) -> Result<Option<Frame33>, RecordEnd>
    requires { count ≤ frame_limit }
    ensures frame { IfOk result (λ o. IfSome o (λ f. Consumes (I.left input.old) (I.left input.new) f × IsFrame f × (count < frame_limit))) }
    ensures end { result ≡ Ok None → Consumes (I.left input.old) (I.left input.new) [] × IsAtEnd (I.left input.new) }
    ensures fault { IfSome (I.left input.old) (λ octets. Tells result (frame_fault count (take 33 octets))) }
    ensures later { I.faults input.old ≤ I.faults input.new }
    ensures failed { IsErrOf result RecordEnd.ReadFailed → Rose (I.faults input.old) (I.faults input.new) }
{
    let mut octets = [0; 33];
    let taken = match fill(input, &mut octets) {
        Ok(0) => return Ok(None),
        Ok(taken) => taken,
        Err(Failed) => return Err(RecordEnd::ReadFailed),
    };
    if count >= FRAME_LIMIT {
        return Err(RecordEnd::Fault(RecordFault::TooLong));
    }
    let at = 33 * count as u64;
    if taken < 33 {
        return Err(RecordEnd::Fault(RecordFault::Cut {
            at: at + taken as u64,
        }));
    }
    match frame_of(&octets) {
        Ok(frame) => Ok(Some(frame)),
        Err(BadSignature) => Err(RecordEnd::Fault(RecordFault::Field { at })),
    }
}

// Decodes a frame, and gives its speech.
fn play_frame<O: Sink>(decoder: &mut Decoder, frame: &Frame33, output: &mut O) -> Result<(), Failed>
    ensures played { GivesSpeechOf frame.now decoder.old decoder.new (O.given output.old) (O.given output.new) result }
    ensures cause { HasCause (O.faults output.old) (O.faults output.new) result }
    ensures kin { O.kin output.old output.new }
{
    let mut samples = [0; 160];
    decoder.decode(&unpack(frame), &mut samples);
    let mut octets = [0; 320];
    LittleEndian::write_i16_into(&samples, &mut octets);
    output.give(&octets)
}

// Decodes frames to the end of the input, and answers how many there were.
fn decode_frames<I: Source, O: Sink>(input: &mut I, output: &mut O) -> Result<u32, Stop>
    ensures ran { (frames : List (List ℕ)) × (samples : List ℤ)
        × HasDecoded result (I.left input.old) (O.given output.old) (O.given output.new) frames samples }
    ensures later { (I.faults input.old ≤ I.faults input.new) × (O.faults output.old ≤ O.faults output.new) }
    ensures read { result ≡ Err Stop.ReadFault → Rose (I.faults input.old) (I.faults input.new) }
    ensures write { result ≡ Err Stop.WriteFault → Rose (O.faults output.old) (O.faults output.new) }
    ensures kin { O.kin output.old output.new }
{
    let mut decoder = Decoder::new();
    let mut count = 0;
    'frames: loop {
        match next_frame(count, input) {
            Ok(Some(frame)) => match play_frame(&mut decoder, &frame, output) {
                Ok(()) => count += 1,
                Err(Failed) => return Err(Stop::WriteFault),
            },
            Ok(None) => return Ok(count),
            Err(RecordEnd::Fault(fault)) => return Err(Stop::Refused(fault)),
            Err(RecordEnd::ReadFailed) => return Err(Stop::ReadFault),
        }
    }
}

/// Decodes frames of 33 octets: the output gets 320 octets a frame, which are 160 samples of 16 bits at 8 kHz,
/// the low octet first, and the notes how many frames there were.
///
/// It takes no memory. A fault ends the run there, and what was given stays.
pub fn decode<I: Source, O: Sink, E: Sink>(input: &mut I, output: &mut O, notes: &mut E) -> Status
    ensures ends { Ends result (exchange_of I.Source O.Sink E.Sink input.old output.old output.new notes.old notes.new) }
    ensures later { (I.faults input.old ≤ I.faults input.new) × (O.faults output.old ≤ O.faults output.new) × (E.faults notes.old ≤ E.faults notes.new) }
    ensures read { result ≡ Status.ReadFault → Rose (I.faults input.old) (I.faults input.new) }
    ensures write { result ≡ Status.WriteFault → GiveFailed O.Sink E.Sink output.old output.new notes.old notes.new }
    ensures complete { Completes result (I.left input.old) (Rose (I.faults input.old) (I.faults input.new) ⊎ GiveFailed O.Sink E.Sink output.old output.new notes.old notes.new) }
    ensures kin { O.kin output.old output.new × E.kin notes.old notes.new }
{
    match decode_frames(input, output) {
        Ok(count) => match give_frames(count, notes) {
            Ok(()) => Status::Done,
            Err(Failed) => Status::WriteFault,
        },
        Err(Stop::Refused(fault)) => {
            note_fault(0, fault, notes);
            Status::Input
        }
        Err(Stop::ReadFault) => Status::ReadFault,
        Err(Stop::WriteFault) => Status::WriteFault,
    }
}
