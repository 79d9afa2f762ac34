// The writing of a filer's journal.
ghost use Rattle.std.specs.Prelude.{◌≡◌, ◌<◌, ◌∷◌, ◌++◌};
ghost use Rattle.byteorder.specs.Endian.{big_bytes};
ghost use Rattle.gate_base.specs.Faults.{HasCause};
ghost use Rattle.gate_io.specs.Flow.{Gives};
ghost use Rattle.recorder.specs.Filing.{FilerFits, filer_event_text, filer_head_text};
ghost use Rattle.recorder.specs.Heads.{filer_magic, head_text};

use crate::events::FilerEvent;
use crate::heading::{Head, head_octets};
use byteorder::{BigEndian, ByteOrder};
use frame_codec::Frame33;
use gate_io::{Failed, Sink};
use playout::FileReply;

const MAGIC: &[u8; 8] = b"GSMGFJ01";

/// Gives the head of the journal of this filer, thirteen octets in one give.
pub fn write_filer_head<O: Sink>(head: &Head, caller: u8, sink: &mut O) -> Result<(), Failed>
    requires { caller < head.now.filers }
    ensures given { Gives (O.given sink.old) (O.given sink.new) result (filer_head_text head.now caller) }
    ensures cause { HasCause (O.faults sink.old) (O.faults sink.new) result }
    ensures kin { O.kin sink.old sink.new }
{
    sink.give(&filer_head_octets(head, caller))
}

// The head of other files, and the caller.
fn filer_head_octets(head: &Head, caller: u8) -> [u8; 13]
    ensures { result ≡ filer_head_text head.now caller }
{
    let mut octets = [caller; 13];
    octets[..12].copy_from_slice(&head_octets(MAGIC, head));
    octets
}

// A kind and two numbers.
fn pair_octets(kind: u8, first: u32, second: u32) -> [u8; 9]
    ensures { result ≡ kind ∷ (big_bytes 4 first ++ big_bytes 4 second) }
{
    let mut octets = [kind; 9];
    BigEndian::write_u32(&mut octets[1..5], first);
    BigEndian::write_u32(&mut octets[5..], second);
    octets
}

// A kind, a number and its frame.
fn filed_octets(kind: u8, number: u64, frame: &Frame33) -> [u8; 42]
    ensures { result ≡ kind ∷ (big_bytes 8 number ++ frame.now) }
{
    let mut octets = [kind; 42];
    BigEndian::write_u64(&mut octets[1..9], number);
    octets[9..].copy_from_slice(frame.octets());
    octets
}

// The same, and a further number.
fn ahead_octets(kind: u8, number: u64, frame: &Frame33, ahead: u64) -> [u8; 50]
    ensures { result ≡ kind ∷ (big_bytes 8 number ++ (frame.now ++ big_bytes 8 ahead)) }
{
    let mut octets = [kind; 50];
    octets[..42].copy_from_slice(&filed_octets(kind, number, frame));
    let mut last = [0; 8];
    BigEndian::write_u64(&mut last, ahead);
    octets[42..].copy_from_slice(&last);
    octets
}

/// Gives an event of a filer's journal, in one give.
pub fn write_filer<O: Sink>(event: &FilerEvent, sink: &mut O) -> Result<(), Failed>
    requires { FilerFits event.now }
    ensures given { Gives (O.given sink.old) (O.given sink.new) result (filer_event_text event.now) }
    ensures cause { HasCause (O.faults sink.old) (O.faults sink.new) result }
    ensures kin { O.kin sink.old sink.new }
{
    match event {
        FilerEvent::Source(asked) => sink.give(&pair_octets(0x20, asked.said, asked.held)),
        FilerEvent::Base(asked) => sink.give(&pair_octets(0x21, asked.said, asked.held)),
        FilerEvent::File {
            number,
            frame,
            reply,
        } => match reply {
            FileReply::Accepted => sink.give(&filed_octets(0x22, *number, frame)),
            FileReply::Duplicate => sink.give(&filed_octets(0x23, *number, frame)),
            FileReply::Late { ahead } => sink.give(&ahead_octets(0x24, *number, frame, *ahead)),
            FileReply::Beyond { ahead } => sink.give(&ahead_octets(0x25, *number, frame, *ahead)),
        },
        FilerEvent::Refused { code, detail } => {
            let mut octets = [0x26, *code, 0, 0];
            BigEndian::write_u16(&mut octets[2..], *detail);
            sink.give(&octets)
        }
        FilerEvent::Rtcp => sink.give(&[0x27]),
        FilerEvent::Stranger { ssrc, held } => sink.give(&pair_octets(0x28, *ssrc, *held)),
        FilerEvent::Empty => sink.give(&[0x29]),
    }
}
