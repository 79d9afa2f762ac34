// The writing of the player's journal.
ghost use Rattle.std.specs.Prelude.{◌≡◌, ◌∷◌, []};
ghost use Rattle.byteorder.specs.Endian.{big_bytes};
ghost use Rattle.gate_base.specs.Faults.{HasCause};
ghost use Rattle.gate_io.specs.Flow.{Gives};
ghost use Rattle.recorder.specs.Heads.{head_text, play_magic};
ghost use Rattle.recorder.specs.Play.{play_event_text};
ghost use Rattle.recorder.specs.Files.{end_mark};

use crate::events::PlayEvent;
use crate::heading::{Head, head_octets};
use byteorder::{BigEndian, ByteOrder};
use frame_codec::Frame33;
use gate_io::{Failed, Sink};

const MAGIC: &[u8; 8] = b"GSMGPJ01";

/// Gives the head of a player's journal, twelve octets in one give.
pub fn write_play_head<O: Sink>(head: &Head, sink: &mut O) -> Result<(), Failed>
    ensures given { Gives (O.given sink.old) (O.given sink.new) result (head_text play_magic head.now) }
    ensures cause { HasCause (O.faults sink.old) (O.faults sink.new) result }
    ensures kin { O.kin sink.old sink.new }
{
    sink.give(&head_octets(MAGIC, head))
}

// A kind and a frame.
fn framed_octets(kind: u8, frame: &Frame33) -> [u8; 34]
    ensures { result ≡ kind ∷ frame.now }
{
    let mut octets = [kind; 34];
    octets[1..].copy_from_slice(frame.octets());
    octets
}

// A kind and how many numbers ahead, in two octets.
fn look_octets(kind: u8, ahead: u32) -> [u8; 3]
    ensures { result ≡ kind ∷ big_bytes 2 ahead }
{
    let mut octets = [0; 4];
    BigEndian::write_u32(&mut octets, ahead);
    [kind, octets[2], octets[3]]
}

/// Gives an event of the player's journal, in one give.
pub fn write_play<O: Sink>(event: &PlayEvent, sink: &mut O) -> Result<(), Failed>
    ensures given { Gives (O.given sink.old) (O.given sink.new) result (play_event_text event.now) }
    ensures cause { HasCause (O.faults sink.old) (O.faults sink.new) result }
    ensures kin { O.kin sink.old sink.new }
{
    match event {
        PlayEvent::Idle => sink.give(&[0x10]),
        PlayEvent::Base { base } => {
            let mut octets = [0x11; 5];
            BigEndian::write_u32(&mut octets[1..], *base);
            sink.give(&octets)
        }
        PlayEvent::Erasure => sink.give(&[0x12]),
        PlayEvent::Frame(frame) => sink.give(&framed_octets(0x13, frame)),
        PlayEvent::Held => sink.give(&[0x14]),
        PlayEvent::Found => sink.give(&[0x15]),
        PlayEvent::LookFree { ahead } => sink.give(&look_octets(0x16, *ahead)),
        PlayEvent::LookFilled { ahead } => sink.give(&look_octets(0x17, *ahead)),
        PlayEvent::RetiredErasure => sink.give(&[0x18]),
        PlayEvent::RetiredFrame(frame) => sink.give(&framed_octets(0x19, frame)),
    }
}

/// Gives the end mark, in one give.
pub fn write_end<O: Sink>(sink: &mut O) -> Result<(), Failed>
    ensures given { Gives (O.given sink.old) (O.given sink.new) result (end_mark ∷ []) }
    ensures cause { HasCause (O.faults sink.old) (O.faults sink.new) result }
    ensures kin { O.kin sink.old sink.new }
{
    sink.give(&[0xFF])
}
