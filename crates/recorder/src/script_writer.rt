// The writing of scripts.
ghost use Rattle.std.specs.Prelude.{◌≡◌, ◌∷◌, ◌++◌, ◌+◌, ◌≤◌, length};
ghost use Rattle.byteorder.specs.Endian.{big_bytes};
ghost use Rattle.gate_base.specs.Faults.{HasCause};
ghost use Rattle.gate_io.specs.Flow.{Gives};
ghost use Rattle.recorder.specs.Heads.{head_text, script_magic};
ghost use Rattle.recorder.specs.Script.{FitsSomeHead, event_text};

use crate::events::ScriptEvent;
use crate::heading::{Head, head_octets};
use crate::packet::Packet;
use arrayvec::ArrayVec;
use byteorder::{BigEndian, ByteOrder};
use gate_io::{Failed, Sink};

const MAGIC: &[u8; 8] = b"GSMGSC01";

/// Gives the head of a script, twelve octets in one give.
pub fn write_script_head<O: Sink>(head: &Head, sink: &mut O) -> Result<(), Failed>
    ensures given { Gives (O.given sink.old) (O.given sink.new) result (head_text script_magic head.now) }
    ensures cause { HasCause (O.faults sink.old) (O.faults sink.new) result }
    ensures kin { O.kin sink.old sink.new }
{
    sink.give(&head_octets(MAGIC, head))
}

/// Gives an event of a script, in one give.
pub fn write_script<O: Sink>(event: &ScriptEvent, sink: &mut O) -> Result<(), Failed>
    requires { FitsSomeHead event.now }
    ensures given { Gives (O.given sink.old) (O.given sink.new) result (event_text event.now) }
    ensures cause { HasCause (O.faults sink.old) (O.faults sink.new) result }
    ensures kin { O.kin sink.old sink.new }
{
    match event {
        ScriptEvent::Tick => sink.give(&[0x01]),
        ScriptEvent::Beat => sink.give(&[0x04]),
        ScriptEvent::Datagram { caller, at, octets } => {
            sink.give(datagram_octets(*caller, *at, octets).as_slice())
        }
        ScriptEvent::File {
            caller,
            number,
            frame,
        } => {
            let mut octets = [0x02; 43];
            octets[1] = *caller;
            BigEndian::write_u64(&mut octets[2..10], *number);
            octets[10..].copy_from_slice(frame.octets());
            sink.give(&octets)
        }
    }
}

// The kind of a Datagram and its fields before its octets, of which there are so many.
fn datagram_front(caller: u8, at: u32, length: u16) -> [u8; 8]
    ensures { result ≡ 3 ∷ caller ∷ (big_bytes 4 at ++ big_bytes 2 length) }
{
    let mut octets = [0x03; 8];
    octets[1] = caller;
    BigEndian::write_u32(&mut octets[2..6], at);
    BigEndian::write_u16(&mut octets[6..], length);
    octets
}

// Puts these octets behind those that are there.
fn append(whole: &mut ArrayVec<u8, 2056>, octets: &[u8])
    requires { length whole.old.items + length octets.now ≤ 2056 }
    ensures { whole.new.items ≡ whole.old.items ++ octets.now }
{
    for octet in octets {
        whole.push(*octet);
    }
}

// The octets of a Datagram, its kind first.
fn datagram_octets(caller: u8, at: u32, packet: &Packet) -> ArrayVec<u8, 2056>
    ensures { result.items ≡ 3 ∷ caller ∷ (big_bytes 4 at ++ (big_bytes 2 (length packet.now) ++ packet.now)) }
{
    let octets = packet.octets();
    let mut whole = ArrayVec::new();
    append(&mut whole, &datagram_front(caller, at, octets.len() as u16));
    append(&mut whole, octets);
    whole
}
