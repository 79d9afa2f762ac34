// The head of a file.
ghost use Rattle.std.specs.Prelude.{◌≡◌, ◌≤◌, length, None, Some, IfOk, MatchResult};
ghost use Rattle.recorder.specs.Heads.{IsHeading, agrees, head_fault, head_text};

use crate::fault::RecordFault;
use byteorder::{BigEndian, ByteOrder};
use std::marker::Model;

/// The head of a script or a journal, apart from its magic. The type keeps the ranges.
#[derive(Clone, Copy, Debug, PartialEq, Eq)]
pub struct Head {
    /// How many filers the line has, 1 to 64.
    pub filers: u8,
    /// The line has 2^g slots, with g from 0 to 10.
    pub g: u8,
    /// The delay in frames of 20 ms, below the number of slots.
    pub delay: u16,
}

impl Model for Head {
    ghost use Rattle.recorder.specs.Heads.{Heading, IsHeading};

    ghost Value = { Heading };

    ghost view = { λ h. record { filers = h.filers; g = h.g; delay = h.delay } };

    ghost invariant = { λ h. IsHeading record { filers = h.filers; g = h.g; delay = h.delay } };

    ghost inverse = { λ h. record { filers = h.filers; g = h.g; delay = h.delay } };
}

fn agrees_with(magic: &[u8; 8], octets: &[u8]) -> bool
    ensures { result ≡ agrees magic.now octets.now }
{
    let there = octets.len().min(8);
    magic[..there] == octets[..there]
}

/// The head that has these octets after its magic, or its first fault.
pub fn head_of(magic: &[u8; 8], octets: &[u8]) -> Result<Head, RecordFault>
    requires { length octets.now ≤ 12 }
    ensures text { IfOk result (λ h. head_text magic.now h ≡ octets.now) }
    ensures fits { IfOk result (λ h. IsHeading h) }
    ensures fault { MatchResult result (λ h. head_fault magic.now octets.now ≡ None) (λ f. head_fault magic.now octets.now ≡ Some f) }
{
    if !agrees_with(magic, octets) {
        return Err(RecordFault::Magic);
    }
    let cut = RecordFault::Cut {
        at: octets.len() as u64,
    };
    if octets.len() < 9 {
        return Err(cut);
    }
    let filers = octets[8];
    if filers < 1 || filers > 64 {
        return Err(RecordFault::Field { at: 8 });
    }
    if octets.len() < 10 {
        return Err(cut);
    }
    let g = octets[9];
    if g > 10 {
        return Err(RecordFault::Field { at: 9 });
    }
    if octets.len() < 12 {
        return Err(cut);
    }
    let delay = BigEndian::read_u16(&octets[10..12]);
    if delay >= 1 << g {
        return Err(RecordFault::Field { at: 10 });
    }
    Ok(Head { filers, g, delay })
}

/// The twelve octets of a head.
pub fn head_octets(magic: &[u8; 8], head: &Head) -> [u8; 12]
    ensures { result ≡ head_text magic.now head.now }
{
    let mut delay = [0; 2];
    BigEndian::write_u16(&mut delay, head.delay);
    [
        magic[0],
        magic[1],
        magic[2],
        magic[3],
        magic[4],
        magic[5],
        magic[6],
        magic[7],
        head.filers,
        head.g,
        delay[0],
        delay[1],
    ]
}
