// From the octets of a frame to its fields, and back.
ghost use Rattle.std.specs.Prelude.{◌≡◌, ℕ, ◌≤◌, ◌+◌, ◌++◌, List, length};
ghost use Rattle.frame_codec.specs.Octets.{IsFrame};
ghost use Rattle.frame_codec.specs.Frame.{Fields, IsWithinWidths, Spells, SubFits, sub_bits};

use crate::bits::{BitReader, BitWriter};
use crate::codes::{put_codes, take_codes};
use crate::frame::Frame33;
use crate::params::{LAR_WIDTHS, PULSE_WIDTHS, Params, SubParams};

/// The fields that the octets of the frame spell; no others are spelled so (RFC 3551 section 4.5.8.1).
pub fn unpack(frame: &Frame33) -> Params
    ensures spelled { Spells frame.now result }
    ensures only { (p : Fields) → IsWithinWidths p → Spells frame.now p → p ≡ result }
    ensures frame { IsFrame frame.now }
    ensures widths { IsWithinWidths result }
{
    let mut bits = BitReader::new(&frame.octets);
    let _ = bits.take(4);
    let mut larc = [0; 8];
    take_codes(&mut bits, &LAR_WIDTHS, &mut larc);
    let sub = [
        take_sub(&mut bits),
        take_sub(&mut bits),
        take_sub(&mut bits),
        take_sub(&mut bits),
    ];
    Params { larc, sub }
}

fn take_sub(bits: &mut BitReader) -> SubParams
    requires { 56 ≤ length bits.old }
    ensures read { bits.old ≡ sub_bits result ++ bits.new }
    ensures fits { SubFits result }
    ensures left { length bits.new + 56 ≡ length bits.old }
{
    let nc = bits.take(7);
    let bc = bits.take(2);
    let mc = bits.take(2);
    let xmaxc = bits.take(6);
    let mut xmc = [0; 13];
    take_codes(bits, &PULSE_WIDTHS, &mut xmc);
    SubParams {
        nc,
        bc,
        mc,
        xmaxc,
        xmc,
    }
}

/// The frame whose octets spell the fields; no other frame spells them (RFC 3551 section 4.5.8.1).
pub fn pack(params: &Params) -> Frame33
    ensures spelled { Spells result params.now }
    ensures only { (octets : List ℕ) → IsFrame octets → Spells octets params.now → octets ≡ result }
    ensures frame { IsFrame result }
    ensures widths { IsWithinWidths params.now }
{
    let mut bits = BitWriter::new();
    bits.put(13, 4);
    put_codes(&mut bits, &LAR_WIDTHS, &params.larc);
    for part in &params.sub {
        put_sub(&mut bits, part);
    }
    Frame33 {
        octets: bits.finish(),
    }
}

fn put_sub(bits: &mut BitWriter, part: &SubParams)
    requires fits { SubFits part.now }
    requires room { length bits.old + 56 ≤ 264 }
    ensures written { bits.new ≡ bits.old ++ sub_bits part.now }
    ensures len { length bits.new ≡ length bits.old + 56 }
{
    bits.put(part.nc, 7);
    bits.put(part.bc, 2);
    bits.put(part.mc, 2);
    bits.put(part.xmaxc, 6);
    put_codes(bits, &PULSE_WIDTHS, &part.xmc);
}
