// The codes of a block.
ghost use Rattle.std.specs.Prelude.{◌≡◌, map};
ghost use Rattle.g711_leg.specs.Best.{code_of};
ghost use Rattle.g711_leg.specs.Legs.{codes_of, samples_of};

use crate::compressing::compress;
use crate::law::Law;
use byteorder::{ByteOrder, LittleEndian};

/// How many octets of speech a packet is made of: 160 samples, 20 ms at 8 kHz.
pub(crate) const BLOCK: usize = 320;

/// The codes of a block's samples, which have the low octet first.
pub(crate) fn codes_of(law: Law, block: &[u8; 320]) -> [u8; 160]
    ensures { result ≡ codes_of law block.now }
{
    compressed(law, &samples_of(block))
}

fn samples_of(block: &[u8; 320]) -> [i16; 160]
    ensures { result ≡ samples_of block.now }
{
    let octets = *block;
    let mut samples = [0; 160];
    LittleEndian::read_i16_into(&octets, &mut samples);
    samples
}

fn compressed(law: Law, samples: &[i16; 160]) -> [u8; 160]
    ensures { result ≡ map (code_of law) samples.now }
{
    let samples = *samples;
    let mut codes = [0; 160];
    for i in 0..160 {
        codes[i] = compress(law, samples[i]);
    }
    codes
}
