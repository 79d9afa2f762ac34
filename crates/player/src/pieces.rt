// Speech in pieces of 20 ms.
ghost use Rattle.std.specs.Prelude.{◌≡◌, ◌*◌, length};
ghost use Rattle.gate_base.specs.Faults.{HasCause};
ghost use Rattle.substitution.specs.Heard.{sample_octets};
ghost use Rattle.player.specs.Pieces.{TakesPiece};

use byteorder::{ByteOrder, LittleEndian};
use gate_io::{Failed, Sink, Source, fill};

// The samples of 16 bits that these octets are, the low octet of each first.
fn samples_of(octets: &[u8; 320]) -> [i16; 160]
    ensures { sample_octets result ≡ octets.now }
{
    let octets = *octets;
    let mut samples = [0; 160];
    LittleEndian::read_i16_into(&octets, &mut samples);
    samples
}

/// Takes the next piece of speech: 320 octets are 160 samples of 16 bits at 8 kHz, the low octet of each first. A last
/// piece is filled with zeros. None where nothing is left.
///
/// Where the read fails, the octets that came of the piece are lost.
pub fn take_piece<I: Source>(source: &mut I) -> Result<Option<[i16; 160]>, Failed>
    ensures piece { TakesPiece (I.left source.old) (I.left source.new) result }
    ensures cause { HasCause (I.faults source.old) (I.faults source.new) result }
{
    let mut octets = [0; 320];
    match fill(source, &mut octets) {
        Ok(0) => Ok(None),
        Ok(count) => {
            octets[count..].fill(0);
            Ok(Some(samples_of(&octets)))
        }
        Err(Failed) => Err(Failed),
    }
}
