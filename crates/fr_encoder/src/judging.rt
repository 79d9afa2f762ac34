// Frames, compared with the coded speech of samples.
ghost use Rattle.std.specs.Prelude.{◌↔◌, IsTrue, flat_map};
ghost use Rattle.fr_encoder.specs.Coding.{IsCoded};

use crate::encoder::Encoder;
use frame_codec::Params;

/// Whether these frames are the coded speech of the pieces, each of 160 samples of 16 bits at 8 kHz: one frame for each
/// piece, and none after them. It takes no memory.
pub fn is_coding(pieces: &[[i16; 160]], frames: &[Params]) -> bool
    ensures { IsTrue result ↔ IsCoded (flat_map (λ piece. piece) pieces.now) frames.now }
{
    if pieces.len() != frames.len() {
        return false;
    }
    let mut encoder = Encoder::new();
    let mut same = true;
    'code: for (i, piece) in pieces.iter().enumerate() {
        if encoder.encode(piece) != frames[i] {
            same = false;
        }
    }
    same
}

#[cfg(test)]
mod tests {
    use super::*;
    use frame_codec::{frame_of, unpack};
    use std::test::Fail;

    // A frame of 160 coded zeros.
    const SILENCE: [u8; 33] = [
        0xD8, 0x20, 0xA2, 0xE1, 0x5A, 0x50, 0x00, 0x49, 0x24, 0x92, 0x49, 0x24, 0x50, 0x00, 0x49,
        0x24, 0x92, 0x49, 0x24, 0x50, 0x00, 0x49, 0x24, 0x92, 0x49, 0x24, 0x50, 0x00, 0x49, 0x24,
        0x92, 0x49, 0x24,
    ];

    #[test]
    fn coded_speech_is_told_from_other_frames(rt: HostRuntime) -> Result<(), Fail> {
        let silence = unpack(&frame_of(&SILENCE)?);
        let mut octets = SILENCE;
        octets[32] = 0x25;
        let other = unpack(&frame_of(&octets)?);
        let zeros = [[0; 160]; 2];
        assert!(rt; is_coding(&zeros, &[silence, silence]));
        assert!(rt; !is_coding(&zeros, &[silence, other]));
        assert!(rt; !is_coding(&zeros, &[other, silence]));
        assert!(rt; !is_coding(&zeros, &[silence]));
        assert!(rt; !is_coding(&zeros, &[silence, silence, silence]));
        Ok(())
    }
}
