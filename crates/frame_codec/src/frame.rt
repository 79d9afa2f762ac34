// A coded frame as RTP carries it.
ghost use Rattle.std.specs.Prelude.{◌≡◌, ◌/◌, slice_index, OkIff};
ghost use Rattle.frame_codec.specs.Octets.{IsFrame};

use std::marker::Model;

/// The octets are no frame: their first nibble is not 0xD.
#[derive(Clone, Copy, Debug, PartialEq, Eq)]
pub struct BadSignature;

/// A full-rate frame of 33 octets for 160 samples, whose first nibble is 0xD (RFC 3551 section 4.5.8.1).
#[derive(Clone, Copy, Debug, PartialEq, Eq)]
pub struct Frame33 {
    pub(crate) octets: [u8; 33],
}

impl Model for Frame33 {
    ghost use Rattle.std.specs.Prelude.{ℕ, List};
    ghost use Rattle.frame_codec.specs.Octets.{IsFrame};

    ghost Value = { List ℕ };

    ghost view = { λ f. f.octets };

    ghost invariant = { λ f. IsFrame f.octets };

    ghost inverse = { λ xs. record { octets = xs } };
}

impl Frame33 {
    /// The octets, as they are sent and stored.
    pub fn octets(&self) -> &[u8; 33]
        ensures octets { result.now ≡ self.now }
        ensures frame { IsFrame self.now }
    {
        &self.octets
    }
}

/// The frame of these octets, or `BadSignature` exactly where their first nibble is not 0xD.
pub fn frame_of(octets: &[u8; 33]) -> Result<Frame33, BadSignature>
    ensures signature { OkIff result (slice_index octets.now 0 / 16 ≡ 13) octets.now }
{
    if octets[0] >> 4 == 13 {
        Ok(Frame33 { octets: *octets })
    } else {
        Err(BadSignature)
    }
}
