// The fields of a frame.
ghost use Rattle.std.specs.Prelude.{◌≡◌, SomeIff};

use crate::codes::are_within;
use std::marker::Model;

/// How many bits each log area ratio has (GSM 06.10 section 1.7, table 1.1).
pub(crate) const LAR_WIDTHS: [u32; 8] = [6, 6, 5, 5, 4, 4, 3, 3];

/// How many bits each pulse of a sub-frame has.
pub(crate) const PULSE_WIDTHS: [u32; 13] = [3; 13];

/// The fields of a sub-frame of 40 samples, in the standard's names (GSM 06.10 section 1.7).
#[derive(Clone, Copy, Debug, PartialEq, Eq)]
pub struct SubParams {
    /// The long-term lag in samples, of 7 bits.
    pub nc: u8,
    /// The long-term gain's code, of 2 bits.
    pub bc: u8,
    /// The grid position, of 2 bits.
    pub mc: u8,
    /// The level of the pulses, of 6 bits.
    pub xmaxc: u8,
    /// The pulses, of 3 bits each.
    pub xmc: [u8; 13],
}

impl SubParams {
    ghost use Rattle.std.specs.Prelude.{IsTrue, ◌↔◌};
    ghost use Rattle.frame_codec.specs.Frame.{SubFits};

    fn is_within(&self) -> bool
        ensures { IsTrue result ↔ SubFits self.now }
    {
        self.nc < 128
            && self.bc < 4
            && self.mc < 4
            && self.xmaxc < 64
            && are_within(&PULSE_WIDTHS, &self.xmc)
    }
}

/// The fields of a frame: the codes of the log area ratios, and four sub-frames. Each is within its width.
#[derive(Clone, Copy, Debug, PartialEq, Eq)]
pub struct Params {
    pub(crate) larc: [u8; 8],
    pub(crate) sub: [SubParams; 4],
}

impl Model for Params {
    ghost use Rattle.frame_codec.specs.Frame.{Fields, IsWithinWidths};

    ghost Value = { Fields };

    ghost view = { λ p. record { larc = p.larc; sub = p.sub } };

    ghost invariant = { λ p. IsWithinWidths (record { larc = p.larc; sub = p.sub }) };

    ghost inverse = { λ p. record { larc = p.larc; sub = p.sub } };
}

impl Params {
    ghost use Rattle.frame_codec.specs.Frame.{Fields, IsWithinWidths};

    /// The fields of a frame, or `None` exactly where one is too wide.
    pub fn of(larc: [u8; 8], sub: [SubParams; 4]) -> Option<Params>
        ensures widths { let p : Fields = record { larc = larc; sub = sub } in SomeIff result (IsWithinWidths p) p }
    {
        if are_within(&LAR_WIDTHS, &larc) && sub.iter().all(|part| part.is_within()) {
            Some(Params { larc, sub })
        } else {
            None
        }
    }

    /// The codes of the eight log area ratios.
    pub fn larc(&self) -> &[u8; 8]
        ensures larc { result.now ≡ self.now.larc }
        ensures widths { IsWithinWidths self.now }
    {
        &self.larc
    }

    /// The four sub-frames, in the order of time.
    pub fn sub(&self) -> &[SubParams; 4]
        ensures sub { result.now ≡ self.now.sub }
        ensures widths { IsWithinWidths self.now }
    {
        &self.sub
    }
}
