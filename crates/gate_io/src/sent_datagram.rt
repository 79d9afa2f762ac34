// A datagram that was sent.
ghost use Rattle.std.specs.Prelude.{◌≡◌, ◌≤◌, length};

use arrayvec::ArrayVec;
use std::marker::Model;

/// A datagram of at most 2048 octets, seen as their list.
#[derive(Drop)]
pub struct SentDatagram {
    octets: ArrayVec<u8, 2048>,
}

impl Model for SentDatagram {
    ghost use Rattle.std.specs.Prelude.{ℕ, List};

    ghost Value = { List ℕ };

    ghost view = { λ d. d.octets.items };
}

impl SentDatagram {
    pub fn of(octets: &[u8]) -> Self
        requires { length octets.now ≤ 2048 }
        ensures { result ≡ octets.now }
    {
        let mut kept = ArrayVec::new();
        let _fits = kept.try_extend_from_slice(octets);
        SentDatagram { octets: kept }
    }

    pub fn as_slice(&self) -> &[u8]
        ensures { result.now ≡ self.now }
    {
        self.octets.as_slice()
    }
}
