// The octets of a datagram.
ghost use Rattle.std.specs.Prelude.{◌≡◌, ◌≤◌, length};

use arrayvec::ArrayVec;
use std::marker::Model;

/// The octets of a datagram, 2048 at most. They are kept in the value itself.
#[derive(Drop)]
pub struct Packet {
    octets: ArrayVec<u8, 2048>,
}

impl Model for Packet {
    ghost use Rattle.std.specs.Prelude.{ℕ, List};

    ghost Value = { List ℕ };

    ghost view = { λ p. p.octets.items };
}

impl Packet {
    /// A packet of these octets.
    pub fn of(octets: &[u8]) -> Packet
        requires { length octets.now ≤ 2048 }
        ensures { result ≡ octets.now }
    {
        let mut kept = ArrayVec::new();
        for octet in octets {
            kept.push(*octet);
        }
        Packet { octets: kept }
    }

    /// The octets.
    pub fn octets(&self) -> &[u8]
        ensures value { result.now ≡ self.now }
        ensures few { length self.now ≤ 2048 }
    {
        self.octets.as_slice()
    }
}
