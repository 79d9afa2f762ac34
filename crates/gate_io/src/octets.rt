// A datagram's octets.
ghost use Rattle.std.specs.Prelude.{◌≡◌};

use std::marker::Model;

/// Octets, seen as their list.
#[derive(Drop, Debug)]
pub struct Octets {
    octets: Vec<u8>,
}

impl Model for Octets {
    ghost use Rattle.std.specs.Prelude.{ℕ, List};

    ghost Value = { List ℕ };

    ghost view = { λ o. o.octets.items };
}

impl Octets {
    /// These octets.
    pub fn of(octets: Vec<u8>) -> Self
        ensures { result ≡ octets.items }
    {
        Octets { octets }
    }

    /// The octets, from the first on.
    pub fn as_slice(&self) -> &[u8]
        ensures { result.now ≡ self.now }
    {
        &self.octets
    }
}
