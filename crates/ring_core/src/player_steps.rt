// What the player does with a slot: it takes what is there and goes on, or only looks.
ghost use Rattle.std.specs.Prelude.{◌≡◌};
ghost use Rattle.ring_core.specs.Steps.{ahead_of, glance_call, move_call};

use frame_codec::Item;
use playout::Call;

/// How the player goes on by one number.
#[derive(Clone, Copy, Debug, PartialEq, Eq)]
pub enum Move {
    /// With what it takes played: a tick.
    Played,
    /// With what it takes left unplayed: a retire.
    Retired,
}

/// How the player looks at a slot without taking anything.
#[derive(Clone, Copy, Debug, PartialEq, Eq)]
pub enum Glance {
    /// For a frame so many numbers ahead: a look.
    Ahead(u32),
    /// For no frame under its number, so that a beat may pass there: a hold.
    Here,
}

impl Move {
    /// The call that took this item.
    pub(crate) fn call(self, item: Item) -> Call
        ensures { result ≡ move_call self item }
    {
        match self {
            Move::Played => Call::TickCall { item },
            Move::Retired => Call::RetireCall { item },
        }
    }
}

impl Glance {
    /// How many numbers ahead of the player's the slot is.
    pub(crate) fn ahead(self) -> u32
        ensures { result ≡ ahead_of self }
    {
        match self {
            Glance::Ahead(ahead) => ahead,
            Glance::Here => 0,
        }
    }

    /// The call that found the slot filled or free.
    pub(crate) fn call(self, filled: bool) -> Call
        ensures { result ≡ glance_call self filled }
    {
        match self {
            Glance::Ahead(ahead) => Call::LookCall { ahead, filled },
            Glance::Here => Call::HoldCall { held: !filled },
        }
    }
}
