// What a caller of the ring calls with.
ghost use Rattle.std.specs.Prelude.{◌≡◌};
ghost use Rattle.slot_ring.specs.Seen.{position_in};

use std::marker::Model;
use step_table::StepSeat;

/// A filer that has enlisted. Contracts see its ring, its number, its calls so far, and what it knows.
#[derive(Drop)]
pub struct FilerPass {
    pub(crate) seat: StepSeat,
    pub(crate) who: u32,
    pub(crate) spare: u32,
}

impl Model for FilerPass {
    ghost use Rattle.slot_ring.specs.Seen.{PassView, pass_view};
    ghost use Rattle.slot_ring.specs.Kept.{IsFilers};

    ghost Value = { PassView };

    ghost view = { λ p. pass_view (record { id = p.seat.table_id; shape = p.seat.me.0.shape }) p.seat.me.0.role };

    ghost invariant = { λ p. IsFilers p.seat.me p.who p.spare };
}

/// The player that has enlisted. Contracts see of it what they see of a filer.
#[derive(Drop)]
pub struct PlayerPass {
    pub(crate) seat: StepSeat,
    pub(crate) spare: u32,
    pub(crate) position: u64,
}

impl Model for PlayerPass {
    ghost use Rattle.slot_ring.specs.Seen.{PassView, pass_view};
    ghost use Rattle.slot_ring.specs.Kept.{IsPlayers};

    ghost Value = { PassView };

    ghost view = { λ p. pass_view (record { id = p.seat.table_id; shape = p.seat.me.0.shape }) p.seat.me.0.role };

    ghost invariant = { λ p. IsPlayers p.seat.me p.spare p.position };
}

impl PlayerPass {
    /// The number that the next tick or retire takes: 2^32, and one more for each that was made.
    pub fn position(&self) -> u64
        ensures { result ≡ position_in self.now }
    {
        self.position
    }
}
