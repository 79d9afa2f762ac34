// The player's side over a ring.
ghost use Rattle.std.specs.Prelude.{◌≡◌};

use crate::pass::PlayerPass;
use crate::ring::SlotRing;
use frame_codec::Item;
use playout::PlayerSide;
use std::marker::Model;
use std::sync::ledger::Ledger;
use step_table::Steps;

/// The player's pass with its ring and a count of steps. It is seen as the pass.
pub struct RingPlayer<'a, L: Ledger> {
    ring: &'a SlotRing,
    pass: PlayerPass,
    steps: Steps<L>,
}

impl<'a, L: Ledger> Model for RingPlayer<'a, L> {
    ghost use Rattle.std.specs.Prelude.{◌≡◌};
    ghost use Rattle.slot_ring.specs.Seen.{PassView};

    ghost Value = { PassView };

    ghost view = { λ f. f.pass };

    ghost invariant = { λ f. f.pass.ring ≡ f.ring.now };
}

impl<'a, L: Ledger> RingPlayer<'a, L> {
    /// The side of a pass of this ring.
    pub fn new(ring: &'a SlotRing, pass: PlayerPass, steps: Steps<L>) -> RingPlayer<'a, L>
        requires { pass.ring ≡ ring.now }
        ensures { result ≡ pass }
    {
        RingPlayer { ring, pass, steps }
    }

    /// The pass as the side's calls left it.
    pub fn into_pass(self) -> PlayerPass
        ensures { result ≡ self.entry }
    {
        let RingPlayer {
            ring: _,
            pass,
            steps: _,
        } = self;
        pass
    }
}

impl<'a, L: Ledger> PlayerSide for RingPlayer<'a, L> {
    ghost use Rattle.slot_ring.specs.Seen.{Grown, position_in, g_in};

    ghost did = { Grown };

    ghost position = { position_in };

    ghost g = { g_in };

    fn peek(&mut self) -> Option<u32> {
        self.ring.peek::<L>(&mut self.pass, &mut self.steps)
    }

    fn tick(&mut self) -> Item {
        self.ring.tick::<L>(&mut self.pass, &mut self.steps)
    }

    fn look(&mut self, ahead: u32) -> bool {
        self.ring.look::<L>(&mut self.pass, ahead, &mut self.steps)
    }

    fn hold(&mut self) -> bool {
        self.ring.hold::<L>(&mut self.pass, &mut self.steps)
    }

    fn retire(&mut self) -> Item {
        self.ring.retire::<L>(&mut self.pass, &mut self.steps)
    }
}
