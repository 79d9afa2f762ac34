// A filer's side over a ring.
ghost use Rattle.std.specs.Prelude.{◌≡◌};

use crate::pass::FilerPass;
use crate::ring::SlotRing;
use frame_codec::Frame33;
use playout::{FileReply, FilerSide};
use std::marker::Model;
use std::sync::ledger::Ledger;
use step_table::Steps;

/// A filer's pass with its ring and a count of steps. It is seen as the pass.
pub struct RingFiler<'a, L: Ledger> {
    ring: &'a SlotRing,
    pass: FilerPass,
    steps: Steps<L>,
}

impl<'a, L: Ledger> Model for RingFiler<'a, L> {
    ghost use Rattle.std.specs.Prelude.{◌≡◌};
    ghost use Rattle.slot_ring.specs.Seen.{PassView};

    ghost Value = { PassView };

    ghost view = { λ f. f.pass };

    ghost invariant = { λ f. f.pass.ring ≡ f.ring.now };
}

impl<'a, L: Ledger> RingFiler<'a, L> {
    /// The side of a pass of this ring.
    pub fn new(ring: &'a SlotRing, pass: FilerPass, steps: Steps<L>) -> RingFiler<'a, L>
        requires { pass.ring ≡ ring.now }
        ensures { result ≡ pass }
    {
        RingFiler { ring, pass, steps }
    }

    /// The pass as the side's calls left it.
    pub fn into_pass(self) -> FilerPass
        ensures { result ≡ self.entry }
    {
        let RingFiler {
            ring: _,
            pass,
            steps: _,
        } = self;
        pass
    }
}

impl<'a, L: Ledger> FilerSide for RingFiler<'a, L> {
    ghost use Rattle.slot_ring.specs.Seen.{Grown};

    ghost did = { Grown };

    fn source(&mut self, ssrc: u32) -> u32 {
        self.ring.source::<L>(&mut self.pass, ssrc, &mut self.steps)
    }

    fn base(&mut self, ts: u32) -> u32 {
        self.ring.base::<L>(&mut self.pass, ts, &mut self.steps)
    }

    fn file(&mut self, number: u64, frame: &Frame33) -> FileReply {
        self.ring
            .file::<L>(&mut self.pass, number, frame, &mut self.steps)
    }
}
