// The kinds of step, as types.
use atomic_table::{Join, Play, Split};
use frame_codec::Frame33;
use ring_core::View;
use std::marker::{Brand, PhantomData};

/// Which kind of step a call makes, with the step's arguments: a number, a frame, a caller or a value.
pub trait Kind {
    ghost use Rattle.step_table.specs.Kinds.{StepKind};

    ghost kind: { StepKind };
}

// A kind with arguments is picked by the proof of the caller.
impl Kind for Brand {
    ghost use Rattle.step_table.specs.Kinds.{publish};

    ghost kind = { publish };
}

/// What a step of this kind tells its caller.
pub struct Told<M> {
    marker: PhantomData<M>,
}

impl<M: Kind> Play<Option<Frame33>, View> for Told<M> {
    ghost use Rattle.step_table.specs.Kinds.{told};

    ghost then = { λ _. told M.kind };
}

impl<M: Kind> Split<View> for Told<M> {
    ghost use Rattle.step_table.specs.Kinds.{left_of, right_of};

    ghost left = { left_of M.kind };

    ghost right = { right_of M.kind };
}

impl<M: Kind> Join<View> for Told<M> {
    ghost use Rattle.step_table.specs.Kinds.{both_of};
    ghost use Rattle.ring_core.specs.Steps.{spent_view};

    ghost both = { both_of M.kind };

    ghost spent = { spent_view };
}
