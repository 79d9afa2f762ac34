// The ring's rule on a table.
use atomic_table::TableRule;
use frame_codec::Frame33;
use ring_core::{Shape, View};

/// The table spells a ring that meets the rule of the ring as plain data.
pub struct RingLaw;

impl TableRule<Option<Frame33>, View, Shape> for RingLaw {
    ghost use Rattle.step_table.specs.Packed.{Holds, first_view};

    ghost holds = { Holds };

    ghost first = { first_view };
}
