// A table that no thread shares any more.
ghost use Rattle.std.specs.Prelude.{◌≡◌, ◌<◌, length};
ghost use Rattle.std.specs.Mem.Slots.{IsFull};
ghost use mathlib.Core.Option.{some};
ghost use lib.ListN.{get_elem?};
ghost use Rattle.step_table.specs.Ends.{Ends};
ghost use Rattle.step_table.specs.Inside.{IsLaid};

use crate::rule::RingLaw;
use crate::table::StepSeat;
use atomic_table::Table;
use frame_codec::Frame33;
use ring_core::{Shape, View};
use std::alloc::Global;
use std::marker::Model;
use std::snapshot::Snapshot;

/// The words and cells that a table left. Contracts see them, and the view of the seat that closed it.
pub struct Closed {
    table: atomic_table::Closed<Option<Frame33>, Global>,
    seat: Snapshot<StepSeat>,
}

impl Model for Closed {
    ghost use Rattle.std.specs.Prelude.{◌≡◌, length};
    ghost use Rattle.std.specs.Mem.Slots.{slots_items, slots_len, IsFull};
    ghost use Rattle.step_table.specs.Ends.{ClosedView};

    ghost Value = { ClosedView };

    ghost view = { λ c. record { view = c.seat.value.me.0; words = slots_items c.table.words; cells = slots_items c.table.slots } };

    ghost invariant = { λ c. IsFull c.table.words × IsFull c.table.slots × (slots_len c.table.words ≡ length (slots_items c.table.words)) × (slots_len c.table.slots ≡ length (slots_items c.table.slots)) };
}

impl Closed {
    pub(crate) fn of(
        table: Table<Option<Frame33>, View, Shape, RingLaw, Global>,
        seat: StepSeat,
    ) -> Closed
        requires seat { seat.table_id ≡ table.shared.table_id }
        requires laid { IsLaid table.shared.table_id table.shared.key }
        ensures view { result.view ≡ seat.me.0 }
        ensures counts { (length result.words ≡ table.shared.table_id.words) × (length result.cells ≡ table.shared.table_id.slots) }
        ensures ends { Ends table.shared.key result }
    {
        let last = Snapshot::of(&seat);
        let table = table.close_with(seat);
        Closed { table, seat: last }
    }

    /// A word.
    pub fn word(&self, word: u32) -> u64
        requires { word < length self.now.words }
        ensures { get_elem? self.now.words word ≡ some result }
    {
        self.table.word(word as usize)
    }

    /// What a cell holds.
    pub fn cell(&self, cell: u32) -> Option<Frame33>
        requires { cell < length self.now.cells }
        ensures { get_elem? self.now.cells cell ≡ some result }
    {
        *self.table.slots.get(cell as usize)
    }
}

impl Drop for Closed {
    fn drop(self) {
        let Closed { mut table, seat: _ } = self;
        let mut i = 0;
        while i < table.slot_count() {
            drop(table.take(i));
            i += 1;
        }
        table.free();
    }
}
