// The words and cells of a ring, shared by the threads that step on them.
ghost use Rattle.std.specs.Prelude.{◌≤◌, IfOk, ◌≡◌, ◌≢◌, ◌+◌, ◌^◌, [], ◌∷◌, length, MatchResult};
ghost use Rattle.ring_core.specs.declared.views.Shape.{Shape};
ghost use Rattle.step_table.specs.Packed.{IsOpening, first_view, Kept};
ghost use Rattle.step_table.specs.Kinds.{MaySwap, MayLoad, MayExchange, MaySplit, MayJoin, told, left_of, right_of, both_of, word_read};
ghost use Rattle.step_table.specs.Ends.{Ends};

use crate::closed::Closed;
use crate::kind::{Kind, Told};
use crate::opening::shape_of;
use crate::rule::RingLaw;
use crate::steps::Steps;
use atomic_table::{Seat, Table};
use frame_codec::Frame33;
use gate_base::OutOfMemory;
use ring_core::{
    Shape, View, callers_are_fresh, opening_meets_the_rule, slots_are_near, steps_keep_the_rule,
};
use std::alloc::Global;
use std::marker::Model;
use std::sync::ledger::Ledger;

/// What a thread steps with: a view, and the cells that it has taken out. It takes no bytes.
pub type StepSeat = Seat<Option<Frame33>, View>;

/// The words and cells. Contracts see which table it is, and its shape. Each call but `new`, `cell` and `close` is one atomic step
/// on a word, of the kind that its type parameter names, and counts as one.
#[derive(Drop)]
pub struct StepTable {
    table: Table<Option<Frame33>, View, Shape, RingLaw, Global>,
}

impl Model for StepTable {
    ghost use Rattle.step_table.specs.Packed.{Where};
    ghost use Rattle.step_table.specs.Inside.{IsLaid};

    ghost Value = { Where };

    ghost view = { λ t. record { id = t.table.shared.table_id; shape = t.table.shared.key } };

    ghost invariant = { λ t. IsLaid t.table.shared.table_id t.table.shared.key };
}

impl StepTable {
    /// The table of a ring at the start, from its words and the number of its cells, and the first seat, which has the right to each
    /// caller.
    ///
    /// # Errors
    /// `OutOfMemory`.
    pub fn new(
        alloc: Global,
        words: Vec<u64>,
        cells: u32,
    ) -> Result<(StepTable, StepSeat), OutOfMemory>
        requires opening { (k : Shape) × IsOpening k words.items cells }
        ensures shape { IfOk result (λ t. (k : Shape) → IsOpening k words.items cells → t.0.shape ≡ k) }
        ensures seat { IfOk result (λ t. (t.1.table_id ≡ t.0.id) × (t.1.me ≡ (first_view t.0.shape, []))) }
    {
        // A call of a law runs nothing: it gives what the proof needs. So also below.
        opening_meets_the_rule();
        let row = words.as_slice();
        let shape = shape_of(row, cells);
        let (table, seat) = Table::vacant(alloc, row, cells as usize, &shape)?;
        Ok((StepTable { table }, seat))
    }

    /// Reads a word.
    pub fn load<M: Kind, L: Ledger>(
        &self,
        seat: &mut StepSeat,
        word: u32,
        steps: &mut Steps<L>,
    ) -> u64
        requires seat { seat.old.table_id ≡ self.now.id }
        requires kind { MayLoad M.kind self.now.shape seat.old.me word }
        ensures seat { (seat.new.table_id ≡ seat.old.table_id) × (seat.new.id ≡ seat.old.id) }
        ensures told { told M.kind seat.old.me result seat.new.me }
        ensures counted { steps.new ≡ steps.old + 1 }
    {
        steps_keep_the_rule();
        callers_are_fresh();
        slots_are_near();
        steps.count();
        self.table.shared.load::<Told<M>>(seat, word as usize)
    }

    /// Writes a word, and answers the one that was there.
    pub fn swap<M: Kind, L: Ledger>(
        &self,
        seat: &mut StepSeat,
        word: u32,
        new: u64,
        steps: &mut Steps<L>,
    ) -> u64
        requires seat { seat.old.table_id ≡ self.now.id }
        requires kind { MaySwap M.kind self.now.shape seat.old.me word new }
        ensures seat { (seat.new.table_id ≡ seat.old.table_id) × (seat.new.id ≡ seat.old.id) }
        ensures told { told M.kind seat.old.me result seat.new.me }
        ensures counted { steps.new ≡ steps.old + 1 }
    {
        steps_keep_the_rule();
        callers_are_fresh();
        steps.count();
        self.table.shared.swap::<Told<M>>(seat, word as usize, new)
    }

    /// Writes a word where it is `old`.
    ///
    /// # Errors
    /// The word that was read, which is another; it stays.
    pub fn compare_exchange<M: Kind, L: Ledger>(
        &self,
        seat: &mut StepSeat,
        word: u32,
        old: u64,
        new: u64,
        steps: &mut Steps<L>,
    ) -> Result<u64, u64>
        requires seat { seat.old.table_id ≡ self.now.id }
        requires kind { MayExchange M.kind self.now.shape seat.old.me word old new }
        ensures seat { (seat.new.table_id ≡ seat.old.table_id) × (seat.new.id ≡ seat.old.id) }
        ensures told { told M.kind seat.old.me (word_read result) seat.new.me }
        ensures found { MatchResult result (λ x. x ≡ old) (λ x. x ≢ old) }
        ensures counted { steps.new ≡ steps.old + 1 }
    {
        steps_keep_the_rule();
        callers_are_fresh();
        slots_are_near();
        steps.count();
        let found = self
            .table
            .shared
            .compare_exchange::<Told<M>>(seat, word as usize, old, new);
        if found == old { Ok(found) } else { Err(found) }
    }

    /// Writes the one cell that the seat has, and answers what it held. It is no step.
    pub fn cell(&self, seat: &mut StepSeat, cell: u32, new: Option<Frame33>) -> Option<Frame33>
        requires seat { seat.old.table_id ≡ self.now.id }
        requires cell { (old : Kept) × (seat.old.me.1 ≡ (cell, old) ∷ []) }
        ensures seat { (seat.new.table_id ≡ seat.old.table_id) × (seat.new.id ≡ seat.old.id) }
        ensures old { seat.old.me.1 ≡ (cell, result) ∷ [] }
        ensures new { seat.new.me ≡ (seat.old.me.0, (cell, new) ∷ []) }
    {
        self.table.shared.exchange(seat, cell as usize, new)
    }

    /// Cuts a seat in two.
    pub fn split<M: Kind, L: Ledger>(&self, seat: &mut StepSeat, steps: &mut Steps<L>) -> StepSeat
        requires seat { seat.old.table_id ≡ self.now.id }
        requires kind { MaySplit M.kind self.now.shape seat.old.me }
        ensures seat { (seat.new.table_id ≡ seat.old.table_id) × (seat.new.id ≡ seat.old.id) × (seat.new.me ≡ (left_of M.kind seat.old.me.0, seat.old.me.1)) }
        ensures new { (result.table_id ≡ seat.old.table_id) × (result.me ≡ (right_of M.kind seat.old.me.0, [])) }
        ensures counted { steps.new ≡ steps.old + 1 }
    {
        steps_keep_the_rule();
        steps.count();
        self.table.shared.split_seat::<Told<M>>(seat)
    }

    /// Takes a seat that has no cell into another.
    pub fn join<M: Kind, L: Ledger>(
        &self,
        into: &mut StepSeat,
        from: StepSeat,
        steps: &mut Steps<L>,
    )
        requires seat { (into.old.table_id ≡ self.now.id) × (from.table_id ≡ self.now.id) × (from.me.1 ≡ []) }
        requires kind { MayJoin M.kind self.now.shape into.old.me.0 from.me.0 }
        ensures seat { (into.new.table_id ≡ into.old.table_id) × (into.new.id ≡ into.old.id) × (into.new.me ≡ (both_of M.kind into.old.me.0 from.me.0, into.old.me.1)) }
        ensures counted { steps.new ≡ steps.old + 1 }
    {
        steps_keep_the_rule();
        steps.count();
        self.table.shared.join_seat::<Told<M>>(into, from);
    }

    /// The table as its steps left it: one ring that meets the rule has the seat's view, the words, and what the cells at home hold.
    pub fn close(self, seat: StepSeat) -> Closed
        requires seat { seat.table_id ≡ self.id }
        ensures view { result.view ≡ seat.me.0 }
        ensures counts { (length result.words ≡ 2 ^ self.shape.g + self.shape.filers + 3) × (length result.cells ≡ 2 ^ self.shape.g + self.shape.filers + 1) }
        ensures ends { Ends self.shape result }
    {
        let StepTable { table } = self;
        Closed::of(table, seat)
    }
}
