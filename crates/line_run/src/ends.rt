// How the filers of a line ended.
ghost use Rattle.std.specs.Prelude.{◌≡◌, ◌≤◌, ◌<◌, length, map, slice_get, Some};
ghost use Rattle.line_run.specs.Callers.{told};

use crate::caller::Caller;
use filer::{FilerEnd, Tally};
use std::marker::Model;

/// How each filer of a line ended, and what it counted, by its number. It has room for 64 in itself.
#[derive(Drop)]
pub struct FilerEnds {
    kept: [(FilerEnd, Tally); 64],
    count: usize,
}

impl Model for FilerEnds {
    ghost use Rattle.std.specs.Prelude.{◌≡◌, ◌≤◌, List, length, take};
    ghost use Rattle.filer.specs.declared.run.FilerEnd.{FilerEnd};
    ghost use Rattle.recorder.specs.declared.tally.Tally.{Tally};

    ghost Value = { List (FilerEnd × Tally) };

    ghost view = { λ e. take e.count e.kept };

    ghost invariant = { λ e. (e.count ≤ 64) × (length e.kept ≡ 64) };
}

impl FilerEnds {
    /// What came of the runs of these filers.
    pub(crate) fn of(callers: &[Caller]) -> FilerEnds
        requires { length callers.now ≤ 64 }
        ensures { result ≡ map told callers.now }
    {
        let mut kept = [(FilerEnd::Ended, Tally::new()); 64];
        for (i, caller) in callers.iter().enumerate() {
            kept[i] = (caller.end, caller.tally);
        }
        FilerEnds {
            kept,
            count: callers.len(),
        }
    }

    /// How many filers there are.
    pub fn len(&self) -> usize
        ensures { result ≡ length self.now }
    {
        self.count
    }

    /// How the filer with this number ended, and what it counted.
    pub fn get(&self, i: usize) -> &(FilerEnd, Tally)
        requires { i < length self.now }
        ensures { slice_get self.now i ≡ Some result.now }
    {
        &self.kept[..self.count][i]
    }
}
