// The order of a legal history.
ghost use Rattle.std.specs.Prelude.{◌≡◌, ◌<◌, length, slice_index};

use std::marker::Model;

/// The callers of a legal history, one for each call: a filer by its number, and the player by the number of filers.
#[derive(Drop)]
pub struct Order {
    pub(crate) callers: Vec<u32>,
}

impl Model for Order {
    ghost use Rattle.std.specs.Prelude.{ℕ, List};

    ghost Value = { List ℕ };

    ghost view = { λ o. o.callers.items };
}

impl Order {
    // The order of these callers.
    pub(crate) fn of(callers: Vec<u32>) -> Order
        ensures { result ≡ callers.items }
    {
        Order { callers }
    }

    /// How many calls the history has.
    pub fn len(&self) -> usize
        ensures { result ≡ length self.now }
    {
        self.callers.len()
    }

    /// The caller of a call, counted from 0.
    pub fn get(&self, i: usize) -> &u32
        requires { i < length self.now }
        ensures { result.now ≡ slice_index self.now i }
    {
        &self.callers[i]
    }
}
