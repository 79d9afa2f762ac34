// Lists that contracts see as lists.
ghost use Rattle.std.specs.Prelude.{◌≡◌, ◌<◌, ◌≤◌, ◌^◌, [], ◌∷◌, ◌++◌, List, Some, None, IfOk, MatchOption, replicate, slice_get, slice_set};
ghost use Rattle.playout.specs.declared.call.Call.{Call};
ghost use Rattle.playout.specs.History.{move_weight, moves};
ghost use Rattle.ring_core.specs.Core.{has_right, no_lists};

use crate::element::put;
use frame_codec::Frame33;
use gate_base::OutOfMemory;
use playout::Call;
use std::alloc::Global;
use std::marker::Model;

// 1 for a tick or a retire.
fn move_weight(call: &Call) -> u64
    ensures weight { result ≡ move_weight call.now }
    ensures few { result ≤ 1 }
{
    match call {
        Call::TickCall { item: _ } => 1,
        Call::RetireCall { item: _ } => 1,
        _ => 0,
    }
}

/// Calls in order.
#[derive(Drop)]
pub struct CallList {
    items: Vec<Call>,
}

impl Model for CallList {
    ghost use Rattle.std.specs.Prelude.{List};
    ghost use Rattle.playout.specs.declared.call.Call.{Call};

    ghost Value = { List Call };

    ghost view = { λ l. l.items.items };
}

impl CallList {
    /// No call.
    pub(crate) fn new(alloc: Global) -> CallList
        ensures { result ≡ [] }
    {
        CallList {
            items: Vec::new(alloc),
        }
    }

    /// The calls with one more after them.
    pub(crate) fn with(mut self, call: Call) -> Result<CallList, OutOfMemory>
        ensures { IfOk result (λ l. l ≡ self ++ call ∷ []) }
    {
        self.items.extend_from_slice(&[call])?;
        Ok(self)
    }

    /// The calls, in order.
    pub fn as_slice(&self) -> &[Call]
        ensures { result.now ≡ self.now }
    {
        &self.items
    }

    /// How many of the calls are ticks or retires.
    pub(crate) fn moves(&self) -> u64
        ensures count { result ≡ moves self.now }
        ensures few { result < 2 ^ 63 }
    {
        let mut count = 0;
        for call in &self.items {
            count += move_weight(call);
        }
        count
    }
}

/// Numbers with the frames that were accepted under them, the latest first.
#[derive(Drop)]
pub struct PairList {
    items: Vec<(u64, Frame33)>,
}

impl Model for PairList {
    ghost use Rattle.std.specs.Prelude.{List, ℕ};

    ghost Value = { List (ℕ × List ℕ) };

    ghost view = { λ l. l.items.items };
}

impl PairList {
    /// No pair.
    pub(crate) fn new(alloc: Global) -> PairList
        ensures { result ≡ [] }
    {
        PairList {
            items: Vec::new(alloc),
        }
    }

    /// The pairs with one more before them.
    pub(crate) fn with(mut self, number: u64, frame: Frame33) -> Result<PairList, OutOfMemory>
        ensures { IfOk result (λ l. l ≡ (number, frame) ∷ self) }
    {
        self.items.insert(0, (number, frame))?;
        Ok(self)
    }

    /// The pairs with the other's after them.
    pub(crate) fn joined(mut self, mut other: PairList) -> Result<PairList, OutOfMemory>
        ensures { IfOk result (λ l. l ≡ self ++ other) }
    {
        self.items.append(&mut other.items)?;
        Ok(self)
    }

    /// The same pairs once more.
    pub(crate) fn copied(&self, alloc: Global) -> Result<PairList, OutOfMemory>
        ensures { IfOk result (λ l. l ≡ self.now) }
    {
        Ok(PairList {
            items: self.items.to_vec(alloc)?,
        })
    }
}

/// By caller number the list of each caller that was gathered.
#[derive(Drop)]
pub struct Gathered {
    items: Vec<Option<CallList>>,
}

impl Model for Gathered {
    ghost use Rattle.std.specs.Prelude.{List, Option};
    ghost use Rattle.playout.specs.declared.call.Call.{Call};

    ghost Value = { List (Option (List Call)) };

    ghost view = { λ l. l.items.items };
}

impl Gathered {
    /// No list, of this many callers.
    pub(crate) fn new(alloc: Global, callers: usize) -> Result<Gathered, OutOfMemory>
        ensures { IfOk result (λ l. l ≡ replicate callers None) }
    {
        let mut items = Vec::with_capacity(alloc, callers)?;
        for _ in 0..callers {
            items.push(None)?;
        }
        Ok(Gathered { items })
    }

    /// Whether there is no list.
    pub(crate) fn is_empty(&self) -> bool
        ensures { result ≡ no_lists self.now }
    {
        for list in &self.items {
            if list.is_some() {
                return false;
            }
        }
        true
    }

    /// The list of this caller, or none where it was not gathered.
    pub(crate) fn get(&self, who: u32) -> Option<&[Call]>
        ensures { MatchOption result ((l : List Call) → slice_get self.now who ≡ Some (Some l) → ⊥) (λ list. slice_get self.now who ≡ Some (Some list.now)) }
    {
        match self.items.get(who as usize) {
            Some(Some(list)) => Some(list.as_slice()),
            _ => None,
        }
    }

    /// The lists with this caller's.
    pub(crate) fn with(mut self, who: u32, list: CallList) -> Gathered
        ensures { result ≡ slice_set self who (Some list) }
    {
        put(&mut self.items, who as usize, Some(list));
        self
    }
}

/// By caller number whether there is the right to enlist it.
#[derive(Drop)]
pub struct Rights {
    items: Vec<bool>,
}

impl Model for Rights {
    ghost use Rattle.std.specs.Prelude.{List, Bool};

    ghost Value = { List Bool };

    ghost view = { λ l. l.items.items };
}

impl Rights {
    /// All rights or none, of this many callers.
    pub(crate) fn new(alloc: Global, callers: usize, all: bool) -> Result<Rights, OutOfMemory>
        ensures { IfOk result (λ l. l ≡ replicate callers all) }
    {
        Ok(Rights {
            items: Vec::from_elem(alloc, all, callers)?,
        })
    }

    /// Whether there is the right to this caller.
    pub(crate) fn has(&self, who: u32) -> bool
        ensures { result ≡ has_right (slice_get self.now who) }
    {
        match self.items.get(who as usize) {
            Some(right) => *right,
            None => false,
        }
    }

    /// The rights with or without that to this caller.
    pub(crate) fn with(mut self, who: u32, right: bool) -> Rights
        ensures { result ≡ slice_set self who right }
    {
        put(&mut self.items, who as usize, right);
        self
    }
}
