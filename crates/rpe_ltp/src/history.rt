// The values that a lag can reach.
ghost use Rattle.std.specs.Prelude.{◌≡◌, ◌++◌, ◌≤◌, pos, length, replicate, drop};
ghost use Rattle.rpe_ltp.specs.History.{back_at};

use std::marker::Model;

/// The last 120 values of the reconstructed short-term residual, the oldest first, at first 0. It is seen as their list.
#[derive(Drop)]
pub struct LagHistory {
    values: [i16; 120],
}

impl Model for LagHistory {
    ghost use Rattle.std.specs.Prelude.{ℤ, List};

    ghost Value = { List ℤ };

    ghost view = { λ h. h.values };
}

impl LagHistory {
    /// Nothing but zeros.
    pub fn new() -> Self
        ensures { result ≡ replicate 120 (pos 0) }
    {
        LagHistory { values: [0; 120] }
    }

    /// The value that many places back: 1 is the last.
    #[inline]
    pub fn at(&self, back: usize) -> i16
        requires least { 1 ≤ back }
        requires most { back ≤ 120 }
        ensures value { result ≡ back_at self.now back }
        ensures size { length self.now ≡ 120 }
    {
        self.values[120 - back]
    }

    /// All the values, the oldest first.
    #[inline]
    pub(crate) fn values(&self) -> &[i16; 120]
        ensures { result.now ≡ self.now }
    {
        &self.values
    }

    /// Takes the 40 values of a sub-frame after the others, and drops the 40 oldest.
    #[inline]
    pub fn push(&mut self, values: &[i16; 40])
        ensures { self.new ≡ drop 40 self.old ++ values.now }
    {
        self.values.copy_within(40.., 0);
        let (_, oldest) = self.values.split_at_mut(80);
        oldest.copy_from_slice(values);
    }
}

#[cfg(test)]
mod tests {
    use super::*;

    #[test]
    fn four_sub_frames_push_out_the_first(rt: HostRuntime) {
        let mut history = LagHistory::new();
        assert_eq!(rt; history.at(120), 0);
        for value in [1, 2, 3, 4] {
            history.push(&[value; 40]);
        }
        assert_eq!(rt; history.at(1), 4);
        assert_eq!(rt; history.at(40), 4);
        assert_eq!(rt; history.at(41), 3);
        assert_eq!(rt; history.at(120), 2);
    }
}
