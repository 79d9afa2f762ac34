// Long-term analysis and synthesis: GSM 06.10 sections 5.2.12 and 5.3.2.
ghost use Rattle.std.specs.Prelude.{◌≡◌, ◌≤◌, ℕ, ◌<◌, ◌-◌, ◌∷◌, ◌++◌, [], ℤ, pos, List};
ghost use Rattle.fixed_arith.specs.Word.{add_words, sub_words, mult_r_words};
ghost use Rattle.fixed_arith.specs.Signal.{at};
ghost use Rattle.frame_codec.specs.declared.params.SubParams.{SubParams};
ghost use Rattle.frame_codec.specs.Frame.{SubFits};
ghost use Rattle.rpe_ltp.specs.History.{back_at};
ghost use Rattle.rpe_ltp.specs.SubFrame.{IsCoded, Continues};
ghost use Rattle.rpe_ltp.specs.LongTerm.{lag_after, remainder_at, gains, Remembers};

use crate::history::LagHistory;
use crate::pulses::excitation;
use crate::sub_frame::codes;
use fixed_arith::{add, mult_r, sub};
use frame_codec::SubParams;
use std::marker::Model;

/// The gain of each code, as a fraction of 15 binary places (`QLB`).
const GAINS: [i16; 4] = [3277, 11469, 21299, 32767];

/// What the next sub-frame needs of those before: the last 120 values, and the last lag that was in range.
#[derive(Drop)]
pub struct LongTerm {
    history: LagHistory,
    lag: u8,
}

impl Model for LongTerm {
    ghost use Rattle.std.specs.Prelude.{◌≤◌};
    ghost use Rattle.rpe_ltp.specs.SubFrame.{IsCoded, Continues};
    ghost use Rattle.rpe_ltp.specs.LongTerm.{Memory};

    ghost Value = { Memory };

    ghost view = { λ l. record { history = l.history; lag = l.lag } };

    ghost invariant = { λ l. (40 ≤ l.lag) × (l.lag ≤ 120) };
}

impl LongTerm {
    /// No sub-frame so far.
    pub fn new() -> Self
        ensures { Remembers [] [] result }
    {
        LongTerm {
            history: LagHistory::new(),
            lag: 40,
        }
    }

    /// The values before the next sub-frame.
    #[inline]
    pub fn history(&self) -> &LagHistory
        ensures { result.now ≡ self.now.history }
    {
        &self.history
    }

    /// What the long-term prediction at a lag with a gain leaves of the short-term residual (`d`) of the next sub-frame (`e`, GSM 06.10 section 5.2.12).
    pub fn residual(&self, d: &[i16; 40], nc: u8, bc: u8) -> [i16; 40]
        requires least { 40 ≤ nc }
        requires most { nc ≤ 120 }
        requires gain { bc < 4 }
        ensures { (k : ℕ) → k < 40 → at result k ≡ remainder_at d.now self.now.history nc bc k }
    {
        remainder(&self.history, nc as usize, GAINS[bc as usize], d)
    }

    /// The codes of the next sub-frame, from its short-term residual (`d`), each within its width (GSM 06.10 sections 5.2.11 to 5.2.18).
    pub fn code(&mut self, d: &[i16; 40]) -> SubParams
        ensures coded { IsCoded d.now self.old.history result }
        ensures fits { SubFits result }

        // The sub-frames before and this one are one list.
        ensures goes_on { (subs : List SubParams) (values : List ℤ) → Remembers subs values self.old → Continues (subs ++ result ∷ []) values self.new }
    {
        let sub = codes(self, d);
        self.step(&sub);
        sub
    }

    /// The values (`drp`) of the next sub-frame.
    pub fn step(&mut self, sub: &SubParams) -> [i16; 40]
        requires fits { SubFits sub.now }

        // The sub-frames before and this one are one list.
        ensures goes_on { (subs : List SubParams) (values : List ℤ) → Remembers subs values self.old
            → Remembers (subs ++ sub.now ∷ []) (values ++ result) self.new }
    {
        self.lag = lag(sub.nc, self.lag);
        let values = sub_frame(
            &self.history,
            self.lag as usize,
            GAINS[sub.bc as usize],
            &excitation(sub),
        );
        self.history.push(&values);
        values
    }
}

/// The lag of a sub-frame: its code where that is in range, else the lag before.
#[inline]
#[tactic(auto, unfolding(crate::specs::LongTerm::lag_after))]
fn lag(nc: u8, before: u8) -> u8
    requires least { 40 ≤ before }
    requires most { before ≤ 120 }
    ensures value { result ≡ lag_after before nc }
    ensures least { 40 ≤ result }
    ensures most { result ≤ 120 }
{
    if 40 <= nc && nc <= 120 { nc } else { before }
}

/// The values of a sub-frame: each is its pulse and what the gain makes of the value one lag before.
#[inline]
fn sub_frame(history: &LagHistory, lag: usize, gain: i16, pulses: &[i16; 40]) -> [i16; 40]
    requires least { 40 ≤ lag }
    requires most { lag ≤ 120 }
    ensures { (k : ℕ) → k < 40 → at result k ≡ add_words (at pulses.now k) (mult_r_words gain (back_at history.now (lag - k))) }
{
    let mut values = [0; 40];
    for k in 0..40 {
        values[k] = add(pulses[k], mult_r(gain, history.at(lag - k)));
    }
    values
}

/// What is left of a sub-frame: from each value is taken what the gain makes of the value one lag before.
#[inline]
fn remainder(history: &LagHistory, lag: usize, gain: i16, d: &[i16; 40]) -> [i16; 40]
    requires least { 40 ≤ lag }
    requires most { lag ≤ 120 }
    ensures { (k : ℕ) → k < 40 → at result k ≡ sub_words (at d.now k) (mult_r_words gain (back_at history.now (lag - k))) }
{
    let mut left = [0; 40];
    for k in 0..40 {
        left[k] = sub(d[k], mult_r(gain, history.at(lag - k)));
    }
    left
}

#[cfg(test)]
mod tests {
    use super::*;

    #[test]
    fn lags_out_of_range_repeat_the_lag_before(rt: HostRuntime) {
        let xmc = [7, 0, 6, 1, 5, 2, 4, 3, 7, 0, 6, 1, 5];
        let mut long_term = LongTerm::new();
        // the lag's code, and the first values of the sub-frame
        for (mc, (nc, want)) in [
            (39, [4032, 0, 0, -4032, 0, 0, 2880, 0]),
            (40, [4032, 4480, 0, -4032, -4480, 0, 2880, 3200]),
            (120, [0, 0, 4928, 0, 0, -4928, 0, 0]),
            (121, [4032, 0, 0, 1344, 0, 0, -2496, 0]),
        ]
        .into_iter()
        .enumerate()
        {
            let mc = mc as u8;
            let xmaxc = 40 + mc;
            let values = long_term.step(&SubParams {
                nc,
                bc: 3,
                mc,
                xmaxc,
                xmc,
            });
            assert_eq!(rt; &values[..8], want.as_slice(), "the lag's code {nc}");
        }
    }

    #[test]
    fn the_prediction_is_taken_off(rt: HostRuntime) {
        let xmc = [7, 0, 6, 1, 5, 2, 4, 3, 7, 0, 6, 1, 5];
        let mut long_term = LongTerm::new();
        for (mc, nc) in [(0, 40), (1, 40), (2, 120)] {
            let xmaxc = 40 + mc;
            long_term.step(&SubParams {
                nc,
                bc: 3,
                mc,
                xmaxc,
                xmc,
            });
        }
        // the lag, the code of its gain, and the first values that are left of 1000
        for (nc, bc, want) in [
            (40, 0, [1000, 1000, 507, 1000, 1000, 1493, 1000, 1000]),
            (40, 3, [1000, 1000, -3928, 1000, 1000, 5928, 1000, 1000]),
            (120, 1, [-411, 1000, 1000, 2411, 1000, 1000, -8, 1000]),
            (77, 2, [3621, 3912, 1000, -872, -1080, 1000, 2872, 3080]),
        ] {
            let left = long_term.residual(&[1000; 40], nc, bc);
            assert_eq!(rt; &left[..8], want.as_slice(), "lag {nc}");
        }
        let low = long_term.residual(&[-32768; 40], 40, 3);
        assert_eq!(rt; &low[2..6], [-32768, -32768, -32768, -27840].as_slice());
        let high = long_term.residual(&[32767; 40], 40, 3);
        assert_eq!(rt; &high[2..6], [27839, 32767, 32767, 32767].as_slice());
        assert_eq!(rt; long_term.history().at(1), 0);
    }
}
