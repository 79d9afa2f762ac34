//! The long-term part of the full-rate codec: lags, grids, pulses and their codes, and the values that a lag reaches.
#![tactic(auto)]

mod grid;
mod history;
mod lag_gain;
mod lag_search;
mod lag_sums;
mod long_term;
mod pulse_codes;
mod pulses;
mod sub_frame;
mod weighting;

pub use grid::grid_of;
pub use history::LagHistory;
pub use lag_search::best_lag;
pub use long_term::LongTerm;
pub use pulse_codes::apcm;
pub use pulses::inverse_apcm;
pub use weighting::weight;
