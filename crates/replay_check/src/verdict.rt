// The verdict on journals.
use crate::order::Order;

/// Whether journals have a legal history.
#[derive(Drop)]
pub enum Verdict {
    /// They have one, with its callers in this order.
    Legal(Order),
    /// They have none. `caller` is the lowest filer with calls left where no call is possible, or the player (the
    /// number of filers) where no filer has any, and `place` is that of its next call among its calls, from 0.
    Illegal { caller: u32, place: u64 },
}
