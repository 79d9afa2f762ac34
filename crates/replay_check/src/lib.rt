//! What journals tell: whether their calls have a legal history, and the speech that was played.
#![tactic(auto)]

mod denials;
mod heads;
mod laws;
mod made;
mod make;
mod making;
mod order;
mod pick;
mod played;
mod plays;
mod recorded;
mod rendering;
mod replay;
mod round;
mod verdict;
mod words;

pub use gate_base::OutOfMemory;
pub use heads::are_of_one_line;
pub use laws::{order_is_one, rule_decides, rule_is_exact};
pub use made::Made;
pub use make::make_script;
pub use order::Order;
pub use rendering::{RenderEnd, render};
pub use replay::verify;
pub use verdict::Verdict;

#[cfg(test)]
mod search_tests;
#[cfg(test)]
mod tests;
