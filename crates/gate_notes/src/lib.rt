//! What all commands share: how one ends, what passed between it and the objects that it was lent, and the lines that it gives.
#![tactic(auto)]

mod line;
mod notes;
mod page;
mod refusals;
mod status;
mod stop;

pub use line::TextLine;
pub use notes::{
    give_fault, give_frames, give_illegal, give_legal, give_link, give_plays, give_reply,
    give_summary, give_tally, give_usage, note_fault, refuse_words,
};
pub use page::Page;
pub use refusals::give_end;
pub use status::{Status, code_of};
pub use stop::Stop;
