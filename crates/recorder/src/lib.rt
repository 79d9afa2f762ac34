//! Scripts and journals: octets read as events with the first fault and its place, and events written as octets.
#![tactic(auto)]

mod calls;
mod events;
mod fault;
mod fields;
mod filer_fields;
mod filer_head;
mod filer_journal;
mod filer_read;
mod filer_reader;
mod filer_writer;
mod heading;
mod laws;
mod packet;
mod play_read;
mod play_reader;
mod play_writer;
mod player_journal;
mod read;
mod reading;
mod refusal;
mod script_read;
mod script_reader;
mod script_writer;
mod tally;

pub use calls::{call_item, play_event_of};
pub use events::{Asked2, FilerEvent, PlayEvent, ScriptEvent};
pub use fault::{Ending, RecordEnd, RecordFault};
pub use filer_head::FilerHead;
pub use filer_journal::FilerJournal;
pub use filer_reader::FilerReader;
pub use filer_writer::{write_filer, write_filer_head};
pub use heading::Head;
pub use laws::{
    filer_journals_have_no_fault, filer_journals_have_one_fault, player_journals_have_no_fault,
    player_journals_have_one_fault, scripts_have_no_fault, scripts_have_one_fault,
};
pub use packet::Packet;
pub use play_reader::PlayReader;
pub use play_writer::{write_end, write_play, write_play_head};
pub use player_journal::PlayerJournal;
pub use refusal::JournalRefusal;
pub use script_reader::ScriptReader;
pub use script_writer::{write_script, write_script_head};
pub use tally::{PlayTally, Tally};

#[cfg(test)]
mod test_files;
#[cfg(test)]
mod tests;
