// The notes: short lines for people, on what a command met.
ghost use Rattle.std.specs.Prelude.{◌≡◌, ◌≤◌, ◌+◌, ◌++◌, ◌⊎◌, [], codes, decimal, length};
ghost use Rattle.std.specs.Io.KnownBytes.{Appends};
ghost use Rattle.gate_base.specs.Faults.{HasCause, Rose};
ghost use Rattle.gate_io.specs.Flow.{AppendsPart, Gives};
ghost use Rattle.gate_notes.specs.Exchange.{GainedUnlessFault};
ghost use Rattle.gate_notes.specs.Notes.{counted, fault_line, fault_words, frame_words, frames_line, held_line, illegal_line, legal_line, newline, other_words, play_lines, reply_line, tally_line, ticks_line, usage_line};

use crate::line::TextLine;
use crate::status::Status;
use gate_io::{Failed, Sink};
use playout::FileReply;
use recorder::{PlayTally, RecordFault, Tally};

/// Notes that the arguments are not a valid command line.
pub fn give_usage<E: Sink>(notes: &mut E) -> Result<(), Failed>
    ensures given { Gives (E.given notes.old) (E.given notes.new) result usage_line }
    ensures cause { HasCause (E.faults notes.old) (E.faults notes.new) result }
    ensures kin { E.kin notes.old notes.new }
{
    notes.give(b"usage\n")
}

/// Notes that the arguments are not valid. A fault of the notes changes nothing in the answer.
pub fn refuse_words<E: Sink>(notes: &mut E) -> Status
    ensures status { result ≡ Status.Usage }
    ensures noted { GainedUnlessFault (E.given notes.old) (E.given notes.new) (E.faults notes.old) (E.faults notes.new) usage_line }
    ensures later { E.faults notes.old ≤ E.faults notes.new }
    ensures kin { E.kin notes.old notes.new }
{
    match give_usage(notes) {
        Ok(()) => Status::Usage,
        Err(Failed) => Status::Usage,
    }
}

// Notes a number, the words before another, and that one.
fn give_short<E: Sink>(caller: u8, words: &str, number: u64, notes: &mut E) -> Result<(), Failed>
    requires { length words.now ≤ 40 }
    ensures given { Gives (E.given notes.old) (E.given notes.new) result (decimal caller ++ (counted words.now number ++ newline)) }
    ensures cause { HasCause (E.faults notes.old) (E.faults notes.new) result }
    ensures kin { E.kin notes.old notes.new }
{
    let mut line = TextLine::new();
    line.number(caller as u64);
    line.counted(words, number);
    line.give(notes)
}

// The same, with a third number.
fn give_long<E: Sink>(
    caller: u8,
    words: &str,
    number: u64,
    ahead: u64,
    notes: &mut E,
) -> Result<(), Failed>
    requires { length words.now ≤ 40 }
    ensures given { Gives (E.given notes.old) (E.given notes.new) result (decimal caller ++ (counted words.now number ++ (counted (codes " ") ahead ++ newline))) }
    ensures cause { HasCause (E.faults notes.old) (E.faults notes.new) result }
    ensures kin { E.kin notes.old notes.new }
{
    let mut line = TextLine::new();
    line.number(caller as u64);
    line.counted(words, number);
    line.counted(" ", ahead);
    line.give(notes)
}

/// Notes how a frame was answered, where it was not accepted.
pub fn give_reply<E: Sink>(
    caller: u8,
    number: u64,
    reply: &FileReply,
    notes: &mut E,
) -> Result<(), Failed>
    ensures given { Gives (E.given notes.old) (E.given notes.new) result (reply_line caller number reply.now) }
    ensures cause { HasCause (E.faults notes.old) (E.faults notes.new) result }
    ensures kin { E.kin notes.old notes.new }
{
    match reply {
        FileReply::Accepted => Ok(()),
        FileReply::Duplicate => give_short(caller, " duplicate ", number, notes),
        FileReply::Late { ahead } => give_long(caller, " late ", number, *ahead, notes),
        FileReply::Beyond { ahead } => give_long(caller, " beyond ", number, *ahead, notes),
    }
}

/// Notes what the player's beats came to, and on a second line how many numbers were held and retired, where any was.
pub fn give_plays<E: Sink>(tally: &PlayTally, notes: &mut E) -> Result<(), Failed>
    ensures given { Gives (E.given notes.old) (E.given notes.new) result (play_lines tally.now) }
    ensures cause { HasCause (E.faults notes.old) (E.faults notes.new) result }
    ensures kin { E.kin notes.old notes.new }
{
    match give_ticks(tally, notes) {
        Ok(()) => give_held(tally, notes),
        Err(Failed) => Err(Failed),
    }
}

// Notes how many beats let a number pass and how many numbers were left out, where there are any.
fn give_held<E: Sink>(tally: &PlayTally, notes: &mut E) -> Result<(), Failed>
    ensures given { Gives (E.given notes.old) (E.given notes.new) result (held_line tally.now) }
    ensures cause { HasCause (E.faults notes.old) (E.faults notes.new) result }
    ensures kin { E.kin notes.old notes.new }
{
    if tally.held == 0 && tally.retired == 0 {
        return Ok(());
    }
    let mut line = TextLine::new();
    line.counted("held ", tally.held);
    line.counted(" retired ", tally.retired);
    line.give(notes)
}

// Notes the ticks, and what they and the other beats played.
fn give_ticks<E: Sink>(tally: &PlayTally, notes: &mut E) -> Result<(), Failed>
    ensures given { Gives (E.given notes.old) (E.given notes.new) result (ticks_line tally.now) }
    ensures cause { HasCause (E.faults notes.old) (E.faults notes.new) result }
    ensures kin { E.kin notes.old notes.new }
{
    let mut line = TextLine::new();
    line.counted("ticks ", tally.ticks);
    line.counted(" frames ", tally.frames);
    line.counted(" erasures ", tally.erasures);
    line.counted(" idle ", tally.idle);
    line.give(notes)
}

// Writes how the frames were answered.
fn put_frames(line: &mut TextLine, tally: &Tally)
    requires { length line.old ≤ 100 }
    ensures text { line.new ≡ line.old ++ frame_words tally.now }
    ensures short { length line.new ≤ length line.old + 120 }
{
    line.counted(" accepted ", tally.accepted);
    line.counted(" duplicate ", tally.duplicate);
    line.counted(" late ", tally.late);
    line.counted(" beyond ", tally.beyond);
}

// Writes how many datagrams gave no frame.
fn put_others(line: &mut TextLine, tally: &Tally)
    requires { length line.old ≤ 220 }
    ensures text { line.new ≡ line.old ++ other_words tally.now }
    ensures short { length line.new ≤ length line.old + 120 }
{
    line.counted(" refused ", tally.refused);
    line.counted(" stranger ", tally.stranger);
    line.counted(" rtcp ", tally.rtcp);
    line.counted(" empty ", tally.empty);
}

// Writes what datagrams and their frames came to, and gives the line.
fn give_counts<E: Sink>(mut line: TextLine, tally: &Tally, notes: &mut E) -> Result<(), Failed>
    requires { length line ≤ 40 }
    ensures given { Gives (E.given notes.old) (E.given notes.new) result (tally_line line tally.now) }
    ensures cause { HasCause (E.faults notes.old) (E.faults notes.new) result }
    ensures kin { E.kin notes.old notes.new }
{
    line.counted(" datagrams ", tally.datagrams);
    put_frames(&mut line, tally);
    put_others(&mut line, tally);
    line.give(notes)
}

/// Notes what the datagrams and the frames of all callers came to.
pub fn give_tally<E: Sink>(tally: &Tally, notes: &mut E) -> Result<(), Failed>
    ensures given { Gives (E.given notes.old) (E.given notes.new) result (tally_line (codes "all") tally.now) }
    ensures cause { HasCause (E.faults notes.old) (E.faults notes.new) result }
    ensures kin { E.kin notes.old notes.new }
{
    let mut line = TextLine::new();
    line.words("all");
    give_counts(line, tally, notes)
}

/// Notes what the datagrams and the frames of one link came to, by its number.
pub fn give_link<E: Sink>(link: u64, tally: &Tally, notes: &mut E) -> Result<(), Failed>
    ensures given { Gives (E.given notes.old) (E.given notes.new) result (tally_line (counted (codes "link ") link) tally.now) }
    ensures cause { HasCause (E.faults notes.old) (E.faults notes.new) result }
    ensures kin { E.kin notes.old notes.new }
{
    let mut line = TextLine::new();
    line.counted("link ", link);
    give_counts(line, tally, notes)
}

/// Notes the summary of a run: what the player's beats came to, and all datagrams and frames.
pub fn give_summary<E: Sink>(plays: &PlayTally, tally: &Tally, notes: &mut E) -> Result<(), Failed>
    ensures given { Gives (E.given notes.old) (E.given notes.new) result (play_lines plays.now ++ tally_line (codes "all") tally.now) }
    ensures cause { HasCause (E.faults notes.old) (E.faults notes.new) result }
    ensures kin { E.kin notes.old notes.new }
{
    match give_plays(plays, notes) {
        Ok(()) => give_tally(tally, notes),
        Err(Failed) => Err(Failed),
    }
}

// Writes the words of a fault, with its place.
fn put_fault(line: &mut TextLine, fault: &RecordFault)
    requires { length line.old ≤ 60 }
    ensures text { line.new ≡ line.old ++ fault_words fault.now }
    ensures short { length line.new ≤ length line.old + 40 }
{
    match fault {
        RecordFault::Magic => line.words(" magic"),
        RecordFault::Kind { at } => line.counted(" kind ", *at),
        RecordFault::Cut { at } => line.counted(" cut ", *at),
        RecordFault::Field { at } => line.counted(" field ", *at),
        RecordFault::TooLong => line.words(" long"),
    }
}

/// Notes the first fault of an input, by the input's place among the words, from 0.
pub fn give_fault<E: Sink>(input: u32, fault: &RecordFault, notes: &mut E) -> Result<(), Failed>
    ensures given { Gives (E.given notes.old) (E.given notes.new) result (fault_line input fault.now) }
    ensures cause { HasCause (E.faults notes.old) (E.faults notes.new) result }
    ensures kin { E.kin notes.old notes.new }
{
    let mut line = TextLine::new();
    line.counted("input ", input as u64);
    put_fault(&mut line, fault);
    line.give(notes)
}

/// The same, where a fault of the notes changes nothing: the input's came first.
pub fn note_fault<E: Sink>(input: u32, fault: RecordFault, notes: &mut E)
    ensures noted { GainedUnlessFault (E.given notes.old) (E.given notes.new) (E.faults notes.old) (E.faults notes.new) (fault_line input fault) }
    ensures later { E.faults notes.old ≤ E.faults notes.new }
    ensures kin { E.kin notes.old notes.new }
{
    match give_fault(input, &fault, notes) {
        Ok(()) => {}
        Err(Failed) => {}
    }
}

/// Notes how many frames there were.
pub fn give_frames<E: Sink>(count: u32, notes: &mut E) -> Result<(), Failed>
    ensures given { Gives (E.given notes.old) (E.given notes.new) result (frames_line count) }
    ensures cause { HasCause (E.faults notes.old) (E.faults notes.new) result }
    ensures kin { E.kin notes.old notes.new }
{
    let mut line = TextLine::new();
    line.counted("frames ", count as u64);
    line.give(notes)
}

/// Notes how many calls a legal history has.
pub fn give_legal<E: Sink>(count: u64, notes: &mut E) -> Result<(), Failed>
    ensures given { Gives (E.given notes.old) (E.given notes.new) result (legal_line count) }
    ensures cause { HasCause (E.faults notes.old) (E.faults notes.new) result }
    ensures kin { E.kin notes.old notes.new }
{
    let mut line = TextLine::new();
    line.counted("legal ", count);
    line.give(notes)
}

/// Notes the caller and the place where no legal history goes on. The player is named by the number of filers.
pub fn give_illegal<E: Sink>(caller: u32, place: u64, notes: &mut E) -> Result<(), Failed>
    ensures given { Gives (E.given notes.old) (E.given notes.new) result (illegal_line caller place) }
    ensures cause { HasCause (E.faults notes.old) (E.faults notes.new) result }
    ensures kin { E.kin notes.old notes.new }
{
    let mut line = TextLine::new();
    line.counted("illegal ", caller as u64);
    line.counted(" ", place);
    line.give(notes)
}
