// What the ends of a line's callers result in: the status of `serve`, and its notes.
ghost use Rattle.std.specs.Prelude.{◌≡◌, ◌≤◌, None};
ghost use Rattle.gate_base.specs.Faults.{HasCause, Rose};
ghost use Rattle.gate_io.specs.Flow.{Gives};
ghost use Rattle.serve_runs.specs.Running.{NotesGained, StatusTells};
ghost use Rattle.serve_runs.specs.Serve.{fault_of_ends, filer_fault, link_lines, lowest_fault, player_fault, serve_lines};

use gate_io::{Failed, Sink};
use gate_notes::{Status, give_link, give_plays};
use line_run::{FilerEnd, FilerEnds, LineEnd, PlayerEnd};

// The status of a player's end, where it is a fault.
fn player_fault(end: PlayerEnd) -> Option<Status>
    ensures { result ≡ player_fault end }
{
    match end {
        PlayerEnd::Ended => None,
        PlayerEnd::SpeakerFault => Some(Status::WriteFault),
        PlayerEnd::JournalFault => Some(Status::WriteFault),
        PlayerEnd::MicFault => Some(Status::ReadFault),
        PlayerEnd::ReplyFault => Some(Status::LinkFault),
    }
}

// The status of a filer's end, where it is a fault.
fn filer_fault(end: FilerEnd) -> Option<Status>
    ensures { result ≡ filer_fault end }
{
    match end {
        FilerEnd::Ended => None,
        FilerEnd::LinkFault => Some(Status::LinkFault),
        FilerEnd::JournalFault => Some(Status::WriteFault),
    }
}

// That of the lowest filer that has not ended well.
fn lowest_fault(filers: &FilerEnds) -> Option<Status>
    ensures { result ≡ lowest_fault filers.now }
{
    'filers: for k in 0..filers.len() {
        let fault = filer_fault(filers.get(k).0);
        if fault.is_some() {
            return fault;
        }
    }
    None
}

// The player's fault, else that of the lowest filer.
fn fault_of(end: &LineEnd) -> Option<Status>
    ensures { result ≡ fault_of_ends end.now.player end.now.filers }
{
    let fault = player_fault(end.player);
    if fault.is_some() {
        return fault;
    }
    lowest_fault(&end.filers)
}

// Notes what the datagrams of each filer came to.
fn give_links<E: Sink>(filers: &FilerEnds, notes: &mut E) -> Result<(), Failed>
    ensures given { Gives (E.given notes.old) (E.given notes.new) result (link_lines 0 filers.now) }
    ensures cause { HasCause (E.faults notes.old) (E.faults notes.new) result }
    ensures kin { E.kin notes.old notes.new }
{
    'filers: for k in 0..filers.len() {
        match give_link(k as u64, &filers.get(k).1, notes) {
            Ok(()) => {}
            Err(Failed) => return Err(Failed),
        }
    }
    Ok(())
}

// Notes what the beats and the datagrams came to.
fn give_end<E: Sink>(end: &LineEnd, notes: &mut E) -> Result<(), Failed>
    ensures given { Gives (E.given notes.old) (E.given notes.new) result (serve_lines end.now.played end.now.filers) }
    ensures cause { HasCause (E.faults notes.old) (E.faults notes.new) result }
    ensures kin { E.kin notes.old notes.new }
{
    match give_plays(&end.played, notes) {
        Ok(()) => give_links(&end.filers, notes),
        Err(Failed) => Err(Failed),
    }
}

/// The status of a line that has run, whose notes are given here.
pub fn finish<E: Sink>(end: &LineEnd, notes: &mut E) -> Status
    ensures status { StatusTells E.Sink notes.old notes.new result end.now }
    ensures noted { NotesGained E.Sink notes.old notes.new (serve_lines end.now.played end.now.filers) }
    ensures cause { fault_of_ends end.now.player end.now.filers ≡ None → result ≡ Status.WriteFault → Rose (E.faults notes.old) (E.faults notes.new) }
    ensures later { E.faults notes.old ≤ E.faults notes.new }
    ensures kin { E.kin notes.old notes.new }
{
    let given = give_end(end, notes);
    match fault_of(end) {
        Some(fault) => fault,
        None => match given {
            Ok(()) => Status::Done,
            Err(Failed) => Status::WriteFault,
        },
    }
}
