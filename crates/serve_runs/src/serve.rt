// The command `serve`: the gateway on links.
ghost use Rattle.std.specs.Prelude.{◌≡◌, ◌≤◌, ◌⊎◌, ◌↔◌, None, true, false, map, IfOk, IfErr, IfSome, IsErrOf};
ghost use Rattle.std.specs.String.{string_bytes};
ghost use Rattle.gate_base.specs.Faults.{Rose};
ghost use Rattle.command_line.specs.Lines.{fits_serve};
ghost use Rattle.gate_notes.specs.Notes.{usage_line};
ghost use Rattle.line_run.specs.Objects.{objects};
ghost use Rattle.serve_runs.specs.Running.{DoneUnlessFault, IsLineOf, NotesGained, ServeRan, SomeLinkFailed, SomeSinkFailed, StatusTells, Untouched, fits_over};
ghost use Rattle.serve_runs.specs.Serve.{line_options, serve_lines};

use crate::serve_end::finish;
use command_line::{Line, Refusal, ServeOptions, read_line};
use gate_base::OutOfMemory;
use gate_io::{Link, Sink, Source, TickClock};
use gate_notes::{Status, refuse_words};
use line_run::{LineEnd, LineOptions, open_line, run_line};
use std::alloc::Global;
use std::sync::Wait;
use std::thread::Threads;

/// What `serve` came to: the status, and the ends of all callers where they ran.
#[derive(Drop)]
pub struct Served {
    /// How it ended.
    pub status: Status,
    /// What the line's run answered: none exactly with `Usage` and `OutOfMemory`.
    pub end: Option<LineEnd>,
}

// Nobody ran.
fn refused(status: Status) -> Served
    ensures { (result.status ≡ status) × (result.end ≡ None) }
{
    Served { status, end: None }
}

// The options of a line, as the words say them.
fn options_of(said: &ServeOptions) -> LineOptions
    ensures { result ≡ line_options said.now }
{
    LineOptions {
        g: said.ring,
        delay: said.delay,
        seed: said.seed,
        ticks: said.ticks,
        report: said.report,
        own: said.ssrc,
        sequence: said.sequence,
        stamp: said.stamp,
        elastic: said.elastic,
    }
}

// The line of these words, for so many links and journals.
fn line_for(
    alloc: Global,
    words: &[String],
    links: usize,
    journals: usize,
) -> Result<line_run::Line, Status>
    ensures opened { IfOk result (IsLineOf (map string_bytes words.now) links journals) }
    ensures usage { IsErrOf result Status.Usage → fits_serve (map string_bytes words.now) links journals ≡ false }
    ensures fits { IfOk result (λ l. fits_serve (map string_bytes words.now) links journals ≡ true) }
    ensures only { IfErr result (λ s. (s ≡ Status.Usage) ⊎ (s ≡ Status.OutOfMemory)) }
{
    let said = match read_line(alloc, words) {
        Ok(Line::Serve(said)) => said,
        Ok(Line::Files(_)) => return Err(Status::Usage),
        Err(Refusal::Usage) => return Err(Status::Usage),
        Err(Refusal::OutOfMemory) => return Err(Status::OutOfMemory),
    };
    if said.listen.len() != links || journals != links + 1 {
        return Err(Status::Usage);
    }
    match open_line(alloc, links as u32, &options_of(&said.options)) {
        Ok(line) => Ok(line),
        Err(OutOfMemory) => Err(Status::OutOfMemory),
    }
}

/// Does the command `serve` of the words over the links, one for each address that they listen on, and the journals, the
/// player's first. All callers run at once, each on a thread of its own, to their ends; it waits as long as they do.
///
/// `Usage` comes exactly where the arguments are no valid command line of serve or the lists have other lengths than they say, and then, as with
/// `OutOfMemory`, nothing is taken, and nothing given but the line `usage` to the notes.
pub fn run_serve<
    R: Threads + Wait + Sync,
    P: Link + Send,
    I: Source + Send,
    O: Sink + Send,
    J: Sink + Send,
    E: Sink,
    C: TickClock + Send,
>(
    rt: &R,
    alloc: Global,
    words: &Vec<String>,
    links: &mut Vec<P>,
    reply: &mut P,
    microphone: &mut I,
    speaker: &mut O,
    journals: &mut Vec<J>,
    notes: &mut E,
    clock: &mut C,
) -> Served
    ensures usage { result.status ≡ Status.Usage → fits_over words.now links.old journals.old ≡ false }
    ensures usage_only { fits_over words.now links.old journals.old ≡ false → (result.status ≡ Status.Usage) ⊎ (result.status ≡ Status.OutOfMemory) }
    ensures no_end { (result.end ≡ None) ↔ ((result.status ≡ Status.Usage) ⊎ (result.status ≡ Status.OutOfMemory)) }
    ensures untouched { result.end ≡ None → Untouched links.old reply.old microphone.old speaker.old journals.old clock.old links.new reply.new microphone.new speaker.new journals.new clock.new }
    ensures refused { result.status ≡ Status.Usage → NotesGained E.Sink notes.old notes.new usage_line }
    ensures starved { result.status ≡ Status.OutOfMemory → notes.new ≡ notes.old }
    ensures ran { ServeRan P.Link I.Source O.Sink J.Sink C.TickClock words.now (objects links.old reply.old microphone.old speaker.old journals.old clock.old) (objects links.new reply.new microphone.new speaker.new journals.new clock.new) result.end }
    ensures status { IfSome result.end (StatusTells E.Sink notes.old notes.new result.status) }
    ensures noted { IfSome result.end (λ e. NotesGained E.Sink notes.old notes.new (serve_lines e.played e.filers)) }
    ensures read { result.status ≡ Status.ReadFault → Rose (I.faults microphone.old) (I.faults microphone.new) }
    ensures write { result.status ≡ Status.WriteFault → SomeSinkFailed O.Sink J.Sink E.Sink speaker.old speaker.new journals.old journals.new notes.old notes.new }
    ensures link { result.status ≡ Status.LinkFault → SomeLinkFailed P.Link links.old links.new reply.old reply.new }
    ensures complete { DoneUnlessFault P.Link I.Source O.Sink J.Sink E.Sink words.now (objects links.old reply.old microphone.old speaker.old journals.old clock.old) (objects links.new reply.new microphone.new speaker.new journals.new clock.new) notes.old notes.new result.status }
    ensures later { E.faults notes.old ≤ E.faults notes.new }
    ensures kin { O.kin speaker.old speaker.new × E.kin notes.old notes.new }
{
    let line = match line_for(alloc, words, links.len(), journals.len()) {
        Ok(line) => line,
        Err(Status::Usage) => return refused(refuse_words(notes)),
        Err(status) => return refused(status),
    };
    let end = run_line(rt, line, links, reply, microphone, speaker, journals, clock);
    let status = finish(&end, notes);
    Served {
        status,
        end: Some(end),
    }
}
