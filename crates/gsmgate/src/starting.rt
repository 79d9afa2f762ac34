// What a command line results in: its objects are opened, and then it runs over them.
ghost use Rattle.std.specs.Prelude.{◌≡◌, ◌≤◌, ◌⊎◌, ◌↔◌, None, true, false, map, length, IsErr, IfOk, IfSome};
ghost use Rattle.std.specs.String.{string_bytes};
ghost use Rattle.gate_base.specs.Faults.{Rose};
ghost use Rattle.gate_notes.specs.Exchange.{SomeRose};
ghost use Rattle.gate_notes.specs.Notes.{usage_line};
ghost use Rattle.serve_runs.specs.Running.{NotesGained, StatusTells};
ghost use Rattle.serve_runs.specs.Serve.{serve_lines};
ghost use Rattle.gsmgate.specs.Gateway.{AreOpen, IfEnded, IfFiles, IfServe, IsOpenedAt, StartsFrom};
ghost use Rattle.gsmgate.specs.Offline.{FilesRan, FilesStopped, NoCountFell, OnlyRefused, UnreadUnlessFit, files_fit, lent};
ghost use Rattle.gsmgate.specs.Running.{GatewayDone, GatewayRan, LinkFailed, SinkFailed, gateway_fits};

use crate::gateway::{Gateway, OsGateway, open_gateway};
use crate::offline::run_offline;
use crate::places::{Places, addresses};
use gate_base::OutOfMemory;
use gate_io::{Link, Sink, Source, TickClock};
use gate_notes::{Status, refuse_words};
use gate_os::{OsSink, OsSource};
use serve_runs::{Served, run_serve};
use std::alloc::{AllocError, Global};
use std::fs::Files;
use std::io::Print;
use std::net::Net;
use std::sync::Wait;
use std::thread::Threads;
use std::time::Clock;

/// The words of a command over files, and its files.
#[derive(Drop)]
pub struct FilesOpen<I, O> {
    /// The words of the line.
    pub words: Vec<String>,
    /// What is read, in the order of the words.
    pub inputs: Vec<I>,
    /// What is written.
    pub output: O,
}

/// The words of a line of serve, and its objects.
#[derive(Drop)]
pub struct ServeOpen<G> {
    /// The words of the line.
    pub words: Vec<String>,
    /// Its objects.
    pub gateway: G,
}

/// How far the words have come.
#[derive(Drop)]
pub enum Started<I, O, G> {
    /// They have ended so.
    Ended(Status),
    /// A command over files is to run.
    Files(FilesOpen<I, O>),
    /// A gateway is to run.
    Serve(ServeOpen<G>),
}

/// What the arguments result in over the system's files, sockets and clock.
pub type OsStarted<'a, R> = Started<OsSource<R>, OsSink<'a, R>, OsGateway<'a, R>>;

// The files of a command over files.
fn open_files<'a, R: Files + Print + Sync + AllocGlobal>(
    rt: &'a R,
    words: Vec<String>,
    places: &Places,
) -> Result<FilesOpen<OsSource<R>, OsSink<'a, R>>, OutOfMemory>
    ensures { IfOk result (AreOpen (map string_bytes words.items) (length places.now.inputs.items)) }
{
    let mut inputs = Vec::new(rt.alloc());
    for path in &places.inputs {
        inputs.push(OsSource::open(rt, rt.alloc(), path.as_str())?)?;
    }
    let output = OsSink::create(rt, rt.alloc(), places.output.as_str())?;
    Ok(FilesOpen {
        words,
        inputs,
        output,
    })
}

// What the words name at these places.
fn open_places<'a, R: Net + Clock + Wait + Files + Print + Sync + AllocGlobal>(
    rt: &'a R,
    words: Vec<String>,
    places: &Places,
) -> Result<OsStarted<'a, R>, OutOfMemory>
    requires { places.now.serve ≡ true → 1 ≤ length places.now.links.items }
    ensures { IfOk result (IsOpenedAt (map string_bytes words.items) places.now) }
{
    if places.serve {
        let gateway = open_gateway(rt, places)?;
        return Ok(Started::Serve(ServeOpen { words, gateway }));
    }
    Ok(Started::Files(open_files(rt, words, places)?))
}

// Opens what these words name.
fn open_words<'a, R: Net + Clock + Wait + Files + Print + Sync + AllocGlobal, E: Sink>(
    rt: &'a R,
    words: Vec<String>,
    notes: &mut E,
) -> OsStarted<'a, R>
    ensures { StartsFrom E.Sink words result notes.old notes.new }
{
    let places = match addresses(rt.alloc(), &words) {
        Ok(places) => places,
        Err(Status::Usage) => return Started::Ended(refuse_words(notes)),
        Err(status) => return Started::Ended(status),
    };
    match open_places(rt, words, &places) {
        Ok(started) => started,
        Err(OutOfMemory) => Started::Ended(Status::OutOfMemory),
    }
}

/// Opens what the words name: the files of a command over files, or the gateway of a line of serve. Arguments that are not valid are
/// refused by the line `usage` to the notes. Where there was no memory for the words, or there is none for what they name, that
/// is how they end.
pub fn start<'a, R: Net + Clock + Wait + Files + Print + Sync + AllocGlobal, E: Sink>(
    rt: &'a R,
    words: Result<Vec<String>, AllocError>,
    notes: &mut E,
) -> OsStarted<'a, R>
    ensures unread { IsErr words → (result ≡ Started.Ended Status.OutOfMemory) × (notes.new ≡ notes.old) }
    ensures read { IfOk words (λ w. StartsFrom E.Sink w result notes.old notes.new) }
{
    match words {
        Ok(words) => open_words(rt, words, notes),
        Err(_) => Started::Ended(Status::OutOfMemory),
    }
}

// Nobody ran on threads.
fn ended(status: Status) -> Served
    ensures { result ≡ record { status = status; end = None } }
{
    Served { status, end: None }
}

/// Runs what was opened, and answers how it ended: `run_offline` over the files, or `run_serve` over the gateway.
pub fn run_on<
    R: Threads + Wait + Sync,
    I: Source,
    O: Sink,
    P: Link + Send,
    M: Source + Send,
    S: Sink + Send,
    J: Sink + Send,
    C: TickClock + Send,
    E: Sink,
>(
    rt: &R,
    alloc: Global,
    started: &mut Started<I, O, Gateway<P, M, S, J, C>>,
    notes: &mut E,
) -> Served
    ensures ended { IfEnded started.old (λ s. (result ≡ record { status = s; end = None }) × (notes.new ≡ notes.old)) }

    ensures files_end { IfFiles started.old started.new (λ o p. result.end ≡ None) }
    ensures files_usage { IfFiles started.old started.new (λ o p. result.status ≡ Status.Usage → files_fit o.words o.inputs ≡ false) }
    ensures files_usage_only { IfFiles started.old started.new (λ o p. files_fit o.words o.inputs ≡ false → (result.status ≡ Status.Usage) ⊎ (result.status ≡ Status.OutOfMemory)) }
    ensures files_untouched { IfFiles started.old started.new (λ o p. result.status ≡ Status.Usage → OnlyRefused E.Sink (lent o.inputs o.output notes.old) (lent p.inputs p.output notes.new)) }
    ensures files_unread { IfFiles started.old started.new (λ o p. UnreadUnlessFit o.words result.status (lent o.inputs o.output notes.old) (lent p.inputs p.output notes.new)) }
    ensures files_ran { IfFiles started.old started.new (λ o p. FilesRan I.Source O.Sink E.Sink o.words result.status (lent o.inputs o.output notes.old) (lent p.inputs p.output notes.new)) }
    ensures files_stops { IfFiles started.old started.new (λ o p. FilesStopped I.Source O.Sink E.Sink o.words result.status (lent o.inputs o.output notes.old) (lent p.inputs p.output notes.new)) }
    ensures files_many { IfFiles started.old started.new (λ o p. length p.inputs.items ≡ length o.inputs.items) }
    ensures files_read { IfFiles started.old started.new (λ o p. result.status ≡ Status.ReadFault → SomeRose (map I.faults o.inputs.items) (map I.faults p.inputs.items)) }
    ensures files_write { IfFiles started.old started.new (λ o p. result.status ≡ Status.WriteFault → Rose (O.faults o.output) (O.faults p.output) ⊎ Rose (E.faults notes.old) (E.faults notes.new)) }
    ensures files_later { IfFiles started.old started.new (λ o p. NoCountFell I.Source O.Sink E.Sink (lent o.inputs o.output notes.old) (lent p.inputs p.output notes.new)) }
    ensures files_kin { IfFiles started.old started.new (λ o p. O.kin o.output p.output × E.kin notes.old notes.new) }

    ensures serve_usage { IfServe started.old started.new (λ o p. result.status ≡ Status.Usage → gateway_fits o ≡ false) }
    ensures serve_usage_only { IfServe started.old started.new (λ o p. gateway_fits o ≡ false → (result.status ≡ Status.Usage) ⊎ (result.status ≡ Status.OutOfMemory)) }
    ensures serve_no_end { IfServe started.old started.new (λ o p. (result.end ≡ None) ↔ ((result.status ≡ Status.Usage) ⊎ (result.status ≡ Status.OutOfMemory))) }
    ensures serve_untouched { IfServe started.old started.new (λ o p. result.end ≡ None → p.gateway ≡ o.gateway) }
    ensures serve_refused { IfServe started.old started.new (λ o p. result.status ≡ Status.Usage → NotesGained E.Sink notes.old notes.new usage_line) }
    ensures serve_starved { IfServe started.old started.new (λ o p. result.status ≡ Status.OutOfMemory → notes.new ≡ notes.old) }
    ensures serve_ran { IfServe started.old started.new (λ o p. GatewayRan P.Link M.Source S.Sink J.Sink C.TickClock o p result.end) }
    ensures serve_status { IfServe started.old started.new (λ o p. IfSome result.end (StatusTells E.Sink notes.old notes.new result.status)) }
    ensures serve_noted { IfServe started.old started.new (λ o p. IfSome result.end (λ e. NotesGained E.Sink notes.old notes.new (serve_lines e.played e.filers))) }
    ensures serve_read { IfServe started.old started.new (λ o p. result.status ≡ Status.ReadFault → Rose (M.faults o.gateway.microphone) (M.faults p.gateway.microphone)) }
    ensures serve_write { IfServe started.old started.new (λ o p. result.status ≡ Status.WriteFault → SinkFailed S.Sink J.Sink E.Sink o p notes.old notes.new) }
    ensures serve_link { IfServe started.old started.new (λ o p. result.status ≡ Status.LinkFault → LinkFailed P.Link o p) }
    ensures serve_complete { IfServe started.old started.new (λ o p. GatewayDone P.Link M.Source S.Sink J.Sink E.Sink o p notes.old notes.new result.status) }
    ensures serve_later { IfServe started.old started.new (λ o p. E.faults notes.old ≤ E.faults notes.new) }
    ensures serve_kin { IfServe started.old started.new (λ o p. S.kin o.gateway.speaker p.gateway.speaker × E.kin notes.old notes.new) }
{
    match started {
        Started::Ended(status) => ended(*status),
        Started::Files(open) => ended(run_offline(
            alloc,
            &open.words,
            &mut open.inputs,
            &mut open.output,
            notes,
        )),
        Started::Serve(open) => run_serve(
            rt,
            alloc,
            &open.words,
            &mut open.gateway.links,
            &mut open.gateway.reply,
            &mut open.gateway.microphone,
            &mut open.gateway.speaker,
            &mut open.gateway.journals,
            notes,
            &mut open.gateway.clock,
        ),
    }
}
