// The objects of a line of serve.
ghost use Rattle.std.specs.Prelude.{◌≡◌, ◌≤◌, map, length, IfOk};
ghost use Rattle.gate_os.specs.Edges.{lasting, nanos_of};
ghost use Rattle.gsmgate.specs.Gateway.{AreFresh, AreUnused, IsLive, IsOpened, IsReply, begun_at};

use crate::places::Places;
use gate_base::OutOfMemory;
use gate_os::{OsClock, OsSink, OsSource, Reading, UdpLink};
use std::fs::Files;
use std::io::Print;
use std::net::Net;
use std::sync::Wait;
use std::time::Clock;

/// What a line of serve runs over. Each place has a type of its own, so that no two of them can be exchanged.
#[derive(Drop)]
pub struct Gateway<P, I, O, J, C> {
    /// The links, one for each address that is listened on.
    pub links: Vec<P>,
    /// Where return speech is sent.
    pub reply: P,
    /// Where return speech is read.
    pub microphone: I,
    /// Where speech is played.
    pub speaker: O,
    /// The journals, the player's first.
    pub journals: Vec<J>,
    /// The ticks.
    pub clock: C,
}

/// A gateway on sockets, files and the system's clock.
pub type OsGateway<'a, R> = Gateway<
    UdpLink<'a, R>,
    OsSource<R>,
    OsSink<'a, R>,
    OsSink<'a, R>,
    OsClock<'a, R>,
>;

/// The files of a line of serve.
#[derive(Drop)]
pub struct Streams<I, O, J> {
    /// Where return speech is read.
    pub microphone: I,
    /// Where speech is played.
    pub speaker: O,
    /// The journals, the player's first.
    pub journals: Vec<J>,
}

// A file for each of these paths.
fn create_all<'a, R: Files + Print + Sync + AllocGlobal>(
    rt: &'a R,
    paths: &[String],
) -> Result<Vec<OsSink<'a, R>>, OutOfMemory>
    ensures { IfOk result (λ v. length v.items ≡ length paths.now) }
{
    let mut sinks = Vec::new(rt.alloc());
    for path in paths {
        sinks.push(OsSink::create(rt, rt.alloc(), path.as_str())?)?;
    }
    Ok(sinks)
}

// Opens the files, each of which may take its time: the other end of a FIFO may come late.
fn open_streams<'a, R: Files + Print + Sync + AllocGlobal>(
    rt: &'a R,
    places: &Places,
) -> Result<Streams<OsSource<R>, OsSink<'a, R>, OsSink<'a, R>>, OutOfMemory>
    ensures { IfOk result (AreUnused (length places.now.journals.items)) }
{
    Ok(Streams {
        microphone: OsSource::open(rt, rt.alloc(), places.microphone.as_str())?,
        speaker: OsSink::create(rt, rt.alloc(), places.speaker.as_str())?,
        journals: create_all(rt, &places.journals)?,
    })
}

// A socket for each address that is listened on.
fn bind_all<'a, R: Net + Clock + Wait + Sync + AllocGlobal>(
    rt: &'a R,
    places: &Places,
) -> Result<Vec<UdpLink<'a, R>>, OutOfMemory>
    ensures { IfOk result (λ v. AreFresh (lasting places.now.ticks) (length places.now.links.items) v.items) }
{
    let mut links = Vec::new(rt.alloc());
    for here in &places.links {
        links.push(UdpLink::bind(rt, rt.alloc(), here.as_str(), "", places.ticks)?)?;
    }
    Ok(links)
}

// A socket for return speech, at the port of the first that listens.
fn open_reply<'a, R: Net + Clock + Wait + Sync + AllocGlobal>(
    rt: &'a R,
    links: &[UdpLink<'a, R>],
    places: &Places,
) -> Result<UdpLink<'a, R>, OutOfMemory>
    requires { 1 ≤ length links.now }
    ensures { IfOk result (IsReply (lasting places.now.ticks)) }
{
    links[0].answering(rt.alloc(), places.reply.as_str(), places.ticks)
}

// Lets the lives of all links begin at this reading.
fn begin_all<'a, R: Clock>(links: &mut Vec<UdpLink<'a, R>>, start: Reading)
    ensures { links.new.items ≡ map (begun_at (nanos_of start)) links.old.items }
{
    for link in links.iter_mut() {
        link.begin(start);
    }
}

// The gateway over files that are open: its sockets are bound, and their lives begin with its clock. It can open no file.
fn go_live<'a, R: Net + Clock + Wait + Sync + AllocGlobal, I: Drop, O: Drop, J: Drop>(
    rt: &'a R,
    places: &Places,
    streams: Streams<I, O, J>,
) -> Result<Gateway<UdpLink<'a, R>, I, O, J, OsClock<'a, R>>, OutOfMemory>
    requires { 1 ≤ length places.now.links.items }
    ensures live { IfOk result (IsLive places.now.ticks (length places.now.links.items)) }
    ensures streams { IfOk result (λ g. (g.microphone ≡ streams.microphone) × (g.speaker ≡ streams.speaker) × (g.journals ≡ streams.journals)) }
{
    let mut links = bind_all(rt, places)?;
    let mut reply = open_reply(rt, &links, places)?;
    let start = Reading::now(rt);
    begin_all(&mut links, start);
    reply.begin(start);
    let Streams {
        microphone,
        speaker,
        journals,
    } = streams;
    Ok(Gateway {
        links,
        reply,
        microphone,
        speaker,
        journals,
        clock: OsClock::starting(rt, start, places.ticks),
    })
}

/// Opens what a line of serve names, which are one link or more: the files first, since each of them may take its time, and then
/// the sockets, whose lives begin with the clock.
pub fn open_gateway<'a, R: Net + Clock + Wait + Files + Print + Sync + AllocGlobal>(
    rt: &'a R,
    places: &Places,
) -> Result<OsGateway<'a, R>, OutOfMemory>
    requires { 1 ≤ length places.now.links.items }
    ensures { IfOk result (IsOpened places.now.ticks (length places.now.links.items) (length places.now.journals.items)) }
{
    let streams = open_streams(rt, places)?;
    go_live(rt, places, streams)
}
