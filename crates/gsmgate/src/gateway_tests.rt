// The real objects: files of the folder where the tests run, sockets on loopback at free ports, and the system's clock.
use crate::starting::{Started, run_on, start};
use crate::tests::{octets_of, words_of};
use gate_base::OutOfMemory;
use gate_io::{Failed, Link, MemorySink, Received, Sink, Source};
use gate_notes::Status;
use std::alloc::{AllocError, Global};
use std::fs::Files;
use std::io::Print;
use std::net::{Net, UdpSocket};
use std::sync::Wait;
use std::test::Fail;
use std::time::{Clock, Duration};
use std::{env, fs, thread};

// A socket at an address, which waits ten seconds for a datagram, and the text of the address with its port.
fn peer<R: Net + AllocGlobal>(rt: &R, address: &str) -> Result<(UdpSocket, String), Fail> {
    let socket = UdpSocket::bind(rt, address)?;
    socket.set_read_timeout(Some(Duration::from_secs(10)))?;
    let here = format!(in rt.alloc(); "{}", socket.local_addr()?)?;
    Ok((socket, here))
}

// The words of a line of serve, whose files have names that begin so.
fn serve_words(
    alloc: Global,
    name: &str,
    ticks: u64,
    reply: &str,
    listen: &str,
) -> Result<Vec<String>, AllocError> {
    let line = format!(in alloc;
        "serve --ticks {ticks} --reply {reply} --speaker {name}.heard --microphone {name}.said --journals {name} {listen}"
    )?;
    words_of(alloc, line.as_str())
}

// Where notes go.
fn no_notes(alloc: Global) -> Result<MemorySink, OutOfMemory> {
    MemorySink::new(alloc, 1000, &[])
}

// Whether these are the notes.
fn noted(notes: &MemorySink, text: &str) -> bool {
    *notes.octets() == *text.as_bytes()
}

// Whether a file has these octets. It is removed. (The helpers answer plainly: each `?` of a test lets all its objects go.)
fn had<R: Files + AllocGlobal>(rt: &R, path: &str, octets: &[u8]) -> bool {
    let same = match fs::read(rt, path) {
        Ok(found) => *found.as_slice() == *octets,
        Err(_) => false,
    };
    same && fs::remove_file(rt, path).is_ok()
}

// Whether all these files were there. They are removed.
fn remove_all<R: Files>(rt: &R, paths: &[&str]) -> bool {
    let mut all = true;
    for path in paths {
        all &= fs::remove_file(rt, *path).is_ok();
    }
    all
}

// Whether the next datagram of a socket is this one.
fn hears(socket: &UdpSocket, octets: &[u8]) -> bool {
    let mut piece = [0; 2048];
    match socket.recv_from(&mut piece) {
        Ok((len, _)) => len == octets.len() && piece.starts_with(octets),
        Err(_) => false,
    }
}

// Whether the next datagram of a socket comes from this address.
fn hears_from<R: AllocGlobal>(rt: &R, socket: &UdpSocket, address: &str) -> bool {
    let mut piece = [0; 2048];
    let Ok((_, from)) = socket.recv_from(&mut piece) else {
        return false;
    };
    match format!(in rt.alloc(); "{from}") {
        Ok(text) => text.as_str() == address,
        Err(_) => false,
    }
}

// The address of a port that is free.
fn free_address<R: Net + AllocGlobal>(rt: &R) -> Result<String, Fail> {
    let (_, here) = peer(rt, "127.0.0.1:0")?;
    Ok(here)
}

// What a link answers next.
fn answer<P: Link>(link: &mut P) -> Result<Received, Failed> {
    let mut piece = [0; 2048];
    link.receive(&mut piece)
}

// What the link at this place answers next.
fn answer_at<P: Link>(links: &mut Vec<P>, place: usize) -> Option<Result<Received, Failed>> {
    if place < links.len() {
        Some(answer(&mut links[place]))
    } else {
        None
    }
}

// Whether the sink at this place takes the octets.
fn gives_at<J: Sink>(sinks: &mut Vec<J>, place: usize, octets: &[u8]) -> bool {
    place < sinks.len() && sinks[place].give(octets) == Ok(())
}

// Whether a source begins with these octets.
fn begins<I: Source>(source: &mut I, octets: &[u8; 4]) -> bool {
    let mut piece = [0; 4];
    source.take(&mut piece) == Ok(4) && piece == *octets
}

// Whether one link is idle, another could not be bound, and the reply sends what is spoken.
fn sockets_serve<P: Link>(links: &mut Vec<P>, reply: &mut P) -> bool {
    answer_at(links, 0) == Some(Ok(Received::Idle))
        && answer_at(links, 1) == Some(Err(Failed))
        && reply.send(b"spoken") == Ok(())
}

// Whether a microphone has what is said, and a speaker and three journals take what is heard and filed.
fn files_serve<I: Source, O: Sink, J: Sink>(
    microphone: &mut I,
    speaker: &mut O,
    journals: &mut Vec<J>,
) -> bool {
    begins(microphone, b"said")
        && speaker.give(b"heard") == Ok(())
        && gives_at(journals, 0, b"played")
        && gives_at(journals, 1, b"first")
        && gives_at(journals, 2, b"second")
}

// Whether the objects of a line of two links serve, each at its place.
fn all_serve<R: Net + Clock + Wait + Files + Print + Sync + AllocGlobal>(
    rt: &R,
    words: Vec<String>,
    notes: &mut MemorySink,
) -> bool {
    let Started::Serve(mut open) = start(rt, Ok(words), notes) else {
        return false;
    };
    let gateway = &mut open.gateway;
    let sockets = sockets_serve(&mut gateway.links, &mut gateway.reply);
    let files = files_serve(
        &mut gateway.microphone,
        &mut gateway.speaker,
        &mut gateway.journals,
    );
    sockets && files
}

// Whether the reply of a line sends what is spoken.
fn sends<R: Net + Clock + Wait + Files + Print + Sync + AllocGlobal>(
    rt: &R,
    words: Vec<String>,
    notes: &mut MemorySink,
) -> bool {
    let Started::Serve(mut open) = start(rt, Ok(words), notes) else {
        return false;
    };
    open.gateway.reply.send(b"spoken") == Ok(())
}

// Whether the first link and the reply both answer this.
fn both_answer<P: Link>(links: &mut Vec<P>, reply: &mut P, received: Received) -> bool {
    answer_at(links, 0) == Some(Ok(received)) && answer(reply) == Ok(received)
}

// Whether the first link and the reply of a line answer this, 1300 ms after they were opened.
fn answer_late<R: Net + Clock + Wait + Files + Print + Sync + AllocGlobal>(
    rt: &R,
    words: Vec<String>,
    notes: &mut MemorySink,
    received: Received,
) -> bool {
    let Started::Serve(mut open) = start(rt, Ok(words), notes) else {
        return false;
    };
    thread::sleep(rt, Duration::from_millis(1300));
    let gateway = &mut open.gateway;
    both_answer(&mut gateway.links, &mut gateway.reply, received)
}

#[test]
fn each_object_of_a_line_stands_at_its_place(rt: HostRuntime) -> Result<(), Fail> {
    let (socket, there) = peer(&rt, "127.0.0.1:0")?;
    fs::write(&rt, "place.said", "said")?;
    let words = serve_words(
        rt.alloc(),
        "place",
        500,
        there.as_str(),
        "127.0.0.1:0 astray",
    )?;
    let mut notes = no_notes(rt.alloc())?;
    assert!(rt;
        all_serve(&rt, words, &mut notes)
            && hears(&socket, b"spoken")
            && had(&rt, "place.said", b"said")
            && had(&rt, "place.heard", b"heard")
            && had(&rt, "place.player", b"played")
            && had(&rt, "place.0", b"first")
            && had(&rt, "place.1", b"second")
    );
    Ok(())
}

#[test]
fn a_reply_by_the_later_protocol_is_sent_by_it(rt: HostRuntime) -> Result<(), Fail> {
    // A machine with the earlier one alone has nothing to show.
    if UdpSocket::bind(&rt, "[::1]:0").is_err() {
        return Ok(());
    }
    let (socket, there) = peer(&rt, "[::1]:0")?;
    let words = serve_words(rt.alloc(), "later", 1, there.as_str(), "127.0.0.1:0")?;
    let mut notes = no_notes(rt.alloc())?;
    assert!(rt;
        sends(&rt, words, &mut notes)
            && hears(&socket, b"spoken")
            && remove_all(&rt, &["later.heard", "later.player", "later.0"])
    );
    Ok(())
}

#[test]
fn return_speech_leaves_from_the_first_socket(rt: HostRuntime) -> Result<(), Fail> {
    let (socket, there) = peer(&rt, "127.0.0.1:0")?;
    let here = free_address(&rt)?;
    let listen = format!(in rt.alloc(); "{here} 127.0.0.1:0")?;
    let words = serve_words(rt.alloc(), "first", 500, there.as_str(), listen.as_str())?;
    let mut notes = no_notes(rt.alloc())?;
    assert!(rt;
        sends(&rt, words, &mut notes)
            && hears_from(&rt, &socket, here.as_str())
            && remove_all(&rt, &["first.heard", "first.player", "first.0", "first.1"])
    );
    Ok(())
}

#[test]
fn sockets_live_a_second_longer_than_their_ticks(rt: HostRuntime) -> Result<(), Fail> {
    let alloc = rt.alloc();
    let short = serve_words(alloc, "short", 10, "127.0.0.1:9", "127.0.0.1:0")?;
    let long = serve_words(alloc, "long", 1000, "127.0.0.1:9", "127.0.0.1:0")?;
    let mut notes = no_notes(alloc)?;
    assert!(rt;
        answer_late(&rt, short, &mut notes, Received::Ended)
            && answer_late(&rt, long, &mut notes, Received::Idle)
            && remove_all(&rt, &["short.heard", "short.player", "short.0"])
            && remove_all(&rt, &["long.heard", "long.player", "long.0"])
    );
    Ok(())
}

const SILENT: &str = "ticks 0 frames 0 erasures 0 idle 3
link 0 datagrams 0 accepted 0 duplicate 0 late 0 beyond 0 refused 0 stranger 0 rtcp 0 empty 0
";

#[test]
fn a_line_runs_over_sockets_and_files(rt: HostRuntime) -> Result<(), Fail> {
    let alloc = rt.alloc();
    let packet = octets_of(alloc, "800300000000000000000001 zeros")?;
    let mut notes = no_notes(alloc)?;
    fs::write(&rt, "line.said", [0u8; 320].as_slice())?;
    let (socket, there) = peer(&rt, "127.0.0.1:0")?;
    let words = serve_words(alloc, "line", 3, there.as_str(), "127.0.0.1:0")?;
    let status = {
        let mut started = start(&rt, Ok(words), &mut notes);
        run_on(&rt, alloc, &mut started, &mut notes).status
    };
    assert!(rt;
        status == Status::Done
            && noted(&notes, SILENT)
            && had(&rt, "line.said", &[0; 320])
            && had(&rt, "line.heard", &[0; 960])
            && had(
                &rt,
                "line.player",
                b"GSMGPJ01\x01\x06\x00\x03\x10\x10\x10\xFF"
            )
            && had(&rt, "line.0", b"GSMGFJ01\x01\x06\x00\x03\x00\xFF")
            && hears(&socket, &packet)
    );
    Ok(())
}

// A line, and how it ends. An empty one stands for words that found no memory.
struct Run {
    line: &'static str,
    status: Status,
    notes: &'static str,
}

const PLAYED: &str = "ticks 1 frames 1 erasures 0 idle 1
all datagrams 1 accepted 1 duplicate 0 late 0 beyond 0 refused 0 stranger 0 rtcp 0 empty 0
";

const RUNS: [Run; 10] = [
    Run {
        line: "",
        status: Status::OutOfMemory,
        notes: "",
    },
    Run {
        line: "simulat a b",
        status: Status::Usage,
        notes: "usage\n",
    },
    Run {
        line: "decode no-such-file unread.speech",
        status: Status::ReadFault,
        notes: "",
    },
    Run {
        line: "encode unbound.said coded.frames",
        status: Status::Done,
        notes: "frames 1\n",
    },
    Run {
        line: "decode coded.frames zeros.speech",
        status: Status::Done,
        notes: "frames 1\n",
    },
    Run {
        line: "decode silent.frames silent.speech",
        status: Status::Done,
        notes: "frames 1\n",
    },
    Run {
        line: "render lost.player lost.speech",
        status: Status::Done,
        notes: "ticks 1 frames 0 erasures 1 idle 1\n",
    },
    Run {
        line: "simulate --pcm sent.script sent.speech",
        status: Status::Done,
        notes: PLAYED,
    },
    Run {
        line: "verify judged.order judged.player judged.0 judged.1",
        status: Status::Done,
        notes: "legal 3\n",
    },
    Run {
        line: "serve --ticks 3 --reply 127.0.0.1:9 --speaker unbound.heard --microphone unbound.said --journals unbound astray",
        status: Status::LinkFault,
        notes: SILENT,
    },
];

// The files that these lines read, by the words of their octets.
const INPUTS: [(&str, &str); 6] = [
    ("silent.frames", "silence"),
    ("lost.player", "journal 01060003 10 12 FF"),
    (
        "sent.script",
        "script 01060000 04 0300 00000000 002D 80030001 000003E8 12345678 zeros 04 FF",
    ),
    ("judged.player", "journal 02060003 13 zeros FF"),
    ("judged.0", "filer 02060003 00 22 0000000100000000 zeros FF"),
    (
        "judged.1",
        "filer 02060003 01 23 0000000100000000 silence FF",
    ),
];

// Makes the files that these lines read.
fn write_inputs<R: Files + AllocGlobal>(rt: &R) -> Result<(), Fail> {
    for (path, text) in INPUTS {
        let octets = octets_of(rt.alloc(), text)?;
        fs::write(rt, path, octets.as_slice())?;
    }
    fs::write(rt, "unbound.said", [0u8; 320].as_slice())?;
    Ok(())
}

// Whether a file of speech is 160 zeros and then what another file has. Both are removed.
fn follows_silence<R: Files + AllocGlobal>(rt: &R, path: &str, then: &str) -> bool {
    let (Ok(whole), Ok(tail)) = (fs::read(rt, path), fs::read(rt, then)) else {
        return false;
    };
    whole.len() == 640
        && tail.len() == 320
        && whole.starts_with([0u8; 320].as_slice())
        && whole.ends_with(tail.as_slice())
        && remove_all(rt, &[path, then])
}

// The words of such a line.
fn words_for(alloc: Global, run: &Run) -> Result<Vec<String>, AllocError> {
    if run.line.is_empty() {
        return Err(AllocError);
    }
    words_of(alloc, run.line)
}

#[test]
fn each_line_ends_with_its_status_and_notes(rt: HostRuntime) -> Result<(), Fail> {
    let alloc = rt.alloc();
    write_inputs(&rt)?;
    for run in &RUNS {
        let mut notes = no_notes(alloc)?;
        let status = {
            let mut started = start(&rt, words_for(alloc, run), &mut notes);
            run_on(&rt, alloc, &mut started, &mut notes).status
        };
        assert!(rt; status == run.status && noted(&notes, run.notes));
    }
    let frame = octets_of(alloc, "zeros")?;
    assert!(rt;
        had(&rt, "unread.speech", b"")
            && had(&rt, "coded.frames", &frame)
            && follows_silence(&rt, "lost.speech", "silent.speech")
            && follows_silence(&rt, "sent.speech", "zeros.speech")
            && had(&rt, "judged.order", b"0\n1\np\n")
            && had(&rt, "unbound.said", &[0; 320])
            && had(&rt, "unbound.heard", &[0; 960])
            && remove_all(&rt, &["silent.frames", "lost.player", "sent.script"])
            && remove_all(&rt, &["judged.player", "judged.0", "judged.1"])
            && remove_all(&rt, &["unbound.player", "unbound.0"])
    );
    Ok(())
}

#[test]
fn the_programs_own_word_is_no_word_of_the_line(rt: HostRuntime) -> Result<(), Fail> {
    let mut all: usize = 0;
    for _ in env::args(&rt)? {
        all = all.saturating_add(1);
    }
    assert_eq!(rt; crate::words_of(&rt)?.len() + 1, all);
    Ok(())
}
