use crate::{Command, Line, Refusal, ServeOptions, read_line};
use std::alloc::{AllocError, Global};
use std::test::Fail;

// The words of a text, where '' is the empty word and SEED the digits of a seed.
fn words(alloc: Global, line: &str) -> Result<Vec<String>, AllocError> {
    let mut words = Vec::new(alloc);
    for word in line.split_whitespace() {
        let word = match word {
            "''" => "",
            "SEED" => SEED,
            word => word,
        };
        words.push(String::from_str(alloc, word)?)?;
    }
    Ok(words)
}

fn joined(alloc: Global, words: &[&str]) -> Result<String, AllocError> {
    let mut text = String::new(alloc);
    for word in words {
        text.push_str(word)?;
        text.push_str(" ")?;
    }
    Ok(text)
}

// The command of a line over files that reads these and writes `out`.
fn command(alloc: Global, line: &str, inputs: &str) -> Result<Option<Command>, AllocError> {
    let words = words(alloc, line)?;
    match read_line(alloc, &words) {
        Ok(Line::Files(said)) => {
            let read = joined(alloc, &said.inputs)?;
            if read.as_str() == inputs && said.output == "out" {
                Ok(Some(said.command))
            } else {
                Ok(None)
            }
        }
        _ => Ok(None),
    }
}

// Whether the words are no line.
fn is_refused(alloc: Global, line: &str) -> Result<bool, AllocError> {
    let words = words(alloc, line)?;
    match read_line(alloc, &words) {
        Err(Refusal::Usage) => Ok(true),
        _ => Ok(false),
    }
}

const SEED: &str = "00112233445566778899aAbBcCdDeEfF00112233445566778899AaBbCcDdEeFf";

const OCTETS: [u8; 32] = [
    0x00, 0x11, 0x22, 0x33, 0x44, 0x55, 0x66, 0x77, 0x88, 0x99, 0xAA, 0xBB, 0xCC, 0xDD, 0xEE, 0xFF,
    0x00, 0x11, 0x22, 0x33, 0x44, 0x55, 0x66, 0x77, 0x88, 0x99, 0xAA, 0xBB, 0xCC, 0xDD, 0xEE, 0xFF,
];

fn is_command(
    alloc: Global,
    line: &str,
    inputs: &str,
    wanted: Command,
) -> Result<bool, AllocError> {
    match command(alloc, line, inputs)? {
        Some(said) => Ok(said == wanted),
        None => Ok(false),
    }
}

#[test]
fn a_line_over_files_says_its_command(rt: HostRuntime) -> Result<(), Fail> {
    let pcm = |seed| Command::Simulate { voice: Some(seed) };
    let journal = Command::Simulate { voice: None };
    let render = |seed| Command::Render { seed };
    for (line, inputs, wanted) in [
        ("simulate in out", "in ", journal),
        ("simulate --pcm in out", "in ", pcm([0; 32])),
        ("decode in out", "in ", Command::Decode),
        ("encode in out", "in ", Command::Encode),
        ("render in out", "in ", render([0; 32])),
        ("verify out p f0 f1", "p f0 f1 ", Command::Verify),
        ("simulate --seed SEED in out", "in ", journal),
        ("simulate --seed SEED --pcm in out", "in ", pcm(OCTETS)),
        ("simulate --pcm --seed SEED in out", "in ", pcm(OCTETS)),
        ("render --seed SEED in out", "in ", render(OCTETS)),
    ] {
        assert!(rt; is_command(rt.alloc(), line, inputs, wanted)?);
    }
    Ok(())
}

#[test]
fn make_says_its_numbers(rt: HostRuntime) -> Result<(), Fail> {
    let alloc = rt.alloc();
    let least = Command::Make {
        seed: 0,
        count: 1,
        filers: 1,
    };
    let most = Command::Make {
        seed: u64::MAX,
        count: 1_000_000,
        filers: 64,
    };
    for (line, wanted) in [
        ("make 0 01 1 out", least),
        ("make 18446744073709551615 1000000 64 out", most),
    ] {
        assert!(rt; is_command(alloc, line, "", wanted)?);
    }
    for line in [
        "make 18446744073709551616 1 1 out",
        "make 0 0 1 out",
        "make 0 1000001 1 out",
        "make 0 1 0 out",
        "make 0 1 65 out",
        "make +0 1 1 out",
        "make '' 1 1 out",
    ] {
        assert!(rt; is_refused(alloc, line)?);
    }
    Ok(())
}

#[test]
fn other_words_are_no_line(rt: HostRuntime) -> Result<(), Fail> {
    let alloc = rt.alloc();
    for line in [
        "",
        "simulat a b",
        "simulate a",
        "simulate a b c",
        "simulate -a b",
        "simulate --pcm --pcm a b",
        "simulate --seed 00 a b",
        "simulate --seed",
        "decode --pcm a b",
        "render --pcm a b",
        "render a",
        "encode a b c",
        "verify out p",
        "help",
        "--help",
        "--version",
        "serve --help",
    ] {
        assert!(rt; is_refused(alloc, line)?);
    }
    Ok(())
}

const PLACES: &str = "--reply r --speaker s --microphone m --journals j";

// The options of a line of serve with these words before its places and one link.
fn options(alloc: Global, before: &str) -> Result<Option<ServeOptions>, AllocError> {
    let line = format!(in alloc; "serve {before} {PLACES} l")?;
    let words = words(alloc, line.as_str())?;
    match read_line(alloc, &words) {
        Ok(Line::Serve(said)) => {
            let listen = joined(alloc, &said.listen)?;
            if listen.as_str() == "l "
                && said.reply == "r"
                && said.speaker == "s"
                && said.microphone == "m"
                && said.journals == "j"
            {
                Ok(Some(said.options))
            } else {
                Ok(None)
            }
        }
        _ => Ok(None),
    }
}

fn are_options(alloc: Global, before: &str, wanted: ServeOptions) -> Result<bool, AllocError> {
    match options(alloc, before)? {
        Some(said) => Ok(said == wanted),
        None => Ok(false),
    }
}

// Whether a line of serve with these words before its places and one link is no line.
fn is_refused_before(alloc: Global, before: &str) -> Result<bool, AllocError> {
    let line = format!(in alloc; "serve {before} {PLACES} l")?;
    is_refused(alloc, line.as_str())
}

const DEFAULTS: ServeOptions = ServeOptions {
    ring: 6,
    delay: 3,
    seed: [0; 32],
    ticks: 15000,
    report: 250,
    ssrc: 1,
    sequence: 0,
    stamp: 0,
    elastic: 0,
};

const SAID: ServeOptions = ServeOptions {
    ring: 10,
    delay: 1023,
    seed: OCTETS,
    ticks: 16_000_000,
    report: 65535,
    ssrc: 4_294_967_295,
    sequence: 65535,
    stamp: 4_294_967_295,
    elastic: 15,
};

#[test]
fn a_line_of_serve_says_its_options(rt: HostRuntime) -> Result<(), Fail> {
    let small = ServeOptions {
        ring: 1,
        delay: 1,
        ..DEFAULTS
    };
    let least = ServeOptions {
        ring: 0,
        delay: 0,
        ticks: 1,
        report: 1,
        ssrc: 0,
        ..DEFAULTS
    };
    for (before, wanted) in [
        ("", DEFAULTS),
        ("--ring 1", small),
        (
            "--ring 0 --delay 0 --ticks 1 --report 1 --ssrc 0 --elastic 0",
            least,
        ),
        (
            "--elastic 15 --stamp 4294967295 --sequence 65535 --ssrc 4294967295 --report 65535 --ticks 16000000 --seed SEED --delay 1023 --ring 10",
            SAID,
        ),
    ] {
        assert!(rt; are_options(rt.alloc(), before, wanted)?);
    }
    Ok(())
}

#[test]
fn a_value_out_of_its_range_is_no_line(rt: HostRuntime) -> Result<(), Fail> {
    for before in [
        "--ring 11",
        "--delay 64",
        "--ring 0 --delay 1",
        "--seed 00",
        "--ticks 0",
        "--ticks 16000001",
        "--report 0",
        "--report 65536",
        "--ssrc 4294967296",
        "--sequence 65536",
        "--stamp 4294967296",
        "--elastic 16",
        "--elastic 1 --ring 0",
        "--ring 6 --ring 6",
        "--ring +6",
        "--ring ''",
    ] {
        assert!(rt; is_refused_before(rt.alloc(), before)?);
    }
    Ok(())
}

// How many links a line of serve with so many says, or why it is refused.
fn links(alloc: Global, count: usize) -> Result<Result<usize, Refusal>, AllocError> {
    let mut words = words(
        alloc,
        "serve --reply r --speaker s --microphone m --journals j",
    )?;
    for _ in 0..count {
        words.push(String::from_str(alloc, "l")?)?;
    }
    match read_line(alloc, &words) {
        Ok(Line::Serve(said)) => Ok(Ok(said.listen.len())),
        Ok(Line::Files(_)) => Ok(Ok(0)),
        Err(refusal) => Ok(Err(refusal)),
    }
}

#[test]
fn a_line_of_serve_has_up_to_64_links(rt: HostRuntime) -> Result<(), Fail> {
    let alloc = rt.alloc();
    assert_eq!(rt; links(alloc, 0)?, Err(Refusal::Usage));
    assert_eq!(rt; links(alloc, 64)?, Ok(64));
    assert_eq!(rt; links(alloc, 65)?, Err(Refusal::Usage));
    Ok(())
}
