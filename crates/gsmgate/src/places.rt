// Where the objects of a line are.
ghost use Rattle.std.specs.Prelude.{◌≡◌, ◌⊎◌, ◌++◌, None, IsSome, IfOk, IfErr, IfSome, IsErrOf, codes, decimal, map};
ghost use Rattle.std.specs.String.{string_bytes};
ghost use Rattle.command_line.specs.Lines.{line_of};
ghost use Rattle.command_line.specs.Ranges.{IsWithin};
ghost use Rattle.gsmgate.specs.Places.{AreFilePlaces, ArePlaces, AreServePlaces, journals_of};

use command_line::{FilesLine, Line, Refusal, ServeLine, read_line};
use gate_notes::Status;
use itoa::Buffer;
use std::alloc::{AllocError, Global};

/// The places that a line of the program names, and the number of its ticks. What the command does not have is
/// empty, or 0.
#[derive(Drop)]
pub struct Places {
    /// Whether the command is `serve`.
    pub serve: bool,
    /// The files that are read, in the order of the words.
    pub inputs: Vec<String>,
    /// The file that is written.
    pub output: String,
    /// The addresses that are listened on, one for each filer.
    pub links: Vec<String>,
    /// The address that return speech is sent to.
    pub reply: String,
    /// Where return speech is read.
    pub microphone: String,
    /// Where speech is played.
    pub speaker: String,
    /// The journals: the player's, and then one for each filer.
    pub journals: Vec<String>,
    /// How many ticks of 20 ms the line runs.
    pub ticks: u64,
}

// The words, in their order.
fn copies(alloc: Global, words: &[&str]) -> Result<Vec<String>, AllocError>
    ensures { IfOk result (λ v. map string_bytes v.items ≡ map (λ t. t.now) words.now) }
{
    let mut texts = Vec::new(alloc);
    for word in words {
        texts.push(String::from_str(alloc, word)?)?;
    }
    Ok(texts)
}

// The name of the player's journal.
fn player_journal(alloc: Global, prefix: &str) -> Result<String, AllocError>
    ensures { IfOk result (λ s. string_bytes s ≡ prefix.now ++ codes ".player") }
{
    let mut text = String::from_str(alloc, prefix)?;
    text.push_str(".player")?;
    Ok(text)
}

// The name of a filer's journal.
fn filer_journal(alloc: Global, prefix: &str, filer: usize) -> Result<String, AllocError>
    ensures { IfOk result (λ s. string_bytes s ≡ prefix.now ++ (codes "." ++ decimal filer)) }
{
    let mut text = String::from_str(alloc, prefix)?;
    text.push_str(".")?;
    let mut buffer = Buffer::new();
    text.push_str(buffer.format(filer))?;
    Ok(text)
}

// The names of the journals of a line with this many filers.
fn journals(alloc: Global, prefix: &str, filers: usize) -> Result<Vec<String>, AllocError>
    ensures { IfOk result (λ v. map string_bytes v.items ≡ journals_of prefix.now filers) }
{
    let mut names = Vec::new(alloc);
    names.push(player_journal(alloc, prefix)?)?;
    'filers: for filer in 0..filers {
        names.push(filer_journal(alloc, prefix, filer)?)?;
    }
    Ok(names)
}

// The places of a command over files.
fn file_places(alloc: Global, line: &FilesLine<'_>) -> Result<Places, AllocError>
    ensures { IfOk result (AreFilePlaces line.now) }
{
    Ok(Places {
        serve: false,
        inputs: copies(alloc, &line.inputs)?,
        output: String::from_str(alloc, line.output)?,
        links: Vec::new(alloc),
        reply: String::new(alloc),
        microphone: String::new(alloc),
        speaker: String::new(alloc),
        journals: Vec::new(alloc),
        ticks: 0,
    })
}

// The places of a line of serve.
fn serve_places(alloc: Global, line: &ServeLine<'_>) -> Result<Places, AllocError>
    ensures { IfOk result (AreServePlaces line.now) }
{
    Ok(Places {
        serve: true,
        inputs: Vec::new(alloc),
        output: String::new(alloc),
        links: copies(alloc, &line.listen)?,
        reply: String::from_str(alloc, line.reply)?,
        microphone: String::from_str(alloc, line.microphone)?,
        speaker: String::from_str(alloc, line.speaker)?,
        journals: journals(alloc, line.journals, line.listen.len())?,
        ticks: line.options.ticks,
    })
}

// The places of a line.
fn places_of(alloc: Global, line: &Line<'_>) -> Result<Places, AllocError>
    ensures { IfOk result (ArePlaces line.now) }
{
    match line {
        Line::Files(files) => file_places(alloc, files),
        Line::Serve(serve) => serve_places(alloc, serve),
    }
}

/// The places that the arguments name: `Usage` exactly where they are not a valid command line, unless memory is out.
pub fn addresses(alloc: Global, words: &Vec<String>) -> Result<Places, Status>
    ensures ok { IfOk result (λ p. IfSome (line_of (map string_bytes words.now.items)) (λ said. ArePlaces said p)) }
    ensures line { IfOk result (λ p. IsSome (line_of (map string_bytes words.now.items))) }
    ensures within { IfOk result (λ p. IfSome (line_of (map string_bytes words.now.items)) IsWithin) }
    ensures usage { IsErrOf result Status.Usage → line_of (map string_bytes words.now.items) ≡ None }
    ensures only { IfErr result (λ e. (e ≡ Status.Usage) ⊎ (e ≡ Status.OutOfMemory)) }
{
    match read_line(alloc, words) {
        Ok(line) => match places_of(alloc, &line) {
            Ok(places) => Ok(places),
            Err(_) => Err(Status::OutOfMemory),
        },
        Err(Refusal::Usage) => Err(Status::Usage),
        Err(Refusal::OutOfMemory) => Err(Status::OutOfMemory),
    }
}
