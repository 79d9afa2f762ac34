// Lines over files.
ghost use Rattle.std.specs.Prelude.{◌≡◌, ◌∷◌, [], map, IfOk, IsErrOf, None, Some, codes};
ghost use Rattle.clap.specs.Words.{first_of, found_of, rows_of};
ghost use Rattle.command_line.specs.Lines.{command_of, files_line, files_of, inputs_of, is_flagged, make_of, render_of, simulate_of, text_of, texts_of, verify_of};

use crate::found::{count_at, is_said, seed_at, text_at, texts_behind};
use crate::line::{Command, FilesLine, Line, Refusal};
use crate::values::read_number;
use clap::ArgMatches;
use std::alloc::{AllocError, Global};

fn simulate(matches: &ArgMatches<'_>) -> Option<Command>
    ensures { result ≡ simulate_of (is_flagged (codes "pcm") (rows_of (found_of matches.now))) (first_of (codes "seed") (rows_of (found_of matches.now))) }
{
    let seed = seed_at(matches, "seed")?;
    let voice = if is_said(matches, "pcm") {
        Some(seed)
    } else {
        None
    };
    Some(Command::Simulate { voice })
}

fn render(matches: &ArgMatches<'_>) -> Option<Command>
    ensures { result ≡ render_of (first_of (codes "seed") (rows_of (found_of matches.now))) }
{
    let seed = seed_at(matches, "seed")?;
    Some(Command::Render { seed })
}

fn verify(matches: &ArgMatches<'_>) -> Option<Command>
    ensures { result ≡ verify_of (texts_of (codes "filer") (rows_of (found_of matches.now))) }
{
    if 1 <= count_at(matches, "filer") {
        Some(Command::Verify)
    } else {
        None
    }
}

#[tactic(auto, unfolding(crate::specs::Lines::make_of))]
fn make(seed: &str, count: &str, filers: &str) -> Option<Command>
    ensures { result ≡ make_of seed.now count.now filers.now }
{
    let seed = read_number(seed, 0, u64::MAX)?;
    let count = read_number(count, 1, 1_000_000)? as u32;
    let filers = read_number(filers, 1, 64)? as u32;
    Some(Command::Make {
        seed,
        count,
        filers,
    })
}

// The command of this name, where the values of its options are in their ranges.
fn command_of(name: &str, matches: &ArgMatches<'_>) -> Option<Command>
    ensures { result ≡ command_of name.now (rows_of (found_of matches.now)) }
{
    match name {
        "simulate" => simulate(matches),
        "decode" => Some(Command::Decode),
        "encode" => Some(Command::Encode),
        "render" => render(matches),
        "verify" => verify(matches),
        "make" => make(
            text_at(matches, "seed"),
            text_at(matches, "count"),
            text_at(matches, "filers"),
        ),
        _ => None,
    }
}

fn one_input<'a>(
    alloc: Global,
    matches: &ArgMatches<'a>,
    name: &str,
) -> Result<Vec<&'a str>, AllocError>
    ensures { IfOk result (λ v. map (λ t. t.now) v.items ≡ text_of name.now (rows_of (found_of matches.now)) ∷ []) }
{
    let mut inputs = Vec::new(alloc);
    inputs.push(text_at(matches, name))?;
    Ok(inputs)
}

fn inputs_of<'a>(
    alloc: Global,
    command: &Command,
    matches: &ArgMatches<'a>,
) -> Result<Vec<&'a str>, AllocError>
    ensures { IfOk result (λ v. map (λ t. t.now) v.items ≡ inputs_of command.now (rows_of (found_of matches.now))) }
{
    match command {
        Command::Simulate { .. } | Command::Decode | Command::Encode | Command::Render { .. } => {
            one_input(alloc, matches, "input")
        }
        Command::Verify => texts_behind(one_input(alloc, matches, "player")?, matches, "filer"),
        Command::Make { .. } => Ok(Vec::new(alloc)),
    }
}

// The line of a command, with the words of its places.
fn files_of<'a>(
    alloc: Global,
    command: Command,
    matches: &ArgMatches<'a>,
) -> Result<FilesLine<'a>, AllocError>
    ensures { IfOk result (λ l. l ≡ files_of (rows_of (found_of matches.now)) command) }
{
    let inputs = inputs_of(alloc, &command, matches)?;
    let output = text_at(matches, "output");
    Ok(FilesLine {
        command,
        inputs,
        output,
    })
}

/// The line over files that was matched under this name. `Usage` where a value is out of its range.
pub fn files_line<'a>(
    alloc: Global,
    name: &str,
    matches: &ArgMatches<'a>,
) -> Result<Line<'a>, Refusal>
    ensures line { IfOk result (λ l. files_line name.now (rows_of (found_of matches.now)) ≡ Some l) }
    ensures usage { IsErrOf result Refusal.Usage → files_line name.now (rows_of (found_of matches.now)) ≡ None }
    ensures refused { files_line name.now (rows_of (found_of matches.now)) ≡ None → IsErrOf result Refusal.Usage }
{
    let Some(command) = command_of(name, matches) else {
        return Err(Refusal::Usage);
    };
    match files_of(alloc, command, matches) {
        Ok(line) => Ok(Line::Files(line)),
        Err(_) => Err(Refusal::OutOfMemory),
    }
}
