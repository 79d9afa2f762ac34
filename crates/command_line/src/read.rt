// Reading a line.
ghost use Rattle.std.specs.Prelude.{◌≡◌, Some, None, true, false, map, IfOk, IsErrOf};
ghost use Rattle.std.specs.String.{string_bytes};
ghost use Rattle.clap.specs.Words.{found_of, rows_of, subcommand_of, subcommand_rows_of};
ghost use Rattle.command_line.specs.Table.{gate_app};
ghost use Rattle.command_line.specs.Lines.{is_taken, line_by, line_in, line_of};
ghost use Rattle.command_line.specs.Ranges.{IsWithin};

use crate::files::files_line;
use crate::line::{Line, Refusal};
use crate::serve::serve_line;
use crate::table::gate;
use clap::ArgMatches;
use clap::error::ErrorKind;
use std::alloc::Global;

// The matches of the words.
fn matches_of<'a>(alloc: Global, words: &'a [String]) -> Result<ArgMatches<'a>, Refusal>
    ensures taken { IfOk result (λ m. is_taken (map string_bytes words.entry.now) ≡ true) }
    ensures rows { IfOk result (λ m. subcommand_rows_of m ≡ subcommand_of gate_app (map string_bytes words.entry.now)) }
    ensures usage { IsErrOf result Refusal.Usage → is_taken (map string_bytes words.entry.now) ≡ false }
{
    let command = match gate(alloc) {
        Ok(command) => command,
        Err(_) => return Err(Refusal::OutOfMemory),
    };
    match command.try_get_matches_from(words) {
        Ok(matches) => Ok(matches),
        Err(error) => match error.kind() {
            ErrorKind::OutOfMemory => Err(Refusal::OutOfMemory),
            _ => Err(Refusal::Usage),
        },
    }
}

// The line that was matched under this name.
fn line_by<'a>(alloc: Global, name: &str, matches: &ArgMatches<'a>) -> Result<Line<'a>, Refusal>
    ensures line { IfOk result (λ l. line_by name.now (rows_of (found_of matches.now)) ≡ Some l) }
    ensures usage { IsErrOf result Refusal.Usage → line_by name.now (rows_of (found_of matches.now)) ≡ None }
    ensures refused { line_by name.now (rows_of (found_of matches.now)) ≡ None → IsErrOf result Refusal.Usage }
{
    if name == "serve" {
        serve_line(alloc, matches)
    } else {
        files_line(alloc, name, matches)
    }
}

// The line that was matched.
fn line_in<'a>(alloc: Global, matches: &ArgMatches<'a>) -> Result<Line<'a>, Refusal>
    ensures line { IfOk result (λ l. line_in (subcommand_rows_of matches.now) ≡ Some l) }
    ensures usage { IsErrOf result Refusal.Usage → line_in (subcommand_rows_of matches.now) ≡ None }
    ensures refused { line_in (subcommand_rows_of matches.now) ≡ None → IsErrOf result Refusal.Usage }
{
    match matches.subcommand() {
        Some((name, inner)) => line_by(alloc, name, inner),
        None => Err(Refusal::Usage),
    }
}

/// What the words say. `Usage` exactly where they are no line of the program; want of memory may come at any words.
pub fn read_line<'a>(alloc: Global, words: &'a [String]) -> Result<Line<'a>, Refusal>
    ensures line { IfOk result (λ l. line_of (map string_bytes words.entry.now) ≡ Some l) }
    ensures within { IfOk result IsWithin }
    ensures usage { IsErrOf result Refusal.Usage → line_of (map string_bytes words.entry.now) ≡ None }
{
    match matches_of(alloc, words) {
        Ok(matches) => line_in(alloc, &matches),
        Err(refusal) => Err(refusal),
    }
}
