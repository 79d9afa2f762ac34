// What was found under the names of a line.
ghost use Rattle.std.specs.Prelude.{◌≡◌, ◌≤◌, ◌++◌, IfOk, IfSome, map, length};
ghost use Rattle.clap.specs.Words.{first_of, found_of, rows_of};
ghost use Rattle.command_line.specs.Values.{number_or, seed_or};
ghost use Rattle.command_line.specs.Lines.{is_flagged, text_of, texts_of};

use crate::values::{read_number, read_seed};
use clap::ArgMatches;
use std::alloc::{AllocError, Global};

/// The seed of a line that says none.
const NO_SEED: [u8; 32] = [0; 32];

/// The number under this name, or the default where none was said.
pub fn number_at(
    matches: &ArgMatches<'_>,
    name: &str,
    low: u64,
    high: u64,
    default: u64,
) -> Option<u64>
    requires { default ≤ high }
    ensures value { result ≡ number_or low high default (first_of name.now (rows_of (found_of matches.now))) }
    ensures within { IfSome result (λ n. n ≤ high) }
{
    match matches.get_str(name) {
        Some(text) => read_number(text, low, high),
        None => Some(default),
    }
}

/// The seed under this name, or 32 zero octets where none was said.
pub fn seed_at(matches: &ArgMatches<'_>, name: &str) -> Option<[u8; 32]>
    ensures { result ≡ seed_or (first_of name.now (rows_of (found_of matches.now))) }
{
    match matches.get_str(name) {
        Some(text) => read_seed(text),
        None => Some(NO_SEED),
    }
}

/// Whether the flag of this name was said.
pub fn is_said(matches: &ArgMatches<'_>, name: &str) -> bool
    ensures { result ≡ is_flagged name.now (rows_of (found_of matches.now)) }
{
    match matches.get_str(name) {
        Some(text) => text == "true",
        None => false,
    }
}

/// The word under this name, which every line of the command has.
pub fn text_at<'a>(matches: &ArgMatches<'a>, name: &str) -> &'a str
    ensures { result.now ≡ text_of name.now (rows_of (found_of matches.now)) }
{
    match matches.get_str(name) {
        Some(text) => text,
        None => "",
    }
}

// These words, and more behind them.
fn append<'a>(mut words: Vec<&'a str>, more: &[&'a str]) -> Result<Vec<&'a str>, AllocError>
    ensures { IfOk result (λ v. map (λ t. t.now) v.items ≡ map (λ t. t.now) words.entry.items ++ map (λ t. t.now) more.now) }
{
    for word in more {
        words.push(*word)?;
    }
    Ok(words)
}

/// The words behind these under this name.
pub fn texts_behind<'a>(
    words: Vec<&'a str>,
    matches: &ArgMatches<'a>,
    name: &str,
) -> Result<Vec<&'a str>, AllocError>
    ensures { IfOk result (λ v. map (λ t. t.now) v.items ≡ map (λ t. t.now) words.entry.items ++ texts_of name.now (rows_of (found_of matches.now))) }
{
    match matches.get_strs(name) {
        Some(more) => append(words, more),
        None => Ok(words),
    }
}

/// The words under this name.
pub fn texts_at<'a>(
    alloc: Global,
    matches: &ArgMatches<'a>,
    name: &str,
) -> Result<Vec<&'a str>, AllocError>
    ensures { IfOk result (λ v. map (λ t. t.now) v.items ≡ texts_of name.now (rows_of (found_of matches.now))) }
{
    texts_behind(Vec::new(alloc), matches, name)
}

/// How many words stand under this name.
pub fn count_at(matches: &ArgMatches<'_>, name: &str) -> usize
    ensures { result ≡ length (texts_of name.now (rows_of (found_of matches.now))) }
{
    match matches.get_strs(name) {
        Some(texts) => texts.len(),
        None => 0,
    }
}
