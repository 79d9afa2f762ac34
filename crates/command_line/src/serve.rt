// Lines of `serve`.
ghost use Rattle.std.specs.Prelude.{◌≡◌, ◌≤◌, ◌-◌, ◌^◌, IfOk, IsErrOf, None, Some, codes};
ghost use Rattle.clap.specs.Words.{found_of, rows_of};
ghost use Rattle.command_line.specs.Lines.{are_links, most_elastic, options_of, serve_line, serve_of, serve_texts, texts_of};

use crate::found::{count_at, number_at, seed_at, text_at, texts_at};
use crate::line::{Line, Refusal, ServeLine, ServeOptions};
use clap::ArgMatches;
use std::alloc::{AllocError, Global};

/// The most links of a line.
const MOST_LINKS: usize = 64;

// How many beats a player may let pass at most.
fn most_elastic(ring: u64) -> u64
    ensures { result ≡ most_elastic ring }
{
    if ring == 0 { 0 } else { 15 }
}

// One less than the number of frames of a ring.
fn last_of(ring: u64) -> u32
    requires { ring ≤ 10 }
    ensures { result ≡ 2 ^ ring - 1 }
{
    (1u32 << ring) - 1
}

#[tactic(auto, unfolding(crate::specs::Lines::options_of))]
fn options_of(matches: &ArgMatches<'_>) -> Option<ServeOptions>
    ensures { result ≡ options_of (serve_texts (rows_of (found_of matches.now))) }
{
    let ring = number_at(matches, "ring", 0, 10, 6)?;
    let last = last_of(ring) as u64;
    let delay = number_at(matches, "delay", 0, last, last.min(3))?;
    let seed = seed_at(matches, "seed")?;
    let ticks = number_at(matches, "ticks", 1, 16_000_000, 15000)?;
    let report = number_at(matches, "report", 1, 65535, 250)?;
    let ssrc = number_at(matches, "ssrc", 0, 4_294_967_295, 1)?;
    let sequence = number_at(matches, "sequence", 0, 65535, 0)?;
    let stamp = number_at(matches, "stamp", 0, 4_294_967_295, 0)?;
    let elastic = number_at(matches, "elastic", 0, most_elastic(ring), 0)?;
    Some(ServeOptions {
        ring: ring as u32,
        delay: delay as u32,
        seed,
        ticks,
        report: report as u32,
        ssrc: ssrc as u32,
        sequence: sequence as u16,
        stamp: stamp as u32,
        elastic: elastic as u32,
    })
}

fn serve_of<'a>(
    alloc: Global,
    options: ServeOptions,
    matches: &ArgMatches<'a>,
) -> Result<ServeLine<'a>, AllocError>
    ensures { IfOk result (λ l. l ≡ serve_of (rows_of (found_of matches.now)) options) }
{
    Ok(ServeLine {
        options,
        listen: texts_at(alloc, matches, "listen")?,
        reply: text_at(matches, "reply"),
        speaker: text_at(matches, "speaker"),
        microphone: text_at(matches, "microphone"),
        journals: text_at(matches, "journals"),
    })
}

// Whether the line has as many links as a line may have.
fn has_links(matches: &ArgMatches<'_>) -> bool
    ensures { result ≡ are_links (texts_of (codes "listen") (rows_of (found_of matches.now))) }
{
    let links = count_at(matches, "listen");
    1 <= links && links <= MOST_LINKS
}

/// The line of `serve` that was matched. `Usage` where a value is out of its range.
pub fn serve_line<'a>(alloc: Global, matches: &ArgMatches<'a>) -> Result<Line<'a>, Refusal>
    ensures line { IfOk result (λ l. serve_line (rows_of (found_of matches.now)) ≡ Some l) }
    ensures usage { IsErrOf result Refusal.Usage → serve_line (rows_of (found_of matches.now)) ≡ None }
    ensures refused { serve_line (rows_of (found_of matches.now)) ≡ None → IsErrOf result Refusal.Usage }
{
    if !has_links(matches) {
        return Err(Refusal::Usage);
    }
    let Some(options) = options_of(matches) else {
        return Err(Refusal::Usage);
    };
    match serve_of(alloc, options, matches) {
        Ok(line) => Ok(Line::Serve(line)),
        Err(_) => Err(Refusal::OutOfMemory),
    }
}
