//! The program that times filing and ticking: over the ring, over a line under a lock, and over bare words.
#![tactic(auto)]

mod bare_words;
mod caller;
mod measure;
mod on_ring;
#[cfg(test)]
mod tests;
mod under_lock;

use crate::measure::{Costs, Counts, Load, Measured};
use frame_codec::{Frame33, frame_of};
use gate_base::OutOfMemory;
use std::alloc::Global;
use std::env;
use std::process::ExitCode;
use std::sync::Wait;
use std::thread::Threads;
use std::time::{Clock, Instant};

// What the first word of the command line asks for: the costs of many calls, or what comes of a few.
#[derive(Clone, Copy, PartialEq, Eq)]
enum Asked {
    Run,
    Check,
}

fn first_word(rt: &HostRuntime) -> Option<Asked> {
    let Ok(mut args) = env::args(rt) else {
        return None;
    };
    match args.nth(1) {
        Some(word) => match word.as_str() {
            "run" => Some(Asked::Run),
            "check" => Some(Asked::Check),
            _ => None,
        },
        None => None,
    }
}

fn load_of(asked: Asked) -> Load {
    match asked {
        Asked::Run => Load {
            turns: 6250,
            numbers: 5000000,
        },
        Asked::Check => Load {
            turns: 3,
            numbers: 100000,
        },
    }
}

fn print_costs<R: Print>(rt: &R, what: &str, costs: Costs) {
    let Costs { file, tries, tick } = costs;
    let _ = println!(rt; "{what}: {file} ns a file, {tries} for 100 numbers; {tick} ns a tick");
}

fn print_alone<R: Print>(rt: &R, asked: Asked, what: &str, measured: Measured) {
    if asked == Asked::Run {
        print_costs(rt, what, measured.costs);
        return;
    }
    let Counts {
        accepted,
        played,
        next,
        at_once: _,
    } = measured.counts;
    let _ = println!(rt; "{what}: {accepted} accepted, {played} played, next {next}");
}

// How many are accepted is the threads' luck, but each of them is played.
fn print_contended<R: Print>(rt: &R, asked: Asked, what: &str, measured: Measured) {
    if asked == Asked::Run {
        print_costs(rt, what, measured.costs);
        return;
    }
    let Counts {
        accepted,
        played,
        next,
        at_once,
    } = measured.counts;
    let lost = accepted.abs_diff(played);
    let _ = println!(rt; "{what}: {at_once} at once, {lost} accepted and not played, next {next}");
}

// How costs are printed, by costs that no run gives.
fn print_sample<R: Print>(rt: &R) {
    let costs = Costs {
        file: 12,
        tries: 345,
        tick: 6,
    };
    print_costs(rt, "sample", costs);
}

fn run_alone<R: Wait + Clock + Print>(
    rt: &R,
    alloc: Global,
    zero: Instant,
    frame: &Frame33,
    asked: Asked,
) -> Result<(), OutOfMemory> {
    let load = load_of(asked);
    let ring = on_ring::alone(rt, alloc, zero, frame, load)?;
    print_alone(rt, asked, "alone, ring", ring);
    let lock = under_lock::alone(rt, alloc, zero, frame, load)?;
    print_alone(rt, asked, "alone, lock", lock);
    let bare = bare_words::alone(rt, alloc, zero, frame, load)?;
    print_alone(rt, asked, "alone, bare words", bare);
    Ok(())
}

fn run_contended<R: Threads + Wait + Clock + Print + Sync>(
    rt: &R,
    alloc: Global,
    zero: Instant,
    frame: &Frame33,
    asked: Asked,
) -> Result<(), OutOfMemory> {
    let load = load_of(asked);
    let ring = on_ring::contended(rt, alloc, zero, frame, load)?;
    print_contended(rt, asked, "contended, ring", ring);
    let lock = under_lock::contended(rt, alloc, zero, frame, load)?;
    print_contended(rt, asked, "contended, lock", lock);
    let bare = bare_words::contended(rt, alloc, zero, frame, load)?;
    print_contended(rt, asked, "contended, bare words", bare);
    Ok(())
}

fn main(rt: HostRuntime) -> ExitCode {
    let Some(asked) = first_word(&rt) else {
        return ExitCode::SUCCESS;
    };
    let Ok(zero) = Instant::now(&rt) else {
        return ExitCode::FAILURE;
    };
    let Ok(frame) = frame_of(&[0xD0; 33]) else {
        return ExitCode::FAILURE;
    };
    if asked == Asked::Check {
        print_sample(&rt);
    }
    if run_alone(&rt, rt.alloc(), zero, &frame, asked).is_err() {
        return ExitCode::FAILURE;
    }
    if run_contended(&rt, rt.alloc(), zero, &frame, asked).is_err() {
        return ExitCode::FAILURE;
    }
    ExitCode::SUCCESS
}
