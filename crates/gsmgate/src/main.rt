//! The program: the words of the command line, the files that they name, and the commands over them.
#![tactic(auto)]

mod gateway;
mod offline;
mod places;
mod starting;

use crate::starting::{run_on, start};
use gate_notes::code_of;
use gate_os::OsSink;
use std::alloc::AllocError;
use std::env;
use std::io::ErrorKind;
use std::process::ExitCode;

// The words of the command line, without the program's own.
fn words_of(rt: &HostRuntime) -> Result<Vec<String>, AllocError> {
    let mut words = Vec::new(rt.alloc());
    match env::args(rt) {
        Ok(args) => {
            for word in args.skip(1) {
                words.push(word)?;
            }
        }
        Err(error) => {
            if error.kind() == ErrorKind::OutOfMemory {
                return Err(AllocError);
            }
        }
    }
    Ok(words)
}

fn main(rt: HostRuntime) -> ExitCode {
    let mut notes = OsSink::standard(&rt);
    let mut started = start(&rt, words_of(&rt), &mut notes);
    code_of(run_on(&rt, rt.alloc(), &mut started, &mut notes).status)
}

#[cfg(test)]
mod command_tests;
#[cfg(test)]
mod gateway_tests;
#[cfg(test)]
mod tests;
