//! The words of a command line: which line of the program they are, and what it says.
#![tactic(auto)]

mod files;
mod found;
mod laws;
mod line;
mod read;
mod serve;
mod table;
mod values;

pub use laws::{
    lines_are_within, plain_decode_lines, plain_encode_lines, plain_make_lines, plain_render_lines,
    plain_serve_lines, plain_simulate_lines, plain_verify_lines,
};
pub use line::{Command, FilesLine, Line, Refusal, ServeLine, ServeOptions};
pub use read::read_line;

#[cfg(test)]
mod tests;
