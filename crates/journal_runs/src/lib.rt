//! Journals judged and played, and scripts made to try them with: the commands `verify`, `render` and `make`.
#![tactic(auto)]

mod journals;
mod make_command;
mod order_lines;
mod render_command;
mod verify_command;

pub use make_command::make;
pub use render_command::render;
pub use verify_command::verify;

#[cfg(test)]
mod tests;
#[cfg(test)]
mod verify_tests;
