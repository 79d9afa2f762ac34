// How a command ends.
ghost use Rattle.std.specs.Prelude.{◌≡◌};
ghost use Rattle.std.specs.Process.{exit_status};
ghost use Rattle.gate_notes.specs.Statuses.{exit_number};

use std::process::ExitCode;

/// How a command ended. The program's exit status is the place in this list, from 0.
#[derive(Clone, Copy, Debug, PartialEq, Eq)]
pub enum Status {
    /// The command came to its end.
    Done,
    /// The journals have no legal history.
    Illegal,
    /// The arguments are not a valid command line, or other objects were handed in than they name.
    Usage,
    /// An input is not in its grammar.
    Input,
    /// An input could not be read.
    ReadFault,
    /// The output or the notes could not be written.
    WriteFault,
    /// A link failed.
    LinkFault,
    /// There was no memory.
    OutOfMemory,
}

/// The exit status of the program.
pub fn code_of(status: Status) -> ExitCode
    ensures { exit_status result ≡ exit_number status }
{
    ExitCode::from(status as u8)
}
