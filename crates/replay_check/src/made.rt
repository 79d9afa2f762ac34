// What the making of a script answers.
use recorder::{PlayTally, Tally};

/// How a script was made.
#[derive(Drop)]
pub enum Made {
    /// All of it was given. The tallies are those of its run: what the player's ticks came to, and how the frames were
    /// answered.
    Done(PlayTally, Tally),
    /// The sink failed, and has a prefix of the script.
    WriteFault,
}
