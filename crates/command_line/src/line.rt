// A line of the program.
use std::marker::Model;

/// The commands over files, with the values of their options.
#[derive(Clone, Copy, Debug, PartialEq, Eq)]
pub enum Command {
    /// A script becomes a player's journal, or with a voice's seed the speech that it plays.
    Simulate { voice: Option<[u8; 32]> },
    /// Coded frames become speech.
    Decode,
    /// Speech becomes coded frames.
    Encode,
    /// A player's journal becomes the speech that it played, by a voice of this seed.
    Render { seed: [u8; 32] },
    /// The journals of one line are judged, and the order of a legal history is written.
    Verify,
    /// A script of `count` rounds, a File and a Tick each, for `filers` filers is made from a seed.
    Make { seed: u64, count: u32, filers: u32 },
}

/// The options of `serve`.
#[derive(Clone, Copy, Debug, PartialEq, Eq)]
pub struct ServeOptions {
    /// The ring has 2 to this power frames: 0 to 10.
    pub ring: u32,
    /// Frames between filing and playing: less than the ring has.
    pub delay: u32,
    /// The seed of the voice for erased frames.
    pub seed: [u8; 32],
    /// Ticks of 20 ms that are played: 1 to 16000000.
    pub ticks: u64,
    /// Valid packets of a filer between two reports: 1 to 65535.
    pub report: u32,
    /// The source of what is sent.
    pub ssrc: u32,
    /// The sequence number of the first packet that is sent.
    pub sequence: u16,
    /// The timestamp of the first packet that is sent.
    pub stamp: u32,
    /// Beats that the player may let pass at the same number: 0 to 15, and 0 where the ring has one frame.
    pub elastic: u32,
}

/// A line over files: its command, and the words that name its places.
#[derive(Drop)]
pub struct FilesLine<'a> {
    /// What is done.
    pub command: Command,
    /// The files that are read, in the order of the words.
    pub inputs: Vec<&'a str>,
    /// The file that is written.
    pub output: &'a str,
}

impl<'a> Model for FilesLine<'a> {
    ghost use Rattle.std.specs.Prelude.{map};
    ghost use Rattle.command_line.specs.Said.{FilesSaid};

    ghost Value = { FilesSaid };

    ghost view = { λ l. record { command = l.command; inputs = map (λ t. t.now) l.inputs.items; output = l.output.now } };
}

/// A line of `serve`: its options, and the words that name its places.
#[derive(Drop)]
pub struct ServeLine<'a> {
    /// The values of the options, or their defaults.
    pub options: ServeOptions,
    /// The addresses that are listened on, one a filer, in the order of the words.
    pub listen: Vec<&'a str>,
    /// The address that replies go to.
    pub reply: &'a str,
    /// Where the speech that is played goes.
    pub speaker: &'a str,
    /// Where the speech that is sent comes from.
    pub microphone: &'a str,
    /// What the names of the journals begin with.
    pub journals: &'a str,
}

impl<'a> Model for ServeLine<'a> {
    ghost use Rattle.std.specs.Prelude.{map};
    ghost use Rattle.command_line.specs.Said.{ServeSaid};

    ghost Value = { ServeSaid };

    ghost view = { λ l. record { options = l.options; listen = map (λ t. t.now) l.listen.items; reply = l.reply.now; speaker = l.speaker.now; microphone = l.microphone.now; journals = l.journals.now } };
}

/// A line of the program.
#[derive(Drop)]
pub enum Line<'a> {
    /// A command over files.
    Files(FilesLine<'a>),
    /// The gateway runs on sockets.
    Serve(ServeLine<'a>),
}

/// Why words were not read.
#[derive(Clone, Copy, Debug, PartialEq, Eq)]
pub enum Refusal {
    /// The words are no line of the program.
    Usage,
    /// Memory ran out.
    OutOfMemory,
}
