// A player and its state.
ghost use Rattle.std.specs.Prelude.{◌≡◌, ◌≤◌, [], false};
ghost use Rattle.recorder.specs.Tallies.{no_plays};
ghost use Rattle.player.specs.Beats.{Starts};

use crate::return_stream::ReturnStream;
use recorder::PlayTally;
use std::marker::Model;
use substitution::Voice;

/// A player: it plays what its side of a line has for each tick, and sends what its microphone hears.
#[derive(Drop)]
pub struct Player {
    pub(crate) voice: Voice,
    pub(crate) stream: ReturnStream,
    pub(crate) tally: PlayTally,
    // Whether a base was seen or a tick made.
    pub(crate) opened: bool,
    // Beats that were made, and how many it makes at most.
    pub(crate) made: u64,
    pub(crate) ticks: u64,
    // Numbers that it held, less those that it retired, and how many it holds at most.
    pub(crate) held: u32,
    pub(crate) elastic: u32,
}

impl Model for Player {
    ghost use Rattle.std.specs.Prelude.{◌≤◌};
    ghost use Rattle.player.specs.Beats.{Playing};

    ghost Value = { Playing };

    ghost view = { λ p. record { voice = p.voice; stream = p.stream; tally = p.tally; opened = p.opened; made = p.made; ticks = p.ticks; held = p.held; elastic = p.elastic } };

    ghost invariant = { λ p. (p.ticks ≤ 16000000) × (p.held ≤ p.elastic) × (p.held ≤ p.made) × (p.elastic ≤ 15) };
}

impl Player {
    /// A player that has made no beat, and makes `ticks` of them at most. The seed is that of its voice; its packets
    /// are of the source `own`, the first with this sequence number and this timestamp in samples at 8 kHz. It may hold
    /// up to `elastic` numbers, and so is late by that many beats at most.
    pub fn new(
        seed: [u8; 32],
        own: u32,
        sequence: u16,
        stamp: u32,
        ticks: u64,
        elastic: u32,
    ) -> Player
        requires some { 1 ≤ ticks }
        requires most { ticks ≤ 16000000 }
        requires elastic { elastic ≤ 15 }
        ensures { Starts seed own sequence stamp ticks elastic result }
    {
        Player {
            voice: Voice::new(seed),
            stream: ReturnStream::new(own, sequence, stamp),
            tally: PlayTally::new(),
            opened: false,
            made: 0,
            ticks,
            held: 0,
            elastic,
        }
    }

    // How many numbers it holds, at most one for each beat that it has made.
    pub(crate) fn held(&self) -> u32
        ensures value { result ≡ self.now.held }
        ensures few { result ≤ self.now.made }
    {
        self.held
    }

    /// What was counted of all beats.
    pub fn tally(&self) -> PlayTally
        ensures { result ≡ self.now.tally }
    {
        self.tally
    }
}
