// The run of a script that is made.
ghost use Rattle.std.specs.Prelude.{◌≡◌, ◌<◌, ◌^◌};
ghost use Rattle.recorder.specs.Tallies.{no_plays, no_tally};

use crate::round::Round;
use playout::{Call, MapLine};
use recorder::{PlayTally, Tally};

/// The line that the rounds call, and what was counted of the ticks and the replies.
#[derive(Drop)]
pub struct Played {
    pub line: MapLine,
    pub items: PlayTally,
    pub replies: Tally,
}

impl Played {
    ghost use Rattle.replay_check.specs.Plays.{Plays};

    /// Before the first round.
    pub fn new(line: MapLine) -> Played
        ensures { result ≡ record { line = line; items = no_plays; replies = no_tally } }
    {
        Played {
            line,
            items: PlayTally::new(),
            replies: Tally::new(),
        }
    }

    /// Files what a round files, and ticks.
    pub fn play(&mut self, round: &Round)
        requires caller { round.now.caller < self.old.line.filers }
        requires number { round.now.number < 2 ^ 47 }
        requires position { self.old.line.machine.position < 2 ^ 33 }
        ensures { Plays round.now.caller round.now.number round.now.frame self.old self.new }
    {
        let reply = self
            .line
            .file(round.caller as u32, round.number, &round.frame);
        self.replies.reply(&reply);
        let item = self.line.tick();
        self.items.call(&Call::TickCall { item });
    }
}
