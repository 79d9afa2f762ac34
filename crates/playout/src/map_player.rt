// The player's side on one thread.
ghost use Rattle.std.specs.Prelude.{◌≡◌};

use crate::map_line::MapLine;
use crate::side::PlayerSide;
use frame_codec::Item;
use std::marker::Model;

/// The player's side over a line that it owns. It is seen as that line.
#[derive(Drop)]
pub struct MapPlayer {
    line: MapLine,
}

impl Model for MapPlayer {
    ghost use Rattle.playout.specs.Line.{Line, line_code};

    ghost Value = { Line };

    ghost coded = { line_code };

    ghost view = { λ s. s.line };
}

impl MapPlayer {
    /// The side of the line's player.
    pub fn of(line: MapLine) -> MapPlayer
        ensures { result ≡ line }
    {
        MapPlayer { line }
    }

    /// The line as the side's calls left it.
    pub fn back(self) -> MapLine
        ensures { result ≡ self }
    {
        let MapPlayer { line } = self;
        line
    }
}

impl PlayerSide for MapPlayer {
    ghost use Rattle.playout.specs.Line.{Steps};

    ghost did = { Steps };

    ghost position = { λ s. s.machine.position };

    ghost g = { λ s. s.g };

    fn peek(&mut self) -> Option<u32> {
        self.line.peek()
    }

    fn tick(&mut self) -> Item {
        self.line.tick()
    }

    fn look(&mut self, ahead: u32) -> bool {
        self.line.look(ahead)
    }

    fn hold(&mut self) -> bool {
        self.line.hold()
    }

    fn retire(&mut self) -> Item {
        self.line.retire()
    }
}
