// A filer's side on one thread.
ghost use Rattle.std.specs.Prelude.{◌≡◌, ◌<◌};

use crate::map_line::MapLine;
use crate::reply::FileReply;
use crate::side::FilerSide;
use frame_codec::Frame33;
use std::marker::Model;

/// A filer's side over a line that it owns. It is seen as the line and the filer's number.
#[derive(Drop)]
pub struct MapFiler {
    line: MapLine,
    who: u32,
}

impl Model for MapFiler {
    ghost use Rattle.std.specs.Prelude.{ℕ, ◌<◌};
    ghost use Rattle.std.specs.Coded.{coded×, coded_ℕ};
    ghost use Rattle.playout.specs.Line.{Line, line_code};

    ghost Value = { Line × ℕ };

    ghost coded = { coded× line_code coded_ℕ };

    ghost view = { λ s. (s.line, s.who) };

    ghost invariant = { λ s. s.who < s.line.filers };
}

impl MapFiler {
    /// The side of one of the line's filers.
    pub fn of(line: MapLine, who: u32) -> MapFiler
        requires { who < line.filers }
        ensures { result ≡ (line, who) }
    {
        MapFiler { line, who }
    }

    /// The line as the side's calls left it.
    pub fn back(self) -> MapLine
        ensures { result ≡ self.0 }
    {
        let MapFiler { line, who: _ } = self;
        line
    }
}

impl FilerSide for MapFiler {
    ghost use Rattle.playout.specs.Line.{FilerSteps};

    ghost did = { FilerSteps };

    fn source(&mut self, ssrc: u32) -> u32 {
        self.line.source(self.who, ssrc)
    }

    fn base(&mut self, ts: u32) -> u32 {
        self.line.base(self.who, ts)
    }

    fn file(&mut self, number: u64, frame: &Frame33) -> FileReply {
        self.line.file(self.who, number, frame)
    }
}
