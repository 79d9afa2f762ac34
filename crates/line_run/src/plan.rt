// What a line is opened with.
ghost use Rattle.std.specs.Prelude.{◌≡◌, ◌⊎◌, ◌≤◌};
ghost use Rattle.filer.specs.Takes.{new_filer};
ghost use Rattle.player.specs.Beats.{Starts};
ghost use Rattle.line_run.specs.Opening.{AreOptions, heading};

use crate::options::LineOptions;
use filer::Filer;
use player::Player;
use recorder::Head;
use std::marker::Model;

/// How many filers a line has, and its options.
#[derive(Drop)]
pub(crate) struct Plan {
    filers: u8,
    options: LineOptions,
}

impl Model for Plan {
    ghost use Rattle.std.specs.Prelude.{◌≤◌};
    ghost use Rattle.line_run.specs.Opening.{AreOptions, LineSeen};

    ghost Value = { LineSeen };

    ghost view = { λ p. record { filers = p.filers; options = p.options } };

    ghost invariant = { λ p. (1 ≤ p.filers) × (p.filers ≤ 64) × AreOptions p.options };
}

impl Plan {
    pub(crate) fn new(filers: u32, options: &LineOptions) -> Plan
        requires filers { (1 ≤ filers) × (filers ≤ 64) }
        requires options { AreOptions options.now }
        ensures { result ≡ record { filers = filers; options = options.now } }
    {
        Plan {
            filers: filers as u8,
            options: *options,
        }
    }

    /// The head of the line's journals.
    pub(crate) fn head(&self) -> Head
        ensures { result ≡ heading self.now.filers self.now.options }
    {
        Head {
            filers: self.filers,
            g: self.options.g as u8,
            delay: self.options.delay as u16,
        }
    }

    /// A filer that knows nothing yet.
    pub(crate) fn filer(&self) -> Filer
        ensures { result ≡ new_filer self.now.options.delay self.now.options.own self.now.options.report }
    {
        Filer::new(self.options.delay, self.options.own, self.options.report)
    }

    /// A player that has made no beat. It may hold numbers only where the ring has two slots.
    pub(crate) fn player(&self) -> Player
        ensures slots { (self.now.options.elastic ≡ 0) ⊎ (1 ≤ self.now.options.g) }
        ensures starts { Starts self.now.options.seed self.now.options.own self.now.options.sequence self.now.options.stamp self.now.options.ticks self.now.options.elastic result }
    {
        Player::new(
            self.options.seed,
            self.options.own,
            self.options.sequence,
            self.options.stamp,
            self.options.ticks,
            self.options.elastic,
        )
    }
}
