// What was counted.
ghost use Rattle.std.specs.Prelude.{◌≡◌};
ghost use Rattle.playout.specs.declared.call.Call.TheVariants.{TickCall};
ghost use Rattle.recorder.specs.Tallies.{call_counted, no_plays, no_tally, reply_counted};

use frame_codec::Item;
use playout::{Call, FileReply};

/// What a filer's datagrams came to: how many there were, how its frames were answered, and the datagrams
/// that gave no frame, each under its cause. Each count stands still at 2^64 - 1.
#[derive(Clone, Copy, Debug, PartialEq, Eq)]
pub struct Tally {
    /// All datagrams that were taken.
    pub datagrams: u64,
    /// Frames that were accepted.
    pub accepted: u64,
    /// Frames whose number was there already.
    pub duplicate: u64,
    /// Frames whose tick was past.
    pub late: u64,
    /// Frames past the end of the window.
    pub beyond: u64,
    /// Datagrams refused by their octets, RTP and RTCP alike.
    pub refused: u64,
    /// Packets of another source than the held one.
    pub stranger: u64,
    /// RTCP datagrams that were read.
    pub rtcp: u64,
    /// Packets without frames.
    pub empty: u64,
}

impl Tally {
    /// Nothing counted.
    pub fn new() -> Tally
        ensures { result ≡ no_tally }
    {
        Tally {
            datagrams: 0,
            accepted: 0,
            duplicate: 0,
            late: 0,
            beyond: 0,
            refused: 0,
            stranger: 0,
            rtcp: 0,
            empty: 0,
        }
    }

    /// Counts the answer to a frame.
    pub fn reply(&mut self, reply: &FileReply)
        ensures { self.new ≡ reply_counted self.old reply.now }
    {
        match reply {
            FileReply::Accepted => self.accepted = self.accepted.saturating_add(1),
            FileReply::Duplicate => self.duplicate = self.duplicate.saturating_add(1),
            FileReply::Late { .. } => self.late = self.late.saturating_add(1),
            FileReply::Beyond { .. } => self.beyond = self.beyond.saturating_add(1),
        }
    }
}

/// What a player's beats came to: ticks, of which some played a frame and the others an erasure, the idle beats
/// before them, the beats that it let pass, and the numbers that it left out. Each count stands still at 2^64 - 1.
#[derive(Clone, Copy, Debug, PartialEq, Eq)]
pub struct PlayTally {
    /// Ticks: frames and erasures.
    pub ticks: u64,
    /// Ticks that played a frame.
    pub frames: u64,
    /// Ticks for which no frame came.
    pub erasures: u64,
    /// Beats before there was a base.
    pub idle: u64,
    /// Beats that passed at the same number.
    pub held: u64,
    /// Numbers that were left out.
    pub retired: u64,
}

impl PlayTally {
    /// Nothing counted.
    pub fn new() -> PlayTally
        ensures { result ≡ no_plays }
    {
        PlayTally {
            ticks: 0,
            frames: 0,
            erasures: 0,
            idle: 0,
            held: 0,
            retired: 0,
        }
    }

    /// Counts a call of the player.
    pub fn call(&mut self, call: &Call)
        ensures { self.new ≡ call_counted self.old call.now }
    {
        match call {
            Call::PeekCall { held: None } => self.idle = self.idle.saturating_add(1),
            Call::HoldCall { held: true } => self.held = self.held.saturating_add(1),
            Call::RetireCall { .. } => self.retired = self.retired.saturating_add(1),
            Call::TickCall { item } => self.tick(item),
            _ => {}
        }
    }

    // Counts the item of a tick.
    fn tick(&mut self, item: &Item)
        ensures { self.new ≡ call_counted self.old (TickCall item.now) }
    {
        self.ticks = self.ticks.saturating_add(1);
        match item {
            Item::Idle => {}
            Item::Frame(_) => self.frames = self.frames.saturating_add(1),
            Item::Erasure => self.erasures = self.erasures.saturating_add(1),
        }
    }
}
