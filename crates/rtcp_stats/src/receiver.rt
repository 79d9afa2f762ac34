// The statistics that a receiver keeps of one source.
ghost use Rattle.std.specs.Prelude.{◌≡◌, ◌≤◌, ◌<◌, ◌+◌, ◌^◌, List, [], ◌∷◌, ◌++◌};
ghost use Rattle.rtcp_stats.specs.Statistics.{Statistics, Event, AreEvents, fresh, is_noted, noted, after_sender, after_report, report_of};
ghost use Rattle.rtcp_stats.specs.Writing.{FitsLost};
ghost use Rattle.rtcp_stats.specs.Statistics.Event.{Noted, Heard, Reported};

use crate::block::ReportBlock;
use crate::heard::{SenderReport, delay_since, last_report};
use crate::jitter::smoothed;
use crate::sequence::Sequence;
use std::marker::Model;

/// The statistics of one source. Moments are in units of the timestamp, 8000ths of a second, and wrap.
#[derive(Clone, Copy, Debug, PartialEq, Eq)]
pub struct Receiver {
    sequence: Option<Sequence>,
    transit: Option<u32>,
    jitter: u64,
    heard: Option<SenderReport>,
}

impl Model for Receiver {
    ghost use Rattle.rtcp_stats.specs.Statistics.{Statistics};
    ghost use Rattle.rtcp_stats.specs.Jitter.{IsSmooth};

    ghost Value = { Statistics };

    ghost view = { λ r. record { sequence = r.sequence; transit = r.transit; jitter = r.jitter; heard = r.heard } };

    ghost invariant = { λ r. IsSmooth r.jitter };

    ghost inverse = { λ s. record { sequence = s.sequence; transit = s.transit; jitter = s.jitter; heard = s.heard } };
}

impl Receiver {
    /// Of a source of which nothing came yet.
    pub fn new() -> Self
        ensures { result ≡ fresh }
    {
        Receiver {
            sequence: None,
            transit: None,
            jitter: 0,
            heard: None,
        }
    }

    /// A packet came at this moment. Answers whether it is valid (RFC 3550 appendix A.1); the jitter is that of
    /// the valid packets (appendix A.8).
    pub fn note(&mut self, sequence: u16, timestamp: u32, at: u32) -> bool
        ensures noted { self.new ≡ noted self.old sequence timestamp at }
        ensures valid { result ≡ is_noted self.old sequence }
        ensures goes_on { (first : Statistics) (es : List Event) → AreEvents first es self.old
            → AreEvents first (es ++ Noted sequence timestamp at result ∷ []) self.new }
    {
        self.count(sequence, timestamp, at)
    }

    fn count(&mut self, sequence: u16, timestamp: u32, at: u32) -> bool
        ensures noted { self.new ≡ noted self.old sequence timestamp at }
        ensures valid { result ≡ is_noted self.old sequence }
    {
        let mut known = match self.sequence {
            Some(known) => known,
            None => Sequence::first(sequence),
        };
        let is_valid = known.count(sequence);
        self.sequence = Some(known);
        if is_valid {
            let transit = at.wrapping_sub(timestamp);
            self.jitter = smoothed(self.transit, transit, self.jitter);
            self.transit = Some(transit);
        }
        is_valid
    }

    /// A sender report of the source with this NTP time came at this moment.
    pub fn heard(&mut self, ntp: u64, at: u32)
        ensures heard { self.new ≡ after_sender self.old ntp at }
        ensures goes_on { (first : Statistics) (es : List Event) → AreEvents first es self.old
            → AreEvents first (es ++ Heard ntp at ∷ []) self.new }
    {
        self.keep(ntp, at);
    }

    fn keep(&mut self, ntp: u64, at: u32)
        ensures { self.new ≡ after_sender self.old ntp at }
    {
        let lsr = ((ntp >> 16) & 0xFFFF_FFFF) as u32;
        self.heard = Some(SenderReport { lsr, at });
    }

    /// Takes the report of this moment on the source, from which the next one goes on (RFC 3550 section 6.4.1,
    /// appendix A.3). Before a packet was valid it tells of sender reports alone.
    pub fn report(&mut self, ssrc: u32, at: u32) -> ReportBlock
        ensures block { result ≡ report_of self.old ssrc at }
        ensures taken { self.new ≡ after_report self.old }
        ensures fits { FitsLost result.lost }
        ensures goes_on { (first : Statistics) (es : List Event) → AreEvents first es self.old
            → AreEvents first (es ++ Reported ssrc at result ∷ []) self.new }
    {
        self.take_block(ssrc, at)
    }

    fn take_block(&mut self, ssrc: u32, at: u32) -> ReportBlock
        ensures block { result ≡ report_of self.old ssrc at }
        ensures taken { self.new ≡ after_report self.old }
        ensures fits { FitsLost result.lost }
    {
        let mut block = ReportBlock {
            ssrc,
            fraction: 0,
            lost: 0,
            highest: 0,
            jitter: 0,
            lsr: last_report(self.heard),
            dlsr: delay_since(self.heard, at),
        };
        if let Some(mut known) = self.sequence
            && known.probation == 0
        {
            block.fraction = known.fraction();
            block.lost = known.lost();
            block.highest = known.highest();
            block.jitter = (self.jitter / 16) as u32;
            known.set_priors();
            self.sequence = Some(known);
        }
        block
    }
}
