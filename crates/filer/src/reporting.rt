// The statistics of a filer's source, and when a report of them is due.
ghost use Rattle.std.specs.Prelude.{◌≡◌, ◌≤◌, IfSome};
ghost use Rattle.rtcp_stats.specs.Writing.{FitsLost};
ghost use Rattle.filer.specs.Reporting.{begun, quiet, hears, with_packet};

use rtcp_stats::{Receiver, ReportBlock};
use rtp_codec::RtpHead;
use std::marker::Model;

/// Statistics, with a report due each time a given number of valid packets has come.
#[derive(Clone, Copy, Debug)]
pub struct Reporting {
    every: u32,
    receiver: Receiver,
    valid: u32,
    due: Option<ReportBlock>,
}

impl Model for Reporting {
    ghost use Rattle.std.specs.Prelude.{◌<◌, IfSome};
    ghost use Rattle.rtcp_stats.specs.Writing.{FitsLost};
    ghost use Rattle.filer.specs.Reporting.{Reports};

    ghost Value = { Reports };

    ghost view = { λ r. record { every = r.every; statistics = r.receiver; valid = r.valid; due = r.due } };

    ghost invariant = { λ r. (r.valid < r.every) × IfSome r.due (λ b. FitsLost b.lost) };

    ghost inverse = { λ v. record { every = v.every; receiver = v.statistics; valid = v.valid; due = v.due } };
}

impl Reporting {
    pub fn new(every: u32) -> Self
        requires { 1 ≤ every }
        ensures { result ≡ begun every }
    {
        Reporting {
            every,
            receiver: Receiver::new(),
            valid: 0,
            due: None,
        }
    }

    /// A datagram came, and no report is due yet.
    pub fn settle(&mut self)
        ensures { self.new ≡ quiet self.old }
    {
        self.due = None;
    }

    /// The report that is due.
    pub fn due(&self) -> Option<ReportBlock>
        ensures due { result ≡ self.now.due }
        ensures fits { IfSome result (λ b. FitsLost b.lost) }
    {
        self.due
    }

    /// A sender report of the source was heard.
    pub fn hear(&mut self, ntp: u64, at: u32)
        ensures { self.new ≡ hears self.old ntp at }
    {
        self.receiver.heard(ntp, at);
    }

    /// A packet of the source came.
    pub fn note(&mut self, head: &RtpHead, at: u32)
        ensures { self.new ≡ with_packet self.old head.now at }
    {
        if !self.receiver.note(head.sequence, head.timestamp, at) {
            return;
        }
        if self.valid + 1 < self.every {
            self.valid += 1;
            return;
        }
        self.valid = 0;
        self.due = Some(self.receiver.report(head.ssrc, at));
    }
}
