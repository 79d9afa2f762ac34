// What one filer knows, and what it makes of a datagram.
ghost use Rattle.std.specs.Prelude.{◌≡◌, ◌≤◌, ◌<◌, ◌/◌, ◌^◌, ◌++◌, ◌∷◌, [], List, ℕ, Some, None, IfSome, false, true, length};
ghost use Rattle.playout.specs.History.{Chained};
ghost use Rattle.playout.specs.declared.call.Call.{Call};
ghost use Rattle.rtp_codec.specs.Grammar.{rtp_fault};
ghost use Rattle.rtp_codec.specs.Packets.{packet_of};
ghost use Rattle.rtcp_stats.specs.Compound.{rtcp_fault};
ghost use Rattle.rtcp_stats.specs.Writing.{FitsLost};
ghost use Rattle.filer.specs.Takes.{IsTaken, Known, HasAllFrames, admitted, calls_of, is_rtcp, judged, new_filer, read_so, read_rtcp_so, replies_of, told_by};
ghost use Rattle.filer.specs.Journals.{EndFits, is_filed};
ghost use Rattle.filer.specs.Runs.{TakesOn};
ghost use Rattle.filer.specs.declared.outcome.Outcome.{Outcome};

use crate::outcome::{Outcome, OutcomeEnd};
use crate::packet::{ask_base, ask_source, file_frames};
use crate::reporting::Reporting;
use crate::tally::count_end;
use playout::FilerSide;
use recorder::Tally;
use rtcp_stats::{ReportBlock, SenderInfo, read_rtcp};
use rtp_codec::{RtpView, read_rtp};
use std::marker::Model;
use unwrap_ts::Unwrapper;

/// A filer of one line. It files the frames of the packets of one source.
#[derive(Drop, Debug)]
pub struct Filer {
    delay: u32,
    own: u32,
    source: Option<u32>,
    clock: Option<Unwrapper>,
    reports: Reporting,
    tally: Tally,
}

impl Model for Filer {
    ghost use Rattle.std.specs.Prelude.{◌≤◌};
    ghost use Rattle.filer.specs.Takes.{Known};

    ghost Value = { Known };

    ghost view = { λ f. record { delay = f.delay; own = f.own; source = f.source; clock = f.clock; reports = f.reports; tally = f.tally } };

    ghost invariant = { λ f. f.delay ≤ 1023 };
}

impl Filer {
    /// A filer that knows of no source. Frames are numbered `delay` frames later than they came, its reports
    /// are of the source `own`, and one is due after every `report` valid packets.
    pub fn new(delay: u32, own: u32, report: u32) -> Self
        requires delay { delay ≤ 1023 }
        requires report { 1 ≤ report }
        ensures { result ≡ new_filer delay own report }
    {
        Filer {
            delay,
            own,
            source: None,
            clock: None,
            reports: Reporting::new(report),
            tally: Tally::new(),
        }
    }

    /// Makes the calls of a datagram that came at this moment, in 8000ths of a second, and tells what came of
    /// it. A sender report of the held source is kept, and each packet of it enters the statistics.
    pub fn take<S: FilerSide>(&mut self, side: &mut S, datagram: &[u8], at: u32) -> Outcome
        requires { length datagram.now ≤ 2048 }
        ensures taken { IsTaken self.old datagram.now at result self.new }
        ensures calls { Chained S.did side.old (calls_of self.old datagram.now at result) side.new }
        ensures fits { EndFits result.end }
        ensures goes_on { TakesOn S.did self.old self.new side.old side.new datagram.now at result }
    {
        self.take_one(side, datagram, at)
    }

    /// The filer's own source.
    pub(crate) fn own(&self) -> u32
        ensures { result ≡ self.now.own }
    {
        self.own
    }

    /// The report that the last datagram made due.
    pub(crate) fn due(&self) -> Option<ReportBlock>
        ensures due { result ≡ self.now.reports.due }
        ensures fits { IfSome result (λ b. FitsLost b.lost) }
    {
        self.reports.due()
    }

    /// How many datagrams were taken, and what came of them.
    pub fn tally(&self) -> Tally
        ensures { result ≡ self.now.tally }
    {
        self.tally
    }
}

impl Filer {
    pub(crate) fn take_one<S: FilerSide>(
        &mut self,
        side: &mut S,
        datagram: &[u8],
        at: u32,
    ) -> Outcome
        requires { length datagram.now ≤ 2048 }
        ensures taken { IsTaken self.old datagram.now at result self.new }
        ensures calls { Chained S.did side.old (calls_of self.old datagram.now at result) side.new }
        ensures fits { EndFits result.end }
        ensures read { is_filed result.end ≡ true → rtp_fault datagram.now ≡ None }
    {
        self.reports.settle();
        let outcome = self.judge(side, datagram, at);
        count_end(&mut self.tally, &outcome.end);
        outcome
    }

    /// Takes a datagram by the first case that holds.
    fn judge<S: FilerSide>(&mut self, side: &mut S, datagram: &[u8], at: u32) -> Outcome
        requires { length datagram.now ≤ 2048 }
        ensures outcome { result ≡ (judged self.old datagram.now at (replies_of result)).outcome }
        ensures after { self.new ≡ (judged self.old datagram.now at (replies_of result)).after }
        ensures all { HasAllFrames (packet_of datagram.now).payload result.end }
        ensures calls { Chained S.did side.old (judged self.old datagram.now at (replies_of result)).calls side.new }
        ensures fits { EndFits result.end }
        ensures read { is_filed result.end ≡ true → rtp_fault datagram.now ≡ None }
    {
        if is_rtcp(datagram) {
            return bare(self.take_rtcp(datagram, at));
        }
        self.take_rtp(side, datagram, at)
    }

    fn take_rtcp(&mut self, datagram: &[u8], at: u32) -> OutcomeEnd
        requires { length datagram.now ≤ 2048 }
        ensures outcome { record { source = None; base = None; end = result } ≡ (read_rtcp_so (rtcp_fault datagram.now) self.old datagram.now at).outcome }
        ensures after { self.new ≡ (read_rtcp_so (rtcp_fault datagram.now) self.old datagram.now at).after }
        ensures fits { EndFits result }
        ensures other { is_filed result ≡ false }
    {
        let sender = match read_rtcp(datagram) {
            Err(fault) => return OutcomeEnd::RtcpRefused(fault),
            Ok(view) => view.sender(),
        };
        self.hear(sender, at);
        OutcomeEnd::Rtcp
    }

    fn hear(&mut self, sender: Option<SenderInfo>, at: u32)
        ensures { self.new ≡ told_by self.old sender at }
    {
        if let Some(info) = sender
            && self.source == Some(info.ssrc)
        {
            self.reports.hear(info.ntp, at);
        }
    }

    fn take_rtp<S: FilerSide>(&mut self, side: &mut S, datagram: &[u8], at: u32) -> Outcome
        ensures outcome { result ≡ (read_so (rtp_fault datagram.now) self.old (packet_of datagram.now) at (replies_of result)).outcome }
        ensures after { self.new ≡ (read_so (rtp_fault datagram.now) self.old (packet_of datagram.now) at (replies_of result)).after }
        ensures all { HasAllFrames (packet_of datagram.now).payload result.end }
        ensures calls { Chained S.did side.old (read_so (rtp_fault datagram.now) self.old (packet_of datagram.now) at (replies_of result)).calls side.new }
        ensures fits { EndFits result.end }
        ensures read { is_filed result.end ≡ true → rtp_fault datagram.now ≡ None }
    {
        match read_rtp(datagram) {
            Err(fault) => bare(OutcomeEnd::RtpRefused(fault)),
            Ok(view) if view.count() == 0 => bare(OutcomeEnd::Empty),
            Ok(view) => self.admit(side, &view, at),
        }
    }

    /// Takes a packet with a frame.
    fn admit<S: FilerSide>(&mut self, side: &mut S, view: &RtpView<'_>, at: u32) -> Outcome
        requires { 1 ≤ length view.now.payload / 33 }
        ensures outcome { result ≡ (admitted self.old view.now at (replies_of result)).outcome }
        ensures after { self.new ≡ (admitted self.old view.now at (replies_of result)).after }
        ensures all { HasAllFrames view.now.payload result.end }
        ensures calls { Chained S.did side.old (admitted self.old view.now at (replies_of result)).calls side.new }
        ensures fits { EndFits result.end }
    {
        let head = view.head();
        let (source, held) = ask_source(self.source, side, head.ssrc);
        self.source = Some(held);
        if held != head.ssrc {
            let ssrc = head.ssrc;
            let end = OutcomeEnd::Stranger { ssrc, held };
            return Outcome {
                source,
                base: None,
                end,
            };
        }
        self.reports.note(&head, at);
        let (base, mut clock) = ask_base(self.clock, self.delay, side, head.timestamp);
        let first = clock.number(head.timestamp);
        let (replies, any) = file_frames(side, view, first);
        if any {
            clock.accepted(head.timestamp);
        }
        self.clock = Some(clock);
        let end = OutcomeEnd::Filed { first, replies };
        Outcome { source, base, end }
    }
}

/// No call was made.
fn bare(end: OutcomeEnd) -> Outcome
    ensures { result ≡ record { source = None; base = None; end = end } }
{
    Outcome {
        source: None,
        base: None,
        end,
    }
}

/// The datagram looks like RTCP: version 2, and a type from 200 to 204.
fn is_rtcp(datagram: &[u8]) -> bool
    ensures { result ≡ is_rtcp datagram.now }
{
    datagram.len() >= 2 && datagram[0] / 64 == 2 && datagram[1] >= 200 && datagram[1] <= 204
}
