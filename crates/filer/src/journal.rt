// A datagram goes into the journal.
ghost use Rattle.std.specs.Prelude.{◌≡◌, ◌∷◌, [], ◌<◌, ◌+◌, ◌/◌, ◌^◌, true, None, length};
ghost use Rattle.gate_base.specs.Faults.{HasCause};
ghost use Rattle.gate_io.specs.Flow.{Gives};
ghost use Rattle.playout.specs.History.{ReplyFits};
ghost use Rattle.recorder.specs.Filing.{FilerFits, filer_event_text};
ghost use Rattle.rtp_codec.specs.Grammar.{rtp_fault};
ghost use Rattle.rtp_codec.specs.Packets.{packet_of};
ghost use Rattle.filer.specs.Takes.{HasAllFrames, frames_of};
ghost use Rattle.filer.specs.Journals.{EndFits, RepliesFit, base_events, datagram_text, end_events, file_events, is_filed, rtcp_code, rtcp_detail, rtp_code, rtp_detail, source_events, text_of};
ghost use Rattle.recorder.specs.declared.events.FilerEvent.{FilerEvent};

use crate::outcome::{Asked, Outcome, OutcomeEnd};
use crate::replies::Replies;
use frame_codec::Frame33;
use gate_io::{Failed, Sink};
use playout::FileReply;
use recorder::{Asked2, FilerEvent, write_filer};
use rtcp_stats::RtcpFault;
use rtp_codec::{RtpFault, RtpView, read_rtp};

/// Gives the journal the events of a datagram with its outcome, one give an event.
pub fn write_outcome<J: Sink>(
    datagram: &[u8],
    outcome: &Outcome,
    journal: &mut J,
) -> Result<(), Failed>
    requires fits { EndFits outcome.now.end }
    requires read { is_filed outcome.now.end ≡ true → rtp_fault datagram.now ≡ None }
    requires all { HasAllFrames (packet_of datagram.now).payload outcome.now.end }
    ensures given { Gives (J.given journal.old) (J.given journal.new) result (datagram_text datagram.now outcome.now) }
    ensures cause { HasCause (J.faults journal.old) (J.faults journal.new) result }
    ensures kin { J.kin journal.old journal.new }
{
    if write_source(outcome.source, journal).is_err() {
        return Err(Failed);
    }
    if write_base(outcome.base, journal).is_err() {
        return Err(Failed);
    }
    write_end_of(datagram, &outcome.end, journal)
}

fn write_source<J: Sink>(source: Option<Asked>, journal: &mut J) -> Result<(), Failed>
    ensures given { Gives (J.given journal.old) (J.given journal.new) result (text_of (source_events source)) }
    ensures cause { HasCause (J.faults journal.old) (J.faults journal.new) result }
    ensures kin { J.kin journal.old journal.new }
{
    let Some(asked) = source else {
        return Ok(());
    };
    let (said, held) = (asked.said, asked.held);
    write_one(&FilerEvent::Source(Asked2 { said, held }), journal)
}

fn write_base<J: Sink>(base: Option<Asked>, journal: &mut J) -> Result<(), Failed>
    ensures given { Gives (J.given journal.old) (J.given journal.new) result (text_of (base_events base)) }
    ensures cause { HasCause (J.faults journal.old) (J.faults journal.new) result }
    ensures kin { J.kin journal.old journal.new }
{
    let Some(asked) = base else {
        return Ok(());
    };
    let (said, held) = (asked.said, asked.held);
    write_one(&FilerEvent::Base(Asked2 { said, held }), journal)
}

/// Gives one event.
fn write_one<J: Sink>(event: &FilerEvent, journal: &mut J) -> Result<(), Failed>
    requires { FilerFits event.now }
    ensures given { Gives (J.given journal.old) (J.given journal.new) result (text_of (event.now ∷ [])) }
    ensures cause { HasCause (J.faults journal.old) (J.faults journal.new) result }
    ensures kin { J.kin journal.old journal.new }
{
    write_filer(event, journal)
}

/// Gives what ended the datagram: its frames with their replies, or one other event.
fn write_end_of<J: Sink>(datagram: &[u8], end: &OutcomeEnd, journal: &mut J) -> Result<(), Failed>
    requires fits { EndFits end.now }
    requires read { is_filed end.now ≡ true → rtp_fault datagram.now ≡ None }
    requires all { HasAllFrames (packet_of datagram.now).payload end.now }
    ensures given { Gives (J.given journal.old) (J.given journal.new) result (text_of (end_events (frames_of (packet_of datagram.now).payload) end.now)) }
    ensures cause { HasCause (J.faults journal.old) (J.faults journal.new) result }
    ensures kin { J.kin journal.old journal.new }
{
    match end {
        OutcomeEnd::Rtcp => write_one(&FilerEvent::Rtcp, journal),
        OutcomeEnd::RtcpRefused(fault) => write_one(&rtcp_refusal(*fault), journal),
        OutcomeEnd::RtpRefused(fault) => write_one(&rtp_refusal(*fault), journal),
        OutcomeEnd::Empty => write_one(&FilerEvent::Empty, journal),
        OutcomeEnd::Stranger { ssrc, held } => {
            let (ssrc, held) = (*ssrc, *held);
            write_one(&FilerEvent::Stranger { ssrc, held }, journal)
        }
        OutcomeEnd::Filed { first, replies } => match read_rtp(datagram) {
            Ok(view) => write_frames(&view, *first, replies, journal),
            Err(_) => Ok(()),
        },
    }
}

/// A packet's refusal with its code.
fn rtp_refusal(fault: RtpFault) -> FilerEvent
    ensures event { result ≡ FilerEvent.Refused (rtp_code fault) (rtp_detail fault) }
    ensures fits { FilerFits result }
{
    let (code, detail) = match fault {
        RtpFault::Oversize => (1, 0),
        RtpFault::Short => (2, 0),
        RtpFault::Version => (3, 0),
        RtpFault::CsrcShort => (4, 0),
        RtpFault::ExtensionShort => (5, 0),
        RtpFault::Padding => (6, 0),
        RtpFault::OtherPayload(kind) => (7, u16::from(kind)),
        RtpFault::Length => (8, 0),
        RtpFault::TooMany => (9, 0),
        RtpFault::Signature(place) => (10, u16::from(place)),
    };
    FilerEvent::Refused { code, detail }
}

/// A compound's refusal with its code.
fn rtcp_refusal(fault: RtcpFault) -> FilerEvent
    requires { rtcp_detail fault < 2 ^ 16 }
    ensures event { result ≡ FilerEvent.Refused (rtcp_code fault) (rtcp_detail fault) }
    ensures fits { FilerFits result }
{
    let (code, detail) = match fault {
        RtcpFault::Oversize => (17, 0),
        RtcpFault::Cut { at } => (18, at as u16),
        RtcpFault::Version { at } => (19, at as u16),
        RtcpFault::First => (20, 0),
        RtcpFault::Padding { at } => (21, at as u16),
        RtcpFault::Body { at } => (22, at as u16),
    };
    FilerEvent::Refused { code, detail }
}

/// Gives an event a frame, under rising numbers.
fn write_frames<J: Sink>(
    view: &RtpView<'_>,
    first: u64,
    replies: &Replies,
    journal: &mut J,
) -> Result<(), Failed>
    requires first { first < 2 ^ 34 }
    requires fits { RepliesFit first replies.now }
    requires all { length replies.now ≡ length view.now.payload / 33 }
    ensures given { Gives (J.given journal.old) (J.given journal.new) result (text_of (file_events first (frames_of view.now.payload) replies.now)) }
    ensures cause { HasCause (J.faults journal.old) (J.faults journal.new) result }
    ensures kin { J.kin journal.old journal.new }
{
    for i in 0..view.count() {
        let reply = *replies.get(i as usize);
        let number = first + u64::from(i);
        if write_file(number, view.frame(i), reply, journal).is_err() {
            return Err(Failed);
        }
    }
    Ok(())
}

/// Gives the event of a frame.
fn write_file<J: Sink>(
    number: u64,
    frame: Frame33,
    reply: FileReply,
    journal: &mut J,
) -> Result<(), Failed>
    requires number { number < 2 ^ 47 }
    requires reply { ReplyFits number reply }
    ensures given { Gives (J.given journal.old) (J.given journal.new) result (filer_event_text (FilerEvent.File number frame reply)) }
    ensures cause { HasCause (J.faults journal.old) (J.faults journal.new) result }
    ensures kin { J.kin journal.old journal.new }
{
    let event = FilerEvent::File {
        number,
        frame,
        reply,
    };
    write_filer(&event, journal)
}
