// The notes on datagrams.
ghost use Rattle.std.specs.Prelude.{◌≡◌, ◌≤◌, ◌<◌, ◌+◌, ◌^◌, ◌++◌, codes, decimal, length};
ghost use Rattle.gate_base.specs.Faults.{HasCause};
ghost use Rattle.gate_io.specs.Flow.{Gives};
ghost use Rattle.filer.specs.Journals.{EndFits};
ghost use Rattle.gate_notes.specs.Notes.{counted, newline, rtcp_words, rtp_words};
ghost use Rattle.gate_notes.specs.Outcomes.{filed_lines, outcome_lines};

use crate::line::TextLine;
use crate::notes::give_reply;
use filer::{OutcomeEnd, Replies};
use gate_io::{Failed, Sink};
use rtcp_stats::RtcpFault;
use rtp_codec::RtpFault;

// Writes why a packet was refused.
fn put_rtp(line: &mut TextLine, fault: &RtpFault)
    requires { length line.old ≤ 60 }
    ensures text { line.new ≡ line.old ++ rtp_words fault.now }
    ensures short { length line.new ≤ length line.old + 60 }
{
    match fault {
        RtpFault::Oversize => line.words(" refused oversize"),
        RtpFault::Short => line.words(" refused short"),
        RtpFault::Version => line.words(" refused version"),
        RtpFault::CsrcShort => line.words(" refused csrc"),
        RtpFault::ExtensionShort => line.words(" refused extension"),
        RtpFault::Padding => line.words(" refused padding"),
        RtpFault::OtherPayload(pt) => line.counted(" refused payload ", *pt as u64),
        RtpFault::Length => line.words(" refused length"),
        RtpFault::TooMany => line.words(" refused many"),
        RtpFault::Signature(i) => line.counted(" refused signature ", *i as u64),
    }
}

// Writes why an RTCP compound was refused.
fn put_rtcp(line: &mut TextLine, fault: &RtcpFault)
    requires { length line.old ≤ 60 }
    ensures text { line.new ≡ line.old ++ rtcp_words fault.now }
    ensures short { length line.new ≤ length line.old + 60 }
{
    match fault {
        RtcpFault::Oversize => line.words(" refused rtcp oversize"),
        RtcpFault::Cut { at } => line.counted(" refused rtcp cut ", *at as u64),
        RtcpFault::Version { at } => line.counted(" refused rtcp version ", *at as u64),
        RtcpFault::First => line.words(" refused rtcp first"),
        RtcpFault::Padding { at } => line.counted(" refused rtcp padding ", *at as u64),
        RtcpFault::Body { at } => line.counted(" refused rtcp body ", *at as u64),
    }
}

fn give_rtp<E: Sink>(caller: u8, fault: &RtpFault, notes: &mut E) -> Result<(), Failed>
    ensures given { Gives (E.given notes.old) (E.given notes.new) result (decimal caller ++ (rtp_words fault.now ++ newline)) }
    ensures cause { HasCause (E.faults notes.old) (E.faults notes.new) result }
    ensures kin { E.kin notes.old notes.new }
{
    let mut line = TextLine::new();
    line.number(caller as u64);
    put_rtp(&mut line, fault);
    line.give(notes)
}

fn give_rtcp<E: Sink>(caller: u8, fault: &RtcpFault, notes: &mut E) -> Result<(), Failed>
    ensures given { Gives (E.given notes.old) (E.given notes.new) result (decimal caller ++ (rtcp_words fault.now ++ newline)) }
    ensures cause { HasCause (E.faults notes.old) (E.faults notes.new) result }
    ensures kin { E.kin notes.old notes.new }
{
    let mut line = TextLine::new();
    line.number(caller as u64);
    put_rtcp(&mut line, fault);
    line.give(notes)
}

fn give_stranger<E: Sink>(caller: u8, ssrc: u32, held: u32, notes: &mut E) -> Result<(), Failed>
    ensures given { Gives (E.given notes.old) (E.given notes.new) result (decimal caller ++ (counted (codes " stranger ") ssrc ++ (counted (codes " ") held ++ newline))) }
    ensures cause { HasCause (E.faults notes.old) (E.faults notes.new) result }
    ensures kin { E.kin notes.old notes.new }
{
    let mut line = TextLine::new();
    line.number(caller as u64);
    line.counted(" stranger ", ssrc as u64);
    line.counted(" ", held as u64);
    line.give(notes)
}

// Notes how the frames of a packet were answered, which were filed from number `first` on.
fn give_replies<E: Sink>(
    caller: u8,
    first: u64,
    replies: &Replies,
    notes: &mut E,
) -> Result<(), Failed>
    requires { first < 2 ^ 34 }
    ensures given { Gives (E.given notes.old) (E.given notes.new) result (filed_lines caller first replies.now) }
    ensures cause { HasCause (E.faults notes.old) (E.faults notes.new) result }
    ensures kin { E.kin notes.old notes.new }
{
    let count = replies.len();
    'replies: for i in 0..count {
        match give_reply(caller, first + i as u64, replies.get(i), notes) {
            Ok(()) => {}
            Err(Failed) => return Err(Failed),
        }
    }
    Ok(())
}

/// Notes what came of a datagram: that it was refused, or is of another source than the held one, or the frames
/// that were not accepted.
pub fn give_end<E: Sink>(caller: u8, end: &OutcomeEnd, notes: &mut E) -> Result<(), Failed>
    requires { EndFits end.now }
    ensures given { Gives (E.given notes.old) (E.given notes.new) result (outcome_lines caller end.now) }
    ensures cause { HasCause (E.faults notes.old) (E.faults notes.new) result }
    ensures kin { E.kin notes.old notes.new }
{
    match end {
        OutcomeEnd::Rtcp => Ok(()),
        OutcomeEnd::RtcpRefused(fault) => give_rtcp(caller, fault, notes),
        OutcomeEnd::RtpRefused(fault) => give_rtp(caller, fault, notes),
        OutcomeEnd::Empty => Ok(()),
        OutcomeEnd::Stranger { ssrc, held } => give_stranger(caller, *ssrc, *held, notes),
        OutcomeEnd::Filed { first, replies } => give_replies(caller, *first, replies, notes),
    }
}
