// What is counted of outcomes.
ghost use Rattle.std.specs.Prelude.{◌≡◌, fold};
ghost use Rattle.recorder.specs.Tallies.{reply_counted};
ghost use Rattle.filer.specs.Takes.{tallied, end_counted};

use crate::outcome::OutcomeEnd;
use crate::replies::Replies;
use recorder::Tally;

/// Counts a datagram by its end.
pub fn count_end(tally: &mut Tally, end: &OutcomeEnd)
    ensures { tally.new ≡ tallied tally.old end.now }
{
    tally.datagrams = tally.datagrams.saturating_add(1);
    match end {
        OutcomeEnd::Rtcp => tally.rtcp = tally.rtcp.saturating_add(1),
        OutcomeEnd::RtcpRefused(_) => tally.refused = tally.refused.saturating_add(1),
        OutcomeEnd::RtpRefused(_) => tally.refused = tally.refused.saturating_add(1),
        OutcomeEnd::Empty => tally.empty = tally.empty.saturating_add(1),
        OutcomeEnd::Stranger { .. } => tally.stranger = tally.stranger.saturating_add(1),
        OutcomeEnd::Filed { replies, .. } => count_replies(tally, replies),
    }
}

fn count_replies(tally: &mut Tally, replies: &Replies)
    ensures { tally.new ≡ fold reply_counted tally.old replies.now }
{
    for reply in replies.as_slice() {
        tally.reply(reply);
    }
}
