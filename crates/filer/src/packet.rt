// A packet with frames becomes calls.
ghost use Rattle.std.specs.Prelude.{◌≡◌, ◌≤◌, ◌<◌, ◌+◌, ◌-◌, ◌/◌, ◌^◌, true, length};
ghost use Rattle.playout.specs.History.{Chained};
ghost use Rattle.recorder.specs.Tallies.{is_accepted};
ghost use Rattle.filer.specs.Journals.{RepliesFit};
ghost use Rattle.filer.specs.Takes.{asked, held_source, clock_now, source_calls, base_calls, file_calls, frames_of, any_accepted, told};

use crate::outcome::Asked;
use crate::replies::Replies;
use playout::{FileReply, FilerSide};
use rtp_codec::RtpView;
use unwrap_ts::Unwrapper;

/// The held source, which is asked for where none is known.
pub fn ask_source<S: FilerSide>(known: Option<u32>, side: &mut S, ssrc: u32) -> (Option<Asked>, u32)
    ensures asked { result.0 ≡ asked known ssrc (told result.0) }
    ensures held { result.1 ≡ held_source known (told result.0) }
    ensures calls { Chained S.did side.old (source_calls result.0) side.new }
{
    match known {
        Some(held) => (None, held),
        None => {
            let held = side.source(ssrc);
            (Some(Asked { said: ssrc, held }), held)
        }
    }
}

/// The numbers of the held base, which is asked for where none is known.
pub fn ask_base<S: FilerSide>(
    known: Option<Unwrapper>,
    delay: u32,
    side: &mut S,
    ts: u32,
) -> (Option<Asked>, Unwrapper)
    requires { delay ≤ 1023 }
    ensures asked { result.0 ≡ asked known ts (told result.0) }
    ensures clock { result.1 ≡ clock_now known delay (told result.0) }
    ensures calls { Chained S.did side.old (base_calls result.0) side.new }
{
    match known {
        Some(clock) => (None, clock),
        None => {
            let held = side.base(ts);
            (Some(Asked { said: ts, held }), Unwrapper::new(held, delay))
        }
    }
}

/// Files each frame, and tells whether one was accepted.
pub fn file_frames<S: FilerSide>(side: &mut S, view: &RtpView<'_>, first: u64) -> (Replies, bool)
    requires { first < 2 ^ 34 }
    ensures calls { Chained S.did side.old (file_calls first (frames_of view.now.payload) result.0) side.new }
    ensures all { length result.0 ≡ length view.now.payload / 33 }
    ensures few { length result.0 ≤ 10 }
    ensures accepted { result.1 ≡ any_accepted result.0 }
    ensures fits { RepliesFit first result.0 }
    ensures low { result.1 ≡ true → 2 ^ 32 - 16 ≤ first }
    ensures high { result.1 ≡ true → first < 2 ^ 33 + 2048 }
{
    let mut replies = Replies::new();
    let mut any = false;
    for i in 0..view.count() {
        let reply = side.file(first + u64::from(i), &view.frame(i));
        any = any | is_accepted(reply);
        replies.push(reply);
    }
    (replies, any)
}

fn is_accepted(reply: FileReply) -> bool
    ensures { result ≡ is_accepted reply }
{
    match reply {
        FileReply::Accepted => true,
        _ => false,
    }
}
