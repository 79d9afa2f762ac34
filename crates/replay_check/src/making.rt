// A recorded call, made once more.
ghost use Rattle.std.specs.Prelude.{◌≡◌, ◌<◌, ◌≤◌, ◌^◌};
ghost use Rattle.playout.specs.Machine.{Replies, after};
ghost use Rattle.replay_check.specs.Making.{IsMakeable};

use playout::{Call, MapLine};

// The machine does not look at who calls.
const ANY_FILER: u32 = 0;

/// Makes a call that is possible, so that the line replies as it was recorded.
pub fn make(line: &mut MapLine, call: &Call)
    requires some { 0 < line.old.filers }
    requires replies { Replies (2 ^ line.old.g) line.old.machine call.now }
    requires makeable { IsMakeable line.old.machine.position call.now }
    ensures { line.new ≡ record line.old { machine = after line.old.machine call.now } }
{
    match call {
        Call::FileCall { number, frame, .. } => {
            line.file(ANY_FILER, *number, frame);
        }
        Call::SourceCall { ssrc, .. } => {
            line.source(ANY_FILER, *ssrc);
        }
        Call::BaseCall { ts, .. } => {
            line.base(ANY_FILER, *ts);
        }
        Call::TickCall { .. } => {
            line.tick();
        }
        Call::RetireCall { .. } => {
            line.retire();
        }
        Call::PeekCall { .. } => {}
        Call::LookCall { .. } => {}
        Call::HoldCall { .. } => {}
    }
}
