// The filers of a script.
ghost use Rattle.std.specs.Prelude.{◌≡◌, ◌≤◌, ◌<◌, IfOk, length, replicate};
ghost use Rattle.filer.specs.Journals.{EndFits};
ghost use Rattle.script_runs.specs.Calls.{IsTakenBy, new_filer};

use filer::{Filer, Outcome};
use gate_base::OutOfMemory;
use playout::MapFiler;
use recorder::Packet;
use std::alloc::Global;

// No report is sent, so neither of them shows.
const OWN: u32 = 0;

const REPORT: u32 = u32::MAX;

/// New filers, one for each caller that files.
pub fn new_filers(alloc: Global, count: u8, delay: u16) -> Result<Vec<Filer>, OutOfMemory>
    requires { delay ≤ 1023 }
    ensures { IfOk result (λ filers. filers.items ≡ replicate count (new_filer delay)) }
{
    let mut filers = Vec::new(alloc);
    for _ in 0..count {
        filers.push(Filer::new(delay as u32, OWN, REPORT))?;
    }
    Ok(filers)
}

/// A datagram is taken by its caller's filer, over that caller's side.
pub fn take_by(
    filers: &mut [Filer],
    caller: u8,
    side: &mut MapFiler,
    datagram: &Packet,
    at: u32,
) -> Outcome
    requires { caller < length filers.old }
    ensures taken { IsTakenBy caller datagram.now at result filers.old filers.new side.old side.new }
    ensures fits { EndFits result.end }
{
    filers[caller as usize].take(side, datagram.octets(), at)
}
