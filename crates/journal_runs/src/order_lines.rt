// The order of a legal history, as lines.
ghost use Rattle.std.specs.Prelude.{◌≡◌, ◌≤◌, ◌+◌, ◌++◌, length, IsOk};
ghost use Rattle.gate_base.specs.Faults.{HasCause};
ghost use Rattle.gate_io.specs.Flow.{Gives};
ghost use Rattle.gate_notes.specs.Notes.{caller_line, order_lines};
ghost use Rattle.gate_notes.specs.Pages.{GivesFront};

use gate_io::{Failed, Sink};
use gate_notes::Page;
use replay_check::Order;

/// After this many octets of a page the next line might not fit.
const FULL: usize = 4096 - 32;

// Writes who makes a call, where there are so many filers.
fn put_caller(page: &mut Page, filers: u32, who: u32)
    requires { length page.old ≤ 4064 }
    ensures text { page.new ≡ page.old ++ caller_line filers who }
    ensures short { length page.new ≤ length page.old + 21 }
{
    if who == filers {
        page.words("p");
    } else {
        page.number(who as u64);
    }
    page.words("\n");
}

// Gives a page where the next line might not fit.
fn make_room<O: Sink>(page: &mut Page, output: &mut O) -> Result<(), Failed>
    ensures front { GivesFront (O.given output.old) (O.given output.new) result page.old page.new }
    ensures room { IsOk result → length page.new ≤ 4064 }
    ensures cause { HasCause (O.faults output.old) (O.faults output.new) result }
    ensures kin { O.kin output.old output.new }
{
    if page.len() <= FULL {
        return Ok(());
    }
    page.give(output)
}

/// Gives the callers of a history, each on its line: a filer by its number, the player as `p`.
pub fn give_order<O: Sink>(order: &Order, filers: u32, output: &mut O) -> Result<(), Failed>
    ensures given { Gives (O.given output.old) (O.given output.new) result (order_lines filers order.now) }
    ensures cause { HasCause (O.faults output.old) (O.faults output.new) result }
    ensures kin { O.kin output.old output.new }
{
    let mut page = Page::new();
    'calls: for i in 0..order.len() {
        match make_room(&mut page, output) {
            Ok(()) => put_caller(&mut page, filers, *order.get(i)),
            Err(Failed) => return Err(Failed),
        }
    }
    page.give(output)
}
