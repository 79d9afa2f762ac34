// A report goes out.
ghost use Rattle.std.specs.Prelude.{◌≡◌, IfSome, Option, ◌≤◌};
ghost use Rattle.gate_base.specs.Faults.{HasCause};
ghost use Rattle.rtcp_stats.specs.Writing.{FitsLost};
ghost use Rattle.filer.specs.Turns.{SendsDue, report_datagrams};

use gate_io::{Failed, Link};
use rtcp_stats::{ReportBlock, write_report};

/// Sends the report that is due, where one is, as the source `own`.
pub fn send_due<P: Link>(own: u32, due: Option<ReportBlock>, link: &mut P) -> Result<(), Failed>
    requires { IfSome due (λ b. FitsLost b.lost) }
    ensures sent { SendsDue (P.log link.old) (P.log link.new) result (report_datagrams own due) }
    ensures stays { P.ended link.new ≡ P.ended link.old }
    ensures cause { HasCause (P.faults link.old) (P.faults link.new) result }
{
    let Some(block) = due else {
        return Ok(());
    };
    let mut octets = [0; 52];
    write_report(own, &block, &mut octets);
    link.send(&octets)
}
