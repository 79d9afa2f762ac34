// A whole piece from a source.
ghost use Rattle.std.specs.Prelude.{length, OnErr};
ghost use Rattle.std.specs.Io.{ReadsAtMost};
ghost use Rattle.gate_base.specs.Faults.{HasCause};
ghost use Rattle.gate_io.specs.Flow.{ConsumesFewer, Fills};

use crate::failed::Failed;
use crate::source::Source;

/// Takes until the piece is full or nothing is left, and answers how many octets came.
///
/// A call that fails has taken fewer octets than the piece has, which are lost.
pub fn fill<I: Source>(source: &mut I, into: &mut [u8]) -> Result<usize, Failed>
    ensures within { ReadsAtMost result into.new }
    ensures filled { Fills (I.left source.old) (I.left source.new) result into.new }
    ensures part { OnErr result (ConsumesFewer (length into.old) (I.left source.old) (I.left source.new)) }
    ensures cause { HasCause (I.faults source.old) (I.faults source.new) result }
{
    let mut count = 0;
    while count < into.len() {
        let more = source.take(&mut into[count..])?;
        if more == 0 {
            return Ok(count);
        }
        count += more;
    }
    Ok(count)
}
