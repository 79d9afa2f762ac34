// Reading a redundant payload.
ghost use Rattle.std.specs.Prelude.{◌≡◌, ◌<◌, IfOk, MatchResult, Some, None, length};
ghost use Rattle.red_payload.specs.Blocks.{blocks_of, red_fault};

use crate::blocks::split;
use crate::fault::RedFault;
use crate::judging::blocks_fault;
use crate::view::RedView;

/// Reads the blocks of a redundant payload (RFC 2198 section 3), as a packet carries it, or answers the first case
/// of `RedFault` that holds. Blocks of other payload types than 3 are passed over. The octets stay in the payload.
pub fn read_red(payload: &[u8]) -> Result<RedView<'_>, RedFault>
    requires short { length payload.now < 2048 }
    ensures blocks { IfOk result (λ v. v ≡ blocks_of payload.now) }
    ensures fault { MatchResult result (λ v. red_fault payload.now ≡ None) (λ f. red_fault payload.now ≡ Some f) }
{
    let blocks = split(payload)?;
    match blocks_fault(&blocks) {
        Some(fault) => Err(fault),
        None => Ok(RedView::of(blocks)),
    }
}
