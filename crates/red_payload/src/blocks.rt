// The blocks of a payload, before their frames are judged.
ghost use Rattle.std.specs.Prelude.{◌≡◌, ◌<◌, ◌≤◌, IfOk, MatchResult, Some, None, length};
ghost use Rattle.red_payload.specs.Blocks.{blocks_of, header_fault};
ghost use Rattle.red_payload.specs.Walks.{IsSplit, blocks_left, is_older};

use crate::fault::RedFault;
use crate::walk::{Walk, length_of};
use std::marker::Model;

/// The blocks of a payload whose headers end and whose older blocks fit: all headers, and what is behind them.
#[derive(Drop)]
pub(crate) struct Blocks<'a> {
    headers: &'a [u8],
    octets: &'a [u8],
    count: u32,
}

impl<'a> Model for Blocks<'a> {
    ghost use Rattle.std.specs.Prelude.{List};
    ghost use Rattle.red_payload.specs.Blocks.{Block};
    ghost use Rattle.red_payload.specs.Walks.{IsSplit, blocks_left};

    ghost Value = { List Block };

    ghost view = { λ b. blocks_left b.headers.now b.octets.now };

    ghost invariant = { λ b. IsSplit b.headers.now b.octets.now b.count };
}

impl<'a> Blocks<'a> {
    fn of(headers: &'a [u8], octets: &'a [u8], count: u32) -> Self
        requires { IsSplit headers.now octets.now count }
        ensures { result ≡ blocks_left headers.entry.now octets.entry.now }
    {
        Blocks {
            headers,
            octets,
            count,
        }
    }

    pub(crate) fn count(&self) -> u32
        ensures count { result ≡ length self.now }
        ensures few { result ≤ 512 }
    {
        self.count
    }

    pub(crate) fn walk(&self) -> Walk<'_>
        ensures { result ≡ self.now }
    {
        Walk::of(self.headers, self.octets)
    }
}

/// Tells the headers of a payload from its octets.
pub(crate) fn split(payload: &[u8]) -> Result<Blocks<'_>, RedFault>
    requires { length payload.now < 2048 }
    ensures blocks { IfOk result (λ b. b ≡ blocks_of payload.now) }
    ensures fault { MatchResult result (λ b. header_fault payload.now ≡ None) (λ f. header_fault payload.now ≡ Some f) }
{
    let mut left = payload;
    let mut older = 0;
    let mut lengths = 0;
    while is_older(left) {
        if left.len() < 4 {
            return Err(RedFault::Header);
        }
        lengths += length_of(left);
        left = &left[4..];
        older += 1;
    }
    if left.is_empty() {
        return Err(RedFault::Header);
    }
    let octets = &left[1..];
    if octets.len() < lengths {
        return Err(RedFault::Block);
    }
    Ok(Blocks::of(payload, octets, older + 1))
}

/// The header at the front is an older block's.
fn is_older(headers: &[u8]) -> bool
    ensures { result ≡ is_older headers.now }
{
    !headers.is_empty() && headers[0] >= 128
}
