// Walking over the blocks of a payload.
ghost use Rattle.std.specs.Prelude.{◌≡◌, ◌∷◌, [], IfNone, IfSome, length, ◌≤◌, ◌%◌};
ghost use Rattle.red_payload.specs.Blocks.{older_of, seen};
ghost use Rattle.red_payload.specs.Walks.{AreLeft, blocks_left};

use crate::block::RedBlock;
use byteorder::{BigEndian, ByteOrder};
use std::marker::Model;

/// The blocks that are left: the rest of the headers, and the rest of what is behind them.
#[derive(Drop)]
pub(crate) struct Walk<'a> {
    headers: &'a [u8],
    octets: &'a [u8],
}

impl<'a> Model for Walk<'a> {
    ghost use Rattle.std.specs.Prelude.{List};
    ghost use Rattle.red_payload.specs.Blocks.{Block};
    ghost use Rattle.red_payload.specs.Walks.{AreLeft, blocks_left};

    ghost Value = { List Block };

    ghost view = { λ w. blocks_left w.headers.now w.octets.now };

    ghost invariant = { λ w. AreLeft w.headers.now w.octets.now };
}

impl<'a> Walk<'a> {
    pub(crate) fn of(headers: &'a [u8], octets: &'a [u8]) -> Self
        requires { AreLeft headers.now octets.now }
        ensures { result ≡ blocks_left headers.entry.now octets.entry.now }
    {
        Walk { headers, octets }
    }

    /// The next block, where one is left.
    pub(crate) fn next_block(&mut self) -> Option<RedBlock<'a>>
        ensures ended { IfNone result (self.old ≡ []) }
        ensures next { IfSome result (λ b. self.old ≡ seen b ∷ self.new) }
    {
        if self.headers.is_empty() {
            return None;
        }
        let payload_type = self.headers[0] % 128;
        if self.headers[0] < 128 {
            self.headers = &self.headers[..0];
            return Some(RedBlock {
                payload_type,
                offset: 0,
                octets: self.octets,
            });
        }
        let offset = offset_of(self.headers);
        let (octets, behind) = self.octets.split_at(length_of(self.headers));
        self.headers = &self.headers[4..];
        self.octets = behind;
        Some(RedBlock {
            payload_type,
            offset,
            octets,
        })
    }
}

/// How much the timestamp of the older block at the front is below the packet's.
fn offset_of(headers: &[u8]) -> u32
    requires { 4 ≤ length headers.now }
    ensures { result ≡ (older_of headers.now).offset }
{
    BigEndian::read_u24(&headers[1..]) / 1024
}

/// How many octets the older block at the front has.
pub(crate) fn length_of(headers: &[u8]) -> usize
    requires { 4 ≤ length headers.now }
    ensures size { result ≡ (older_of headers.now).size }
    ensures few { result ≤ 1023 }
{
    (BigEndian::read_u24(&headers[1..]) % 1024) as usize
}
