// A redundant payload that is not refused.
ghost use Rattle.std.specs.Prelude.{◌≡◌, ◌<◌, ◌≤◌, length, slice_get, Some};
ghost use Rattle.rtp_codec.specs.Packets.{IsPayload};
ghost use Rattle.red_payload.specs.Blocks.{HaveFrames, seen};

use crate::block::RedBlock;
use crate::blocks::Blocks;
use std::marker::Model;

/// The blocks of a payload in their order, the primary one last. Those of payload type 3 have at most 10 frames in
/// all. Nothing is copied: the headers are walked at each call.
#[derive(Drop)]
pub struct RedView<'a> {
    blocks: Blocks<'a>,
}

impl<'a> Model for RedView<'a> {
    ghost use Rattle.std.specs.Prelude.{List};
    ghost use Rattle.red_payload.specs.Blocks.{Block, HaveFrames};

    ghost Value = { List Block };

    ghost view = { λ v. v.blocks };

    ghost invariant = { λ v. HaveFrames v.blocks };
}

impl<'a> RedView<'a> {
    pub(crate) fn of(blocks: Blocks<'a>) -> Self
        requires { HaveFrames blocks }
        ensures { result ≡ blocks.entry }
    {
        RedView { blocks }
    }

    /// How many blocks there are: 1 to 512.
    pub fn count(&self) -> u32
        ensures count { result ≡ length self.now }
        ensures few { result ≤ 512 }
        ensures frames { HaveFrames self.now }
    {
        self.blocks.count()
    }

    /// The block at a place, counted from 0. One of payload type 3 has whole frames, each with its signature, and
    /// may be empty.
    pub fn block(&self, i: u32) -> RedBlock<'_>
        requires { i < length self.now }
        ensures block { slice_get self.now i ≡ Some (seen result) }
        ensures frames { result.payload_type ≡ 3 → IsPayload result.octets.now }
    {
        let mut walk = self.blocks.walk();
        for _ in 0..i {
            walk.next_block();
        }
        walk.next_block().unwrap()
    }
}
