// Whether the blocks of payload type 3 have good frames.
ghost use Rattle.std.specs.Prelude.{◌≡◌, ◌≤◌, ◌<◌, ◌/◌, None, length, nat_lt};
ghost use Rattle.rtp_codec.specs.Grammar.{first_unsigned};
ghost use Rattle.red_payload.specs.Blocks.{blocks_fault, frames_fault, first_broken, speech};

use crate::blocks::Blocks;
use crate::fault::RedFault;
use crate::walk::Walk;
use rtp_codec::first_unsigned;

/// The first fault of the frames, where there is one.
pub(crate) fn blocks_fault(blocks: &Blocks<'_>) -> Option<RedFault>
    ensures { result ≡ blocks_fault blocks.now }
{
    let count = blocks.count();
    match first_broken(blocks.walk(), count) {
        Some(place) => Some(RedFault::Length(place)),
        None => frames_fault(blocks),
    }
}

/// The same where all frames are whole.
fn frames_fault(blocks: &Blocks<'_>) -> Option<RedFault>
    requires { first_broken 0 blocks.now ≡ None }
    ensures { result ≡ frames_fault (speech blocks.now) }
{
    if has_many(blocks.walk()) {
        return Some(RedFault::TooMany);
    }
    match first_unsigned_in(blocks.walk()) {
        Some(place) => Some(RedFault::Signature(place)),
        None => None,
    }
}

/// The place of the first block of frames whose length is no multiple of 33.
fn first_broken(walk: Walk<'_>, count: u32) -> Option<u16>
    requires count { count ≡ length walk }
    requires few { count ≤ 512 }
    ensures { result ≡ first_broken 0 walk.entry }
{
    let mut walk = walk;
    let mut place = 0;
    while let Some(block) = walk.next_block() {
        if block.payload_type == 3 && block.octets.len() % 33 != 0 {
            return Some(place);
        }
        place += 1;
    }
    None
}

/// Whether the blocks of frames have more than 10 frames of 33 octets.
fn has_many(walk: Walk<'_>) -> bool
    ensures { result ≡ nat_lt 330 (length (speech walk.entry)) }
{
    let mut walk = walk;
    let mut octets = 0;
    while let Some(block) = walk.next_block() {
        if block.payload_type == 3 {
            octets += block.octets.len();
        }
        if octets > 330 {
            return true;
        }
    }
    false
}

/// The place of the first frame, over all blocks of frames, whose first nibble is not 0xD.
fn first_unsigned_in(walk: Walk<'_>) -> Option<u8>
    requires whole { first_broken 0 walk ≡ None }
    requires few { length (speech walk) ≤ 330 }
    ensures { result ≡ first_unsigned 0 (length (speech walk.entry) / 33) (speech walk.entry) }
{
    let mut walk = walk;
    let mut before = 0;
    while let Some(block) = walk.next_block() {
        if block.payload_type == 3 {
            match first_unsigned(block.octets) {
                Some(place) => return Some(before + place),
                None => before += (block.octets.len() / 33) as u8,
            }
        }
    }
    None
}
