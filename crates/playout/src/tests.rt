// The machine by hand, and its sides.
ghost use Rattle.std.specs.Prelude.{◌≡◌, ◌+◌, ◌<◌, ◌^◌};

use super::*;
use frame_codec::{Frame33, Item, frame_of};
use std::test::Fail;

const START: u64 = 4294967296;

// 160 coded zeros.
const Z: [u8; 33] = [
    0xD8, 0x20, 0xA2, 0xE1, 0x5A, 0x50, 0x00, 0x49, 0x24, 0x92, 0x49, 0x24, 0x50, 0x00, 0x49, 0x24,
    0x92, 0x49, 0x24, 0x50, 0x00, 0x49, 0x24, 0x92, 0x49, 0x24, 0x50, 0x00, 0x49, 0x24, 0x92, 0x49,
    0x24,
];

// The silence frame.
const W: [u8; 33] = [
    0xDA, 0xA7, 0xAA, 0xA5, 0x1A, 0x50, 0x00, 0x47, 0x1C, 0x71, 0xC7, 0x1C, 0x50, 0x00, 0x47, 0x1C,
    0x71, 0xC7, 0x1C, 0x50, 0x00, 0x47, 0x1C, 0x71, 0xC7, 0x1C, 0x50, 0x00, 0x47, 0x1C, 0x71, 0xC7,
    0x1C,
];

#[test]
fn one_slot_takes_one_frame_a_tick(rt: HostRuntime) -> Result<(), Fail> {
    let (z, w) = (frame_of(&Z)?, frame_of(&W)?);
    let mut line = MapLine::new(rt.alloc(), 1, 0)?;
    assert_eq!(rt; line.file(0, START, &z), FileReply::Accepted);
    assert_eq!(rt;
        line.file(0, START + 1, &z),
        FileReply::Beyond { ahead: START }
    );
    assert!(rt; line.position() == START);
    assert_eq!(rt; line.tick(), Item::Frame(z));
    assert_eq!(rt;
        line.file(0, START, &z),
        FileReply::Late { ahead: START + 1 }
    );
    assert_eq!(rt; line.file(0, START + 1, &w), FileReply::Accepted);
    assert!(rt; line.position() == START + 1);
    assert_eq!(rt; line.tick(), Item::Frame(w));
    Ok(())
}

#[test]
fn a_window_has_two_bounds(rt: HostRuntime) -> Result<(), Fail> {
    let z = frame_of(&Z)?;
    let mut line = MapLine::new(rt.alloc(), 1, 6)?;
    assert_eq!(rt; line.file(0, START + 63, &z), FileReply::Accepted);
    assert_eq!(rt;
        line.file(0, START + 64, &z),
        FileReply::Beyond { ahead: 4294967296 }
    );
    assert_eq!(rt;
        line.file(0, START - 1, &z),
        FileReply::Late { ahead: 4294967359 }
    );
    assert_eq!(rt; line.file(0, START + 63, &z), FileReply::Duplicate);
    Ok(())
}

// What a filer says and files, whatever stands behind its side.
fn say_and_file<S: FilerSide>(side: &mut S, frame: &Frame33) -> (u32, u32, FileReply) {
    let held = side.source(305419896);
    let base = side.base(1000);
    (held, base, side.file(START, frame))
}

fn peek_and_play<S: PlayerSide>(side: &mut S) -> (Option<u32>, Item)
    requires { S.position side.old < 2 ^ 33 }
{
    let base = side.peek();
    (base, side.tick())
}

// What the player looks at, whether it may hold, and what it retires then.
fn look_and_retire<S: PlayerSide>(side: &mut S) -> (bool, bool, Item)
    requires slot { 1 < 2 ^ S.g side.old }
    requires position { S.position side.old < 2 ^ 33 }
{
    let ahead = side.look(1);
    let held = side.hold();
    (ahead, held, side.retire())
}

#[test]
fn sides_share_a_line(rt: HostRuntime) -> Result<(), Fail> {
    let z = frame_of(&Z)?;
    let mut line = MapLine::new(rt.alloc(), 2, 6)?;
    assert_eq!(rt; line.peek(), None);
    assert_eq!(rt; line.source(1, 7), 7);
    assert_eq!(rt; line.base(1, 2000), 2000);
    let mut filer = MapFiler::of(line, 0);
    assert_eq!(rt;
        say_and_file(&mut filer, &z),
        (7, 2000, FileReply::Accepted)
    );
    let line = filer.back();
    assert!(rt; line.position() == START);
    let mut player = MapPlayer::of(line);
    assert_eq!(rt; peek_and_play(&mut player), (Some(2000), Item::Frame(z)));
    let mut line = player.back();
    assert!(rt; line.position() == START + 1);
    assert_eq!(rt; line.tick(), Item::Erasure);
    Ok(())
}

#[test]
fn a_player_looks_holds_and_retires_by_its_side(rt: HostRuntime) -> Result<(), Fail> {
    let z = frame_of(&Z)?;
    let mut line = MapLine::new(rt.alloc(), 1, 2)?;
    assert_eq!(rt; line.file(0, START + 1, &z), FileReply::Accepted);
    let mut player = MapPlayer::of(line);
    assert_eq!(rt; look_and_retire(&mut player), (true, true, Item::Erasure));
    let mut line = player.back();
    assert!(rt; line.position() == START + 1);
    assert_eq!(rt; line.tick(), Item::Frame(z));
    Ok(())
}

// Filed and played, and then a beat that passes at the number of the next frame.
fn hold_behind_a_frame(line: &mut MapLine, frame: &Frame33) -> (FileReply, bool, Item, bool)
    requires caller { 0 < line.old.filers }
    requires position { line.old.machine.position < 2 ^ 33 }
    ensures filers { line.new.filers ≡ line.old.filers }
    ensures slots { line.new.g ≡ line.old.g }
    ensures goes_on { line.new.machine.position ≡ line.old.machine.position + 1 }
{
    let reply = line.file(0, START, frame);
    let first = line.hold();
    let item = line.tick();
    (reply, first, item, line.hold())
}

#[test]
fn a_late_frame_is_held_for(rt: HostRuntime) -> Result<(), Fail> {
    let (z, w) = (frame_of(&Z)?, frame_of(&W)?);
    let mut line = MapLine::new(rt.alloc(), 1, 2)?;
    assert_eq!(rt; line.source(0, 305419896), 305419896);
    assert_eq!(rt; line.base(0, 1000), 1000);
    assert_eq!(rt; line.peek(), Some(1000));
    assert_eq!(rt;
        hold_behind_a_frame(&mut line, &z),
        (FileReply::Accepted, false, Item::Frame(z), true)
    );
    assert_eq!(rt; line.file(0, START + 1, &w), FileReply::Accepted);
    assert!(rt; line.look(0));
    assert_eq!(rt; line.tick(), Item::Frame(w));
    assert!(rt; line.position() == START + 2);
    Ok(())
}

#[test]
fn a_lost_frame_is_retired(rt: HostRuntime) -> Result<(), Fail> {
    let (z, w) = (frame_of(&Z)?, frame_of(&W)?);
    let mut line = MapLine::new(rt.alloc(), 1, 2)?;
    assert_eq!(rt; line.source(0, 305419896), 305419896);
    assert_eq!(rt; line.base(0, 1000), 1000);
    assert_eq!(rt; line.peek(), Some(1000));
    assert_eq!(rt;
        hold_behind_a_frame(&mut line, &z),
        (FileReply::Accepted, false, Item::Frame(z), true)
    );
    assert_eq!(rt; line.file(0, START + 2, &w), FileReply::Accepted);
    assert!(rt; !line.look(0));
    assert!(rt; line.look(1));
    assert!(rt;
        line.can(&Call::LookCall {
            ahead: 1,
            filled: true
        })
    );
    assert!(rt;
        !line.can(&Call::LookCall {
            ahead: 5,
            filled: true
        })
    );
    assert_eq!(rt; line.retire(), Item::Erasure);
    assert!(rt; line.can(&Call::HoldCall { held: false }));
    assert_eq!(rt; line.tick(), Item::Frame(w));
    assert!(rt; line.position() == START + 3);
    Ok(())
}

#[test]
fn each_law_is_called() {
    ticks_play_accepted();
    retires_take_accepted();
    accepted_once();
    position_counts_moves();
    replies_are_one();
    ahead_is_least();
    replies_have_causes();
    causes_give_replies();
    causes_are_one();
    first_is_held();
    looks_tell_accepted();
}
