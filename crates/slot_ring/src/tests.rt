// The ring by hand.
ghost use Rattle.std.specs.Prelude.{◌≡◌, ◌<◌, ◌≤◌, ◌+◌, ◌^◌, [], IfOk};
ghost use Rattle.slot_ring.specs.Seen.{position_in};

use super::*;
use frame_codec::{Frame33, Item, frame_of};
use playout::{FileReply, FilerSide, PlayerSide};
use std::alloc::Global;
use std::marker::Brand;
use std::sync::ledger;
use std::sync::ledger::Ledger;
use std::test::Fail;

pub(crate) const START: u64 = 4294967296;

// 160 coded zeros.
pub(crate) const Z: [u8; 33] = [
    0xD8, 0x20, 0xA2, 0xE1, 0x5A, 0x50, 0x00, 0x49, 0x24, 0x92, 0x49, 0x24, 0x50, 0x00, 0x49, 0x24,
    0x92, 0x49, 0x24, 0x50, 0x00, 0x49, 0x24, 0x92, 0x49, 0x24, 0x50, 0x00, 0x49, 0x24, 0x92, 0x49,
    0x24,
];

// The silence frame.
const W: [u8; 33] = [
    0xDA, 0xA7, 0xAA, 0xA5, 0x1A, 0x50, 0x00, 0x47, 0x1C, 0x71, 0xC7, 0x1C, 0x50, 0x00, 0x47, 0x1C,
    0x71, 0xC7, 0x1C, 0x50, 0x00, 0x47, 0x1C, 0x71, 0xC7, 0x1C, 0x50, 0x00, 0x47, 0x1C, 0x71, 0xC7,
    0x1C,
];

// A ring of two filers with four slots, all enlisted, and the blank that is left.
#[derive(Drop)]
struct Opened {
    ring: SlotRing,
    one: FilerPass,
    two: FilerPass,
    player: PlayerPass,
    blank: Blank,
}

fn open<L: Ledger>(alloc: Global, steps: &mut Steps<L>) -> Result<Opened, OutOfMemory>
    ensures shape { IfOk result (λ o. (o.ring.shape.filers ≡ 2) × (o.ring.shape.g ≡ 2)) }
    ensures rings { IfOk result (λ o. (o.one.ring ≡ o.ring) × (o.two.ring ≡ o.ring) × (o.player.ring ≡ o.ring) × (o.blank.ring ≡ o.ring)) }
    ensures who { IfOk result (λ o. (o.one.who ≡ 0) × (o.two.who ≡ 1) × (o.player.who ≡ 2)) }
    ensures list { IfOk result (λ o. o.player.list ≡ []) }
{
    let (ring, mut blank) = SlotRing::new(alloc, 2, 2)?;
    let first = ring.split(&mut blank, 0, steps);
    let second = ring.split(&mut blank, 1, steps);
    let third = ring.split(&mut blank, 2, steps);
    let one = ring.enlist_filer(first, 0, steps);
    let two = ring.enlist_filer(second, 1, steps);
    let player = ring.enlist_player(third, steps);
    Ok(Opened {
        ring,
        one,
        two,
        player,
        blank,
    })
}

// All leave, are gathered, and the ring is closed.
fn end<L: Ledger>(opened: Opened, steps: &mut Steps<L>) -> Left
    requires shape { opened.ring.shape.filers ≡ 2 }
    requires rings { (opened.one.ring ≡ opened.ring) × (opened.two.ring ≡ opened.ring) × (opened.player.ring ≡ opened.ring) × (opened.blank.ring ≡ opened.ring) }
    requires who { (opened.one.who ≡ 0) × (opened.two.who ≡ 1) × (opened.player.who ≡ 2) }
{
    let Opened {
        ring,
        one,
        two,
        player,
        blank,
    } = opened;
    let mut gather = ring.gathering(blank);
    let first = ring.leave_filer(one, steps);
    ring.gather(&mut gather, first, steps);
    let second = ring.leave_filer(two, steps);
    ring.gather(&mut gather, second, steps);
    let third = ring.leave_player(player, steps);
    ring.gather(&mut gather, third, steps);
    ring.close(gather)
}

// What a story of two filers and a player comes to.
#[derive(Drop)]
struct Story {
    replies: [FileReply; 5],
    item: Item,
    left: Left,
}

// The first filer's frame is taken and played; the second one's comes too often, too early, too late and in time.
fn two_filers<L: Ledger>(
    alloc: Global,
    counted: ledger::Blank,
    z: &Frame33,
    w: &Frame33,
) -> Result<Story, OutOfMemory>
    requires name { counted.name ≡ L.name }
    requires parts { (counted.parts ≡ L.parts) × (counted.parts ≡ 1) }
{
    let mut steps = Steps::<L>::open(counted);
    let Opened {
        ring,
        mut one,
        mut two,
        mut player,
        blank,
    } = open(alloc, &mut steps)?;
    let accepted = ring.file(&mut one, START, z, &mut steps);
    let note = ring.note_filer(&mut one, &mut steps);
    ring.learn_player(&mut player, note, &mut steps);
    let duplicate = ring.file(&mut two, START, w, &mut steps);
    let beyond = ring.file(&mut two, START + 4, w, &mut steps);
    let item = ring.tick(&mut player, &mut steps);
    let late = ring.file(&mut two, START, w, &mut steps);
    let next = ring.file(&mut two, START + 1, w, &mut steps);
    let opened = Opened {
        ring,
        one,
        two,
        player,
        blank,
    };
    Ok(Story {
        replies: [accepted, duplicate, beyond, late, next],
        item,
        left: end(opened, &mut steps),
    })
}

#[test]
fn two_filers_share_a_slot(rt: HostRuntime) -> Result<(), Fail> {
    let (z, w) = (frame_of(&Z)?, frame_of(&W)?);
    let story = two_filers::<Brand>(rt.alloc(), ledger::Blank::new(1), &z, &w)?;
    let Story {
        replies,
        item,
        left,
    } = story;
    let [accepted, duplicate, beyond, late, next] = replies;
    assert_eq!(rt; accepted, FileReply::Accepted);
    assert_eq!(rt; duplicate, FileReply::Duplicate);
    assert_eq!(rt; beyond, FileReply::Beyond { ahead: 4294967296 });
    assert_eq!(rt; item, Item::Frame(z));
    assert_eq!(rt; late, FileReply::Late { ahead: 4294967300 });
    assert_eq!(rt; next, FileReply::Accepted);
    assert!(rt; left.len() == 1);
    assert_eq!(rt; left.get(0), Some((START + 1, w)));
    assert_eq!(rt; left.get(1), None);
    Ok(())
}

// What a filer says and files, whatever stands behind its side.
fn say_and_file<S: FilerSide>(side: &mut S, frame: &Frame33) -> (u32, u32, FileReply) {
    let held = side.source(305419896);
    let base = side.base(1000);
    (held, base, side.file(START, frame))
}

// What a player sees and plays, and what it leaves unplayed, whatever stands behind its side.
fn look_and_play<S: PlayerSide>(side: &mut S) -> (Option<u32>, [bool; 2], [Item; 2])
    requires slot { 1 < 2 ^ S.g side.old }
    requires position { S.position side.old + 1 < 2 ^ 33 }
{
    let base = side.peek();
    let ahead = side.look(1);
    let held = side.hold();
    let played = side.tick();
    (base, [ahead, held], [played, side.retire()])
}

fn filer_side<L: Ledger>(
    ring: &SlotRing,
    pass: FilerPass,
    counted: ledger::Blank,
    frame: &Frame33,
) -> (u32, u32, FileReply)
    requires ring { pass.ring ≡ ring.now }
    requires name { counted.name ≡ L.name }
    requires parts { (counted.parts ≡ L.parts) × (counted.parts ≡ 1) }
{
    let mut side = RingFiler::new(ring, pass, Steps::<L>::open(counted));
    let said = say_and_file(&mut side, frame);
    drop(side.into_pass());
    said
}

fn player_side<L: Ledger>(
    ring: &SlotRing,
    pass: PlayerPass,
    counted: ledger::Blank,
) -> (Option<u32>, [bool; 2], [Item; 2])
    requires ring { pass.ring ≡ ring.now }
    requires slots { ring.now.shape.g ≡ 2 }
    requires below { position_in pass + 1 < 2 ^ 33 }
    requires name { counted.name ≡ L.name }
    requires parts { (counted.parts ≡ L.parts) × (counted.parts ≡ 1) }
{
    let mut side = RingPlayer::new(ring, pass, Steps::<L>::open(counted));
    let played = look_and_play(&mut side);
    drop(side.into_pass());
    played
}

fn open_counted<L: Ledger>(alloc: Global, counted: ledger::Blank) -> Result<Opened, OutOfMemory>
    requires name { counted.name ≡ L.name }
    requires parts { (counted.parts ≡ L.parts) × (counted.parts ≡ 1) }
    ensures rings { IfOk result (λ o. (o.one.ring ≡ o.ring) × (o.player.ring ≡ o.ring) × (o.player.list ≡ []) × (o.ring.shape.g ≡ 2)) }
{
    let mut steps = Steps::<L>::open(counted);
    open(alloc, &mut steps)
}

#[test]
fn sides_share_a_ring(rt: HostRuntime) -> Result<(), Fail> {
    let z = frame_of(&Z)?;
    let Opened {
        ring,
        one,
        two: _,
        player,
        blank: _,
    } = open_counted::<Brand>(rt.alloc(), ledger::Blank::new(1))?;
    let said = filer_side::<Brand>(&ring, one, ledger::Blank::new(1), &z);
    assert_eq!(rt; said, (305419896, 1000, FileReply::Accepted));
    let played = player_side::<Brand>(&ring, player, ledger::Blank::new(1));
    assert_eq!(rt;
        played,
        (Some(1000), [false, false], [Item::Frame(z), Item::Erasure])
    );
    Ok(())
}

// What the player found, took and left unplayed, the number that it came to, and what was left.
#[derive(Drop)]
struct Waits {
    found: [bool; 4],
    items: [Item; 3],
    position: u64,
    left: Left,
}

// A frame is played, and a beat passes at the next number, whose frame comes late and is played then. The third is there in time, and
// the player leaves it unplayed.
fn late_frames<L: Ledger>(
    alloc: Global,
    counted: ledger::Blank,
    z: &Frame33,
    w: &Frame33,
) -> Result<Waits, OutOfMemory>
    requires name { counted.name ≡ L.name }
    requires parts { (counted.parts ≡ L.parts) × (counted.parts ≡ 1) }
{
    let mut steps = Steps::<L>::open(counted);
    let Opened {
        ring,
        mut one,
        two,
        mut player,
        blank,
    } = open(alloc, &mut steps)?;
    ring.file(&mut one, START, z, &mut steps);
    let first = ring.hold(&mut player, &mut steps);
    let played = ring.tick(&mut player, &mut steps);
    let held = ring.hold(&mut player, &mut steps);
    ring.file(&mut one, START + 1, w, &mut steps);
    let found = ring.look(&mut player, 0, &mut steps);
    let late = ring.tick(&mut player, &mut steps);
    ring.file(&mut one, START + 2, z, &mut steps);
    let there = ring.hold(&mut player, &mut steps);
    let unplayed = ring.retire(&mut player, &mut steps);
    let position = player.position();
    let opened = Opened {
        ring,
        one,
        two,
        player,
        blank,
    };
    Ok(Waits {
        found: [first, held, found, there],
        items: [played, late, unplayed],
        position,
        left: end(opened, &mut steps),
    })
}

#[test]
fn a_late_frame_is_held_for(rt: HostRuntime) -> Result<(), Fail> {
    let (z, w) = (frame_of(&Z)?, frame_of(&W)?);
    let waits = late_frames::<Brand>(rt.alloc(), ledger::Blank::new(1), &z, &w)?;
    assert_eq!(rt; waits.found, [false, true, true, false]);
    assert_eq!(rt;
        waits.items,
        [Item::Frame(z), Item::Frame(w), Item::Frame(z)]
    );
    assert!(rt; waits.position == START + 3);
    assert!(rt; waits.left.len() == 0);
    Ok(())
}

// A frame is played, and the next one is lost: once the one after it is there, the player retires the lost one. A frame is left.
fn lost_frame<L: Ledger>(
    alloc: Global,
    counted: ledger::Blank,
    z: &Frame33,
    w: &Frame33,
) -> Result<Waits, OutOfMemory>
    requires name { counted.name ≡ L.name }
    requires parts { (counted.parts ≡ L.parts) × (counted.parts ≡ 1) }
{
    let mut steps = Steps::<L>::open(counted);
    let Opened {
        ring,
        mut one,
        two,
        mut player,
        blank,
    } = open(alloc, &mut steps)?;
    ring.file(&mut one, START, z, &mut steps);
    let first = ring.tick(&mut player, &mut steps);
    let held = ring.hold(&mut player, &mut steps);
    ring.file(&mut one, START + 2, w, &mut steps);
    let here = ring.look(&mut player, 0, &mut steps);
    let next = ring.look(&mut player, 1, &mut steps);
    let retired = ring.retire(&mut player, &mut steps);
    let free = ring.hold(&mut player, &mut steps);
    let played = ring.tick(&mut player, &mut steps);
    ring.file(&mut one, START + 6, z, &mut steps);
    let position = player.position();
    let opened = Opened {
        ring,
        one,
        two,
        player,
        blank,
    };
    Ok(Waits {
        found: [held, here, next, free],
        items: [first, retired, played],
        position,
        left: end(opened, &mut steps),
    })
}

#[test]
fn a_lost_frame_is_retired(rt: HostRuntime) -> Result<(), Fail> {
    let (z, w) = (frame_of(&Z)?, frame_of(&W)?);
    let waits = lost_frame::<Brand>(rt.alloc(), ledger::Blank::new(1), &z, &w)?;
    assert_eq!(rt; waits.found, [true, false, true, false]);
    assert_eq!(rt;
        waits.items,
        [Item::Frame(z), Item::Erasure, Item::Frame(w)]
    );
    assert!(rt; waits.position == START + 3);
    assert_eq!(rt; waits.left.get(0), Some((START + 6, z)));
    assert!(rt; waits.left.len() == 1);
    Ok(())
}
