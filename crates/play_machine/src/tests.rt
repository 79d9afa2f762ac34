// Interleavings by hand.
use super::*;
use frame_codec::{Item, frame_of};
use std::test::Fail;

const START: u64 = 4294967296;

// 160 coded zeros.
const Z: [u8; 33] = [
    0xD8, 0x20, 0xA2, 0xE1, 0x5A, 0x50, 0x00, 0x49, 0x24, 0x92, 0x49, 0x24, 0x50, 0x00, 0x49, 0x24,
    0x92, 0x49, 0x24, 0x50, 0x00, 0x49, 0x24, 0x92, 0x49, 0x24, 0x50, 0x00, 0x49, 0x24, 0x92, 0x49,
    0x24,
];

// The silence frame.
const W: [u8; 33] = [
    0xDA, 0xA7, 0xAA, 0xA5, 0x1A, 0x50, 0x00, 0x47, 0x1C, 0x71, 0xC7, 0x1C, 0x50, 0x00, 0x47, 0x1C,
    0x71, 0xC7, 0x1C, 0x50, 0x00, 0x47, 0x1C, 0x71, 0xC7, 0x1C, 0x50, 0x00, 0x47, 0x1C, 0x71, 0xC7,
    0x1C,
];

// Two filers share a ring of four slots. The second finds the first one's frame there, which is played.
#[test]
fn an_interleaving_has_one_history(rt: HostRuntime) -> Result<(), Fail> {
    let (z, w) = (frame_of(&Z)?, frame_of(&W)?);
    let (number, next) = (START, START + 1);
    let events = [
        CoreEvent::Split { seat: 0, right: 0 },
        CoreEvent::Split { seat: 0, right: 1 },
        CoreEvent::Split { seat: 0, right: 2 },
        CoreEvent::Enlist { seat: 1, berth: 0 },
        CoreEvent::Enlist { seat: 2, berth: 1 },
        CoreEvent::Enlist { seat: 3, berth: 2 },
        CoreEvent::Load {
            seat: 1,
            number,
            frame: z,
        },
        CoreEvent::Tick { seat: 1 },
        CoreEvent::Publish { seat: 1 },
        CoreEvent::Split { seat: 1, right: 0 },
        CoreEvent::Learn { seat: 3, note: 4 },
        CoreEvent::Load {
            seat: 2,
            number,
            frame: w,
        },
        CoreEvent::Tick { seat: 3 },
        CoreEvent::Load {
            seat: 2,
            number,
            frame: w,
        },
        CoreEvent::Load {
            seat: 2,
            number: next,
            frame: w,
        },
        CoreEvent::Publish { seat: 2 },
        CoreEvent::Leave { seat: 1 },
        CoreEvent::Gather { seat: 0, other: 1 },
        CoreEvent::Gather { seat: 0, other: 1 },
    ];
    let events = events.to_vec(rt.alloc())?;
    let state = core_run(rt.alloc(), 2, 2, &events)?;
    let filed = |number, frame, reply| Call::FileCall {
        number,
        frame,
        reply,
    };
    let first = [filed(number, z, FileReply::Accepted)];
    let second = [
        filed(number, w, FileReply::Duplicate),
        filed(number, w, FileReply::Late { ahead: 4294967300 }),
        filed(next, w, FileReply::Accepted),
    ];
    let played = [Call::TickCall {
        item: Item::Frame(z),
    }];
    assert!(rt; state.calls(0) == first.as_slice());
    assert!(rt; state.calls(1) == second.as_slice());
    assert!(rt; state.calls(2) == played.as_slice());
    assert!(rt; state.calls(3).is_empty());
    Ok(())
}

// Each outcome of a filing that another step comes between, and what is held.
#[test]
fn an_interleaving_has_each_outcome(rt: HostRuntime) -> Result<(), Fail> {
    let (z, w) = (frame_of(&Z)?, frame_of(&W)?);
    let load = |seat, number, frame| CoreEvent::Load {
        seat,
        number,
        frame,
    };
    let events = [
        CoreEvent::Split { seat: 0, right: 0 },
        CoreEvent::Split { seat: 0, right: 1 },
        CoreEvent::Enlist { seat: 1, berth: 0 },
        CoreEvent::Enlist { seat: 2, berth: 1 },
        CoreEvent::Enlist { seat: 0, berth: 2 },
        CoreEvent::Source { seat: 1, ssrc: 7 },
        CoreEvent::Source { seat: 2, ssrc: 8 },
        CoreEvent::Peek { seat: 0 },
        CoreEvent::Base { seat: 1, ts: 100 },
        CoreEvent::Base { seat: 2, ts: 200 },
        CoreEvent::Peek { seat: 0 },
        load(1, START, z),
        load(2, START, w),
        CoreEvent::Publish { seat: 1 },
        CoreEvent::Publish { seat: 2 },
        load(1, START + 1, z),
        CoreEvent::Tick { seat: 0 },
        CoreEvent::Tick { seat: 0 },
        CoreEvent::Publish { seat: 1 },
        load(2, START + 9, w),
    ];
    let events = events.to_vec(rt.alloc())?;
    let state = core_run(rt.alloc(), 2, 2, &events)?;
    let filed = |number, frame, reply| Call::FileCall {
        number,
        frame,
        reply,
    };
    let first = [
        Call::SourceCall { ssrc: 7, held: 7 },
        Call::BaseCall { ts: 100, held: 100 },
        filed(START, z, FileReply::Accepted),
        filed(START + 1, z, FileReply::Late { ahead: START + 5 }),
    ];
    let second = [
        Call::SourceCall { ssrc: 8, held: 7 },
        Call::BaseCall { ts: 200, held: 100 },
        filed(START, w, FileReply::Duplicate),
        filed(START + 9, w, FileReply::Beyond { ahead: START + 5 }),
    ];
    let played = [
        Call::PeekCall { held: None },
        Call::PeekCall { held: Some(100) },
        Call::TickCall {
            item: Item::Frame(z),
        },
        Call::TickCall {
            item: Item::Erasure,
        },
    ];
    assert!(rt; state.calls(0) == first.as_slice());
    assert!(rt; state.calls(1) == second.as_slice());
    assert!(rt; state.calls(2) == played.as_slice());
    Ok(())
}

// Steps that a pool and a filer that is not in flight are not allowed, before one that is.
#[test]
fn a_pool_and_a_filer_are_not_allowed_all(rt: HostRuntime) -> Result<(), Fail> {
    let frame = frame_of(&Z)?;
    let events = [
        CoreEvent::Split { seat: 0, right: 0 },
        CoreEvent::Split { seat: 0, right: 0 },
        CoreEvent::Enlist { seat: 0, berth: 0 },
        CoreEvent::Load {
            seat: 0,
            number: START,
            frame,
        },
        CoreEvent::Publish { seat: 0 },
        CoreEvent::Tick { seat: 0 },
        CoreEvent::Source { seat: 0, ssrc: 1 },
        CoreEvent::Base { seat: 0, ts: 1 },
        CoreEvent::Peek { seat: 0 },
        CoreEvent::Leave { seat: 0 },
        CoreEvent::Learn { seat: 0, note: 1 },
        CoreEvent::Gather { seat: 0, other: 1 },
        CoreEvent::Enlist { seat: 1, berth: 0 },
        CoreEvent::Publish { seat: 1 },
        CoreEvent::Peek { seat: 1 },
        CoreEvent::Learn { seat: 1, note: 0 },
        CoreEvent::Learn { seat: 1, note: 1 },
        CoreEvent::Gather { seat: 1, other: 0 },
        CoreEvent::Source { seat: 1, ssrc: 7 },
    ];
    let events = events.to_vec(rt.alloc())?;
    let state = core_run(rt.alloc(), 1, 2, &events)?;
    let said = [Call::SourceCall { ssrc: 7, held: 7 }];
    assert!(rt; state.calls(0) == said.as_slice());
    assert!(rt; state.calls(1).is_empty());
    Ok(())
}

// Steps that a filer in flight and the player are not allowed, before those that are.
#[test]
fn a_filer_in_flight_and_the_player_are_not_allowed_all(rt: HostRuntime) -> Result<(), Fail> {
    let frame = frame_of(&Z)?;
    let load = |seat| CoreEvent::Load {
        seat,
        number: START,
        frame,
    };
    let events = [
        CoreEvent::Split { seat: 0, right: 0 },
        CoreEvent::Enlist { seat: 1, berth: 0 },
        load(1),
        load(1),
        CoreEvent::Source { seat: 1, ssrc: 1 },
        CoreEvent::Base { seat: 1, ts: 1 },
        CoreEvent::Split { seat: 1, right: 0 },
        CoreEvent::Leave { seat: 1 },
        CoreEvent::Publish { seat: 1 },
        CoreEvent::Enlist { seat: 0, berth: 1 },
        load(0),
        CoreEvent::Publish { seat: 0 },
        CoreEvent::Source { seat: 0, ssrc: 1 },
        CoreEvent::Base { seat: 0, ts: 1 },
        CoreEvent::Tick { seat: 9 },
        CoreEvent::Peek { seat: 0 },
    ];
    let events = events.to_vec(rt.alloc())?;
    let state = core_run(rt.alloc(), 1, 2, &events)?;
    let filed = [Call::FileCall {
        number: START,
        frame,
        reply: FileReply::Accepted,
    }];
    assert!(rt; state.calls(0) == filed.as_slice());
    assert!(rt; state.calls(1) == [Call::PeekCall { held: None }].as_slice());
    Ok(())
}

// Two filers share a slot, with the steps that the ring on atomics takes in its test of that name.
#[test]
fn two_filers_share_a_slot(rt: HostRuntime) -> Result<(), Fail> {
    let (z, w) = (frame_of(&Z)?, frame_of(&W)?);
    let load = |seat, number, frame| CoreEvent::Load {
        seat,
        number,
        frame,
    };
    let events = [
        CoreEvent::Split { seat: 0, right: 0 },
        CoreEvent::Split { seat: 0, right: 1 },
        CoreEvent::Split { seat: 0, right: 2 },
        CoreEvent::Enlist { seat: 1, berth: 0 },
        CoreEvent::Enlist { seat: 2, berth: 1 },
        CoreEvent::Enlist { seat: 3, berth: 2 },
        load(1, START, z),
        CoreEvent::Publish { seat: 1 },
        CoreEvent::Split { seat: 1, right: 0 },
        CoreEvent::Learn { seat: 3, note: 4 },
        load(2, START, w),
        load(2, START + 4, w),
        CoreEvent::Tick { seat: 3 },
        load(2, START, w),
        load(2, START + 1, w),
        CoreEvent::Publish { seat: 2 },
    ];
    let events = events.to_vec(rt.alloc())?;
    let state = core_run(rt.alloc(), 2, 2, &events)?;
    let filed = |number, frame, reply| Call::FileCall {
        number,
        frame,
        reply,
    };
    let first = [filed(START, z, FileReply::Accepted)];
    let second = [
        filed(START, w, FileReply::Duplicate),
        filed(START + 4, w, FileReply::Beyond { ahead: 4294967296 }),
        filed(START, w, FileReply::Late { ahead: 4294967300 }),
        filed(START + 1, w, FileReply::Accepted),
    ];
    let played = [Call::TickCall {
        item: Item::Frame(z),
    }];
    assert!(rt; state.calls(0) == first.as_slice());
    assert!(rt; state.calls(1) == second.as_slice());
    assert!(rt; state.calls(2) == played.as_slice());
    Ok(())
}

// A beat passes at a number that is lost, which the player retires once the next one is there.
#[test]
fn a_player_holds_looks_and_retires(rt: HostRuntime) -> Result<(), Fail> {
    let (z, w) = (frame_of(&Z)?, frame_of(&W)?);
    let load = |number, frame| CoreEvent::Load {
        seat: 1,
        number,
        frame,
    };
    let events = [
        CoreEvent::Split { seat: 0, right: 0 },
        CoreEvent::Look { seat: 0, ahead: 0 },
        CoreEvent::Enlist { seat: 1, berth: 0 },
        CoreEvent::Enlist { seat: 0, berth: 1 },
        CoreEvent::Hold { seat: 1 },
        CoreEvent::Retire { seat: 1 },
        CoreEvent::Hold { seat: 0 },
        load(START + 1, z),
        CoreEvent::Look { seat: 0, ahead: 1 },
        CoreEvent::Publish { seat: 1 },
        CoreEvent::Look { seat: 0, ahead: 1 },
        CoreEvent::Look { seat: 0, ahead: 2 },
        CoreEvent::Look { seat: 0, ahead: 0 },
        CoreEvent::Retire { seat: 0 },
        CoreEvent::Hold { seat: 0 },
        CoreEvent::Retire { seat: 0 },
        load(START + 1, w),
    ];
    let events = events.to_vec(rt.alloc())?;
    let state = core_run(rt.alloc(), 1, 1, &events)?;
    let look = |ahead, filled| Call::LookCall { ahead, filled };
    let filed = |frame, reply| Call::FileCall {
        number: START + 1,
        frame,
        reply,
    };
    let files = [
        filed(z, FileReply::Accepted),
        filed(w, FileReply::Late { ahead: START + 3 }),
    ];
    let asked = [
        Call::HoldCall { held: true },
        look(1, false),
        look(1, true),
        look(0, false),
        Call::RetireCall {
            item: Item::Erasure,
        },
        Call::HoldCall { held: false },
        Call::RetireCall {
            item: Item::Frame(z),
        },
    ];
    assert!(rt; state.calls(0) == files.as_slice());
    assert!(rt; state.calls(1) == asked.as_slice());
    Ok(())
}
