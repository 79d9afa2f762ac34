use super::*;
use frame_codec::frame_of;
use gate_io::{MemoryClock, MemoryLink, MemorySink, MemorySource};
use playout::{MapLine, MapPlayer};
use std::alloc::Global;
use std::test::Fail;

// Two beats of a player of silence: the first before any packet came, the second with the base 1000. Each object
// fails at the calls that are listed.
fn two_beats(
    alloc: Global,
    speaker: &mut MemorySink,
    journal: &mut MemorySink,
    mic_fails: &[u64],
    reply_fails: &[u64],
) -> Result<([Beat; 2], PlayTally, usize), Fail> {
    let mut microphone = MemorySource::new(alloc, &[0; 640], 320, mic_fails)?;
    let mut reply = MemoryLink::new(alloc, Vec::new(alloc), reply_fails, 4)?;
    let mut player = Player::new([0; 32], 1, 0, 0, 2, 0);
    let mut side = MapPlayer::of(MapLine::new(alloc, 1, 6)?);
    let first = player.beat(&mut side, speaker, journal, &mut microphone, &mut reply);
    let mut line = side.back();
    let _held = line.base(0, 1000);
    let mut side = MapPlayer::of(line);
    let second = player.beat(&mut side, speaker, journal, &mut microphone, &mut reply);
    Ok(([first, second], player.tally(), reply.sent_count()))
}

#[test]
fn an_idle_beat_and_then_a_base_and_a_tick(rt: HostRuntime) -> Result<(), Fail> {
    let mut speaker = MemorySink::new(rt.alloc(), 1000, &[])?;
    let mut journal = MemorySink::new(rt.alloc(), 100, &[])?;
    let (beats, tally, sent) = two_beats(rt.alloc(), &mut speaker, &mut journal, &[], &[])?;
    assert_eq!(rt; beats, [Beat::Played, Beat::Played]);
    assert_eq!(rt; speaker.octets().len(), 640);
    assert!(rt; speaker.octets().starts_with(&[0; 320]));
    assert!(rt; journal.octets() == b"\x10\x11\0\0\x03\xE8\x12".as_slice());
    assert_eq!(rt;
        tally,
        PlayTally {
            ticks: 1,
            frames: 0,
            erasures: 1,
            idle: 1,
            held: 0,
            retired: 0
        }
    );
    assert_eq!(rt; sent, 2);
    Ok(())
}

#[test]
fn a_speaker_that_fails_leaves_the_journal(rt: HostRuntime) -> Result<(), Fail> {
    let mut speaker = MemorySink::new(rt.alloc(), 1000, &[(1, 7)])?;
    let mut journal = MemorySink::new(rt.alloc(), 100, &[])?;
    let (beats, tally, sent) = two_beats(rt.alloc(), &mut speaker, &mut journal, &[], &[])?;
    assert_eq!(rt; beats, [Beat::Played, Beat::SpeakerFault]);
    assert_eq!(rt; speaker.octets().len(), 327);
    assert!(rt; journal.octets() == b"\x10".as_slice());
    assert_eq!(rt;
        tally,
        PlayTally {
            ticks: 1,
            frames: 0,
            erasures: 1,
            idle: 1,
            held: 0,
            retired: 0
        }
    );
    assert_eq!(rt; sent, 1);
    Ok(())
}

#[test]
fn a_journal_that_fails_leaves_the_microphone(rt: HostRuntime) -> Result<(), Fail> {
    let mut speaker = MemorySink::new(rt.alloc(), 1000, &[])?;
    let mut journal = MemorySink::new(rt.alloc(), 100, &[(1, 2)])?;
    let (beats, _, sent) = two_beats(rt.alloc(), &mut speaker, &mut journal, &[], &[])?;
    assert_eq!(rt; beats, [Beat::Played, Beat::JournalFault]);
    assert_eq!(rt; speaker.octets().len(), 640);
    assert!(rt; journal.octets() == b"\x10\x11\0".as_slice());
    assert_eq!(rt; sent, 1);
    Ok(())
}

#[test]
fn a_microphone_or_a_reply_link_that_fails_ends_a_beat(rt: HostRuntime) -> Result<(), Fail> {
    let mut speaker = MemorySink::new(rt.alloc(), 2000, &[])?;
    let mut journal = MemorySink::new(rt.alloc(), 100, &[])?;
    let (beats, _, sent) = two_beats(rt.alloc(), &mut speaker, &mut journal, &[1], &[])?;
    assert_eq!(rt; beats, [Beat::Played, Beat::MicFault]);
    assert_eq!(rt; sent, 1);
    let (beats, _, sent) = two_beats(rt.alloc(), &mut speaker, &mut journal, &[], &[0])?;
    assert_eq!(rt; beats, [Beat::ReplyFault, Beat::Played]);
    assert_eq!(rt; sent, 1);
    assert_eq!(rt; speaker.octets().len(), 1280);
    assert_eq!(rt; journal.octets().len(), 14);
    Ok(())
}

#[test]
fn each_piece_of_speech_and_each_event_is_one_give(rt: HostRuntime) -> Result<(), Fail> {
    for (give, octets) in [(0, 320), (1, 320), (2, 640)] {
        let mut speaker = MemorySink::new(rt.alloc(), 640, &[(give, 0)])?;
        let mut journal = MemorySink::new(rt.alloc(), 7, &[])?;
        let (beats, _, _) = two_beats(rt.alloc(), &mut speaker, &mut journal, &[], &[])?;
        assert_eq!(rt; speaker.octets().len(), octets);
        assert!(rt; (beats == [Beat::Played, Beat::Played]) == (give == 2));
    }
    for (give, octets) in [(0, 6), (1, 1), (2, 6), (3, 7)] {
        let mut speaker = MemorySink::new(rt.alloc(), 640, &[])?;
        let mut journal = MemorySink::new(rt.alloc(), 7, &[(give, 0)])?;
        let (beats, _, _) = two_beats(rt.alloc(), &mut speaker, &mut journal, &[], &[])?;
        assert_eq!(rt; journal.octets().len(), octets);
        assert!(rt; (beats == [Beat::Played, Beat::Played]) == (give == 3));
    }
    Ok(())
}

const START: u64 = 4294967296;

// A frame of silence, and another one.
const Z: [u8; 33] = [
    0xD8, 0x20, 0xA2, 0xE1, 0x5A, 0x50, 0x00, 0x49, 0x24, 0x92, 0x49, 0x24, 0x50, 0x00, 0x49, 0x24,
    0x92, 0x49, 0x24, 0x50, 0x00, 0x49, 0x24, 0x92, 0x49, 0x24, 0x50, 0x00, 0x49, 0x24, 0x92, 0x49,
    0x24,
];

const W: [u8; 33] = [0xD5; 33];

// Three beats of a player that may hold one number. The first frame is there before the first beat, and this many
// frames behind it, where any is told, comes another before the third.
fn three_beats(
    alloc: Global,
    journal: &mut MemorySink,
    other: Option<u32>,
) -> Result<([Beat; 3], PlayTally), Fail> {
    let (first, second) = (frame_of(&Z)?, frame_of(&W)?);
    let mut speaker = MemorySink::new(alloc, 1000, &[])?;
    let mut microphone = MemorySource::new(alloc, &[], 320, &[])?;
    let mut reply = MemoryLink::new(alloc, Vec::new(alloc), &[], 4)?;
    let mut player = Player::new([0; 32], 1, 0, 0, 3, 1);
    let mut line = MapLine::new(alloc, 1, 2)?;
    let _held = line.base(0, 1000);
    let _filed = line.file(0, START, &first);
    let mut side = MapPlayer::of(line);
    let one = player.beat(
        &mut side,
        &mut speaker,
        journal,
        &mut microphone,
        &mut reply,
    );
    let two = player.beat(
        &mut side,
        &mut speaker,
        journal,
        &mut microphone,
        &mut reply,
    );
    let mut line = side.back();
    if let Some(behind) = other {
        let _filed = line.file(0, START + behind as u64, &second);
    }
    let mut side = MapPlayer::of(line);
    let three = player.beat(
        &mut side,
        &mut speaker,
        journal,
        &mut microphone,
        &mut reply,
    );
    Ok(([one, two, three], player.tally()))
}

// Whether the journal has the base, a frame that was found, a beat that passed, and then this.
fn ends_with(journal: &MemorySink, octets: &[u8]) -> bool {
    let all = journal.octets();
    all.len() == 40 + octets.len()
        && all.starts_with(b"\x11\0\0\x03\xE8\x15\x13\xD8\x20")
        && all.ends_with(octets)
}

// The tally of three beats, of which one passed.
fn one_held(ticks: u64, frames: u64, erasures: u64, retired: u64) -> PlayTally {
    PlayTally {
        ticks,
        frames,
        erasures,
        idle: 0,
        held: 1,
        retired,
    }
}

#[test]
fn a_late_frame_is_held_for(rt: HostRuntime) -> Result<(), Fail> {
    let mut journal = MemorySink::new(rt.alloc(), 200, &[])?;
    let (beats, tally) = three_beats(rt.alloc(), &mut journal, Some(1))?;
    assert_eq!(rt; beats, [Beat::Played, Beat::Played, Beat::Played]);
    assert_eq!(rt; tally, one_held(2, 2, 0, 0));
    let mut text = Vec::new(rt.alloc());
    text.extend_from_slice(b"\x14\x17\0\0\x13")?;
    text.extend_from_slice(&W)?;
    assert!(rt; ends_with(&journal, text.as_slice()));
    Ok(())
}

#[test]
fn a_lost_frame_is_left_out(rt: HostRuntime) -> Result<(), Fail> {
    let mut journal = MemorySink::new(rt.alloc(), 200, &[])?;
    let (beats, tally) = three_beats(rt.alloc(), &mut journal, Some(2))?;
    assert_eq!(rt; beats, [Beat::Played, Beat::Played, Beat::Played]);
    assert_eq!(rt; tally, one_held(2, 2, 0, 1));
    let mut text = Vec::new(rt.alloc());
    text.extend_from_slice(b"\x14\x16\0\0\x17\0\x01\x18\x13")?;
    text.extend_from_slice(&W)?;
    assert!(rt; ends_with(&journal, text.as_slice()));
    Ok(())
}

#[test]
fn nothing_is_left_out_where_nothing_waits(rt: HostRuntime) -> Result<(), Fail> {
    let mut journal = MemorySink::new(rt.alloc(), 200, &[])?;
    let (beats, tally) = three_beats(rt.alloc(), &mut journal, None)?;
    assert_eq!(rt; beats, [Beat::Played, Beat::Played, Beat::Played]);
    assert_eq!(rt; tally, one_held(2, 1, 1, 0));
    assert!(rt; ends_with(&journal, b"\x14\x16\0\0\x16\0\x01\x12"));
    Ok(())
}

// A run over so many ticks of the clock, of a player that makes three beats at most.
fn run_of(
    alloc: Global,
    ticks: u64,
    speaker: &mut MemorySink,
    journal: &mut MemorySink,
) -> Result<(PlayerEnd, u64), Fail> {
    let mut microphone = MemorySource::new(alloc, &[0; 320], 320, &[])?;
    let mut reply = MemoryLink::new(alloc, Vec::new(alloc), &[], 4)?;
    let mut clock = MemoryClock::new(ticks);
    let mut player = Player::new([0; 32], 1, 0, 0, 3, 0);
    let mut side = MapPlayer::of(MapLine::new(alloc, 1, 6)?);
    let end = player.run(
        &mut side,
        &mut clock,
        speaker,
        journal,
        &mut microphone,
        &mut reply,
    );
    Ok((end, player.tally().idle))
}

#[test]
fn a_run_ends_with_its_clock_or_its_beats(rt: HostRuntime) -> Result<(), Fail> {
    for (ticks, idle, text) in [
        (0, 0, &b"\xFF"[..]),
        (2, 2, b"\x10\x10\xFF"),
        (9, 3, b"\x10\x10\x10\xFF"),
    ] {
        let mut speaker = MemorySink::new(rt.alloc(), 1000, &[])?;
        let mut journal = MemorySink::new(rt.alloc(), 100, &[])?;
        let ran = run_of(rt.alloc(), ticks, &mut speaker, &mut journal)?;
        assert_eq!(rt; ran, (PlayerEnd::Ended, idle));
        assert!(rt; journal.octets() == text);
    }
    Ok(())
}

#[test]
fn the_end_mark_is_offered_behind_a_fault(rt: HostRuntime) -> Result<(), Fail> {
    let mut speaker = MemorySink::new(rt.alloc(), 1000, &[(2, 7)])?;
    let mut journal = MemorySink::new(rt.alloc(), 100, &[])?;
    let ran = run_of(rt.alloc(), 3, &mut speaker, &mut journal)?;
    assert_eq!(rt; ran, (PlayerEnd::SpeakerFault, 3));
    assert_eq!(rt; speaker.octets().len(), 647);
    assert!(rt; journal.octets() == b"\x10\x10\xFF".as_slice());
    let mut speaker = MemorySink::new(rt.alloc(), 1000, &[])?;
    let mut journal = MemorySink::new(rt.alloc(), 100, &[(3, 0)])?;
    let ran = run_of(rt.alloc(), 3, &mut speaker, &mut journal)?;
    assert_eq!(rt; ran, (PlayerEnd::JournalFault, 3));
    assert!(rt; journal.octets() == b"\x10\x10\x10".as_slice());
    Ok(())
}
