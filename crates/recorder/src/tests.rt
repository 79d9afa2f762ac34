ghost use Rattle.recorder.specs.Filing.{FilerFits};
ghost use Rattle.recorder.specs.Script.{FitsSomeHead};

use super::*;
use crate::test_files::{
    ELASTIC, EXCHANGE, FILED, Kept, Opened, PLAYED, RETIRED, SCRIPT, cuts_are_told, end_of_file,
    frame, has_fault, long_of, octets_of,
};
use frame_codec::{Frame33, Item};
use gate_base::OutOfMemory;
use gate_io::{MemorySink, MemorySource};
use playout::{Call, FileReply};
use std::alloc::Global;
use std::test::Fail;

// Whether the file has so many events, and each front of it is cut off where it ends.
fn is_whole(alloc: Global, kept: Kept, text: &str, events: usize) -> Result<bool, OutOfMemory> {
    let octets = octets_of(alloc, text)?;
    if end_of_file(alloc, kept, &octets, 1, &[])? != Ok(events) {
        return Ok(false);
    }
    if end_of_file(alloc, kept, &octets, 300, &[])? != Ok(events) {
        return Ok(false);
    }
    cuts_are_told(alloc, kept, &octets)
}

#[test]
fn each_file_is_read_and_each_cut_of_it_is_told(rt: HostRuntime) -> Result<(), Fail> {
    assert!(rt; is_whole(rt.alloc(), Kept::Script, SCRIPT, 3)?);
    assert!(rt; is_whole(rt.alloc(), Kept::Script, EXCHANGE, 2)?);
    assert!(rt; is_whole(rt.alloc(), Kept::Beats, PLAYED, 4)?);
    assert!(rt; is_whole(rt.alloc(), Kept::Player, PLAYED, 4)?);
    assert!(rt; is_whole(rt.alloc(), Kept::Beats, ELASTIC, 6)?);
    assert!(rt; is_whole(rt.alloc(), Kept::Player, RETIRED, 9)?);
    assert!(rt; is_whole(rt.alloc(), Kept::Filer, FILED, 10)?);
    Ok(())
}

#[test]
fn a_wrong_octet_of_a_script_is_told_with_its_place(rt: HostRuntime) -> Result<(), Fail> {
    // The place of an octet, what stands there, and the place of the field.
    let fields = [
        (8, 0, 8),
        (8, 65, 8),
        (9, 11, 9),
        (11, 64, 10),
        (13, 1, 13),
        (14, 0x80, 14),
        (22, 0xC8, 22),
        (59, 0x80, 58),
        (66, 0xE0, 66),
    ];
    for (at, octet, place) in fields {
        let fault = RecordFault::Field { at: place };
        assert!(rt;
            has_fault(rt.alloc(), Kept::Script, SCRIPT, at, octet, fault)?,
            "{at}"
        );
    }
    for (at, octet) in [(0, 0x00), (7, 0x32)] {
        let fault = RecordFault::Magic;
        assert!(rt;
            has_fault(rt.alloc(), Kept::Script, SCRIPT, at, octet, fault)?,
            "{at}"
        );
    }
    for (at, octet) in [(12, 0x09), (55, 0x00)] {
        let fault = RecordFault::Kind { at: at as u64 };
        assert!(rt;
            has_fault(rt.alloc(), Kept::Script, SCRIPT, at, octet, fault)?,
            "{at}"
        );
    }
    Ok(())
}

#[test]
fn a_wrong_octet_of_a_datagram_is_told_with_its_place(rt: HostRuntime) -> Result<(), Fail> {
    let cases = [
        (13, 0x01, RecordFault::Field { at: 13 }),
        (18, 0x09, RecordFault::Field { at: 18 }),
        (19, 0x05, RecordFault::Cut { at: 24 }),
        (22, 0x05, RecordFault::Kind { at: 22 }),
    ];
    for (at, octet, fault) in cases {
        assert!(rt;
            has_fault(rt.alloc(), Kept::Script, EXCHANGE, at, octet, fault)?,
            "{at}"
        );
    }
    Ok(())
}

#[test]
fn idle_and_base_out_of_order_are_unknown_kinds(rt: HostRuntime) -> Result<(), Fail> {
    let kinds = [(18, 0x10), (18, 0x11), (19, 0x11), (19, 0x10), (12, 0x09)];
    for (at, octet) in kinds {
        let fault = RecordFault::Kind { at: at as u64 };
        assert!(rt;
            has_fault(rt.alloc(), Kept::Beats, PLAYED, at, octet, fault)?,
            "{at}"
        );
    }
    let field = RecordFault::Field { at: 20 };
    assert!(rt; has_fault(rt.alloc(), Kept::Beats, PLAYED, 20, 0xC8, field)?);
    // An Erasure in the place of the first Idle, and then a Base.
    let kind = RecordFault::Kind { at: 13 };
    assert!(rt; has_fault(rt.alloc(), Kept::Player, PLAYED, 12, 0x12, kind)?);
    Ok(())
}

#[test]
fn a_look_past_the_window_is_told_with_its_place(rt: HostRuntime) -> Result<(), Fail> {
    // The line has 2^6 slots: 63 numbers lie ahead of the next one, and 64 does not.
    let octets = octets_of(rt.alloc(), "player 01060003 16 003F 17 003F FF")?;
    assert!(rt; end_of_file(rt.alloc(), Kept::Beats, &octets, 2, &[])? == Ok(2));
    let fields = [
        (ELASTIC, 55, 64, 54),
        (ELASTIC, 54, 1, 54),
        (RETIRED, 55, 64, 54),
        (RETIRED, 58, 255, 57),
        (RETIRED, 95, 0xC8, 95),
    ];
    for (text, at, octet, place) in fields {
        let fault = RecordFault::Field { at: place };
        assert!(rt;
            has_fault(rt.alloc(), Kept::Player, text, at, octet, fault)?,
            "{at}"
        );
    }
    // Nothing opens the journal again.
    for (at, octet) in [(52, 0x10), (52, 0x11), (53, 0x1A), (17, 0x11)] {
        let fault = RecordFault::Kind { at: at as u64 };
        assert!(rt;
            has_fault(rt.alloc(), Kept::Beats, ELASTIC, at, octet, fault)?,
            "{at}"
        );
    }
    Ok(())
}

#[test]
fn a_wrong_octet_of_a_filers_journal_is_told_with_its_place(rt: HostRuntime) -> Result<(), Fail> {
    // The place of an octet, what stands there, and the place of the field.
    let fields = [
        (8, 0, 8),
        (9, 11, 9),
        (10, 1, 10),
        (12, 2, 12),
        (32, 0x80, 32),
        (40, 0xC8, 40),
        (74, 0x80, 74),
        (82, 0xEA, 82),
        // Late ahead of itself, and beyond 2^48.
        (164, 3, 157),
        (158, 1, 157),
        // Beyond behind itself.
        (214, 3, 207),
        // Codes 0, 11, 16 and 23, and a detail where there is none.
        (216, 0, 216),
        (216, 11, 216),
        (216, 16, 216),
        (216, 23, 216),
        (216, 8, 217),
    ];
    for (at, octet, place) in fields {
        let fault = RecordFault::Field { at: place };
        assert!(rt;
            has_fault(rt.alloc(), Kept::Filer, FILED, at, octet, fault)?,
            "{at}"
        );
    }
    for (at, octet) in [(13, 0x10), (13, 0x2A), (31, 0x1F)] {
        let fault = RecordFault::Kind { at: at as u64 };
        assert!(rt;
            has_fault(rt.alloc(), Kept::Filer, FILED, at, octet, fault)?,
            "{at}"
        );
    }
    for (at, octet) in [(0, 0x00), (4, 0x50)] {
        let fault = RecordFault::Magic;
        assert!(rt;
            has_fault(rt.alloc(), Kept::Filer, FILED, at, octet, fault)?,
            "{at}"
        );
    }
    Ok(())
}

// Whether the next event is a File of filer 0 with this number.
fn is_file(opened: &mut Opened, source: &mut MemorySource, wanted: u64) -> bool {
    match opened.next(source) {
        Ok(Some(ScriptEvent::File { caller, number, .. })) => caller == 0 && number == wanted,
        _ => false,
    }
}

fn is_tick(opened: &mut Opened, source: &mut MemorySource) -> bool {
    matches!(opened.next(source), Ok(Some(ScriptEvent::Tick)))
}

fn is_over(opened: &mut Opened, source: &mut MemorySource) -> bool {
    matches!(opened.next(source), Ok(None))
}

fn has_failed(opened: &mut Opened, source: &mut MemorySource) -> bool {
    matches!(opened.next(source), Err(RecordEnd::ReadFailed))
}

#[test]
fn the_events_of_a_script_are_read_and_its_end_is_kept(rt: HostRuntime) -> Result<(), Fail> {
    let octets = octets_of(rt.alloc(), SCRIPT)?;
    let mut source = MemorySource::new(rt.alloc(), &octets, 1, &[])?;
    let mut opened = Opened::of(&mut source)?;
    assert!(rt; is_file(&mut opened, &mut source, 4294967360));
    assert!(rt; is_tick(&mut opened, &mut source));
    assert!(rt; is_file(&mut opened, &mut source, 140737488355327));
    assert!(rt; is_over(&mut opened, &mut source));
    assert!(rt; is_over(&mut opened, &mut source));
    scripts_have_no_fault();
    scripts_have_one_fault();
    Ok(())
}

// Whether the head of a script is answered so, and so again from another source.
fn head_is(
    source: &mut MemorySource,
    other: &mut MemorySource,
    answer: Result<Head, RecordEnd>,
) -> bool {
    let mut reader = ScriptReader::new();
    reader.head(source) == answer && reader.head(other) == answer
}

#[test]
fn a_head_and_its_fault_are_answered_again(rt: HostRuntime) -> Result<(), Fail> {
    let octets = octets_of(rt.alloc(), SCRIPT)?;
    let mut right = MemorySource::new(rt.alloc(), &octets, 1, &[])?;
    let mut wrong = MemorySource::new(rt.alloc(), b"SMGSC01", 10, &[])?;
    let head = Head {
        filers: 1,
        g: 6,
        delay: 3,
    };
    assert!(rt; head_is(&mut right, &mut wrong, Ok(head)));
    let magic = RecordEnd::Fault(RecordFault::Magic);
    assert!(rt; head_is(&mut wrong, &mut right, Err(magic)));
    Ok(())
}

#[test]
fn a_failed_read_is_answered_again(rt: HostRuntime) -> Result<(), Fail> {
    let octets = octets_of(rt.alloc(), SCRIPT)?;
    let mut source = MemorySource::new(rt.alloc(), &octets, 10, &[3])?;
    let mut opened = Opened::of(&mut source)?;
    assert!(rt; has_failed(&mut opened, &mut source));
    assert!(rt; has_failed(&mut opened, &mut source));
    Ok(())
}

#[test]
fn a_source_that_fails_gives_no_journal(rt: HostRuntime) -> Result<(), Fail> {
    let octets = octets_of(rt.alloc(), FILED)?;
    let failed = Err(RecordEnd::ReadFailed);
    assert!(rt; end_of_file(rt.alloc(), Kept::Filer, &octets, 10, &[4])? == failed);
    let magic = Err(RecordEnd::Fault(RecordFault::Magic));
    assert!(rt; end_of_file(rt.alloc(), Kept::Player, &octets, 10, &[])? == magic);
    Ok(())
}

// Whether a failure of each of the first takes is told as a failed read, and one of the next take no longer matters.
fn each_failed_take_is_told(
    alloc: Global,
    kept: Kept,
    text: &str,
    takes: u64,
) -> Result<bool, OutOfMemory> {
    let octets = octets_of(alloc, text)?;
    for k in 0..takes {
        if end_of_file(alloc, kept, &octets, 100, &[k])? != Err(RecordEnd::ReadFailed) {
            return Ok(false);
        }
    }
    Ok(end_of_file(alloc, kept, &octets, 100, &[takes])?.is_ok())
}

#[test]
fn a_journal_tells_the_failure_of_each_take(rt: HostRuntime) -> Result<(), Fail> {
    // One take for the head and for the end mark, one for each kind, and one for what stands behind it.
    assert!(rt; each_failed_take_is_told(rt.alloc(), Kept::Player, PLAYED, 8)?);
    assert!(rt; each_failed_take_is_told(rt.alloc(), Kept::Filer, FILED, 20)?);
    Ok(())
}

#[test]
fn long_journals_are_read_with_ample_memory(rt: HostRuntime) -> Result<(), Fail> {
    let mut played = long_of(rt.alloc(), "player 01060003", 0x12, 5000)?;
    assert!(rt; end_of_file(rt.alloc(), Kept::Player, &played, 4096, &[])? == Ok(5000));
    let filed = long_of(rt.alloc(), "filer 01060003 00", 0x27, 5000)?;
    assert!(rt; end_of_file(rt.alloc(), Kept::Filer, &filed, 4096, &[])? == Ok(5000));
    // A fault behind all events is told too.
    let cut = Err(RecordEnd::Fault(RecordFault::Cut { at: 5012 }));
    played.truncate(5012);
    assert!(rt; end_of_file(rt.alloc(), Kept::Player, &played, 4096, &[])? == cut);
    Ok(())
}

fn filer_event(journal: &FilerJournal, i: usize) -> Option<FilerEvent> {
    if i < journal.len() {
        Some(*journal.get(i))
    } else {
        None
    }
}

#[test]
fn a_filers_journal_keeps_its_events(rt: HostRuntime) -> Result<(), Fail> {
    let octets = octets_of(rt.alloc(), FILED)?;
    let mut source = MemorySource::new(rt.alloc(), &octets, 9, &[])?;
    let journal = FilerJournal::read(rt.alloc(), &mut source)?;
    let head = Head {
        filers: 2,
        g: 6,
        delay: 3,
    };
    assert!(rt; journal.head() == head);
    assert!(rt; journal.caller() == 1);
    let asked = Asked2 {
        said: 1000,
        held: 258,
    };
    let refused = FilerEvent::Refused {
        code: 7,
        detail: 13,
    };
    let stranger = FilerEvent::Stranger { ssrc: 1, held: 2 };
    assert!(rt; filer_event(&journal, 0) == Some(FilerEvent::Source(asked)));
    assert!(rt; filer_event(&journal, 1) == Some(FilerEvent::Base(asked)));
    assert!(rt; filer_event(&journal, 6) == Some(refused));
    assert!(rt; filer_event(&journal, 8) == Some(stranger));
    assert!(rt; filer_event(&journal, 9) == Some(FilerEvent::Empty));
    assert!(rt; filer_event(&journal, 10).is_none());
    assert!(rt;
        matches!(
            filer_event(&journal, 4),
            Some(FilerEvent::File {
                number: 4294967299,
                reply: FileReply::Late { ahead: 4294967300 },
                ..
            })
        )
    );
    filer_journals_have_no_fault();
    player_journals_have_no_fault();
    filer_journals_have_one_fault();
    player_journals_have_one_fault();
    Ok(())
}

fn play_event(journal: &PlayerJournal, i: usize) -> Option<PlayEvent> {
    if i < journal.len() {
        Some(*journal.get(i))
    } else {
        None
    }
}

#[test]
fn a_players_journal_keeps_its_events(rt: HostRuntime) -> Result<(), Fail> {
    let octets = octets_of(rt.alloc(), PLAYED)?;
    let mut source = MemorySource::new(rt.alloc(), &octets, 9, &[])?;
    let journal = PlayerJournal::read(rt.alloc(), &mut source)?;
    let base = PlayEvent::Base { base: 1000 };
    assert!(rt; journal.head().filers == 1);
    assert!(rt; play_event(&journal, 0) == Some(PlayEvent::Idle));
    assert!(rt; play_event(&journal, 1) == Some(base));
    assert!(rt; play_event(&journal, 2) == Some(PlayEvent::Erasure));
    assert!(rt; matches!(play_event(&journal, 3), Some(PlayEvent::Frame(_))));
    assert!(rt; play_event(&journal, 4).is_none());
    Ok(())
}

// Whether what was given are the octets of these words.
fn holds(alloc: Global, sink: &MemorySink, text: &str) -> Result<bool, OutOfMemory> {
    Ok(*sink.octets() == *octets_of(alloc, text)?.as_slice())
}

// Whether an event of a filer is written so, in one give: a second one fails.
fn is_filed(alloc: Global, event: &FilerEvent, text: &str) -> Result<bool, OutOfMemory>
    requires { FilerFits event.now }
{
    let mut sink = MemorySink::new(alloc, 60, &[(1, 0)])?;
    let given = write_filer(event, &mut sink);
    Ok(given.is_ok() && holds(alloc, &sink, text)?)
}

// Whether the event of a call of the player is written so, in one give.
fn is_played(alloc: Global, call: &Call, text: &str) -> Result<bool, OutOfMemory> {
    match play_event_of(call) {
        Some(event) => {
            let mut sink = MemorySink::new(alloc, 60, &[(1, 0)])?;
            let given = write_play(&event, &mut sink);
            Ok(given.is_ok() && holds(alloc, &sink, text)?)
        }
        None => Ok(false),
    }
}

fn tick(item: Item) -> Call {
    Call::TickCall { item }
}

fn retire(item: Item) -> Call {
    Call::RetireCall { item }
}

fn peek(held: Option<u32>) -> Call {
    Call::PeekCall { held }
}

fn look(ahead: u32, filled: bool) -> Call {
    Call::LookCall { ahead, filled }
}

fn hold(held: bool) -> Call {
    Call::HoldCall { held }
}

// Whether an event of a script is written so, in one give.
fn is_scripted(alloc: Global, event: &ScriptEvent, text: &str) -> Result<bool, OutOfMemory>
    requires { FitsSomeHead event.now }
{
    let mut sink = MemorySink::new(alloc, 60, &[(1, 0)])?;
    let given = write_script(event, &mut sink);
    Ok(given.is_ok() && holds(alloc, &sink, text)?)
}

#[test]
fn heads_and_the_end_mark_have_their_octets(rt: HostRuntime) -> Result<(), Fail> {
    let widest = Head {
        filers: 64,
        g: 10,
        delay: 1023,
    };
    let mut sink = MemorySink::new(rt.alloc(), 38, &[(4, 0)])?;
    assert!(rt; write_play_head(&widest, &mut sink).is_ok());
    assert!(rt; write_script_head(&widest, &mut sink).is_ok());
    assert!(rt; write_filer_head(&widest, 63, &mut sink).is_ok());
    assert!(rt; write_end(&mut sink).is_ok());
    let text = "player 400A03FF script 400A03FF filer 400A03FF 3F FF";
    assert!(rt; holds(rt.alloc(), &sink, text)?);
    Ok(())
}

#[test]
fn each_event_of_a_player_has_its_octets(rt: HostRuntime) -> Result<(), Fail> {
    let frame = frame()?;
    assert!(rt; is_played(rt.alloc(), &peek(None), "10")?);
    assert!(rt; is_played(rt.alloc(), &peek(Some(1000)), "11 000003E8")?);
    assert!(rt; is_played(rt.alloc(), &tick(Item::Erasure), "12")?);
    assert!(rt; is_played(rt.alloc(), &tick(Item::Frame(frame)), "13 frame")?);
    assert!(rt; is_played(rt.alloc(), &hold(true), "14")?);
    assert!(rt; is_played(rt.alloc(), &hold(false), "15")?);
    assert!(rt; is_played(rt.alloc(), &look(258, false), "16 0102")?);
    assert!(rt; is_played(rt.alloc(), &look(1, true), "17 0001")?);
    assert!(rt; is_played(rt.alloc(), &retire(Item::Erasure), "18")?);
    assert!(rt; is_played(rt.alloc(), &retire(Item::Frame(frame)), "19 frame")?);
    Ok(())
}

// The calls of a player that held at number 1 and then left it out.
fn calls_of_a_player(frame: Frame33) -> [Call; 8] {
    [
        peek(None),
        peek(Some(1000)),
        hold(false),
        tick(Item::Frame(frame)),
        hold(true),
        look(1, true),
        retire(Item::Erasure),
        tick(Item::Erasure),
    ]
}

#[test]
fn the_calls_of_a_player_are_counted(rt: HostRuntime) -> Result<(), Fail> {
    let mut tally = PlayTally::new();
    for call in calls_of_a_player(frame()?).iter() {
        tally.call(call);
    }
    let counted = PlayTally {
        ticks: 2,
        frames: 1,
        erasures: 1,
        idle: 1,
        held: 1,
        retired: 1,
    };
    assert!(rt; tally == counted);
    Ok(())
}

#[test]
fn a_beat_gives_one_item(rt: HostRuntime) -> Result<(), Fail> {
    let frame = frame()?;
    assert!(rt; call_item(&peek(None)) == Some(Item::Idle));
    assert!(rt; call_item(&peek(Some(1000))).is_none());
    assert!(rt; call_item(&hold(true)) == Some(Item::Erasure));
    assert!(rt; call_item(&hold(false)).is_none());
    assert!(rt; call_item(&look(0, false)).is_none());
    assert!(rt; call_item(&retire(Item::Frame(frame))).is_none());
    assert!(rt; call_item(&tick(Item::Frame(frame))) == Some(Item::Frame(frame)));
    Ok(())
}

#[test]
fn a_journal_keeps_looks_holds_and_retires(rt: HostRuntime) -> Result<(), Fail> {
    let octets = octets_of(rt.alloc(), RETIRED)?;
    let mut source = MemorySource::new(rt.alloc(), &octets, 9, &[])?;
    let journal = PlayerJournal::read(rt.alloc(), &mut source)?;
    let frame = frame()?;
    let free = PlayEvent::LookFree { ahead: 0 };
    let filled = PlayEvent::LookFilled { ahead: 1 };
    assert!(rt; play_event(&journal, 0) == Some(PlayEvent::Base { base: 1000 }));
    assert!(rt; play_event(&journal, 1) == Some(PlayEvent::Found));
    assert!(rt; play_event(&journal, 2) == Some(PlayEvent::Frame(frame)));
    assert!(rt; play_event(&journal, 3) == Some(PlayEvent::Held));
    assert!(rt; play_event(&journal, 4) == Some(free));
    assert!(rt; play_event(&journal, 5) == Some(filled));
    assert!(rt; play_event(&journal, 6) == Some(PlayEvent::RetiredErasure));
    assert!(rt; play_event(&journal, 8) == Some(PlayEvent::RetiredFrame(frame)));
    Ok(())
}

#[test]
fn each_event_of_a_filer_has_its_octets(rt: HostRuntime) -> Result<(), Fail> {
    let asked = Asked2 {
        said: 1000,
        held: 258,
    };
    let refused = FilerEvent::Refused {
        code: 7,
        detail: 13,
    };
    let stranger = FilerEvent::Stranger { ssrc: 1, held: 2 };
    let source = FilerEvent::Source(asked);
    let base = FilerEvent::Base(asked);
    assert!(rt; is_filed(rt.alloc(), &source, "20 000003E8 00000102")?);
    assert!(rt; is_filed(rt.alloc(), &base, "21 000003E8 00000102")?);
    assert!(rt; is_filed(rt.alloc(), &refused, "26 07 000D")?);
    assert!(rt; is_filed(rt.alloc(), &FilerEvent::Rtcp, "27")?);
    assert!(rt; is_filed(rt.alloc(), &stranger, "28 00000001 00000002")?);
    assert!(rt; is_filed(rt.alloc(), &FilerEvent::Empty, "29")?);
    Ok(())
}

#[test]
fn each_reply_has_its_octets(rt: HostRuntime) -> Result<(), Fail> {
    let frame = frame()?;
    let number = 4294967299;
    let accepted = FilerEvent::File {
        number,
        frame,
        reply: FileReply::Accepted,
    };
    assert!(rt; is_filed(rt.alloc(), &accepted, "22 0000000100000003 frame")?);
    let late = FilerEvent::File {
        number,
        frame,
        reply: FileReply::Late { ahead: 4294967300 },
    };
    let text = "24 0000000100000003 frame 0000000100000004";
    assert!(rt; is_filed(rt.alloc(), &late, text)?);
    Ok(())
}

#[test]
fn each_event_of_a_script_has_its_octets(rt: HostRuntime) -> Result<(), Fail> {
    let frame = frame()?;
    let event = ScriptEvent::File {
        caller: 0,
        number: 4294967360,
        frame,
    };
    assert!(rt; is_scripted(rt.alloc(), &event, "02 00 0000000100000040 frame")?);
    assert!(rt; is_scripted(rt.alloc(), &ScriptEvent::Tick, "01")?);
    assert!(rt; is_scripted(rt.alloc(), &ScriptEvent::Beat, "04")?);
    let octets = Packet::of(b"\xAB\xCD");
    assert!(rt; octets.octets().len() == 2);
    let datagram = ScriptEvent::Datagram {
        caller: 0,
        at: 7,
        octets,
    };
    assert!(rt; is_scripted(rt.alloc(), &datagram, "03 00 00000007 0002 ABCD")?);
    Ok(())
}
