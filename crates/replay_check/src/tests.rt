// Journals are written as words and read back. Expected verdicts are of the rules, or of a search.
use super::*;
use gate_io::{MemorySink, MemorySource};
use recorder::{FilerJournal, PlayTally, PlayerJournal};
use std::alloc::{AllocError, Global};
use std::test::Fail;

// The value of a hexadecimal digit, in capitals.
fn digit_value(digit: u8) -> u8 {
    if digit <= b'9' {
        digit.wrapping_sub(b'0')
    } else {
        digit.wrapping_sub(b'A' - 10)
    }
}

fn octet_of(high: u8, low: u8) -> u8 {
    digit_value(high)
        .wrapping_mul(16)
        .wrapping_add(digit_value(low))
}

fn put_digits(octets: &mut Vec<u8>, digits: &[u8]) -> Result<(), AllocError> {
    for i in 0..digits.len() / 2 {
        octets.extend_from_slice(&[octet_of(digits[2 * i], digits[2 * i + 1])])?;
    }
    Ok(())
}

fn put_word(octets: &mut Vec<u8>, word: &[u8]) -> Result<(), AllocError> {
    match word {
        b"filer" => octets.extend_from_slice(b"GSMGFJ01"),
        b"player" => octets.extend_from_slice(b"GSMGPJ01"),
        [b'x', high, low] => octets.extend_from_slice(&[octet_of(*high, *low); 33]),
        digits => put_digits(octets, digits),
    }
}

/// Puts the octets that words write: hexadecimal digits, the magic of a journal, or a frame, all of whose octets have the
/// two digits after the `x`.
pub fn put_words(octets: &mut Vec<u8>, text: &str) -> Result<(), AllocError> {
    for word in text.split_whitespace() {
        put_word(octets, word.as_bytes())?;
    }
    Ok(())
}

fn octets_of(alloc: Global, text: &str) -> Result<Vec<u8>, AllocError> {
    let mut octets = Vec::new(alloc);
    put_words(&mut octets, text)?;
    Ok(octets)
}

/// The filer's journal of these octets, up to its end mark.
pub fn read_filer(alloc: Global, octets: &mut Vec<u8>) -> Result<FilerJournal, OutOfMemory> {
    octets.extend_from_slice(&[0xFF])?;
    let mut source = MemorySource::new(alloc, octets, 4096, &[])?;
    match FilerJournal::read(alloc, &mut source) {
        Ok(journal) => Ok(journal),
        Err(_) => Err(OutOfMemory),
    }
}

/// The player's journal of these octets, up to its end mark.
pub fn read_player(alloc: Global, octets: &mut Vec<u8>) -> Result<PlayerJournal, OutOfMemory> {
    octets.extend_from_slice(&[0xFF])?;
    let mut source = MemorySource::new(alloc, octets, 4096, &[])?;
    match PlayerJournal::read(alloc, &mut source) {
        Ok(journal) => Ok(journal),
        Err(_) => Err(OutOfMemory),
    }
}

fn filer_of(alloc: Global, text: &str) -> Result<FilerJournal, OutOfMemory> {
    read_filer(alloc, &mut octets_of(alloc, text)?)
}

fn player_of(alloc: Global, text: &str) -> Result<PlayerJournal, OutOfMemory> {
    read_player(alloc, &mut octets_of(alloc, text)?)
}

/// The verdict on journals of one line, and none on others.
pub fn verdict_of(
    alloc: Global,
    filers: &Vec<FilerJournal>,
    player: &PlayerJournal,
) -> Result<Option<Verdict>, OutOfMemory> {
    if are_of_one_line(filers, player) {
        return Ok(Some(verify(alloc, filers, player)?));
    }
    Ok(None)
}

// The verdict on two filers and the player.
fn verdict_of_two(
    alloc: Global,
    one: &str,
    two: &str,
    player: &str,
) -> Result<Option<Verdict>, OutOfMemory> {
    let mut filers: Vec<FilerJournal> = Vec::new(alloc);
    filers.push(filer_of(alloc, one)?)?;
    filers.push(filer_of(alloc, two)?)?;
    verdict_of(alloc, &filers, &player_of(alloc, player)?)
}

// Whether the journals are legal, with the callers in this order.
fn is_legal(verdict: &Option<Verdict>, callers: &[u32]) -> bool {
    let Some(Verdict::Legal(order)) = verdict else {
        return false;
    };
    if order.len() != callers.len() {
        return false;
    }
    for (i, caller) in callers.iter().enumerate() {
        if i >= order.len() || *order.get(i) != *caller {
            return false;
        }
    }
    true
}

#[test]
fn a_duplicate_stands_behind_its_accepted_frame(rt: HostRuntime) -> Result<(), Fail> {
    let verdict = verdict_of_two(
        rt.alloc(),
        "filer 02060000 00 22 0000000100000000 xD0",
        "filer 02060000 01 23 0000000100000000 xD5",
        "player 02060000 13 xD0",
    )?;
    assert!(rt; is_legal(&verdict, &[0, 1, 2]));
    Ok(())
}

#[test]
fn two_accepted_frames_of_one_number_have_no_history(rt: HostRuntime) -> Result<(), Fail> {
    let verdict = verdict_of_two(
        rt.alloc(),
        "filer 02060000 00 22 0000000100000000 xD0",
        "filer 02060000 01 22 0000000100000000 xD0",
        "player 02060000 13 xD0",
    )?;
    assert!(rt;
        matches!(
            verdict,
            Some(Verdict::Illegal {
                caller: 1,
                place: 0
            })
        )
    );
    Ok(())
}

// The verdict on a filer and the player.
fn verdict_of_one(
    alloc: Global,
    filer: &str,
    player: &str,
) -> Result<Option<Verdict>, OutOfMemory> {
    let mut filers: Vec<FilerJournal> = Vec::new(alloc);
    filers.push(filer_of(alloc, filer)?)?;
    verdict_of(alloc, &filers, &player_of(alloc, player)?)
}

#[test]
fn a_frame_that_came_behind_a_held_beat_stands_behind_it(rt: HostRuntime) -> Result<(), Fail> {
    let verdict = verdict_of_one(
        rt.alloc(),
        "filer 01020000 00 20 00000007 00000007 21 000003E8 000003E8
        22 0000000100000000 xD1 22 0000000100000001 xD2",
        "player 01020000 11 000003E8 15 13 xD1 14 17 0000 13 xD2",
    )?;
    assert!(rt; is_legal(&verdict, &[0, 0, 1, 0, 1, 1, 1, 0, 1, 1]));
    Ok(())
}

#[test]
fn a_number_that_was_lost_is_retired(rt: HostRuntime) -> Result<(), Fail> {
    let verdict = verdict_of_one(
        rt.alloc(),
        "filer 01020000 00 20 00000007 00000007 21 000003E8 000003E8
        22 0000000100000000 xD1 22 0000000100000002 xD2",
        "player 01020000 11 000003E8 15 13 xD1 14 16 0000 17 0001 18 13 xD2",
    )?;
    assert!(rt; is_legal(&verdict, &[0, 0, 1, 0, 1, 0, 1, 1, 1, 1, 1, 1]));
    Ok(())
}

// Whether a frame that one filer had accepted under the first number has no history with this list of the player, where the rule
// stops at this caller's call at this place.
fn stops_at(alloc: Global, player: &str, caller: u32, place: u64) -> Result<bool, OutOfMemory> {
    let verdict = verdict_of_one(alloc, "filer 01020000 00 22 0000000100000000 xD1", player)?;
    match verdict {
        Some(
            Verdict::Illegal {
                caller: who,
                place: at,
            },
        ) => Ok(who == caller && at == place),
        _ => Ok(false),
    }
}

#[test]
fn a_frame_is_not_absent_once_it_came(rt: HostRuntime) -> Result<(), Fail> {
    // It was seen, and then a beat was held for it, or it was not seen.
    assert!(rt; stops_at(rt.alloc(), "player 01020000 17 0000 14", 0, 0)?);
    assert!(rt; stops_at(rt.alloc(), "player 01020000 15 16 0000 13 xD1", 0, 0)?);
    // It was not seen, and its number was retired without it.
    assert!(rt; stops_at(rt.alloc(), "player 01020000 16 0000 18", 1, 1)?);
    assert!(rt; stops_at(rt.alloc(), "player 01020000 14 12", 1, 1)?);
    Ok(())
}

// Plays a journal, and counts it where it was played to its end.
fn played(
    alloc: Global,
    text: &str,
    pcm: &mut MemorySink,
) -> Result<Option<PlayTally>, OutOfMemory> {
    let mut octets = octets_of(alloc, text)?;
    octets.extend_from_slice(&[0xFF])?;
    let mut source = MemorySource::new(alloc, &octets, 4096, &[])?;
    match render([7; 32], &mut source, pcm) {
        RenderEnd::Done(tally) => Ok(Some(tally)),
        _ => Ok(None),
    }
}

#[test]
fn a_held_beat_plays_as_an_erasure_and_a_retired_number_not_at_all(
    rt: HostRuntime,
) -> Result<(), Fail> {
    let mut one = MemorySink::new(rt.alloc(), 4096, &[])?;
    let mut two = MemorySink::new(rt.alloc(), 4096, &[])?;
    let text =
        "player 01020000 11 000003E8 15 13 xD1 14 16 0000 17 0001 18 14 17 0000 19 xD3 13 xD2";
    let tally = played(rt.alloc(), text, &mut one)?;
    let expected = PlayTally {
        ticks: 2,
        frames: 2,
        erasures: 0,
        idle: 0,
        held: 2,
        retired: 2,
    };
    assert!(rt; tally == Some(expected));
    let _ = played(
        rt.alloc(),
        "player 01020000 11 000003E8 13 xD1 12 12 13 xD2",
        &mut two,
    )?;
    assert!(rt; one.octets().len() == 4 * 320);
    assert!(rt; *one.octets() == *two.octets());
    Ok(())
}

// Whether the journals of a filer, where there is one, and of the player are of one line.
fn is_one_line(alloc: Global, filer: Option<&str>, player: &str) -> Result<bool, OutOfMemory> {
    let mut filers: Vec<FilerJournal> = Vec::new(alloc);
    if let Some(text) = filer {
        filers.push(filer_of(alloc, text)?)?;
    }
    Ok(are_of_one_line(&filers, &player_of(alloc, player)?))
}

#[test]
fn journals_of_other_lines_are_told(rt: HostRuntime) -> Result<(), Fail> {
    let one = "player 01060000";
    assert!(rt; is_one_line(rt.alloc(), Some("filer 01060000 00"), one)?);
    // No journal, another g, another delay, another number of filers, and another caller.
    assert!(rt; !is_one_line(rt.alloc(), None, one)?);
    assert!(rt; !is_one_line(rt.alloc(), Some("filer 01050000 00"), one)?);
    assert!(rt; !is_one_line(rt.alloc(), Some("filer 01060001 00"), one)?);
    assert!(rt; !is_one_line(rt.alloc(), Some("filer 02060000 00"), one)?);
    assert!(rt; !is_one_line(rt.alloc(), Some("filer 02060000 01"), "player 02060000")?);
    rule_is_exact();
    rule_decides();
    order_is_one();
    Ok(())
}

#[test]
fn frames_that_came_late_and_early_have_a_history(rt: HostRuntime) -> Result<(), Fail> {
    // A ring of four slots: a frame, four ticks, and ten frames from the second number on; then four ticks.
    let mut filers: Vec<FilerJournal> = Vec::new(rt.alloc());
    filers.push(filer_of(
        rt.alloc(),
        "filer 01020000 00 22 0000000100000000 xDA
        24 0000000100000001 xD0 0000000100000005 24 0000000100000002 xD0 0000000100000006
        24 0000000100000003 xD0 0000000100000007
        22 0000000100000004 xD3 22 0000000100000005 xD4
        22 0000000100000006 xD5 22 0000000100000007 xD6
        25 0000000100000008 xD0 0000000100000004 25 0000000100000009 xD0 0000000100000005
        25 000000010000000A xD0 0000000100000006",
    )?)?;
    let text = "player 01020000 13 xDA 12 12 12 13 xD3 13 xD4 13 xD5 13 xD6";
    let verdict = verdict_of(rt.alloc(), &filers, &player_of(rt.alloc(), text)?)?;
    let callers = [0, 1, 1, 0, 1, 0, 1, 0, 0, 0, 0, 0, 0, 0, 0, 1, 1, 1, 1];
    assert!(rt; is_legal(&verdict, &callers));
    Ok(())
}

// A script of 1000 rounds of four filers, and how it was made.
fn made(alloc: Global, seed: u64, sink: &mut MemorySink) -> Result<Made, OutOfMemory> {
    make_script(alloc, seed, 1000, 4, sink)
}

#[test]
fn a_made_script_is_the_same_at_each_run(rt: HostRuntime) -> Result<(), Fail> {
    let mut one = MemorySink::new(rt.alloc(), 50000, &[])?;
    let mut two = MemorySink::new(rt.alloc(), 50000, &[])?;
    match made(rt.alloc(), 7, &mut one)? {
        Made::Done(plays, tally) => {
            assert!(rt; plays.ticks == 1000);
            assert!(rt; plays.idle == 0);
            assert!(rt; tally.accepted > 0);
            assert!(rt; tally.late > 0);
            assert!(rt; tally.beyond > 0);
        }
        Made::WriteFault => assert!(rt; false, "the sink failed"),
    }
    let _ = made(rt.alloc(), 7, &mut two)?;
    assert!(rt; one.octets().len() == 44013);
    assert!(rt; *one.octets() == *two.octets());
    Ok(())
}
