// The verdict compared with a search over all interleavings of small lists, over a machine of two slots written here.
use super::*;
use crate::tests::{put_words, read_filer, read_player, verdict_of};
use recorder::FilerJournal;
use std::alloc::{AllocError, Global};
use std::test::Fail;

// A machine of two slots, whose numbers begin at 0. A base, a source and a frame are 0 where there is none.
#[derive(Drop)]
struct Small {
    position: u8,
    base: u8,
    source: u8,
    frames: [u8; 4],
}

fn frame_at(small: &Small, number: u8) -> u8 {
    if number < 4 {
        small.frames[number as usize]
    } else {
        0
    }
}

fn put_frame(small: &mut Small, number: u8, frame: u8) {
    if number < 4 {
        small.frames[number as usize] = frame;
    }
}

// Whether what is held is said so, once this was said.
fn holds(kept: &mut u8, said: u8, held: u8) -> bool {
    if *kept == 0 {
        *kept = said;
    }
    *kept == held
}

fn accepts(small: &mut Small, filer: u8, number: u8) -> bool {
    let first = small.position;
    if number < first || number >= first.saturating_add(2) || frame_at(small, number) != 0 {
        return false;
    }
    put_frame(small, number, filer);
    true
}

// Whether a filer (1 or 2) is answered so.
fn filer_makes(small: &mut Small, filer: u8, code: u8) -> bool {
    match code {
        0 => holds(&mut small.base, 1, 1),
        1 => holds(&mut small.base, 2, 1),
        2 => accepts(small, filer, 0),
        3 => accepts(small, filer, 1),
        4 => small.position == 0 && frame_at(small, 0) != 0,
        5 => small.position == 1 || small.position == 2,
        6 => small.position == 0,
        7 => holds(&mut small.source, 1, 1),
        _ => holds(&mut small.source, 2, 1),
    }
}

// Takes what waits under the position.
fn taken(small: &mut Small) -> u8 {
    let there = frame_at(small, small.position);
    put_frame(small, small.position, 0);
    small.position = small.position.saturating_add(1);
    there
}

// Whether the player is answered so.
fn player_makes(small: &mut Small, code: u8) -> bool {
    match code {
        0 => small.base == 0,
        1 => small.base == 1,
        2 | 3 | 4 => taken(small) == code - 2,
        5 | 7 => frame_at(small, small.position) == 0,
        6 | 9 => frame_at(small, small.position) != 0,
        8 => frame_at(small, small.position.saturating_add(1)) == 0,
        10 => frame_at(small, small.position.saturating_add(1)) != 0,
        _ => taken(small) == code.wrapping_sub(11),
    }
}

fn code_at(codes: &[u8], at: u8) -> Option<u8> {
    if (at as usize) < codes.len() {
        Some(codes[at as usize])
    } else {
        None
    }
}

// Whether the next call of a caller is answered so, where there is one. The player is caller 2.
fn next_is_made(small: &mut Small, who: u32, codes: &[u8], at: &mut u8) -> bool {
    let code = code_at(codes, *at);
    *at = at.saturating_add(1);
    match code {
        None => true,
        Some(code) => match who {
            0 => filer_makes(small, 1, code),
            1 => filer_makes(small, 2, code),
            _ => player_makes(small, code),
        },
    }
}

// Whether all calls are answered so in the order whose callers are the digits of a number to the base of 3.
fn runs(one: &[u8], two: &[u8], beats: &[u8], order: u32) -> bool {
    let mut small = Small {
        position: 0,
        base: 0,
        source: 0,
        frames: [0; 4],
    };
    let (mut first, mut second, mut third) = (0u8, 0u8, 0u8);
    let mut digits = order;
    for _ in 0..6 {
        let made = match digits % 3 {
            0 => next_is_made(&mut small, 0, one, &mut first),
            1 => next_is_made(&mut small, 1, two, &mut second),
            _ => next_is_made(&mut small, 2, beats, &mut third),
        };
        if !made {
            return false;
        }
        digits /= 3;
    }
    first as usize >= one.len() && second as usize >= two.len() && third as usize >= beats.len()
}

fn is_lawful(one: &[u8], two: &[u8], beats: &[u8]) -> bool {
    for order in 0..729u32 {
        if runs(one, two, beats, order) {
            return true;
        }
    }
    false
}

// The words of a filer's call. The frame of the first is xD1, and that of the second xD2.
fn call_words(caller: u8, code: u8) -> &'static str {
    match (code, caller) {
        (0, _) => "21 00000001 00000001",
        (1, _) => "21 00000002 00000001",
        (2, 0) => "22 0000000100000000 xD1",
        (2, _) => "22 0000000100000000 xD2",
        (3, 0) => "22 0000000100000001 xD1",
        (3, _) => "22 0000000100000001 xD2",
        (4, 0) => "23 0000000100000000 xD1",
        (4, _) => "23 0000000100000000 xD2",
        (5, _) => "24 0000000100000000 xD0 0000000100000002",
        (6, _) => "25 0000000100000002 xD0 0000000100000000",
        (7, _) => "20 00000001 00000001",
        _ => "20 00000002 00000001",
    }
}

fn beat_words(code: u8) -> &'static str {
    match code {
        0 => "10",
        1 => "11 00000001",
        2 => "12",
        3 => "13 xD1",
        4 => "13 xD2",
        5 => "14",
        6 => "15",
        7 => "16 0000",
        8 => "16 0001",
        9 => "17 0000",
        10 => "17 0001",
        11 => "18",
        12 => "19 xD1",
        _ => "19 xD2",
    }
}

// The octets of a filer's calls.
fn filed(alloc: Global, caller: u8, codes: &[u8]) -> Result<Vec<u8>, AllocError> {
    let mut octets = Vec::new(alloc);
    put_words(&mut octets, "filer 02010000")?;
    octets.push(caller)?;
    for code in codes {
        put_words(&mut octets, call_words(caller, *code))?;
    }
    Ok(octets)
}

// The octets of the player's calls.
fn beaten(alloc: Global, codes: &[u8]) -> Result<Vec<u8>, AllocError> {
    let mut octets = Vec::new(alloc);
    put_words(&mut octets, "player 02010000")?;
    for code in codes {
        put_words(&mut octets, beat_words(*code))?;
    }
    Ok(octets)
}

// Whether the verdict is that of the search.
fn agrees(alloc: Global, one: &[u8], two: &[u8], beats: &[u8]) -> Result<bool, OutOfMemory> {
    let mut filers: Vec<FilerJournal> = Vec::new(alloc);
    filers.push(read_filer(alloc, &mut filed(alloc, 0, one)?)?)?;
    filers.push(read_filer(alloc, &mut filed(alloc, 1, two)?)?)?;
    let player = read_player(alloc, &mut beaten(alloc, beats)?)?;
    match verdict_of(alloc, &filers, &player)? {
        Some(Verdict::Legal(_)) => Ok(is_lawful(one, two, beats)),
        Some(Verdict::Illegal { .. }) => Ok(!is_lawful(one, two, beats)),
        None => Ok(false),
    }
}

// The first lists of the filers, of one and of two calls each, that do not agree with this list of the player.
fn first_other(alloc: Global, k: usize, beat: &[u8]) -> Result<Option<[u8; 4]>, OutOfMemory> {
    for a in 0..9u8 {
        for b in 0..9u8 {
            let c = (a + 2 * b + (k % 9) as u8) % 9;
            let d = (2 * a + b + (k % 9) as u8) % 9;
            if !agrees(alloc, &[a, c], &[d, b], beat)? || !agrees(alloc, &[a], &[b], beat)? {
                return Ok(Some([a, c, d, b]));
            }
        }
    }
    Ok(None)
}

#[test]
fn the_verdict_on_ticks_is_that_of_a_search(rt: HostRuntime) -> Result<(), Fail> {
    // The player's lists in order: Idle, Base 1, erasure, frames of the first and the second filer.
    let beats = [
        [2, 2],
        [2, 3],
        [2, 4],
        [3, 2],
        [3, 3],
        [3, 4],
        [4, 2],
        [4, 3],
        [0, 1],
        [0, 2],
        [0, 3],
        [1, 2],
        [1, 4],
        [0, 0],
    ];
    for (k, beat) in beats.iter().enumerate() {
        assert!(rt; first_other(rt.alloc(), k, beat)?.is_none(), "{k}");
    }
    Ok(())
}

#[test]
fn the_verdict_on_looks_holds_and_retires_is_that_of_a_search(rt: HostRuntime) -> Result<(), Fail> {
    // Held and found (5, 6), looks that are free (7, 8) and filled (9, 10) at 0 and 1, and retires (11 to 13).
    let beats = [
        [5, 2],
        [5, 3],
        [5, 4],
        [5, 6],
        [5, 9],
        [6, 3],
        [7, 3],
        [7, 10],
        [8, 2],
        [8, 4],
        [8, 10],
        [9, 5],
        [9, 13],
        [10, 8],
        [10, 11],
        [2, 5],
        [3, 7],
        [11, 3],
        [11, 5],
        [12, 4],
        [1, 5],
        [0, 6],
    ];
    for (k, beat) in beats.iter().enumerate() {
        assert!(rt; first_other(rt.alloc(), k, beat)?.is_none(), "{k}");
    }
    Ok(())
}
