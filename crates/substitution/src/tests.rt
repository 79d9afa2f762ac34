// Expected values are of the profile's rules by hand; the grid positions are of a second ChaCha8 outside the program.
use crate::{Heard, Masker, Voice};
use fr_decoder::Decoder;
use frame_codec::{Frame33, Item, Params, SubParams, pack};
use std::test::Fail;

/// The octets 0 to 31.
const SEED: [u8; 32] = [
    0, 1, 2, 3, 4, 5, 6, 7, 8, 9, 10, 11, 12, 13, 14, 15, 16, 17, 18, 19, 20, 21, 22, 23, 24, 25,
    26, 27, 28, 29, 30, 31,
];

/// Fields with these levels and grid positions; the rest tells the sub-frames apart.
fn fields(levels: [u8; 4], grids: [u8; 4]) -> Option<Params> {
    let sub = |k: u8, mc, xmaxc| SubParams {
        nc: 40 + k,
        bc: k,
        mc,
        xmaxc,
        xmc: [7, 0, 6, 1, 5, 2, 4, 3, 7, 0, 6, 1, k],
    };
    Params::of(
        [33, 31, 20, 11, 8, 5, 3, 2],
        [
            sub(0, grids[0], levels[0]),
            sub(1, grids[1], levels[1]),
            sub(2, grids[2], levels[2]),
            sub(3, grids[3], levels[3]),
        ],
    )
}

/// The fields of the silence frame.
fn silence() -> Option<Params> {
    let part = SubParams {
        nc: 40,
        bc: 0,
        mc: 0,
        xmaxc: 0,
        xmc: [4, 3, 4, 3, 4, 3, 4, 3, 4, 3, 4, 3, 4],
    };
    Params::of([42, 39, 21, 10, 9, 4, 3, 2], [part; 4])
}

/// The frame before the run.
fn loud() -> Option<Frame33> {
    Some(pack(&fields([63, 10, 4, 0], [0, 1, 2, 3])?))
}

/// Levels and grid positions at the erasures of a run after it, until silence.
const FADE: [([u8; 4], [u8; 4]); 16] = [
    ([63, 10, 4, 0], [0, 1, 2, 3]),
    ([59, 6, 0, 0], [0, 0, 0, 1]),
    ([55, 2, 0, 0], [2, 3, 2, 1]),
    ([51, 0, 0, 0], [1, 2, 1, 3]),
    ([47, 0, 0, 0], [1, 0, 3, 0]),
    ([43, 0, 0, 0], [3, 1, 3, 3]),
    ([39, 0, 0, 0], [0, 0, 1, 2]),
    ([35, 0, 0, 0], [2, 0, 3, 0]),
    ([31, 0, 0, 0], [3, 3, 3, 3]),
    ([27, 0, 0, 0], [3, 3, 3, 3]),
    ([23, 0, 0, 0], [3, 3, 1, 1]),
    ([19, 0, 0, 0], [3, 3, 2, 1]),
    ([15, 0, 0, 0], [1, 1, 3, 1]),
    ([11, 0, 0, 0], [3, 3, 0, 2]),
    ([7, 0, 0, 0], [3, 1, 0, 3]),
    ([3, 0, 0, 0], [3, 0, 3, 2]),
];

#[test]
fn eighteen_erasures(rt: HostRuntime) -> Result<(), Fail> {
    let mut masker = Masker::new(SEED);
    let first = loud().ok_or("fields")?;
    assert_eq!(rt; masker.step(Item::Idle), Heard::Nothing);
    assert_eq!(rt;
        masker.step(Item::Frame(first)),
        Heard::Speech(fields([63, 10, 4, 0], [0, 1, 2, 3]).ok_or("fields")?)
    );
    for (levels, grids) in FADE {
        let want = fields(levels, grids).ok_or("fields")?;
        assert_eq!(rt; masker.step(Item::Erasure), Heard::Speech(want));
        assert_eq!(rt; masker.step(Item::Idle), Heard::Nothing);
    }
    let quiet = silence().ok_or("fields")?;
    assert_eq!(rt; masker.step(Item::Erasure), Heard::Speech(quiet));
    assert_eq!(rt; masker.step(Item::Erasure), Heard::Speech(quiet));
    let last = fields([20, 21, 22, 23], [3, 2, 1, 0]).ok_or("fields")?;
    assert_eq!(rt; masker.step(Item::Frame(pack(&last))), Heard::Speech(last));
    assert_eq!(rt; masker.step(Item::Erasure), Heard::Speech(last));

    // fifteen words were used: the next is the sixteenth
    assert_eq!(rt;
        masker.step(Item::Erasure),
        Heard::Speech(fields([16, 17, 18, 19], [0, 2, 3, 0]).ok_or("fields")?)
    );
    Ok(())
}

#[test]
fn an_erasure_before_any_frame(rt: HostRuntime) -> Result<(), Fail> {
    let quiet = silence().ok_or("fields")?;
    let mut masker = Masker::new(SEED);
    let mut voice = Voice::new(SEED);
    let mut decoder = Decoder::new();
    let mut out = [1; 160];
    voice.play(Item::Idle, &mut out);
    assert!(rt; out == [0; 160]);
    for _ in 0..3 {
        assert_eq!(rt; masker.step(Item::Erasure), Heard::Speech(quiet));
        voice.play(Item::Erasure, &mut out);
        let mut want = [0; 160];
        decoder.decode(&quiet, &mut want);
        assert!(rt; out == want);
    }
    Ok(())
}

#[test]
fn a_voice_decodes_what_its_masker_gives(rt: HostRuntime) -> Result<(), Fail> {
    let mut voice = Voice::new(SEED);
    let mut decoder = Decoder::new();
    let first = loud().ok_or("fields")?;
    let mut out = [0; 160];
    let mut want = [0; 160];
    voice.play(Item::Frame(first), &mut out);
    decoder.decode(
        &fields([63, 10, 4, 0], [0, 1, 2, 3]).ok_or("fields")?,
        &mut want,
    );
    assert!(rt; out == want);
    for (levels, grids) in FADE {
        voice.play(Item::Erasure, &mut out);
        decoder.decode(&fields(levels, grids).ok_or("fields")?, &mut want);
        assert!(rt; out == want);
        voice.play(Item::Idle, &mut out);
        assert!(rt; out == [0; 160]);
    }
    Ok(())
}
