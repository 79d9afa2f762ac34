use super::*;
use std::test::Fail;

// 160 coded zeros: in each sub-frame the level is 0 and each pulse the least positive one.
const ZEROS: [u8; 33] = [
    0xD8, 0x20, 0xA2, 0xE1, 0x5A, 0x50, 0x00, 0x49, 0x24, 0x92, 0x49, 0x24, 0x50, 0x00, 0x49, 0x24,
    0x92, 0x49, 0x24, 0x50, 0x00, 0x49, 0x24, 0x92, 0x49, 0x24, 0x50, 0x00, 0x49, 0x24, 0x92, 0x49,
    0x24,
];

fn quiet(xmc: [u8; 13]) -> SubParams {
    SubParams {
        nc: 40,
        bc: 0,
        mc: 0,
        xmaxc: 0,
        xmc,
    }
}

#[test]
fn coded_zeros_are_read_and_written(rt: HostRuntime) -> Result<(), Fail> {
    let frame = frame_of(&ZEROS)?;
    let larc = [32, 32, 20, 11, 8, 5, 3, 2];
    let fields = Params::of(larc, [quiet([4; 13]); 4]).ok_or("the fields are within their widths")?;
    let read = unpack(&frame);
    assert_eq!(rt; *read.larc(), larc);
    assert_eq!(rt; read, fields);
    assert_eq!(rt; pack(&fields), frame);
    assert_eq!(rt; *frame.octets(), ZEROS);
    Ok(())
}

// The silence frame of the substitution profile, written down by hand from its fields.
#[test]
fn the_silence_frame_is_packed(rt: HostRuntime) -> Result<(), Fail> {
    let part = quiet([4, 3, 4, 3, 4, 3, 4, 3, 4, 3, 4, 3, 4]);
    let fields = Params::of([42, 39, 21, 10, 9, 4, 3, 2], [part; 4]).ok_or("within")?;
    let octets = *pack(&fields).octets();
    assert_eq!(rt; octets[..5], *[0xDA, 0xA7, 0xAA, 0xA5, 0x1A].as_slice());
    for start in [5, 12, 19, 26] {
        assert_eq!(rt;
            octets[start..start + 7],
            *[0x50, 0x00, 0x47, 0x1C, 0x71, 0xC7, 0x1C].as_slice()
        );
    }
    Ok(())
}

#[test]
fn other_signatures_and_wide_fields_are_refused(rt: HostRuntime) {
    let mut octets = ZEROS;
    octets[0] = 0xC8;
    assert_eq!(rt; frame_of(&octets), Err(BadSignature));
    let larc = [32, 32, 20, 11, 8, 5, 3, 2];
    let part = quiet([4; 13]);
    assert_eq!(rt; Params::of([64, 32, 20, 11, 8, 5, 3, 2], [part; 4]), None);
    for wide in [
        SubParams { nc: 128, ..part },
        SubParams { bc: 4, ..part },
        SubParams { mc: 4, ..part },
        SubParams { xmaxc: 64, ..part },
        quiet([4, 4, 4, 4, 4, 4, 4, 4, 4, 4, 4, 4, 8]),
    ] {
        assert_eq!(rt; Params::of(larc, [part, part, part, wide]), None);
    }
}
