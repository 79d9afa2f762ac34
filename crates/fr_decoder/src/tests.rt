// Expected values are of a second evaluation of the formulas, and of libgsm, which agree.
use crate::Decoder;
use frame_codec::{Params, SubParams, frame_of, unpack};
use std::test::Fail;

/// A frame of 160 coded zeros.
const SILENCE: [u8; 33] = [
    0xD8, 0x20, 0xA2, 0xE1, 0x5A, 0x50, 0x00, 0x49, 0x24, 0x92, 0x49, 0x24, 0x50, 0x00, 0x49, 0x24,
    0x92, 0x49, 0x24, 0x50, 0x00, 0x49, 0x24, 0x92, 0x49, 0x24, 0x50, 0x00, 0x49, 0x24, 0x92, 0x49,
    0x24,
];

/// A number that depends on each sample and on its place.
fn digest(samples: &[i16; 160]) -> u32 {
    let mut sum = 0u32;
    for sample in samples {
        sum = sum
            .wrapping_mul(31)
            .wrapping_add(sample.cast_unsigned() as u32);
    }
    sum
}

#[test]
fn coded_zeros(rt: HostRuntime) -> Result<(), Fail> {
    let params = unpack(&frame_of(&SILENCE)?);
    let mut decoder = Decoder::new();
    let mut out = [0; 160];
    decoder.decode(&params, &mut out);
    assert_eq!(rt;
        &out[..16],
        [8, 0, 0, 8, 8, 8, 16, 8, 8, 16, 16, 8, 16, 16, 16, 16].as_slice()
    );
    assert_eq!(rt; digest(&out), 2860868312);
    decoder.decode(&params, &mut out);
    assert_eq!(rt; digest(&out), 2104266720);
    Ok(())
}

/// The fields of a frame with these lags.
fn with_lags(lags: [u8; 4]) -> Option<Params> {
    let sub = |nc, mc| SubParams {
        nc,
        bc: 3,
        mc,
        xmaxc: 40 + mc,
        xmc: [7, 0, 6, 1, 5, 2, 4, 3, 7, 0, 6, 1, 5],
    };
    Params::of(
        [32, 32, 20, 11, 8, 5, 3, 2],
        [
            sub(lags[0], 0),
            sub(lags[1], 1),
            sub(lags[2], 2),
            sub(lags[3], 3),
        ],
    )
}

#[test]
fn lags_out_of_range_in_a_first_frame(rt: HostRuntime) -> Result<(), Fail> {
    let mut out = [0; 160];
    Decoder::new().decode(&with_lags([39, 40, 120, 121]).ok_or("too wide")?, &mut out);
    let mut within = [0; 160];
    Decoder::new().decode(
        &with_lags([40, 40, 120, 120]).ok_or("too wide")?,
        &mut within,
    );
    assert!(rt; out == within);
    assert_eq!(rt;
        &out[..6],
        [8064, 6928, 5960, -2936, -2528, -2144].as_slice()
    );
    assert_eq!(rt;
        &out[40..46],
        [8576, 16528, 14136, 4200, -5440, -4600].as_slice()
    );
    assert_eq!(rt;
        &out[80..86],
        [1488, 1232, 11016, 9520, 8232, -2872].as_slice()
    );
    assert_eq!(rt;
        &out[120..126],
        [9056, 8000, 6632, 8600, 7296, 6520].as_slice()
    );
    Ok(())
}

/// The next frame of a generator of noise.
fn noise(seed: &mut u32) -> [u8; 33] {
    let mut octets = [0; 33];
    for k in 0..33 {
        *seed = seed.wrapping_mul(1664525).wrapping_add(1013904223);
        octets[k] = (*seed >> 24) as u8;
    }
    octets[0] = 0xD0 + octets[0] % 16;
    octets
}

#[test]
fn twelve_frames_of_noise(rt: HostRuntime) -> Result<(), Fail> {
    let mut decoder = Decoder::new();
    let mut out = [0; 160];
    let mut seed = 1;
    // the digest of a frame's samples, the first and the last
    for (want, first, last) in [
        (2269644304, 0, -120),
        (1409908136, 6992, -26416),
        (4220516672, -19096, -32768),
        (3409516496, -32768, 32760),
        (3517647720, 9712, -32768),
        (2406580928, -31672, -32768),
        (3425960056, -11920, 8520),
        (823192144, 12712, -11536),
        (2155607176, -15952, -816),
        (941947976, 1936, 32760),
        (3889162128, 32760, 6672),
        (573041776, 32472, 32760),
    ] {
        decoder.decode(&unpack(&frame_of(&noise(&mut seed))?), &mut out);
        assert_eq!(rt; digest(&out), want);
        assert_eq!(rt; out[0], first);
        assert_eq!(rt; out[159], last);
    }
    Ok(())
}
