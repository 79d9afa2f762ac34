// Expected values are of a second evaluation of the formulas.
use crate::{Encoder, Front};
use frame_codec::pack;

/// A number that depends on each sample and on its place.
fn digest(samples: &[i16; 160]) -> u32 {
    let mut sum = 0u32;
    for sample in samples {
        sum = sum
            .wrapping_mul(31)
            .wrapping_add(sample.cast_unsigned() as u32);
    }
    sum
}

#[test]
fn a_first_piece_of_zeros(rt: HostRuntime) {
    let (codes, residual) = Front::new().step(&[0; 160]);
    assert_eq!(rt; codes, [32, 32, 20, 11, 8, 5, 3, 2]);
    assert!(rt; residual == [0; 160]);
}

#[test]
fn nine_pieces_of_noise_loud_and_quiet(rt: HostRuntime) {
    let mut front = Front::new();
    let mut seed = 1u32;
    // by how many places the noise is shifted, the codes, the digest of the residual, its first value and its last
    for (places, want, sum, first, last) in [
        (
            0u32,
            [39, 40, 25, 16, 11, 6, 4, 3],
            2565897174u32,
            7744i16,
            2383i16,
        ),
        (0, [43, 39, 26, 14, 10, 6, 4, 3], 1019320129, -11512, -9108),
        (2, [40, 40, 24, 13, 9, 6, 4, 1], 2991467259, 2794, -2258),
        (5, [41, 38, 23, 11, 11, 5, 4, 2], 1169917744, -610, -58),
        (8, [41, 38, 26, 12, 7, 5, 4, 1], 1125433948, -49, 64),
        (12, [30, 28, 16, 7, 6, 4, 2, 1], 3301324439, -11, 3),
        (0, [44, 36, 24, 14, 8, 7, 4, 2], 2317118226, 6608, 11484),
        (15, [32, 32, 20, 11, 8, 5, 3, 2], 1377634511, -4624, 0),
        (1, [41, 37, 24, 16, 10, 8, 5, 2], 1570638796, -7488, 2162),
    ] {
        let mut samples = [0i16; 160];
        for t in 0..160 {
            seed = seed.wrapping_mul(1664525).wrapping_add(1013904223);
            samples[t] = ((seed >> 16) as u16).cast_signed() >> places;
        }
        let (codes, residual) = front.step(&samples);
        assert_eq!(rt; codes, want);
        assert_eq!(rt; digest(&residual), sum);
        assert_eq!(rt; residual[0], first);
        assert_eq!(rt; residual[159], last);
    }
}

/// A frame of 160 coded zeros.
const SILENCE: [u8; 33] = [
    0xD8, 0x20, 0xA2, 0xE1, 0x5A, 0x50, 0x00, 0x49, 0x24, 0x92, 0x49, 0x24, 0x50, 0x00, 0x49, 0x24,
    0x92, 0x49, 0x24, 0x50, 0x00, 0x49, 0x24, 0x92, 0x49, 0x24, 0x50, 0x00, 0x49, 0x24, 0x92, 0x49,
    0x24,
];

#[test]
fn silence(rt: HostRuntime) {
    let mut encoder = Encoder::new();
    assert!(rt; *pack(&encoder.encode(&[0; 160])).octets() == SILENCE);
    assert!(rt; *pack(&encoder.encode(&[0; 160])).octets() == SILENCE);
}

#[test]
fn the_greatest_and_the_least_word_by_turns(rt: HostRuntime) {
    let mut samples = [32767; 160];
    for t in 0..80 {
        samples[2 * t + 1] = -32768;
    }
    let mut encoder = Encoder::new();
    for want in [
        [
            0xDF, 0xE3, 0xAB, 0x21, 0x5A, 0x50, 0x14, 0xE3, 0x1F, 0x71, 0xCA, 0xDC, 0x50, 0x06,
            0xFE, 0xE0, 0x8E, 0x35, 0x23, 0xBC, 0x46, 0xC7, 0x19, 0xCE, 0x08, 0xE2, 0xF0, 0x66,
            0xE7, 0x04, 0x71, 0xA9, 0x1A,
        ],
        [
            0xDF, 0xE0, 0xA2, 0xE1, 0x5A, 0xF1, 0x04, 0x05, 0x1B, 0x71, 0xC7, 0x1C, 0x55, 0x83,
            0xF5, 0x1C, 0x71, 0xC7, 0x1C, 0x51, 0xE3, 0x38, 0xE4, 0x6E, 0x37, 0x20, 0x51, 0xA1,
            0x1E, 0x71, 0xAF, 0x1C, 0xA2,
        ],
    ] {
        assert!(rt; *pack(&encoder.encode(&samples)).octets() == want);
    }
}

/// The next piece of noise, shifted down by this many places modulo 16.
fn noise(seed: &mut u32, places: u32) -> [i16; 160] {
    let mut word = *seed;
    let mut samples = [0i16; 160];
    for t in 0..160 {
        word = word.wrapping_mul(1664525).wrapping_add(1013904223);
        samples[t] = ((word >> 16) as u16).cast_signed() >> (places % 16);
    }
    *seed = word;
    samples
}

/// The next piece of a sine: a point that turns, seen from the side.
fn sine(point: &mut (i32, i32)) -> [i16; 160] {
    let (mut x, mut y) = *point;
    let mut samples = [0i16; 160];
    for t in 0..160 {
        x = x.wrapping_sub(y >> 3);
        y = y.wrapping_add(x >> 3);
        samples[t] = y.clamp(-32768, 32767) as i16;
    }
    *point = (x, y);
    samples
}

#[test]
fn four_seconds_of_noise_and_a_sine(rt: HostRuntime) {
    let mut encoder = Encoder::new();
    let mut seed = 1;
    let mut point = (20000, 0);
    let mut sum = 0u32;
    let mut n = 0u32;
    // how many frames more, what all octets so far sum up to, and the octets of the last frame
    for (count, want_sum, want) in [
        (
            1u32,
            3969919338u32,
            [
                0xD9, 0xE8, 0xCC, 0x2D, 0xA3, 0x50, 0x3A, 0x2C, 0x3A, 0x87, 0x8D, 0xEB, 0x5E, 0xFC,
                0xDE, 0xE5, 0xD4, 0x3E, 0xF9, 0x5C, 0xBF, 0x87, 0x67, 0x56, 0x48, 0x2B, 0x6E, 0xBE,
                0xB4, 0xBB, 0x2D, 0x23, 0xBD,
            ],
        ),
        (
            1,
            1743903226,
            [
                0xDA, 0xE7, 0xD3, 0xA9, 0xA3, 0xD4, 0x3C, 0x88, 0x9C, 0x89, 0xBA, 0xE2, 0xBE, 0x99,
                0x79, 0x6D, 0xED, 0x5D, 0xC3, 0xDE, 0x3B, 0x46, 0x1C, 0xED, 0xAA, 0xEA, 0x51, 0x59,
                0x43, 0x1C, 0x8B, 0x23, 0x28,
            ],
        ),
        (
            8,
            3749319705,
            [
                0xDA, 0x66, 0xD4, 0x29, 0xE3, 0x7A, 0xE0, 0xD6, 0xB3, 0xB6, 0x49, 0x93, 0x9E, 0xC1,
                0x54, 0xE4, 0x4E, 0xCB, 0x92, 0xDE, 0xA0, 0xBA, 0xED, 0x8A, 0xBD, 0xA2, 0x60, 0xE0,
                0x95, 0x62, 0x96, 0xA9, 0x22,
            ],
        ),
        (
            1,
            1198642419,
            [
                0xD0, 0xAA, 0xD4, 0x2D, 0xE3, 0x79, 0xDC, 0x5D, 0xFE, 0xB1, 0xB6, 0xDB, 0x58, 0x0D,
                0x94, 0x88, 0x05, 0x39, 0x24, 0xB8, 0x4D, 0xB6, 0xE2, 0x20, 0x14, 0xE4, 0xC0, 0x43,
                0x6D, 0xB7, 0xB2, 0x5B, 0x6C,
            ],
        ),
        (
            3,
            892587183,
            [
                0xD0, 0xAA, 0xD4, 0x2D, 0xE3, 0x65, 0x20, 0x92, 0x9D, 0xDA, 0xEB, 0x1A, 0xC3, 0x40,
                0x00, 0x02, 0x77, 0xFF, 0xFD, 0xC1, 0x20, 0xC8, 0xDA, 0x65, 0x24, 0xDD, 0xCB, 0x40,
                0xFD, 0x63, 0x45, 0x14, 0x9B,
            ],
        ),
        (
            6,
            1949267816,
            [
                0xD0, 0xAB, 0xDC, 0x2D, 0xE3, 0x65, 0x20, 0xB7, 0x25, 0xDB, 0x6B, 0x23, 0x67, 0x80,
                0x58, 0xE2, 0x6A, 0x36, 0xDB, 0xC9, 0x20, 0xD8, 0xD1, 0x24, 0xA7, 0x2E, 0xCB, 0x80,
                0x26, 0xE4, 0x4D, 0xB6, 0xE3,
            ],
        ),
        (
            1,
            3907823908,
            [
                0xDA, 0x22, 0xB3, 0x1C, 0xDA, 0x57, 0xD0, 0x0D, 0x1C, 0x8E, 0xBB, 0x2A, 0x66, 0xCC,
                0x4C, 0x93, 0x92, 0x0D, 0x1F, 0xB7, 0x6B, 0xBE, 0xA3, 0x86, 0x2A, 0xB1, 0xEE, 0xCB,
                0xA9, 0x38, 0x8E, 0x3A, 0x4D,
            ],
        ),
        (
            30,
            695771619,
            [
                0xD4, 0xD9, 0x82, 0x61, 0x63, 0xCA, 0x9A, 0x02, 0x94, 0x96, 0xD8, 0xE3, 0x56, 0x2A,
                0x26, 0xDB, 0x93, 0xFF, 0xF5, 0xB2, 0x0C, 0x08, 0x6B, 0x44, 0xA9, 0x77, 0xC6, 0x4C,
                0x5B, 0x11, 0x00, 0x02, 0xA5,
            ],
        ),
        (
            149,
            3261519932,
            [
                0xD0, 0x6D, 0xE4, 0x2D, 0xE3, 0xC2, 0xC0, 0xB2, 0x42, 0x6E, 0xD9, 0x64, 0xB3, 0x00,
                0x6D, 0x12, 0x49, 0x24, 0x9B, 0xBC, 0xE0, 0xC6, 0x91, 0x25, 0x25, 0x25, 0x67, 0x20,
                0x7F, 0xFD, 0x8C, 0x80, 0x02,
            ],
        ),
    ] {
        let mut octets = [0; 33];
        for _ in 0..count {
            let samples = if n % 20 >= 10 {
                sine(&mut point)
            } else {
                noise(&mut seed, n)
            };
            octets = *pack(&encoder.encode(&samples)).octets();
            for octet in octets {
                sum = sum.wrapping_mul(31).wrapping_add(octet as u32);
            }
            n = n.wrapping_add(1);
        }
        assert_eq!(rt; sum, want_sum, "the frames before {n}");
        assert!(rt; octets == want);
    }
}
