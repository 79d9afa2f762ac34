// From a sample to its code.
ghost use Rattle.std.specs.Prelude.{◌≡◌, ◌≤◌, ◌<◌};
ghost use Rattle.g711_leg.specs.Best.{code_of};
ghost use Rattle.g711_leg.specs.Codes.{IsCompressed, magnitude_of};
ghost use Rattle.g711_leg.specs.Levels.{IsAbout, IsNearest, IsSegment, raised_of};

use crate::expanding::magnitude;
use crate::law::Law;

/// The code whose sample is nearest; of equally near ones that of the smaller magnitude, then the larger code.
pub fn compress(law: Law, sample: i16) -> u8
    ensures best { IsCompressed law sample result }
    ensures code { result ≡ code_of law sample }
{
    best_code(law, sample)
}

fn best_code(law: Law, sample: i16) -> u8
    ensures { IsCompressed law sample result }
{
    let level = nearest(law, u32::from(sample.unsigned_abs()));
    match law {
        Law::Mu if sample < 0 && level > 0 => 127 - level,
        Law::Mu => 255 - level,
        Law::A if sample < 0 => level ^ 0x55,
        Law::A => (level + 128) ^ 0x55,
    }
}

/// The level that is nearest to a magnitude; of two equally near ones the lower.
fn nearest(law: Law, size: u32) -> u8
    requires { size ≤ 32768 }
    ensures { IsNearest (magnitude_of law) size result }
{
    let above = level_about(law, size);
    if above == 0 {
        return 0;
    }
    let below = above - 1;
    if 2 * size <= magnitude(law, below) + magnitude(law, above) {
        below
    } else {
        above
    }
}

/// The level in whose segment and step a magnitude is: the nearest one, or the next above it.
fn level_about(law: Law, size: u32) -> u8
    requires { size ≤ 32768 }
    ensures { IsAbout (magnitude_of law) size result }
{
    match law {
        Law::Mu => raised_level(size + 132),
        Law::A if size < 256 => (size / 16) as u8,
        Law::A => raised_level(size),
    }
}

/// The same, where the segments double from 128 on.
fn raised_level(raised: u32) -> u8
    requires low { 128 ≤ raised }
    requires high { raised ≤ 32900 }
    ensures about { IsAbout raised_of raised result }
    ensures lowest { 256 ≤ raised → 16 ≤ result }
{
    let segment = segment(raised);
    let step = ((raised >> (segment + 3)) - 16).min(15);
    (16 * segment + step) as u8
}

/// The segment, which the highest digit tells.
fn segment(raised: u32) -> u32
    requires low { 128 ≤ raised }
    requires high { raised ≤ 32900 }
    ensures { IsSegment raised result }
{
    (24 - raised.leading_zeros()).min(7)
}
