// That the extended timestamp is the only number which fits.
ghost use Rattle.unwrap_ts.specs.FrameNumber.{IsOnlyExtended};

/// A law, with nothing to run: of the whole numbers congruent to a timestamp less the base, modulo 2^32,
/// the extended timestamp is the one from 2^31 below the reference to less than 2^31 above it.
pub fn only_extended()
    ensures { IsOnlyExtended }
{}
