// Interarrival jitter.
ghost use Rattle.std.specs.Prelude.{◌≡◌, ◌≤◌};
ghost use Rattle.rtcp_stats.specs.Jitter.{smoothed, IsSmooth};

/// The jitter after a valid packet of this transit time, in 16ths (RFC 3550 appendix A.8). The first valid
/// packet has no transit time before it, and leaves the jitter.
pub fn smoothed(before: Option<u32>, transit: u32, jitter: u64) -> u64
    requires { IsSmooth jitter }
    ensures value { result ≡ smoothed before transit jitter }
    ensures bound { IsSmooth result }
{
    match before {
        None => jitter,
        Some(before) => {
            let difference = transit.wrapping_sub(before).cast_signed().unsigned_abs();
            jitter + u64::from(difference) - (jitter + 8) / 16
        }
    }
}
