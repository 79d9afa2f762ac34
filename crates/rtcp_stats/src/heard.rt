// Sender reports that were heard.
ghost use Rattle.std.specs.Prelude.{◌≡◌};
ghost use Rattle.rtcp_stats.specs.Statistics.{dlsr, lsr};

/// The last sender report that was heard.
#[derive(Clone, Copy, Debug, PartialEq, Eq)]
pub struct SenderReport {
    /// The middle 32 bits of its NTP time.
    pub lsr: u32,
    /// When it came, in 8000ths of a second.
    pub at: u32,
}

/// The middle 32 bits of the last report's NTP time, or 0 where none was heard.
pub fn last_report(heard: Option<SenderReport>) -> u32
    ensures { result ≡ lsr heard }
{
    heard.map_or(0, |report| report.lsr)
}

/// The delay since the last report, in 65536ths of a second, or 0 where none was heard.
pub fn delay_since(heard: Option<SenderReport>, at: u32) -> u32
    ensures { result ≡ dlsr heard at }
{
    match heard {
        None => 0,
        Some(report) => {
            let moments = u64::from(at.wrapping_sub(report.at));
            (moments * 1024 / 125).min(u64::from(u32::MAX)) as u32
        }
    }
}
