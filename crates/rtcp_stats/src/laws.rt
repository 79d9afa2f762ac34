// What the definitions of this crate mean.
ghost use Rattle.std.specs.Prelude.{ℕ, List};
ghost use Rattle.rtcp_stats.specs.Compound.{IsJudged};
ghost use Rattle.rtcp_stats.specs.Writing.{IsReadBack};

/// A law, with nothing to run: a datagram of fewer than 2048 octets has no fault exactly where it is one or
/// more packets without a fault, one after the other to its end; and its fault is that of the first packet
/// that has one.
pub fn first_faults()
    ensures { (d : List ℕ) → IsJudged d }
{}

/// A law, with nothing to run: what `write_report` writes is no refused datagram, and is read as the same
/// block, and no sender.
pub fn report_read_back()
    ensures { IsReadBack }
{}
