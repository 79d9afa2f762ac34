// Sequence numbers, and which packets are valid.
ghost use Rattle.std.specs.Prelude.{◌≡◌, ◌<◌, ◌^◌};
ghost use Rattle.rtcp_stats.specs.Sequences.{begun, at_first, counted, is_valid};
ghost use Rattle.rtcp_stats.specs.Losses.{part_of};

/// How far a sequence number may jump ahead.
const MAX_DROPOUT: u16 = 3000;

/// How far a sequence number may fall behind.
const MAX_MISORDER: u16 = 100;

/// How many packets in sequence make a source valid.
const MIN_SEQUENTIAL: u8 = 2;

/// What is known of a source's sequence numbers, by the names of RFC 3550 appendix A.1.
#[derive(Clone, Copy, Debug, PartialEq, Eq)]
pub struct Sequence {
    /// The sequence number that the count began with.
    pub base_seq: u16,
    /// The highest sequence number.
    pub max_seq: u16,
    /// 65536 for each time that the sequence numbers wrapped.
    pub cycles: u32,
    /// Where the next packet has this number, the source is taken to have begun anew.
    pub bad_seq: Option<u16>,
    /// How many packets in sequence are still wanted until the source is valid.
    pub probation: u8,
    /// How many valid packets came.
    pub received: u32,
    /// How many packets were expected when the last report was taken.
    pub expected_prior: u32,
    /// How many valid packets had come when the last report was taken.
    pub received_prior: u32,
}

impl Sequence {
    ghost use Rattle.rtcp_stats.specs.Sequences.{begun, at_first, counted, is_valid};
    ghost use Rattle.rtcp_stats.specs.Losses.{highest, expected, lost, fraction};
    ghost use Rattle.rtcp_stats.specs.Writing.{FitsLost};

    /// The count begins with this number.
    fn begin(seq: u16) -> Self
        ensures { result ≡ begun seq }
    {
        Sequence {
            base_seq: seq,
            max_seq: seq,
            cycles: 0,
            bad_seq: None,
            probation: 0,
            received: 0,
            expected_prior: 0,
            received_prior: 0,
        }
    }

    /// Before the first packet, which has this number, is counted.
    pub fn first(seq: u16) -> Self
        ensures { result ≡ at_first seq }
    {
        Sequence {
            max_seq: seq.wrapping_sub(1),
            probation: MIN_SEQUENTIAL,
            ..Sequence::begin(seq)
        }
    }

    /// Counts a packet, and answers whether it is valid (RFC 3550 appendix A.1).
    pub fn count(&mut self, seq: u16) -> bool
        ensures counted { self.new ≡ counted self.old seq }
        ensures valid { result ≡ is_valid self.old seq }
    {
        if self.probation > 0 {
            return self.prove(seq);
        }
        let ahead = seq.wrapping_sub(self.max_seq);
        if ahead < MAX_DROPOUT {
            if seq < self.max_seq {
                self.cycles = self.cycles.wrapping_add(65536);
            }
            self.max_seq = seq;
        } else if ahead <= u16::MAX - MAX_MISORDER + 1 {
            if self.bad_seq != Some(seq) {
                self.bad_seq = Some(seq.wrapping_add(1));
                return false;
            }
            *self = Sequence::begin(seq);
        }
        self.received = self.received.wrapping_add(1);
        true
    }

    /// Counts a packet of a source that is not valid yet.
    fn prove(&mut self, seq: u16) -> bool
        requires { 0 < self.old.probation }
        ensures counted { self.new ≡ counted self.old seq }
        ensures valid { result ≡ is_valid self.old seq }
    {
        if seq != self.max_seq.wrapping_add(1) {
            self.probation = MIN_SEQUENTIAL - 1;
            self.max_seq = seq;
            return false;
        }
        self.probation -= 1;
        self.max_seq = seq;
        if self.probation > 0 {
            return false;
        }
        *self = Sequence::begin(seq);
        self.received = 1;
        true
    }

    /// The highest sequence number, with the count of its cycles above the lower 16 bits.
    pub fn highest(&self) -> u32
        ensures { result ≡ highest self.now }
    {
        self.cycles.wrapping_add(u32::from(self.max_seq))
    }

    /// How many packets were expected (RFC 3550 appendix A.3).
    pub fn expected(&self) -> u32
        ensures { result ≡ expected self.now }
    {
        self.highest()
            .wrapping_sub(u32::from(self.base_seq))
            .wrapping_add(1)
    }

    /// How many packets were lost in all, within 24 bits.
    pub fn lost(&self) -> i32
        ensures lost { result ≡ lost self.now }
        ensures fits { FitsLost result }
    {
        self.expected()
            .wrapping_sub(self.received)
            .cast_signed()
            .clamp(-8388608, 8388607)
    }

    /// The part that was lost since the last report, in 256ths.
    pub fn fraction(&self) -> u8
        ensures { result ≡ fraction self.now }
    {
        let interval = self.expected().wrapping_sub(self.expected_prior);
        let received = self.received.wrapping_sub(self.received_prior);
        part_of(interval, interval.wrapping_sub(received).cast_signed())
    }

    /// The next report counts from here.
    pub fn set_priors(&mut self)
        ensures { self.new ≡ record self.old { expected_prior = expected self.old; received_prior = self.old.received } }
    {
        self.expected_prior = self.expected();
        self.received_prior = self.received;
    }
}

/// 256ths of an interval that were lost, 255 at most.
fn part_of(interval: u32, lost: i32) -> u8
    ensures { result ≡ part_of interval lost }
{
    if interval == 0 || lost <= 0 {
        return 0;
    }
    (256 * u64::from(lost.cast_unsigned()) / u64::from(interval)).min(255) as u8
}
