// How a line is run.

/// What a line is opened with.
#[derive(Clone, Copy, Debug)]
pub struct LineOptions {
    /// The ring has 2^g slots, with g from 0 to 10.
    pub g: u32,
    /// The delay in frames of 20 ms, below the number of slots.
    pub delay: u32,
    /// The key of the random words that choose the grid positions of covered frames.
    pub seed: [u8; 32],
    /// How many beats of 20 ms the player makes at most, 1 to 16000000.
    pub ticks: u64,
    /// After how many valid packets a filer's report is due, 1 to 65535.
    pub report: u32,
    /// The source of the reports and of the packets of return speech.
    pub own: u32,
    /// The sequence number of the first packet of return speech.
    pub sequence: u16,
    /// The timestamp of that packet, in samples at 8 kHz.
    pub stamp: u32,
    /// By how many frames of 20 ms the player may let the delay grow, 0 to 15; 0 where the ring has one slot.
    pub elastic: u32,
}
