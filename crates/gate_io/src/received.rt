// What comes over a link.

/// What a link has answered.
#[derive(Clone, Copy, Debug, PartialEq, Eq)]
pub enum Received {
    /// The first `len` octets of the piece are a datagram, at most 2048. It came at moment `at`, in 8000ths of a
    /// second, which wraps.
    Datagram { len: usize, at: u32 },
    /// Nothing has come yet.
    Idle,
    /// No more comes.
    Ended,
}
