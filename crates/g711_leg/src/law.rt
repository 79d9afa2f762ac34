// The laws of ITU-T G.711.

/// How a code of 8 bits stands for a sample (ITU-T G.711).
#[derive(Clone, Copy, Debug, PartialEq, Eq)]
pub enum Law {
    /// Mu-law (table 2).
    Mu,
    /// A-law (table 1).
    A,
}
