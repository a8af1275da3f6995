//! The answers of a desk.

/// The reply to a datagram, by the first rule that applies.
#[derive(Clone, Copy, PartialEq, Eq)]
pub enum Reply {
    /// The desk has it from now on.
    Admitted,
    /// The desk has the same word, or the same equation with the same parity word.
    Duplicate,
    /// The desk has another word there, or the same equation with another parity word.
    Conflict,
    /// Its position is played already, or its equation needs a word that is kept no more.
    Late,
    /// A parity datagram before any media datagram.
    NotStarted,
    /// A parity datagram whose base lies before the run's first media datagram.
    BeforeStart,
    /// A parity datagram that reaches 100 positions past the depth, or farther.
    Ahead,
    /// A parity datagram where 512 equations are live.
    Crowded,
    /// A media datagram of the sender before the current one.
    Foreign,
}

/// What a play's words are.
#[derive(Clone, Copy, PartialEq, Eq)]
pub enum Outcome {
    /// Received and recovered words, with which every equation comes out.
    Repaired,
    /// The received words alone, since no words would let every equation come out.
    Inconsistent,
}
