//! The counters of one kind of datagrams.

/// How many datagrams of a kind got each reply. Media datagrams get the first four only, `bad` and `foreign`, which parity
/// datagrams don't get.
#[derive(Clone, Copy, Default)]
pub struct Marks {
    /// Taken.
    pub admitted: u64,
    /// Held already, with the same content.
    pub duplicate: u64,
    /// Held already, with another content.
    pub conflict: u64,
    /// Behind the window.
    pub late: u64,
    /// Parity before the first media datagram.
    pub not_started: u64,
    /// Parity of positions before those of the run.
    pub before_start: u64,
    /// Parity too far ahead of the window.
    pub ahead: u64,
    /// Parity for which there was no place left.
    pub crowded: u64,
    /// Refused by the reader of its format.
    pub bad: u64,
    /// Of the sender of the run before.
    pub foreign: u64,
}
