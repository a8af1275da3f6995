//! What a seat of the table knows. No value of these types is made: they are for proofs alone.
use std::collections::LinkedList;

/// A list of entries or of told things, each a list of numbers.
pub(crate) type Entries = LinkedList<LinkedList<u64>>;

pub(crate) enum Place {
    /// The table has its state, and its rule does not hold yet.
    Unopened,
    /// The seat was brought back.
    Spent,
    Outside,
    /// With this ticket, which counts on past 2^64.
    Waiting(u64),
    /// The seat has the turn of this ticket.
    Inside(u64),
}

pub(crate) struct View<S> {
    pub owns: bool,
    /// 0 for the owner, and then in the order in which the seats were made.
    pub number: u64,
    /// How many seats were split off, and how many of them have come back.
    pub split: u64,
    pub joined: u64,
    /// The owner's calls, as far as the seat has seen them.
    pub calls: Entries,
    pub told: Entries,
    pub turns: u64,
    pub place: Place,
    /// The states of the seat's last turn.
    pub entered: Option<S>,
    pub left: Option<S>,
}
