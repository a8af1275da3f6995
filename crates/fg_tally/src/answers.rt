//! What the calls of a tally answer.

use fg_board::Key;
use fg_shape::Shape;

/// What came of a start.
#[derive(Clone, Copy, PartialEq, Eq)]
pub enum Begun {
    /// The tally holds the key, with nothing folded.
    Held,
    /// The equation isn't live any more, or solved words were withdrawn since the key was given.
    Gone {
        /// The first position that isn't played yet.
        mark: u64,
        /// How often solved words were withdrawn.
        epoch: u64,
    },
}

/// What came of a fold.
#[derive(Clone, Copy, PartialEq, Eq)]
pub enum Folded {
    /// So many slots are missing still, at least two.
    Waiting(u8),
    /// This slot alone is missing: what remains is its word.
    Last(u64),
    /// No slot is missing. Whether nothing remains, as it is where the equation comes out.
    Whole(bool),
    /// The tally doesn't hold the key, or the equation is gone.
    Stale,
    /// No word is known at the slot.
    Unknown,
}

/// What a tally holds.
#[derive(Clone, Copy)]
pub struct Held {
    /// The key that it was started with.
    pub key: Key,
    /// The position of the equation's first slot.
    pub base: u64,
    /// How far its slots lie from each other, and how many they are.
    pub shape: Shape,
    /// Which slots were folded: bit `j` is set where the slot of number `j` was, counted from 0.
    pub folded: u32,
}
