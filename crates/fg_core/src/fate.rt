//! What becomes of what a pass brings, and what it is told.

use fg_shape::Shape;
use fg_words::{Shared, Word};

/// What became of a word or a check that a pass brought.
#[derive(Clone, Copy, PartialEq)]
pub enum Fate {
    /// It was taken.
    Done,
    /// A word is known at this slot already.
    Beaten(u64),
    /// The equation isn't live any more, or solved words were withdrawn since the key was given.
    Gone {
        /// The first position that isn't played yet.
        mark: u64,
        /// How often solved words were withdrawn.
        epoch: u64,
    },
}

/// What a look at a position tells.
#[derive(Clone, Copy)]
pub enum Look {
    /// The word known there.
    Known(Word),
    /// None is known.
    Unknown,
    /// The equation isn't live any more, or solved words were withdrawn since the key was given.
    Gone {
        /// The first position that isn't played yet.
        mark: u64,
        /// How often solved words were withdrawn.
        epoch: u64,
    },
}

/// What a look at a position saw. It leaves the turn as it is, and is told behind it: a word that the desk can lend isn't
/// copied for it.
#[derive(Drop)]
pub enum Seen {
    /// A share of the word known there.
    Lent(Shared),
    /// All else that a look tells: also a word of which no share could be lent.
    Told(Look),
}

/// What a pass is told that asks for the equation of a key.
#[derive(Clone, Copy)]
pub enum Asked {
    /// The equation, which is live.
    Live {
        /// The position of its first slot.
        base: u64,
        /// How far its slots lie from each other, and how many they are.
        shape: Shape,
        /// The sum of the words at its slots.
        parity: Word,
    },
    /// The equation isn't live any more, or solved words were withdrawn since the key was given.
    Gone {
        /// The first position that isn't played yet.
        mark: u64,
        /// How often solved words were withdrawn.
        epoch: u64,
    },
}
