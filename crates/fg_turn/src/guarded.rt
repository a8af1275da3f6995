//! What a state has to prove before a turn may guard it.
ghost use Rattle.std.specs.Prelude.{List, Option, Some, None, [], ◌∷◌, ◌++◌};
ghost use Rattle.fg_turn.specs.Entries.{Entry};

use std::marker::Brand;

/// A state that one seat at a time changes.
///
/// An entry, and a thing that a seat was told, is a finite list of numbers. The crate that implements this codes its
/// calls, and what they tell, as such lists, different ones by different lists. A state can be let go, since a turn
/// that finds no memory has to.
pub trait Guarded: Sized + Drop {
    /// One step: of its entry, where it is the owner's, and of the states before and after.
    ghost step: { Option Entry → Self → Self → Type 0 };

    /// What the owner's entries, in order, make of the state.
    ghost owner: { List Entry → Self → Type 0 };

    /// What a seat may rest on that was told these things.
    ghost grows: { List Entry → Self → Type 0 };

    /// A step with an entry extends the owner's entries by it.
    ghost extends: { (entries : List Entry) (entry : Entry) (before after : Self)
        → owner entries before
        → step (Some entry) before after → owner (entries ++ entry ∷ []) after };

    /// A step without an entry keeps them.
    ghost keeps: { (entries : List Entry) (before after : Self) → owner entries before
        → step None before after → owner entries after };

    /// Every step keeps what was told.
    ghost stays: { (entries told : List Entry) (entry : Option Entry) (before after : Self)
        → owner entries before → step entry before after → grows told before → grows told after };

    /// Who was told nothing rests on nothing.
    ghost untold: { (state : Self) → grows [] state };

    /// What holds of two lists of told things holds of both together.
    ghost both: { (first second : List Entry) (state : Self)
        → grows first state → grows second state
        → grows (first ++ second) state };
}

/// A list of entries, which the caller picks at a call by passing std's `Brand`.
///
/// A pick that is forgotten is no error: the list is then empty, so that [`Turn::leave`](crate::Turn::leave) tells
/// nothing. A caller's own clause on what was told stays open without the pick.
pub trait Named {
    ghost entries: { List Entry };
}

impl Named for Brand {
    ghost entries = { [] };
}
