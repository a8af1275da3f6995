//! Which positions around a desk's mark are known, which follow from its equations, and which don't.
#![tactic(auto)]

mod closure;
mod ordering;
mod reading;
mod runs_of;
mod search;

pub use closure::Closure;
