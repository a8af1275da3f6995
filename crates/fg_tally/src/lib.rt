//! Tallies: for each live equation of a board the words at its slots so far, summed, each behind a lock of its own.
//!
//! Whoever knows a slot of the equation folds its word in. Whoever finds one slot missing offers what remains, which is
//! the word of that slot. Whoever finds none missing attests whether nothing remains.
#![tactic(auto)]

mod answers;
mod folding;
mod missing;
mod tallies;
mod tally;

pub use answers::{Begun, Folded, Held};
pub use tallies::Tallies;
pub use tally::Tally;
