//! The core of a board: one flow's desk with what passes do to it, as one thread at a time sees it.
//!
//! It has the state that a board's turn guards, the events of its admitter and its passes, and the laws: whatever
//! passes do, and in whatever order, the admitter's replies and plays are those of a desk that it has to itself.
#![tactic(auto)]

mod fate;
mod flow;
mod guard;
mod key;
pub mod laws;
mod notes;
mod open;
mod skipping;
mod work;

pub use fate::{Asked, Fate, Look, Seen};
pub use flow::Flow;
pub use key::Key;
pub use skipping::Skip;
pub use work::Work;
