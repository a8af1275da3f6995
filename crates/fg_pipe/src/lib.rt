//! Three stages, each in a thread of its own that lives as long as the call: what the first gives the second takes, and what the second
//! makes the third stores. What was taken, and what was stored, comes back empty, so that no memory is taken meanwhile.
#![tactic(auto)]

mod ends;
mod link;
mod loops;
mod running;
mod signals;
mod stage;
mod steps;

pub use link::{Back, Full, Passes};
pub use running::run_three;
pub use stage::{Giver, Maker, Storer};
