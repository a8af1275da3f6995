//! The board: one flow's desk that many threads share.
//!
//! An admitter takes the flow's datagrams in and plays its windows. Passes take equations, solve or check them
//! elsewhere, and publish what they found. Whatever passes do, and in whatever order, the admitter's replies and plays
//! are those of a desk that it has to itself.
#![tactic(auto)]

mod admitter;
mod board;
mod job;
pub mod laws;
mod pass;
mod turns;

pub use admitter::Admitter;
pub use board::Board;
pub use fg_core::{Asked, Fate, Key, Look, Seen};
pub use job::Job;
pub use pass::Pass;
