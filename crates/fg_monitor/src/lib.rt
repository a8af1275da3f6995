//! The monitor of a transport stream: one line of text for each break of a continuity counter, and how many there are.
#![tactic(auto)]

mod continuity;
pub mod laws;
mod lines;
mod walk;

pub use continuity::{Break, Monitor};
pub use walk::monitor_stream;
