//! The planner: which matrix of parity is the least that a burst of losses is to be survived by.
#![tactic(auto)]

mod choosing;
pub mod laws;
#[cfg(test)]
mod tests;
mod writing;

pub use choosing::choose;
pub use writing::write_choice;
