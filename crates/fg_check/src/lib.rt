//! The checker of gap certificates: reads the texts of cases, judges each, and writes a line of text for each.
#![tactic(auto)]

mod gathering;
pub mod laws;
mod lines;
mod reading;
mod walk;

pub use walk::{Checked, check_cases};
