//! The inspection of a trace: one line of text for each record.
#![tactic(auto)]

pub mod laws;
mod lines;
mod reading;
mod walk;

pub use reading::Reading;
pub use walk::inspect;
