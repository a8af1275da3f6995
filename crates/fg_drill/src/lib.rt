//! Drills and samples: what a repair gives for an encoding with losses, and what of its stream comes back.
#![tactic(auto)]

pub mod laws;

pub use fg_thin::{Made, StreamFault, Thinned, Thinning, drawn, sample_settings};
