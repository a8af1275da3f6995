//! What playing a flow out means: its desk by definition, what is admitted, when it is played, what a run gives, and the laws of
//! these.
#![tactic(auto)]

pub mod laws;
mod reply;

pub use reply::{Outcome, Reply};

/// The mark and the farthest position are below this where a desk may change.
pub const FARTHEST_LIMIT: u64 = 1 << 61;

/// Fewer calls than this were made where a desk may change.
pub const CALL_LIMIT: u64 = 1 << 62;
