//! What the records of a trace come to: each flow's lane and counts, the report, and what a fault leaves of them. The laws
//! that show this to be right, and what a repair promises.
#![tactic(auto)]

mod ends;
pub mod laws;

pub use ends::Ends;
