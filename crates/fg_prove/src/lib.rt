//! The cases of a flow's gaps: of each repaired play that shows a position as missing, what its desk had.
#![tactic(auto)]

mod gaps;
pub mod laws;
mod prover;
mod text;
mod walk;

pub use walk::prove_flow;
