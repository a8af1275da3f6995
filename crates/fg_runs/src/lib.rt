//! What a gap case is made of: runs of positions, and the slots of equations.
#![tactic(auto)]

pub mod laws;
mod rules;
mod runs;
#[cfg(test)]
mod tests;

pub use rules::Rules;
pub use runs::Runs;
