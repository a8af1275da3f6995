//! A gap case: which positions a desk knows, which its equations speak of, and which don't follow from them; and the judge of one.
#![tactic(auto)]

mod case;
mod judging;
pub mod laws;

pub use case::Case;
pub use fg_runs::{Rules, Runs};
pub use judging::{Answer, judge};
