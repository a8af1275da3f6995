//! Laws of what comes back of thinned encodings. Each is the contract of a function that does nothing, or only calls laws of
//! other crates.

pub use fg_thin::laws::{few, payloads};

pub mod covered;
pub mod drills;
pub mod full;
pub mod repaired;
pub mod sent;
pub mod true_runs;
