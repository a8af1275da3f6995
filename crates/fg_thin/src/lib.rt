//! Encodings with losses, and made streams, as sources.
#![tactic(auto)]

mod drawing;
pub mod laws;
mod made;
mod thinned;

pub use drawing::{drawn, sample_settings};
pub use made::Made;
pub use thinned::{StreamFault, Thinned, Thinning};
