//! A crew: threads that help a body on hints, and know neither what the body does nor what they help with.
#![tactic(auto)]

mod chore;
mod gate;
mod hints;
mod pace;
mod running;

pub use chore::{Body, Chore};
pub use gate::{Gate, NoGate};
pub use hints::{HINTS_LIMIT, Hints};
pub use running::{crew, run_beside};
