//! A desk: one flow's window state.
#![tactic(auto)]

mod closing;
mod desk;
mod finding;
mod holding;
mod skipping;
mod storage;
mod tray;

pub use desk::{Desk, Played};
pub use fg_playout::{Outcome, Reply};
pub use tray::Tray;
