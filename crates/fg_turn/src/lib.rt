//! A lock whose contract says what state it hands out.
//!
//! A [`Turn`] has one state, which one seat at a time may take out and must put back. Seats draw tickets and are
//! served in their order. The state's type is [`Guarded`]: it says what a step is, what the owner's entries make
//! of a state, and what a seat that was told something may rest on. Each state that is handed out meets all of it.
#![tactic(auto)]

mod guarded;
pub mod laws;
mod rule;
mod sleepers;
mod steps;
mod turn;
mod view;

pub use guarded::{Guarded, Named};
pub use turn::{Owner, Seat, Turn};
