//! The workers' side of a repair: what they and the caller share of each flow's board, and what they do there.
//!
//! The workers start tallies for the equations that are held, fold into them meanwhile what has arrived, and bring the word of the
//! one slot that is missing. What each board and each tally then holds is told by their own contracts, whatever is done here.
#![tactic(auto)]

mod arrivals;
mod bits;
mod folding;
mod held_places;
mod helping;
mod opening;
mod places;
mod points;
mod post;
mod signal;
mod walk;

pub use arrivals::{Arrivals, Progress};
pub use folding::Ready;
pub use held_places::{HeldEquation, HeldPlaces};
pub use helping::Helping;
pub use opening::{open, open_tallies};
pub use places::{FlowTallies, Places, Spot};
pub use points::{CALLER, Hears, PLAYING};
pub use post::{Crew, Host, Post, Remembered};
pub use signal::Signal;
