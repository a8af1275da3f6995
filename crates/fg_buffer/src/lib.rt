//! The storage of a flow's window: the words around the mark, and the live equations.
#![tactic(auto)]

mod entry_list;
mod line_slab;
mod live_equations;
mod places;
mod playout_buffer;
mod retiring;
mod small_slots;
mod spares;
mod watches;

pub use live_equations::{LIVE_LIMIT, LiveEquations};
pub use playout_buffer::{KEPT, PlayoutBuffer, Told};
pub use retiring::lost_slot;
pub use watches::Watches;
