//! The repair of a trace on one thread: one repaired stream for each flow, and a report.
//!
//! What a flow does with a record, and at the end, is written once, over any window state: a desk, or what stands for one.
#![tactic(auto)]

mod alone;
mod counts;
mod engine;
mod flow;
mod play;
mod player;
mod records;
mod shelved;
mod window;

pub use alone::repair_alone;
pub use engine::{Engine, flush, make_lanes};
pub use flow::Flow;
pub use player::{LaneWriter, Player, ShelfFiller};
pub use records::{Begun, begin, end, finish_at, give_up, repair_windows, report};
pub use shelved::Shelved;
pub use window::{Skipped, WindowState};
