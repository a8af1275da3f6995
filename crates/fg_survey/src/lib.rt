//! The survey of a trace: what it holds, port by port and stream by stream, before or beside a repair.
#![tactic(auto)]

mod lanes;
pub mod laws;
mod lines;
mod parts;
mod ports;
mod reading;
mod rows;
mod senders;
mod sheet;
mod streams;
mod tally;
mod totals;
mod walk;

pub use reading::Reading;
pub use rows::Row;
pub use senders::Sender;
pub use tally::Matrix;
pub use totals::Totals;
pub use walk::survey;
