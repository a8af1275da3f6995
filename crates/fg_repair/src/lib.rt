//! The repair of a trace with workers: one repaired stream for each flow, and a report.
#![tactic(auto)]

mod crewed;
mod planned;

pub use crewed::repair;
pub use fg_engine::repair_alone;
pub use planned::repair_as_planned;
