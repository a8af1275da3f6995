//! The report of a run: what each flow showed, in numbers, and its text.
#![tactic(auto)]

mod fault;
mod flow_sum;
mod gaps;
pub mod laws;
mod lines;
mod marks;
mod report;
mod shelf;
mod tail;

pub use fault::ReportFault;
pub use flow_sum::FlowSum;
pub use gaps::Gaps;
pub use marks::Marks;
pub use report::write_report;
pub use shelf::Shelf;
pub use tail::Tail;
