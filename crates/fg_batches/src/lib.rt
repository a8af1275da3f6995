//! The repair of a trace in batches of records, in three stages beside each other: one reads batches ahead, one has the flows run
//! them, and one puts what they show to the lanes.
#![tactic(auto)]

mod emptying;
mod flows;
mod gathering;
mod passing;
mod playing;
mod putting;
mod reading;
mod records;
mod running;
mod walking;

pub use records::repair_in_batches;
