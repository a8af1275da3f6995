//! The picking of records from a trace: by flow, port, synchronization source and time.
#![tactic(auto)]

mod fitting;
pub mod laws;
mod ports;
mod walk;

pub use walk::pick;

#[cfg(test)]
mod tests;
