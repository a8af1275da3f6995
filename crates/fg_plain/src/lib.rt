//! A flow's run, plainly: what a flow does with its datagrams, told as one list of plays.
#![tactic(auto)]

mod run;

pub use run::{Datagram, FlowRun, ShownPlay, ShownWord, run_flow};
