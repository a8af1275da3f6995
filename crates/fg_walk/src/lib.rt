//! One walk over an input that writes what it makes of it, item by item; and what is told of a trace's records.
#![tactic(auto)]

mod teller;
mod trace;
mod walking;

pub use teller::{Datagram, Telling};
pub use trace::walk_trace;
pub use walking::{Walking, walk};
