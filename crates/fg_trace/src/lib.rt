//! The trace: timed datagrams one after another, as bytes.
//!
//! [`Reader`] walks a trace record by record, in bounded memory and whatever pieces its source gives.
//! [`write_datagram`] writes a record, and [`record_header`] gives what stands in it before the datagram. The format is
//! this project's own: eight magic bytes, and then for each record eight bytes of time, two of port, two of size, and the
//! datagram, each number with its highest byte first.
#![tactic(auto)]

mod header;
pub mod laws;
mod reader;
mod step;
mod write;

pub use header::MAGIC;
pub use reader::Reader;
pub use step::{Finish, Step, TraceFault};
pub use write::{record_header, write_datagram};
