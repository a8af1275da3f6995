//! The outside of the program: where bytes come from and where they go.
//!
//! [`Source`] gives bytes, [`Sink`] takes them, and [`Outlet`] keeps one lane of bytes for each port.
//! Each counts the faults of the outside. A call answers [`Failed`] only where that count rose in the call, or stands
//! at its last value, 2^64 - 1; and a call that does what it is asked leaves the count as it was. What is built on
//! these answers a [`Fault`], which says whose fault it was, and counts as its clause `faults` says.
#![tactic(auto)]

mod calls;
mod fault;
mod folder;
mod held;
mod input_buffer;
mod lane_keeper;
mod lane_name;
pub mod laws;
mod mem_outlet;
mod mem_sink;
mod mem_source;
mod open_files;
mod outlet;
mod output_buffer;
mod safe;
mod sink;
mod source;
mod standard;
mod standing;

pub use fault::Fault;
pub use folder::FolderOutlet;
pub use held::{HeldStreams, hold_standard_streams};
pub use input_buffer::{Ahead, InputBuffer};
pub use mem_outlet::MemOutlet;
pub use mem_sink::MemSink;
pub use mem_source::MemSource;
pub use outlet::{Outlet, close, prepare, put};
pub use output_buffer::OutputBuffer;
pub use safe::{SafeOutlet, SafeSink, SafeSource};
pub use sink::{Sink, write_all, write_pieces};
pub use source::Source;
pub use standard::{ReaderSource, StderrSink, StdinSource, StdoutSink, WriterSink};

/// A fault of the outside. The count of faults of the object that was called rose in the call, or stands at its last
/// value.
#[derive(Clone, Copy, Debug, PartialEq, Eq)]
pub struct Failed;
