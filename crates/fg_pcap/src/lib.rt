//! Captures: classic pcap files, of which traces are made, and which traces are made into.
//!
//! The file format is that of draft-ietf-opsawg-pcap, read in either byte order and with times in microseconds or
//! nanoseconds. The frames are Ethernet's, and the datagrams are UDP's over IPv4.
#![tactic(auto)]

mod capture_reader;
mod checksum;
mod conversion;
mod ending;
mod file_header;
mod frame;
pub mod laws;
mod packet_header;
mod spelling;
mod writer;

pub use conversion::from_capture;
pub use ending::CaptureEnding;
pub use file_header::{ByteOrder, TimeUnit};
pub use spelling::fit;
pub use writer::{SpellingEnding, to_capture};
