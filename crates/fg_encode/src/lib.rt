//! The encoder: a stream of transport packets as timed media and parity datagrams (RFC 2250, SMPTE ST 2022-1 and
//! ST 2022-2).
#![tactic(auto)]

mod batch;
mod clock;
mod encoder;
mod encoding;
pub mod laws;
mod lines;
pub mod stream;

pub use batch::Batch;
pub use encoder::Encoder;
pub use encoding::encode;
