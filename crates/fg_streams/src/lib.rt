//! What a stream of media datagrams shows of its link: lost, late and reordered datagrams, bursts of losses, jitter and silences
//! (RFC 3550, RFC 4737), in bounded memory.
//!
//! [`Stream`] takes the datagrams of one sender on one port as they arrive, and [`Stream::finish`] ends them: it then tells what it shows.
#![tactic(auto)]

mod bursts;
mod fates;
mod gaps;
pub mod laws;
mod pace;
mod packets;
mod receiving;
mod recent;
mod span;
mod stream;
mod times;

pub use bursts::{Burst, Lengths};
pub use fates::{Counts, Fate};
pub use pace::{Pace, Sent, Silence, microseconds};
pub use span::Span;
pub use stream::Stream;
