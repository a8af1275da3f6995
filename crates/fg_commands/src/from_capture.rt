//! The command `fromcap`.
ghost use Rattle.std.specs.Prelude.{◌≤◌, ◌^◌};
ghost use Rattle.fg_commands.specs.Filter.{FilterEnded};
ghost use Rattle.fg_commands.specs.FromCapture.{from_capture as conversion};

use crate::ended::Ended;
use fg_io::{Sink, Source};
use fg_pcap::from_capture;
use std::alloc::Global;

/// Writes the trace of the UDP datagrams in the capture in the input, which may have at most `max` bytes, to `out`.
///
/// The capture is a classic pcap file of Ethernet frames, in either byte order, with times in microseconds or nanoseconds.
/// Frames that hold no whole UDP datagram over IPv4 are passed over. `NotCapture` tells a file header that isn't read, and then
/// nothing is written, or a record that keeps too many bytes; the datagrams of the records before it are then written, as they
/// are before `Cut` and `TooLong`. After a fault `out` has gained a prefix of the trace.
pub fn run_fromcap<S: Source, K: Sink>(alloc: Global, max: u64, input: &mut S, out: &mut K) -> Ended
    requires max { (8 ≤ max) × (max ≤ 2 ^ 40) }
    ensures { FilterEnded (conversion max) result S.left S.faults input.old input.new
        K.written K.faults out.old out.new }
{
    Ended::by(from_capture(alloc, max, input, out))
}
