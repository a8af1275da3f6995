//! The command `tocap`.
ghost use Rattle.std.specs.Prelude.{◌≤◌, ◌^◌};
ghost use Rattle.fg_commands.specs.Filter.{FilterEnded};
ghost use Rattle.fg_commands.specs.ToCapture.{to_capture as spelling};

use crate::ended::Ended;
use fg_io::{Sink, Source};
use fg_pcap::to_capture;
use std::alloc::Global;

/// Writes a capture of the records of the trace in the input, which may have at most `max` bytes, to `out`.
///
/// `Unfit` tells the first record whose time or size a capture can't tell. The records before it are then written, as they are
/// before `Cut` and `TooLong`. After a fault `out` has gained a prefix of the capture.
// Compiled apart, so that its loop has all registers.
#[inline(never)]
pub fn run_tocap<S: Source, K: Sink>(alloc: Global, max: u64, input: &mut S, out: &mut K) -> Ended
    requires max { (8 ≤ max) × (max ≤ 2 ^ 40) }
    ensures { FilterEnded (spelling max) result S.left S.faults input.old input.new
        K.written K.faults out.old out.new }
{
    Ended::by(to_capture(alloc, max, input, out))
}
