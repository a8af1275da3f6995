//! The command `monitor`.
ghost use Rattle.std.specs.Prelude.{◌≤◌, ◌^◌};
ghost use Rattle.fg_commands.specs.Filter.{FilterEnded};
ghost use Rattle.fg_commands.specs.Monitoring.{monitoring};

use crate::ended::Ended;
use fg_encode::stream::one_cut;
use fg_io::{Sink, Source};
use fg_monitor::monitor_stream;
use std::alloc::Global;

/// Monitors the stream in the input, which may have at most `max` bytes: writes a line to `out` for each packet that breaks the
/// continuity of its PID, and last how many packets and faults there are.
///
/// `NotTransport` and `TooLong` tell the first packet that isn't one, or isn't whole within the limit. The lines of those before
/// it are then written, and not the last. After a fault `out` has gained a prefix of the text.
// Compiled apart, so that its loop has all registers.
#[inline(never)]
pub fn run_monitor<S: Source, K: Sink>(alloc: Global, max: u64, input: &mut S, out: &mut K) -> Ended
    requires max { (8 ≤ max) × (max ≤ 2 ^ 40) }
    ensures { FilterEnded (monitoring max) result S.left S.faults input.old input.new
        K.written K.faults out.old out.new }
{
    one_cut();
    Ended::by(monitor_stream(alloc, max, input, out))
}
