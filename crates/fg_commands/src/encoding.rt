//! The command `encode`.
ghost use Rattle.std.specs.Prelude.{◌≤◌, ◌^◌};
ghost use Rattle.fg_shape.specs.Settings.{CanEncode};
ghost use Rattle.fg_commands.specs.Encoding.{encoding};
ghost use Rattle.fg_commands.specs.Filter.{FilterEnded};

use crate::ended::Ended;
use fg_encode::encode;
use fg_encode::stream::one_cut;
use fg_io::{Sink, Source};
use fg_shape::Settings;
use std::alloc::Global;

/// Encodes the stream in the input, which may have at most `max` bytes, and writes the trace of its media and parity datagrams
/// to `out`.
///
/// The stream is cut into payloads of so many packets as the settings say, the last one as it comes. `NotTransport` and
/// `TooLong` tell the first that isn't whole packets, or isn't whole within the limit, and the trace of those before it is
/// written. After a fault `out` has gained a prefix of the trace.
// Compiled apart, so that its loop has all registers.
#[inline(never)]
pub fn run_encode<S: Source, K: Sink>(
    alloc: Global,
    settings: &Settings,
    max: u64,
    input: &mut S,
    out: &mut K,
) -> Ended
    requires settings { CanEncode settings.now }
    requires max { (8 ≤ max) × (max ≤ 2 ^ 40) }
    ensures { FilterEnded (encoding settings.now max) result S.left S.faults input.old input.new
        K.written K.faults out.old out.new }
{
    one_cut();
    Ended::by(encode(alloc, settings, max, input, out))
}
