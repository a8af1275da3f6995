//! The command `pick`.
ghost use Rattle.std.specs.Prelude.{◌≤◌, ◌^◌};
ghost use Rattle.std.specs.List.{All};
ghost use Rattle.fg_shape.specs.Kind.{IsFlowPort};
ghost use Rattle.fg_commands.specs.Filter.{FilterEnded};
ghost use Rattle.fg_commands.specs.Picking.{picking};

use crate::ended::Ended;
use fg_flows::Selection;
use fg_io::{Sink, Source};
use fg_pick::pick;
use std::alloc::Global;

/// Writes to `out` the trace of the records that are picked of the trace in the input, which may have at most `max` bytes.
///
/// Before `Cut` and `TooLong` what is picked of the whole records is written. After a fault `out` has gained a prefix of the trace.
pub fn run_pick<S: Source, K: Sink>(
    alloc: Global,
    selection: &Selection,
    max: u64,
    input: &mut S,
    out: &mut K,
) -> Ended
    requires flows { All IsFlowPort selection.now.flows }
    requires max { (8 ≤ max) × (max ≤ 2 ^ 40) }
    ensures { FilterEnded (picking selection.now max) result S.left S.faults input.old input.new
        K.written K.faults out.old out.new }
{
    Ended::of(pick(alloc, selection, max, input, out).into())
}
