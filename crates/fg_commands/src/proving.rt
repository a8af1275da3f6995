//! The command `prove`.
ghost use Rattle.fg_commands.specs.Filter.{FilterEnded};
ghost use Rattle.fg_commands.specs.Proving.{CanProve, proving};

use crate::ended::Ended;
use fg_flows::Plan;
use fg_io::{Sink, Source};
use fg_prove::prove_flow;
use std::alloc::Global;

/// Writes to `out` the case of each repaired window of the plan's one flow that shows a gap, of the trace in the input.
///
/// The input is read to its end, to the first byte that differs from the magic, or past the limit, and the cases of whole
/// records are written before `Cut` and `TooLong`. After a fault `out` has gained a prefix of the text. The plan's workers
/// are ignored.
pub fn run_prove<S: Source, K: Sink>(
    alloc: Global,
    plan: &Plan,
    input: &mut S,
    out: &mut K,
) -> Ended
    requires plan { CanProve plan.now }
    ensures { FilterEnded (proving plan.now) result S.left S.faults input.old input.new
        K.written K.faults out.old out.new }
{
    Ended::of(prove_flow(alloc, plan, input, out).into())
}
