//! The command `inspect`.
ghost use Rattle.std.specs.Prelude.{◌≤◌, ◌^◌};
ghost use Rattle.fg_commands.specs.Filter.{FilterEnded};
ghost use Rattle.fg_commands.specs.Inspection.{inspection};

use crate::ended::Ended;
use fg_flows::Table;
use fg_inspect::inspect;
use fg_io::{Sink, Source};
use std::alloc::Global;

/// Writes a line to `out` for each record of the trace in the input, which may have at most `max` bytes.
///
/// The input is read to its end, to the first byte that differs from the magic, or past the limit, and the lines of whole
/// records are written before `Cut` and `TooLong`. After a fault `out` has gained a prefix of the text.
pub fn run_inspect<S: Source, K: Sink>(
    alloc: Global,
    table: &Table,
    max: u64,
    input: &mut S,
    out: &mut K,
) -> Ended
    requires max { (8 ≤ max) × (max ≤ 2 ^ 40) }
    ensures { FilterEnded (inspection table.now max) result S.left S.faults input.old input.new
        K.written K.faults out.old out.new }
{
    Ended::of(inspect(alloc, table, max, input, out).into())
}
