//! The command `survey`.
ghost use Rattle.std.specs.Prelude.{◌≤◌, ◌^◌};
ghost use Rattle.fg_commands.specs.Filter.{FilterEnded};
ghost use Rattle.fg_commands.specs.Surveying.{surveying};

use crate::ended::Ended;
use fg_io::{Sink, Source};
use fg_survey::survey;
use fg_surveyed::laws::surveys_tell_losses;
use std::alloc::Global;

/// Writes to `out` what the trace in the input holds, which may have at most `max` bytes; `json` asks for a JSON object a line.
///
/// The text is written once all was read, that of the whole records before `Cut` and `TooLong`. After a failed read there is
/// none, and after a failed write `out` has gained a prefix of it. Of a trace that is exactly what is left of an encoding it tells
/// the losses and the layout.
pub fn run_survey<S: Source, K: Sink>(
    alloc: Global,
    max: u64,
    json: bool,
    input: &mut S,
    out: &mut K,
) -> Ended
    requires max { (8 ≤ max) × (max ≤ 2 ^ 40) }
    ensures { FilterEnded (surveying json max) result S.left S.faults input.old input.new
        K.written K.faults out.old out.new }
{
    surveys_tell_losses();
    Ended::of(survey(alloc, max, json, input, out).into())
}
