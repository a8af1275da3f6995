//! The command `check`.
ghost use Rattle.std.specs.Prelude.{◌≤◌, ◌^◌};
ghost use Rattle.fg_commands.specs.Checking.{checking};
ghost use Rattle.fg_commands.specs.Filter.{FilterEnded};

use crate::ended::Ended;
use fg_check::check_cases;
use fg_check::laws::{one_check, one_text, one_told};
use fg_io::{Sink, Source};
use std::alloc::Global;

/// Judges the cases in the text in the input, which may have at most `max` bytes, and writes a line to `out` for each.
///
/// `NotCase` and `TooLong` tell where the text stops fitting. The cases before are judged. After a fault `out` has gained a
/// prefix of the lines.
pub fn run_check<S: Source, K: Sink>(alloc: Global, max: u64, input: &mut S, out: &mut K) -> Ended
    requires max { (8 ≤ max) × (max ≤ 2 ^ 40) }
    ensures { FilterEnded (checking max) result S.left S.faults input.old input.new
        K.written K.faults out.old out.new }
{
    one_check();
    one_text();
    one_told();
    Ended::by(check_cases(alloc, max, input, out))
}
