//! Runs of flagged positions.
ghost use Rattle.std.specs.Prelude.{◌+◌, ◌<◌, ◌≤◌, ◌^◌, length, IfOk};
ghost use Rattle.fg_runs.specs.Runs.{AreRunsOf};
ghost use Rattle.fg_closure.specs.Flags.{IsTold};

use fg_runs::Runs;
use std::alloc::{AllocError, Global};

/// The runs of those positions whose flags are as `wanted`, of the flags from number `start` on and before `end`. The
/// first of all flags is for the position `first`.
pub(crate) fn runs_of(
    alloc: Global,
    first: u64,
    flags: &[bool],
    start: usize,
    end: usize,
    wanted: bool,
) -> Result<Runs, AllocError>
    requires order { start ≤ end }
    requires within { end ≤ length flags.now }
    requires limit { first + end < 2 ^ 64 }
    ensures { IfOk result (λ runs. AreRunsOf (IsTold first start end flags.now wanted) runs) }
{
    let mut runs = Runs::new(alloc);
    for k in start..end {
        if flags[k] == wanted {
            runs.join(first + k as u64, 1)?;
        }
    }
    Ok(runs)
}
