//! Laws of choices, each the contract of a function that does nothing, or only calls laws of `fg_drill`.
ghost use Rattle.fg_plan.specs.Laws.{OneChoice, PlannedBurstsComeBack, PlannedBurstsPeel};

use fg_drill::laws::covered::{bursts_are_covered, covered_losses_come_back, covered_losses_peel};

/// At most one answer is the choice: so what `choose` gives is the only one.
pub fn one_choice()
    ensures { OneChoice }
{}

/// A burst that was planned for comes back: where a stream is encoded in the matrix that is chosen, block-aligned, and the playout
/// waits for columns, what is left of it peels, and so all of it comes back.
pub fn a_burst_comes_back()
    ensures peels { PlannedBurstsPeel }
    ensures whole { PlannedBurstsComeBack }
{
    bursts_are_covered();
    covered_losses_peel();
    covered_losses_come_back();
}
