//! Laws of cases and of their judgement, each the contract of a function that only calls laws of the crates below.
ghost use Rattle.fg_proof.specs.Laws.{YesIsAProof, NoPeelingGivesAHole, CasesTellAll, TrueCasesAreProved, OneCase, OneAnswer};
ghost use Rattle.fg_proof.specs.WritableCases.{CasesAreWritable};

use fg_peel::laws::{closure_is_least, peelings_fill_the_closure};
use fg_playout::laws::mark_makes_no_difference;
use fg_runs::laws::one_list_of_runs;

/// Where a case that tells all that a desk had is judged `Yes`, no hole of it follows, and no peeling gives it.
pub fn yes_is_a_proof()
    ensures closure { YesIsAProof }
    ensures peelings { NoPeelingGivesAHole }
{
    mark_makes_no_difference();
    peelings_fill_the_closure();
}

/// The case of a desk tells all that it had, and is judged `Yes` wherever its window has a missing position.
pub fn true_cases_are_proved()
    ensures tell { CasesTellAll }
    ensures proved { TrueCasesAreProved }
{
    mark_makes_no_difference();
    closure_is_least();
}

/// A desk has one case, and a case one answer.
pub fn one_case()
    ensures case { OneCase }
    ensures answer { OneAnswer }
{
    one_list_of_runs();
}

/// The case of a desk has a text, whatever may be set.
pub fn cases_are_writable()
    ensures { CasesAreWritable }
{}
