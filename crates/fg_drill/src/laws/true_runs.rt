//! Laws of true datagrams: where all that arrives is right, so is all that is shown.

ghost use Rattle.fg_drill.specs.TrueLaws.{NothingElseIsShown, PeeledSlotsAreShown, RunsAreLawful, TrueRunsAreRepaired, TrueRunsShowTheTruth};

use fg_peel::laws::true_words_solve;
use fg_playout::laws::{
    admissions_add, facts_are_kept, live_equations, mark_makes_no_difference, one_list_of_desks,
    runs_join, runs_only_add, runs_stay_within,
};

/// What holds of every run and of its desks' equations. The laws of true datagrams rest on it.
pub(crate) fn runs_are_lawful()
    ensures { RunsAreLawful }
{
    live_equations();
    mark_makes_no_difference();
    true_words_solve();
    admissions_add();
    facts_are_kept();
    runs_stay_within();
    runs_join();
}

/// In a run of true datagrams each play is repaired, each word shown is the true one of its slot, and
/// nothing else is shown.
pub fn true_runs_are_repaired()
    ensures repaired { TrueRunsAreRepaired }
    ensures truth { TrueRunsShowTheTruth }
    ensures nothing_else { NothingElseIsShown }
{
    runs_are_lawful();
    runs_only_add();
}

/// Where true datagrams peel, each of their slots is shown.
pub fn peeled_slots_are_shown()
    ensures { PeeledSlotsAreShown }
{
    one_list_of_desks();
    runs_only_add();
    true_runs_are_repaired();
}
