//! Laws of runs, each the contract of a function that does nothing.
ghost use Rattle.fg_runs.specs.Laws.{OneListOfRuns};

/// A set of positions has one list of maximal runs.
pub fn one_list_of_runs()
    ensures { OneListOfRuns }
{}
