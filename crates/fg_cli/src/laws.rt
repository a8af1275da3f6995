//! Laws of the command line, each the contract of a function that does nothing.
ghost use Rattle.fg_cli.specs.Laws.{OneFault, OneLine, OneQuestion, OneReading, QuestionsHaveNoReading, ReadingsHaveNoFault, ToldColumns, ToldRows};

/// Words have at most one reading, and those that have one have no fault. Others break one rule
/// first.
pub fn one_reading()
    ensures line { OneLine }
    ensures reading { OneReading }
    ensures no_fault { ReadingsHaveNoFault }
    ensures fault { OneFault }
{}

/// Words are at most one question, and those that are one have no reading.
pub fn one_question()
    ensures question { OneQuestion }
    ensures no_reading { QuestionsHaveNoReading }
{}

/// The help tells as many columns and rows as layouts have.
pub fn told_limits()
    ensures columns { ToldColumns }
    ensures rows { ToldRows }
{}
