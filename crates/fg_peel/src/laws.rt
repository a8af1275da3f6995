//! The laws by which the repaired stream means one thing, whatever the order of the work. Each is
//! the contract of a function that does nothing.

ghost use Rattle.fg_peel.specs.Block.{WorkedBlocks};
ghost use Rattle.fg_peel.specs.Laws.{ClosureIsClosed, ClosureIsLeast, ClosureHasTest, ClosureGrows, ClosureIsFinal};
ghost use Rattle.fg_peel.specs.Laws.{PeelingsFillTheClosure, SolutionsKeepPeelings};
ghost use Rattle.fg_peel.specs.Laws.{MaximalPeelingsAreTested};
ghost use Rattle.fg_peel.specs.Laws.{SettledKeepClosure, SettledKeepSolutions, FoundKeepsClosure, FoundKeepsSolutions};
ghost use Rattle.fg_peel.specs.Laws.{TruthIsSolvable, SolutionsAreTrue};
ghost use Rattle.fg_peel.specs.Laws.{PeelingsTakeEquations, PeelingsTakeWords, PeelingsOutlivePlays, PeelingsCarryOver};
ghost use Rattle.fg_peel.specs.Laws.{Uniqueness, SoundPeelingsAgree, SolutionsAreReached, MaximalPeelingsEndAtSolution, SoundWhereSolvable};

/// The closure is the least closed set: it is closed, contained in every closed set that has a
/// test, and has a test itself.
pub fn closure_is_least()
    ensures closed { ClosureIsClosed }
    ensures least { ClosureIsLeast }
    ensures tested { ClosureHasTest }
{}

/// The closure grows with what is known and with the equations, and is its own closure.
pub fn closure_grows()
    ensures grows { ClosureGrows }
    ensures complete { ClosureIsFinal }
{}

/// Peelings stay in the closure, and each maximal one ends at the closure. There is a maximal one,
/// and every peeling can be continued to one. A peeling keeps the known words, and two in succession
/// are one.
pub fn peelings_fill_the_closure()
    ensures { PeelingsFillTheClosure }
{}

/// Whether a maximal peeling is sound shows in its words: each found word is a media word, and each
/// equation comes out whose slots are all known.
pub fn maximal_peelings_are_tested()
    ensures { MaximalPeelingsAreTested }
{}

/// Two solutions are equal.
pub fn uniqueness()
    ensures { Uniqueness }
{}

/// If one maximal peeling is sound, all are, with the same end. If a solution exists, some maximal
/// peeling is sound, and each ends at the solution, which so has every word of every peeling. So a
/// maximal peeling is sound exactly where a solution exists.
pub fn confluence()
    ensures agreed { SoundPeelingsAgree }
    ensures reached { SolutionsAreReached }
    ensures same_end { MaximalPeelingsEndAtSolution }
    ensures kept { SolutionsKeepPeelings }
    ensures solvable { SoundWhereSolvable }
{}

/// Equations that are complete and come out in the known words add nothing: without them the
/// closure and the solutions are the same.
pub fn settled_equations_add_nothing()
    ensures closure { SettledKeepClosure }
    ensures solutions { SettledKeepSolutions }
{}

/// What a peeling found may be taken as known: the closure is the same, and, where all that it
/// found is media words, the solutions are.
pub fn found_words_may_be_known()
    ensures closure { FoundKeepsClosure }
    ensures solutions { FoundKeepsSolutions }
{}

/// Where the known words are some of a set of true media words with which every equation comes out,
/// a solution exists, and each has true words alone.
pub fn true_words_solve()
    ensures exists { TruthIsSolvable }
    ensures found { SolutionsAreTrue }
{}

/// A peeling stays one when more equations come, when words become known that agree with it, and
/// when a play moves the mark: its other steps then find the same words. What positions, words and
/// equations may change at once is the last clause.
pub fn peelings_stay()
    ensures equations { PeelingsTakeEquations }
    ensures words { PeelingsTakeWords }
    ensures play { PeelingsOutlivePlays }
    ensures carried { PeelingsCarryOver }
{}

/// The definitions on a block of 4 columns and 4 rows: three lost words follow, and so do four in a
/// chain of two passes. Four in a square do not. With a wrong parity there is no solution.
pub fn worked_blocks()
    ensures { WorkedBlocks }
{}
