//! Laws of the definitions that the contracts cite. Each function does nothing: its contract is the law. A caller that
//! needs a law calls it.
ghost use Rattle.fg_io.specs.Laws.{StandingCountsNone, ReadsJoin, OneRest, EndGaveAll, OneAhead, WritesJoin, NoneIsPart, AllIsPart, PartOfMore, PartJoins, PutsJoin, NonePutIsPart, AllPutIsPart, PutPartOfMore, PutPartJoins, OneLane};

/// A count that stands still has counted no fault, below its last value.
pub fn standing_counts_none()
    ensures { StandingCountsNone }
{}

/// Two reads in a row give what one read gives that gives both.
pub fn reads_join()
    ensures { ReadsJoin }
{}

/// What a source has left follows from what it had left and what it gave.
pub fn one_rest()
    ensures { OneRest }
{}

/// A source that is at its end has given all that it had.
pub fn end_gave_all()
    ensures { EndGaveAll }
{}

/// What stands ahead in a source follows from what is held of it and the number of bytes that is asked for.
pub fn one_ahead()
    ensures { OneAhead }
{}

/// Two writes in a row write what one write writes that writes both.
pub fn writes_join()
    ensures { WritesJoin }
{}

/// When a sink has gained a prefix of what was to be written: after nothing, after all, after a prefix of the first of
/// two pieces, and after the first and a prefix of the second.
pub fn parts_of_writes()
    ensures none { NoneIsPart }
    ensures all { AllIsPart }
    ensures of_first { PartOfMore }
    ensures of_second { PartJoins }
{}

/// Two puts in a row to a port leave what one put leaves that puts both.
pub fn puts_join()
    ensures { PutsJoin }
{}

/// When a lane has gained a prefix of what was to be put: after nothing, after all, after a prefix of the first of two
/// pieces, and after the first and a prefix of the second.
pub fn parts_of_puts()
    ensures none { NonePutIsPart }
    ensures all { AllPutIsPart }
    ensures of_first { PutPartOfMore }
    ensures of_second { PutPartJoins }
{}

/// What each lane is after a put follows from what it was, the port and the piece.
pub fn one_lane()
    ensures { OneLane }
{}
