//! Laws of the definition of the trace and of where a reader stands, each the contract of a function with an empty body.
ghost use Rattle.fg_trace.specs.Laws.{OneTrace, SpelledIsRead, WalksTheFront, EndsOnce, SpelledIsWalked, WalksOn, UnreadIsReadFor, BeforeIsReadFor, AfterIsReadFor, OneLongest, AnsweredIsLongest, UnopenedIsShort};

/// Bytes have at most one list of records, and one ending.
pub fn one_trace()
    ensures { OneTrace }
{}

/// The trace of a list of records that fits the limit is read as that list.
pub fn spelled_is_read()
    ensures { SpelledIsRead }
{}

/// Wherever a reader stands, it has answered the first records of the trace.
pub fn walks_the_front()
    ensures { WalksTheFront }
{}

/// One answer is the ending of a trace, after one list of records: a reader that answers an ending has answered all records.
pub fn ends_once()
    ensures { EndsOnce }
{}

/// A trace that was written is read back, in whatever pieces.
pub fn spelled_is_walked()
    ensures { SpelledIsWalked }
{}

/// Whatever a reader answers to `next`, it stands after some records.
pub fn walks_on()
    ensures { WalksOn }
{}

/// Wherever a reader stands, it has read as far as its answer needs, and at most a byte past the limit.
pub fn read_as_far_as_needed()
    ensures unread { UnreadIsReadFor }
    ensures before { BeforeIsReadFor }
    ensures after { AfterIsReadFor }
{}

/// What was read of an input has one longest list of records, which a reader that holds no next one has answered. Before the
/// magic was found, fewer bytes than it has were read.
pub fn whole_records_are_answered()
    ensures one { OneLongest }
    ensures answered { AnsweredIsLongest }
    ensures unopened { UnopenedIsShort }
{}
