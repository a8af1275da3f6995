//! The laws of the core. Each is the contract of a function that does nothing, or only calls other laws.

ghost use Rattle.fg_core.specs.Below.{CallLaws};
ghost use Rattle.fg_core.specs.Codes.{CallsAreReadBack, ToldIsReadBack};
ghost use Rattle.fg_core.specs.Laws.{OpeningIsOwned, CallsExtend, CallsKeepTold, EventsKeepOwned, EventsKeepTold, EventsLeaveTheState, AnswersHold};
ghost use Rattle.fg_core.specs.Laws.{CoreHolds, LaterTurnsKeepCalls, ToldWordsAreFound, WordsOfEquationsAreFound, WorkedWordsFollow, CheckedComeOut, CallsMakeOneDesk};

use fg_peel::laws::{confluence, peelings_fill_the_closure, peelings_stay};
use fg_playout::laws::{
    admissions_add, facts_are_kept, live_equations, mark_makes_no_difference, nothing_is_left,
    one_outcome, runs_begin, solved_stays_peeled,
};

/// A new board is what no calls make of it.
pub fn opening_is_owned()
    ensures { OpeningIsOwned }
{
    facts_are_kept();
}

/// What of the laws below those of calls rest on.
fn laws_of_calls()
    ensures { CallLaws }
{
    facts_are_kept();
    runs_begin();
    nothing_is_left();
    admissions_add();
    peelings_stay();
    confluence();
    mark_makes_no_difference();
    live_equations();
    solved_stays_peeled();
    one_outcome();
}

/// A call of the admitter extends its calls: the board is then what they make of it.
pub fn calls_extend()
    ensures { CallsExtend }
{
    laws_of_calls();
}

/// And it keeps what anybody was told.
pub fn calls_keep_told()
    ensures { CallsKeepTold }
{
    laws_of_calls();
}

/// What the admitter's calls make of a board stays so whatever passes do, as long as each brings what follows from what
/// it was told.
pub fn events_keep_owned()
    ensures { EventsKeepOwned }
{
    peelings_fill_the_closure();
    live_equations();
}

/// An event of a pass keeps what anybody was told.
pub fn events_keep_told()
    ensures { EventsKeepTold }
{}

/// An event of a pass changes nothing of the desk that plays and replies go by.
pub fn events_leave_the_state()
    ensures { EventsLeaveTheState }
{}

/// What an answer tells holds of the board.
pub fn answers_hold()
    ensures { AnswersHold }
{}

/// The law of the core: after every run of turns the board is what the admitter's calls make of it, and what anybody was
/// told holds.
pub fn core_holds()
    ensures { CoreHolds }
{
    opening_is_owned();
    calls_extend();
    calls_keep_told();
    events_keep_owned();
    events_keep_told();
    answers_hold();
}

/// Later turns change nothing of the admitter's calls before them.
pub fn later_turns_keep_calls()
    ensures { LaterTurnsKeepCalls }
{
    events_leave_the_state();
}

/// The admitter's calls with their answers make one desk.
pub fn calls_make_one_desk()
    ensures { CallsMakeOneDesk }
{
    laws_of_calls();
}

/// Who was told a word finds it there as long as its key isn't gone.
pub fn told_words_are_found()
    ensures { ToldWordsAreFound }
{}

/// Who was told an equation and a word of one of its slots finds it there as long as the equation's key isn't gone.
pub fn words_of_equations_are_found()
    ensures { WordsOfEquationsAreFound }
{}

/// A word that follows from what was told is one that the live equation gives.
pub fn worked_words_follow()
    ensures { WorkedWordsFollow }
{
    live_equations();
}

/// An equation that was checked by what was told comes out.
pub fn checked_come_out()
    ensures { CheckedComeOut }
{}

/// Calls and told things are read back as they were written.
pub fn codes_are_read_back()
    ensures calls { CallsAreReadBack }
    ensures told { ToldIsReadBack }
{}
