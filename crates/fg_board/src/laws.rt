//! The laws of the core, and those of turns. Each is the contract of a function that does nothing, or only calls other
//! laws.

ghost use Rattle.fg_board.specs.Laws.{EachIsLater, TurnsGoOn, NoTurnsGoOn, TurnsAreOfTheCore, JobsAreWorked, JobsAreChecked, BroughtWordsAreFound};

pub use fg_core::laws::{
    answers_hold, calls_extend, calls_keep_told, calls_make_one_desk, checked_come_out,
    codes_are_read_back, core_holds, events_keep_owned, events_keep_told, events_leave_the_state,
    later_turns_keep_calls, opening_is_owned, told_words_are_found, words_of_equations_are_found,
    worked_words_follow,
};
use fg_words::laws::xor_is_a_group;

/// A standing of a pass is a later one of itself, and each turn leads to a later one.
pub fn passes_go_on()
    ensures itself { EachIsLater }
    ensures turn { TurnsGoOn }
    ensures no_turn { NoTurnsGoOn }
{}

/// A turn of a pass is one step of a run of the core.
pub fn turns_are_of_the_core()
    ensures { TurnsAreOfTheCore }
{
    codes_are_read_back();
}

/// What the inputs of a job give follows from what its pass was told, and still does at each later standing: the word of
/// its one slot that has none, and whether its equation comes out.
pub fn jobs_follow()
    ensures worked { JobsAreWorked }
    ensures checked { JobsAreChecked }
{
    xor_is_a_group();
}

/// A pass whose word was taken finds it by each later look with the same key, or hears that the equation is gone.
pub fn brought_words_are_found()
    ensures { BroughtWordsAreFound }
{
    codes_are_read_back();
    words_of_equations_are_found();
}
