//! The laws that show the definitions of a desk to be right. Each is the contract of a function that
//! does nothing, or only calls laws of `fg_peel`.

ghost use Rattle.fg_playout.specs.Laws.{LiveStandUnderSerials, FactsAreKept, MediaAdds, ParityAdds};
ghost use Rattle.fg_playout.specs.Laws.{FreshIsDecided, FreshBegins, FirstBegins, OthersGoOn, NothingAheadIsKnown, NothingIsPeeled};
ghost use Rattle.fg_playout.specs.Laws.{ClosureIsPeelings, SolutionsArePeelings, StepsAreAhead, OneSolution};
ghost use Rattle.fg_playout.specs.Laws.{FlushesEnd, SolvedStaysPeeled};
ghost use Rattle.fg_playout.specs.Laws.{LaterChangesNothing, TakingsJoin, PlaysDueJoin, PlaysDueEnd, FlushEndsBefore, DueEndBefore, ReadyAfterPlays, HeldStepsJoin, HeldStepsEnd, PlaysFollow, RunsStayWithin, FlushesStayWithin, OneRun};
ghost use Rattle.fg_playout.specs.Laws.{OneOutcome};
ghost use Rattle.fg_playout.specs.Laws.{PlaysShowOneList, FlushStepsShowOneList, HeldStepsShowOneList};
ghost use Rattle.fg_playout.specs.Laws.{OneTaking, TakenPlaysComeFirst, PlaysBeforeComeNext, FlushStepsComeNext};
ghost use Rattle.fg_playout.specs.Laws.{PlaysReachTheMark, DuePlaysReachTheMark, FlushStepsReachTheMark, HeldStepsReachTheMark};
ghost use Rattle.fg_playout.specs.Laws.{EachGetsAReply, CountsAreOfReplies, CountsAdd, CountsStayWithin};
ghost use Rattle.fg_playout.specs.Existence.{PeelingLaws, SolutionsAreDecided, MediaHasOutcome, ParityHasOutcome, PlayHasOutcome, FlushHasOutcome, HeldStepHasOutcome};
ghost use Rattle.fg_playout.specs.PlayedOn.{PlaysAreTheRuns, DesksMakeThePlays, OneListOfDesks};
ghost use Rattle.fg_playout.specs.DesksJoin.{DueDesksJoin, FlushDesksJoin, HeldDesksJoin, TakenDesksJoin, OneTakenDesks};
ghost use Rattle.fg_playout.specs.DesksJoin.{DueDesksEnd, FlushDesksEnd, HeldDesksEnd, NoHeldDesks, FlushDesksEndBefore, DueDesksEndBefore, RunDesksEnd};
ghost use Rattle.fg_playout.specs.DesksJoin.{TakenDesksComeFirst, DesksBeforeComeNext, DesksBeforeComeNextInRuns, FlushDesksComeNext};
ghost use Rattle.fg_playout.specs.Empty.{EmptyWindowsKeep, EmptyWindowsAreDue, EmptyWindowsAreFlushed, EmptyWindowsAreHeld};
ghost use Rattle.fg_playout.specs.SoundPeelings.{DesksAreAdmissible, PeelingsAreOfWords, MaximalAreOfWords, SoundAreOfWords, PlaysShowSoundPeelings};
ghost use Rattle.fg_playout.specs.PlayedAfter.{RunsShowWhatWasAdmitted};
ghost use Rattle.fg_playout.specs.Existence.{PlaysDueExist, FlushExists, PlaysBeforeExist, PlaysHeldExist, TakingsExist, RunsExist};

use fg_peel::laws::{
    confluence, maximal_peelings_are_tested, peelings_fill_the_closure, peelings_stay, uniqueness,
};

/// The live equations are those that stand under some serial number.
pub fn live_equations()
    ensures { LiveStandUnderSerials }
{}

/// The facts hold of a new desk, and every call keeps them.
pub fn facts_are_kept()
    ensures { FactsAreKept }
{}

/// Whether an SSRC is fresh can be told. One that is begins a run at the mark, as the first media datagram of all does, and no
/// other datagram does.
pub fn runs_begin()
    ensures fresh { FreshIsDecided }
    ensures begins { FreshBegins }
    ensures first { FirstBegins }
    ensures others { OthersGoOn }
{}

/// Where nothing more follows, no word is known ahead and no peeling has a step: a desk that is flushed is ready for a run.
pub fn nothing_is_left()
    ensures known { NothingAheadIsKnown }
    ensures peeled { NothingIsPeeled }
{}

/// What is admitted is known or live from then on. What is known and live else stays, but where a run begins: there the
/// equations leave.
pub fn admissions_add()
    ensures media { MediaAdds }
    ensures parity { ParityAdds }
{}

/// On each desk of which the facts hold, closure, solutions and peelings are those of `fg_peel`: the
/// mark makes no difference.
pub fn mark_makes_no_difference()
    ensures closure { ClosureIsPeelings }
    ensures solutions { SolutionsArePeelings }
    ensures steps { StepsAreAhead }
{}

/// A desk has at most one solution.
pub fn one_solution()
    ensures { OneSolution }
{
    uniqueness();
}

/// After a play nothing follows that did not follow before it. So a flush ends, and then nothing is
/// left to be shown.
pub fn flushes_end()
    ensures { FlushesEnd }
{}

/// What a peeling found before a repaired play is, past the new mark, found by a peeling after it, with
/// the same words.
pub fn solved_stays_peeled()
    ensures { SolvedStaysPeeled }
{
    peelings_fill_the_closure();
    confluence();
    peelings_stay();
}

/// Later datagrams change nothing of what was shown and answered before, and each position is shown
/// or missing once, in order and without holes.
pub fn runs_only_add()
    ensures later { LaterChangesNothing }
    ensures follow { PlaysFollow }
{}

/// A run can be told datagram by datagram, and the plays before one of them play by play.
pub fn runs_join()
    ensures takings { TakingsJoin }
    ensures plays { PlaysDueJoin }
    ensures all_due { PlaysDueEnd }
    ensures flushed { FlushEndsBefore }
    ensures played { DueEndBefore }
    ensures ready { ReadyAfterPlays }
    ensures held { HeldStepsJoin }
    ensures all_held { HeldStepsEnd }
{}

/// As long as a flow's datagrams are fewer than 2^44, the facts hold all along its run, and there is
/// room.
pub fn runs_stay_within()
    ensures taking { RunsStayWithin }
    ensures flushing { FlushesStayWithin }
{}

/// A call has one outcome: its reply or its play, and the desk after it, follow from the desk before it.
pub fn one_outcome()
    ensures { OneOutcome }
{
    uniqueness();
}

/// What a call shows is one list: what its contract says of the words that it showed holds of no other ones.
pub fn one_list_is_shown()
    ensures play { PlaysShowOneList }
    ensures flush { FlushStepsShowOneList }
    ensures held { HeldStepsShowOneList }
{
    uniqueness();
}

/// What of the laws of `fg_peel` those of what exists rest on.
fn peelings_are_told()
    ensures { PeelingLaws }
{
    peelings_fill_the_closure();
    maximal_peelings_are_tested();
    confluence();
}

/// Whether a desk has a solution can be told.
pub fn solutions_are_decided()
    ensures { SolutionsAreDecided }
{
    peelings_are_told();
}

/// A call has an outcome: a reply or a play, and a desk after it.
pub fn outcomes_exist()
    ensures media { MediaHasOutcome }
    ensures parity { ParityHasOutcome }
    ensures play { PlayHasOutcome }
    ensures flush { FlushHasOutcome }
    ensures held { HeldStepHasOutcome }
{
    peelings_are_told();
}

/// Windows that show nothing come to one step of the desk: they are plays, one after another, that are due before a datagram, held
/// at a time, or steps of a flush.
pub fn empty_windows()
    ensures facts { EmptyWindowsKeep }
    ensures due { EmptyWindowsAreDue }
    ensures flushed { EmptyWindowsAreFlushed }
    ensures held { EmptyWindowsAreHeld }
{
    peelings_are_told();
}

/// The plays that are due before a datagram come to an end, and so do held plays and a flush.
pub fn plays_come_to_an_end()
    ensures due { PlaysDueExist }
    ensures flush { FlushExists }
    ensures before { PlaysBeforeExist }
    ensures held { PlaysHeldExist }
{
    peelings_are_told();
}

/// A new desk takes all datagrams that are read.
pub fn takings_exist()
    ensures { TakingsExist }
{
    peelings_are_told();
}

/// A flow has a run, whatever its datagrams.
pub fn runs_exist()
    ensures { RunsExist }
{
    peelings_are_told();
}

/// A flow has one run: two of the same datagrams are the same.
pub fn one_run()
    ensures { OneRun }
{
    uniqueness();
}

/// Each play of a run is made on a desk, and another run of the same datagrams makes it on the same one.
pub fn one_list_of_desks()
    ensures plays { PlaysAreTheRuns }
    ensures desks { DesksMakeThePlays }
    ensures one { OneListOfDesks }
{
    uniqueness();
}

/// The desks of plays that are made one after another are those of the first ones, and then those of the others.
pub fn desks_join()
    ensures due { DueDesksJoin }
    ensures flushed { FlushDesksJoin }
    ensures held { HeldDesksJoin }
    ensures taken { TakenDesksJoin }
    ensures one_taken { OneTakenDesks }
{}

/// Where nothing more is to be done they are those of all the plays: of those that are due, held or played before a datagram, of
/// a flush, and of a run.
pub fn desks_end()
    ensures due { DueDesksEnd }
    ensures flushed { FlushDesksEnd }
    ensures held { HeldDesksEnd }
    ensures none_held { NoHeldDesks }
    ensures flushed_before { FlushDesksEndBefore }
    ensures due_before { DueDesksEndBefore }
    ensures run { RunDesksEnd }
{}

/// A run's plays are made first on the desks of the datagrams that were taken, then on those of what the next one has played so
/// far, and after the last datagram on those of the flush's steps.
pub fn desks_come_in_order()
    ensures taken { TakenDesksComeFirst }
    ensures next { DesksBeforeComeNext }
    ensures next_in_runs { DesksBeforeComeNextInRuns }
    ensures flushed { FlushDesksComeNext }
{
    uniqueness();
}

/// The same datagrams taken by a new desk give the same plays, the same replies and the same desk.
pub fn one_taking()
    ensures { OneTaking }
{
    uniqueness();
}

/// The plays of a flow's first datagrams come first in its run.
pub fn taken_plays_come_first()
    ensures { TakenPlaysComeFirst }
{
    uniqueness();
}

/// Then come the plays that the next datagram brings.
pub fn plays_before_come_next()
    ensures { PlaysBeforeComeNext }
{
    uniqueness();
}

/// After the last datagram come the steps of the flush.
pub fn flush_steps_come_next()
    ensures { FlushStepsComeNext }
{
    uniqueness();
}

/// The mark is the number of positions that were shown or missing, and each play has one at least.
pub fn plays_reach_the_mark()
    ensures taken { PlaysReachTheMark }
    ensures due { DuePlaysReachTheMark }
    ensures flushed { FlushStepsReachTheMark }
    ensures held { HeldStepsReachTheMark }
{}

/// Each datagram of a run gets a reply, or none where its reader refused it.
pub fn each_gets_a_reply()
    ensures { EachGetsAReply }
{}

/// Those datagrams are counted that came by a stream and got a reply.
pub fn counts_are_of_replies()
    ensures { CountsAreOfReplies }
{}

/// One more datagram adds one to the count of its stream and reply, and nothing to another.
pub fn counts_add()
    ensures { CountsAdd }
{}

/// No count is more than the datagrams.
pub fn counts_stay_within()
    ensures { CountsStayWithin }
{}

/// On a desk of which the facts hold, the laws of `fg_peel` speak of the peelings of the desk, and of the maximal and the sound ones:
/// the mark makes no difference.
pub fn peelings_are_of_words()
    ensures admissible { DesksAreAdmissible }
    ensures peelings { PeelingsAreOfWords }
    ensures maximal { MaximalAreOfWords }
    ensures sound { SoundAreOfWords }
{}

/// A play is repaired exactly where a maximal peeling of its desk is sound, and so every one, and its window shows what each of
/// them gives. It is inconsistent exactly where no peeling is sound, and its window then shows the received words alone.
pub fn plays_show_sound_peelings()
    ensures { PlaysShowSoundPeelings }
{
    peelings_fill_the_closure();
    confluence();
}

/// So does each window of a run, of what was admitted before it.
pub fn runs_show_what_was_admitted()
    ensures { RunsShowWhatWasAdmitted }
{
    plays_show_sound_peelings();
}
