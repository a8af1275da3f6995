//! The laws that show the definition of a flow's cases to be right. Each is the contract of a function that does nothing, or only
//! calls laws of the crates below.
ghost use Rattle.fg_prove.specs.Laws.{CasesAreOfGaps, CasesJoin, CasesSplit, OneListOfCases, OneProof};
ghost use Rattle.fg_prove.specs.WritableProofs.{ProvedCasesAreWritable};

use fg_fechead::laws::parity_datagrams_read_one_way;
use fg_playout::laws::{one_list_of_desks, runs_show_what_was_admitted};
use fg_proof::laws::{cases_are_writable, one_case};
use fg_rtp::laws::media_datagrams_read_one_way;

/// The records of a trace give a flow one list of cases.
pub fn one_proof()
    ensures mades { OneListOfCases }
    ensures records { OneProof }
{
    media_datagrams_read_one_way();
    parity_datagrams_read_one_way();
    one_list_of_desks();
    one_case();
}

/// The cases of plays are those of the first ones, and then those of the others.
pub fn cases_of_front()
    ensures joined { CasesJoin }
    ensures split { CasesSplit }
{}

/// Each case is of a gap of a play of the flow's run: its desk has a solution, and a position of its window doesn't follow.
pub fn cases_are_of_gaps()
    ensures { CasesAreOfGaps }
{
    one_list_of_desks();
}

/// Each case that the records of a trace give a flow has a text.
pub fn proved_cases_are_writable()
    ensures { ProvedCasesAreWritable }
{
    cases_are_writable();
    runs_show_what_was_admitted();
}
