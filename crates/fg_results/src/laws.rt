//! The laws that show the definition of a repair to be right. Each is the contract of a function that does nothing, or only
//! calls laws of the crates below.
ghost use Rattle.fg_results.specs.Existence.{FlowResultExists, ResultsExist};
ghost use Rattle.fg_results.specs.Gaps.{GapsAreTold, OneListOfGaps};
ghost use Rattle.fg_results.specs.Laws.{OneFlowResult, OneResult, OneGained, ShownIsFront, StopsLeaveParts, WholeRecordsAreShown};
ghost use Rattle.fg_results.specs.Picked.{NamedFlowsArePicked, PickedFlowResult, PickedResults};

use fg_fechead::laws::{parity_datagrams_are_decided, parity_datagrams_read_one_way};
use fg_playout::laws::{one_run, one_taking, runs_exist, taken_plays_come_first};
use fg_rtp::laws::{media_datagrams_are_decided, media_datagrams_read_one_way};
use fg_runs::laws::one_list_of_runs;
use fg_trace::laws::{one_trace, whole_records_are_answered};

/// Plays have one list of gaps, and a plain program gives it.
pub fn one_list_of_gaps()
    ensures told { GapsAreTold }
    ensures one { OneListOfGaps }
{
    one_list_of_runs();
}

/// The records of a trace give a flow at most one result.
pub fn one_flow_result()
    ensures { OneFlowResult }
{
    media_datagrams_read_one_way();
    parity_datagrams_read_one_way();
    one_run();
    one_list_of_gaps();
}

/// The bytes of a trace give each flow at most one result.
pub fn one_result()
    ensures { OneResult }
{
    one_trace();
    one_flow_result();
}

/// Any records give each flow a result.
pub fn results_exist()
    ensures flow { FlowResultExists }
    ensures plan { ResultsExist }
{
    media_datagrams_are_decided();
    parity_datagrams_are_decided();
    runs_exist();
}

/// What a flow's plays have shown is the front of its lane, whatever records are still to come.
pub fn shown_is_front()
    ensures { ShownIsFront }
{
    media_datagrams_read_one_way();
    parity_datagrams_read_one_way();
    taken_plays_come_first();
}

/// Where a repair stops, what a lane has gained exactly is one list of bytes at most.
pub fn one_gained()
    ensures { OneGained }
{
    media_datagrams_read_one_way();
    parity_datagrams_read_one_way();
    one_taking();
    one_flow_result();
}

/// Wherever a repair stops, each flow's lane has gained a prefix of its bytes.
pub fn stops_leave_parts()
    ensures { StopsLeaveParts }
{
    shown_is_front();
    one_flow_result();
    results_exist();
}

/// After a failed read each lane has gained exactly what the records show that stand whole in what was read.
pub fn whole_records_are_shown()
    ensures { WholeRecordsAreShown }
{
    whole_records_are_answered();
}

/// What is picked of records gives a flow, of which all is picked, the results that all records give it. So a trace can be cut
/// by its flows, and each part repaired alone.
pub fn picked_flows()
    ensures flow { PickedFlowResult }
    ensures plan { PickedResults }
    ensures named { NamedFlowsArePicked }
{}
