//! The drill of a stream: what is sent of it, repaired.
ghost use Rattle.std.specs.Prelude.{◌≡◌, ◌⊎◌, ◌≤◌, ◌^◌, ◌∷◌, [], Ok, IfSome};
ghost use Rattle.std.specs.Io.KnownBytes.{IsAtEnd};
ghost use Rattle.fg_io.specs.Faults.{CountsFaults};
ghost use Rattle.fg_shape.specs.Settings.{CanEncode};
ghost use Rattle.fg_shape.specs.Losses.{MayLose};
ghost use Rattle.fg_encode.specs.Stream.{LeavesNothing};
ghost use Rattle.fg_flows.specs.Plan.{PlanFits};
ghost use Rattle.fg_results.specs.Repair.{OutputsPart};
ghost use Rattle.fg_results.specs.Stops.{growth_of};
ghost use Rattle.fg_drill.specs.Drill.{IsFault, answer_to, ending_of};
ghost use Rattle.fg_drill.specs.DrillSteps.{DrillsTrace, IsEndingsAnswer, LeavesTrace, StopsTrace, TellsAll, TellsEnding};
ghost use Rattle.fg_thin.specs.ThinnedSource.{fixed_of, trace_left};
ghost use Rattle.fg_commands.specs.Answered.{RequestAnswered};
ghost use Rattle.fg_run.specs.Counted.{DrillCounts};
ghost use Rattle.fg_run.specs.Drilling.{drilling, why_of_drill};

use fg_commands::Why;
use fg_crew::Gate;
use fg_drill::laws::drills::{drills_come_back, repairs_are_drills};
use fg_flows::Plan;
use fg_io::laws::parts_of_writes;
use fg_io::{Failed, Outlet, Sink, Source};
use fg_repair::repair_as_planned;
use fg_results::Ends;
use fg_results::laws::one_result;
use fg_shape::{Losses, Settings};
use fg_thin::laws::payloads::{payloads_are_the_cut, thinned_traces_are_traces};
use fg_thin::{StreamFault, Thinned, Thinning};
use fg_trace::Finish;
use fg_trace::laws::one_trace;
use std::alloc::Global;
use std::sync::Wait;
use std::thread::Threads;

/// What is sent of a stream.
#[derive(Drop)]
pub(crate) struct Sending {
    /// How the stream is encoded.
    pub(crate) settings: Settings,
    /// The records that are lost.
    pub(crate) losses: Losses,
    /// How many bytes the stream may have, 8 to 2^40.
    pub(crate) max: u64,
}

/// Encodes the stream in the input, leaves out the records that are lost, has the rest repaired, and tells why that ended.
///
/// The lanes and `out` gain what a repair gives for the rest. `NotTransport` and `TooLong` tell how the stream ends early; what comes
/// before is sent and repaired all the same. After a fault the lanes have gained prefixes, and the report is begun only once all lanes
/// are whole.
pub(crate) fn run_drill<
    W: Threads + Wait + Sync,
    S: Source + Send,
    K: Sink + Send,
    O: Outlet + Send,
    G: Gate,
>(rt: &W, alloc: Global, plan: &Plan, sending: Sending, ends: Ends<'_, S, K, O>, gate: &G) -> Why
    requires settings { CanEncode sending.settings }
    requires plan { PlanFits plan.now }
    requires flow { plan.now.table ≡ sending.settings.port ∷ [] }
    requires inner { plan.now.max ≡ 2 ^ 42 }
    requires losses { MayLose sending.losses }
    requires max { (8 ≤ sending.max) × (sending.max ≤ 2 ^ 40) }
    ensures { RequestAnswered (drilling sending.settings plan.now sending.losses sending.max) result
        S.left S.faults ends.entry.input.now ends.exit.0.now
        O.lanes O.faults ends.entry.lanes.now ends.exit.1.1.0.now
        K.written K.faults ends.entry.out.now ends.exit.1.0.now }
{
    // What the source gives is the trace of what is sent, so its repair is the stream's drill, and what comes back follows.
    repairs_are_drills();
    drills_come_back();
    payloads_are_the_cut();
    thinned_traces_are_traces();
    let Ends { input, out, lanes } = ends;
    let Sending {
        settings,
        losses,
        max,
    } = sending;
    let Ok(thinning) = Thinning::new(alloc, settings, losses, max) else {
        return Why::Memory;
    };
    let mut source = thinning.of(&mut *input);
    let answer = repair_sent(rt, alloc, plan, &mut source, out, lanes, gate);
    let _input = source.into_inner();
    why_of(answer)
}

/// The answer of a drill that ends so.
fn why_of(answer: Result<Finish, StreamFault>) -> Why
    ensures { result ≡ why_of_drill answer }
{
    match answer {
        Ok(finish) => finish.into(),
        Err(fault) => Some(fault).into(),
    }
}

/// Has what is sent of a stream repaired, and answers how the stream ends.
#[tactic(auto, using(fg_drill::proofs::DrillReading::other_tells, fg_drill::proofs::Drills::other_drills, fg_drill::proofs::Repairs::finish_stops))]
fn repair_sent<
    W: Threads + Wait + Sync,
    S: Source + Send,
    K: Sink + Send,
    O: Outlet + Send,
    G: Gate,
>(
    rt: &W,
    alloc: Global,
    plan: &Plan,
    source: &mut Thinned<S>,
    out: &mut K,
    lanes: &mut O,
    gate: &G,
) -> Result<Finish, StreamFault>
    requires { PlanFits plan.now }
    ensures whole { IsFault result ⊎ DrillsTrace plan.now source.old.settings.packets source.old.max
        source.old.stream (trace_left source.old) result
        (O.lanes lanes.old) (O.lanes lanes.new) (K.written out.old) (K.written out.new) }
    ensures all_read { IfSome (ending_of result) (λ ending. LeavesNothing ending
        → IsAtEnd (S.left source.new.inner)) }
    ensures part { IsFault result → OutputsPart plan.now (trace_left source.old)
        (O.lanes lanes.old) (O.lanes lanes.new) K.written out.old out.new }
    ensures stops { IsFault result → StopsTrace plan.now (trace_left source.old) result
        (O.lanes lanes.old) (O.lanes lanes.new) }
    ensures at_read { result ≡ Ok Finish.ReadFault → LeavesTrace plan.now (trace_left source.old)
        (O.lanes lanes.old) (O.lanes lanes.new) }
    ensures tells { TellsAll plan.now (trace_left source.old) result source.new.told source.new.fault }
    ensures same { fixed_of S.fixed source.new ≡ fixed_of S.fixed source.old }
    ensures faults { DrillCounts (growth_of plan.now) result
        ((S.faults source.old.inner, S.faults source.new.inner) ∷ [])
        ((K.faults out.old, K.faults out.new) ∷ (O.faults lanes.old, O.faults lanes.new) ∷ []) }
    ensures fixed { S.fixed source.new.inner ≡ S.fixed source.old.inner }
{
    one_result();
    one_trace();
    parts_of_writes();
    match repair_as_planned(rt, alloc, plan, source, out, lanes, gate) {
        Finish::Done => ending(source),
        Finish::ReadFault => Ok(Finish::ReadFault),
        Finish::WriteFault => Ok(Finish::WriteFault),
        Finish::NotTrace(at) => Ok(Finish::NotTrace(at)),
        Finish::Cut(at) => Ok(Finish::Cut(at)),
        Finish::TooLong(at) => Ok(Finish::TooLong(at)),
        Finish::Memory => Ok(Finish::Memory),
    }
}

/// How a stream ends, of which all that is sent was given.
fn ending<S: Source>(source: &mut Thinned<S>) -> Result<Finish, StreamFault>
    requires { IsAtEnd (trace_left source.old) }
    ensures answer { (result ≡ Ok Finish.ReadFault)
        ⊎ IsEndingsAnswer source.old.settings.packets source.old.max source.old.stream result }
    ensures tells { (result ≡ Ok Finish.ReadFault)
        ⊎ IfSome source.old.stream (λ bytes. TellsEnding result source.new.told source.new.fault) }
    ensures all_read { IfSome (ending_of result) (λ ending. LeavesNothing ending
        → IsAtEnd (S.left source.new.inner)) }
    ensures same { fixed_of S.fixed source.new ≡ fixed_of S.fixed source.old }
    ensures faults { CountsFaults (result ≡ Ok Finish.ReadFault) (result ≡ Ok Finish.WriteFault)
        ((S.faults source.old.inner, S.faults source.new.inner) ∷ []) [] }
    ensures fixed { S.fixed source.new.inner ≡ S.fixed source.old.inner }
{
    match source.read(&mut [0]) {
        Ok(_) => answer_for(source.fault()),
        Err(Failed) => Ok(Finish::ReadFault),
    }
}

/// The answer to a stream that ends so.
fn answer_for(ending: Option<StreamFault>) -> Result<Finish, StreamFault>
    ensures { result ≡ answer_to ending }
{
    match ending {
        None => Ok(Finish::Done),
        Some(fault) => Err(fault),
    }
}
