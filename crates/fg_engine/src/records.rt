//! The repair of a trace over the windows of its flows, wherever these stand.
ghost use Rattle.std.specs.Prelude.{◌≡◌, ◌+◌, ◌≤◌, ◌++◌, ℕ, Option, None, List, [], ◌∷◌, length, All, IfOk, IfErr, OnOk, OnErr};
ghost use Rattle.fg_io.specs.Faults.{Counts, CountsFaults};
ghost use Rattle.fg_io.specs.Outlet.{Lanes};
ghost use Rattle.fg_io.specs.Sink.{Gains, GainsPart};
ghost use Rattle.fg_trace.specs.Reader.{StandsAfter};
ghost use Rattle.fg_trace.specs.Finish.{IsFault, finish_after};
ghost use Rattle.fg_flows.specs.Plan.{PlanFits, playout_of};
ghost use Rattle.fg_playout.specs.State.{opening};
ghost use Rattle.fg_report.specs.Text.{report_of};
ghost use Rattle.fg_results.specs.Contract.{IsRepair, Repairs};
ghost use Rattle.fg_results.specs.Counted.{RepairCounts};
ghost use Rattle.fg_results.specs.Stops.{Growth, ByRecord, ByBatch};
ghost use Rattle.fg_engine.specs.Driver.{PartCounts, HasBegun, HasTakenAll};
ghost use Rattle.fg_engine.specs.Engine.{LanesStop, sums_of, told_finish, answer_of};

use crate::engine::{Engine, flush, make_lanes};
use crate::flow::Flow;
use crate::window::WindowState;
use fg_flows::Plan;
use fg_io::laws::parts_of_writes;
use fg_io::{Fault, Outlet, Sink, Source};
use fg_report::{FlowSum, ReportFault, Tail, write_report};
use fg_results::laws::{one_flow_result, results_exist, stops_leave_parts};
use fg_trace::laws::{one_trace, read_as_far_as_needed, whole_records_are_answered};
use fg_trace::{Finish, Reader, TraceFault};
use std::alloc::{AllocError, Global};

/// Repairs the flows of a trace over these windows, which are those of the plan's flows in their order, and empty.
pub fn repair_windows<D: WindowState, S: Source, K: Sink, O: Outlet>(
    alloc: Global,
    plan: &Plan,
    windows: Vec<D>,
    input: &mut S,
    out: &mut K,
    lanes: &mut O,
) -> Finish
    requires fits { PlanFits plan.now }
    requires count { length windows.items ≡ length plan.now.table }
    requires empty { All (λ window. D.state window ≡ opening (playout_of plan.now)) windows.items }
    ensures { Repairs ByRecord plan.now result S.left S.faults S.fixed input.old input.new
        O.lanes O.faults lanes.old lanes.new K.written K.faults out.old out.new }
{
    match begin(alloc, plan, windows, input, out, lanes) {
        Ok(mut begun) => {
            let taken = begun
                .engine
                .take_all(alloc, plan, &mut begun.reader, input, lanes);
            end(alloc, plan, begun, taken, out, lanes)
        }
        Err(finish) => finish,
    }
}

/// Ends a repair for want of memory before it has begun, in whichever way its lanes would grow. It leaves all as it was.
pub fn give_up<S: Source, K: Sink, O: Outlet>(plan: &Plan, input: &S, out: &K, lanes: &O) -> Finish
    requires { PlanFits plan.now }
    ensures answer { result ≡ Finish.Memory }
    ensures by_record { Repairs ByRecord plan.now result S.left S.faults S.fixed input.now input.now
        O.lanes O.faults lanes.now lanes.now K.written K.faults out.now out.now }
    ensures by_batch { Repairs ByBatch plan.now result S.left S.faults S.fixed input.now input.now
        O.lanes O.faults lanes.now lanes.now K.written K.faults out.now out.now }
{
    // Where lanes stop, they have gained parts of the results. And what was read is as far as this answer needs.
    stops_leave_parts();
    read_as_far_as_needed();
    Finish::Memory
}

/// A repair that has begun: the magic of its trace was found, all its memory is taken, and its lanes are made.
#[derive(Drop)]
pub struct Begun<D: WindowState> {
    /// The flows, and what they share.
    pub engine: Engine<D>,
    /// Stands after the records that the engine has taken.
    pub reader: Reader,
    /// Room for the flows' counts, which the report tells.
    pub sums: Vec<FlowSum>,
}

/// Begins a repair of the flows of a trace over these windows, which are those of the plan's flows in their order, and empty.
///
/// # Errors
///
/// The answer of the repair, which has ended then.
pub fn begin<D: WindowState, S: Source, K: Sink, O: Outlet>(
    alloc: Global,
    plan: &Plan,
    windows: Vec<D>,
    input: &mut S,
    out: &K,
    lanes: &mut O,
) -> Result<Begun<D>, Finish>
    requires fits { PlanFits plan.now }
    requires count { length windows.items ≡ length plan.now.table }
    requires empty { All (λ window. D.state window ≡ opening (playout_of plan.now)) windows.items }
    ensures begun { IfOk result (λ begun. HasBegun plan.now (S.left input.old) (S.left input.new) begun
        (O.lanes lanes.old) (O.lanes lanes.new)) }
    ensures ends { IfErr result (λ answer. (growth : Growth) → IsRepair growth plan.now answer
        (S.left input.old) (S.left input.new) O.lanes lanes.old lanes.new K.written out.now out.now) }
    ensures still { OnOk result ((S.faults input.new ≡ S.faults input.old) × (O.faults lanes.new ≡ O.faults lanes.old)) }
    ensures faults { IfErr result (λ answer. CountsFaults (answer ≡ Finish.ReadFault) (answer ≡ Finish.WriteFault)
        ((S.faults input.old, S.faults input.new) ∷ []) ((O.faults lanes.old, O.faults lanes.new) ∷ [])) }
    ensures fixed { S.fixed input.new ≡ S.fixed input.old }
{
    // What is no trace has a result for each flow too. Where lanes stop, they have gained parts of the results. And what a
    // reader has read is as far as each answer needs. Where it looks for the magic, that is what it holds.
    results_exist();
    stops_leave_parts();
    one_trace();
    read_as_far_as_needed();
    whole_records_are_answered();
    let Ok(mut reader) = Reader::new(alloc, plan.max) else {
        return Err(Finish::Memory);
    };
    match reader.start(input) {
        Ok(()) => match make_ready(alloc, plan, windows, reader, lanes) {
            Ok(begun) => Ok(begun),
            Err(fault) => Err(fault.into()),
        },
        Err(TraceFault::NotTrace(place)) => Err(Finish::NotTrace(place)),
        Err(TraceFault::ReadFault) => Err(Finish::ReadFault),
        Err(TraceFault::Cut(_)) => unreachable!(),
        Err(TraceFault::TooLong(_)) => unreachable!(),
    }
}

/// Takes the memory for a repair, and makes its lanes.
fn make_ready<D: WindowState, O: Outlet>(
    alloc: Global,
    plan: &Plan,
    windows: Vec<D>,
    reader: Reader,
    lanes: &mut O,
) -> Result<Begun<D>, Fault>
    requires fits { PlanFits plan.now }
    requires count { length windows.items ≡ length plan.now.table }
    requires empty { All (λ window. D.state window ≡ opening (playout_of plan.now)) windows.items }
    requires open { reader.kept ≡ None }
    requires max { reader.max ≡ plan.now.max }
    requires bounded { reader.place + length reader.held ≤ reader.max + 1 }
    ensures begun { IfOk result (λ begun. (first left : Option (List ℕ)) → StandsAfter reader first left []
        → HasBegun plan.now first left begun (O.lanes lanes.old) (O.lanes lanes.new)) }
    ensures stops { IfErr result (λ fault. (growth : Growth) (first : Option (List ℕ))
        → LanesStop growth plan.now (finish_after fault) first (O.lanes lanes.old) (O.lanes lanes.new)) }
    ensures faults { Counts result [] ((O.faults lanes.old, O.faults lanes.new) ∷ []) }
{
    let engine = Engine::new(alloc, plan, windows)?;
    let sums = Vec::with_capacity(alloc, engine.flows.len())?;
    make_lanes(&plan.table, lanes)?;
    Ok(Begun {
        engine,
        reader,
        sums,
    })
}

/// Ends a repair once its records were taken, and answers for it. `taken` is what the taking of the records has answered.
pub fn end<D: WindowState, K: Sink, O: Outlet>(
    alloc: Global,
    plan: &Plan,
    begun: Begun<D>,
    taken: Result<Tail, Fault>,
    out: &mut K,
    lanes: &mut O,
) -> Finish
    requires fits { PlanFits plan.now }
    requires sums { begun.sums.items ≡ [] }
    requires taken { (growth : Growth) × (first : Option (List ℕ)) × (left : Option (List ℕ)) × (before : Option Lanes)
        × HasTakenAll growth plan.now first left begun before (O.lanes lanes.old) taken }
    ensures repairs { (growth : Growth) (first left : Option (List ℕ)) (before : O)
        → HasTakenAll growth plan.now first left begun (O.lanes before) (O.lanes lanes.old) taken
        → IsRepair growth plan.now result first left O.lanes before lanes.new K.written out.old out.new }
    // Whatever was counted while the records were taken, of the source and of the lanes.
    ensures faults { (growth : Growth) (reads : ℕ × ℕ) (writes : ℕ)
        → PartCounts growth taken (reads ∷ []) ((writes, O.faults lanes.old) ∷ [])
        → RepairCounts growth result (reads ∷ [])
        ((K.faults out.old, K.faults out.new) ∷ (writes, O.faults lanes.new) ∷ []) }
{
    match finish(alloc, plan, begun, taken, out, lanes) {
        Ok(finish) => finish,
        Err(fault) => fault.into(),
    }
}

/// Flushes the flows and writes the report, where all records were taken.
fn finish<D: WindowState, K: Sink, O: Outlet>(
    alloc: Global,
    plan: &Plan,
    begun: Begun<D>,
    taken: Result<Tail, Fault>,
    out: &mut K,
    lanes: &mut O,
) -> Result<Finish, Fault>
    requires fits { PlanFits plan.now }
    requires sums { begun.sums.items ≡ [] }
    requires taken { (growth : Growth) × (first : Option (List ℕ)) × (left : Option (List ℕ)) × (before : Option Lanes)
        × HasTakenAll growth plan.now first left begun before (O.lanes lanes.old) taken }
    ensures repairs { (growth : Growth) (first left : Option (List ℕ)) (before : O)
        → HasTakenAll growth plan.now first left begun (O.lanes before) (O.lanes lanes.old) taken
        → IsRepair growth plan.now (answer_of result) first left O.lanes before lanes.new K.written out.old out.new }
    ensures ending { IfOk result (λ finish. ¬ IsFault finish) }
    ensures faults { (growth : Growth) (reads : ℕ × ℕ) (writes : ℕ)
        → PartCounts growth taken (reads ∷ []) ((writes, O.faults lanes.old) ∷ [])
        → PartCounts growth result (reads ∷ [])
        ((K.faults out.old, K.faults out.new) ∷ (writes, O.faults lanes.new) ∷ []) }
{
    // The lanes are those of the one trace, and their results the ones that the report tells. Where they stop, they have
    // gained parts of those.
    one_trace();
    one_flow_result();
    stops_leave_parts();
    read_as_far_as_needed();
    let tail = taken?;
    let Begun {
        mut engine,
        reader: _,
        sums,
    } = begun;
    flush(&mut engine.flows, &mut engine.writer, lanes)?;
    report(alloc, engine, sums, tail, out)?;
    Ok(finish_at(tail))
}

/// Writes the report of the flows. `sums` is empty, and has room for their counts.
pub fn report<D: WindowState, K: Sink>(
    alloc: Global,
    engine: Engine<D>,
    sums: Vec<FlowSum>,
    tail: Tail,
    out: &mut K,
) -> Result<(), Fault>
    requires { sums.items ≡ [] }
    ensures whole { OnOk result (Gains (K.written out.old)
        (report_of (sums_of engine.flows.items) engine.other tail) (K.written out.new)) }
    ensures part { OnErr result (GainsPart (K.written out.old)
        (report_of (sums_of engine.flows.items) engine.other tail) (K.written out.new)) }
    ensures faults { Counts result [] ((K.faults out.old, K.faults out.new) ∷ []) }
{
    parts_of_writes();
    let sums = add_sums(sums, engine.flows)?;
    match write_report(alloc, &sums, engine.other, tail, out) {
        Ok(()) => Ok(()),
        Err(ReportFault::WriteFault) => Err(Fault::Write),
        Err(ReportFault::Memory) => Err(Fault::Memory),
    }
}

/// Adds the flows' counts to `sums`.
fn add_sums<D: WindowState>(
    mut sums: Vec<FlowSum>,
    flows: Vec<Flow<D>>,
) -> Result<Vec<FlowSum>, AllocError>
    ensures { IfOk result (λ all. all.items ≡ sums.items ++ sums_of flows.items) }
{
    for flow in flows {
        sums.push(flow.sum)?;
    }
    Ok(sums)
}

/// The answer to a trace with this tail.
pub fn finish_at(tail: Tail) -> Finish
    ensures { result ≡ told_finish tail }
{
    match tail {
        Tail::Ended => Finish::Done,
        Tail::Cut(place) => Finish::Cut(place),
        Tail::TooLong(place) => Finish::TooLong(place),
    }
}
