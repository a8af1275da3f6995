//! All flows of a repair, from the first record to the end of the lanes.
ghost use Rattle.std.specs.Prelude.{◌≡◌, ◌≤◌, ◌<◌, ◌++◌, ℕ, Option, List, [], ◌∷◌, length, map, slice_index, slice_index_or, All, None, IfOk, IfErr, IfSome, IfNone, OnOk, OnErr};
ghost use Rattle.fg_io.specs.Faults.{Counts};
ghost use Rattle.fg_io.specs.Outlet.{Lanes};
ghost use Rattle.fg_trace.specs.Finish.{finish_after};
ghost use Rattle.fg_trace.specs.Reader.{StandsAfter};
ghost use Rattle.fg_trace.specs.Reading.{HasReached};
ghost use Rattle.fg_trace.specs.Trace.{Record};
ghost use Rattle.fg_flows.specs.declared.Plan.{Plan};
ghost use Rattle.fg_flows.specs.Plan.{PlanFits, playout_of};
ghost use Rattle.fg_playout.specs.State.{opening};
ghost use Rattle.fg_results.specs.Stops.{ByRecord};
ghost use Rattle.fg_engine.specs.View.{FlowView};
ghost use Rattle.fg_engine.specs.Engine.{EngineStands, FlowStands, IsRunning, HasCome, BreaksAfter, LanesStop, StandsAtFault, HasWalked, ReadsOn, TookAll, told_finish, IsFlushing, AreReady, HasEnded, BreaksAtFlush, LanesWhole, GrowAll, AreThere, MakesFirst};

use crate::flow::Flow;
use crate::player::LaneWriter;
use crate::window::WindowState;
use fg_flows::laws::one_flow_has_a_port;
use fg_flows::{Plan, Table};
use fg_io::{Fault, Outlet, Source, close, prepare, put};
use fg_report::Tail;
use fg_trace::laws::{one_trace, walks_the_front, whole_records_are_answered};
use fg_trace::{Reader, Step, TraceFault};
use std::alloc::{AllocError, Global};

/// The flows in the order of the plan, and what they share.
#[derive(Drop)]
pub struct Engine<D: WindowState> {
    /// In the order of the plan.
    pub flows: Vec<Flow<D>>,
    /// Writes the plays of all flows.
    pub writer: LaneWriter,
    /// Records on a port of no flow.
    pub other: u64,
}

/// The flows of the plan over these windows, which are in their order, before the first record.
fn flows_over<D: WindowState>(
    alloc: Global,
    plan: &Plan,
    windows: Vec<D>,
) -> Result<Vec<Flow<D>>, AllocError>
    requires fits { PlanFits plan.now }
    requires count { length windows.items ≡ length plan.now.table }
    requires empty { All (λ window. D.state window ≡ opening (playout_of plan.now)) windows.items }
    ensures count { IfOk result (λ flows. length flows.items ≡ length plan.now.table) }
    ensures flows { IfOk result (λ flows. (k : ℕ) (d : FlowView) → k < length plan.now.table
        → FlowStands plan.now [] (slice_index plan.now.table k) (slice_index_or flows.items k d) []) }
{
    let mut flows = Vec::with_capacity(alloc, windows.len())?;
    for window in windows {
        let port = plan.table.port(flows.len());
        flows.push(Flow::new(alloc, port, window))?;
    }
    Ok(flows)
}

impl<D: WindowState> Engine<D> {
    /// The flows of the plan over these windows, which are in their order, before the first record. All further memory is
    /// taken here.
    pub fn new(alloc: Global, plan: &Plan, windows: Vec<D>) -> Result<Engine<D>, AllocError>
        requires fits { PlanFits plan.now }
        requires count { length windows.items ≡ length plan.now.table }
        requires empty { All (λ window. D.state window ≡ opening (playout_of plan.now)) windows.items }
        ensures { IfOk result (λ engine. EngineStands plan.now [] engine (λ _. [])) }
    {
        let flows = flows_over(alloc, plan, windows)?;
        let writer = LaneWriter::new(alloc, plan.window)?;
        Ok(Engine {
            flows,
            writer,
            other: 0,
        })
    }

    /// Takes a record: it goes to the flow that has its port, or is counted as one of no flow.
    fn take<O: Outlet>(
        &mut self,
        alloc: Global,
        plan: &Plan,
        port: u16,
        time: u64,
        datagram: &[u8],
        lanes: &mut O,
    ) -> Result<(), Fault>
        requires fits { PlanFits plan.now }
        requires running { IsRunning plan.now self.old }
        ensures takes { OnOk result ((before : Option Lanes) (records : List Record) (r : Record)
            → HasCome plan.now records self.old before (O.lanes lanes.old)
            → r.port ≡ port → r.time ≡ time → r.datagram ≡ datagram.now
            → HasCome plan.now (records ++ r ∷ []) self.new before (O.lanes lanes.new)) }
        ensures breaks { OnErr result ((before : Option Lanes) (records : List Record) (r : Record)
            → HasCome plan.now records self.old before (O.lanes lanes.old)
            → r.port ≡ port → r.time ≡ time → r.datagram ≡ datagram.now
            → (broken : Option ℕ)
            × BreaksAfter plan.now records (records ++ r ∷ []) broken before (O.lanes lanes.new)) }
        ensures faults { Counts result [] ((O.faults lanes.old, O.faults lanes.new) ∷ []) }
    {
        one_flow_has_a_port();
        match plan.table.find(port) {
            Some((i, kind)) => {
                self.flows[i].take(alloc, &mut self.writer, kind, time, datagram, lanes)?;
            }
            None => self.other += 1,
        }
        Ok(())
    }

    /// Takes the next record, where there is one; else it answers how the trace ends.
    fn take_next<S: Source, O: Outlet>(
        &mut self,
        alloc: Global,
        plan: &Plan,
        reader: &mut Reader,
        input: &mut S,
        lanes: &mut O,
    ) -> Result<Option<Tail>, Fault>
        requires fits { PlanFits plan.now }
        requires underway { (first : Option (List ℕ)) × (before : Option Lanes)
            × HasWalked plan.now first (S.left input.old) reader.old self.old before (O.lanes lanes.old) }
        requires open { reader.old.kept ≡ None }
        requires max { reader.old.max ≡ plan.now.max }
        ensures more { IfOk result (λ end. IfNone end ((first : Option (List ℕ)) (before : Option Lanes)
            → HasWalked plan.now first (S.left input.old) reader.old self.old before (O.lanes lanes.old)
            → HasWalked plan.now first (S.left input.new) reader.new self.new before (O.lanes lanes.new))) }
        ensures ends { IfOk result (λ end. IfSome end (λ tail. (first : Option (List ℕ)) (before : Option Lanes)
            → HasWalked plan.now first (S.left input.old) reader.old self.old before (O.lanes lanes.old)
            → TookAll plan.now first self.new tail before (O.lanes lanes.new))) }
        ensures stops { IfErr result (λ fault. (first : Option (List ℕ)) (before : Option Lanes)
            → HasWalked plan.now first (S.left input.old) reader.old self.old before (O.lanes lanes.old)
            → LanesStop ByRecord plan.now (finish_after fault) first before (O.lanes lanes.new)) }
        ensures at_read { IfErr result (λ fault. (first : Option (List ℕ)) (before : Option Lanes)
            → HasWalked plan.now first (S.left input.old) reader.old self.old before (O.lanes lanes.old)
            → StandsAtFault plan.now fault first (S.left input.new) before (O.lanes lanes.new)) }
        ensures far { ReadsOn plan.now.max reader.old (S.left input.old) reader.new (S.left input.new) }
        ensures reaches { IfOk result (λ end. IfSome end (λ tail.
            HasReached (told_finish tail) reader.new (S.left input.new))) }
        ensures open { IfOk result (λ end. IfNone end (reader.new.kept ≡ None)) }
        ensures max { reader.new.max ≡ reader.old.max }
        ensures place { IfOk result (λ end. IfNone end (reader.old.place < reader.new.place)) }
        ensures within { reader.new.place ≤ reader.new.max }
        ensures faults { Counts result ((S.faults input.old, S.faults input.new) ∷ [])
            ((O.faults lanes.old, O.faults lanes.new) ∷ []) }
        ensures fixed { S.fixed input.new ≡ S.fixed input.old }
    {
        walks_the_front();
        whole_records_are_answered();
        match reader.next(input) {
            Ok(Step::Datagram { time, port, .. }) => {
                self.take(alloc, plan, port, time, reader.payload(), lanes)?;
                Ok(None)
            }
            Ok(Step::End) => Ok(Some(Tail::Ended)),
            Err(TraceFault::Cut(place)) => Ok(Some(Tail::Cut(place))),
            Err(TraceFault::TooLong(place)) => Ok(Some(Tail::TooLong(place))),
            Err(TraceFault::ReadFault) => Err(Fault::Read),
            Err(TraceFault::NotTrace(_)) => unreachable!(),
        }
    }

    /// Takes all records that are left, and answers how the trace ends.
    pub(crate) fn take_all<S: Source, O: Outlet>(
        &mut self,
        alloc: Global,
        plan: &Plan,
        reader: &mut Reader,
        input: &mut S,
        lanes: &mut O,
    ) -> Result<Tail, Fault>
        requires fits { PlanFits plan.now }
        requires underway { (first : Option (List ℕ)) × (before : Option Lanes)
            × HasWalked plan.now first (S.left input.old) reader.old self.old before (O.lanes lanes.old) }
        requires open { reader.old.kept ≡ None }
        requires max { reader.old.max ≡ plan.now.max }
        ensures whole { IfOk result (λ tail. (first : Option (List ℕ)) (before : Option Lanes)
            → HasWalked plan.now first (S.left input.old) reader.old self.old before (O.lanes lanes.old)
            → TookAll plan.now first self.new tail before (O.lanes lanes.new)) }
        ensures stops { IfErr result (λ fault. (first : Option (List ℕ)) (before : Option Lanes)
            → HasWalked plan.now first (S.left input.old) reader.old self.old before (O.lanes lanes.old)
            → LanesStop ByRecord plan.now (finish_after fault) first before (O.lanes lanes.new)) }
        ensures at_read { IfErr result (λ fault. (first : Option (List ℕ)) (before : Option Lanes)
            → HasWalked plan.now first (S.left input.old) reader.old self.old before (O.lanes lanes.old)
            → StandsAtFault plan.now fault first (S.left input.new) before (O.lanes lanes.new)) }
        ensures far { ReadsOn plan.now.max reader.old (S.left input.old) reader.new (S.left input.new) }
        ensures reaches { IfOk result (λ tail. HasReached (told_finish tail) reader.new (S.left input.new)) }
        ensures faults { Counts result ((S.faults input.old, S.faults input.new) ∷ [])
            ((O.faults lanes.old, O.faults lanes.new) ∷ []) }
        ensures fixed { S.fixed input.new ≡ S.fixed input.old }
    {
        loop {
            if let Some(tail) = self.take_next(alloc, plan, reader, input, lanes)? {
                return Ok(tail);
            }
        }
    }
}

/// Looks at the lanes of all flows, and makes each then. Where one can't be, none is touched.
pub fn make_lanes<O: Outlet>(table: &Table, lanes: &mut O) -> Result<(), Fault>
    ensures made { OnOk result (GrowAll (O.lanes lanes.old) table.now (λ _. []) (O.lanes lanes.new)) }
    ensures there { OnOk result (AreThere table.now (O.lanes lanes.new)) }
    ensures part { OnErr result (GrowAll (O.lanes lanes.old) table.now (λ _. []) (O.lanes lanes.new)) }
    ensures first { OnErr result (MakesFirst table.now (O.lanes lanes.old) (O.lanes lanes.new)) }
    ensures faults { Counts result [] ((O.faults lanes.old, O.faults lanes.new) ∷ []) }
{
    prepare(lanes, table.ports())?;
    make_each(table, lanes)
}

/// Makes each flow's lane, by an empty put.
fn make_each<O: Outlet>(table: &Table, lanes: &mut O) -> Result<(), Fault>
    ensures made { OnOk result (GrowAll (O.lanes lanes.old) table.now (λ _. []) (O.lanes lanes.new)) }
    ensures there { OnOk result (AreThere table.now (O.lanes lanes.new)) }
    ensures part { OnErr result (GrowAll (O.lanes lanes.old) table.now (λ _. []) (O.lanes lanes.new)) }
    ensures first { OnErr result (MakesFirst table.now (O.lanes lanes.old) (O.lanes lanes.new)) }
    ensures faults { Counts result [] ((O.faults lanes.old, O.faults lanes.new) ∷ []) }
{
    for i in 0..table.count() {
        put(lanes, table.port(i), &[])?;
    }
    Ok(())
}

/// Flushes the flows, in their order, and closes the lanes, which are whole then.
pub fn flush<D: WindowState, O: Outlet>(
    flows: &mut [Flow<D>],
    writer: &mut LaneWriter,
    lanes: &mut O,
) -> Result<(), Fault>
    requires { AreReady flows.old (O.lanes lanes.old) }
    ensures ends { OnOk result ((plan : Plan) (records : List Record) (before : Option Lanes) → PlanFits plan
        → IsFlushing plan records 0 flows.old before (O.lanes lanes.old)
        → HasEnded plan records flows.new before (O.lanes lanes.new)) }
    ensures breaks { OnErr result ((plan : Plan) (records : List Record) (before : Option Lanes) → PlanFits plan
        → IsFlushing plan records 0 flows.old before (O.lanes lanes.old)
        → BreaksAtFlush plan records before (O.lanes lanes.new)) }
    ensures ports { map (λ flow. flow.sum.port) flows.new ≡ map (λ flow. flow.sum.port) flows.old }
    ensures writer { writer.new ≡ writer.old }
    ensures faults { Counts result [] ((O.faults lanes.old, O.faults lanes.new) ∷ []) }
{
    one_flow_has_a_port();
    for flow in flows.iter_mut() {
        flow.flush(writer, lanes)?;
    }
    close(lanes)
}
