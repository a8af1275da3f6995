//! Walking a trace batch by batch, in three stages.
ghost use Rattle.std.specs.Prelude.{◌≡◌, ℕ, Option, List, [], ◌∷◌, ◌≤◌, ◌++◌, All, length, map, replicate, false, None, IsSome, IfOk, IfErr, OnOk};
ghost use Rattle.fg_io.specs.Outlet.{Lanes};
ghost use Rattle.fg_trace.specs.Finish.{finish_after};
ghost use Rattle.fg_trace.specs.Reading.{HasReached};
ghost use Rattle.fg_flows.specs.Plan.{PlanFits};
ghost use Rattle.fg_flows.specs.Sheaf.{no_items};
ghost use Rattle.fg_results.specs.Counted.{CountsBeside};
ghost use Rattle.fg_results.specs.Stops.{ByBatch};
ghost use Rattle.fg_engine.specs.Engine.{IsAtStart, LanesStop, ReadsOn, StandsAtFault, TookAll, told_finish};
ghost use Rattle.fg_batches.specs.Batches.{CanRunAll, nothing_waits};
ghost use Rattle.fg_batches.specs.Stages.{HaveShown, RunsBatches, answer_to, starved_answer};
ghost use Rattle.fg_batches.specs.Walking.{IsReady, RanAll, unshelved};

use crate::emptying::empty_rows;
use crate::flows::BatchFlow;
use crate::gathering::Gathering;
use crate::passing::{Batch, Row, Tabled};
use crate::playing::{BatchPlayer, Flows, run_batch};
use crate::putting::RowPutter;
use crate::reading::BatchReader;
use fg_engine::{Engine, Flow, Shelved, WindowState};
use fg_flows::laws::one_flow_has_a_port;
use fg_flows::{Plan, Sheaf};
use fg_io::{Fault, Outlet, Source};
use fg_pipe::run_three;
use fg_report::Tail;
use fg_results::laws::one_gained;
use fg_trace::Reader;
use fg_trace::laws::{one_trace, walks_the_front, whole_records_are_answered};
use std::alloc::{AllocError, Global};
use std::marker::PhantomData;
use std::mem;
use std::sync::Wait;
use std::thread::Threads;

/// How many batches may be ahead of the flows, and how many rows of what they show ahead of the lanes.
const BATCHES: usize = 4;

const ROWS: usize = 2;

/// Takes all records of a repair that has begun, batch by batch, and answers how the trace ends. `P` has the plan's ports. All
/// memory for the records is taken first.
///
/// # Errors
///
/// The first fault in the order of the trace. Before a read that failed all records were run, and what they show was put.
pub(crate) fn take_in_batches<
    W: Threads + Wait + Sync,
    P: Tabled,
    D: WindowState + Send,
    S: Source + Send,
    O: Outlet + Send,
>(
    rt: &W,
    alloc: Global,
    plan: &Plan,
    engine: &mut Engine<D>,
    reader: Reader,
    input: &mut S,
    lanes: &mut O,
) -> (Reader, Result<Tail, Fault>)
    requires fits { PlanFits plan.now }
    requires named { plan.now.table ≡ P.table }
    requires start { (first : Option (List ℕ)) × (before : Option Lanes)
        × IsAtStart plan.now first (S.left input.old) reader engine.old before (O.lanes lanes.old) }
    requires open { reader.kept ≡ None }
    requires max { reader.max ≡ plan.now.max }
    ensures whole { IfOk result.1 (λ tail. (first : Option (List ℕ)) (before : Option Lanes)
        → IsAtStart plan.now first (S.left input.old) reader engine.old before (O.lanes lanes.old)
        → TookAll plan.now first engine.new tail before (O.lanes lanes.new)) }
    ensures stops { IfErr result.1 (λ fault. (first : Option (List ℕ)) (before : Option Lanes)
        → IsAtStart plan.now first (S.left input.old) reader engine.old before (O.lanes lanes.old)
        → LanesStop ByBatch plan.now (finish_after fault) first before (O.lanes lanes.new)) }
    ensures at_read { IfErr result.1 (λ fault. (first : Option (List ℕ)) (before : Option Lanes)
        → IsAtStart plan.now first (S.left input.old) reader engine.old before (O.lanes lanes.old)
        → StandsAtFault plan.now fault first (S.left input.new) before (O.lanes lanes.new)) }
    ensures far { ReadsOn plan.now.max reader (S.left input.old) result.0 (S.left input.new) }
    ensures reaches { IfOk result.1 (λ tail. HasReached (told_finish tail) result.0 (S.left input.new)) }

    // A fault of the outside is answered only where it was counted, and one of reading may have been counted with any fault.
    ensures faults { CountsBeside result.1 ((S.faults input.old, S.faults input.new) ∷ [])
        ((O.faults lanes.old, O.faults lanes.new) ∷ []) }
    ensures fixed { S.fixed input.new ≡ S.fixed input.old }
{
    // Where lanes stop, they have what the first records show.
    walks_the_front();
    one_trace();
    let flows = mem::replace(&mut engine.flows, Vec::new(alloc));
    let Ok(parts) = Parts::<P, D>::new(alloc, plan, flows, engine.other) else {
        return (reader, Err(Fault::Memory));
    };
    let Parts {
        batches,
        rows,
        gathering,
        flows,
        left,
    } = parts;
    let mut giver = BatchReader {
        plan,
        reader,
        gathering,
        end: None,
    };
    let depth = plan.depth;
    let mut player = BatchPlayer {
        run: |sheaf: &Sheaf, flows: &mut Vec<BatchFlow<D>>, shelves: &mut [Shelved]|
            requires { CanRunAll sheaf.now flows.now.items × (length shelves.now ≡ length flows.now.items) }
            ensures { OnOk result (HaveShown sheaf.entry.now flows.entry.now.items flows.exit.now.items shelves.entry.now shelves.exit.now) }
        { run_batch(rt, alloc, depth, sheaf, flows, shelves) },
        flows,
        starved: false,
    };
    let taken = run_stages::<W, P, _, _, S, O>(
        rt,
        alloc,
        Round { batches, rows },
        &mut giver,
        input,
        &mut player,
        lanes,
    );
    engine.other = giver.gathering.other;
    match flows_alone(player.flows, left) {
        Ok(flows) => {
            engine.flows = flows;
            (giver.reader, taken)
        }
        Err(AllocError) => (giver.reader, starve(taken)),
    }
}

/// The empty batches and rows that the stages give on.
#[derive(Drop)]
struct Round<P: Tabled> {
    batches: Vec<Batch<P>>,
    rows: Vec<Row<P>>,
}

/// Runs the three stages, and answers how the trace ends.
///
/// # Errors
///
/// The first fault in the order of the trace.
fn run_stages<
    W: Threads + Wait + Sync,
    P: Tabled,
    L: Flows,
    F: Fn(&Sheaf, &mut L, &mut [Shelved]) -> Result<(), AllocError>,
    S: Source + Send,
    O: Outlet + Send,
>(
    rt: &W,
    alloc: Global,
    round: Round<P>,
    giver: &mut BatchReader,
    input: &mut S,
    player: &mut BatchPlayer<L, F>,
    lanes: &mut O,
) -> Result<Tail, Fault>
    requires fits { PlanFits giver.old.plan.now }
    requires named { giver.old.plan.now.table ≡ P.table }
    requires batches { All (λ sheaf. sheaf ≡ no_items (length P.table)) round.batches.items }
    requires rows { All (λ row. row ≡ map nothing_waits P.table) round.rows.items }
    requires ready { (first : Option (List ℕ)) × (before : Option Lanes)
        × IsReady giver.old.plan.now first (S.left input.old) giver.old.reader giver.old.gathering (L.seen player.old.flows) before (O.lanes lanes.old) }
    requires free { giver.old.gathering.sheaf ≡ no_items (length giver.old.plan.now.table) }
    requires open { giver.old.reader.kept ≡ None }
    requires max { giver.old.reader.max ≡ giver.old.plan.now.max }
    requires going { giver.old.end ≡ None }
    requires fed { player.old.starved ≡ false }
    requires runs { RunsBatches L.seen F.Fn player.old.run }
    ensures whole { IfOk result (λ tail. (first : Option (List ℕ)) (before : Option Lanes)
        → IsReady giver.old.plan.now first (S.left input.old) giver.old.reader giver.old.gathering (L.seen player.old.flows) before (O.lanes lanes.old)
        → RanAll giver.old.plan.now first (L.seen player.new.flows) giver.new.gathering.other tail before (O.lanes lanes.new)) }
    ensures stops { IfErr result (λ fault. (first : Option (List ℕ)) (before : Option Lanes)
        → IsReady giver.old.plan.now first (S.left input.old) giver.old.reader giver.old.gathering (L.seen player.old.flows) before (O.lanes lanes.old)
        → LanesStop ByBatch giver.old.plan.now (finish_after fault) first before (O.lanes lanes.new)) }
    ensures at_read { IfErr result (λ fault. (first : Option (List ℕ)) (before : Option Lanes)
        → IsReady giver.old.plan.now first (S.left input.old) giver.old.reader giver.old.gathering (L.seen player.old.flows) before (O.lanes lanes.old)
        → StandsAtFault giver.old.plan.now fault first (S.left input.new) before (O.lanes lanes.new)) }
    ensures far { ReadsOn giver.old.plan.now.max giver.old.reader (S.left input.old) giver.new.reader (S.left input.new) }
    ensures reaches { IfOk result (λ tail. HasReached (told_finish tail) giver.new.reader (S.left input.new)) }
    ensures faults { CountsBeside result ((S.faults input.old, S.faults input.new) ∷ [])
        ((O.faults lanes.old, O.faults lanes.new) ∷ []) }
    ensures fixed { S.fixed input.new ≡ S.fixed input.old }
{
    // What a flow has shown of some records is one list of bytes, and where lanes stop, they have what the first records show.
    one_flow_has_a_port();
    one_gained();
    walks_the_front();
    one_trace();
    whole_records_are_answered();
    let mut putter = RowPutter { broken: false };
    let Round { batches, rows } = round;
    match run_three(
        rt,
        alloc,
        batches,
        rows,
        giver,
        input,
        player,
        &mut putter,
        lanes,
    ) {
        Ok(()) => answer(giver.end, player.starved, putter.broken),
        Err(AllocError) => Err(Fault::Memory),
    }
}

/// What is answered where memory was wanting after all was taken.
fn starve(taken: Result<Tail, Fault>) -> Result<Tail, Fault>
    ensures { result ≡ starved_answer taken }
{
    match taken {
        Ok(_) => Err(Fault::Memory),
        Err(fault) => Err(fault),
    }
}

/// What three stages come to: the first fault in the order of the trace, or how the trace ends.
fn answer(end: Option<Result<Tail, Fault>>, starved: bool, broken: bool) -> Result<Tail, Fault>
    requires { broken ≡ false → starved ≡ false → IsSome end }
    ensures { result ≡ answer_to end starved broken }
{
    if broken {
        return Err(Fault::Write);
    }
    if starved {
        return Err(Fault::Memory);
    }
    match end {
        Some(read) => read,
        None => unreachable!(),
    }
}

/// What the stages begin with. All memory for records is taken with it.
#[derive(Drop)]
struct Parts<P: Tabled, D: WindowState> {
    batches: Vec<Batch<P>>,
    rows: Vec<Row<P>>,
    gathering: Gathering,
    flows: Vec<BatchFlow<D>>,
    // Room for the flows, once all was run.
    left: Vec<Flow<D>>,
}

impl<P: Tabled, D: WindowState> Parts<P, D> {
    /// Those of these flows, of which other records were counted so far.
    fn new(
        alloc: Global,
        plan: &Plan,
        flows: Vec<Flow<D>>,
        other: u64,
    ) -> Result<Parts<P, D>, AllocError>
        requires { PlanFits plan.now }
        ensures batches { IfOk result (λ parts. parts.batches.items ≡ replicate BATCHES (no_items (length plan.now.table))) }
        ensures rows { IfOk result (λ parts. parts.rows.items ≡ replicate ROWS (map nothing_waits plan.now.table)) }
        ensures gathering { IfOk result (λ parts. parts.gathering
            ≡ record { sheaf = no_items (length plan.now.table); next = None; other = other }) }
        ensures flows { IfOk result (λ parts. parts.flows.items ≡ map unshelved flows.items) }
        ensures left { IfOk result (λ parts. parts.left.items ≡ []) }
    {
        Ok(Parts {
            batches: empty_batches(alloc, plan.table.count(), BATCHES)?,
            rows: empty_rows(alloc, &plan.table, ROWS)?,
            gathering: Gathering::new(alloc, plan, other)?,
            left: Vec::with_capacity(alloc, flows.len())?,
            flows: with_shelves(alloc, flows)?,
        })
    }
}

/// So many empty batches of so many flows.
fn empty_batches<P: Tabled>(
    alloc: Global,
    flows: usize,
    count: usize,
) -> Result<Vec<Batch<P>>, AllocError>
    requires some { 1 ≤ flows }
    requires limit { flows ≤ 64 }
    ensures { IfOk result (λ batches. batches.items ≡ replicate count (no_items flows)) }
{
    let mut batches = Vec::with_capacity(alloc, count)?;
    for _ in 0..count {
        batches.push(Batch {
            sheaf: Sheaf::new(alloc, flows)?,
            of: PhantomData,
        })?;
    }
    Ok(batches)
}

/// The flows, and nothing waits for their lanes.
fn with_shelves<D: WindowState>(
    alloc: Global,
    flows: Vec<Flow<D>>,
) -> Result<Vec<BatchFlow<D>>, AllocError>
    ensures { IfOk result (λ all. all.items ≡ map unshelved flows.items) }
{
    let mut all = Vec::with_capacity(alloc, flows.len())?;
    for flow in flows {
        all.push(BatchFlow::new(alloc, flow))?;
    }
    Ok(all)
}

/// Adds the flows alone to `left`.
fn flows_alone<D: WindowState>(
    flows: Vec<BatchFlow<D>>,
    mut left: Vec<Flow<D>>,
) -> Result<Vec<Flow<D>>, AllocError>
    ensures { IfOk result (λ all. all.items ≡ left.items ++ map (λ flow. flow.flow) flows.items) }
{
    for flow in flows {
        left.push(flow.into_flow())?;
    }
    Ok(left)
}
