//! The repair of a sample.
ghost use Rattle.std.specs.Prelude.{◌≡◌, ◌≢◌, ◌⊎◌, ◌≤◌, ◌^◌, ◌++◌, ℕ, List, ◌∷◌, [], Ok, IfOk, OnOk, codes};
ghost use Rattle.std.specs.Fmt.{decimal};
ghost use Rattle.fg_io.specs.Faults.{CountsFaults};
ghost use Rattle.fg_flows.specs.Plan.{PlanFits};
ghost use Rattle.fg_shape.specs.Losses.{MayLose};
ghost use Rattle.fg_trace.specs.Finish.{IsFault};
ghost use Rattle.fg_trace.specs.Trace.{IsTrace, Ended};
ghost use Rattle.fg_results.specs.Repair.{Finishes, OutputsPart};
ghost use Rattle.fg_drill.specs.Drill.{StopsLanes};
ghost use Rattle.fg_drill.specs.DrillSteps.{StopsTrace};
ghost use Rattle.fg_drill.specs.Sample.{SampleComesBack, Samples, SamplesPart, losses_made, sample_line, sample_sent};
ghost use Rattle.fg_thin.specs.ThinnedSource.{trace_left};

use fg_crew::Gate;
use fg_drill::laws::drills::{samples_are_traces, samples_come_back};
use fg_flows::Plan;
use fg_io::laws::{parts_of_writes, writes_join};
use fg_io::{Outlet, Sink, write_all};
use fg_repair::repair_as_planned;
use fg_thin::{Made, Thinned, drawn, sample_settings};
use fg_trace::Finish;
use fg_trace::laws::one_trace;
use itoa::Buffer;
use std::alloc::{AllocError, Global};
use std::sync::Wait;
use std::thread::Threads;

/// More bytes than a made stream has.
const STREAM_LIMIT: u64 = 1_099_511_627_776;

/// What a sample is drawn by.
#[derive(Clone, Copy)]
pub(crate) struct Draw {
    /// What its stream and its losses follow from.
    pub(crate) seed: u64,
    /// How many datagrams it has, 1 to 20,000.
    pub(crate) datagrams: u32,
    /// How many percent of its records are lost, about, 0 to 20.
    pub(crate) loss: u32,
}

/// Makes a stream, leaves out some of its records, and has the rest repaired.
///
/// `out` gains a line of these numbers, and then the report. After a fault the lanes and `out` have gained prefixes: no lane is
/// touched before the line is whole, and the report is begun only once all lanes are. No read fails.
pub(crate) fn sample<W: Threads + Wait + Sync, K: Sink + Send, O: Outlet + Send, G: Gate>(
    rt: &W,
    alloc: Global,
    draw: Draw,
    plan: &Plan,
    out: &mut K,
    lanes: &mut O,
    gate: &G,
) -> Finish
    requires datagrams { (1 ≤ draw.datagrams) × (draw.datagrams ≤ 20000) }
    requires loss { draw.loss ≤ 20 }
    requires plan { PlanFits plan.now }
    requires flow { plan.now.table ≡ 5000 ∷ [] }
    requires inner { plan.now.max ≡ 2 ^ 42 }

    // Every answer but a fault's or want of memory's is that all was done, and then the outputs are whole; else they are parts,
    // and the line comes before any lane.
    ensures whole { IsFault result ⊎ ((result ≡ Finish.Done) × Samples draw.seed draw.datagrams draw.loss plan.now
        (O.lanes lanes.old) (O.lanes lanes.new) (K.written out.old) (K.written out.new)) }
    ensures part { IsFault result → SamplesPart draw.seed draw.datagrams draw.loss plan.now
        (O.lanes lanes.old) (O.lanes lanes.new) (K.written out.old) (K.written out.new) }

    // After a fault the lanes stand at a stage of the repair.
    ensures stops { IsFault result → StopsLanes plan.now (Ok result) (sample_sent draw.seed draw.datagrams draw.loss)
        (O.lanes lanes.old) (O.lanes lanes.new) }

    // With no fault the made stream comes back.
    ensures comes_back { IsFault result
        ⊎ SampleComesBack draw.seed draw.datagrams draw.loss plan.now (O.lanes lanes.old) (O.lanes lanes.new) }
    ensures no_read { result ≢ Finish.ReadFault }
    ensures faults { CountsFaults (result ≡ Finish.ReadFault) (result ≡ Finish.WriteFault) []
        ((K.faults out.old, K.faults out.new) ∷ (O.faults lanes.old, O.faults lanes.new) ∷ []) }
{
    // A sample is the drill of a made stream. Its report is written after the line.
    samples_come_back();
    one_trace();
    parts_of_writes();
    writes_join();
    let Ok(made) = make(alloc, draw) else {
        return Finish::Memory;
    };
    let MadeSample { line, mut source } = made;
    match write_all(out, &line) {
        Ok(()) => repair_made(rt, alloc, plan, &mut source, out, lanes, gate),
        Err(_) => Finish::WriteFault,
    }
}

/// A sample before its repair.
#[derive(Drop)]
struct MadeSample {
    /// The line that tells its numbers.
    line: Vec<u8>,
    /// Gives the trace of what is sent of its stream.
    source: Thinned<Made>,
}

/// Makes the line of a sample, and the source of what is sent of its stream.
fn make(alloc: Global, draw: Draw) -> Result<MadeSample, AllocError>
    requires datagrams { (1 ≤ draw.datagrams) × (draw.datagrams ≤ 20000) }
    requires loss { draw.loss ≤ 20 }
    ensures line { IfOk result (λ made. made.line.items ≡ sample_line draw.seed draw.datagrams draw.loss) }
    ensures sends { IfOk result (λ made. (bytes : List ℕ) × (trace_left made.source ≡ Some bytes)
        × IsTrace bytes (2 ^ 42) (sample_sent draw.seed draw.datagrams draw.loss) Ended) }
    ensures may_lose { IfOk result (λ made. MayLose (losses_made draw.seed draw.datagrams draw.loss)) }
{
    samples_are_traces();
    let Draw {
        seed,
        datagrams,
        loss,
    } = draw;
    let (records, losses) = drawn(alloc, seed, datagrams, loss)?;
    let lost = losses.drops.count() as u64;
    let line = line_of(alloc, seed, datagrams, records, lost)?;
    let made = Made::new(seed, datagrams);
    let source = Thinned::new(alloc, sample_settings(), losses, STREAM_LIMIT, made)?;
    Ok(MadeSample { line, source })
}

/// Has what is sent of a made stream repaired, whose reads don't fail.
fn repair_made<W: Threads + Wait + Sync, K: Sink + Send, O: Outlet + Send, G: Gate>(
    rt: &W,
    alloc: Global,
    plan: &Plan,
    source: &mut Thinned<Made>,
    out: &mut K,
    lanes: &mut O,
    gate: &G,
) -> Finish
    requires { PlanFits plan.now }
    ensures whole { IsFault result ⊎ Finishes plan.now result (trace_left source.old)
        (O.lanes lanes.old) (O.lanes lanes.new) (K.written out.old) (K.written out.new) }
    ensures part { IsFault result → OutputsPart plan.now (trace_left source.old)
        (O.lanes lanes.old) (O.lanes lanes.new) K.written out.old out.new }
    ensures stops { IsFault result → StopsTrace plan.now (trace_left source.old) (Ok result)
        (O.lanes lanes.old) (O.lanes lanes.new) }
    ensures no_read { result ≢ Finish.ReadFault }
    ensures faults { CountsFaults (result ≡ Finish.ReadFault) (result ≡ Finish.WriteFault) []
        ((K.faults out.old, K.faults out.new) ∷ (O.faults lanes.old, O.faults lanes.new) ∷ []) }
{
    repair_as_planned(rt, alloc, plan, source, out, lanes, gate)
}

/// The line that tells these numbers.
fn line_of(
    alloc: Global,
    seed: u64,
    datagrams: u32,
    records: u64,
    lost: u64,
) -> Result<Vec<u8>, AllocError>
    ensures { IfOk result (λ line. line.items
        ≡ codes "sample seed " ++ decimal seed ++ codes " datagrams " ++ decimal datagrams ++ codes " records "
        ++ decimal records ++ codes " lost " ++ decimal lost ++ codes "\n") }
{
    let mut line = Vec::from_slice(alloc, b"sample seed ")?;
    push_number(&mut line, seed)?;
    line.extend_from_slice(b" datagrams ")?;
    push_number(&mut line, u64::from(datagrams))?;
    line.extend_from_slice(b" records ")?;
    push_number(&mut line, records)?;
    line.extend_from_slice(b" lost ")?;
    push_number(&mut line, lost)?;
    line.push(b'\n')?;
    Ok(line)
}

/// Pushes a number.
fn push_number(line: &mut Vec<u8>, number: u64) -> Result<(), AllocError>
    ensures { OnOk result (line.new.items ≡ line.old.items ++ decimal number) }
{
    let mut digits = Buffer::new();
    line.extend_from_slice(digits.format(number).as_bytes())?;
    Ok(())
}
