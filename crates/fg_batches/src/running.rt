//! How the flows run the records of a batch, side by side.
ghost use Rattle.std.specs.Prelude.{◌≡◌, ◌<◌, ◌≤◌, ℕ, length, slice_index_or, OnOk};
ghost use Rattle.std.specs.Bool.{OnFalse};
ghost use Rattle.std.specs.List.{list_any};
ghost use Rattle.fg_flows.specs.Sheaf.{items_of};
ghost use Rattle.fg_batches.specs.BatchView.{BatchView};
ghost use Rattle.fg_batches.specs.Batches.{CanRun, CanRunAll, HasRun, HaveRun};

use crate::flows::BatchFlow;
use fg_engine::WindowState;
use fg_flows::Sheaf;
use std::alloc::{AllocError, Global};
use std::thread::{Threads, for_each_mut};

/// Has each flow run its records of a batch, in two threads where at least two flows have many in it, else in one. `depth` is that
/// of the flows' windows.
///
/// # Errors
///
/// A flow found no memory.
pub(crate) fn run_side_by_side<W: Threads + Sync, D: WindowState + Send>(
    rt: &W,
    alloc: Global,
    depth: u32,
    sheaf: &Sheaf,
    flows: &mut [BatchFlow<D>],
) -> Result<(), AllocError>
    requires { CanRunAll sheaf.now flows.old }
    ensures { OnOk result (HaveRun sheaf.now flows.old flows.new) }
{
    run_flows(rt, alloc, threads_for(sheaf, depth), sheaf, flows)
}

/// Has each flow run its records of a batch, in at most so many threads. What the flows' plays show waits for their lanes.
///
/// # Errors
///
/// A flow found no memory.
fn run_flows<R: Threads + Sync, D: WindowState + Send>(
    rt: &R,
    alloc: Global,
    threads: usize,
    sheaf: &Sheaf,
    flows: &mut [BatchFlow<D>],
) -> Result<(), AllocError>
    requires threads { 0 < threads }
    requires count { length flows.old ≡ length sheaf.now.items }
    requires can { (k : ℕ) (d : BatchView) → k < length flows.old
        → CanRun (slice_index_or flows.old k d).flow (length (items_of sheaf.now k)) }
    ensures { OnOk result ((k : ℕ) (d : BatchView) → k < length flows.old
        → HasRun (items_of sheaf.now k) (slice_index_or flows.old k d) (slice_index_or flows.new k d)) }
{
    for_each_mut(
        rt,
        flows,
        threads,
        &|index: usize, flow: &mut BatchFlow<D>|
            requires { (index < length sheaf.now.items) × CanRun flow.now.flow (length (items_of sheaf.now index)) }
            ensures { OnFalse flow.exit.now.starved
                (HasRun (items_of sheaf.entry.now index) flow.entry.now flow.exit.now) }
        { flow.run(alloc, sheaf, index) },
    );
    if is_any_starved(flows) {
        return Err(AllocError);
    }
    Ok(())
}

/// Whether a flow found no memory for the records that it ran last.
fn is_any_starved<D: WindowState>(flows: &[BatchFlow<D>]) -> bool
    ensures { result ≡ list_any (λ flow. flow.starved) flows.now }
{
    flows.iter().any(|flow| flow.is_starved())
}

/// In how many threads a batch is run: in two where at least two of so many flows have more records in it than the greatest depth of
/// a window lets wait, so that each plays in it, and else in one.
fn threads_for(sheaf: &Sheaf, depth: u32) -> usize
    ensures { (1 ≤ result) × (result ≤ 2) }
{
    let mut playing = 0_usize;
    for flow in 0..sheaf.flows() {
        if playing < 2 && sheaf.count(flow) > depth as usize {
            playing += 1;
        }
    }
    if playing < 2 { 1 } else { 2 }
}
