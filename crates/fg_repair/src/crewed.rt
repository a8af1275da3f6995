//! The repair with workers beside the caller.
//!
//! Each flow's desk stands on a board. One thread reads batches of records ahead. The caller's thread takes batch after batch, in which
//! its flows admit the datagrams and play the windows, and a third thread puts what they show to the lanes. The workers start
//! tallies for the equations that are held, fold into them meanwhile what has arrived, and bring the word of the one slot that is
//! missing. Whatever they do, the replies and the plays are those of desks that each flow has to itself.
ghost use Rattle.std.specs.Prelude.{length};
ghost use Rattle.std.specs.Thread.{IsSync};
ghost use Rattle.fg_flows.specs.Plan.{PlanFits};
ghost use Rattle.fg_results.specs.Contract.{Repairs};
ghost use Rattle.fg_results.specs.Stops.{ByBatch};
ghost use Rattle.fg_workers.specs.Crewed.{CanBegin, IsCrew};

mod board_window;
mod repairing;

use crate::crewed::repairing::over_boards;
use fg_crew::{Gate, Hints, run_beside};
use fg_engine::give_up;
use fg_flows::Plan;
use fg_io::{Outlet, Sink, Source};
use fg_results::Ends;
use fg_trace::Finish;
use fg_workers::{Crew, FlowTallies, Helping, Host, Places, Remembered, open, open_tallies};
use std::alloc::{AllocError, Global};
use std::sync::Wait;
use std::thread::Threads;

/// Repairs the flows of a trace, with workers beside the caller.
///
/// What it reads, writes and answers is what [`crate::repair_alone`] does, whatever the workers do. But lanes grow batch by
/// batch: after a put that failed those of the first flows may have what the batch shows, and those of the others not yet.
/// The source is read, and the lanes are put to, in two threads more, where these can be made.
///
/// The gate hears of the points that the threads pass: 1 where at most one slot of a held equation isn't folded and the worker
/// hasn't settled it yet, with no lock, 3 where a board has taken a word, 4 where a settle found no memory, and 5 before each play,
/// each flush step and each held step, which the thread that runs the flow passes as worker 0.
pub fn repair<
    W: Threads + Wait + Sync,
    S: Source + Send,
    K: Sink + Send,
    O: Outlet + Send,
    G: Gate,
>(rt: &W, alloc: Global, plan: &Plan, input: &mut S, out: &mut K, lanes: &mut O, gate: &G) -> Finish
    requires { PlanFits plan.now }
    ensures { Repairs ByBatch plan.now result S.left S.faults S.fixed input.old input.new
        O.lanes O.faults lanes.old lanes.new K.written K.faults out.old out.new }
{
    let Ok(hints) = Hints::new(alloc) else {
        return give_up(plan, input, out, lanes);
    };
    match open(alloc, plan) {
        Ok(made) => {
            let ends = Ends { input, out, lanes };
            with_tallies(rt, alloc, plan, made, &hints, ends, gate)
        }
        Err(AllocError) => give_up(plan, input, out, lanes),
    }
}

/// Repairs the flows of a trace with all who work at them, once their boards have tallies.
fn with_tallies<
    W: Threads + Wait + Sync,
    S: Source + Send,
    K: Sink + Send,
    O: Outlet + Send,
    G: Gate,
>(
    rt: &W,
    alloc: Global,
    plan: &Plan,
    made: Crew,
    hints: &Hints,
    ends: Ends<'_, S, K, O>,
    gate: &G,
) -> Finish
    requires fits { PlanFits plan.now }
    requires made { IsCrew plan.now (length plan.now.table) made }
    ensures { Repairs ByBatch plan.now result
        S.left S.faults S.fixed ends.entry.input.now ends.exit.0.now
        O.lanes O.faults ends.entry.lanes.now ends.exit.1.1.0.now
        K.written K.faults ends.entry.out.now ends.exit.1.0.now }
{
    let Crew {
        posts,
        mut hosts,
        mut owns,
    } = made;
    let posts = posts.as_slice();
    match open_tallies(alloc, posts, &mut hosts) {
        Ok(flows) => {
            let places = FlowTallies { flows };
            let helping = Helping {
                posts,
                places: &places,
                gate,
                alloc,
            };
            beside_workers(rt, plan, &helping, hints, &mut hosts, &mut owns, ends)
        }
        Err(AllocError) => {
            let Ends { input, out, lanes } = ends;
            give_up(plan, input, out, lanes)
        }
    }
}

/// Repairs the flows of a trace in the caller's thread, beside one worker for each of `owns`. None is left of the hosts, which are
/// those of the posts.
fn beside_workers<
    W: Threads + Wait + Sync,
    P: Places + Sync,
    S: Source + Send,
    K: Sink + Send,
    O: Outlet + Send,
    G: Gate,
>(
    rt: &W,
    plan: &Plan,
    helping: &Helping<'_, G, P>,
    hints: &Hints,
    hosts: &mut Vec<Host>,
    owns: &mut [Vec<Remembered>],
    ends: Ends<'_, S, K, O>,
) -> Finish
    requires fits { PlanFits plan.now }
    requires begins { CanBegin plan.now helping.now.posts.now hosts.old.items }
    ensures { Repairs ByBatch plan.now result
        S.left S.faults S.fixed ends.entry.input.now ends.exit.0.now
        O.lanes O.faults ends.entry.lanes.now ends.exit.1.1.0.now
        K.written K.faults ends.entry.out.now ends.exit.1.0.now }
{
    let Ends { input, out, lanes } = ends;
    run_beside(
        rt,
        hints,
        owns,
        helping,
        helping.gate,
        &mut || -> Finish
            requires fits { PlanFits plan.now }
            requires begins { CanBegin plan.now helping.now.posts.now hosts.now.items }
            requires shared { IsSync W.row }
            requires gated { IsSync G.row }
            ensures { Repairs ByBatch plan.entry.now result S.left S.faults S.fixed input.entry.now input.exit.now
                O.lanes O.faults lanes.entry.now lanes.exit.now K.written K.faults out.entry.now out.exit.now }
        {
            let ends = Ends { input, out, lanes };
            over_boards(rt, plan, helping, hints, hosts, ends)
        },
    )
}
