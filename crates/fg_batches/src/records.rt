//! The repair of a trace in batches, over the windows of its flows.
ghost use Rattle.std.specs.Prelude.{◌≡◌, length, All};
ghost use Rattle.fg_flows.specs.Plan.{PlanFits, playout_of};
ghost use Rattle.fg_playout.specs.State.{opening};
ghost use Rattle.fg_results.specs.Contract.{Repairs};
ghost use Rattle.fg_results.specs.Stops.{ByBatch};

use crate::walking::take_in_batches;
use fg_engine::{Begun, WindowState, begin, end};
use fg_flows::Plan;
use fg_io::{Outlet, Sink, Source};
use fg_results::Ends;
use fg_trace::Finish;
use std::alloc::Global;
use std::marker::Brand;
use std::sync::Wait;
use std::thread::Threads;

/// Repairs the flows of a trace over these windows, which are those of the plan's flows in their order, and empty. Their
/// records are taken batch by batch: one thread reads batches, the caller's has the flows run them, and another puts what they show.
pub fn repair_in_batches<
    W: Threads + Wait + Sync,
    D: WindowState + Send,
    S: Source + Send,
    K: Sink,
    O: Outlet + Send,
>(rt: &W, alloc: Global, plan: &Plan, windows: Vec<D>, ends: Ends<'_, S, K, O>) -> Finish
    requires fits { PlanFits plan.now }
    requires count { length windows.items ≡ length plan.now.table }
    requires empty { All (λ window. D.state window ≡ opening (playout_of plan.now)) windows.items }
    ensures { Repairs ByBatch plan.now result
        S.left S.faults S.fixed ends.entry.input.now ends.exit.0.now
        O.lanes O.faults ends.entry.lanes.now ends.exit.1.1.0.now
        K.written K.faults ends.entry.out.now ends.exit.1.0.now }
{
    let Ends { input, out, lanes } = ends;
    match begin(alloc, plan, windows, input, out, lanes) {
        Ok(begun) => {
            let Begun {
                mut engine,
                reader,
                sums,
            } = begun;
            let (reader, taken) = take_in_batches::<W, Brand, D, S, O>(
                rt,
                alloc,
                plan,
                &mut engine,
                reader,
                input,
                lanes,
            );
            let begun = Begun {
                engine,
                reader,
                sums,
            };
            end(alloc, plan, begun, taken, out, lanes)
        }
        Err(finish) => finish,
    }
}
