//! The repair that a plan asks for.
ghost use Rattle.fg_flows.specs.Plan.{PlanFits};
ghost use Rattle.fg_results.specs.Contract.{Repairs};
ghost use Rattle.fg_results.specs.Stops.{growth_of};

use crate::crewed::repair;
use fg_crew::Gate;
use fg_engine::repair_alone;
use fg_flows::Plan;
use fg_io::{Outlet, Sink, Source};
use fg_trace::Finish;
use std::alloc::Global;
use std::sync::Wait;
use std::thread::Threads;

/// Repairs the flows of a trace by as many workers as the plan has: by [`repair`], or by [`repair_alone`] where it has none.
pub fn repair_as_planned<
    W: Threads + Wait + Sync,
    S: Source + Send,
    K: Sink + Send,
    O: Outlet + Send,
    G: Gate,
>(rt: &W, alloc: Global, plan: &Plan, input: &mut S, out: &mut K, lanes: &mut O, gate: &G) -> Finish
    requires { PlanFits plan.now }
    ensures { Repairs (growth_of plan.now) plan.now result S.left S.faults S.fixed input.old input.new
        O.lanes O.faults lanes.old lanes.new K.written K.faults out.old out.new }
{
    if plan.workers == 0 {
        repair_alone(alloc, plan, input, out, lanes)
    } else {
        repair(rt, alloc, plan, input, out, lanes, gate)
    }
}
