//! The repair of a trace.
ghost use Rattle.fg_flows.specs.Plan.{PlanFits};
ghost use Rattle.fg_commands.specs.Answered.{RequestAnswered};
ghost use Rattle.fg_run.specs.Repairing.{repairing};

use fg_commands::Why;
use fg_crew::Gate;
use fg_drill::laws::drills::repairs_come_back;
use fg_flows::Plan;
use fg_io::{Outlet, Sink, Source};
use fg_repair::repair_as_planned;
use std::alloc::Global;
use std::sync::Wait;
use std::thread::Threads;

/// Repairs the flows of the trace in the input, and tells why that ended.
pub(crate) fn repair<
    W: Threads + Wait + Sync,
    S: Source + Send,
    K: Sink + Send,
    O: Outlet + Send,
    G: Gate,
>(rt: &W, alloc: Global, plan: &Plan, input: &mut S, out: &mut K, lanes: &mut O, gate: &G) -> Why
    requires { PlanFits plan.now }
    ensures { RequestAnswered (repairing plan.now) result S.left S.faults input.old input.new
        O.lanes O.faults lanes.old lanes.new K.written K.faults out.old out.new }
{
    repairs_come_back();
    let finish = repair_as_planned(rt, alloc, plan, input, out, lanes, gate);
    finish.into()
}
