//! Answering a request.
ghost use Rattle.std.specs.Prelude.{◌≡◌};
ghost use Rattle.fg_cli.specs.declared.WordFault.{WordFault as AnyWordFault};
ghost use Rattle.fg_cli.specs.Orders.{OrderFits};
ghost use Rattle.fg_commands.specs.Answered.{RequestAnswered};
ghost use Rattle.fg_run.specs.Behaviours.{behaviour_of};
ghost use Rattle.fg_run.specs.Request.{RequestFits};

use crate::drill::{Sending, run_drill};
use crate::repairing::repair;
use crate::request::Request;
use crate::sample::{Draw, sample};
use fg_cli::Order;
use fg_commands::{
    Why, answer_question, run_check, run_encode, run_fromcap, run_inspect, run_monitor, run_pick,
    run_plan, run_prove, run_survey, run_tocap,
};
use fg_crew::Gate;
use fg_io::{Outlet, Sink, Source};
use fg_results::Ends;
use std::alloc::Global;
use std::sync::Wait;
use std::thread::Threads;

/// Does what the request asks for, and tells why it ended.
pub fn answer<
    W: Threads + Wait + Sync,
    S: Source + Send,
    K: Sink + Send,
    O: Outlet + Send,
    G: Gate,
>(
    rt: &W,
    alloc: Global,
    request: Request,
    input: &mut S,
    out: &mut K,
    lanes: &mut O,
    gate: &G,
) -> Why
    requires { RequestFits request }
    ensures answered { RequestAnswered (behaviour_of request) result S.left S.faults input.old input.new
        O.lanes O.faults lanes.old lanes.new K.written K.faults out.old out.new }
    ensures words { (fault : AnyWordFault) → result ≡ Why.Words fault → request ≡ Request.Refused fault }
{
    match request {
        Request::Asked(question) => answer_question(alloc, question, out),
        Request::Refused(fault) => Why::Words(fault),
        Request::Ordered(order) => answer_order(rt, alloc, order, input, out, lanes, gate),
    }
}

/// Does what is ordered, and tells why it ended.
fn answer_order<
    W: Threads + Wait + Sync,
    S: Source + Send,
    K: Sink + Send,
    O: Outlet + Send,
    G: Gate,
>(rt: &W, alloc: Global, order: Order, input: &mut S, out: &mut K, lanes: &mut O, gate: &G) -> Why
    requires { OrderFits order }
    ensures answered { RequestAnswered (behaviour_of (Request.Ordered order)) result S.left S.faults input.old input.new
        O.lanes O.faults lanes.old lanes.new K.written K.faults out.old out.new }
    ensures words { (fault : AnyWordFault) → result ≡ Why.Words fault → ⊥ }
{
    match order {
        Order::Repair(plan) => repair(rt, alloc, &plan, input, out, lanes, gate),
        Order::Drill {
            settings,
            plan,
            losses,
            max,
        } => {
            let sending = Sending {
                settings,
                losses,
                max,
            };
            let ends = Ends { input, out, lanes };
            run_drill(rt, alloc, &plan, sending, ends, gate)
        }
        Order::Sample {
            seed,
            datagrams,
            loss,
            plan,
        } => {
            let draw = Draw {
                seed,
                datagrams,
                loss,
            };
            sample(rt, alloc, draw, &plan, out, lanes, gate).into()
        }
        order => answer_without_lanes(alloc, &order, input, out, lanes),
    }
}

/// Does what is ordered where that makes no lane, and tells why it ended.
fn answer_without_lanes<S: Source, K: Sink, O: Outlet>(
    alloc: Global,
    order: &Order,
    input: &mut S,
    out: &mut K,
    lanes: &O,
) -> Why
    requires fits { OrderFits order.now }
    requires no_lane { (behaviour_of (Request.Ordered order.now)).makes_no_lane }
    ensures answered { RequestAnswered (behaviour_of (Request.Ordered order.now)) result S.left S.faults input.old input.new
        O.lanes O.faults lanes.now lanes.now K.written K.faults out.old out.new }
    ensures words { (fault : AnyWordFault) → result ≡ Why.Words fault → ⊥ }
{
    match order {
        Order::Encode { settings, max } => run_encode(alloc, settings, *max, input, out).why,
        Order::Inspect { table, max } => run_inspect(alloc, table, *max, input, out).why,
        Order::FromCapture { max } => run_fromcap(alloc, *max, input, out).why,
        Order::ToCapture { max } => run_tocap(alloc, *max, input, out).why,
        Order::Monitor { max } => run_monitor(alloc, *max, input, out).why,
        Order::Prove(plan) => run_prove(alloc, plan, input, out).why,
        Order::Check { max } => run_check(alloc, *max, input, out).why,
        Order::ChooseMatrix { burst, most, rows } => {
            run_plan(alloc, *burst, *most, *rows, out).why
        }
        Order::Survey { max, json } => run_survey(alloc, *max, *json, input, out).why,
        Order::Pick { selection, max } => run_pick(alloc, selection, *max, input, out).why,
        Order::Repair(_) | Order::Drill { .. } | Order::Sample { .. } => unreachable!(),
    }
}
