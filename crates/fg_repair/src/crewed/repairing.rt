//! What the workers help: the repair in batches.
ghost use Rattle.std.specs.Prelude.{◌≡◌, ◌<◌, ◌^◌, length, All, IfOk};
ghost use Rattle.fg_shape.specs.Playout.{Playout};
ghost use Rattle.fg_flows.specs.Plan.{PlanFits};
ghost use Rattle.fg_playout.specs.State.{opening};
ghost use Rattle.fg_results.specs.Contract.{Repairs};
ghost use Rattle.fg_results.specs.Stops.{ByBatch};
ghost use Rattle.fg_board.specs.Actors.{desk_of};
ghost use Rattle.fg_workers.specs.Crewed.{HostAll, IsNewHost, CanBegin};

use crate::crewed::board_window::BoardWindow;
use fg_batches::repair_in_batches;
use fg_crew::{Gate, Hints};
use fg_engine::give_up;
use fg_flows::Plan;
use fg_io::{Outlet, Sink, Source};
use fg_results::Ends;
use fg_trace::Finish;
use fg_workers::{Hears, Helping, Host, Places, Post, Progress};
use std::alloc::{AllocError, Global};
use std::mem;
use std::sync::Wait;
use std::thread::Threads;

/// Repairs the flows of a trace in this thread, over their boards. The hosts are those of the posts, and none is left of them.
pub(crate) fn over_boards<
    W: Threads + Wait + Sync,
    G: Gate,
    P: Places,
    S: Source + Send,
    K: Sink,
    O: Outlet + Send,
>(
    rt: &W,
    plan: &Plan,
    helping: &Helping<'_, G, P>,
    hints: &Hints,
    hosts: &mut Vec<Host>,
    ends: Ends<'_, S, K, O>,
) -> Finish
    requires fits { PlanFits plan.now }
    requires begins { CanBegin plan.now helping.now.posts.now hosts.old.items }
    ensures { Repairs ByBatch plan.now result
        S.left S.faults S.fixed ends.entry.input.now ends.exit.0.now
        O.lanes O.faults ends.entry.lanes.now ends.exit.1.1.0.now
        K.written K.faults ends.entry.out.now ends.exit.1.0.now }
{
    let alloc = helping.alloc;
    let hosts = mem::replace(hosts, Vec::new(alloc));
    match windows_on(rt, alloc, helping.gate, hints, helping.posts, hosts) {
        Ok(windows) => repair_in_batches(rt, alloc, plan, windows, ends),
        Err(AllocError) => {
            let Ends { input, out, lanes } = ends;
            give_up(plan, input, out, lanes)
        }
    }
}

/// The flows' windows on their boards.
fn windows_on<'a, W: Wait, G: Hears>(
    wait: &'a W,
    alloc: Global,
    gate: &'a G,
    hints: &'a Hints,
    posts: &'a [Post],
    hosts: Vec<Host>,
) -> Result<Vec<BoardWindow<'a, W, G>>, AllocError>
    requires hosts { HostAll posts.now hosts.items }
    requires new { (playout : Playout) × All (IsNewHost playout) hosts.items }
    requires few { length posts.now < 2 ^ 32 }
    ensures count { IfOk result (λ windows. length windows.items ≡ length hosts.items) }
    ensures new { IfOk result (λ windows. (playout : Playout) → All (IsNewHost playout) hosts.items
        → All (λ window. desk_of window.admitter ≡ opening playout) windows.items) }
{
    let mut windows = Vec::with_capacity(alloc, hosts.len())?;
    for host in hosts {
        let Host { admitter, tray } = host;
        let i = windows.len();
        let post = &posts[i];
        windows.push(BoardWindow {
            wait,
            gate,
            hints,
            signal: &post.signal,
            board: &post.board,
            flow: i as u32,
            progress: Progress::new(),
            admitter,
            tray,
        })?;
    }
    Ok(windows)
}
