//! The boards of a repair and their tallies, and who works at them, before the first record.
ghost use Rattle.std.specs.Prelude.{◌≡◌, ◌≤◌, ◌+◌, ◌++◌, ◌∷◌, [], length, All, IfOk, OnOk};
ghost use Rattle.fg_shape.specs.Playout.{Playout};
ghost use Rattle.fg_flows.specs.Plan.{PlanFits};
ghost use Rattle.fg_workers.specs.Crewed.{HasSeats, HostAll, IsNewHost, HasNoPass, IsCrew};

use crate::held_places::PLACES;
use crate::post::{Crew, Host, Post, Remembered};
use crate::signal::Signal;
use fg_board::{Admitter, Board};
use fg_desk::Tray;
use fg_flows::Plan;
use fg_tally::Tallies;
use std::alloc::{AllocError, Global};

/// A board for each flow of the plan, and all who work at it, but for the tallies.
pub fn open(alloc: Global, plan: &Plan) -> Result<Crew, AllocError>
    requires { PlanFits plan.now }
    ensures { IfOk result (λ crew. IsCrew plan.now (length plan.now.table) crew) }
{
    let mut crew = open_none(alloc, plan)?;
    for _ in 0..plan.table.count() {
        open_next(alloc, plan, &mut crew)?;
    }
    Ok(crew)
}

/// The workers of the plan, before the first flow has its board.
fn open_none(alloc: Global, plan: &Plan) -> Result<Crew, AllocError>
    ensures { IfOk result (λ crew. IsCrew plan.now 0 crew) }
{
    let mut owns = Vec::with_capacity(alloc, plan.workers as usize)?;
    for _ in 0..plan.workers {
        owns.push(remember_none(alloc, plan.table.count())?)?;
    }
    Ok(Crew {
        posts: Vec::new(alloc),
        hosts: Vec::new(alloc),
        owns,
    })
}

/// What a worker remembers of flows that it hasn't visited.
fn remember_none(alloc: Global, flows: usize) -> Result<Vec<Remembered>, AllocError> {
    let mut own = Vec::with_capacity(alloc, flows)?;
    for _ in 0..flows {
        own.push(Remembered { idle_at: None })?;
    }
    Ok(own)
}

/// The board of one more flow, and who admits to it.
fn open_next(alloc: Global, plan: &Plan, crew: &mut Crew) -> Result<(), AllocError>
    requires fits { PlanFits plan.now }
    requires crew { IsCrew plan.now (length crew.old.posts.items) crew.old }
    ensures { OnOk result (IsCrew plan.now (length crew.old.posts.items + 1) crew.new) }
{
    let (board, admitter) = Board::new(alloc, plan.window, plan.depth, plan.hold, PLACES)?;
    add_host(alloc, plan.window, admitter, &mut crew.hosts)?;
    add_post(alloc, board, &mut crew.posts)
}

/// A host more, with a tray for a window.
fn add_host(
    alloc: Global,
    window: u32,
    admitter: Admitter,
    hosts: &mut Vec<Host>,
) -> Result<(), AllocError>
    requires { (1 ≤ window) × (window ≤ 100) }
    ensures { OnOk result ((host : Host) × (hosts.new.items ≡ hosts.old.items ++ host ∷ [])
        × (host.admitter ≡ admitter) × (host.tray.window ≡ window)) }
{
    let tray = Tray::new(alloc, window)?;
    hosts.push(Host { admitter, tray })?;
    Ok(())
}

/// A post more, of which nothing was told.
fn add_post(alloc: Global, board: Board, posts: &mut Vec<Post>) -> Result<(), AllocError>
    ensures { OnOk result ((post : Post) × (posts.new.items ≡ posts.old.items ++ post ∷ [])
        × (post.board ≡ board)) }
{
    let signal = Signal::new(alloc)?;
    posts.push(Post { board, signal })?;
    Ok(())
}

/// The tallies of each board. With them all memory is taken but that of settles.
pub fn open_tallies<'b>(
    alloc: Global,
    posts: &'b [Post],
    hosts: &mut [Host],
) -> Result<Vec<Tallies<'b>>, AllocError>
    requires hosts { HostAll posts.now hosts.old }
    requires seats { All HasSeats posts.now }
    requires no_passes { All HasNoPass hosts.old }
    ensures count { IfOk result (λ tallies. length tallies.items ≡ length posts.now) }
    ensures hosts { OnOk result (HostAll posts.now hosts.new) }
    ensures new { OnOk result ((playout : Playout) → All (IsNewHost playout) hosts.old → All (IsNewHost playout) hosts.new) }
{
    let mut tallies = Vec::with_capacity(alloc, posts.len())?;
    for i in 0..posts.len() {
        tallies.push(open_tallies_of(alloc, &posts[i], &mut hosts[i])?)?;
    }
    Ok(tallies)
}

/// The tallies of a flow's board, each with a pass. The host has admitted what it had before, which is nothing.
fn open_tallies_of<'b>(
    alloc: Global,
    post: &'b Post,
    host: &mut Host,
) -> Result<Tallies<'b>, AllocError>
    requires host { host.old.admitter.seat.turn ≡ post.now.board.name }
    requires seats { HasSeats post.now }
    requires no_pass { HasNoPass host.old }
    ensures turn { OnOk result (host.new.admitter.seat.turn ≡ host.old.admitter.seat.turn) }
    ensures new { OnOk result ((playout : Playout) → IsNewHost playout host.old → IsNewHost playout host.new) }
{
    Tallies::new(alloc, &post.board, &mut host.admitter)
}
