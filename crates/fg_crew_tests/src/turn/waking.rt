// Seats that sleep are woken. No clause says so.
ghost use Rattle.std.specs.Prelude.{◌≡◌, ◌+◌, ◌<◌, ◌≤◌, false, length};
ghost use Rattle.std.specs.Arc.{arc_value};

use super::pair::{Pair, raise_b};
use fg_turn::{Owner, Seat, Turn};
use std::alloc::{AllocError, Global};
use std::marker::Brand;
use std::sync::atomic::AtomicU64;
use std::sync::atomic::Ordering::SeqCst;
use std::sync::{Arc, Wait};
use std::test::*;
use std::thread;
use std::thread::{JoinHandle, Threads};
use std::time::{Clock, Duration};

/// How many seats wait at once. The last two share the words of the first two.
const WAITERS: u32 = 18;

/// How many have begun to wait, and how many have had their turn.
#[derive(Drop)]
struct Counts {
    waiting: AtomicU64,
    done: AtomicU64,
}

/// What a thread owns that waits for one turn.
#[derive(Drop)]
struct Waiter {
    turn: Arc<Turn<Pair>>,
    counts: Arc<Counts>,
    seat: Seat<Pair>,
    ghost fits: { (seat.turn ≡ (arc_value turn).name) × (seat.inside ≡ false) },
}

fn one_turn(wait: &impl Wait, waiter: Waiter) {
    let Waiter {
        turn,
        counts,
        mut seat,
    } = waiter;
    counts.waiting.fetch_add(1, SeqCst);
    raise_b(wait, &turn, &mut seat);
    counts.done.fetch_add(1, SeqCst);
}

fn new_waiter(
    turn: &Arc<Turn<Pair>>,
    counts: &Arc<Counts>,
    owner: &mut Owner<Pair>,
) -> Result<Waiter, AllocError>
    requires turn { (owner.old.turn ≡ (arc_value turn.now).name) × (owner.old.inside ≡ false) }
    requires room { owner.old.made + 1 < (arc_value turn.now).seats }
    ensures turn { (owner.new.turn ≡ owner.old.turn) × (owner.new.inside ≡ false) }
    ensures calls { owner.new.calls ≡ owner.old.calls }
    ensures made { owner.new.made ≡ owner.old.made + 1 }
{
    let seat = turn.pass(owner);
    Ok(Waiter {
        turn: Arc::try_clone(turn)?,
        counts: Arc::try_clone(counts)?,
        seat,
    })
}

fn new_waiters(
    alloc: Global,
    turn: &Arc<Turn<Pair>>,
    counts: &Arc<Counts>,
    owner: &mut Owner<Pair>,
) -> Result<Vec<Waiter>, AllocError>
    requires turn { (owner.old.turn ≡ (arc_value turn.now).name) × (owner.old.inside ≡ false) }
    requires room { owner.old.made + 18 < (arc_value turn.now).seats }
    ensures turn { (owner.new.turn ≡ owner.old.turn) × (owner.new.inside ≡ false) }
    ensures calls { owner.new.calls ≡ owner.old.calls }
{
    let mut all = Vec::new(alloc);
    for _ in 0..WAITERS {
        all.push(new_waiter(turn, counts, owner)?)?;
    }
    Ok(all)
}

fn start<R: Threads + Wait + Copy + Send + 'static>(
    rt: R,
    alloc: Global,
    waiters: Vec<Waiter>,
) -> Result<Vec<JoinHandle<()>>, AllocError> {
    let mut threads = Vec::new(alloc);
    for waiter in waiters {
        threads.push(thread::spawn(&rt, move || one_turn(&rt, waiter))?)?;
    }
    Ok(threads)
}

// Waits until so many are counted, for ten seconds at most.
fn await_count(clock: &impl Clock, count: &AtomicU64) -> bool {
    for _ in 0..10_000u32 {
        if count.load(SeqCst) == u64::from(WAITERS) {
            return true;
        }
        thread::sleep(clock, Duration::from_millis(1));
    }
    false
}

// The owner stays inside until all wait, and long enough for them to sleep. Where they are not all woken, this answers
// false, and their threads are left alone, since a join would wait for them.
fn all_are_woken<R: Threads + Wait + Clock + Copy + Send + 'static>(
    rt: R,
    alloc: Global,
) -> Result<bool, AllocError> {
    let (turn, mut owner) = Turn::new::<Brand>(alloc, Pair { a: 0, b: 0 }, WAITERS + 1)?;
    let turn = Arc::new(alloc, turn)?;
    let counts = Counts {
        waiting: AtomicU64::new(0),
        done: AtomicU64::new(0),
    };
    let counts = Arc::new(alloc, counts)?;
    let waiters = new_waiters(alloc, &turn, &counts, &mut owner)?;
    let mut pair = turn.enter_owner(&rt, &mut owner);
    let threads = start(rt, alloc, waiters)?;
    await_count(&rt, &counts.waiting);
    thread::sleep(&rt, Duration::from_millis(200));
    pair.a += 1;
    turn.leave_owner::<Brand>(&mut owner, pair);
    if !await_count(&rt, &counts.done) {
        return Ok(false);
    }
    for thread in threads {
        thread.join(&rt);
    }
    Ok(true)
}

#[test]
fn sleepers_are_woken(rt: HostRuntime) -> Result<(), Fail> {
    let alloc: Global = rt.alloc();
    assert!(rt; all_are_woken(rt, alloc)?, "a seat sleeps on");
    Ok(())
}
