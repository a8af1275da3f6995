//! Running a body beside workers.
ghost use Rattle.std.specs.Prelude.{◌≡◌, ◌+◌, ◌-◌, ◌<◌, ◌≤◌, ◌^◌, All, IfOk, OnErr};

use crate::chore::{Body, Chore};
use crate::gate::Gate;
use crate::hints::Hints;
use crate::pace::Pace;
use std::alloc::{AllocError, Global};
use std::sync::Wait;
use std::thread::{Threads, available_parallelism, for_each_mut, join_mut};

/// The gate point that a worker passes as it starts.
const STARTED: u32 = 0;

/// How many hints wait where all workers are needed.
const BACKLOG: usize = 8;

/// Runs the body once beside one worker for each of `owns`, has the workers stop, and answers what the body answered. The only
/// error is want of memory, before anything is run.
///
/// See [`run_beside`], which takes the body as a closure and hints that are there already.
pub fn crew<W: Threads + Wait + Sync, C: Chore, G: Gate, B: Body>(
    rt: &W,
    alloc: Global,
    owns: &mut [C::Own],
    chore: &C,
    gate: &G,
    body: &mut B,
) -> Result<B::Answer, AllocError>
    requires fit { All (C.fits chore.now) owns.old }
    requires ready { B.ready body.old }
    ensures ran { IfOk result (λ answer. B.ran body.old answer body.new) }
    ensures fit { All (C.fits chore.now) owns.new }
    ensures refused { OnErr result ((body.new ≡ body.old) × (owns.new ≡ owns.old)) }
{
    let hints = Hints::new(alloc)?;
    let answer = run_beside(
        rt,
        &hints,
        owns,
        chore,
        gate,
        &mut || -> B::Answer
            requires { B.ready body.now }
            ensures { B.ran body.entry.now result body.exit.now }
        { body.run(rt, &hints) },
    );
    Ok(answer)
}

/// Calls the body once beside one worker for each of `owns`, has the workers stop, and answers what the body answered.
///
/// Workers have the numbers from 1 on. Each passes point 0 of the gate as it starts, takes hints from `hints`, which no crew had
/// before, and does the chore for each. Those that are more than the processors can run beside the body help only while hints
/// pile up. Where no thread can be made for the workers, the body runs first, and they then find that they are to stop.
pub fn run_beside<W: Threads + Wait + Sync, C: Chore, G: Gate, A: Send, F: FnMut() -> A + Send>(
    rt: &W,
    hints: &Hints,
    owns: &mut [C::Own],
    chore: &C,
    gate: &G,
    body: &mut F,
) -> A
    requires fit { All (C.fits chore.now) owns.old }
    requires ready { F.pre body.old }
    ensures ran { F.step body.old result body.new }
    ensures fit { All (C.fits chore.now) owns.new }
{
    let ((), answer) = join_mut(
        rt,
        &mut ||
            requires { All (C.fits chore.now) owns.now }
            ensures { All (C.fits chore.entry.now) owns.exit.now }
        { help_all(rt, owns, chore, gate, hints) },
        &mut || -> A
            requires { F.pre body.now }
            ensures { F.step body.entry.now result body.exit.now }
        { run_body(body, hints) },
    );
    answer
}

/// Calls the body, and then has the workers stop.
fn run_body<A, F: FnMut() -> A>(body: &mut F, hints: &Hints) -> A
    requires { F.pre body.old }
    ensures { F.step body.old result body.new }
{
    let answer = body();
    hints.stop();
    answer
}

/// Each worker helps until it is to stop.
fn help_all<W: Threads + Wait + Sync, C: Chore, G: Gate>(
    rt: &W,
    owns: &mut [C::Own],
    chore: &C,
    gate: &G,
    hints: &Hints,
)
    requires { All (C.fits chore.now) owns.old }
    ensures { All (C.fits chore.now) owns.new }
{
    let threads = owns.len().max(1);
    let needed = most_needed(rt);
    for_each_mut(
        rt,
        owns,
        threads,
        &|i: usize, own: &mut C::Own|
            requires { C.fits chore.now own.now }
            ensures { C.fits chore.entry.now own.exit.now }
        { help(rt, own, chore, gate, worker_number(i), needed, hints) },
    );
}

/// How many workers are needed at most, where no hints pile up: one for each processor but the body's, and two where that
/// can't be told.
fn most_needed(rt: &impl Threads) -> u32
    ensures { 2 ≤ result }
{
    match available_parallelism(rt) {
        Ok(processors) => processors.get().clamp(3, u32::MAX as usize) as u32 - 1,
        Err(_) => 2,
    }
}

/// The number of the worker of this index, from 1 on.
fn worker_number(index: usize) -> u32
    ensures { index < 2 ^ 32 - 1 → result ≡ index + 1 }
{
    (index.min(u32::MAX as usize - 1) + 1) as u32
}

/// Does the chore for each hint, until the workers are to stop.
fn help<W: Wait, C: Chore, G: Gate>(
    wait: &W,
    own: &mut C::Own,
    chore: &C,
    gate: &G,
    worker: u32,
    needed: u32,
    hints: &Hints,
)
    requires { C.fits chore.now own.old }
    ensures { C.fits chore.now own.new }
{
    gate.at(worker, STARTED);
    let mut pace = Pace::new();
    for _ in wait.forever() {
        if hints.is_stopped() {
            return;
        }
        let long = if worker <= needed || hints.count(wait) >= BACKLOG {
            do_round(wait, own, chore, worker, hints);
            pace.next(hints.found())
        } else {
            Pace::longest()
        };
        hints.rest(wait, long);
    }
    unreachable!()
}

/// Does the chore for as many hints as wait now.
fn do_round<W: Wait, C: Chore>(wait: &W, own: &mut C::Own, chore: &C, worker: u32, hints: &Hints)
    requires { C.fits chore.now own.old }
    ensures { C.fits chore.now own.new }
{
    for _ in 0..hints.count(wait) {
        let Some(hint) = hints.take(wait) else {
            return;
        };
        chore.work(wait, own, hint, worker, hints);
    }
}
