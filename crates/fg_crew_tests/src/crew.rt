//! A crew by example.

use fg_crew::{Body, Chore, Gate, Hints, NoGate, crew};
use std::alloc::{AllocError, Global};
use std::sync::Wait;
use std::sync::atomic::{AtomicU64, Ordering};
use std::thread::Threads;
use std::time::Duration;

/// How often the body looks whether the workers are done, a millisecond apart.
const LOOKS: u32 = 20_000;

/// Adds up the hints.
#[derive(Drop)]
struct Adding<'a> {
    sum: &'a AtomicU64,
}

impl<'a> Chore for Adding<'a> {
    type Own = u64;

    ghost fits = { λ _ _. Unit {0} };

    fn work<W: Wait>(&self, _wait: &W, own: &mut u64, hint: u32, _worker: u32, hints: &Hints) {
        *own = u64::from(hint);
        self.sum.fetch_add(u64::from(hint), Ordering::SeqCst);
        hints.tell_found();
    }
}

/// Hints 1 to 10, and waits until they are added up.
#[derive(Drop)]
struct Hinting<'a> {
    sum: &'a AtomicU64,
    clock: &'a AtomicU64,
}

impl<'a> Body for Hinting<'a> {
    type Answer = u64;

    ghost ready = { λ _. Unit {0} };

    ghost ran = { λ _ _ _. Unit {0} };

    fn run<W: Threads + Wait + Sync>(&mut self, rt: &W, hints: &Hints) -> u64 {
        for hint in 1..11 {
            hints.hint(rt, hint);
        }
        for _ in 0..LOOKS {
            if self.sum.load(Ordering::SeqCst) == 55 {
                break;
            }
            self.clock.park_timeout(rt, 0, Duration::from_millis(1));
        }
        self.sum.load(Ordering::SeqCst)
    }
}

/// Counts the workers that start.
#[derive(Drop)]
struct Counting<'a> {
    started: &'a AtomicU64,
}

impl<'a> Gate for Counting<'a> {
    fn at(&self, worker: u32, point: u32) {
        if point == 0 {
            self.started.fetch_add(u64::from(worker), Ordering::SeqCst);
        }
    }
}

/// What a crew's body that hints answers, beside a worker for each of these. So much is added up before.
fn hinted<R: Threads + Wait + Sync, G: Gate>(
    rt: &R,
    alloc: Global,
    before: u64,
    owns: &mut [u64],
    gate: &G,
) -> Result<u64, AllocError> {
    let sum = AtomicU64::new(before);
    let clock = AtomicU64::new(0);
    let mut body = Hinting {
        sum: &sum,
        clock: &clock,
    };
    crew(rt, alloc, owns, &Adding { sum: &sum }, gate, &mut body)
}

#[test]
fn workers_take_the_hints(rt: HostRuntime) {
    let started = AtomicU64::new(0);
    let gate = Counting { started: &started };
    let answer = hinted(&rt, rt.alloc(), 0, &mut [0; 3], &gate);
    assert!(rt; answer == Ok(55));
    assert_eq!(rt; started.load(Ordering::SeqCst), 6);
}

#[test]
fn a_body_runs_alone(rt: HostRuntime) {
    let answer = hinted(&rt, rt.alloc(), 55, &mut [], &NoGate);
    assert!(rt; answer == Ok(55));
}
