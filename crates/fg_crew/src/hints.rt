//! Hints to workers, and how workers rest.
ghost use Rattle.std.specs.Prelude.{◌<◌, ◌^◌};

use crossbeam_queue::ArrayQueue;
use std::alloc::{AllocError, Global};
use std::sync::Wait;
use std::sync::atomic::{AtomicU64, Ordering};
use std::time::Duration;

/// How many hints can wait. A hint that finds no room is lost, which changes no result.
pub const HINTS_LIMIT: usize = 1_024;

/// Where workers are to look. A hint is a number, and what it says is between the body and the chore.
#[derive(Drop)]
pub struct Hints {
    queue: ArrayQueue<u32>,
    /// How many words the workers have found.
    found: AtomicU64,
    /// 0, and 1 once the workers are to stop, which ends their rests.
    stopped: AtomicU64,
}

impl Hints {
    /// No hint. All memory is taken here.
    pub fn new(alloc: Global) -> Result<Hints, AllocError> {
        Ok(Hints {
            queue: ArrayQueue::new(alloc, HINTS_LIMIT)?,
            found: AtomicU64::new(0),
            stopped: AtomicU64::new(0),
        })
    }

    /// Adds a hint, or drops it where there is no room. It wakes nobody.
    pub fn hint<W: Wait>(&self, wait: &W, flow: u32) {
        let _ = self.queue.push(wait, flow);
    }

    /// Tells that a word was found: rests are short again.
    pub fn tell_found(&self) {
        self.found.fetch_add(1, Ordering::SeqCst);
    }

    /// How many words the workers have told, modulo 2^64.
    pub fn found(&self) -> u64 {
        self.found.load(Ordering::SeqCst)
    }

    /// How many hints wait.
    pub(crate) fn count<W: Wait>(&self, wait: &W) -> usize {
        self.queue.len(wait)
    }

    /// The next hint.
    pub(crate) fn take<W: Wait>(&self, wait: &W) -> Option<u32> {
        self.queue.pop(wait)
    }

    /// Has the workers stop, and ends their rests.
    pub(crate) fn stop(&self) {
        self.stopped.store(1, Ordering::SeqCst);
        self.stopped.wake_all();
    }

    /// Whether the workers are to stop.
    pub(crate) fn is_stopped(&self) -> bool {
        self.stopped.load(Ordering::SeqCst) > 0
    }

    /// Rests so long, or until the workers are to stop.
    pub(crate) fn rest<W: Wait>(&self, wait: &W, long: Duration) {
        self.stopped.park_timeout(wait, 0, long);
    }
}
