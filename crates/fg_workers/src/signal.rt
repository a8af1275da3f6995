//! What the caller and the workers tell each other of a flow.

use crate::arrivals::{Arrivals, Progress};
use crate::held_places::HeldPlaces;
use fg_crew::Hints;
use std::alloc::{AllocError, Global};
use std::sync::Wait;
use std::sync::atomic::{AtomicBool, AtomicU64, Ordering};

/// How many admitted datagrams are told together. To tell takes two atomic steps that lock a word of memory.
const TOLD_TOGETHER: u32 = 16;

/// What is told of a flow beside its board and its tallies. It only saves visits and looks: nothing rests on it.
#[derive(Drop)]
pub struct Signal {
    /// A hint for the flow waits, so a further one would tell nothing new.
    hinted: AtomicBool,
    /// How often something changed, modulo 2^64: datagrams were admitted or a word was found.
    changes: AtomicU64,
    pub held: HeldPlaces,
    pub arrivals: Arrivals,
}

impl Signal {
    /// Of a flow of which nothing was told. All memory is taken here.
    pub(crate) fn new(alloc: Global) -> Result<Signal, AllocError> {
        Ok(Signal {
            hinted: AtomicBool::new(false),
            changes: AtomicU64::new(0),
            held: HeldPlaces::new(alloc)?,
            arrivals: Arrivals::new(alloc)?,
        })
    }

    /// Tells of what the caller has admitted since it told last, and hints the flow. Does nothing where that is nothing.
    pub fn tell_progress<W: Wait>(
        &self,
        progress: &mut Progress,
        wait: &W,
        hints: &Hints,
        flow: u32,
    ) {
        if progress.tell(&self.arrivals) {
            self.tell_change(wait, hints, flow);
        }
    }

    /// As `tell_progress`, once so many datagrams were admitted.
    pub fn tell_much<W: Wait>(&self, progress: &mut Progress, wait: &W, hints: &Hints, flow: u32) {
        if progress.untold() >= TOLD_TOGETHER {
            self.tell_progress(progress, wait, hints, flow);
        }
    }

    /// Tells that datagrams were admitted or a word found, and hints the flow.
    pub(crate) fn tell_change<W: Wait>(&self, wait: &W, hints: &Hints, flow: u32) {
        self.changes.fetch_add(1, Ordering::SeqCst);
        self.hint(wait, hints, flow);
    }

    /// Hints the flow, where no hint for it waits. That one does, costs one load.
    pub(crate) fn hint<W: Wait>(&self, wait: &W, hints: &Hints, flow: u32) {
        if !self.hinted.load(Ordering::SeqCst) && !self.hinted.swap(true, Ordering::SeqCst) {
            hints.hint(wait, flow);
        }
    }

    /// Tells that the hint was taken, so that a later change is hinted again.
    pub(crate) fn hear(&self) {
        self.hinted.store(false, Ordering::SeqCst);
    }

    /// How many changes were told, modulo 2^64.
    pub(crate) fn count(&self) -> u64 {
        self.changes.load(Ordering::SeqCst)
    }
}
