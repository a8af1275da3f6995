//! The chore of the workers.

use crate::places::Places;
use crate::post::{Post, Remembered};
use crate::walk::Visit;
use fg_crew::{Chore, Gate, Hints};
use std::alloc::Global;
use std::sync::Wait;

/// Helps the flows that the hints name. A tally knows its board and has a pass of it, so a worker needs nothing of its own but
/// what it remembers of each flow.
#[derive(Drop)]
pub struct Helping<'a, G: Gate, P: Places> {
    pub posts: &'a [Post],
    pub places: &'a P,
    pub gate: &'a G,
    pub alloc: Global,
}

impl<'a, G: Gate, P: Places + Sync> Chore for Helping<'a, G, P> {
    type Own = Vec<Remembered>;

    ghost fits = { λ _ _. Unit {0} };

    fn work<W: Wait>(
        &self,
        wait: &W,
        own: &mut Vec<Remembered>,
        hint: u32,
        worker: u32,
        hints: &Hints,
    ) {
        let i = hint as usize;
        if i >= self.posts.len() || i >= own.len() {
            return;
        }
        let visit = Visit {
            wait,
            gate: self.gate,
            hints,
            signal: &self.posts[i].signal,
            places: self.places,
            alloc: self.alloc,
            flow: hint,
            worker,
        };
        visit.make(&mut own[i]);
    }
}
