//! The points of a gate that a repair passes. Point 0 is the crew's, and point 2 isn't passed.

use fg_crew::Gate;

/// What hears of the points. Every gate does; a type that says `Hears` needn't be shared among threads, as a gate is.
pub trait Hears {
    /// The worker passes the point. The caller is worker 0.
    fn hear(&self, worker: u32, point: u32);
}

impl<G: Gate> Hears for G {
    fn hear(&self, worker: u32, point: u32) {
        self.at(worker, point);
    }
}

/// The number of the caller, whom a gate hears as a worker too.
pub const CALLER: u32 = 0;

/// At most one slot of a held equation isn't folded, and the worker hasn't settled it yet. It has no lock.
pub(crate) const FOLDED: u32 = 1;

/// A board has taken a word.
pub(crate) const TAKEN: u32 = 3;

/// A settle found no memory.
pub(crate) const NO_MEMORY: u32 = 4;

/// A flow is about to play a window or to make a flush step or a held step, in the thread that runs it. It passes the point as the
/// caller does.
pub const PLAYING: u32 = 5;
