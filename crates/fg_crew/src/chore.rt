//! What a crew does: the chore of its workers, and the body that it runs beside them.

use crate::hints::Hints;
use std::sync::Wait;
use std::thread::Threads;

/// What a worker does on a hint.
pub trait Chore: Sync {
    /// What each worker has for itself.
    type Own: Send;

    /// What a worker has belongs to this chore.
    ghost fits: { Self → Self.Own → Type 0 };

    /// Helps where the hint says. Any number may come as a hint. `hints` is the queue from which it was taken.
    fn work<W: Wait>(&self, wait: &W, own: &mut Self::Own, hint: u32, worker: u32, hints: &Hints)
        requires { fits self.now own.old }
        ensures { fits self.now own.new };
}

/// What a crew helps.
pub trait Body: Send {
    /// What it comes to.
    type Answer: Send;

    /// It can be run.
    ghost ready: { Self → Type 0 };

    /// What it was before it ran, what it answered, and what it is afterwards.
    ghost ran: { Self → Self.Answer → Self → Type 0 };

    /// Runs once. Hints to the workers go into `hints`.
    fn run<W: Threads + Wait + Sync>(&mut self, rt: &W, hints: &Hints) -> Self::Answer
        requires { ready self.old }
        ensures { ran self.old result self.new };
}
