//! When the datagrams of the last positions were received.
ghost use Rattle.std.specs.Prelude.{◌≡◌, ◌+◌, ◌-◌, ◌<◌, ◌≤◌, ◌++◌, ◌∷◌, [], ℕ, List, Option, None, Some, IfOk, drop, get_or, length, set};

use std::alloc::{AllocError, Global};
use std::collections::VecDeque;
use std::marker::Model;

/// A datagram may still be received at so many positions from the top down.
pub(crate) const RECENT: usize = 1024;

/// For each of the last positions when it was received, or none where it wasn't: the last is the top.
#[derive(Drop)]
pub(crate) struct Recent {
    times: VecDeque<Option<u64>>,
}

impl Model for Recent {
    ghost use Rattle.std.specs.Prelude.{◌≤◌, ℕ, List, Option};
    ghost use Rattle.std.specs.VecDeque.{deque_capacity};

    ghost Value = { List (Option ℕ) };

    ghost view = { λ a. a.times.items };

    ghost invariant = { λ a. 1024 ≤ deque_capacity a.times };
}

impl Recent {
    /// No position, and room for 1,024.
    pub(crate) fn new(alloc: Global) -> Result<Recent, AllocError>
        ensures { IfOk result (λ recent. recent ≡ []) }
    {
        Ok(Recent {
            times: VecDeque::with_capacity(alloc, RECENT)?,
        })
    }

    /// How many positions there are.
    pub(crate) fn len(&self) -> usize
        ensures { result ≡ length self.now }
    {
        self.times.len()
    }

    /// Takes the oldest away.
    pub(crate) fn pop(&mut self) -> Option<Option<u64>>
        ensures none { result ≡ None → self.old ≡ [] }
        ensures same { result ≡ None → self.new ≡ self.old }
        ensures some { (time : Option ℕ) → result ≡ Some time → self.old ≡ time ∷ self.new }
    {
        self.times.pop_front()
    }

    /// Adds the next.
    pub(crate) fn push(&mut self, time: Option<u64>)
        requires { length self.old < 1024 }
        ensures { self.new ≡ self.old ++ time ∷ [] }
    {
        self.times.push_back_reserved(time);
    }

    /// The one at this place.
    pub(crate) fn at(&self, place: usize) -> Option<u64>
        requires { place < length self.now }
        ensures { result ≡ get_or self.now place None }
    {
        self.times[place]
    }

    /// Sets the one at this place.
    pub(crate) fn set(&mut self, place: usize, time: u64)
        requires { place < length self.old }
        ensures { self.new ≡ set self.old place (Some time) }
    {
        self.times[place] = Some(time);
    }
}
