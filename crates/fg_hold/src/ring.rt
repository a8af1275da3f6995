//! A ring of numbers by index.

ghost use Rattle.std.specs.Prelude.{◌≡◌, ◌≢◌, ◌+◌, ◌<◌, ℕ, length, IfOk};
ghost use Rattle.fg_hold.specs.Ring.{ring_at};

use std::alloc::{AllocError, Global};
use std::marker::Model;

/// How many numbers a ring has: a window's 1,000 and some.
const SLOTS: usize = 1024;

/// Numbers by index, of which those that are 1,024 apart share a slot, or none at all.
#[derive(Drop)]
pub(crate) struct Ring {
    slots: Vec<u64>,
}

impl Model for Ring {
    ghost use Rattle.std.specs.Prelude.{ℕ, List};

    ghost Value = { List ℕ };

    ghost view = { λ r. r.slots.items };
}

impl Ring {
    /// A ring of no numbers, which takes no memory.
    pub(crate) fn none(alloc: Global) -> Ring
        ensures { (index : ℕ) → ring_at result index ≡ 0 }
    {
        Ring {
            slots: Vec::new(alloc),
        }
    }

    /// A ring of zeros. All its memory is taken here.
    pub(crate) fn new(alloc: Global) -> Result<Ring, AllocError>
        ensures count { IfOk result (λ ring. length ring ≡ SLOTS) }
        ensures zeros { IfOk result (λ ring. (index : ℕ) → ring_at ring index ≡ 0) }
    {
        Ok(Ring {
            slots: vec![in alloc; 0; SLOTS]?,
        })
    }

    /// The number at an index.
    #[inline]
    pub(crate) fn at(&self, index: u64) -> u64
        ensures { result ≡ ring_at self.now index }
    {
        match self.slots.get((index % SLOTS as u64) as usize) {
            Some(value) => *value,
            None => 0,
        }
    }

    /// Sets the number at an index. Those less than 1,024 away stay.
    #[inline]
    pub(crate) fn set(&mut self, index: u64, value: u64)
        requires { length self.old ≡ SLOTS }
        ensures count { length self.new ≡ SLOTS }
        ensures here { ring_at self.new index ≡ value }
        ensures others { (other : ℕ) → other ≢ index → other < index + 1024 → index < other + 1024 →
            ring_at self.new other ≡ ring_at self.old other }
    {
        self.slots[(index % SLOTS as u64) as usize] = value;
    }
}
