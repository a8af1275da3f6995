//! The places of live equations.

ghost use Rattle.std.specs.Prelude.{◌≡◌, ◌+◌, ◌<◌, ℕ, true, false, length, slice_index_or, slice_set, IfOk};
ghost use Rattle.fg_buffer.specs.LiveInside.{IsTaken};

use crate::live_equations::LIVE_LIMIT;
use std::alloc::{AllocError, Global};
use std::marker::Model;

/// Which of the places 0 to 511 are taken.
#[derive(Drop)]
pub(crate) struct Places {
    taken: Vec<bool>,
    /// All places below this one are taken: the search for a free one begins here.
    first: usize,
}

impl Model for Places {
    ghost use Rattle.std.specs.Prelude.{ℕ, Bool, List, ◌<◌};
    ghost use Rattle.fg_buffer.specs.LiveInside.{IsTaken};

    ghost Value = { List Bool };

    ghost view = { λ a. a.taken.items };

    ghost invariant = { λ a. (place : ℕ) → place < a.first → IsTaken a.taken.items place };
}

impl Places {
    /// All are free. All memory is taken here.
    pub(crate) fn new(alloc: Global) -> Result<Places, AllocError>
        ensures count { IfOk result (λ places. length places ≡ 512) }
        ensures free { IfOk result (λ places. (place : ℕ) → slice_index_or places place false ≡ false) }
    {
        Ok(Places {
            taken: vec![in alloc; false; LIVE_LIMIT]?,
            first: 0,
        })
    }

    /// Takes the least free one.
    pub(crate) fn take(&mut self) -> usize
        requires { ¬ ((place : ℕ) → place < length self.old → IsTaken self.old place) }
        ensures free { slice_index_or self.old result false ≡ false }
        ensures below { (place : ℕ) → place < result → IsTaken self.old place }
        ensures within { result < length self.old }
        ensures taken { self.new ≡ slice_set self.old result true }
    {
        let place = first_free(&self.taken, self.first);
        self.taken[place] = true;
        self.first = place + 1;
        place
    }

    /// Frees one.
    pub(crate) fn release(&mut self, place: usize)
        requires { place < length self.old }
        ensures { self.new ≡ slice_set self.old place false }
    {
        self.taken[place] = false;
        self.first = self.first.min(place);
    }

    /// Frees all.
    pub(crate) fn clear(&mut self)
        ensures count { length self.new ≡ length self.old }
        ensures free { (place : ℕ) → slice_index_or self.new place false ≡ false }
    {
        free_all(&mut self.taken);
        self.first = 0;
    }
}

/// The least place that isn't taken, or the number of places where all are. Those below `first` are.
fn first_free(places: &[bool], first: usize) -> usize
    requires { (place : ℕ) → place < first → IsTaken places.now place }
    ensures free { slice_index_or places.now result false ≡ false }
    ensures below { (place : ℕ) → place < result → IsTaken places.now place }
{
    for i in first..places.len() {
        if !places[i] {
            return i;
        }
    }
    places.len()
}

/// Frees all places.
fn free_all(places: &mut [bool])
    ensures { (place : ℕ) → slice_index_or places.new place false ≡ false }
{
    for i in 0..places.len() {
        places[i] = false;
    }
}
