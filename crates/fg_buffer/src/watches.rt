//! Which lines have to be looked at: a line is, where one of the two slots that it watches got a word.

ghost use Rattle.std.specs.Prelude.{◌≡◌, ◌≢◌, ◌+◌, ◌<◌, ◌≤◌, ℕ, true, false, length, slice_index, slice_index_or, IsTrue, IfSome, IfNone};
ghost use Rattle.fg_buffer.specs.Watches.{IsQueued, IsWatching, Adds, TakesOut, WatchesAt, Wakes, AreBounds, first_of, nowhere};

use crate::LIVE_LIMIT;
use std::alloc::{AllocError, Global};
use std::marker::Model;

/// What a line watches that watches no position.
const NOWHERE: u64 = u64::MAX;

/// How many places in a row make a block, and how many blocks there are.
const BLOCK: usize = 32;

const BLOCKS: usize = LIVE_LIMIT / BLOCK;

/// For the line at each place whether it has to be looked at, and two positions that it watches.
#[derive(Drop)]
pub struct Watches {
    first: Vec<u64>,
    second: Vec<u64>,
    queued: Vec<bool>,
    /// All places that are queued lie from the one on and below the other.
    low: usize,
    high: usize,
    /// No place from this one on ever watched a position: passes end here.
    end: usize,
    /// No first watched position of a block lies before this one: passes go over those blocks alone that the mark
    /// has come to.
    leasts: Vec<u64>,
    /// No first watched position lies before this one, and no watched one past the other: most passes are
    /// spared by that.
    least: u64,
    latest: u64,
}

impl Model for Watches {
    ghost use Rattle.fg_buffer.specs.Watches.{WatchState, watches_code, AreWatches};

    ghost Value = { WatchState };

    ghost coded = { watches_code };

    ghost view = { λ a. record { first = a.first.items; second = a.second.items; queued = a.queued.items } };

    ghost invariant = { λ a. AreWatches a.first.items a.second.items a.queued.items a.leasts.items a.low a.high a.end a.least a.latest };
}

impl Watches {
    /// Nothing is queued or watched. All memory is taken here.
    pub fn new(alloc: Global) -> Result<Watches, AllocError> {
        Ok(Watches {
            first: vec![in alloc; NOWHERE; LIVE_LIMIT]?,
            second: vec![in alloc; NOWHERE; LIVE_LIMIT]?,
            queued: vec![in alloc; false; LIVE_LIMIT]?,
            leasts: vec![in alloc; NOWHERE; BLOCKS]?,
            low: LIVE_LIMIT,
            high: 0,
            end: 0,
            least: NOWHERE,
            latest: 0,
        })
    }

    /// The line at this place has to be looked at.
    pub fn add(&mut self, place: u32)
        requires { place < 512 }
        ensures { Adds place self.old self.new }
    {
        let place = place as usize;
        self.queued[place] = true;
        self.low = self.low.min(place);
        self.high = self.high.max(place + 1);
    }

    /// Every line has to be looked at.
    pub fn add_all(&mut self)
        ensures { (place : ℕ) → place < 512 → IsQueued self.new place }
    {
        set_all(&mut self.queued, true);
        self.low = 0;
        self.high = LIVE_LIMIT;
    }

    /// No line has to be looked at.
    pub fn clear(&mut self)
        ensures { (place : ℕ) → ¬ IsQueued self.new place }
    {
        set_all(&mut self.queued, false);
        self.low = LIVE_LIMIT;
        self.high = 0;
    }

    /// Each line that watches this position has to be looked at.
    pub fn wake(&mut self, position: u64)
        requires { position < nowhere }
        ensures { Wakes position self.old self.new }
    {
        let mut from = 0;
        while let Some(place) = self.watching(position, from) {
            self.add(place);
            from = place + 1;
        }
    }

    /// The next place from one on whose line watches this position.
    fn watching(&self, position: u64, from: u32) -> Option<u32>
        requires { position < nowhere }
        ensures some { IfSome result (λ place. (from ≤ place) × (place < 512)
            × ((other : ℕ) → from ≤ other → other < place → ¬ IsWatching self.now position other)) }
        ensures none { IfNone result ((other : ℕ) → from ≤ other → other < 512
            → ¬ IsWatching self.now position other) }
    {
        if position > self.latest {
            return None;
        }
        next_watching(&self.first, &self.second, from as usize, self.end, position)
    }

    /// Whether no line is known to have to be looked at.
    #[inline]
    pub fn is_idle(&self) -> bool
        ensures { IsTrue result → (place : ℕ) → ¬ IsQueued self.now place }
    {
        self.low >= self.high
    }

    /// Takes the place of a line that has to be looked at.
    pub fn next(&mut self) -> Option<u32>
        ensures some { IfSome result (λ place. TakesOut place self.old self.new) }
        ensures none { IfNone result ((self.new ≡ self.old) × ((place : ℕ) → ¬ IsQueued self.old place)) }
    {
        match next_queued(&self.queued, self.low, self.high) {
            Some(place) => {
                self.queued[place] = false;
                self.low = place + 1;
                Some(place as u32)
            }
            None => {
                self.low = LIVE_LIMIT;
                self.high = 0;
                None
            }
        }
    }

    /// The line at this place watches these two positions.
    pub fn watch(&mut self, place: u32, first: u64, second: u64)
        requires { place < 512 }
        ensures { WatchesAt place first second self.old self.new }
    {
        let place = place as usize;
        self.first[place] = first;
        self.second[place] = second;
        self.end = self.end.max(place + 1);
        self.leasts[place / BLOCK] = self.leasts[place / BLOCK].min(first);
        self.least = self.least.min(first);
        self.latest = self.latest.max(first).max(second);
    }

    /// The line at this place watches nothing.
    pub fn leave(&mut self, place: u32)
        requires { place < 512 }
        ensures { WatchesAt place nowhere nowhere self.old self.new }
    {
        let place = place as usize;
        self.first[place] = NOWHERE;
        self.second[place] = NOWHERE;
    }

    /// The next place from one on whose first watched position lies before the mark.
    pub(crate) fn closed(&self, mark: u64, from: u32) -> Option<u32>
        ensures some { IfSome result (λ place. (from ≤ place) × (place < 512)
            × (first_of self.now place < mark)
            × ((other : ℕ) → from ≤ other → other < place → mark ≤ first_of self.now other)) }
        ensures none { IfNone result ((other : ℕ) → from ≤ other → other < 512
            → mark ≤ first_of self.now other) }
    {
        if mark <= self.least {
            return None;
        }
        next_closed(&self.first, &self.leasts, from as usize, self.end, mark)
    }

    /// Seeks the least first watched positions anew that the mark has passed.
    pub(crate) fn renew(&mut self, mark: u64)
        ensures { self.new ≡ self.old }
    {
        if mark > self.least {
            renew_passed(&mut self.leasts, &self.first, mark);
            self.least = least_of(&self.leasts, 0, BLOCKS);
        }
    }
}

/// Sets all.
fn set_all(queued: &mut [bool], value: bool)
    ensures count { length queued.new ≡ length queued.old }
    ensures set { (place : ℕ) → place < length queued.old → slice_index_or queued.new place false ≡ value }
{
    for i in 0..queued.len() {
        queued[i] = value;
    }
}

/// The next place from one on and below an end that watches a position.
fn next_watching(
    first: &[u64],
    second: &[u64],
    from: usize,
    end: usize,
    position: u64,
) -> Option<u32>
    requires first { end ≤ length first.now }
    requires second { end ≤ length second.now }
    requires few { end ≤ 512 }
    ensures some { IfSome result (λ place. (from ≤ place) × (place < end)
        × ((other : ℕ) → from ≤ other → other < place
        → (slice_index first.now other ≢ position) × (slice_index second.now other ≢ position))) }
    ensures none { IfNone result ((other : ℕ) → from ≤ other → other < end
        → (slice_index first.now other ≢ position) × (slice_index second.now other ≢ position)) }
{
    for place in from..end {
        if first[place] == position || second[place] == position {
            return Some(place as u32);
        }
    }
    None
}

/// The next place from one on and below an end that has a position before the mark.
fn next_below(first: &[u64], from: usize, end: usize, mark: u64) -> Option<u32>
    requires within { end ≤ length first.now }
    requires few { end ≤ 512 }
    ensures some { IfSome result (λ place. (from ≤ place) × (place < end) × (slice_index first.now place < mark)
        × ((other : ℕ) → from ≤ other → other < place → mark ≤ slice_index first.now other)) }
    ensures none { IfNone result ((other : ℕ) → from ≤ other → other < end
        → mark ≤ slice_index first.now other) }
{
    for place in from..end {
        if first[place] < mark {
            return Some(place as u32);
        }
    }
    None
}

/// The next place from one on and below an end that is queued.
fn next_queued(queued: &[bool], from: usize, end: usize) -> Option<usize>
    requires { end ≤ length queued.now }
    ensures some { IfSome result (λ place. (from ≤ place) × (place < end)
        × (slice_index_or queued.now place false ≡ true)
        × ((other : ℕ) → from ≤ other → other < place → slice_index_or queued.now other false ≡ false)) }
    ensures none { IfNone result ((other : ℕ) → from ≤ other → other < end
        → slice_index_or queued.now other false ≡ false) }
{
    for place in from..end {
        if queued[place] {
            return Some(place);
        }
    }
    None
}

/// The next place from one on and below an end that has a position before the mark. Blocks are passed over that have
/// none.
fn next_closed(first: &[u64], leasts: &[u64], from: usize, end: usize, mark: u64) -> Option<u32>
    requires within { end ≤ length first.now }
    requires few { end ≤ 512 }
    requires blocks { length leasts.now ≡ 16 }
    requires bounds { AreBounds leasts.now first.now }
    ensures some { IfSome result (λ place. (from ≤ place) × (place < end) × (slice_index first.now place < mark)
        × ((other : ℕ) → from ≤ other → other < place → mark ≤ slice_index first.now other)) }
    ensures none { IfNone result ((other : ℕ) → from ≤ other → other < end
        → mark ≤ slice_index first.now other) }
{
    let mut place = from;
    while place < end {
        let block = place / BLOCK;
        let stop = end.min((block + 1) * BLOCK);
        if leasts[block] < mark {
            if let Some(found) = next_below(first, place, stop, mark) {
                return Some(found);
            }
        }
        place = stop;
    }
    None
}

/// Seeks the least position of each block anew whose least the mark has passed.
fn renew_passed(leasts: &mut [u64], first: &[u64], mark: u64)
    requires blocks { length leasts.old ≡ 16 }
    requires places { length first.now ≡ 512 }
    requires bounds { AreBounds leasts.old first.now }
    requires most { (block : ℕ) → slice_index leasts.old block ≤ nowhere }
    ensures bounds { AreBounds leasts.new first.now }
    ensures most { (block : ℕ) → slice_index leasts.new block ≤ nowhere }
{
    for block in 0..BLOCKS {
        if leasts[block] < mark {
            leasts[block] = least_of(first, block * BLOCK, (block + 1) * BLOCK);
        }
    }
}

/// The least of the positions from one number on and before an end.
fn least_of(positions: &[u64], from: usize, end: usize) -> u64
    requires { end ≤ length positions.now }
    ensures least { (place : ℕ) → from ≤ place → place < end → result ≤ slice_index positions.now place }
    ensures most { result ≤ nowhere }
{
    let mut least = NOWHERE;
    for place in from..end {
        least = least.min(positions[place]);
    }
    least
}
