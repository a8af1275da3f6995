//! What a desk knows, and what follows.
ghost use Rattle.std.specs.Prelude.{◌≡◌, ◌+◌, ◌<◌, ◌≤◌, ◌^◌, ◌↔◌, ℕ, IsTrue, IsSome, IfOk, vec_len};

use crate::ordering::{lines_by_place, rules_from};
use crate::reading::{read_found, read_lines, read_words};
use crate::runs_of::runs_of;
use crate::search::{LineSlots, follow_all};
use fg_buffer::Watches;
use fg_desk::Desk;
use fg_runs::{Rules, Runs};
use fg_shape::last;
use std::alloc::{AllocError, Global};

/// How many positions before a desk's mark have flags.
const BEFORE: u64 = 100;

/// How many positions have flags: those, and from the mark on as many as 100 past the greatest depth.
const REACH: usize = 1200;

/// How many places live equations have.
const PLACES: usize = 512;

/// Which positions around a desk's mark are known, and which follow from its equations. All memory is taken by `new`.
#[derive(Drop)]
pub struct Closure {
    /// The desk's mark.
    mark: u64,
    /// The position of the first flag.
    first: u64,
    /// Which positions have a kept or a received word.
    known: Vec<bool>,
    /// Which are in the closure.
    closed: Vec<bool>,
    /// The slots of the live equation at each place.
    lines: Vec<Option<LineSlots>>,
    /// Which of them have to be looked at.
    watches: Watches,
    ghost known_count: { vec_len known ≡ 1200 },
    ghost closed_count: { vec_len closed ≡ 1200 },
    ghost places: { vec_len lines ≡ 512 },
    ghost ahead: { first ≤ mark },
    ghost near: { mark ≤ first + 100 },
    ghost limit: { mark < 2 ^ 62 },
}

impl Closure {
    ghost use Rattle.fg_playout.specs.State.{State, known};
    ghost use Rattle.fg_runs.specs.Runs.{AreRunsOf};
    ghost use Rattle.fg_closure.specs.Holes.{IsLookedAt, IsHole, HasMissing, rules_of};
    ghost use Rattle.fg_closure.specs.Found.{IsFoundOf};

    /// Nothing is found yet. All memory is taken here.
    pub fn new(alloc: Global) -> Result<Closure, AllocError> {
        Ok(Closure {
            mark: 0,
            first: 0,
            known: vec![in alloc; false; REACH]?,
            closed: vec![in alloc; false; REACH]?,
            lines: vec![in alloc; None; PLACES]?,
            watches: Watches::new(alloc)?,
        })
    }

    /// Finds what a desk knows, and what follows from it. It takes no memory.
    pub fn find(&mut self, desk: &Desk)
        ensures { IsFoundOf desk.now.state self.new }
    {
        let mark = desk.mark();
        let first = mark.saturating_sub(BEFORE);
        let count = (mark - first) as usize + desk.depth() as usize;
        self.mark = mark;
        self.first = first;
        read_words(desk, first, count, &mut self.known);
        self.closed.copy_from_slice(&self.known);
        read_found(
            desk,
            first,
            (mark - first) as usize,
            count,
            &mut self.closed,
        );
        read_lines(desk, &mut self.lines, &mut self.watches);
        follow_all(first, &self.lines, &mut self.watches, &mut self.closed);
    }

    /// The mark of the desk that was found.
    #[inline]
    pub fn mark(&self) -> u64
        ensures { (desk : State) → IsFoundOf desk self.now → result ≡ desk.mark }
    {
        self.mark
    }

    /// Whether some position of a window, of so many positions from the mark on, isn't in the closure.
    pub fn is_missing(&self, count: u32) -> bool
        requires { count ≤ 100 }
        ensures { (desk : State) → IsFoundOf desk self.now → (IsTrue result ↔ HasMissing desk count) }
    {
        let start = (self.mark - self.first) as usize;
        for k in 0..count as usize {
            if !self.closed[start + k] {
                return true;
            }
        }
        false
    }

    /// The runs of the positions with a kept or a received word.
    ///
    /// # Errors
    ///
    /// Where there is no memory.
    pub fn known(&self, alloc: Global) -> Result<Runs, AllocError>
        ensures { IfOk result (λ runs. (desk : State) → IsFoundOf desk self.now
            → AreRunsOf (λ position. IsSome (known desk position)) runs) }
    {
        runs_of(alloc, self.first, &self.known, 0, REACH, true)
    }

    /// The slots of the live equations, in the order of admission.
    ///
    /// # Errors
    ///
    /// Where there is no memory.
    pub fn lines(&self, alloc: Global) -> Result<Rules, AllocError>
        ensures { IfOk result (λ rules. (desk : State) → IsFoundOf desk self.now → rules ≡ rules_of desk) }
    {
        let mut lines = lines_by_place(alloc, &self.lines)?;
        lines.sort_unstable_by_key(|line| line.serial);
        rules_from(alloc, &lines)
    }

    /// The runs of the holes, for a window of so many positions.
    ///
    /// # Errors
    ///
    /// Where there is no memory.
    pub fn holes(&self, alloc: Global, count: u32) -> Result<Runs, AllocError>
        requires found { (desk : State) × IsFoundOf desk self.now }
        requires count { count ≤ 100 }
        ensures { IfOk result (λ runs. (desk : State) → IsFoundOf desk self.now
            → AreRunsOf (IsHole desk count) runs) }
    {
        let start = (self.mark - self.first) as usize;
        let end = start + self.reach(count) as usize;
        runs_of(alloc, self.first, &self.closed, start, end, false)
    }

    /// How many positions from the mark on are looked at for a window of so many: up to its end, and to the last slot
    /// of any live equation.
    fn reach(&self, count: u32) -> u64
        requires found { (desk : State) × IsFoundOf desk self.now }
        requires count { count ≤ 100 }
        ensures limit { result ≤ 1100 }
        ensures looked_at { (desk : State) → IsFoundOf desk self.now → (position : ℕ)
            → IsLookedAt desk count position ↔ ((desk.mark ≤ position) × (position < desk.mark + result)) }
    {
        let mut end = self.mark + u64::from(count);
        for place in 0..PLACES {
            if let Some(line) = self.lines[place] {
                end = end.max(last(line.base, line.shape) + 1);
            }
        }
        end - self.mark
    }
}
