//! Runs of positions.
ghost use Rattle.std.specs.Prelude.{◌≡◌, ◌↔◌, ◌+◌, ◌<◌, ◌≤◌, ◌^◌, ◌++◌, ℕ, [], ◌∷◌, Some, length, slice_get, OnOk, OnErr, IsTrue};
ghost use Rattle.fg_report.specs.Gaps.{AreApart, EndsAt, with_gap};
ghost use Rattle.fg_runs.specs.Runs.{InRuns};

use std::alloc::{AllocError, Global};
use std::marker::Model;

/// Runs of positions in the order of adding: the first position of each, and how many they are. Contracts see the list of
/// these pairs. Nothing is known of them: they need not rise, nor stay within 64 bits.
#[derive(Drop)]
pub struct Runs {
    runs: Vec<(u64, u64)>,
}

impl Model for Runs {
    ghost use Rattle.std.specs.Prelude.{ℕ, List};

    ghost Value = { List (ℕ × ℕ) };

    ghost view = { λ a. a.runs.items };
}

impl Runs {
    /// No run. It takes no memory.
    pub fn new(alloc: Global) -> Runs
        ensures { result ≡ [] }
    {
        Runs {
            runs: Vec::new(alloc),
        }
    }

    /// Adds a run at the end, as it is given.
    ///
    /// # Errors
    ///
    /// Where there is no memory. Then nothing has changed.
    pub fn add(&mut self, first: u64, length: u64) -> Result<(), AllocError>
        ensures ok { OnOk result (self.new ≡ self.old ++ (first, length) ∷ []) }
        ensures err { OnErr result (self.new ≡ self.old) }
    {
        self.runs.push((first, length))?;
        Ok(())
    }

    /// Adds a run behind the last one. Where it begins at that one's end, the two are one.
    ///
    /// # Errors
    ///
    /// Where there is no memory. Then nothing has changed.
    pub fn join(&mut self, first: u64, length: u64) -> Result<(), AllocError>
        requires { first + length < 2 ^ 64 }
        ensures ok { OnOk result (self.new ≡ with_gap self.old first length) }
        ensures err { OnErr result (self.new ≡ self.old) }
    {
        if self.ends_at(first) {
            let last = self.runs.len() - 1;
            self.runs[last].1 += length;
            return Ok(());
        }
        self.runs.push((first, length))?;
        Ok(())
    }

    /// Whether there is a last run, and the position is the one behind it.
    fn ends_at(&self, position: u64) -> bool
        ensures { IsTrue result ↔ EndsAt self.now position }
    {
        match self.runs.last() {
            Some(last) => end_of(*last) == u128::from(position),
            None => false,
        }
    }

    /// Leaves of runs that rise the positions below an end, which may lie past 64 bits. It takes no memory.
    pub fn cut(&mut self, end: u128)
        ensures apart { AreApart self.old → AreApart self.new }
        ensures below { AreApart self.old → (position : ℕ) → InRuns self.new position
            ↔ (InRuns self.old position × (position < end)) }
    {
        while let Some((first, length)) = self.runs.pop() {
            let first_of_run = u128::from(first);
            if first_of_run < end {
                let left = u128::from(length).min(end - first_of_run);
                self.runs.push_reserved((first, left as u64));
                return;
            }
        }
    }

    /// How many runs there are.
    pub fn count(&self) -> usize
        ensures { result ≡ length self.now }
    {
        self.runs.len()
    }

    /// The run that was added as number `i`, counted from 0: its first position, and how many they are.
    pub fn item(&self, i: usize) -> (u64, u64)
        requires { i < length self.now }
        ensures { slice_get self.now i ≡ Some result }
    {
        self.runs[i]
    }
}

/// The position behind a run.
fn end_of(run: (u64, u64)) -> u128
    ensures { result ≡ run.0 + run.1 }
{
    u128::from(run.0) + u128::from(run.1)
}
