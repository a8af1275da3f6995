//! Runs of positions that show nothing.
ghost use Rattle.std.specs.Prelude.{◌≡◌, ◌↔◌, ◌+◌, ◌<◌, ◌≤◌, [], OnOk, OnErr, IsTrue};
ghost use Rattle.fg_shape.specs.Shape.{position_limit};
ghost use Rattle.fg_report.specs.Gaps.{with_gap, gaps_end, EndsAt};

use std::alloc::{AllocError, Global};
use std::marker::Model;

/// The runs of positions that show nothing, in rising order: the first position of each, and how many they are. Runs
/// that touch are one.
#[derive(Drop)]
pub struct Gaps {
    runs: Vec<(u64, u64)>,
}

impl Model for Gaps {
    ghost use Rattle.std.specs.Prelude.{ℕ, List};
    ghost use Rattle.fg_report.specs.Gaps.{AreKept};

    ghost Value = { List (ℕ × ℕ) };

    ghost view = { λ a. a.runs.items };

    ghost invariant = { λ a. AreKept a.runs.items };
}

impl Gaps {
    /// No run, and no memory is taken.
    pub fn new(alloc: Global) -> Gaps
        ensures { result ≡ [] }
    {
        Gaps {
            runs: Vec::new(alloc),
        }
    }

    /// Adds a run of `count` positions from `first` on, which is not before the end of the last one. Where it begins at
    /// that end, the two are one.
    pub fn add(&mut self, first: u64, count: u64) -> Result<(), AllocError>
        requires some { 0 < count }
        requires behind { gaps_end self.old ≤ first }
        requires limit { first + count ≤ position_limit }
        ensures added { OnOk result (self.new ≡ with_gap self.old first count) }
        ensures unchanged { OnErr result (self.new ≡ self.old) }
    {
        if self.ends_at(first) {
            let last = self.runs.len() - 1;
            self.runs[last].1 += count;
            return Ok(());
        }
        self.runs.push((first, count))?;
        Ok(())
    }

    /// Whether there is a last run, and the position is the one behind it.
    fn ends_at(&self, position: u64) -> bool
        ensures { IsTrue result ↔ EndsAt self.now position }
    {
        match self.runs.last() {
            Some(last) => last.0 + last.1 == position,
            None => false,
        }
    }

    /// The runs.
    pub(crate) fn runs(&self) -> &[(u64, u64)]
        ensures { result.now ≡ self.now }
    {
        self.runs.as_slice()
    }
}
