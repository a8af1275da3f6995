//! Jobs: equations that a board handed out, with the words known at their slots.

ghost use Rattle.std.specs.Prelude.{◌≡◌, ◌↔◌, ℕ, IsTrue, IfOk, IfSome, IfNone};
ghost use Rattle.std.specs.FinMap.{get};
ghost use Rattle.fg_words.specs.Word.{zero_word};
ghost use Rattle.fg_peel.specs.declared.span.Missing.TheVariants.{One};
ghost use Rattle.fg_peel.specs.Equation.{IsComplete};
ghost use Rattle.fg_peel.specs.Slots.{IsMissing};
ghost use Rattle.fg_board.specs.Actors.{WasTold, IsWorkedBy, IsCheckedBy};
ghost use Rattle.fg_core.specs.Board.{job_sum};

use fg_core::{Flow, Key, Work};
use fg_turn::Seat;
use fg_words::Shared;
use fg_words::laws::xor_is_a_group;
use std::alloc::{AllocError, Global};
use std::marker::Model;
use std::snapshot::Snapshot;

/// An equation that was handed out to a pass, with a share of each word known at its slots then. One slot at most has
/// none.
///
/// Contracts see it with the pass as it stood after the take.
#[derive(Drop)]
pub struct Job {
    pub(crate) work: Work,
    taken: Snapshot<Seat<Flow>>,
}

impl Model for Job {
    ghost use Rattle.fg_board.specs.Actors.{TakenJob, WasTold};
    ghost use Rattle.fg_board.specs.Standings.{taken_job_code};

    ghost Value = { TakenJob };

    ghost coded = { taken_job_code };

    ghost view = { λ j. record { taken = j.taken.value; job = j.work } };

    ghost invariant = { λ j. WasTold (record { taken = j.taken.value; job = j.work }) };
}

impl Job {
    /// The job of a pass that was told all of it.
    pub(crate) fn new(work: Work, seat: &Seat<Flow>) -> Job
        requires { WasTold (record { taken = seat.now; job = work }) }
        ensures { result ≡ record { taken = seat.now; job = work } }
    {
        Job {
            work,
            taken: Snapshot::of(seat),
        }
    }

    /// The key of its equation. Its pass was told the equation and the words of its slots.
    pub fn key(&self) -> Key
        ensures key { result ≡ self.now.job.key }
        ensures told { WasTold self.now }
    {
        self.work.key()
    }

    /// The slot that has no word. None exactly where all have one.
    pub fn missing(&self) -> Option<u64>
        ensures some { IfSome result (λ slot. IsMissing (get self.now.job.inputs) self.now.job.equation (One slot)) }
        ensures none { IfNone result (IsComplete (get self.now.job.inputs) self.now.job.equation) }
    {
        self.work.missing()
    }

    /// The word of the one slot that has none. Its pass may offer it, at any later standing: it follows from what the
    /// pass was told. Answers want of memory alone.
    pub fn solve(&self, alloc: Global) -> Result<Shared, AllocError>
        requires { (slot : ℕ) × IsMissing (get self.now.job.inputs) self.now.job.equation (One slot) }
        ensures word { IfOk result (λ share. share ≡ job_sum self.now.job) }
        ensures worked { IfOk result (λ share. (slot : ℕ)
            → IsMissing (get self.now.job.inputs) self.now.job.equation (One slot) → IsWorkedBy self.now slot share) }
    {
        let sum = self.work.sum();
        Shared::of_payload(alloc, sum.pt, sum.ts, sum.len, &sum.bytes)
    }

    /// Whether the words of its slots sum to its parity word. Its pass may attest it, at any later standing.
    pub fn check(&self) -> bool
        requires { IsComplete (get self.now.job.inputs) self.now.job.equation }
        ensures zero { IsTrue result ↔ (job_sum self.now.job ≡ zero_word) }
        ensures checked { IsCheckedBy self.now result }
    {
        xor_is_a_group();
        self.work.room();
        self.work.sum().is_zero()
    }
}
