//! Jobs without the passes that took them.

ghost use Rattle.std.specs.Prelude.{◌≡◌, ℕ, Some, IfSome, IfNone};
ghost use Rattle.std.specs.FinMap.{get};
ghost use Rattle.fg_words.specs.declared.Word.{Word as WordState};
ghost use Rattle.fg_words.specs.Word.{HasRoom};
ghost use Rattle.fg_peel.specs.declared.span.Missing.TheVariants.{One};
ghost use Rattle.fg_peel.specs.Equation.{IsComplete};
ghost use Rattle.fg_peel.specs.Slots.{IsMissing};
ghost use Rattle.fg_core.specs.Board.{job_sum};
ghost use Rattle.fg_core.specs.Work.{job_of, IsWork};

use crate::key::Key;
use fg_shape::{Shape, slot};
use fg_words::laws::xor_is_a_group;
use fg_words::{Shared, Word};
use std::marker::Model;

/// An equation that is handed out, with a share of each word known at its slots. One slot at most has none.
///
/// Contracts see its key, its equation and the words at its slots.
#[derive(Drop)]
pub struct Work {
    key: Key,
    base: u64,
    shape: Shape,
    parity: Shared,
    /// By the numbers of the slots.
    shares: Vec<Option<Shared>>,
}

impl Model for Work {
    ghost use Rattle.fg_core.specs.Board.{JobState};
    ghost use Rattle.fg_core.specs.Codings.{job_code};
    ghost use Rattle.fg_core.specs.Work.{job_of, IsWork};

    ghost Value = { JobState };

    ghost coded = { job_code };

    ghost view = { λ w. job_of w.key w.base w.shape w.parity w.shares.items };

    ghost invariant = { λ w. IsWork w.base w.shape w.parity w.shares.items };
}

impl Work {
    /// A job of these parts.
    pub(crate) fn new(
        key: Key,
        base: u64,
        shape: Shape,
        parity: Shared,
        shares: Vec<Option<Shared>>,
    ) -> Work
        requires { IsWork base shape parity shares.items }
        ensures { result ≡ job_of key base shape parity shares.items }
    {
        Work {
            key,
            base,
            shape,
            parity,
            shares,
        }
    }

    /// The key of its equation.
    pub fn key(&self) -> Key
        ensures { result ≡ self.now.key }
    {
        self.key
    }

    /// The slot that has no word. None exactly where all have one.
    pub fn missing(&self) -> Option<u64>
        ensures some { IfSome result (λ slot. IsMissing (get self.now.inputs) self.now.equation (One slot)) }
        ensures none { IfNone result (IsComplete (get self.now.inputs) self.now.equation) }
    {
        for j in 0..self.shape.na {
            if self.shares[usize::from(j)].is_none() {
                return Some(slot(self.base, self.shape, j));
            }
        }
        None
    }

    /// The XOR of its parity word and its inputs.
    pub fn sum(&self) -> Word
        ensures { result ≡ job_sum self.now }
    {
        xor_is_a_group();
        let mut sum = *self.parity.word();
        for share in &self.shares {
            if let Some(share) = share {
                sum.xor_in(share.word());
            }
        }
        sum
    }

    /// Its words have room.
    pub fn room(&self)
        ensures parity { HasRoom self.now.equation.parity }
        ensures inputs { (slot : ℕ) (word : WordState) → get self.now.inputs slot ≡ Some word → HasRoom word }
    {
        // What holds of the fields is known where they are read.
        let _ = &self.shares;
    }
}
