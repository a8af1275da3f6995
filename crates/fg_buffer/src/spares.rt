//! Shares that were let go, for the next payloads.

ghost use Rattle.std.specs.Prelude.{◌≡◌, ◌<◌, ◌≤◌, [], ◌∷◌, ◌++◌, IfOk, IfSome, IfNone, length};

use fg_words::Shared;
use std::alloc::{AllocError, Global};
use std::marker::Model;

/// How many spare shares are kept at most, whose words have some 170 kB. A window of 100 positions lets go no more at a
/// play, and the next window takes as many.
pub(crate) const SPARE_LIMIT: usize = 128;

/// Shares that were let go. Of some the word may have other owners.
#[derive(Drop)]
pub(crate) struct Spares {
    shares: Vec<Shared>,
}

impl Model for Spares {
    ghost use Rattle.fg_words.specs.declared.Word.{Word};
    ghost use Rattle.std.specs.Prelude.{◌≤◌, List, length, vec_capacity};

    ghost Value = { List Word };

    ghost view = { λ s. s.shares.items };

    ghost invariant = { λ s. (length s.shares.items ≤ 128) × (128 ≤ vec_capacity s.shares) };
}

impl Spares {
    /// No spare shares yet. All memory for them but their words' is taken here.
    pub(crate) fn new(alloc: Global) -> Result<Spares, AllocError>
        ensures { IfOk result (λ spares. spares ≡ []) }
    {
        Ok(Spares {
            shares: Vec::with_capacity(alloc, SPARE_LIMIT)?,
        })
    }

    /// Keeps a share that is let go, where there is room for one more, and else drops it. It takes no memory.
    pub(crate) fn keep(&mut self, share: Shared)
        ensures room { length self.old < SPARE_LIMIT → self.new ≡ self.old ++ share ∷ [] }
        ensures full { SPARE_LIMIT ≤ length self.old → self.new ≡ self.old }
        ensures limit { length self.new ≤ SPARE_LIMIT }
    {
        if self.shares.len() < SPARE_LIMIT {
            let _kept = self.shares.push(share);
        }
    }

    /// The share that was kept last. There is none where all were taken.
    pub(crate) fn take(&mut self) -> Option<Shared>
        ensures some { IfSome result (λ share. self.old ≡ self.new ++ share ∷ []) }
        ensures none { IfNone result ((self.old ≡ []) × (self.new ≡ [])) }
    {
        self.shares.pop()
    }
}
