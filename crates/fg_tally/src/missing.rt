//! Which slots of an equation are missing, as they are counted one after another.

ghost use Rattle.std.specs.Prelude.{◌++◌, ◌∷◌, [], ◌<◌, List, ℕ, length};
ghost use Rattle.fg_tally.specs.Counting.{Counts};

/// How many slots are missing, and which one where it is one.
#[derive(Clone, Copy)]
pub(crate) enum Missing {
    Nothing,
    One(u64),
    /// So many, at least two.
    Several(u8),
}

impl Missing {
    /// With one more slot.
    pub(crate) fn with(self, slot: u64) -> Missing
        ensures { (slots : List ℕ) → length slots < 255 → Counts slots self → Counts (slots ++ slot ∷ []) result }
    {
        match self {
            Missing::Nothing => Missing::One(slot),
            Missing::One(_) => Missing::Several(2),
            Missing::Several(count) => Missing::Several(count.saturating_add(1)),
        }
    }
}
