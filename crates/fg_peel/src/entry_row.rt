//! What peeling asks of a row of entries.

ghost use Rattle.std.specs.Prelude.{◌≡◌, ◌≢◌, ◌<◌, length, slice_index_or, slice_set};
ghost use Rattle.std.specs.Option.{option_copied};
ghost use Rattle.fg_peel.specs.declared.Slot.{Slot};
ghost use Rattle.fg_peel.specs.Slots.{word_in, recovered_in, with_word};

use fg_words::Word;

/// Entries that say of successive positions what slots say. So one who holds them chooses where the
/// found words stand.
pub trait EntryRow {
    ghost use Rattle.std.specs.Prelude.{ℕ, List};
    ghost use Rattle.fg_peel.specs.declared.Slot.{Slot};

    /// The slots that say the same.
    ghost slots: { Self → List Slot };

    /// What stays as it is: the name of the reference behind which the entries stand, and the slots
    /// before them.
    ghost rest: { Self → ℕ × List Slot };

    /// How many entries there are.
    fn count(&self) -> usize
        ensures { result ≡ length (slots self.now) };

    /// The word of an entry, if there is one.
    fn word(&self, index: usize) -> Option<&Word>
        requires { index < length (slots self.now) }
        ensures { option_copied result ≡ word_in (slice_index_or (slots self.now) index Slot.Empty) };

    /// The word of an entry, if equations gave one.
    fn recovered(&self, index: usize) -> Option<&Word>
        requires { index < length (slots self.now) }
        ensures { option_copied result ≡ recovered_in (slice_index_or (slots self.now) index Slot.Empty) };

    /// Puts a copy of a word into an empty entry, where it stands alone.
    fn fill(&mut self, index: usize, word: &Word)
        requires within { index < length (slots self.old) }
        requires empty { slice_index_or (slots self.old) index Slot.Empty ≡ Slot.Empty }
        ensures filled { slots self.new ≡ slice_set (slots self.old) index (Slot.Filled word.now) }
        ensures rest { rest self.new ≡ rest self.old };

    /// Adds the word of another entry to the one that stands alone in an entry, in place.
    fn add(&mut self, index: usize, other: usize)
        requires within { index < length (slots self.old) }
        requires other { other < length (slots self.old) }
        requires apart { index ≢ other }
        ensures added { slots self.new ≡ slice_set (slots self.old) index
            (with_word (slice_index_or (slots self.old) index Slot.Empty)
            (word_in (slice_index_or (slots self.old) other Slot.Empty))) }
        ensures rest { rest self.new ≡ rest self.old };
}
