//! Slots in a slice, as entries.

ghost use Rattle.std.specs.Prelude.{◌≡◌, ◌≢◌, ◌<◌, length, slice_index_or, slice_set};
ghost use Rattle.fg_peel.specs.Slots.{word_in, with_word};

use crate::{EntryRow, Slot};
use fg_words::Word;

/// The slots of a slice.
#[derive(Drop)]
pub(crate) struct SlotRow<'a> {
    pub(crate) slots: &'a mut [Slot],
}

impl EntryRow for SlotRow<'_> {
    ghost use Rattle.std.specs.Prelude.{[]};

    ghost slots = { λ row. row.slots.now };

    ghost rest = { λ row. (row.slots.ghost_name, []) };

    fn count(&self) -> usize {
        self.slots.len()
    }

    fn word(&self, index: usize) -> Option<&Word> {
        let slots = &*self.slots;
        slots[index].word()
    }

    fn recovered(&self, index: usize) -> Option<&Word> {
        let slots = &*self.slots;
        slots[index].recovered()
    }

    fn fill(&mut self, index: usize, word: &Word) {
        self.slots[index] = Slot::Filled(*word);
    }

    fn add(&mut self, index: usize, other: usize) {
        add_word(self.slots, index, other);
    }
}

/// Adds the word of another slot to the one that stands alone in a slot, in place.
fn add_word(slots: &mut [Slot], target: usize, other: usize)
    requires target { target < length slots.old }
    requires other { other < length slots.old }
    requires apart { target ≢ other }
    ensures { slots.new ≡ slice_set slots.old target
        (with_word (slice_index_or slots.old target Slot.Empty) (word_in (slice_index_or slots.old other Slot.Empty))) }
{
    if target < other {
        let (front, back) = slots.split_at_mut(other);
        add_slot(&mut front[target], &back[0]);
    } else {
        let (front, back) = slots.split_at_mut(target);
        add_slot(&mut back[0], &front[other]);
    }
}

/// Adds the word of another slot to the one that stands alone in this slot.
fn add_slot(target: &mut Slot, other: &Slot)
    ensures { target.new ≡ with_word target.old (word_in other.now) }
{
    if let (Slot::Filled(word), Some(added)) = (target, other.word()) {
        word.xor_in(added);
    }
}
