//! Slots of a few bytes.

ghost use Rattle.std.specs.Prelude.{◌≡◌, ◌≢◌, ◌+◌, ◌<◌, ◌≤◌, ℕ, Some, length, slice_index_or, slice_set, IfOk};
ghost use Rattle.std.specs.Option.{option_copied};
ghost use Rattle.fg_peel.specs.declared.Slot.{Slot};
ghost use Rattle.fg_peel.specs.Slots.{word_in, recovered_in, with_word};
ghost use Rattle.fg_buffer.specs.BufferEntries.{received_in, solved_in, shared_in, is_found, left_of};
ghost use Rattle.fg_buffer.specs.SmallSlots.{slot_of, found};
ghost use Rattle.slab.specs.Slab.{get, slab_len, ContainsKey};

use crate::spares::Spares;
use fg_words::{Shared, Word};
use slab::Slab;
use std::alloc::{AllocError, Global};
use std::marker::Model;
use std::mem;

/// What a slot has.
#[derive(Clone, Copy)]
pub(crate) enum Content<'a> {
    /// Nothing.
    Nothing,
    /// The share of a word that was received.
    Media(&'a Shared),
    /// The share of a word that was solved.
    Solved(&'a Shared),
    /// A word that stands there alone.
    Found(&'a Word),
}

impl<'a> Content<'a> {
    /// The word, if there is one.
    #[inline]
    pub(crate) fn word(self) -> Option<&'a Word>
        ensures { option_copied result ≡ word_in (slot_of self.entry) }
    {
        match self {
            Content::Nothing => None,
            Content::Media(share) | Content::Solved(share) => Some(share.word()),
            Content::Found(word) => Some(word),
        }
    }

    /// The word, if it was not received.
    #[inline]
    pub(crate) fn recovered(self) -> Option<&'a Word>
        ensures { option_copied result ≡ recovered_in (slot_of self.entry) }
    {
        match self {
            Content::Nothing | Content::Media(_) => None,
            Content::Solved(share) => Some(share.word()),
            Content::Found(word) => Some(word),
        }
    }

    /// The share of a word that was received.
    #[inline]
    pub(crate) fn received(self) -> Option<&'a Shared>
        ensures { option_copied result ≡ received_in (slot_of self.entry) }
    {
        match self {
            Content::Media(share) => Some(share),
            Content::Nothing | Content::Solved(_) | Content::Found(_) => None,
        }
    }

    /// The share of a word that was solved.
    #[inline]
    pub(crate) fn solved(self) -> Option<&'a Shared>
        ensures { option_copied result ≡ solved_in (slot_of self.entry) }
    {
        match self {
            Content::Solved(share) => Some(share),
            Content::Nothing | Content::Media(_) | Content::Found(_) => None,
        }
    }

    /// The share of a word that was received or solved.
    #[inline]
    pub(crate) fn share(self) -> Option<&'a Shared>
        ensures { option_copied result ≡ shared_in (slot_of self.entry) }
    {
        match self {
            Content::Media(share) | Content::Solved(share) => Some(share),
            Content::Nothing | Content::Found(_) => None,
        }
    }

    /// Whether there is a word that was not received.
    #[inline]
    pub(crate) fn is_found(self) -> bool
        ensures { result ≡ is_found (slot_of self.entry) }
    {
        match self {
            Content::Solved(_) | Content::Found(_) => true,
            Content::Nothing | Content::Media(_) => false,
        }
    }
}

/// A slot of 16 bytes.
#[derive(Drop)]
enum SmallSlot {
    /// Nothing.
    Nothing,
    /// The share of a word that was received.
    Media(Shared),
    /// The share of a word that was solved.
    Solved(Shared),
    /// The place of a word that stands alone.
    Found(usize),
}

/// Small slots, which contracts see as the slots that say the same. The words that stand alone have
/// places in one piece of memory, in which there is room for as many as there are slots, but which is
/// touched no farther than so many words stood there at once.
#[derive(Drop)]
pub(crate) struct SmallSlots {
    slots: Vec<SmallSlot>,
    words: Slab<Word>,
}

impl Model for SmallSlots {
    ghost use Rattle.std.specs.Prelude.{List};
    ghost use Rattle.fg_peel.specs.declared.Slot.{Slot};

    ghost Value = { List Slot };

    ghost use Rattle.fg_buffer.specs.SmallSlots.{said_by, AreHeld};

    ghost view = { λ a. said_by a.words a.slots.items };

    ghost invariant = { λ a. AreHeld a.slots.items a.words };
}

impl SmallSlots {
    /// So many empty slots. All memory is taken here.
    pub(crate) fn new(alloc: Global, count: usize) -> Result<SmallSlots, AllocError>
        ensures count { IfOk result (λ slots. length slots ≡ count) }
        ensures empty { IfOk result (λ slots. (k : ℕ) → slice_index_or slots k Slot.Empty ≡ Slot.Empty) }
    {
        let mut slots = Vec::with_capacity(alloc, count)?;
        for _ in 0..count {
            slots.push(SmallSlot::Nothing)?;
        }
        Ok(SmallSlots {
            slots,
            words: Slab::with_capacity(alloc, count)?,
        })
    }

    /// How many there are.
    #[inline]
    pub(crate) fn count(&self) -> usize
        ensures { result ≡ length self.now }
    {
        self.slots.len()
    }

    /// What a slot has. Past all slots there is nothing.
    #[inline]
    pub(crate) fn at(&self, index: usize) -> Content<'_>
        ensures { slot_of result ≡ slice_index_or self.now index Slot.Empty }
    {
        match self.slots.get(index) {
            Some(SmallSlot::Media(share)) => Content::Media(share),
            Some(SmallSlot::Solved(share)) => Content::Solved(share),
            Some(SmallSlot::Found(place)) => found_at(&self.words, *place),
            Some(SmallSlot::Nothing) | None => Content::Nothing,
        }
    }

    /// How many slots from one on up to another are empty, before the first that has something.
    pub(crate) fn empty_run(&self, first: usize, end: usize) -> usize
        requires order { first ≤ end }
        requires within { end ≤ length self.now }
        ensures most { first + result ≤ end }
        ensures empty { (k : ℕ) → first ≤ k → k < first + result
            → slice_index_or self.now k Slot.Empty ≡ Slot.Empty }
    {
        for (count, slot) in self.slots[first..end].iter().enumerate() {
            match slot {
                SmallSlot::Nothing => {}
                _ => return count,
            }
        }
        end - first
    }

    /// Empties a slot, and answers the share that it had. A found word gives its place back.
    #[inline]
    pub(crate) fn clear(&mut self, index: usize) -> Option<Shared>
        requires { index < length self.old }
        ensures { self.new ≡ slice_set self.old index Slot.Empty }
    {
        match mem::replace(&mut self.slots[index], SmallSlot::Nothing) {
            SmallSlot::Found(place) => {
                self.words.remove(place);
                None
            }
            passed => share_of(passed),
        }
    }

    /// Puts the share of a received word into an empty slot.
    #[inline]
    pub(crate) fn put_media(&mut self, index: usize, share: Shared)
        requires within { index < length self.old }
        requires empty { slice_index_or self.old index Slot.Empty ≡ Slot.Empty }
        ensures { self.new ≡ slice_set self.old index (Slot.Media share) }
    {
        self.slots[index] = SmallSlot::Media(share);
    }

    /// Puts the share of a solved word into an empty slot.
    #[inline]
    pub(crate) fn put_solved(&mut self, index: usize, share: Shared)
        requires within { index < length self.old }
        requires empty { slice_index_or self.old index Slot.Empty ≡ Slot.Empty }
        ensures { self.new ≡ slice_set self.old index (Slot.Solved share) }
    {
        self.slots[index] = SmallSlot::Solved(share);
    }

    /// Puts a copy of a word into an empty slot, where it stands alone.
    pub(crate) fn fill(&mut self, index: usize, word: &Word)
        requires within { index < length self.old }
        requires empty { slice_index_or self.old index Slot.Empty ≡ Slot.Empty }
        ensures { self.new ≡ slice_set self.old index (Slot.Filled word.now) }
    {
        self.slots[index] = SmallSlot::Found(self.words.insert_reserved(*word));
    }

    /// Adds the word of another slot to the one that stands alone in a slot, in place.
    pub(crate) fn add(&mut self, index: usize, other: usize)
        requires within { index < length self.old }
        requires other { other < length self.old }
        ensures { self.new ≡ slice_set self.old index
            (with_word (slice_index_or self.old index Slot.Empty)
            (word_in (slice_index_or self.old other Slot.Empty))) }
    {
        let place = match self.slots[index] {
            SmallSlot::Found(place) => place,
            _ => return,
        };
        match &self.slots[other] {
            SmallSlot::Nothing => {}
            SmallSlot::Media(share) | SmallSlot::Solved(share) => {
                add_at(&mut self.words, place, share.word());
            }
            // Seldom: so a copy on the way does no harm.
            SmallSlot::Found(from) => {
                let added = self.words[*from];
                add_at(&mut self.words, place, &added);
            }
        }
    }

    /// Exchanges two slots.
    pub(crate) fn swap(&mut self, one: usize, other: usize)
        requires one { one < length self.old }
        requires other { other < length self.old }
        ensures { self.new ≡ slice_set (slice_set self.old one (slice_index_or self.old other Slot.Empty))
            other (slice_index_or self.old one Slot.Empty) }
    {
        self.slots.swap(one, other);
    }

    /// Empties a slot, and keeps the share that it had as a spare.
    #[inline]
    pub(crate) fn pass(&mut self, index: usize, spares: &mut Spares)
        requires { index < length self.old }
        ensures { self.new ≡ slice_set self.old index Slot.Empty }
    {
        if let Some(share) = self.clear(index) {
            spares.keep(share);
        }
    }

    /// Empties a slot where its word stands alone or, where `solved` says so, was solved.
    #[inline]
    pub(crate) fn forget(&mut self, index: usize, solved: bool)
        requires { index < length self.old }
        ensures { self.new ≡ slice_set self.old index (left_of solved (slice_index_or self.old index Slot.Empty)) }
    {
        let goes = match self.at(index) {
            Content::Found(_) => true,
            Content::Solved(_) => solved,
            Content::Nothing | Content::Media(_) => false,
        };
        if goes {
            let _passed = self.clear(index);
        }
    }
}

/// The share that a small slot has.
fn share_of(slot: SmallSlot) -> Option<Shared> {
    match slot {
        SmallSlot::Media(share) | SmallSlot::Solved(share) => Some(share),
        SmallSlot::Nothing | SmallSlot::Found(_) => None,
    }
}

/// The word at a place.
#[inline]
fn found_at(words: &Slab<Word>, place: usize) -> Content<'_>
    ensures { slot_of result ≡ found (get words.now place) }
{
    match words.get(place) {
        Some(word) => Content::Found(word),
        None => Content::Nothing,
    }
}

/// Adds a word to the one at a place.
fn add_at(words: &mut Slab<Word>, place: usize, added: &Word)
    requires { ContainsKey words.old place }
    ensures changed { found (get words.new place) ≡ with_word (found (get words.old place)) (Some added.now) }
    ensures others { (other : ℕ) → other ≢ place → get words.new other ≡ get words.old other }
    ensures count { slab_len words.new ≡ slab_len words.old }
    ensures capacity { words.new.capacity ≡ words.old.capacity }
{
    words[place].xor_in(added);
}
