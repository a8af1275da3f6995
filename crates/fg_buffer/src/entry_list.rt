//! The entries of a buffer.

ghost use Rattle.std.specs.Prelude.{◌≡◌, ◌+◌, ◌-◌, ◌<◌, ◌≤◌, ◌^◌, ℕ, length, drop, slice_index_or, slice_set, IfOk, IfSome, IfNone};
ghost use Rattle.std.specs.Option.{option_copied};
ghost use Rattle.fg_shape.specs.Shape.{position_limit};
ghost use Rattle.fg_peel.specs.declared.Slot.{Slot};
ghost use Rattle.fg_peel.specs.Slots.{word_in, with_word};
ghost use Rattle.fg_buffer.specs.BufferEntries.{IsLastWord, IsEmptyTo, HasNoWordFrom, Forgets, left_of};
ghost use Rattle.fg_buffer.specs.SmallSlots.{slot_of};

use crate::playout_buffer::KEPT;
use crate::small_slots::{Content, SmallSlots};
use crate::spares::Spares;
use fg_peel::EntryRow;
use fg_words::{Shared, Word};
use std::alloc::{AllocError, Global};
use std::marker::Model;

/// How many entries may be passed before the others are moved. Until then they stand further on in the
/// memory.
const SLACK: usize = 64;

/// Entries in a row, of which the first ones are passed from time to time.
#[derive(Drop)]
pub(crate) struct EntryList {
    /// Where the first entry stands.
    front: usize,
    /// The entries, and before and after them empty slots.
    slots: SmallSlots,
    /// No entry from this one on has a word: the search for the last one begins here.
    end: usize,
}

impl Model for EntryList {
    ghost use Rattle.std.specs.Prelude.{List};
    ghost use Rattle.fg_peel.specs.declared.Slot.{Slot};
    ghost use Rattle.fg_buffer.specs.BufferEntries.{live_entries, AreStored, HasNoWordFrom};

    ghost Value = { List Slot };

    ghost view = { λ a. live_entries a.front a.slots };

    ghost invariant = { λ a. AreStored a.front a.slots × HasNoWordFrom (live_entries a.front a.slots) a.end };
}

impl EntryList {
    /// So many empty entries. All memory is taken here.
    pub(crate) fn new(alloc: Global, count: usize) -> Result<EntryList, AllocError>
        requires { count ≤ 2000 }
        ensures count { IfOk result (λ entries. length entries ≡ count) }
        ensures empty { IfOk result (λ entries. (k : ℕ) → slice_index_or entries k Slot.Empty ≡ Slot.Empty) }
    {
        Ok(EntryList {
            front: 0,
            slots: SmallSlots::new(alloc, count + SLACK)?,
            end: 0,
        })
    }

    /// How many there are.
    #[inline]
    pub(crate) fn count(&self) -> usize
        ensures count { result ≡ length self.now }
        ensures limit { result ≤ position_limit }
    {
        self.slots.count() - SLACK
    }

    /// The entry so many places after another one.
    #[inline]
    fn after(&self, first: usize, index: usize) -> usize
        requires { first + index < length self.now }
        ensures { result ≡ first + index }
    {
        // There are few enough for the sum to fit.
        let count = self.count();
        prove!(index < count);
        first + index
    }

    /// What an entry has. Past all of them there is nothing.
    #[inline]
    pub(crate) fn at(&self, index: usize) -> Content<'_>
        requires { index ≤ length self.now }
        ensures { slot_of result ≡ slice_index_or self.now index Slot.Empty }
    {
        self.slots.at(self.front + index)
    }

    /// Puts the share of a received word into an entry.
    #[inline]
    pub(crate) fn put_media(&mut self, index: usize, share: Shared)
        requires { index < length self.old }
        ensures { self.new ≡ slice_set self.old index (Slot.Media share) }
    {
        let _passed = self.slots.clear(self.front + index);
        self.slots.put_media(self.front + index, share);
        self.end = self.end.max(index + 1);
    }

    /// Puts the share of a solved word into an entry.
    #[inline]
    pub(crate) fn put_solved(&mut self, index: usize, share: Shared)
        requires { index < length self.old }
        ensures { self.new ≡ slice_set self.old index (Slot.Solved share) }
    {
        let _passed = self.slots.clear(self.front + index);
        self.slots.put_solved(self.front + index, share);
        self.end = self.end.max(index + 1);
    }

    /// Puts a copy of a word into an empty entry, where it stands alone.
    fn fill(&mut self, index: usize, word: &Word)
        requires within { index < length self.old }
        requires empty { slice_index_or self.old index Slot.Empty ≡ Slot.Empty }
        ensures { self.new ≡ slice_set self.old index (Slot.Filled word.now) }
    {
        self.slots.fill(self.front + index, word);
        self.end = self.end.max(index + 1);
    }

    /// Adds the word of another entry to the one that stands alone in an entry, in place.
    fn add(&mut self, index: usize, other: usize)
        requires within { index < length self.old }
        requires other { other < length self.old }
        ensures { self.new ≡ slice_set self.old index
            (with_word (slice_index_or self.old index Slot.Empty)
            (word_in (slice_index_or self.old other Slot.Empty))) }
    {
        self.slots.add(self.front + index, self.front + other);
    }

    /// Empties an entry where its word stands alone or, where `solved` says so, was solved.
    fn forget_one(&mut self, index: usize, solved: bool)
        requires { index < length self.old }
        ensures { self.new ≡ slice_set self.old index (left_of solved (slice_index_or self.old index Slot.Empty)) }
    {
        self.slots.forget(self.front + index, solved);
    }

    /// Empties each entry from the mark on whose word stands alone or, where `solved` says so, was
    /// solved.
    pub(crate) fn forget(&mut self, solved: bool)
        ensures count { length self.new ≡ length self.old }
        ensures forgets { Forgets solved self.old self.new }
    {
        for i in KEPT..self.count() {
            self.forget_one(i, solved);
        }
    }

    /// The last entry from the mark on that has a word.
    pub(crate) fn last_word(&self) -> Option<usize>
        ensures some { IfSome result (IsLastWord self.now) }
        ensures none { IfNone result (HasNoWordFrom self.now KEPT) }
    {
        for i in (KEPT..self.end.min(self.count())).rev() {
            if self.at(i).word().is_some() {
                return Some(i);
            }
        }
        None
    }

    /// How far the entries from the mark on have no word: up to the first that has one, and at most up to `limit`.
    pub(crate) fn empty_to(&self, limit: usize) -> usize
        requires { KEPT ≤ limit }
        ensures from { KEPT ≤ result }
        ensures most { result ≤ limit }
        ensures empty { IsEmptyTo self.now result }
    {
        let end = self.end.min(self.count()).min(limit);
        if end <= KEPT {
            return limit;
        }
        let ahead = self.slots.empty_run(self.front + KEPT, self.front + end);
        if KEPT + ahead < end {
            return KEPT + ahead;
        }
        limit
    }

    /// Passes the first `count` entries as `advance` does, where those of them that come after the 100 kept ones are empty. The more
    /// are passed, the less is looked at.
    pub(crate) fn skip(&mut self, count: usize, spares: &mut Spares)
        requires some { 1 ≤ count }
        requires within { count ≤ length self.old }
        requires empty { IsEmptyTo self.old count }
        ensures count { length self.new ≡ length self.old }
        ensures moved { (k : ℕ) → slice_index_or self.new k Slot.Empty
            ≡ slice_index_or self.old (k + count) Slot.Empty }
    {
        if count <= SLACK {
            self.advance(count, spares);
        } else {
            self.slide(count, spares);
        }
    }

    /// The same, by moving in the memory the entries that stay. Of those that are passed only the kept ones are looked at.
    fn slide(&mut self, count: usize, spares: &mut Spares)
        requires some { 1 ≤ count }
        requires within { count ≤ length self.old }
        requires empty { IsEmptyTo self.old count }
        ensures count { length self.new ≡ length self.old }
        ensures moved { (k : ℕ) → slice_index_or self.new k Slot.Empty
            ≡ slice_index_or self.old (k + count) Slot.Empty }
    {
        let last = self.front + self.end.min(self.count());
        let kept = self.front + count.min(KEPT);
        pass_few(&mut self.slots, self.front, kept, spares);
        slide_down(&mut self.slots, self.front, count, last);
        self.end = self.end.saturating_sub(count);
    }

    /// Passes the first `count` entries, whose shares become spares: each entry takes the place of the
    /// one so many before it, and the last ones are empty. They are moved in the memory only where no
    /// room is left after them.
    pub(crate) fn advance(&mut self, count: usize, spares: &mut Spares)
        requires some { 1 ≤ count }
        requires within { count ≤ length self.old }
        ensures count { length self.new ≡ length self.old }
        ensures moved { (k : ℕ) → slice_index_or self.new k Slot.Empty
            ≡ slice_index_or self.old (k + count) Slot.Empty }
    {
        let last = self.front + self.end.min(self.count());
        self.end = self.end.saturating_sub(count);
        let end = self.front + count;
        if end <= SLACK {
            pass_all(&mut self.slots, self.front, end, spares);
            self.front = end;
        } else {
            shift_down(&mut self.slots, end, last, spares);
            self.front = 0;
        }
    }
}

/// Moves each slot to the place `count` before it, where those from `last` on are empty. The first `count` slots are passed, and
/// the last ones are then empty.
fn shift_down(slots: &mut SmallSlots, count: usize, last: usize, spares: &mut Spares)
    requires some { 1 ≤ count }
    requires within { count ≤ length slots.old }
    requires last { last ≤ length slots.old }
    requires past { (k : ℕ) → last ≤ k → slice_index_or slots.old k Slot.Empty ≡ Slot.Empty }
    ensures count { length slots.new ≡ length slots.old }
    ensures moved { (k : ℕ) → slice_index_or slots.new k Slot.Empty
        ≡ slice_index_or slots.old (k + count) Slot.Empty }
{
    take_later(slots, count, last);
    pass_all(slots, last.saturating_sub(count), last.max(count), spares);
}

/// Moves what each slot from `count` on up to `end` has to the slot `count` places before it.
fn take_later(slots: &mut SmallSlots, count: usize, end: usize)
    requires some { 1 ≤ count }
    requires within { end ≤ length slots.old }
    ensures count { length slots.new ≡ length slots.old }
    ensures taken { (k : ℕ) → k + count < end → slice_index_or slots.new k Slot.Empty
        ≡ slice_index_or slots.old (k + count) Slot.Empty }
    ensures past { (k : ℕ) → end ≤ k → count ≤ k → slice_index_or slots.new k Slot.Empty
        ≡ slice_index_or slots.old k Slot.Empty }
{
    for i in count..end {
        slots.swap(i - count, i);
    }
}

/// Moves what each slot up to `end` has to the slot `count` places before it, from a first slot on, of which so many are empty.
fn slide_down(slots: &mut SmallSlots, first: usize, count: usize, end: usize)
    requires some { 1 ≤ count }
    requires fits { first + count ≤ position_limit }
    requires within { end ≤ length slots.old }
    requires empty { (k : ℕ) → first ≤ k → k < first + count → slice_index_or slots.old k Slot.Empty ≡ Slot.Empty }
    requires past { (k : ℕ) → end ≤ k → slice_index_or slots.old k Slot.Empty ≡ Slot.Empty }
    ensures count { length slots.new ≡ length slots.old }
    ensures moved { (k : ℕ) → first ≤ k → slice_index_or slots.new k Slot.Empty
        ≡ slice_index_or slots.old (k + count) Slot.Empty }
{
    let mut i = first + count;
    while i < end {
        i += slots.empty_run(i, end);
        if i < end {
            slots.swap(i - count, i);
            i += 1;
        }
    }
}

/// Passes the slots from one on up to another. Their shares become spares.
fn pass_all(slots: &mut SmallSlots, first: usize, end: usize, spares: &mut Spares)
    requires order { first ≤ end }
    requires within { end ≤ length slots.old }
    ensures count { length slots.new ≡ length slots.old }
    ensures below { (k : ℕ) → k < first
        → slice_index_or slots.new k Slot.Empty ≡ slice_index_or slots.old k Slot.Empty }
    ensures passed { (k : ℕ) → first ≤ k → k < end
        → slice_index_or slots.new k Slot.Empty ≡ Slot.Empty }
    ensures above { (k : ℕ) → end ≤ k
        → slice_index_or slots.new k Slot.Empty ≡ slice_index_or slots.old k Slot.Empty }
{
    for i in first..end {
        slots.pass(i, spares);
    }
}

/// The same where most of the slots may be empty: then they are only looked at.
fn pass_few(slots: &mut SmallSlots, first: usize, end: usize, spares: &mut Spares)
    requires order { first ≤ end }
    requires within { end ≤ length slots.old }
    ensures count { length slots.new ≡ length slots.old }
    ensures passed { (k : ℕ) → first ≤ k → k < end
        → slice_index_or slots.new k Slot.Empty ≡ Slot.Empty }
    ensures above { (k : ℕ) → end ≤ k
        → slice_index_or slots.new k Slot.Empty ≡ slice_index_or slots.old k Slot.Empty }
{
    let mut i = first;
    while i < end {
        i += slots.empty_run(i, end);
        if i < end {
            slots.pass(i, spares);
            i += 1;
        }
    }
}

/// The entries of positions: all but the first ones, which stand for none.
#[derive(Drop)]
pub(crate) struct Placed<'a> {
    /// How many stand for no position.
    pub(crate) below: usize,
    pub(crate) entries: &'a mut EntryList,
}

impl EntryRow for Placed<'_> {
    ghost use Rattle.std.specs.Prelude.{take, drop};

    ghost slots = { λ placed. drop placed.below placed.entries.now };

    ghost rest = { λ placed. (placed.entries.ghost_name, take placed.below placed.entries.now) };

    #[inline]
    fn count(&self) -> usize {
        self.entries.count().saturating_sub(self.below)
    }

    fn word(&self, index: usize) -> Option<&Word> {
        let entries = &*self.entries;
        entries.at(entries.after(self.below, index)).word()
    }

    fn recovered(&self, index: usize) -> Option<&Word> {
        let entries = &*self.entries;
        entries.at(entries.after(self.below, index)).recovered()
    }

    fn fill(&mut self, index: usize, word: &Word) {
        let place = self.entries.after(self.below, index);
        self.entries.fill(place, word);
    }

    fn add(&mut self, index: usize, other: usize) {
        let place = self.entries.after(self.below, index);
        let other = self.entries.after(self.below, other);
        self.entries.add(place, other);
    }
}
