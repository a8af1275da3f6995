//! The buffer of entries around the mark.

ghost use Rattle.std.specs.Prelude.{◌≡◌, ◌+◌, ◌-◌, ◌<◌, ◌≤◌, ◌^◌, ◌↔◌, ◌++◌, ◌∷◌, [], ℕ, pos, ◌-ℤ◌, false, if◌then◌else◌, length, take, drop, slice_index_or, Option, Some, None, IsSome, IsTrue, IfOk, IfSome, IfNone};
ghost use Rattle.std.specs.Option.{option_copied};
ghost use Rattle.std.specs.FinMap.{empty, get};
ghost use Rattle.std.specs.FinSet as set;
ghost use Rattle.fg_words.specs.declared.Word.{Word as WordValue};
ghost use Rattle.fg_words.specs.Word.{IsMedia};
ghost use Rattle.fg_shape.specs.Shape.{IsShape, position_limit};
ghost use Rattle.fg_peel.specs.declared.Slot.{Slot};
ghost use Rattle.fg_peel.specs.Solution.{IsSolution};
ghost use Rattle.fg_peel.specs.Equation.{AreMedia, IsComplete};
ghost use Rattle.fg_peel.specs.Peeling.{EndsPeeling};
ghost use Rattle.fg_peel.specs.Slots.{word_in, words_from, equation_of, equations_of, AllFitFrom, Fits, OnlyFills};
ghost use Rattle.fg_peel.specs.Look.{IsLook};
ghost use Rattle.fg_peel.specs.Peels.{IsPeel};
ghost use Rattle.fg_buffer.specs.PlayoutBuffer.{opened_buffer, buffer_received, buffer_words, buffer_known, buffer_shared, IsBuffer, receives, publishes, LiesIn, IsHighestWord, Advances};
ghost use Rattle.fg_buffer.specs.BufferEntries.{entry_at, words_of, buffer_of, received_in, solved_in, shared_in, is_found, AreEntries, LooksAt, forgets};
ghost use Rattle.fg_buffer.specs.SmallSlots.{slot_of};

use crate::entry_list::{EntryList, Placed};
use crate::small_slots::Content;
use crate::spares::Spares;
use fg_peel::{Line, Look, look_at};
use fg_shape::slot;
use fg_words::{Shared, Word};
use std::alloc::{AllocError, Global};
use std::marker::Model;

/// How many positions before the mark have entries.
pub const KEPT: usize = 100;

/// The entries of the 100 positions before the mark and of those from the mark on. An entry is
/// 16 bytes. A word of 1.3 kB stands elsewhere, and memory for found words is touched only as they come.
///
/// Before the mark an entry has the share of a kept word, which was received or solved, or a kept word
/// that stands alone. From the mark on it has the share of a received or a solved word, or a word that
/// was found ahead of its play. Entries for positions below 0 are empty.
///
/// The shares of entries that are passed stay as spares, 128 at most, until the next payloads are put
/// where their words stood. Contracts don't see them.
#[derive(Drop)]
pub struct PlayoutBuffer {
    mark: u64,
    entries: EntryList,
    /// Whether all solved words at the mark and past it are known to be media words.
    solved_media: bool,
    spares: Spares,
}

impl Model for PlayoutBuffer {
    ghost use Rattle.fg_buffer.specs.PlayoutBuffer.{BufferState};
    ghost use Rattle.std.specs.Prelude.{IsTrue};
    ghost use Rattle.fg_buffer.specs.BufferEntries.{buffer_code, buffer_of, AreEntries, SolvedAreMedia};

    ghost Value = { BufferState };

    ghost coded = { buffer_code };

    ghost view = { λ a. buffer_of a.mark a.entries };

    ghost invariant = { λ a. AreEntries a.mark a.entries × (IsTrue a.solved_media → SolvedAreMedia a.entries) };
}

/// What a buffer tells of one position.
#[derive(Clone, Copy)]
pub struct Told<'a> {
    /// The word that is kept or was received or solved.
    pub word: Option<&'a Word>,
    /// The share of that word, where there is one.
    pub share: Option<&'a Shared>,
    /// Whether the word is kept and was not received.
    pub repaired: bool,
}

impl PlayoutBuffer {
    /// A buffer that reaches 100 positions past the depth. All its memory is taken here.
    pub fn new(alloc: Global, depth: u32) -> Result<PlayoutBuffer, AllocError>
        requires { depth ≤ 1000 }
        ensures { IfOk result (λ buffer. buffer ≡ opened_buffer (depth + 100)) }
    {
        Ok(PlayoutBuffer {
            mark: 0,
            entries: EntryList::new(alloc, KEPT + depth as usize + 100)?,
            solved_media: true,
            spares: Spares::new(alloc)?,
        })
    }

    /// The first position that isn't played yet.
    #[inline]
    pub fn mark(&self) -> u64
        ensures value { result ≡ self.now.mark }
        ensures facts { IsBuffer self.now }
    {
        self.mark
    }

    /// The word that was received at a position that isn't played yet.
    #[inline]
    pub fn received(&self, position: u64) -> Option<&Word>
        ensures { option_copied result ≡ get self.now.media position }
    {
        match self.ahead(position).received() {
            Some(share) => Some(share.word()),
            None => None,
        }
    }

    /// The word that is kept or was received or solved at a position.
    #[inline]
    pub fn word(&self, position: u64) -> Option<&Word>
        ensures { option_copied result ≡ buffer_known self.now position }
    {
        if position < self.mark {
            return self.any_word(position);
        }
        match self.share(position) {
            Some(share) => Some(share.word()),
            None => None,
        }
    }

    /// The share of that word, where there is one.
    #[inline]
    pub fn share(&self, position: u64) -> Option<&Shared>
        ensures { option_copied result ≡ buffer_shared self.now position }
    {
        entry(self.mark, &self.entries, position).share()
    }

    /// Whether the word kept at a position was not received. Then there is a word.
    #[inline]
    pub fn is_repaired(&self, position: u64) -> bool
        ensures value { result ≡ set.contains self.now.repaired position }
        ensures word { IsTrue result → IsSome (buffer_known self.now position) }
    {
        position < self.mark && entry(self.mark, &self.entries, position).is_found()
    }

    /// The word of a position, its share and whether it was repaired, by one look at its entry.
    #[inline]
    pub fn told(&self, position: u64) -> Told<'_>
        ensures word { option_copied result.word ≡ buffer_known self.now position }
        ensures share { option_copied result.share ≡ buffer_shared self.now position }
        ensures repaired { result.repaired ≡ set.contains self.now.repaired position }
        ensures some { IsTrue result.repaired → IsSome (buffer_known self.now position) }
    {
        told_of(
            entry(self.mark, &self.entries, position),
            position < self.mark,
        )
    }

    /// The word at a position, also where it was found ahead of its play.
    #[inline]
    pub fn any_word(&self, position: u64) -> Option<&Word>
        ensures { option_copied result ≡ buffer_words self.now position }
    {
        entry(self.mark, &self.entries, position).word()
    }

    /// Whether all slots of a line have words.
    #[inline]
    pub fn is_complete(&self, line: &Line) -> bool
        requires shape { IsShape line.now.shape.offset line.now.shape.na }
        requires base { line.now.base ≤ position_limit }
        ensures { IsTrue result ↔ IsComplete (buffer_words self.now) (equation_of line.now) }
    {
        for j in 0..line.shape.na {
            if self.any_word(slot(line.base, line.shape, j)).is_none() {
                return false;
            }
        }
        true
    }

    /// The greatest position with a word, at the mark or past it.
    pub fn highest(&self) -> Option<u64>
        ensures some { IfSome result (IsHighestWord self.now) }
        ensures none { IfNone result ((position : ℕ) → self.now.mark ≤ position
            → buffer_words self.now position ≡ None) }
    {
        match self.entries.last_word() {
            Some(last) => Some(self.mark + (last - KEPT) as u64),
            None => None,
        }
    }

    /// The share of the word that was solved at a position.
    #[inline]
    pub fn solved(&self, position: u64) -> Option<&Shared>
        ensures { option_copied result ≡ get self.now.solved position }
    {
        self.ahead(position).solved()
    }

    /// What the entry of a position has, if it isn't played yet.
    #[inline]
    fn ahead(&self, position: u64) -> Content<'_>
        ensures { (received_in (slot_of result) ≡ get self.now.media position)
            × (solved_in (slot_of result) ≡ get self.now.solved position) }
    {
        if self.mark <= position {
            entry(self.mark, &self.entries, position)
        } else {
            Content::Nothing
        }
    }

    /// Whether all solved words are known to be media words.
    pub fn solved_are_media(&self) -> bool
        ensures { IsTrue result → AreMedia (get self.now.solved) }
    {
        self.solved_media
    }

    /// Puts a received word at a position. A word that was solved or found there goes.
    #[inline]
    pub fn put_media(&mut self, position: u64, share: Shared)
        requires ahead { self.old.mark ≤ position }
        requires near { position < self.old.mark + self.old.reach }
        ensures { self.new ≡ receives self.old position share }
    {
        let place = place_of(self.mark, &self.entries, position);
        self.entries.put_media(place, share);
    }

    /// Puts a solved word at a position. A word that was found there goes.
    pub fn put_solved(&mut self, position: u64, share: Shared)
        requires ahead { self.old.mark ≤ position }
        requires near { position < self.old.mark + self.old.reach }
        requires none { get self.old.media position ≡ None }
        ensures { self.new ≡ publishes self.old position share }
    {
        let place = place_of(self.mark, &self.entries, position);
        self.solved_media = stay_media(self.solved_media, &share);
        self.entries.put_solved(place, share);
    }

    /// Forgets each word that was found ahead of its play, and each that was solved.
    pub fn forget_found(&mut self)
        ensures { self.new ≡ record self.old { solved = empty; cached = empty } }
    {
        self.forget(true);
    }

    /// Forgets each word that was found ahead of its play.
    pub fn forget_cached(&mut self)
        ensures { self.new ≡ record self.old { cached = empty } }
    {
        self.forget(false);
    }

    /// Forgets each word that was found ahead of its play and, where `solved` says so, each that was
    /// solved.
    fn forget(&mut self, solved: bool)
        ensures { self.new ≡ forgets solved self.old }
    {
        self.entries.forget(solved);
        self.solved_media |= solved;
    }

    /// Looks at one line: where it misses just one of the buffer's words, that is found, and where it misses
    /// none, they are summed.
    pub fn look(&mut self, line: &Line) -> Look
        requires within { LiesIn self.old line.now }
        ensures rest { self.new ≡ record self.old { cached = self.new.cached } }
        ensures look { IsLook (buffer_words self.old) (buffer_words self.new) (equation_of line.now) result }
    {
        look_entries(self.mark, &mut self.entries, line)
    }

    /// Whether all solved words are media words.
    pub fn are_media(&self) -> bool
        ensures { IsTrue result ↔ AreMedia (get self.now.solved) }
    {
        if self.solved_are_media() {
            return true;
        }
        let mark = self.mark();
        for ahead in 0..self.reach() {
            if !self.is_media_at(mark + ahead as u64) {
                return false;
            }
        }
        true
    }

    /// Whether a word that was solved at a position is a media word.
    fn is_media_at(&self, position: u64) -> bool
        ensures media { IsTrue result → (word : WordValue) → get self.now.solved position ≡ Some word → IsMedia word }
        ensures other { result ≡ false → ¬ AreMedia (get self.now.solved) }
    {
        match self.solved(position) {
            Some(share) => share.word().is_media(),
            None => true,
        }
    }

    /// How many positions from the mark on have entries.
    fn reach(&self) -> usize
        ensures { result ≡ self.now.reach }
    {
        self.entries.count() - KEPT
    }

    /// Moves the mark on. What is played stays as long as it is kept.
    pub fn advance(&mut self, count: u32)
        requires some { 1 ≤ count }
        requires near { count ≤ self.old.reach }
        requires limit { self.old.mark + count + self.old.reach + 100 ≤ position_limit }
        ensures { Advances count self.old self.new }
    {
        self.entries.advance(count as usize, &mut self.spares);
        self.mark += u64::from(count);
    }

    /// How many positions from the mark on have no word, before the first that has one, and at most so many.
    pub fn empty_ahead(&self, most: u64) -> u64
        requires { most ≤ position_limit }
        ensures most { result ≤ most }
        ensures empty { (position : ℕ) → self.now.mark ≤ position → position < self.now.mark + result
            → buffer_words self.now position ≡ None }
    {
        let limit = most as usize + KEPT;
        (self.entries.empty_to(limit) - KEPT) as u64
    }

    /// Moves the mark on past positions without words, however many.
    pub fn skip(&mut self, count: u64)
        requires some { 1 ≤ count }
        requires limit { self.old.mark + count + self.old.reach + 100 ≤ position_limit }
        requires empty { (position : ℕ) → self.old.mark ≤ position → position < self.old.mark + count
            → buffer_words self.old position ≡ None }
        ensures { Advances count self.old self.new }
    {
        let passed = (count as usize).min(self.entries.count());
        self.entries.skip(passed, &mut self.spares);
        self.mark += count;
    }

    /// A share that was let go, where there is one, for the next payload.
    pub fn spare(&mut self) -> Option<Shared>
        ensures { self.new ≡ self.old }
    {
        self.spares.take()
    }

    /// Keeps a share that is let go as a spare, where there is room for one more.
    pub fn keep_spare(&mut self, share: Shared)
        ensures { self.new ≡ self.old }
    {
        self.spares.keep(share);
    }
}

/// Where the entry of a position stands, or a place past all of them.
#[inline]
fn place_of(mark: u64, entries: &EntryList, position: u64) -> usize
    requires { mark + length entries.now ≤ position_limit }
    ensures within { result ≤ length entries.now }
    ensures ahead { mark ≤ position → position + KEPT < mark + length entries.now → result ≡ position - mark + KEPT }
    ensures entry { slice_index_or entries.now result Slot.Empty ≡ entry_at mark entries.now position }
{
    let count = entries.count();
    match position.saturating_add(KEPT as u64).checked_sub(mark) {
        Some(index) => count.min(index as usize),
        None => count,
    }
}

/// What the entry of a position has.
#[inline]
fn entry(mark: u64, entries: &EntryList, position: u64) -> Content<'_>
    requires { mark + length entries.now ≤ position_limit }
    ensures { slot_of result ≡ entry_at mark entries.now position }
{
    entries.at(place_of(mark, entries, position))
}

/// What is told of an entry. Of one that isn't played yet a word that stands alone isn't told.
#[inline]
fn told_of(content: Content<'_>, is_played: bool) -> Told<'_>
    ensures word { option_copied result.word
        ≡ (if is_played then word_in (slot_of content.entry) else shared_in (slot_of content.entry)) }
    ensures share { option_copied result.share ≡ shared_in (slot_of content.entry) }
    ensures repaired { result.repaired ≡ (if is_played then is_found (slot_of content.entry) else false) }
{
    let share = content.share();
    if is_played {
        Told {
            word: content.word(),
            share,
            repaired: content.is_found(),
        }
    } else {
        Told {
            word: match share {
                Some(share) => Some(share.word()),
                None => None,
            },
            share,
            repaired: false,
        }
    }
}

/// Whether the solved words are still media words where this one comes.
fn stay_media(so_far: bool, share: &Shared) -> bool
    ensures { IsTrue result → IsTrue so_far × IsMedia share.now }
{
    so_far && share.word().is_media()
}

/// Looks at one line among the buffer's entries.
fn look_entries(mark: u64, entries: &mut EntryList, line: &Line) -> Look
    requires entries { AreEntries mark entries.old }
    requires within { LiesIn (buffer_of mark entries.old) line.now }
    ensures { LooksAt mark line.now entries.old entries.new result }
{
    let start = mark.saturating_sub(KEPT as u64);
    let below = (KEPT as u64).saturating_sub(mark) as usize;
    look_placed(start, below, entries, line)
}

/// Looks at one line among all but the first `below` entries, the first of which stands for the position
/// `start`.
fn look_placed(start: u64, below: usize, entries: &mut EntryList, line: &Line) -> Look
    requires within { below ≤ length entries.old }
    requires line { Fits start (drop below entries.old) line.now }
    requires limit { start + length (drop below entries.old) ≤ position_limit }
    ensures look { IsLook (words_from start (drop below entries.old)) (words_from start (drop below entries.new))
        (equation_of line.now) result }
    ensures fills { OnlyFills (drop below entries.old) (drop below entries.new) }
    ensures before { take below entries.new ≡ take below entries.old }
{
    look_at(start, &mut Placed { below, entries }, line)
}
