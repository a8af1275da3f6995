//! Filling empty entries from the equations that miss one word.

ghost use Rattle.std.specs.Prelude.{false, ◌≡◌, ◌↔◌, ◌≢◌, ◌+◌, ◌^◌, ◌<◌, ◌≤◌, length, slice_index_or, Contains, IsTrue, IfSome, IsSomeAnd};
ghost use Rattle.fg_words.specs.Word.{HasRoom, IsMedia};
ghost use Rattle.fg_peel.specs.declared.Slot.{Slot};
ghost use Rattle.fg_shape.specs.Shape.{position_limit};
ghost use Rattle.fg_peel.specs.Slots.{word_in, words_from, equation_of, equations_of, lines_of};
ghost use Rattle.fg_peel.specs.Slots.{Fits, AllFitFrom, IsMissing};
ghost use Rattle.fg_peel.specs.Span.{words_in, HasAllSlots};
ghost use Rattle.fg_peel.specs.Peeling.{given_word};
ghost use Rattle.fg_peel.specs.Recovery.{IsPeeled, Fills};
ghost use Rattle.fg_peel.specs.Recovery.{NothingFollows, AllClosed, AllClosedAt, StayClosed, StayMedia};

use crate::span::{Missing, Span};
use crate::{EntryRow, Line};
use fg_shape::{contains, slot};
use fg_words::Word;
use slab::Slab;

/// Gives the one slot of a line that has no word its word. The parity word is copied into the entry
/// once, and the words at the other slots are added to it there. The answer tells whether it is a media
/// word: so each found word is asked once, whatever else is found.
// A copy of a word on the way must not stand in the frames of `visit`, of which a chain has many.
#[inline(never)]
pub(crate) fn fill<E: EntryRow>(start: u64, entries: &mut E, line: &Line, position: u64) -> bool
    requires line { Fits start (E.slots entries.old) line.now }
    requires limit { start + length (E.slots entries.old) ≤ position_limit }
    requires missing { IsMissing (words_from start (E.slots entries.old)) (equation_of line.now)
        (Missing.One position) }
    ensures fills { Fills start (equation_of line.now) position (E.slots entries.old) (E.slots entries.new) }
    ensures media { IsTrue result → StayMedia (words_from start (E.slots entries.old)) (words_from start (E.slots entries.new)) }
    ensures told { IsTrue result ↔ IsMedia (given_word (words_from start (E.slots entries.old))
        (record { equation = equation_of line.now; position = position })) }
    ensures room { HasRoom (given_word (words_from start (E.slots entries.old))
        (record { equation = equation_of line.now; position = position })) }
    ensures rest { E.rest entries.new ≡ E.rest entries.old }
{
    let target = (position - start) as usize;
    entries.fill(target, line.parity.word());
    for j in 0..line.shape.na {
        let other = slot(line.base, line.shape, j);
        if other != position {
            entries.add(target, (other - start) as usize);
        }
    }
    is_media_at(entries, target)
}

/// Whether an entry has a media word.
fn is_media_at<E: EntryRow>(entries: &E, index: usize) -> bool
    requires { index < length (E.slots entries.now) }
    ensures media { IsTrue result ↔ IsSomeAnd (word_in (slice_index_or (E.slots entries.now) index Slot.Empty)) IsMedia }
    ensures room { IfSome (word_in (slice_index_or (E.slots entries.now) index Slot.Empty)) HasRoom }
{
    match entries.word(index) {
        Some(word) => is_media_word(word),
        None => false,
    }
}

/// Whether a word is a media word. Every word has room for seven transport packets.
fn is_media_word(word: &Word) -> bool
    ensures media { IsTrue result ↔ IsMedia word.now }
    ensures room { HasRoom word.now }
{
    let _bytes = word.bytes;
    word.is_media()
}

/// Whether both hold.
pub(crate) fn both(one: bool, other: bool) -> bool
    ensures { IsTrue result → IsTrue one × IsTrue other }
{
    one && other
}

/// Fills the slot of a line that has no word, where there is just one, and goes on from there. The answer
/// tells whether each word that was found is a media word.
#[cycle(filling)]
fn visit<E: EntryRow>(start: u64, entries: &mut E, lines: &Slab<Line>, line: &Line) -> bool
    requires lines { AllFitFrom start (E.slots entries.old) lines.now }
    requires limit { start + length (E.slots entries.old) ≤ position_limit }
    requires live { Contains (lines_of lines.now) line.now }
    ensures peeled { IsPeeled start (equations_of lines.now) (E.slots entries.old) (E.slots entries.new) }
    ensures closed { NothingFollows (words_from start (E.slots entries.new)) (equation_of line.now) }
    ensures stay { StayClosed (words_from start (E.slots entries.old)) (words_from start (E.slots entries.new)) lines.now }
    ensures media { IsTrue result → StayMedia (words_from start (E.slots entries.old)) (words_from start (E.slots entries.new)) }
    ensures rest { E.rest entries.new ≡ E.rest entries.old }
{
    if let Missing::One(position) = (Span { start, entries }).missing(line) {
        let media = fill(start, entries, line, position);
        return both(follow(start, entries, lines, position), media);
    }
    true
}

/// Visits each line that has a slot, which was just filled. Lines without it are passed over by a
/// test on numbers. The answer tells whether each word that was found is a media word.
#[cycle(filling)]
fn follow<E: EntryRow>(start: u64, entries: &mut E, lines: &Slab<Line>, filled: u64) -> bool
    requires lines { AllFitFrom start (E.slots entries.old) lines.now }
    requires limit { start + length (E.slots entries.old) ≤ position_limit }
    ensures peeled { IsPeeled start (equations_of lines.now) (E.slots entries.old) (E.slots entries.new) }
    ensures closed { AllClosedAt (words_from start (E.slots entries.new)) lines.now filled }
    ensures stay { StayClosed (words_from start (E.slots entries.old)) (words_from start (E.slots entries.new)) lines.now }
    ensures media { IsTrue result → StayMedia (words_from start (E.slots entries.old)) (words_from start (E.slots entries.new)) }
    ensures rest { E.rest entries.new ≡ E.rest entries.old }
{
    let mut media = true;
    for (_, line) in lines.iter() {
        if contains(line.base, line.shape, filled) {
            media = both(visit(start, entries, lines, line), media);
        }
    }
    media
}

/// Whether some line misses just one word, so that it follows.
fn some_word_follows<E: EntryRow>(span: &Span<'_, E>, lines: &Slab<Line>) -> bool
    requires { HasAllSlots E.slots span.now lines.now }
    ensures { result ≡ false → AllClosed (words_in E.slots span.now) lines.now }
{
    for (_, line) in lines.iter() {
        if let Missing::One(_) = span.missing(line) {
            return true;
        }
    }
    false
}

/// Fills entries until no line misses just one word, and tells whether each word that was found is a media
/// word.
///
/// Each line is visited once, and once more for each of its slots that is filled, at the moment
/// that it is. A filled entry costs a pass of tests on numbers over the lines.
pub(crate) fn fill_all<E: EntryRow>(start: u64, entries: &mut E, lines: &Slab<Line>) -> bool
    requires lines { AllFitFrom start (E.slots entries.old) lines.now }
    requires limit { start + length (E.slots entries.old) ≤ position_limit }
    ensures peeled { IsPeeled start (equations_of lines.now) (E.slots entries.old) (E.slots entries.new) }
    ensures closed { AllClosed (words_from start (E.slots entries.new)) lines.now }
    ensures media { IsTrue result → StayMedia (words_from start (E.slots entries.old)) (words_from start (E.slots entries.new)) }
    ensures rest { E.rest entries.new ≡ E.rest entries.old }
{
    if !some_word_follows(&Span { start, entries }, lines) {
        return true;
    }
    let mut media = true;
    for (_, line) in lines.iter() {
        media = both(visit(start, entries, lines, line), media);
    }
    media
}
