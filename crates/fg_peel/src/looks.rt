//! A look at one line.

ghost use Rattle.std.specs.Prelude.{◌≡◌, ◌+◌, ◌≤◌, length};
ghost use Rattle.fg_shape.specs.Shape.{position_limit};
ghost use Rattle.fg_peel.specs.Slots.{words_from, equation_of, Fits, OnlyFills};
ghost use Rattle.fg_peel.specs.Look.{IsLook};

use crate::recovery::fill;
use crate::span::Span;
use crate::{EntryRow, Line};
use fg_shape::slot;

/// What a look at one line found.
#[derive(Clone, Copy)]
pub enum Look {
    /// At least two words are missing: these are the first two slots without one.
    Several(u64, u64),
    /// The word at this position was missing alone, and was filled in. The other value tells whether it is a
    /// media word.
    Found(u64, bool),
    /// No word is missing. The value tells whether the words sum to the parity word.
    Complete(bool),
}

/// Looks at one line, whose slots all have entries: where it misses just one word, that is filled in, and
/// where it misses none, the words are summed.
pub fn look_at<E: EntryRow>(start: u64, entries: &mut E, line: &Line) -> Look
    requires line { Fits start (E.slots entries.old) line.now }
    requires limit { start + length (E.slots entries.old) ≤ position_limit }
    ensures look { IsLook (words_from start (E.slots entries.old)) (words_from start (E.slots entries.new))
        (equation_of line.now) result }
    ensures fills { OnlyFills (E.slots entries.old) (E.slots entries.new) }
    ensures rest { E.rest entries.new ≡ E.rest entries.old }
{
    let Some(first) = (Span { start, entries }).next_gap(line, 0) else {
        return Look::Complete((Span { start, entries }).comes_out(line));
    };
    let position = slot(line.base, line.shape, first);
    match (Span { start, entries }).next_gap(line, first + 1) {
        Some(second) => Look::Several(position, slot(line.base, line.shape, second)),
        None => Look::Found(position, fill(start, entries, line, position)),
    }
}
