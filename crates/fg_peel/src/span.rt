//! A span of entries, and what it tells of a line.

ghost use Rattle.std.specs.Prelude.{◌≡◌, ◌+◌, ◌<◌, ◌≤◌, ◌↔◌, length, slice_index_or, None, IsTrue};
ghost use Rattle.std.specs.Option.{option_copied};
ghost use Rattle.fg_peel.specs.Recovery.{with_added};

use crate::{EntryRow, Line};
use fg_shape::slot;
use fg_words::Word;

/// Which slots of a line have no word.
#[derive(Clone, Copy)]
pub enum Missing {
    /// None: the line is complete.
    Nothing,
    /// Just the one at this position, so its word follows.
    One(u64),
    /// At least two.
    Several,
}

/// Entries for successive positions.
#[derive(Drop)]
pub(crate) struct Span<'a, E> {
    /// The position of the first entry.
    pub(crate) start: u64,
    /// The entries.
    pub(crate) entries: &'a E,
}

impl<'a, E: EntryRow> Span<'a, E> {
    ghost use Rattle.fg_words.specs.Word.{HasRoom};
    ghost use Rattle.fg_peel.specs.Slots.{equation_of, IsMissing};
    ghost use Rattle.fg_peel.specs.Span.{words_in, HasSlots};
    ghost use Rattle.fg_peel.specs.Equation.{slots, ComesOut};
    ghost use Rattle.fg_peel.specs.Look.{IsNextGap};
    ghost use Rattle.fg_peel.specs.Recovery.{AddsWords};

    /// The word at a position.
    pub(crate) fn word(&self, position: u64) -> Option<&'a Word>
        requires first { self.now.start ≤ position }
        requires last { position < self.now.start + length (E.slots self.now.entries.now) }
        ensures { option_copied result ≡ words_in E.slots self.now position }
    {
        let entries = self.entries;
        entries.word((position - self.start) as usize)
    }

    /// Which slots of a line have no word. It reads no payload.
    pub(crate) fn missing(&self, line: &Line) -> Missing
        requires { HasSlots E.slots self.now line.now }
        ensures { IsMissing (words_in E.slots self.now) (equation_of line.now) result }
    {
        let mut found = None;
        for j in 0..line.shape.na {
            let position = slot(line.base, line.shape, j);
            if self.word(position).is_none() {
                if found.is_some() {
                    return Missing::Several;
                }
                found = Some(position);
            }
        }
        match found {
            Some(position) => Missing::One(position),
            None => Missing::Nothing,
        }
    }

    /// The number of a line's next slot, from this number on, that has no word. It reads no payload.
    pub(crate) fn next_gap(&self, line: &Line, from: u8) -> Option<u8>
        requires { HasSlots E.slots self.now line.now }
        ensures { IsNextGap (words_in E.slots self.now) (equation_of line.now) from result }
    {
        for number in from..line.shape.na {
            let position = slot(line.base, line.shape, number);
            if self.word(position).is_none() {
                return Some(number);
            }
        }
        None
    }

    /// Whether the words at a line's slots sum to its parity word. A slot without a word adds
    /// nothing. Each payload is read once.
    pub(crate) fn comes_out(&self, line: &Line) -> bool
        requires { HasSlots E.slots self.now line.now }
        ensures { IsTrue result ↔ ComesOut (words_in E.slots self.now) (equation_of line.now) }
    {
        let mut sum = *line.parity.word();
        self.add_words(&mut sum, line);
        sum.is_zero()
    }

    /// Adds the words at a line's slots to a word, four at a time.
    fn add_words(&self, sum: &mut Word, line: &Line)
        requires line { HasSlots E.slots self.now line.now }
        requires room { HasRoom sum.old }
        ensures { AddsWords (words_in E.slots self.now) (equation_of line.now) sum.old sum.new }
    {
        for group in 0..line.shape.na.div_ceil(4) {
            let at = 4 * group;
            let first = self.word_at(line, at);
            let second = self.word_at(line, at + 1);
            let third = self.word_at(line, at + 2);
            let fourth = self.word_at(line, at + 3);
            add_four(sum, first, second, third, fourth);
        }
    }

    /// The word at a line's slot of this number. There is none past its slots.
    fn word_at(&self, line: &Line, j: u8) -> Option<&'a Word>
        requires { HasSlots E.slots self.now line.now }
        ensures within { j < line.now.shape.na → option_copied result
            ≡ words_in E.slots self.now (slice_index_or (slots (equation_of line.now)) j 0) }
        ensures past { line.now.shape.na ≤ j → option_copied result ≡ None }
    {
        if j < line.shape.na {
            self.word(slot(line.base, line.shape, j))
        } else {
            None
        }
    }
}

/// Adds four words to a sum. One that is missing adds nothing.
fn add_four(
    sum: &mut Word,
    first: Option<&Word>,
    second: Option<&Word>,
    third: Option<&Word>,
    fourth: Option<&Word>,
)
    ensures { sum.new ≡ with_added (with_added (with_added (with_added sum.old
        (option_copied first.entry)) (option_copied second.entry)) (option_copied third.entry))
        (option_copied fourth.entry) }
{
    match (first, second, third, fourth) {
        (Some(first), Some(second), Some(third), Some(fourth)) => {
            sum.xor_in_four(first, second, third, fourth);
        }
        _ => {
            add_two(sum, first, second);
            add_two(sum, third, fourth);
        }
    }
}

/// Adds two words to a sum. One that is missing adds nothing.
fn add_two(sum: &mut Word, one: Option<&Word>, other: Option<&Word>)
    ensures { sum.new
        ≡ with_added (with_added sum.old (option_copied one.entry)) (option_copied other.entry) }
{
    match (one, other) {
        (Some(one), Some(other)) => sum.xor_in_two(one, other),
        (Some(word), None) | (None, Some(word)) => sum.xor_in(word),
        (None, None) => {}
    }
}
