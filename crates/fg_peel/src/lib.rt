//! Peeling: what follows from known words and parity equations (SMPTE ST 2022-1, where one parity
//! datagram recovers one lost datagram).
#![tactic(auto)]

ghost use Rattle.std.specs.Prelude.{◌≡◌, ◌+◌, ◌^◌, ◌<◌, ◌≤◌, ◌≤ℤ◌, ◌+ℤ◌, ℕ, pos, negsuc, length, drop, IsTrue};
ghost use Rattle.std.specs.Option.{option_copied};
ghost use Rattle.fg_shape.specs.Shape.{position_limit};
ghost use Rattle.fg_peel.specs.Equation.{AreMedia};
ghost use Rattle.fg_peel.specs.Peels.{Peels, IsPeel};
ghost use Rattle.fg_peel.specs.Slots.{word_in, recovered_in, words_from, words_at, AllFit, AllFitFrom};
ghost use Rattle.fg_peel.specs.Recovery.{IsPeelAfter};

use checks::verdict_on;
use fg_shape::Shape;
use fg_words::{Shared, Word};
use recovery::{both, fill_all};
use slab::Slab;
use slot_row::SlotRow;
use span::Span;

mod checks;
mod entry_row;
pub mod laws;
mod looks;
mod recovery;
mod slot_row;
mod span;

pub use entry_row::EntryRow;
pub use looks::{Look, look_at};
pub use span::Missing;

/// What is known of the datagram at one position.
#[derive(Drop)]
pub enum Slot {
    /// Nothing.
    Empty,
    /// A datagram that was received.
    Media(Shared),
    /// A word that an equation gave, for others to see.
    Solved(Shared),
    /// A word that stands here alone: one that was shown before, or one that `peel` put here.
    Filled(Word),
}

impl Slot {
    /// The word, if there is one.
    pub fn word(&self) -> Option<&Word>
        ensures { option_copied result ≡ word_in self.now }
    {
        match self {
            Slot::Empty => None,
            Slot::Media(shared) | Slot::Solved(shared) => Some(shared.word()),
            Slot::Filled(word) => Some(word),
        }
    }

    /// The word, if equations gave one.
    fn recovered(&self) -> Option<&Word>
        ensures { option_copied result ≡ recovered_in self.now }
    {
        match self {
            Slot::Empty | Slot::Media(_) => None,
            Slot::Solved(shared) => Some(shared.word()),
            Slot::Filled(word) => Some(word),
        }
    }
}

/// A live equation: the words at its slots sum to its parity word.
#[derive(Drop)]
pub struct Line {
    /// The position of the first slot.
    pub base: u64,
    /// Which slots it has.
    pub shape: Shape,
    /// The parity word.
    pub parity: Shared,
    /// The number of equations that were admitted before it.
    pub serial: u64,
    /// Its place among the live equations.
    pub place: u32,
}

/// What the words at the end of a peeling are worth.
#[derive(Clone, Copy, PartialEq)]
pub enum Verdict {
    /// Each recovered word is a media word, and each equation comes out.
    Sound,
    /// The equation at this place doesn't come out. It is the least such place.
    Unsound {
        /// The equation's place.
        place: u32,
    },
    /// The word recovered for this position is no media word. It is the least such position.
    NotMedia {
        /// The position.
        slot: u64,
    },
}

/// Recovers each word that follows from the known words and the equations, and says what they are
/// worth.
///
/// Entry `i` of `slots` stands for position `low + i`; entries for positions below 0 are left
/// alone. Known are the words of the `Media` and `Filled` entries. Only `Empty` entries change, and
/// only into `Filled`. It takes no memory.
///
/// A payload is read only to be summed: a recovered word costs one copy, of the parity word, and
/// one XOR in place for each other slot of its equation, and each equation without an `Empty` slot
/// is summed once more for the verdict. Each equation is looked at twice, and once more for each of
/// its slots that is filled.
///
/// No command calls it: a desk knows which of its words are media words, and peels what a play needs.
/// It is for who has words and equations at hand, whoever brought them.
pub fn peel(low: i64, slots: &mut [Slot], lines: &Slab<Line>) -> Verdict
    requires first { negsuc 99 ≤ℤ low }
    requires last { (low +ℤ pos (length slots.old)) ≤ℤ pos position_limit }
    requires lines { AllFit low slots.old lines.now }
    ensures { Peels low lines.now slots.old slots.new result }
{
    peel_slots(low, slots, lines, false)
}

/// `peel` where all words that are there are media words. Then the entries are not looked over where
/// nothing follows.
pub fn peel_media(low: i64, slots: &mut [Slot], lines: &Slab<Line>) -> Verdict
    requires first { negsuc 99 ≤ℤ low }
    requires last { (low +ℤ pos (length slots.old)) ≤ℤ pos position_limit }
    requires lines { AllFit low slots.old lines.now }
    requires media { AreMedia (words_at low slots.old) }
    ensures { Peels low lines.now slots.old slots.new result }
{
    peel_slots(low, slots, lines, true)
}

/// Either of the two. `all_media` tells that all words that are there are media words.
fn peel_slots(low: i64, slots: &mut [Slot], lines: &Slab<Line>, all_media: bool) -> Verdict
    requires first { negsuc 99 ≤ℤ low }
    requires last { (low +ℤ pos (length slots.old)) ≤ℤ pos position_limit }
    requires lines { AllFit low slots.old lines.now }
    requires media { IsTrue all_media → AreMedia (words_at low slots.old) }
    ensures { Peels low lines.now slots.old slots.new result }
{
    if low < 0 {
        let below = slots.len().min(low.unsigned_abs() as usize);
        peel_after(below, slots, lines, all_media)
    } else {
        peel_row(low as u64, slots, lines, all_media)
    }
}

/// `peel` past so many slots that stand for no position.
fn peel_after(below: usize, slots: &mut [Slot], lines: &Slab<Line>, all_media: bool) -> Verdict
    requires within { below ≤ length slots.old }
    requires lines { AllFitFrom 0 (drop below slots.old) lines.now }
    requires limit { length slots.old ≤ position_limit + below }
    requires media { IsTrue all_media → AreMedia (words_from 0 (drop below slots.old)) }
    ensures { IsPeelAfter below lines.now slots.old slots.new result }
{
    let (_, rest) = slots.split_at_mut(below);
    peel_row(0, rest, lines, all_media)
}

/// `peel` where the first slot stands for the position `start`.
fn peel_row(start: u64, slots: &mut [Slot], lines: &Slab<Line>, all_media: bool) -> Verdict
    requires lines { AllFitFrom start slots.old lines.now }
    requires limit { start + length slots.old ≤ position_limit }
    requires media { IsTrue all_media → AreMedia (words_from start slots.old) }
    ensures { IsPeel start lines.now slots.old slots.new result }
{
    peel_entries(start, &mut SlotRow { slots }, lines, all_media)
}

/// `peel` over entries of any kind, the first of which stands for the position `start`. `all_media`
/// tells that all words that are there are media words.
fn peel_entries<E: EntryRow>(
    start: u64,
    entries: &mut E,
    lines: &Slab<Line>,
    all_media: bool,
) -> Verdict
    requires lines { AllFitFrom start (E.slots entries.old) lines.now }
    requires limit { start + length (E.slots entries.old) ≤ position_limit }
    requires media { IsTrue all_media → AreMedia (words_from start (E.slots entries.old)) }
    ensures peel { IsPeel start lines.now (E.slots entries.old) (E.slots entries.new) result }
    ensures rest { E.rest entries.new ≡ E.rest entries.old }
{
    let found_media = fill_all(start, entries, lines);
    verdict_on(
        &Span { start, entries },
        lines,
        both(found_media, all_media),
    )
}
