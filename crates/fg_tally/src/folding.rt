//! An equation with the words that were folded into it.

ghost use Rattle.std.specs.Prelude.{◌≡◌, ◌↔◌, ◌≤◌, ◌<◌, ◌+◌, ◌*◌, IsTrue, length};
ghost use Rattle.std.specs.List.{Contains};
ghost use Rattle.fg_words.specs.Word.{HasRoom, payload_limit};
ghost use Rattle.fg_shape.specs.Shape.{IsShape, position_limit, slots_of};
ghost use Rattle.fg_peel.specs.Equation.{slots};
ghost use Rattle.fg_core.specs.Board.{equation_with};
ghost use Rattle.fg_tally.specs.Folding.{nothing_folded, with_folded, missing_of, Shows, Tells};
ghost use Rattle.fg_tally.specs.Counting.{Counts, missing_among};

use crate::answers::{Folded, Held};
use crate::missing::Missing;
use fg_board::Key;
use fg_shape::laws::each_slot_has_its_number;
use fg_shape::{Shape, slot};
use fg_words::{PAYLOAD_LIMIT, Word};
use std::marker::Model;
use std::snapshot::Snapshot;

/// The equation of a key, and the XOR of its parity word and the words at those slots that were folded.
///
/// Contracts see the key, the equation, the set of the folded slots, and the remainder.
#[derive(Drop)]
pub(crate) struct Folding {
    key: Key,
    base: u64,
    shape: Shape,
    parity: Snapshot<Word>,
    /// By the numbers of the slots.
    folded: u32,
    remainder: Word,
}

impl Model for Folding {
    ghost use Rattle.std.specs.Prelude.{◌≤◌, ◌<◌, ◌^◌};
    ghost use Rattle.fg_shape.specs.Shape.{IsShape, position_limit};
    ghost use Rattle.fg_core.specs.Board.{equation_with};
    ghost use Rattle.fg_tally.specs.Folding.{FoldingState, slots_in};
    ghost use Rattle.fg_tally.specs.Codings.{folding_code};

    ghost Value = { FoldingState };

    ghost coded = { folding_code };

    ghost view = { λ f. record {
      key = f.key;
      equation = equation_with f.base f.shape f.parity.value;
      folded = slots_in f.folded f.base f.shape.offset f.shape.na;
      remainder = f.remainder;
    } };

    ghost invariant = { λ f. IsShape f.shape.offset f.shape.na × (f.base ≤ position_limit) × (f.folded < 2 ^ f.shape.na) };
}

// So many bytes are as many as a whole payload has.
fn has_all(bytes: &[u8; PAYLOAD_LIMIT])
    ensures { length bytes.now ≡ payload_limit }
{
    let _ = bytes;
}

/// Each word has room for a whole payload.
pub(crate) fn has_room(word: &Word)
    ensures { HasRoom word.now }
{
    has_all(&word.bytes);
}

// The number of a slot, counted from 0.
fn number_of(base: u64, shape: Shape, slot: u64) -> u32
    requires shape { IsShape shape.offset shape.na }
    requires slot { Contains (slots_of base shape.offset shape.na) slot }
    ensures number { result < shape.na }
    ensures slot { slot ≡ base + result * shape.offset }
{
    let distance = slot - base;
    (distance / u64::from(shape.offset)) as u32
}

// Counts the slot of a number, after those before it.
fn count_next(missing: Missing, base: u64, shape: Shape, folded: u32, j: u8) -> Missing
    requires shape { IsShape shape.offset shape.na }
    requires base { base ≤ position_limit }
    requires number { j < shape.na }
    requires before { Counts (missing_among folded base shape.offset shape.na j) missing }
    ensures { Counts (missing_among folded base shape.offset shape.na (j + 1)) result }
{
    each_slot_has_its_number();
    if folded >> j & 1 == 1 {
        return missing;
    }
    missing.with(slot(base, shape, j))
}

impl Folding {
    /// The equation of a key, with nothing folded.
    pub(crate) fn new(key: Key, base: u64, shape: Shape, parity: Word) -> Folding
        requires shape { IsShape shape.offset shape.na }
        requires base { base ≤ position_limit }
        ensures { result ≡ nothing_folded key (equation_with base shape parity) }
    {
        Folding {
            key,
            base,
            shape,
            parity: Snapshot::of(&parity),
            folded: 0,
            remainder: parity,
        }
    }

    /// Whether it is that of this key.
    pub(crate) fn is_of(&self, key: Key) -> bool
        ensures { IsTrue result ↔ (self.now.key ≡ key) }
    {
        self.key == key
    }

    /// The XOR of the parity word and the folded words.
    pub(crate) fn remainder(&self) -> &Word
        ensures { result.now ≡ self.now.remainder }
    {
        &self.remainder
    }

    /// Folds the word of a slot, but not a second time.
    pub(crate) fn fold(&mut self, slot: u64, word: &Word)
        requires { Contains (slots self.old.equation) slot }
        ensures { self.new ≡ with_folded self.old slot word.now }
    {
        let number = number_of(self.base, self.shape, slot);
        if self.folded >> number & 1 == 1 {
            return;
        }
        self.folded |= 1 << number;
        self.remainder.xor_in(word);
    }

    /// Which of its slots weren't folded.
    pub(crate) fn missing(&self) -> Missing
        ensures { Counts (missing_of self.now) result }
    {
        let mut missing = Missing::Nothing;
        for j in 0..self.shape.na {
            missing = count_next(missing, self.base, self.shape, self.folded, j);
        }
        missing
    }

    /// What a fold answers where these slots were folded.
    pub(crate) fn answer(&self) -> Folded
        ensures { Tells self.now result }
    {
        match self.missing() {
            Missing::Nothing => Folded::Whole(self.remainder.is_zero()),
            Missing::One(slot) => Folded::Last(slot),
            Missing::Several(count) => Folded::Waiting(count),
        }
    }

    /// All of it but the words.
    pub(crate) fn held(&self) -> Held
        ensures { Shows self.now result }
    {
        Held {
            key: self.key,
            base: self.base,
            shape: self.shape,
            folded: self.folded,
        }
    }
}
