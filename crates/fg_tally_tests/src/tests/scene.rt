//! What comes to a board, and to tallies, where the conditions of their calls are met.

ghost use Rattle.std.specs.Prelude.{◌≡◌, ◌≤◌};

use fg_board::{Admitter, Board, Key};
use fg_desk::{Played, Reply, Tray};
use fg_shape::{Shape, contains, shape_ok};
use fg_tally::{Folded, Tally};
use fg_words::Word;
use std::alloc::{AllocError, Global};
use std::marker::Model;
use std::sync::Wait;

/// The media word of this number.
pub(super) fn word_of(number: u32) -> Word {
    let mut word = Word::zero();
    word.pt = 33;
    word.ts = number;
    word.len = 1316;
    for packet in 0..7usize {
        word.bytes[188 * packet] = 0x47;
        word.bytes[188 * packet + 1] = (number % 256) as u8;
    }
    word
}

/// The sum of the words at the slots of a shape, which have the numbers of their positions.
fn sum_of(base: u32, shape: Shape) -> Word {
    let mut sum = Word::zero();
    for j in 0..u32::from(shape.na) {
        let at = j.wrapping_mul(u32::from(shape.offset));
        sum.xor_in(&word_of(base.wrapping_add(at)));
    }
    sum
}

/// A board's admitter, with the allocator of the words that it admits.
#[derive(Drop)]
pub(super) struct Feed<'b> {
    alloc: Global,
    board: &'b Board,
    admitter: Admitter,
}

impl<'b> Model for Feed<'b> {
    ghost use Rattle.std.specs.Prelude.{◌≡◌, ◌≤◌};
    ghost use Rattle.fg_turn.specs.Standing.{TurnId, turn_id_coded};

    ghost Value = { TurnId };

    ghost coded = { turn_id_coded };

    ghost view = { λ f. f.board.now };

    ghost invariant = { λ f. (f.admitter.seat.turn ≡ f.board.now.name) × (f.admitter.playout.window ≤ 100) };
}

impl<'b> Feed<'b> {
    pub(super) fn new(alloc: Global, board: &'b Board, admitter: Admitter) -> Feed<'b>
        requires { (admitter.seat.turn ≡ board.now.name) × (admitter.playout.window ≤ 100) }
    {
        Feed {
            alloc,
            board,
            admitter,
        }
    }

    /// Admits a media datagram of SSRC 0. None where a play is due first, or the word is no media word.
    pub(super) fn media(
        &mut self,
        wait: &impl Wait,
        seq: u16,
        word: Word,
    ) -> Result<Option<Reply>, AllocError> {
        let share = word.share(self.alloc)?;
        if self.admitter.fresh(0) {
            return Ok(None);
        }
        if !self.admitter.room() || self.admitter.due(seq, 0) || !share.word().is_media() {
            return Ok(None);
        }
        Ok(Some(self.admitter.admit_media(wait, self.board, seq, 0, share)))
    }

    /// Admits the media datagram that has the word of its sequence number. Whether it was admitted.
    pub(super) fn admits(&mut self, wait: &impl Wait, seq: u16) -> Result<bool, AllocError> {
        Ok(self.media(wait, seq, word_of(u32::from(seq)))? == Some(Reply::Admitted))
    }

    /// Admits a parity datagram. Its key, where it was admitted.
    pub(super) fn parity(
        &mut self,
        wait: &impl Wait,
        base: u16,
        shape: Shape,
        word: Word,
    ) -> Result<Option<Key>, AllocError> {
        let share = word.share(self.alloc)?;
        if !self.admitter.room() || !shape_ok(shape) {
            return Ok(None);
        }
        let (_, key) = self
            .admitter
            .admit_parity(wait, self.board, base, shape, share);
        Ok(key)
    }

    /// Admits the parity datagram of the words that have the numbers of their positions.
    pub(super) fn sum(
        &mut self,
        wait: &impl Wait,
        base: u16,
        shape: Shape,
    ) -> Result<Option<Key>, AllocError> {
        self.parity(wait, base, shape, sum_of(u32::from(base), shape))
    }

    /// Plays a window, with what it shows. None where no play is due before this sequence number of SSRC 0.
    pub(super) fn play(
        &mut self,
        wait: &impl Wait,
        seq: u16,
    ) -> Result<Option<(Played, Tray)>, AllocError> {
        let mut tray = Tray::new(self.alloc, 100)?;
        if !self.admitter.room() || !self.admitter.due(seq, 0) {
            return Ok(None);
        }
        let played = self.admitter.play(wait, self.board, &mut tray);
        Ok(Some((played, tray)))
    }
}

/// Folds a slot. None where the tally holds this key, of an equation without such a slot.
pub(super) fn fold(wait: &impl Wait, tally: &mut Tally<'_>, key: Key, slot: u64) -> Option<Folded> {
    match tally.held() {
        Some(held) => {
            if held.key == key && !contains(held.base, held.shape, slot) {
                return None;
            }
            Some(tally.fold(wait, key, slot))
        }
        None => Some(tally.fold(wait, key, slot)),
    }
}
