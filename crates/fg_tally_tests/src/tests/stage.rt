//! A board's tallies and a pass of its own, where the conditions of all calls are met.

ghost use Rattle.std.specs.Prelude.{◌≡◌, ◌≤◌, IfOk};

use super::scene::fold;
use fg_board::{Admitter, Board, Fate, Key, Look, Pass};
use fg_tally::{Begun, Folded, Held, Tallies};
use std::alloc::{AllocError, Global};
use std::marker::Model;
use std::sync::Wait;

/// How many equations can be live at once.
pub(super) const PLACES: u32 = 512;

#[derive(Drop)]
pub(super) struct Stage<'b> {
    alloc: Global,
    board: &'b Board,
    pass: Pass,
    tallies: Tallies<'b>,
}

impl<'b> Model for Stage<'b> {
    ghost use Rattle.std.specs.Prelude.{◌≡◌};
    ghost use Rattle.fg_turn.specs.Standing.{TurnId, turn_id_coded};

    ghost Value = { TurnId };

    ghost coded = { turn_id_coded };

    ghost view = { λ s. s.board.now };

    ghost invariant = { λ s. s.pass.turn ≡ s.board.now.name };
}

/// A board with room for its tallies and one pass more.
pub(super) fn open(alloc: Global, window: u32, depth: u32) -> Result<(Board, Admitter), AllocError>
    requires window { (1 ≤ window) × (window ≤ 100) }
    requires depth { (window ≤ depth) × (depth ≤ 1000) }
    ensures board { IfOk result (λ r. (r.1.seat.turn ≡ r.0.name) × (r.0.seats ≡ 514)) }
    ensures admitter { IfOk result (λ r. (r.1.seat.made ≡ 0) × (r.1.playout.window ≡ window)) }
{
    Board::new(alloc, window, depth, 0, 513)
}

impl<'b> Stage<'b> {
    pub(super) fn new(
        alloc: Global,
        board: &'b Board,
        admitter: &mut Admitter,
    ) -> Result<Stage<'b>, AllocError>
        requires board { (admitter.old.seat.turn ≡ board.now.name) × (board.now.seats ≡ 514) }
        requires made { admitter.old.seat.made ≡ 0 }
        ensures turn { admitter.new.seat.turn ≡ admitter.old.seat.turn }
        ensures window { admitter.new.playout.window ≡ admitter.old.playout.window }
    {
        let tallies = Tallies::new(alloc, board, admitter)?;
        let pass = board.pass(admitter);
        Ok(Stage {
            alloc,
            board,
            pass,
            tallies,
        })
    }

    /// What another pass is shown at a slot of the key's equation.
    pub(super) fn look(&mut self, wait: &impl Wait, key: Key, slot: u64) -> Look {
        self.board.look(wait, &mut self.pass, key, slot)
    }

    /// Starts the tally of the key's place.
    pub(super) fn start(&self, wait: &impl Wait, key: Key) -> Option<Begun> {
        if key.place >= PLACES {
            return None;
        }
        Some(self.tallies.lock(wait, key.place).start(wait, key))
    }

    /// Folds a slot, at the tally of the key's place. None where that holds this key, of an equation without such a slot.
    pub(super) fn fold(&self, wait: &impl Wait, key: Key, slot: u64) -> Option<Folded> {
        if key.place >= PLACES {
            return None;
        }
        let mut tally = self.tallies.lock(wait, key.place);
        fold(wait, &mut tally, key, slot)
    }

    /// Settles the tally of the key's place.
    pub(super) fn settle(&self, wait: &impl Wait, key: Key) -> Result<Option<Fate>, AllocError> {
        if key.place >= PLACES {
            return Ok(None);
        }
        self.tallies
            .lock(wait, key.place)
            .settle(wait, self.alloc, key)
    }

    /// What the tally of the key's place holds.
    pub(super) fn held(&self, wait: &impl Wait, key: Key) -> Option<Held> {
        if key.place >= PLACES {
            return None;
        }
        self.tallies.lock(wait, key.place).held()
    }
}
