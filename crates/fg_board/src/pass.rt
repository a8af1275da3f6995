//! Passes: the seats of threads that solve and check equations.

use fg_core::Flow;
use fg_turn::Seat;
use std::marker::Model;

/// A thread's leave to work on a board.
///
/// Contracts see its standing: which board it is of, its number, what it was told, and the states of the board that its
/// last turn began and ended with.
#[derive(Drop)]
pub struct Pass {
    pub(crate) seat: Seat<Flow>,
}

impl Model for Pass {
    ghost use Rattle.std.specs.Prelude.{◌≡◌, false};
    ghost use Rattle.fg_turn.specs.Standing.{Standing, standing_coded};
    ghost use Rattle.fg_core.specs.Board.{BoardState};
    ghost use Rattle.fg_core.specs.Codings.{board_code};

    ghost Value = { Standing BoardState };

    ghost coded = { standing_coded board_code };

    ghost view = { λ p. p.seat };

    ghost invariant = { λ p. p.seat.inside ≡ false };
}
