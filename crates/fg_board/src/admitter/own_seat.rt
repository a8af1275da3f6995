//! The admitter's seat: how its calls enter the board's turn, and leave it.

ghost use Rattle.std.specs.Prelude.{◌≡◌, ◌≤◌, false, true, IsSomeAnd};
ghost use Rattle.fg_board.specs.Actors.{IsOwnBoard};
ghost use Rattle.fg_board.specs.Deeds.{call_of, Makes};
ghost use Rattle.fg_board.specs.OwnTurns.{standing, Enters, Leaves};

use crate::board::Board;
use crate::turns::{Made, tell_owner};
use fg_core::Flow;
use fg_core::laws::{calls_extend, calls_keep_told, calls_make_one_desk, codes_are_read_back};
use fg_turn::Owner;
use fg_words::Shared;
use std::marker::Brand;
use std::sync::Wait;

/// An owner's seat, and the settings of its board.
#[derive(Drop)]
pub(crate) struct OwnSeat {
    pub(crate) owner: Owner<Flow>,
    pub(crate) window: u32,
    pub(crate) depth: u32,
    pub(crate) hold: u64,
}

// Takes a share that the desk let go where there is none yet.
fn fill(spare: &mut Option<Shared>, flow: &mut Flow)
    ensures { flow.new ≡ flow.old }
{
    if spare.is_none() {
        *spare = flow.spare();
    }
}

impl OwnSeat {
    /// Enters the board's turn, and takes a spare share there where there is none yet. The desk there is its own.
    pub(crate) fn enter(
        &mut self,
        wait: &impl Wait,
        board: &Board,
        spare: &mut Option<Shared>,
    ) -> Flow
        requires turn { (self.old.owner.turn ≡ board.now.name) × (self.old.owner.inside ≡ false) }
        requires window { (1 ≤ self.old.window) × (self.old.window ≤ 100) × (self.old.window ≤ self.old.depth) }
        requires own { IsOwnBoard (standing self.old) }
        ensures { Enters self.old result self.new }
    {
        calls_make_one_desk();
        let mut flow = board.turn.enter_owner(wait, &mut self.owner);
        fill(spare, &mut flow);
        flow
    }

    /// Leaves the turn with what a call made of the state.
    pub(crate) fn leave(&mut self, board: &Board, flow: Flow, made: Made)
        requires turn { (self.old.owner.turn ≡ board.now.name) × (self.old.owner.inside ≡ true) }
        requires makes { IsSomeAnd self.old.owner.entered (λ old. Makes self.old.owner (call_of made) old flow) }
        ensures { Leaves self.old (call_of made) flow self.new }
    {
        calls_extend();
        calls_keep_told();
        codes_are_read_back();
        tell_owner::<Brand>(&board.turn, &mut self.owner, flow, made);
    }
}
