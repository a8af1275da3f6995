//! Windows that show nothing, passed at once by an admitter.

ghost use Rattle.std.specs.Prelude.{◌≡◌, ◌≢◌, ◌⊎◌, ◌<◌, None, Some, IsTrue, IsSome};
ghost use Rattle.fg_playout.specs.Laws.{HavePlayed, AreFlushSteps, AreHeldSteps};
ghost use Rattle.fg_playout.specs.Empty.{empty_plays};
ghost use Rattle.fg_playout.specs.Room.{call_limit};
ghost use Rattle.fg_core.specs.Core.{skip};
ghost use Rattle.fg_core.specs.Skipping.{ArePlayed, time_of};
ghost use Rattle.fg_board.specs.Actors.{MakesCall, desk_of};

use crate::admitter::Admitter;
use crate::board::Board;
use crate::turns::Made;
use fg_core::Skip;
use fg_playout::CALL_LIMIT;
use std::sync::Wait;

impl Admitter {
    /// Plays at once, in one turn, so many of the next windows as show nothing and are due before a media datagram of this
    /// sequence number and SSRC, and answers how many. It may leave some of them, or all, to be played one by one. It takes no
    /// turn where none is due.
    pub fn skip_due(&mut self, wait: &impl Wait, board: &Board, seq: u16, ssrc: u32) -> u64
        requires board { self.old.seat.turn ≡ board.now.name }
        ensures call { (self.new ≡ self.old) ⊎ MakesCall (skip None result) self.old self.new }
        ensures plays { HavePlayed (desk_of self.old) seq ssrc
            (empty_plays result (desk_of self.old).playout.window (desk_of self.old).mark) (desk_of self.new) }
    {
        if !self.can_pass() || !self.due(seq, ssrc) {
            return 0;
        }
        self.pass(wait, board, Skip::Due { seq, ssrc })
    }

    /// The same for steps of a flush. It takes no turn where no word was received a window past the mark.
    pub fn skip_rest(&mut self, wait: &impl Wait, board: &Board) -> u64
        requires board { self.old.seat.turn ≡ board.now.name }
        ensures call { (self.new ≡ self.old) ⊎ MakesCall (skip None result) self.old self.new }
        ensures plays { AreFlushSteps (desk_of self.old)
            (empty_plays result (desk_of self.old).playout.window (desk_of self.old).mark) (desk_of self.new) }
    {
        if !self.can_pass() || !self.reaches_far() {
            return 0;
        }
        self.pass(wait, board, Skip::Rest)
    }

    /// The same for held plays at a time, in microseconds, which the desk is told where there are any.
    pub fn skip_held(&mut self, wait: &impl Wait, board: &Board, time: u64) -> u64
        requires board { self.old.seat.turn ≡ board.now.name }
        requires limited { (desk_of self.old).playout.hold ≢ 0 }
        ensures call { (self.new ≡ self.old) ⊎ MakesCall (skip (Some time) result) self.old self.new }
        ensures plays { AreHeldSteps (desk_of self.old) time
            (empty_plays result (desk_of self.old).playout.window (desk_of self.old).mark) (desk_of self.new) }
    {
        if !self.can_pass() || !self.reaches_far() {
            return 0;
        }
        self.pass(wait, board, Skip::Held { time })
    }

    /// The first position that isn't played yet.
    #[inline]
    pub fn mark(&self) -> u64
        ensures { result ≡ (desk_of self.now).mark }
    {
        self.near.mark
    }

    /// Whether windows may be passed: there is a run, and calls can still be counted.
    #[inline]
    fn can_pass(&self) -> bool
        ensures started { IsTrue result → IsSome (desk_of self.now).top }
        ensures calls { IsTrue result → (desk_of self.now).calls < call_limit }
    {
        self.near.top.is_some() && self.near.calls < CALL_LIMIT
    }

    // Whether a word was received a window past the mark. Else no window can be passed but one that is due.
    fn reaches_far(&self) -> bool {
        match self.near.top {
            Some((top, _, _)) => {
                top >= self.near.mark && top - self.near.mark >= u64::from(self.seat.window)
            }
            None => false,
        }
    }

    // Passes such windows, always in a turn.
    fn pass(&mut self, wait: &impl Wait, board: &Board, which: Skip) -> u64
        requires board { self.old.seat.turn ≡ board.now.name }
        requires started { IsSome (desk_of self.old).top }
        requires calls { (desk_of self.old).calls < call_limit }
        requires limited { IsSome (time_of which) → (desk_of self.old).playout.hold ≢ 0 }
        ensures call { MakesCall (skip (time_of which) result) self.old self.new }
        ensures plays { ArePlayed which (desk_of self.old)
            (empty_plays result (desk_of self.old).playout.window (desk_of self.old).mark) (desk_of self.new) }
    {
        let mut flow = self.seat.enter(wait, board, &mut self.spare);
        let count = flow.skip(which);
        self.near = self.near.after_windows(&flow, count);
        self.seat.leave(board, flow, Made::Skip(which, count));
        count
    }
}
