//! Windows of a desk that show nothing, passed at once.

ghost use Rattle.std.specs.Prelude.{◌≡◌, ◌≢◌, ◌+◌, ◌-◌, ◌<◌, ◌≤◌, Option, Some, None, IsSome, IfSome};
ghost use Rattle.std.specs.FinMap.{get};
ghost use Rattle.fg_shape.specs.Shape.{position_limit};
ghost use Rattle.fg_desk.specs.Contents.{ChangesInPlay};
ghost use Rattle.fg_playout.specs.Laws.{HavePlayed, AreFlushSteps, AreHeldSteps};
ghost use Rattle.fg_playout.specs.Empty.{empty_plays};
ghost use Rattle.fg_desk.specs.Skipping.{LiesAt, SkipsTo};

use crate::desk::Desk;
use crate::skipping::skip_windows;
use fg_playout::laws::empty_windows;
use fg_playout::{CALL_LIMIT, Outcome};
use fg_unwrap::position;

impl Desk {
    /// Plays at once so many of the next windows as show nothing and are due before a media datagram of this sequence number and
    /// SSRC, and answers how many. For 0 nothing changes. It may leave some of them, or all, to be played one by one.
    pub fn skip_due(&mut self, seq: u16, ssrc: u32) -> u64
        ensures plays { HavePlayed self.old.state seq ssrc
            (empty_plays result self.old.state.playout.window self.old.state.mark) self.new.state }
        ensures none { result ≡ 0 → self.new ≡ self.old }
        ensures changes { result ≢ 0 → ChangesInPlay Outcome.Repaired self.old self.new }
    {
        empty_windows();
        let Some(position) = self.position_due(seq, ssrc) else {
            return 0;
        };
        self.skip_to(position - u64::from(self.depth()) + u64::from(self.window()))
    }

    /// Plays at once so many of the next windows as show nothing and are steps of a flush, and answers how many. For 0 nothing
    /// changes. It may leave some of them, or all, to be played one by one.
    pub fn skip_rest(&mut self) -> u64
        ensures plays { AreFlushSteps self.old.state
            (empty_plays result self.old.state.playout.window self.old.state.mark) self.new.state }
        ensures none { result ≡ 0 → self.new ≡ self.old }
        ensures changes { result ≢ 0 → ChangesInPlay Outcome.Repaired self.old self.new }
    {
        empty_windows();
        let Some(highest) = self.highest_received() else {
            return 0;
        };
        self.skip_to(highest)
    }

    /// Plays at once so many of the next windows as show nothing and are held plays at a time, which the desk is then told, and
    /// answers how many. For 0 nothing changes. It may leave some of them, or all, to be played one by one.
    pub fn skip_held(&mut self, time: u64) -> u64
        requires limited { self.old.state.playout.hold ≢ 0 }
        ensures plays { AreHeldSteps self.old.state time
            (empty_plays result self.old.state.playout.window self.old.state.mark) self.new.state }
        ensures none { result ≡ 0 → self.new ≡ self.old }
        ensures changes { result ≢ 0 → ChangesInPlay Outcome.Repaired self.old self.new }
    {
        empty_windows();
        let Some(greatest) = self.greatest_held(time) else {
            return 0;
        };
        let count = self.skip_to(greatest);
        if count > 0 {
            self.tell(time);
        }
        count
    }

    /// The position of a media datagram of this sequence number and SSRC before which a play is due. None where none is.
    #[inline]
    fn position_due(&self, seq: u16, ssrc: u32) -> Option<u64>
        ensures lies { IfSome result (LiesAt self.now.state seq ssrc) }
        ensures far { IfSome result (λ position. self.now.state.mark + self.now.state.playout.depth ≤ position) }
        ensures limit { IfSome result (λ position. position ≤ position_limit) }
    {
        let Some(top) = self.top else {
            return None;
        };
        if top.ssrc != ssrc {
            return None;
        }
        let due = self.buffer.mark() + u64::from(self.depth);
        match position(top.position, top.seq, seq) {
            Some(position) if position >= due => Some(position),
            _ => None,
        }
    }

    /// The highest position with a word, where that word was received.
    fn highest_received(&self) -> Option<u64>
        ensures { IfSome result (λ highest. IsSome (get self.now.state.media highest)) }
    {
        let Some(highest) = self.buffer.highest() else {
            return None;
        };
        match self.buffer.received(highest) {
            Some(_) => Some(highest),
            None => None,
        }
    }

    /// Moves the mark past the next windows that show nothing, up to a position, where no equation is live. Each counts as a call.
    /// Answers how many, and for 0 nothing changes.
    fn skip_to(&mut self, until: u64) -> u64
        ensures none { result ≡ 0 → self.new ≡ self.old }
        ensures some { result ≢ 0 → SkipsTo until result self.old self.new }
    {
        if self.top.is_none() {
            return 0;
        }
        let most = CALL_LIMIT - self.calls;
        let count = skip_windows(
            &mut self.buffer,
            &self.lines,
            &mut self.waiting,
            self.window,
            until,
            most,
        );
        self.calls += count;
        count
    }
}
