//! Windows that show nothing, passed at once on a desk where no equation is live.

ghost use Rattle.std.specs.Prelude.{◌≡◌, ◌≢◌, ◌+◌, ◌<◌, ◌≤◌, ◌^◌, None, Some, IsSome};
ghost use Rattle.fg_playout.specs.Laws.{HavePlayed, AreFlushSteps, AreHeldSteps};
ghost use Rattle.fg_playout.specs.Empty.{empty_plays};
ghost use Rattle.fg_playout.specs.Room.{farthest_limit};
ghost use Rattle.fg_desk.specs.Contents.{ChangesInPlay};
ghost use Rattle.fg_core.specs.Skipping.{Passes, ArePlayed, time_of};

use fg_desk::Desk;
use fg_playout::Outcome;

/// Which windows are passed.
#[derive(Clone, Copy)]
pub enum Skip {
    /// Those that are due before a media datagram of this sequence number and SSRC.
    Due {
        /// The sequence number.
        seq: u16,
        /// The SSRC.
        ssrc: u32,
    },
    /// Those that are steps of a flush.
    Rest,
    /// Those that are held plays at a time, in microseconds, which the desk is told where there are any.
    Held {
        /// The time.
        time: u64,
    },
}

/// The windows that are passed so.
pub(crate) fn pass_windows(desk: &mut Desk, which: Skip) -> u64
    requires limited { IsSome (time_of which) → desk.old.state.playout.hold ≢ 0 }
    ensures plays { ArePlayed which desk.old.state
        (empty_plays result desk.old.state.playout.window desk.old.state.mark) desk.new.state }
    ensures passes { Passes (time_of which) result desk.old.state desk.new.state }
    ensures none { result ≡ 0 → desk.new ≡ desk.old }
    ensures changes { result ≢ 0 → ChangesInPlay Outcome.Repaired desk.old desk.new }
{
    match which {
        Skip::Due { seq, ssrc } => skip_due(desk, seq, ssrc),
        Skip::Rest => skip_rest(desk),
        Skip::Held { time } => skip_held(desk, time),
    }
}

/// The windows that are due before a media datagram of this sequence number and SSRC.
fn skip_due(desk: &mut Desk, seq: u16, ssrc: u32) -> u64
    ensures plays { HavePlayed desk.old.state seq ssrc
        (empty_plays result desk.old.state.playout.window desk.old.state.mark) desk.new.state }
    ensures passes { Passes None result desk.old.state desk.new.state }
    ensures none { result ≡ 0 → desk.new ≡ desk.old }
    ensures changes { result ≢ 0 → ChangesInPlay Outcome.Repaired desk.old desk.new }
{
    if desk.live() > 0 {
        return 0;
    }
    desk.skip_due(seq, ssrc)
}

/// Those that are steps of a flush.
fn skip_rest(desk: &mut Desk) -> u64
    ensures plays { AreFlushSteps desk.old.state
        (empty_plays result desk.old.state.playout.window desk.old.state.mark) desk.new.state }
    ensures passes { Passes None result desk.old.state desk.new.state }
    ensures none { result ≡ 0 → desk.new ≡ desk.old }
    ensures changes { result ≢ 0 → ChangesInPlay Outcome.Repaired desk.old desk.new }
{
    if desk.live() > 0 {
        return 0;
    }
    desk.skip_rest()
}

/// Those that are held plays at a time.
fn skip_held(desk: &mut Desk, time: u64) -> u64
    requires limited { desk.old.state.playout.hold ≢ 0 }
    ensures plays { AreHeldSteps desk.old.state time
        (empty_plays result desk.old.state.playout.window desk.old.state.mark) desk.new.state }
    ensures passes { Passes (Some time) result desk.old.state desk.new.state }
    ensures none { result ≡ 0 → desk.new ≡ desk.old }
    ensures changes { result ≢ 0 → ChangesInPlay Outcome.Repaired desk.old desk.new }
{
    if desk.live() > 0 {
        return 0;
    }
    desk.skip_held(time)
}
