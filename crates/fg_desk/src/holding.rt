//! Which received words wait, and since when.

ghost use Rattle.std.specs.Prelude.{◌<◌, ◌^◌};
ghost use Rattle.fg_desk.specs.Holding.{Notes, Moves, Tells, Foretells};

use fg_hold::Waiting;

/// A word comes at a position. Where words may wait for ever nothing is noted.
#[inline]
pub(crate) fn note(waiting: &mut Waiting, position: u64)
    requires { position < 2 ^ 62 }
    ensures { Notes waiting.old position waiting.new }
{
    if waiting.hold() > 0 {
        waiting.put(position);
    }
}

/// The mark moves on. Where words may wait for ever nothing was noted.
#[inline]
pub(crate) fn move_on(waiting: &mut Waiting, mark: u64)
    ensures { Moves waiting.old mark waiting.new }
{
    if waiting.hold() > 0 {
        waiting.advance(mark);
    }
}

/// Tells a time, and answers the greatest position whose word has waited for as long as one may, or longer.
#[inline]
pub(crate) fn tell(waiting: &mut Waiting, time: u64, mark: u64) -> Option<u64>
    requires { 0 < waiting.old.hold }
    ensures { Tells waiting.old time mark result waiting.new }
{
    waiting.pass_time(time, mark)
}

/// The greatest position whose word will have waited for as long as one may, or longer, once this time is
/// told. None where words may wait for ever.
#[inline]
pub(crate) fn held_by(waiting: &Waiting, time: u64, mark: u64) -> Option<u64>
    ensures { Foretells waiting.now time mark result }
{
    if waiting.hold() > 0 {
        waiting.held_by(time, mark)
    } else {
        None
    }
}
