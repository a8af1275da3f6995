//! What every play does: it finds what follows, and closes the first positions by that.

ghost use Rattle.std.specs.Prelude.{◌+◌, ◌≤◌, ◌<◌, ◌-◌, ◌≡◌, ◌^◌, ◌⊎◌, ℕ, false, min, IsTrue};
ghost use Rattle.std.specs.FinMap.{get};
ghost use Rattle.fg_shape.specs.Shape.{position_limit};
ghost use Rattle.fg_peel.specs.Equation.{AreMedia, IsComplete, IsSettled};
ghost use Rattle.fg_playout.specs.Room.{call_limit};
ghost use Rattle.fg_buffer.specs.PlayoutBuffer.{IsBuffer, buffer_received, buffer_words};
ghost use Rattle.fg_buffer.specs.Watches.{IsQueued};
ghost use Rattle.fg_desk.specs.Closing.{PlayLaws, ClosesFirst};
ghost use Rattle.fg_desk.specs.Contents.{epoch_after};
ghost use Rattle.fg_desk.specs.Storage.{equations_in, AreInBuffer, EachSettled, IsRecovered};
ghost use Rattle.fg_desk.specs.Watched.{EachWatched, NoneIsQueued, HaveRooms};

use crate::desk::Played;
use crate::finding::look_at_queued;
use crate::holding::move_on;
use crate::storage::close;
use fg_buffer::{LiveEquations, PlayoutBuffer, Watches};
use fg_hold::Waiting;
use fg_peel::laws::{
    confluence, found_words_may_be_known, maximal_peelings_are_tested, peelings_fill_the_closure,
};
use fg_playout::Outcome;
use fg_playout::laws::solved_stays_peeled;

/// Finds each word that follows, and tells whether the buffer's words are then a solution. What was found is
/// the end of a peeling, so it is the closure and, where there is one, the solution; and it stays one past the
/// play. Lines that come out are settled.
#[inline]
pub(crate) fn find(
    buffer: &mut PlayoutBuffer,
    lines: &mut LiveEquations,
    watches: &mut Watches,
) -> bool
    requires within { AreInBuffer buffer.old lines.old }
    requires received { AreMedia (buffer_received buffer.old) }
    requires cached { AreMedia (get buffer.old.cached) }
    requires rooms { HaveRooms lines.old }
    requires settled { EachSettled lines.old (IsSettled (buffer_words buffer.old)) }
    requires watched { EachWatched watches.old (buffer_words buffer.old) lines.old }
    ensures found { IsRecovered (equations_in lines.old) buffer.old buffer.new result }
    ensures live { lines.new.live ≡ lines.old.live }
    ensures settled { EachSettled lines.new (IsSettled (buffer_words buffer.new)) }
    ensures watched { EachWatched watches.new (buffer_words buffer.new) lines.new }
    ensures idle { IsTrue result → NoneIsQueued watches.new }
    ensures laws { PlayLaws }
{
    found_words_may_be_known();
    peelings_fill_the_closure();
    solved_stays_peeled();
    maximal_peelings_are_tested();
    confluence();
    let sound = look_at_queued(buffer, lines, watches);
    let solved = is_solution(buffer, sound);
    queue_unless(watches, solved);
    solved
}

/// Whether the found words are a solution: all solved ones are media words, too.
fn is_solution(buffer: &PlayoutBuffer, sound: bool) -> bool
    ensures yes { IsTrue result → IsTrue sound × AreMedia (get buffer.now.solved) }
    ensures no { result ≡ false → (sound ≡ false) ⊎ ¬ AreMedia (get buffer.now.solved) }
    ensures facts { IsBuffer buffer.now }
{
    let _mark = buffer.mark();
    sound && buffer.are_media()
}

/// All lines have to be looked at again where there is no solution.
fn queue_unless(watches: &mut Watches, solved: bool)
    ensures same { IsTrue solved → watches.new ≡ watches.old }
    ensures all { solved ≡ false → (place : ℕ) → place < 512 → IsQueued watches.new place }
{
    if !solved {
        watches.add_all();
    }
}

/// Plays the first `count` positions by what was found. Their words wait no longer, and an inconsistent play
/// raises the epoch.
#[inline]
pub(crate) fn close_first(
    buffer: &mut PlayoutBuffer,
    lines: &mut LiveEquations,
    watches: &mut Watches,
    waiting: &mut Waiting,
    epoch: &mut u64,
    solved: bool,
    count: u32,
) -> Played
    requires some { 1 ≤ count }
    requires near { count ≤ buffer.old.reach }
    requires limit { buffer.old.mark + count + buffer.old.reach + 100 ≤ position_limit }
    requires within { AreInBuffer buffer.old lines.old }
    requires settled { EachSettled lines.old (IsComplete (buffer_words buffer.old)) }
    requires watched { EachWatched watches.old (buffer_words buffer.old) lines.old }
    requires idle { IsTrue solved → NoneIsQueued watches.old }
    requires epoch { epoch.old ≤ call_limit }
    ensures closes { ClosesFirst solved count buffer.old lines.old waiting.old epoch.old result
        buffer.new lines.new waiting.new epoch.new }
    ensures watched { EachWatched watches.new (buffer_words buffer.new) lines.new }
{
    let first = buffer.mark();
    let verdict = close(buffer, lines, watches, solved, count);
    move_on(waiting, buffer.mark());
    *epoch = next_epoch(*epoch, verdict);
    Played {
        first,
        count,
        verdict,
    }
}

/// How many positions a play from the mark on closes that goes up to a last one: a window at most.
#[inline]
pub(crate) fn count_to(window: u32, mark: u64, last: u64) -> u32
    requires ahead { mark ≤ last }
    requires limit { last < 2 ^ 62 }
    ensures { result ≡ min window (last + 1 - mark) }
{
    u64::from(window).min(last + 1 - mark) as u32
}

/// The epoch after a play.
fn next_epoch(epoch: u64, verdict: Outcome) -> u64
    requires { epoch ≤ call_limit }
    ensures { result ≡ epoch_after epoch verdict }
{
    match verdict {
        Outcome::Repaired => epoch,
        Outcome::Inconsistent => epoch + 1,
    }
}
