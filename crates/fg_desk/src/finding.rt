//! How the words that follow are found: lines are looked at until none has to be.

ghost use Rattle.std.specs.Prelude.{◌≡◌, ◌⊎◌, ◌<◌, ◌&&◌, ℕ};
ghost use Rattle.fg_peel.specs.Equation.{IsSettled};
ghost use Rattle.fg_buffer.specs.PlayoutBuffer.{buffer_words};
ghost use Rattle.fg_desk.specs.Storage.{AreInBuffer, EachSettled};
ghost use Rattle.fg_desk.specs.Watched.{EachWatched, NoneIsQueued, HaveRooms, Finds, IsNear, Follows, IsVisit, IsPassed};

use fg_buffer::{LiveEquations, PlayoutBuffer, Watches};
use fg_peel::Look;
use fg_peel::laws::peelings_fill_the_closure;
use fg_words::laws::xor_is_a_group;

/// Looks at lines until none has to be looked at, as at most plays none has. It tells whether each word that was
/// found is a media word, and each complete line comes out.
#[inline]
pub(crate) fn look_at_queued(
    buffer: &mut PlayoutBuffer,
    lines: &mut LiveEquations,
    watches: &mut Watches,
) -> bool
    requires within { AreInBuffer buffer.old lines.old }
    requires rooms { HaveRooms lines.old }
    requires settled { EachSettled lines.old (IsSettled (buffer_words buffer.old)) }
    requires watched { EachWatched watches.old (buffer_words buffer.old) lines.old }
    ensures finds { Finds buffer.old lines.old buffer.new lines.new watches.new result }
    ensures idle { NoneIsQueued watches.new }
{
    if watches.is_idle() {
        return true;
    }
    look_at_all(buffer, lines, watches)
}

/// Looks at one line after the other.
#[inline(never)]
fn look_at_all(buffer: &mut PlayoutBuffer, lines: &mut LiveEquations, watches: &mut Watches) -> bool
    requires within { AreInBuffer buffer.old lines.old }
    requires rooms { HaveRooms lines.old }
    requires settled { EachSettled lines.old (IsSettled (buffer_words buffer.old)) }
    requires watched { EachWatched watches.old (buffer_words buffer.old) lines.old }
    ensures finds { Finds buffer.old lines.old buffer.new lines.new watches.new result }
    ensures idle { NoneIsQueued watches.new }
{
    peelings_fill_the_closure();
    xor_is_a_group();
    let mut sound = true;
    while let Some(place) = watches.next() {
        sound = both(visit(buffer, lines, watches, place), sound);
    }
    sound
}

/// Whether both hold.
fn both(one: bool, other: bool) -> bool
    ensures { result ≡ (one && other) }
{
    one && other
}

/// Looks at the line of a place, where an open one has it. It tells whether the word that was found is a media
/// word, and the line comes out if it is complete.
fn visit(
    buffer: &mut PlayoutBuffer,
    lines: &mut LiveEquations,
    watches: &mut Watches,
    place: u32,
) -> bool
    requires within { AreInBuffer buffer.old lines.old }
    requires place { place < 512 }
    ensures { IsPassed place buffer.old lines.old watches.old buffer.new lines.new watches.new result
        ⊎ IsVisit place buffer.old lines.old watches.old buffer.new lines.new watches.new result }
{
    let Some(line) = lines.open_at(place) else {
        return true;
    };
    let look = buffer.look(line);
    follow(look, place, lines, watches)
}

/// What follows from a look at the line of a place: a line that comes out is settled, and of one that misses
/// two words the first two slots without one are watched.
fn follow(look: Look, place: u32, lines: &mut LiveEquations, watches: &mut Watches) -> bool
    requires place { place < 512 }
    requires near { IsNear look }
    ensures { Follows look place lines.old watches.old lines.new watches.new result }
{
    match look {
        Look::Several(first, second) => {
            watches.watch(place, first, second);
            true
        }
        Look::Found(position, media) => {
            lines.settle_at(place);
            watches.leave(place);
            watches.wake(position);
            media
        }
        Look::Complete(sound) => {
            watches.leave(place);
            if sound {
                lines.settle_at(place);
            }
            sound
        }
    }
}
