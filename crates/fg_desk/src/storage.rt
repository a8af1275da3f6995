//! What the buffer and the live equations do together.

ghost use Rattle.std.specs.Prelude.{◌≡◌, ◌+◌, ◌<◌, ◌≤◌, ◌^◌, ◌↔◌, false, None, IsTrue};
ghost use Rattle.std.specs.FinMap.{get};
ghost use Rattle.fg_words.specs.Word.{HasRoom};
ghost use Rattle.fg_shape.specs.Shape.{position_limit};
ghost use Rattle.fg_peel.specs.Equation.{IsComplete};
ghost use Rattle.fg_playout.specs.declared.reply.Outcome.{Outcome as OutcomeValue};
ghost use Rattle.fg_buffer.specs.PlayoutBuffer.{BufferState, buffer_words, receives, publishes, Advances};
ghost use Rattle.fg_buffer.specs.LiveEquations.{no_equations, Reopens};
ghost use Rattle.fg_buffer.specs.Watches.{nowhere};
ghost use Rattle.fg_desk.specs.Storage.{AreInBuffer, EachSettled, Keeps, Closes, MakesWay, IsOther, without_found};
ghost use Rattle.fg_desk.specs.Watched.{EachWatched, NoneIsQueued};

use fg_buffer::{LiveEquations, PlayoutBuffer, Watches};
use fg_playout::Outcome;
use fg_words::{Shared, Word};

/// Plays the first `count` positions. `solved` tells that the buffer's words are a solution.
pub(crate) fn close(
    buffer: &mut PlayoutBuffer,
    lines: &mut LiveEquations,
    watches: &mut Watches,
    solved: bool,
    count: u32,
) -> Outcome
    requires some { 1 ≤ count }
    requires near { count ≤ buffer.old.reach }
    requires limit { buffer.old.mark + count + buffer.old.reach + 100 ≤ position_limit }
    requires within { AreInBuffer buffer.old lines.old }
    requires settled { EachSettled lines.old (IsComplete (buffer_words buffer.old)) }
    requires watched { EachWatched watches.old (buffer_words buffer.old) lines.old }
    requires idle { IsTrue solved → NoneIsQueued watches.old }
    ensures closes { Closes result count buffer.old lines.old buffer.new lines.new }
    ensures outcome { (result ≡ Outcome.Repaired) ↔ IsTrue solved }
    ensures watched { EachWatched watches.new (buffer_words buffer.new) lines.new }
{
    if solved {
        close_repaired(buffer, lines, watches, count);
        Outcome::Repaired
    } else {
        watches.clear();
        close_received(buffer, lines, count);
        Outcome::Inconsistent
    }
}

/// Plays the buffer's words at the first `count` positions. Those equations stay live that survive: an open
/// one misses the word at its first watched slot, and has those before it.
fn close_repaired(
    buffer: &mut PlayoutBuffer,
    lines: &mut LiveEquations,
    watches: &mut Watches,
    count: u32,
)
    requires some { 1 ≤ count }
    requires near { count ≤ buffer.old.reach }
    requires limit { buffer.old.mark + count + buffer.old.reach + 100 ≤ position_limit }
    requires within { AreInBuffer buffer.old lines.old }
    requires settled { EachSettled lines.old (IsComplete (buffer_words buffer.old)) }
    requires watched { EachWatched watches.old (buffer_words buffer.old) lines.old }
    requires idle { NoneIsQueued watches.old }
    ensures advances { Advances count buffer.old buffer.new }
    ensures lines { Keeps (buffer_words buffer.old) buffer.new.mark buffer.new.kept lines.old lines.new }
    ensures watched { EachWatched watches.new (buffer_words buffer.new) lines.new }
{
    buffer.advance(count);
    lines.retire(watches, buffer);
}

/// Plays the received words at the first `count` positions. No equation stays live.
fn close_received(buffer: &mut PlayoutBuffer, lines: &mut LiveEquations, count: u32)
    requires some { 1 ≤ count }
    requires near { count ≤ buffer.old.reach }
    requires limit { buffer.old.mark + count + buffer.old.reach + 100 ≤ position_limit }
    ensures advances { Advances count (without_found buffer.old) buffer.new }
    ensures lines { lines.new ≡ no_equations }
{
    buffer.forget_found();
    lines.clear();
    buffer.advance(count);
}

/// Takes a received word in at a position, and tells whether the solved words were withdrawn.
pub(crate) fn receive(
    buffer: &mut PlayoutBuffer,
    lines: &mut LiveEquations,
    watches: &mut Watches,
    position: u64,
    share: Shared,
) -> bool
    requires ahead { buffer.old.mark ≤ position }
    requires near { position < buffer.old.mark + buffer.old.reach }
    requires none { get buffer.old.media position ≡ None }
    requires limit { position < nowhere }
    requires watched { EachWatched watches.old (buffer_words buffer.old) lines.old }
    ensures receives { (between : BufferState)
        × MakesWay result position share buffer.old between lines.old lines.new
        × (buffer.new ≡ receives between position share) }
    ensures watched { EachWatched watches.new (buffer_words buffer.new) lines.new }
{
    let withdrawn = make_way(buffer, lines, watches, position, share.word());
    buffer.put_media(position, share);
    watches.wake(position);
    withdrawn
}

/// Takes the first word of a run in at the mark. The equations of the run before leave.
pub(crate) fn begin(buffer: &mut PlayoutBuffer, equations: &mut LiveEquations, share: Shared)
    requires some { 1 ≤ buffer.old.reach }
    ensures buffer { buffer.new ≡ receives buffer.old buffer.old.mark share }
    ensures equations { equations.new ≡ no_equations }
{
    let mark = buffer.mark();
    equations.clear();
    buffer.put_media(mark, share);
}

/// Takes a solved word in at a position where none is known.
pub(crate) fn publish(
    buffer: &mut PlayoutBuffer,
    lines: &mut LiveEquations,
    watches: &mut Watches,
    position: u64,
    share: Shared,
)
    requires ahead { buffer.old.mark ≤ position }
    requires near { position < buffer.old.mark + buffer.old.reach }
    requires none { get buffer.old.media position ≡ None }
    requires unsolved { get buffer.old.solved position ≡ None }
    requires limit { position < nowhere }
    requires watched { EachWatched watches.old (buffer_words buffer.old) lines.old }
    ensures room { HasRoom share }
    ensures publishes { (between : BufferState)
        × MakesWay false position share buffer.old between lines.old lines.new
        × (buffer.new ≡ publishes between position share) }
    ensures watched { EachWatched watches.new (buffer_words buffer.new) lines.new }
{
    make_way(buffer, lines, watches, position, share.word());
    buffer.put_solved(position, share);
    watches.wake(position);
}

/// Makes way for a word at a position. Where another word was found there ahead of its play, nothing
/// that was found is right any more. Where another one was solved, nor is anything that was solved, and
/// this tells so.
fn make_way(
    buffer: &mut PlayoutBuffer,
    lines: &mut LiveEquations,
    watches: &mut Watches,
    position: u64,
    word: &Word,
) -> bool
    requires ahead { buffer.old.mark ≤ position }
    requires none { get buffer.old.media position ≡ None }
    requires watched { EachWatched watches.old (buffer_words buffer.old) lines.old }
    ensures way { MakesWay result position word.now buffer.old buffer.new lines.old lines.new }
    ensures watched { EachWatched watches.new (buffer_words buffer.new) lines.new }
{
    if !is_other(buffer, position, word) {
        return false;
    }
    if buffer.solved(position).is_some() {
        buffer.forget_found();
        open_all(lines, watches, buffer);
        return true;
    }
    buffer.forget_cached();
    open_all(lines, watches, buffer);
    false
}

/// Opens each settled line that is no more complete in the buffer. All lines have to be looked at then.
fn open_all(lines: &mut LiveEquations, watches: &mut Watches, buffer: &PlayoutBuffer)
    ensures lines { Reopens (buffer_words buffer.now) lines.old lines.new }
    ensures watched { EachWatched watches.new (buffer_words buffer.now) lines.new }
{
    lines.reopen(buffer);
    watches.add_all();
}

/// Whether the buffer has another word at a position.
fn is_other(buffer: &PlayoutBuffer, position: u64, word: &Word) -> bool
    ensures { IsOther (buffer_words buffer.now position) word.now result }
{
    match buffer.any_word(position) {
        Some(found) => !found.same(word),
        None => false,
    }
}
