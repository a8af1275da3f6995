//! Which lines a play leaves alive, and the others dropped.

ghost use Rattle.std.specs.Prelude.{◌≡◌, ◌≢◌, ◌+◌, ◌↔◌, ◌<◌, ◌≤◌, ℕ, true, false, not, length, Some, None, IsTrue, IsSome, IfSome, IfNone};
ghost use Rattle.std.specs.FinMap.{get};
ghost use Rattle.slab.specs.Slab as slabs;
ghost use Rattle.std.specs.List.{Contains};
ghost use Rattle.fg_shape.specs.Shape.{slots_of, IsShape, position_limit};
ghost use Rattle.fg_peel.specs.declared.Line.{Line as LiveLine};
ghost use Rattle.fg_peel.specs.Slots.{equation_of};
ghost use Rattle.fg_peel.specs.Live.{last_slot, Survives};
ghost use Rattle.fg_buffer.specs.Watches.{first_of, Closes};
ghost use Rattle.fg_buffer.specs.LiveEquations.{IsLost};
ghost use Rattle.fg_buffer.specs.LiveInside.{Holds, Stands, IsKeyed, AreWithin, IsBased, Drops};

use crate::line_slab::{end_of, key_at};
use crate::places::Places;
use crate::playout_buffer::PlayoutBuffer;
use crate::spares::Spares;
use crate::watches::Watches;
use fg_peel::Line;
use fg_shape::{Shape, last, slot};
use slab::Slab;

/// Drops those lines that do not survive a play up to the buffer's mark, and frees their places. Their
/// parities become spares. `based` tells that the words below the mark are kept at the slots of all.
fn drop_lines(
    lines: &mut Slab<Line>,
    places: &mut Places,
    spares: &mut Spares,
    buffer: &PlayoutBuffer,
    based: bool,
)
    requires within { AreWithin lines.old }
    requires places { length places.old ≡ 512 }
    requires based { IsTrue based → (line : LiveLine) → Holds lines.old line
        → IsBased buffer.now.mark buffer.now.kept (equation_of line) }
    ensures { Drops (λ line. Survives buffer.now.mark buffer.now.kept (equation_of line))
        lines.old lines.new places.old places.new }
{
    for key in 0..end_of(lines) {
        if let Some(place) = retired_place(lines, key, buffer, based) {
            spares.keep(lines.remove(key).parity);
            places.release(place as usize);
        }
    }
}

/// Drops those lines whose first watched position lies before the mark, and frees their places.
pub(crate) fn drop_closed(
    lines: &mut Slab<Line>,
    keys: &[usize],
    places: &mut Places,
    spares: &mut Spares,
    watches: &mut Watches,
    mark: u64,
)
    requires within { AreWithin lines.old }
    requires keyed { IsKeyed keys.now lines.old }
    requires places { length places.old ≡ 512 }
    ensures drops { Drops (λ line. mark ≤ first_of watches.old line.place)
        lines.old lines.new places.old places.new }
    ensures closes { Closes mark watches.old watches.new }
{
    let mut from = 0;
    while let Some(place) = watches.closed(mark, from) {
        drop_at(lines, keys, places, spares, place);
        watches.leave(place);
        from = place + 1;
    }
    watches.renew(mark);
}

/// Drops the line at this place, where there is one, and frees the place. Its parity becomes a spare.
fn drop_at(
    lines: &mut Slab<Line>,
    keys: &[usize],
    places: &mut Places,
    spares: &mut Spares,
    place: u32,
)
    requires within { AreWithin lines.old }
    requires keyed { IsKeyed keys.now lines.old }
    requires places { length places.old ≡ 512 }
    ensures { Drops (λ line. line.place ≢ place) lines.old lines.new places.old places.new }
{
    if let Some(key) = key_at(lines, keys, place) {
        spares.keep(lines.remove(key).parity);
        places.release(place as usize);
    }
}

/// Drops those settled lines that do not survive a play up to the buffer's mark, and frees their places.
/// No last slot lies before `earliest`, and where the mark doesn't either, all survive.
pub(crate) fn drop_settled(
    lines: &mut Slab<Line>,
    places: &mut Places,
    spares: &mut Spares,
    buffer: &PlayoutBuffer,
    earliest: u64,
)
    requires within { AreWithin lines.old }
    requires places { length places.old ≡ 512 }
    requires based { (line : LiveLine) → Holds lines.old line
        → IsBased buffer.now.mark buffer.now.kept (equation_of line) }
    requires earliest { (line : LiveLine) → Holds lines.old line
        → earliest ≤ last_slot (equation_of line) }
    ensures { Drops (λ line. Survives buffer.now.mark buffer.now.kept (equation_of line))
        lines.old lines.new places.old places.new }
{
    if buffer.mark() <= earliest {
        return;
    }
    drop_lines(lines, places, spares, buffer, true);
}

/// A position before which no line's last slot lies. It is sought anew where the mark has passed the
/// one before, and there are settled lines, for which alone it is asked.
pub(crate) fn earliest_after(
    unsettled: &Slab<Line>,
    settled: &Slab<Line>,
    earliest: u64,
    mark: u64,
) -> u64
    requires unsettled { AreWithin unsettled.now }
    requires settled { AreWithin settled.now }
    requires earliest { (line : LiveLine) → Stands unsettled.now settled.now line
        → earliest ≤ last_slot (equation_of line) }
    ensures { (line : LiveLine) → Stands unsettled.now settled.now line
        → result ≤ last_slot (equation_of line) }
{
    if mark <= earliest || settled.is_empty() {
        return earliest;
    }
    let least = least_last(unsettled, u64::MAX);
    least_last(settled, least)
}

/// The least of a position and the lines' last slots.
fn least_last(lines: &Slab<Line>, most: u64) -> u64
    requires { AreWithin lines.now }
    ensures most { result ≤ most }
    ensures least { (line : LiveLine) → Holds lines.now line → result ≤ last_slot (equation_of line) }
{
    let mut least = most;
    for (_, line) in lines.iter() {
        least = least.min(last(line.base, line.shape));
    }
    least
}

/// The place of the line under a key, where it does not survive.
fn retired_place(lines: &Slab<Line>, key: usize, buffer: &PlayoutBuffer, based: bool) -> Option<u32>
    requires within { AreWithin lines.now }
    requires based { IsTrue based → (line : LiveLine) → Holds lines.now line
        → IsBased buffer.now.mark buffer.now.kept (equation_of line) }
    ensures some { IfSome result (λ place. (line : LiveLine) × (slabs.get lines.now key ≡ Some line)
        × (line.place ≡ place) × ¬ Survives buffer.now.mark buffer.now.kept (equation_of line)) }
    ensures none { IfNone result ((line : LiveLine) → slabs.get lines.now key ≡ Some line
        → Survives buffer.now.mark buffer.now.kept (equation_of line)) }
{
    match lines.get(key) {
        Some(line) => {
            if survives(line, buffer, based) {
                None
            } else {
                Some(line.place)
            }
        }
        None => None,
    }
}

/// Whether a line survives a play up to the buffer's mark. `based` tells that the words below the mark are
/// kept at its slots.
fn survives(line: &Line, buffer: &PlayoutBuffer, based: bool) -> bool
    requires shape { IsShape line.now.shape.offset line.now.shape.na }
    requires base { line.now.base ≤ position_limit }
    requires based { IsTrue based → IsBased buffer.now.mark buffer.now.kept (equation_of line.now) }
    ensures { IsTrue result ↔ Survives buffer.now.mark buffer.now.kept (equation_of line.now) }
{
    if last(line.base, line.shape) < buffer.mark() {
        return false;
    }
    based || lost_slot(line.base, line.shape, buffer).is_none()
}

/// A slot below the buffer's mark of the equation with this base whose word isn't kept.
pub fn lost_slot(base: u64, shape: Shape, buffer: &PlayoutBuffer) -> Option<u64>
    requires shape { IsShape shape.offset shape.na }
    requires base { base ≤ position_limit }
    ensures some { IfSome result (IsLost buffer.now.mark buffer.now.kept base shape.offset shape.na) }
    ensures none { IfNone result ((slot : ℕ) → Contains (slots_of base shape.offset shape.na) slot
        → slot < buffer.now.mark → IsSome (get buffer.now.kept slot)) }
{
    let mark = buffer.mark();
    if base >= mark {
        return None;
    }
    for j in 0..shape.na {
        let position = slot(base, shape, j);
        if position < mark && buffer.word(position).is_none() {
            return Some(position);
        }
    }
    None
}
