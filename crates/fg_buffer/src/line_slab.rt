//! Lines looked up in a slab, by base and shape or by place.

ghost use Rattle.std.specs.Prelude.{◌≡◌, ◌+◌, ◌<◌, ℕ, slice_index_or, Some, None, IfSome, IfNone};
ghost use Rattle.slab.specs.Slab as slabs;
ghost use Rattle.fg_peel.specs.declared.Line.{Line as LiveLine};
ghost use Rattle.fg_peel.specs.Slots.{equation_of};
ghost use Rattle.fg_peel.specs.Live.{HasSlots};
ghost use Rattle.fg_buffer.specs.LiveInside.{Holds, IsKeyed, AreWithin};

use fg_peel::Line;
use fg_shape::Shape;
use slab::Slab;

/// The line of this base and shape.
pub(crate) fn find_in(lines: &Slab<Line>, base: u64, shape: Shape) -> Option<&Line>
    ensures some { IfSome result (λ line. Holds lines.now line.now
        × HasSlots base shape.offset shape.na (equation_of line.now)) }
    ensures none { IfNone result ((line : LiveLine) → Holds lines.now line
        → ¬ HasSlots base shape.offset shape.na (equation_of line)) }
{
    for (_, line) in lines.iter() {
        if line.base == base && line.shape.offset == shape.offset && line.shape.na == shape.na {
            return Some(line);
        }
    }
    None
}

/// The line at this place, where `keys` tells the key of each place's line.
pub(crate) fn find_place<'a>(lines: &'a Slab<Line>, keys: &[usize], place: u32) -> Option<&'a Line>
    requires within { AreWithin lines.now }
    requires keyed { IsKeyed keys.now lines.now }
    ensures some { IfSome result (λ line. Holds lines.now line.now × (line.now.place ≡ place)) }
    ensures none { IfNone result ((line : LiveLine) → Holds lines.now line
        → ¬ (line.place ≡ place)) }
{
    match key_at(lines, keys, place) {
        Some(key) => lines.get(key),
        None => None,
    }
}

/// The key of the line at this place, where `keys` tells the key of each place's line.
pub(crate) fn key_at(lines: &Slab<Line>, keys: &[usize], place: u32) -> Option<usize>
    requires within { AreWithin lines.now }
    requires keyed { IsKeyed keys.now lines.now }
    ensures some { IfSome result (λ key. (line : LiveLine) × (slabs.get lines.now key ≡ Some line)
        × (line.place ≡ place)) }
    ensures none { IfNone result ((line : LiveLine) → Holds lines.now line
        → ¬ (line.place ≡ place)) }
{
    let key = told_key(keys, place);
    match lines.get(key) {
        Some(line) if line.place == place => Some(key),
        _ => None,
    }
}

/// The key that is told for a place, or 0 past all of them.
fn told_key(keys: &[usize], place: u32) -> usize
    ensures { result ≡ slice_index_or keys.now place 0 }
{
    match keys.get(place as usize) {
        Some(key) => *key,
        None => 0,
    }
}

/// A key past those of all lines: a pass over the keys needn't go farther.
pub(crate) fn end_of(lines: &Slab<Line>) -> usize
    ensures { (key : ℕ) (line : LiveLine) → slabs.get lines.now key ≡ Some line → key < result }
{
    if lines.is_empty() {
        return 0;
    }
    match lines.iter().next_back() {
        Some((key, _)) => {
            prove!(key < lines.capacity());
            key + 1
        }
        None => 0,
    }
}
