//! Reading a desk: which positions around its mark have words, and the slots of its live equations.
ghost use Rattle.std.specs.Prelude.{◌≡◌, ◌+◌, ◌-◌, ◌<◌, ◌≤◌, ◌^◌, ◌↔◌, ◌⊎◌, ℕ, length, IsSome, Some, None, slice_index_or};
ghost use Rattle.std.specs.List.{Contains};
ghost use Rattle.fg_peel.specs.declared.Line.{Line as LiveLine};
ghost use Rattle.fg_peel.specs.Slots.{lines_of};
ghost use Rattle.fg_playout.specs.State.{known};
ghost use Rattle.fg_playout.specs.Solution.{InClosure};
ghost use Rattle.fg_playout.specs.Facts.{Holds};
ghost use Rattle.fg_closure.specs.declared.search.LineSlots.{LineSlots as Slots};
ghost use Rattle.fg_closure.specs.Flags.{IsFlagged, IsLineAt, AreCopied};
ghost use Rattle.fg_closure.specs.Watched.{EachIsQueued};

use crate::search::LineSlots;
use fg_buffer::Watches;
use fg_desk::Desk;
use fg_peel::Line;
use slab::Slab;

/// Flags the positions at which a desk has a kept or a received word. The flags begin 100 positions before its mark, or
/// at position 0, and `count` of them reach to where its words end.
pub(crate) fn read_words(desk: &Desk, first: u64, count: usize, flags: &mut [bool])
    requires facts { Holds desk.now.state }
    requires first { first ≡ desk.now.state.mark - 100 }
    requires count { count ≡ desk.now.state.mark - first + desk.now.state.playout.depth }
    requires within { count ≤ length flags.old }
    requires limit { first + count < 2 ^ 64 }
    ensures { (position : ℕ) → IsFlagged first flags.new position ↔ IsSome (known desk.now.state position) }
{
    flags.fill(false);
    for k in 0..count {
        flags[k] = desk.own_word(first + k as u64).is_some();
    }
}

/// Flags also those of the positions from number `start` on and before number `count` at which a desk found a word before: so
/// nothing is sought twice.
pub(crate) fn read_found(desk: &Desk, first: u64, start: usize, count: usize, flags: &mut [bool])
    requires within { count ≤ length flags.old }
    requires limit { first + count < 2 ^ 64 }
    ensures kept { (position : ℕ) → IsFlagged first flags.old position → IsFlagged first flags.new position }
    ensures follow { (position : ℕ) → IsFlagged first flags.new position
        → IsFlagged first flags.old position ⊎ InClosure desk.now.state position }
{
    for k in start..count {
        if desk.has_found(first + k as u64) {
            flags[k] = true;
        }
    }
}

/// Copies the slots of a desk's live equations, each to its place, which is queued.
pub(crate) fn read_lines(desk: &Desk, lines: &mut [Option<LineSlots>], watches: &mut Watches)
    requires facts { Holds desk.now.state }
    requires places { length lines.old ≡ 512 }
    ensures lines { (place : ℕ) (line : Slots) → (slice_index_or lines.new place None ≡ Some line)
        ↔ IsLineAt desk.now.state place line }
    ensures queued { EachIsQueued lines.new watches.new }
{
    clear(lines);
    let (unsettled, settled) = desk.live_lines();
    copy_lines(unsettled, lines, watches);
    copy_lines(settled, lines, watches);
}

/// Leaves no line at any place.
fn clear(lines: &mut [Option<LineSlots>])
    ensures { (place : ℕ) → slice_index_or lines.new place None ≡ None }
{
    for place in 0..lines.len() {
        lines[place] = None;
    }
}

/// Copies the slots of the lines of a slab, each to its place, which is queued.
fn copy_lines(live: &Slab<Line>, lines: &mut [Option<LineSlots>], watches: &mut Watches)
    requires places { (line : LiveLine) → Contains (lines_of live.now) line → line.place < length lines.old }
    requires count { length lines.old ≡ 512 }
    requires queued { EachIsQueued lines.old watches.old }
    ensures copied { AreCopied live.now lines.old lines.new }
    ensures queued { EachIsQueued lines.new watches.new }
{
    for (_, line) in live.iter() {
        lines[line.place as usize] = Some(LineSlots {
            serial: line.serial,
            base: line.base,
            shape: line.shape,
        });
        watches.add(line.place);
    }
}
