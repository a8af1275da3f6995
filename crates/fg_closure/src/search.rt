//! A search of what follows: flags of successive positions, and the slots of equations.
ghost use Rattle.std.specs.Prelude.{◌≡◌, ◌<◌, ◌≤◌, ◌^◌, ℕ, length, Some, None, slice_index_or};
ghost use Rattle.fg_buffer.specs.Watches.{nowhere};
ghost use Rattle.fg_playout.specs.State.{State};
ghost use Rattle.fg_closure.specs.declared.search.LineSlots.{LineSlots as Slots};
ghost use Rattle.fg_closure.specs.Flags.{IsFlagged, slots_at, HasFlags, AllHaveFlags, AreWithout, IsFilled, NothingFollows, IsOnTheWay};
ghost use Rattle.fg_closure.specs.Watched.{EachIsWatched, EachIsWatchedBut, left_to_look, IsNear, Follows};

use fg_buffer::Watches;
use fg_shape::Shape;

/// The positions that a live equation speaks of, and its serial number.
#[derive(Clone, Copy)]
pub(crate) struct LineSlots {
    /// The number of equations that were admitted before it.
    pub(crate) serial: u64,
    /// The position of the first slot.
    pub(crate) base: u64,
    /// Which slots it has.
    pub(crate) shape: Shape,
}

/// Which slots of a line have no flag.
#[derive(Clone, Copy)]
pub(crate) enum Lacking {
    /// None.
    Nothing,
    /// Just this one.
    One(u64),
    /// At least these two.
    Several(u64, u64),
}

/// Flags each position that follows: the one slot of a line without a flag, where it has just one, until no line
/// has just one.
///
/// The flags begin at the position `first`. Lines are looked at that are queued, and each one again where one of the two
/// slots that it watches is flagged.
pub(crate) fn follow_all(
    first: u64,
    lines: &[Option<LineSlots>],
    watches: &mut Watches,
    flags: &mut [bool],
)
    requires places { length lines.now ≡ 512 }
    requires flags { AllHaveFlags first (length flags.old) lines.now }
    requires watched { EachIsWatched first lines.now watches.old flags.old }
    ensures way { (desk : State) → IsOnTheWay desk first lines.now flags.old
        → IsOnTheWay desk first lines.now flags.new }
    ensures done { (place : ℕ) (line : Slots) → slice_index_or lines.now place None ≡ Some line
        → NothingFollows first flags.new line }
{
    while let Some(place) = watches.next() {
        look_at(first, place, lines, watches, flags);
    }
}

/// Looks at the line of a place, where one stands there, and flags what follows from it.
fn look_at(
    first: u64,
    place: u32,
    lines: &[Option<LineSlots>],
    watches: &mut Watches,
    flags: &mut [bool],
)
    requires place { place < 512 }
    requires places { length lines.now ≡ 512 }
    requires queue { length watches.old.queued ≡ 512 }
    requires flags { AllHaveFlags first (length flags.old) lines.now }
    requires watched { EachIsWatchedBut place first lines.now watches.old flags.old }
    ensures watched { EachIsWatched first lines.now watches.new flags.new }
    ensures way { (desk : State) → IsOnTheWay desk first lines.now flags.old
        → IsOnTheWay desk first lines.now flags.new }
    ensures left { left_to_look flags.new watches.new ≤ left_to_look flags.old watches.old }
{
    let Some(line) = lines[place as usize] else {
        return;
    };
    let missing = flag_missing(first, line, flags);
    follow(missing, place, watches);
}

/// What follows for the queue from which slots of a line had no flag: it watches two of them, or each line is looked at that
/// watches the one, which is flagged now.
fn follow(missing: Lacking, place: u32, watches: &mut Watches)
    requires place { place < 512 }
    requires near { IsNear missing }
    ensures { Follows missing place watches.old watches.new }
{
    match missing {
        Lacking::Nothing => watches.leave(place),
        Lacking::One(position) => {
            watches.leave(place);
            watches.wake(position);
        }
        Lacking::Several(one, other) => watches.watch(place, one, other),
    }
}

/// Flags the one slot of a line that has no flag, where it is just one. Tells which had none before.
fn flag_missing(first: u64, line: LineSlots, flags: &mut [bool]) -> Lacking
    requires { HasFlags first (length flags.old) line }
    ensures told { AreWithout (IsFlagged first flags.old) (slots_at line) result }
    ensures filled { IsFilled first flags.old result flags.new }
    ensures near { IsNear result }
{
    let missing = missing(first, line, flags);
    if let Lacking::One(position) = missing {
        flags[(position - first) as usize] = true;
    }
    missing
}

/// Which slots of a line have no flag.
fn missing(first: u64, line: LineSlots, flags: &[bool]) -> Lacking
    requires { HasFlags first (length flags.now) line }
    ensures { AreWithout (IsFlagged first flags.now) (slots_at line) result }
{
    let start = (line.base - first) as usize;
    let step = usize::from(line.shape.offset);
    let mut found = None;
    for j in 0..line.shape.na {
        let index = start + usize::from(j) * step;
        if !flags[index] {
            if let Some(position) = found {
                return Lacking::Several(position, first + index as u64);
            }
            found = Some(first + index as u64);
        }
    }
    match found {
        Some(position) => Lacking::One(position),
        None => Lacking::Nothing,
    }
}
