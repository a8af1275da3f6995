//! The live equations.

ghost use Rattle.std.specs.Prelude.{◌≡◌, ◌+◌, ◌<◌, ◌≤◌, ℕ, false, not, Some, None, IsTrue, IfOk, IfSome, IfNone};
ghost use Rattle.std.specs.FinMap.{get, insert, len};
ghost use Rattle.std.specs.FinSet as set;
ghost use Rattle.slab.specs.Slab as slabs;
ghost use Rattle.slab.specs.Slab.{slab_len};
ghost use Rattle.fg_shape.specs.Shape.{IsShape, position_limit};
ghost use Rattle.fg_peel.specs.declared.Line.{Line as LiveLine};
ghost use Rattle.fg_peel.specs.Slots.{equation_of};
ghost use Rattle.fg_peel.specs.Live.{HasSlots, IsFree, IsLeastFree};
ghost use Rattle.fg_buffer.specs.PlayoutBuffer.{buffer_words};
ghost use Rattle.fg_buffer.specs.Watches.{Closes};
ghost use Rattle.fg_buffer.specs.LiveEquations.{no_equations, AreLive, AreOpen, AreSettled, IsLiveLine, NoneIsOpenAt, SurviveAsWatched, SettlesAt, Reopens, SettledAreBased, Retires};
ghost use Rattle.fg_buffer.specs.LiveInside.{IsOneEach, AreKeyed, AreWithin, Moves, IsCompleteAs, Drops};

use crate::line_slab::{end_of, find_in, find_place, key_at};
use crate::places::Places;
use crate::playout_buffer::PlayoutBuffer;
use crate::retiring::{drop_closed, drop_settled, earliest_after};
use crate::spares::Spares;
use crate::watches::Watches;
use fg_peel::Line;
use fg_shape::{Shape, last, slot};
use fg_words::Shared;
use slab::Slab;
use std::alloc::{AllocError, Global};
use std::marker::Model;

/// How many equations may be live.
pub const LIVE_LIMIT: usize = 512;

/// The live equations in two groups. A settled one is complete and known to come out, so peeling
/// needn't look at it again; the others are open.
#[derive(Drop)]
pub struct LiveEquations {
    open: Slab<Line>,
    settled: Slab<Line>,
    places: Places,
    /// The key that the line at each place has in its group. At a free place it tells nothing.
    keys: Vec<usize>,
    /// No line's last slot lies before this position, and none past the other: most searches and passes
    /// end here.
    earliest: u64,
    latest: u64,
    /// The parities of lines that were retired, for the next payloads. Contracts don't see them.
    spares: Spares,
}

impl Model for LiveEquations {
    ghost use Rattle.fg_buffer.specs.LiveEquations.{LiveState};
    ghost use Rattle.fg_buffer.specs.LiveInside.{lines_code, state_of, AreKept};

    ghost Value = { LiveState };

    ghost coded = { lines_code };

    ghost view = { λ a. state_of a.«open» a.settled };

    ghost invariant = { λ a. AreKept a.«open» a.settled a.places a.keys.items a.earliest a.latest };
}

impl LiveEquations {
    /// Nothing is live. All memory is taken here.
    pub fn new(alloc: Global) -> Result<LiveEquations, AllocError>
        ensures { IfOk result (λ lines. lines ≡ no_equations) }
    {
        Ok(LiveEquations {
            open: Slab::with_capacity(alloc, LIVE_LIMIT)?,
            settled: Slab::with_capacity(alloc, LIVE_LIMIT)?,
            places: Places::new(alloc)?,
            keys: vec![in alloc; 0; LIVE_LIMIT]?,
            earliest: u64::MAX,
            latest: 0,
            spares: Spares::new(alloc)?,
        })
    }

    /// How many are live.
    pub fn count(&self) -> usize
        ensures count { result ≡ len self.now.live }
        ensures facts { AreLive self.now }
    {
        self.open.len() + self.settled.len()
    }

    /// The open ones.
    pub fn open(&self) -> &Slab<Line>
        ensures { AreOpen self.now result.now }
    {
        &self.open
    }

    /// The settled ones.
    pub fn settled(&self) -> &Slab<Line>
        ensures { AreSettled self.now result.now }
    {
        &self.settled
    }

    /// The live one of this base and shape.
    pub fn find(&self, base: u64, shape: Shape) -> Option<&Line>
        requires shape { IsShape shape.offset shape.na }
        requires base { base ≤ position_limit }
        ensures some { IfSome result (λ line. IsLiveLine self.now line.now
            × HasSlots base shape.offset shape.na (equation_of line.now)) }
        ensures none { IfNone result ((line : LiveLine) → IsLiveLine self.now line
            → ¬ HasSlots base shape.offset shape.na (equation_of line)) }
    {
        if last(base, shape) > self.latest {
            return None;
        }
        match find_in(&self.open, base, shape) {
            Some(line) => Some(line),
            None => find_in(&self.settled, base, shape),
        }
    }

    /// The live one at this place.
    pub fn at(&self, place: u32) -> Option<&Line>
        ensures some { IfSome result (λ line. IsLiveLine self.now line.now
            × (line.now.place ≡ place)) }
        ensures none { IfNone result (IsFree self.now.live place) }
    {
        match find_place(&self.open, &self.keys, place) {
            Some(line) => Some(line),
            None => find_place(&self.settled, &self.keys, place),
        }
    }

    /// The open one at this place.
    pub fn open_at(&self, place: u32) -> Option<&Line>
        ensures some { IfSome result (λ line. IsLiveLine self.now line.now × (line.now.place ≡ place)
            × (set.contains self.now.settled line.now.serial ≡ false)) }
        ensures none { IfNone result (NoneIsOpenAt place self.now) }
        ensures facts { AreLive self.now }
    {
        find_place(&self.open, &self.keys, place)
    }

    /// Adds an open one, at the least free place, and tells the place. It takes no memory.
    pub fn insert(&mut self, base: u64, shape: Shape, parity: Shared, serial: u64) -> u32
        requires room { len self.old.live < 512 }
        requires shape { IsShape shape.offset shape.na }
        requires base { base ≤ position_limit }
        requires fresh { get self.old.live serial ≡ None }
        ensures facts { AreLive self.old }
        ensures within { result < 512 }
        ensures added { IsLeastFree self.old.live result
            × (self.new ≡ record self.old {
              live = insert self.old.live serial (record {
                place = result;
                equation = record {
                  base = base;
                  offset = shape.offset;
                  count = shape.na;
                  parity = parity;
                };
              });
            }) }
    {
        let place = self.places.take();
        let end = last(base, shape);
        self.earliest = self.earliest.min(end);
        self.latest = self.latest.max(end);
        self.keys[place] = self.open.insert_reserved(Line {
            base,
            shape,
            parity,
            serial,
            place: place as u32,
        });
        place as u32
    }

    /// Settles the one at this place.
    pub fn settle_at(&mut self, place: u32)
        ensures { SettlesAt place self.old self.new }
    {
        if let Some(key) = key_at(&self.open, &self.keys, place) {
            let line = self.open.remove(key);
            self.keys[place as usize] = self.settled.insert_reserved(line);
        }
    }

    /// Opens each settled one that is no more complete in the buffer.
    pub fn reopen(&mut self, buffer: &PlayoutBuffer)
        ensures reopens { Reopens (buffer_words buffer.now) self.old self.new }
        ensures facts { AreLive self.new }
    {
        move_lines(
            &mut self.settled,
            &mut self.open,
            &mut self.keys,
            buffer,
            false,
        );
    }

    /// Drops those that do not survive a play up to the buffer's mark. An open one survives where its first
    /// watched position isn't before the mark. The words below the mark are kept at the slots of the settled
    /// ones that reach to it, so of these it looks at the last slot alone.
    pub fn retire(&mut self, watches: &mut Watches, buffer: &PlayoutBuffer)
        requires based { SettledAreBased buffer.now.mark buffer.now.kept self.old }
        requires watched { SurviveAsWatched buffer.now.mark buffer.now.kept watches.old self.old }
        ensures retires { Retires buffer.now.mark buffer.now.kept self.old self.new }
        ensures watches { Closes buffer.now.mark watches.old watches.new }
    {
        let mark = buffer.mark();
        let places = &mut self.places;
        let spares = &mut self.spares;
        drop_closed(&mut self.open, &self.keys, places, spares, watches, mark);
        drop_settled(&mut self.settled, places, spares, buffer, self.earliest);
        self.earliest = earliest_after(&self.open, &self.settled, self.earliest, mark);
    }

    /// The share of a retired line's parity, where there is one, for the next payload.
    pub fn spare(&mut self) -> Option<Shared>
        ensures { self.new ≡ self.old }
    {
        self.spares.take()
    }

    /// Drops all.
    pub fn clear(&mut self)
        ensures { self.new ≡ no_equations }
    {
        self.open.clear();
        self.settled.clear();
        self.places.clear();
        self.earliest = u64::MAX;
        self.latest = 0;
    }
}

/// Moves those lines from one slab to another that are complete in the buffer, or those that aren't.
fn move_lines(
    source: &mut Slab<Line>,
    target: &mut Slab<Line>,
    keys: &mut [usize],
    buffer: &PlayoutBuffer,
    complete: bool,
)
    requires within { AreWithin source.old }
    requires room { slab_len source.old + slab_len target.old ≤ target.old.capacity }
    requires numbers { IsOneEach (λ line. line.place) source.old target.old }
    requires keyed { AreKeyed keys.old source.old target.old }
    ensures moves { Moves (IsCompleteAs (not complete) (buffer_words buffer.now))
        (IsCompleteAs complete (buffer_words buffer.now))
        source.old target.old source.new target.new }
    ensures keyed { AreKeyed keys.new source.new target.new }
{
    for key in 0..end_of(source) {
        if goes(source, key, buffer, complete) {
            let line = source.remove(key);
            let place = line.place as usize;
            keys[place] = target.insert_reserved(line);
        }
    }
    forget_vacant(source);
}

/// Forgets the vacant keys of a slab where no line is left, so that no later pass goes over them.
fn forget_vacant(lines: &mut Slab<Line>)
    ensures same { (key : ℕ) → slabs.get lines.new key ≡ slabs.get lines.old key }
    ensures count { slab_len lines.new ≡ slab_len lines.old }
    ensures capacity { lines.new.capacity ≡ lines.old.capacity }
{
    if lines.is_empty() {
        lines.clear();
    }
}

/// Whether there is a line under a key that is complete in the buffer, or one that isn't.
fn goes(lines: &Slab<Line>, key: usize, buffer: &PlayoutBuffer, complete: bool) -> bool
    requires { AreWithin lines.now }
    ensures goes { IsTrue result → (line : LiveLine) × (slabs.get lines.now key ≡ Some line)
        × IsCompleteAs complete (buffer_words buffer.now) line }
    ensures stays { result ≡ false → (line : LiveLine) → slabs.get lines.now key ≡ Some line
        → IsCompleteAs (not complete) (buffer_words buffer.now) line }
{
    match lines.get(key) {
        Some(line) => buffer.is_complete(line) == complete,
        None => false,
    }
}
