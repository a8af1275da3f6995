//! A source that is read under a limit, through one buffer.
ghost use Rattle.std.specs.Prelude.{◌≡◌, ◌+◌, ◌-◌, ◌<◌, ◌≤◌, ◌⊎◌, ◌^◌, ◌↔◌, ℕ, [], ◌∷◌, length, take, drop, slice_range, min, true, false, IsTrue, IfOk, IfErr, OnErr, Ok};
ghost use Rattle.std.specs.Io.KnownBytes.{IsAtEnd};
ghost use Rattle.fg_io.specs.Faults.{Counts};
ghost use Rattle.fg_io.specs.InputBuffer.{IsAhead, TakesMore, front_of, most_held, new_input};
ghost use Rattle.fg_io.specs.Source.{Gives};

use crate::Failed;
use crate::fault::Fault;
use crate::source::Source;
use std::alloc::{AllocError, Global};
use std::marker::Model;

/// A cache line.
const LINE: usize = 64;

/// What stands ahead in a source, where some bytes are asked for.
#[derive(Clone, Copy, Debug, PartialEq, Eq)]
pub enum Ahead {
    /// They are held, and within the limit.
    Whole,
    /// The source has come to its end, and nothing is held.
    EndsHere,
    /// The source has come to its end within the limit, and some of them are held.
    EndsInside,
    /// They aren't within the limit, and the source has a byte past it, which was read.
    PastLimit,
}

/// Shows the next bytes of a source where they lie, in the memory that it was made with and whatever pieces the source gives.
///
/// A buffer is for one source. It reads at most one byte past the limit on the source's bytes.
#[derive(Drop)]
pub struct InputBuffer {
    buffer: Vec<u8>,
    longest: usize,
    front: usize,
    from: usize,
    to: usize,
    max: u64,
    place: u64,
    ended: bool,
}

impl Model for InputBuffer {
    ghost use Rattle.std.specs.Prelude.{◌-◌, length, slice_range};
    ghost use Rattle.fg_io.specs.InputBuffer.{InputState, IsInput};

    ghost Value = { InputState };

    ghost view = { λ a. record {
      max = a.max;
      place = a.place;
      held = slice_range a.buffer.items a.from a.to;
      ended = a.ended;
      longest = a.longest;
      piece = length a.buffer.items - a.front;
    } };

    ghost invariant = { λ a.
        IsInput a.buffer.items a.longest a.front a.from a.to a.max a.place };
}

impl InputBuffer {
    /// A buffer for a source that may have at most `max` bytes. At most `longest` are asked for at once, and `piece` is how many
    /// the source is asked for at once, where nothing is left of the piece before. All memory is taken here.
    pub fn new(
        alloc: Global,
        max: u64,
        longest: usize,
        piece: usize,
    ) -> Result<InputBuffer, AllocError>
        requires asks { 1 ≤ longest }
        requires order { longest ≤ piece }
        requires fits { piece ≤ 2 ^ 20 }
        ensures { IfOk result (λ input. input ≡ new_input max longest piece) }
    {
        let front = (longest + (LINE - 1)) / LINE * LINE;
        Ok(InputBuffer {
            buffer: vec![in alloc; 0; front + piece]?,
            longest,
            front,
            from: front,
            to: front,
            max,
            place: 0,
            ended: false,
        })
    }

    /// Reads until `want` bytes are held, or it is known that there aren't so many within the limit. Nothing is stepped over.
    ///
    /// The fault is `Read`: what was read is kept, and a later call goes on after it. Once the source has come to its end it is
    /// not asked again.
    pub fn fill<S: Source>(&mut self, from: &mut S, want: usize) -> Result<Ahead, Fault>
        requires some { 1 ≤ want }
        requires want { want ≤ self.old.longest }
        ensures takes { TakesMore self.old.held (S.left from.old) self.new.held (S.left from.new) }
        ensures same { self.new ≡ record self.old { held = self.new.held; ended = self.new.ended } }
        ensures tells { IfOk result (λ ahead. IsAhead ahead self.new want) }
        ensures at_end { self.new.ended ≡ true
            → (self.old.ended ≡ true) ⊎ IsAtEnd (S.left from.new) }

        // The source was asked for more than there was.
        ensures short { self.new.ended ≡ true
            → (self.old.ended ≡ true) ⊎ (length self.new.held < want) }
        ensures failed { OnErr result (self.new.ended ≡ self.old.ended) }
        ensures stays { self.old.ended ≡ true → (self.new ≡ self.old) × (from.new ≡ from.old) }

        // Where so many are held within the limit, nothing is read.
        ensures whole { (want ≤ length self.old.held) × (self.old.place + want ≤ self.old.max)
            → (result ≡ Ok Ahead.Whole) × (self.new ≡ self.old) × (from.new ≡ from.old) }

        // After a failed read so many aren't held.
        ensures few_held { OnErr result (length self.new.held < want) }
        ensures bounded { self.new.place + length self.new.held ≤ self.new.max + 1 }
        ensures few { length self.new.held ≤ most_held self.new.longest self.new.piece }
        ensures fault { IfErr result (λ fault. fault ≡ Fault.Read) }
        ensures faults { Counts result ((S.faults from.old, S.faults from.new) ∷ []) [] }
        ensures fixed { S.fixed from.new ≡ S.fixed from.old }
    {
        if self.has(want) {
            return Ok(Ahead::Whole);
        }
        if !self.ended {
            self.read_until(from, want)?;
        }
        Ok(self.ahead(want))
    }

    /// Whether so many bytes are held, and within the limit.
    pub fn has(&self, want: usize) -> bool
        ensures { IsTrue result
            ↔ ((want ≤ length self.now.held) × (self.now.place + want ≤ self.now.max)) }
    {
        want <= self.to - self.from && want as u64 <= self.max - self.place
    }

    /// The bytes that were read and not stepped over, where they lie.
    pub fn held(&self) -> &[u8]
        ensures value { result.now ≡ self.now.held }
        ensures bounded { self.now.place + length self.now.held ≤ self.now.max + 1 }
        ensures few { length self.now.held ≤ most_held self.now.longest self.now.piece }
    {
        &self.buffer[self.from..self.to]
    }

    /// Steps over the first bytes of what is held.
    pub fn step(&mut self, count: usize)
        requires held { count ≤ length self.old.held }
        requires within { self.old.place + count ≤ self.old.max }
        ensures { self.new ≡ record self.old {
          place = self.old.place + count;
          held = drop count self.old.held;
        } }
    {
        self.from += count;
        self.place += count as u64;
    }

    /// The place of the first byte that was not stepped over, counted from the source's first.
    pub fn place(&self) -> u64
        ensures value { result ≡ self.now.place }
        ensures within { self.now.place ≤ self.now.max }
    {
        self.place
    }
}

impl InputBuffer {
    /// How many bytes from the place on lie within the limit, but at most a buffer of them.
    fn within(&self) -> usize
        ensures count { result ≡ min (self.now.max - self.now.place)
            (most_held self.now.longest self.now.piece) }
        ensures small { result < 2 ^ 23 }
        ensures place { self.now.place ≤ self.now.max }
    {
        (self.max - self.place).min(self.buffer.len() as u64) as usize
    }

    /// What stands ahead, where so many bytes are asked for that aren't held within the limit.
    fn ahead(&self, want: usize) -> Ahead
        requires some { 1 ≤ want }
        requires want { want ≤ self.now.longest }
        requires known { (want ≤ length self.now.held)
            ⊎ ((self.now.max < self.now.place + length self.now.held) ⊎ (self.now.ended ≡ true)) }
        ensures tells { IsAhead result self.now want }
        ensures bounded { self.now.place + length self.now.held ≤ self.now.max + 1 }
        ensures few { length self.now.held ≤ most_held self.now.longest self.now.piece }
    {
        let held = self.to - self.from;
        let within = self.within();
        if held > within && want > within {
            Ahead::PastLimit
        } else if held >= want {
            Ahead::Whole
        } else if held == 0 {
            Ahead::EndsHere
        } else {
            Ahead::EndsInside
        }
    }

    /// Reads until so many bytes are held, or one past the limit, or the source is at its end.
    // Seldom called: apart from this, `fill` is a few instructions where it is called.
    #[inline(never)]
    fn read_until<S: Source>(&mut self, from: &mut S, want: usize) -> Result<(), Fault>
        requires some { 1 ≤ want }
        requires want { want ≤ self.old.longest }
        requires going { self.old.ended ≡ false }
        requires few { (length self.old.held < want) ⊎ (self.old.max < self.old.place + length self.old.held) }
        ensures takes { TakesMore self.old.held (S.left from.old) self.new.held (S.left from.new) }
        ensures same { self.new ≡ record self.old { held = self.new.held; ended = self.new.ended } }
        ensures known { IfOk result (λ _. (want ≤ length self.new.held)
            ⊎ ((self.new.max < self.new.place + length self.new.held) ⊎ (self.new.ended ≡ true))) }
        ensures at_end { self.new.ended ≡ true → IsAtEnd (S.left from.new) }
        ensures short { self.new.ended ≡ true → length self.new.held < want }
        ensures failed { OnErr result (self.new.ended ≡ self.old.ended) }
        ensures few_held { OnErr result (length self.new.held < want) }
        ensures bounded { self.new.place + length self.new.held ≤ self.new.max + 1 }
        ensures few { length self.new.held ≤ most_held self.new.longest self.new.piece }
        ensures fault { IfErr result (λ fault. fault ≡ Fault.Read) }
        ensures faults { Counts result ((S.faults from.old, S.faults from.new) ∷ []) [] }
        ensures fixed { S.fixed from.new ≡ S.fixed from.old }
    {
        let most = self.within() + 1;
        let goal = want.min(most);
        while self.held().len() < goal {
            if self.read_more(from, most)? == 0 {
                self.ended = true;
                return Ok(());
            }
        }
        Ok(())
    }

    /// Reads once, as much as the buffer has room for, but so that at most `most` bytes are held then. It answers how many
    /// bytes it read.
    fn read_more<S: Source>(&mut self, from: &mut S, most: usize) -> Result<usize, Fault>
        requires few { length self.old.held < self.old.longest }
        requires most { length self.old.held < most }
        requires bound { most ≤ most_held self.old.longest self.old.piece + 1 }
        requires limit { self.old.place + most ≤ self.old.max + 1 }
        ensures takes { TakesMore self.old.held (S.left from.old) self.new.held (S.left from.new) }
        ensures same { self.new ≡ record self.old { held = self.new.held } }
        ensures count { IfOk result (λ count. length self.new.held ≡ length self.old.held + count) }
        ensures end { IfOk result (λ count. count ≡ 0 → IsAtEnd (S.left from.new)) }
        ensures failed { OnErr result (length self.new.held ≡ length self.old.held) }
        ensures bounded { self.new.place + length self.new.held ≤ self.new.max + 1 }
        ensures few { length self.new.held ≤ most_held self.new.longest self.new.piece }
        ensures fault { IfErr result (λ fault. fault ≡ Fault.Read) }
        ensures faults { Counts result ((S.faults from.old, S.faults from.new) ∷ []) [] }
        ensures fixed { S.fixed from.new ≡ S.fixed from.old }
    {
        let held = self.to - self.from;
        self.from = make_room(
            &mut self.buffer,
            self.from,
            self.to,
            self.front,
            self.longest,
        );
        self.to = self.from + held;
        let end = self.buffer.len().min(self.from + most);
        let count = read_between(from, &mut self.buffer, self.to, end)?;
        self.to += count;
        Ok(count)
    }
}

/// Where the bytes between these places stand, once there is room for `longest` bytes from the first of them on.
///
/// Where there is too little, they are moved to just before the place of a whole piece, so that all whole pieces are read to
/// the same place, at a multiple of a cache line, and at the same places of the source.
fn make_room(buffer: &mut Vec<u8>, from: usize, to: usize, front: usize, longest: usize) -> usize
    requires order { from ≤ to }
    requires within { to ≤ length buffer.old.items }
    requires few { to - from < longest }
    requires front { longest ≤ front }
    requires room { front + longest ≤ length buffer.old.items }
    ensures held { slice_range buffer.new.items result (result + (to - from))
        ≡ slice_range buffer.old.items from to }
    ensures room { result + longest ≤ length buffer.new.items }
    ensures whole { length buffer.new.items ≡ length buffer.old.items }
{
    if from < to && longest <= buffer.len() - from {
        return from;
    }
    let start = front - (to - from);
    buffer.as_mut_slice().copy_within(from..to, start);
    start
}

/// Reads once into the buffer between these places, and answers how many bytes it read.
fn read_between<S: Source>(
    from: &mut S,
    buffer: &mut Vec<u8>,
    at: usize,
    end: usize,
) -> Result<usize, Fault>
    requires order { at < end }
    requires within { end ≤ length buffer.old.items }
    ensures before { take at buffer.new.items ≡ take at buffer.old.items }
    ensures whole { length buffer.new.items ≡ length buffer.old.items }
    ensures bound { IfOk result (λ count. count ≤ end - at) }
    ensures gives { IfOk result (λ count.
        Gives (S.left from.old) (slice_range buffer.new.items at (at + count)) (S.left from.new)) }
    ensures end { IfOk result (λ count. count ≡ 0 → IsAtEnd (S.left from.new)) }
    ensures failed { OnErr result (S.left from.new ≡ S.left from.old) }
    ensures fault { IfErr result (λ fault. fault ≡ Fault.Read) }
    ensures faults { Counts result ((S.faults from.old, S.faults from.new) ∷ []) [] }
    ensures fixed { S.fixed from.new ≡ S.fixed from.old }
{
    match from.read(&mut buffer[at..end]) {
        Ok(count) => Ok(count),
        Err(Failed) => Err(Fault::Read),
    }
}
