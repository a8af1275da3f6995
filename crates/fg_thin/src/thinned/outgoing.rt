//! Bytes of a trace that were made and not given yet.
ghost use Rattle.std.specs.Prelude.{◌≡◌, ◌+◌, ◌*◌, ◌<◌, ◌≤◌, ◌^◌, ◌++◌, List, ℕ, IfOk, Some, length, min, take, drop, slice_get, true, false, []};
ghost use Rattle.std.specs.List.{flat_map};
ghost use Rattle.fg_trace.specs.Trace.{Record, magic, spelling};
ghost use Rattle.fg_thin.specs.Thinned.{is_lost, without};

use super::lost::Lost;
use fg_encode::Batch;
use fg_trace::{MAGIC, write_datagram};
use std::alloc::{AllocError, Global};
use std::marker::Model;

/// The most bytes of a record: 12 and a parity datagram of 1,344.
const RECORD_LIMIT: usize = 1356;

/// Room for the records of one payload: three at most.
const ROOM: usize = 4096;

/// Bytes of a trace that are still to be given.
#[derive(Drop)]
pub(crate) struct Outgoing {
    bytes: Vec<u8>,
    front: usize,
    end: usize,
}

impl Model for Outgoing {
    ghost use Rattle.std.specs.Prelude.{◌≡◌, ◌-◌, ◌≤◌, ℕ, List, length, take, drop};

    ghost Value = { List ℕ };

    ghost view = { λ a. take (a.end - a.front) (drop a.front a.bytes.items) };

    ghost invariant = { λ a. (a.front ≤ a.end) × (a.end ≤ length a.bytes.items) × (length a.bytes.items ≡ 4096) };
}

impl Outgoing {
    /// The beginning of a trace. All its memory is taken here.
    pub(crate) fn new(alloc: Global) -> Result<Outgoing, AllocError>
        ensures { IfOk result (λ outgoing. outgoing ≡ magic) }
    {
        let mut bytes = vec![in alloc; 0; ROOM]?;
        begin(&mut bytes);
        Ok(Outgoing {
            bytes,
            front: 0,
            end: 8,
        })
    }

    /// Whether all was given.
    pub(crate) fn is_empty(&self) -> bool
        ensures empty { result ≡ true → self.now ≡ [] }
        ensures some { result ≡ false → 0 < length self.now }
    {
        self.front == self.end
    }

    /// Gives some of the bytes to the front of `into`, as many as there are or have room, and answers how many.
    pub(crate) fn give(&mut self, into: &mut [u8]) -> usize
        ensures count { result ≡ min (length into.old) (length self.old) }
        ensures bytes { take result into.new ≡ take result self.old }
        ensures left { self.new ≡ drop result self.old }
    {
        let held = &self.bytes[self.front..self.end];
        let count = into.len().min(held.len());
        into[..count].copy_from_slice(&held[..count]);
        self.front += count;
        count
    }

    /// Puts the records of a batch that aren't lost in place of what was there. The first of them has this number.
    pub(crate) fn fill(&mut self, batch: &Batch, first: u64, lost: &Lost)
        requires { first ≤ 2 ^ 60 }
        ensures { self.new ≡ flat_map spelling (without (is_lost lost.now) first batch.now) }
    {
        self.end = spell_all(batch, first, lost, &mut self.bytes);
        self.front = 0;
    }
}

/// Writes the magic to the front.
fn begin(into: &mut [u8])
    requires { 8 ≤ length into.old }
    ensures { take 8 into.new ≡ magic }
{
    into[..8].copy_from_slice(&MAGIC);
}

/// Spells the records of a batch that aren't lost, and answers how many bytes that took.
fn spell_all(batch: &Batch, first: u64, lost: &Lost, into: &mut [u8]) -> usize
    requires first { first ≤ 2 ^ 60 }
    requires room { length into.old ≡ ROOM }
    ensures within { result ≤ ROOM }
    ensures length { length into.new ≡ ROOM }
    ensures spelled { take result into.new ≡ flat_map spelling (without (is_lost lost.now) first batch.now) }
{
    let mut end = 0;
    for i in 0..batch.count() {
        if !lost.has(first + i as u64) {
            end = spell(batch, i, into, end);
        }
    }
    end
}

/// Spells a record behind what was spelled, and answers where it ends.
fn spell(batch: &Batch, i: usize, into: &mut [u8], end: usize) -> usize
    requires there { i < length batch.now }
    requires room { end + RECORD_LIMIT ≤ length into.old }
    ensures within { result ≤ end + RECORD_LIMIT }
    ensures length { length into.new ≡ length into.old }
    ensures spelled { (r : Record) → slice_get batch.now i ≡ Some r
        → take result into.new ≡ take end into.old ++ spelling r }
{
    let (time, port, datagram) = batch.item(i);
    end + write_datagram(time, port, datagram, &mut into[end..])
}
