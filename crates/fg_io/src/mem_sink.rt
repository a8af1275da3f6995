//! A sink in memory.
ghost use Rattle.std.specs.Prelude.{◌≡◌, ◌↔◌, ◌⊎◌, ◌<◌, ◌≤◌, ◌++◌, [], length, take, IfOk, OnErr, IsErr, Some};
ghost use Rattle.fg_io.specs.Calls.{first_calls, after_call, after_fault, NextFails};
ghost use Rattle.fg_io.specs.Faults.{CountsFault};
ghost use Rattle.fg_io.specs.MemSink.{taken_count};
ghost use Rattle.fg_io.specs.Sink.{Gains};

use crate::Failed;
use crate::calls::Calls;
use crate::sink::Sink;
use std::alloc::{AllocError, Global};
use std::marker::Model;

/// Takes bytes until it is full, and fails at chosen calls.
#[derive(Drop)]
pub struct MemSink {
    bytes: Vec<u8>,
    room: usize,
    calls: Calls,
}

impl Model for MemSink {
    ghost use Rattle.std.specs.Prelude.{◌≤◌, length, vec_capacity};
    ghost use Rattle.fg_io.specs.MemSink.{SinkState};

    ghost Value = { SinkState };

    ghost view = { λ a. record { written = a.bytes.items; room = a.room; calls = a.calls } };

    ghost invariant = { λ a. (length a.bytes.items ≤ a.room) × (a.room ≤ vec_capacity a.bytes) };
}

impl MemSink {
    /// A sink that takes `room` bytes in all, whose memory is taken here. It fails at exactly the calls whose numbers,
    /// from 0, are in `fails`. The number of a call stands still at its last value.
    pub fn new(alloc: Global, room: usize, fails: &[u64]) -> Result<MemSink, AllocError>
        ensures { IfOk result (λ sink. sink
            ≡ record { written = []; room = room; calls = first_calls fails.now }) }
    {
        Ok(MemSink {
            bytes: Vec::with_capacity(alloc, room)?,
            room,
            calls: Calls::new(alloc, fails)?,
        })
    }

    /// The bytes that have been written.
    pub fn bytes(&self) -> &[u8]
        ensures { result.now ≡ self.now.written }
    {
        self.bytes.as_slice()
    }
}

impl Sink for MemSink {
    ghost written = { λ sink. Some sink.written };

    ghost faults = { λ sink. sink.calls.faults };

    fn write(&mut self, piece: &[u8]) -> Result<usize, Failed>
        // What each sink ensures.
        ensures bound { IfOk result (λ count. count ≤ length piece.now) }
        ensures gains { IfOk result (λ count. Gains (Some self.old.written) (take count piece.now)
            (Some self.new.written)) }
        ensures full { IfOk result (λ count. count ≡ 0 → 0 < length piece.now
            → CountsFault self.old.calls.faults self.new.calls.faults) }
        ensures no_fault { IfOk result (λ count. (0 < count) ⊎ (length piece.now ≡ 0)
            → self.new.calls.faults ≡ self.old.calls.faults) }
        ensures failed { OnErr result (Some self.new.written ≡ Some self.old.written) }
        ensures counted { OnErr result (CountsFault self.old.calls.faults self.new.calls.faults) }
        ensures never_falls { self.old.calls.faults ≤ self.new.calls.faults }

        // Exactly which calls fail, and what each call takes.
        ensures fails { IsErr result ↔ NextFails self.old.calls }
        ensures count { IfOk result (λ count. count ≡ taken_count self.old (length piece.now)) }
        ensures takes { IfOk result (λ count. (0 < count) ⊎ (length piece.now ≡ 0) → self.new
            ≡ record self.old {
              written = self.old.written ++ take count piece.now;
              calls = after_call self.old.calls;
            }) }
        ensures takes_none { IfOk result (λ count. count ≡ 0 → 0 < length piece.now → self.new
            ≡ record self.old { calls = after_fault self.old.calls }) }
        ensures unchanged { OnErr result (self.new
            ≡ record self.old { calls = after_fault self.old.calls }) }
    {
        if self.calls.next_fails() {
            self.calls.count_fault();
            return Err(Failed);
        }
        let count = piece.len().min(self.room - self.bytes.len());
        // The memory was taken when the sink was made.
        self.bytes.extend_from_slice(&piece[..count]).unwrap();
        if count == 0 && !piece.is_empty() {
            self.calls.count_fault();
        }
        Ok(count)
    }
}
