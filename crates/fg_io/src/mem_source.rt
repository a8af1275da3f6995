//! A source in memory.
ghost use Rattle.std.specs.Prelude.{◌≡◌, ◌↔◌, ◌<◌, ◌≤◌, ◌++◌, length, take, drop, IfOk, OnOk, OnErr, IsErr, Some};
ghost use Rattle.std.specs.Io.KnownBytes.{IsAtEnd};
ghost use Rattle.fg_io.specs.Calls.{first_calls, after_call, after_fault, NextFails};
ghost use Rattle.fg_io.specs.Faults.{CountsFault};
ghost use Rattle.fg_io.specs.MemSource.{given_count};
ghost use Rattle.fg_io.specs.Source.{Gives};

use crate::Failed;
use crate::calls::Calls;
use crate::safe::SafeSource;
use crate::source::Source;
use std::alloc::{AllocError, Global};
use std::marker::Model;

/// Gives the bytes that it was made with, some at each call, and fails at chosen calls.
#[derive(Drop)]
pub struct MemSource {
    source: SafeSource,
    calls: Calls,
}

impl Model for MemSource {
    ghost use Rattle.fg_io.specs.MemSource.{SourceState};

    ghost Value = { SourceState };

    ghost view = { λ a. record {
      left = a.source.left;
      piece = a.source.piece;
      calls = a.calls;
    } };
}

impl MemSource {
    /// A source of these bytes. It gives at most `piece` of them at each call, and fails at exactly the calls whose
    /// numbers, from 0, are in `fails`. The number of a call stands still at its last value.
    pub fn new(
        alloc: Global,
        bytes: &[u8],
        piece: usize,
        fails: &[u64],
    ) -> Result<MemSource, AllocError>
        requires { 1 ≤ piece }
        ensures { IfOk result (λ source. source
            ≡ record { left = bytes.now; piece = piece; calls = first_calls fails.now }) }
    {
        Ok(MemSource {
            source: SafeSource::new(alloc, bytes, piece)?,
            calls: Calls::new(alloc, fails)?,
        })
    }
}

impl Source for MemSource {
    ghost left = { λ source. Some source.left };

    ghost faults = { λ source. source.calls.faults };

    ghost Fixed = { Unit {0} };

    ghost fixed = { λ _. tt };

    fn read(&mut self, into: &mut [u8]) -> Result<usize, Failed>
        // What each source ensures.
        ensures bound { IfOk result (λ count. count ≤ length into.new) }
        ensures gives { IfOk result (λ count. Gives (Some self.old.left) (take count into.new)
            (Some self.new.left)) }
        ensures end { IfOk result (λ count. count ≡ 0 → 0 < length into.new
            → IsAtEnd (Some self.new.left)) }
        ensures failed { OnErr result (Some self.new.left ≡ Some self.old.left) }
        ensures no_fault { OnOk result (self.new.calls.faults ≡ self.old.calls.faults) }
        ensures counted { OnErr result (CountsFault self.old.calls.faults self.new.calls.faults) }
        ensures never_falls { self.old.calls.faults ≤ self.new.calls.faults }

        // Exactly which calls fail, and what each call gives and leaves.
        ensures fails { IsErr result ↔ NextFails self.old.calls }
        ensures count { IfOk result (λ count. count ≡ given_count self.old (length into.old)) }
        ensures bytes { IfOk result (λ count. into.new
            ≡ take count self.old.left ++ drop count into.old) }
        ensures left { IfOk result (λ count. self.new
            ≡ record self.old {
              left = drop count self.old.left;
              calls = after_call self.old.calls;
            }) }
        ensures unread { OnErr result (into.new ≡ into.old) }
        ensures unchanged { OnErr result (self.new
            ≡ record self.old { calls = after_fault self.old.calls }) }
    {
        if self.calls.next_fails() {
            self.calls.count_fault();
            return Err(Failed);
        }
        self.source.read(into)
    }
}
