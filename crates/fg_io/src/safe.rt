//! Forms that never fail. Their count of faults is always 0, so no call to them answers a fault of the outside.
ghost use Rattle.std.specs.Prelude.{◌≡◌, ◌<◌, ◌≤◌, ◌++◌, ℕ, length, take, drop, min, IfOk, IsOk, Some, None};
ghost use Rattle.std.specs.Io.KnownBytes.{IsAtEnd};
ghost use Rattle.fg_io.specs.Safe.{safe_count};
ghost use Rattle.fg_io.specs.Sink.{Gains};
ghost use Rattle.fg_io.specs.Source.{Gives};

use crate::Failed;
use crate::outlet::Outlet;
use crate::sink::Sink;
use crate::source::Source;
use std::alloc::{AllocError, Global};
use std::marker::Model;

/// Gives the bytes that it was made with, some at each call, and never fails.
#[derive(Drop)]
pub struct SafeSource {
    bytes: Vec<u8>,
    given: usize,
    piece: usize,
}

impl Model for SafeSource {
    ghost use Rattle.std.specs.Prelude.{◌≤◌, drop, length};
    ghost use Rattle.fg_io.specs.Safe.{SafeState};

    ghost Value = { SafeState };

    ghost view = { λ a. record { left = drop a.given a.bytes.items; piece = a.piece } };

    ghost invariant = { λ a. (a.given ≤ length a.bytes.items) × (1 ≤ a.piece) };
}

impl SafeSource {
    /// A source of these bytes, which gives at most `piece` of them at each call.
    pub fn new(alloc: Global, bytes: &[u8], piece: usize) -> Result<SafeSource, AllocError>
        requires { 1 ≤ piece }
        ensures { IfOk result (λ source. source ≡ record { left = bytes.now; piece = piece }) }
    {
        Ok(SafeSource {
            bytes: Vec::from_slice(alloc, bytes)?,
            given: 0,
            piece,
        })
    }
}

impl Source for SafeSource {
    ghost left = { λ source. Some source.left };

    ghost faults = { λ _. 0 };

    ghost Fixed = { Unit {0} };

    ghost fixed = { λ _. tt };

    fn read(&mut self, into: &mut [u8]) -> Result<usize, Failed>
        // What each source ensures of a call that is Ok, as each one is.
        ensures bound { IfOk result (λ count. count ≤ length into.new) }
        ensures gives { IfOk result (λ count.
            Gives (Some self.old.left) (take count into.new) (Some self.new.left)) }
        ensures end { IfOk result (λ count.
            count ≡ 0 → 0 < length into.new → IsAtEnd (Some self.new.left)) }
        ensures ok { IsOk result }

        // What each call gives and leaves.
        ensures count { IfOk result (λ count. count ≡ safe_count self.old (length into.old)) }
        ensures bytes { IfOk result (λ count.
            into.new ≡ take count self.old.left ++ drop count into.old) }
        ensures left { IfOk result (λ count.
            self.new ≡ record self.old { left = drop count self.old.left }) }
    {
        let left = &self.bytes[self.given..];
        let count = into.len().min(self.piece).min(left.len());
        into[..count].copy_from_slice(&left[..count]);
        self.given += count;
        Ok(count)
    }
}

/// Takes every piece whole, keeps nothing and tells nothing.
#[derive(Clone, Copy)]
pub struct SafeSink;

impl SafeSink {
    /// The sink.
    pub fn new() -> SafeSink {
        SafeSink
    }
}

impl Sink for SafeSink {
    ghost written = { λ _. None };

    ghost faults = { λ _. 0 };

    fn write(&mut self, piece: &[u8]) -> Result<usize, Failed>
        // What each sink ensures.
        ensures bound { IfOk result (λ count. count ≤ length piece.now) }
        ensures gains { IfOk result (λ count. Gains None (take count piece.now) None) }

        // All of the piece is taken.
        ensures ok { IsOk result }
        ensures whole { IfOk result (λ count. count ≡ length piece.now) }
    {
        Ok(piece.len())
    }
}

/// Takes every piece whole, keeps nothing and tells nothing.
#[derive(Clone, Copy)]
pub struct SafeOutlet;

impl SafeOutlet {
    /// The outlet.
    pub fn new() -> SafeOutlet {
        SafeOutlet
    }
}

impl Outlet for SafeOutlet {
    ghost lanes = { λ _. None };

    ghost faults = { λ _. 0 };

    fn put(&mut self, _port: u16, _piece: &[u8]) -> Result<(), Failed>
        ensures ok { IsOk result }
    {
        Ok(())
    }
}
