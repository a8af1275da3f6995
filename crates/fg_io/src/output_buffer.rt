//! Small pieces for a sink, gathered into large ones.
ghost use Rattle.std.specs.Prelude.{◌≡◌, ◌≤◌, ◌++◌, [], ◌∷◌, IsTrue, IsFalse, IfOk, IfErr, OnOk, OnErr};
ghost use Rattle.fg_io.specs.Faults.{Counts};
ghost use Rattle.fg_io.specs.Sent.{Sent};
ghost use Rattle.fg_io.specs.Sink.{Gains, GainsPart};

use crate::fault::Fault;
use crate::sink::{Sink, write_all};
use std::alloc::{AllocError, Global};
use std::marker::Model;

/// Holds bytes that are to be written, so that they are written in large pieces.
///
/// Contracts see it as the bytes that it holds. What is held at the end is written by [`OutputBuffer::flush`] alone.
#[derive(Drop)]
pub struct OutputBuffer {
    bytes: Vec<u8>,
    // How many bytes at the front are held.
    used: usize,
}

impl Model for OutputBuffer {
    ghost use Rattle.std.specs.Prelude.{ℕ, ◌≤◌, List, length, take};

    ghost Value = { List ℕ };

    ghost view = { λ a. take a.used a.bytes.items };

    ghost invariant = { λ a. a.used ≤ length a.bytes.items };
}

impl OutputBuffer {
    /// Nothing is held. The memory for `room` bytes is taken here.
    pub fn new(alloc: Global, room: usize) -> Result<OutputBuffer, AllocError>
        ensures { IfOk result (λ buffer. buffer ≡ []) }
    {
        Ok(OutputBuffer {
            bytes: vec![in alloc; 0; room]?,
            used: 0,
        })
    }

    /// Adds the piece to what is held.
    ///
    /// Where there is no room for it, what is held is written first; a piece longer than the buffer is written where it lies.
    /// After a fault, which is `Write`, nothing is held, and the sink has gained a prefix of what was to be written.
    #[inline]
    pub fn add<K: Sink>(&mut self, piece: &[u8], out: &mut K) -> Result<(), Fault>
        ensures sent { OnOk result (Sent (K.written out.old) (self.old ++ piece.now) self.new
            (K.written out.new)) }
        ensures part { OnErr result (GainsPart (K.written out.old) (self.old ++ piece.now)
            (K.written out.new)) }
        ensures empty { OnErr result (self.new ≡ []) }
        ensures fault { IfErr result (λ fault. fault ≡ Fault.Write) }
        ensures faults { Counts result [] ((K.faults out.old, K.faults out.new) ∷ []) }
    {
        if self.hold(piece) {
            return Ok(());
        }
        self.add_after_flush(piece, out)
    }

    /// Writes what is held. Nothing is held then, also after a fault, which is `Write`.
    pub fn flush<K: Sink>(&mut self, out: &mut K) -> Result<(), Fault>
        ensures whole { OnOk result (Gains (K.written out.old) self.old (K.written out.new)) }
        ensures part { OnErr result (GainsPart (K.written out.old) self.old (K.written out.new)) }
        ensures empty { self.new ≡ [] }
        ensures fault { IfErr result (λ fault. fault ≡ Fault.Write) }
        ensures faults { Counts result [] ((K.faults out.old, K.faults out.new) ∷ []) }
    {
        let outcome = write_all(out, &self.bytes[..self.used]);
        self.used = 0;
        outcome
    }

    /// Writes what is held, and then adds the piece, or writes it too where it is longer than the buffer.
    // Seldom called: apart from this, `add` is a few instructions where it is called.
    #[inline(never)]
    fn add_after_flush<K: Sink>(&mut self, piece: &[u8], out: &mut K) -> Result<(), Fault>
        ensures sent { OnOk result (Sent (K.written out.old) (self.old ++ piece.now) self.new
            (K.written out.new)) }
        ensures part { OnErr result (GainsPart (K.written out.old) (self.old ++ piece.now)
            (K.written out.new)) }
        ensures empty { OnErr result (self.new ≡ []) }
        ensures fault { IfErr result (λ fault. fault ≡ Fault.Write) }
        ensures faults { Counts result [] ((K.faults out.old, K.faults out.new) ∷ []) }
    {
        self.flush(out)?;
        if self.hold(piece) {
            return Ok(());
        }
        write_all(out, piece)
    }

    /// Adds the piece where there is room for it, and answers whether there is.
    #[inline]
    fn hold(&mut self, piece: &[u8]) -> bool
        ensures held { IsTrue result → self.new ≡ self.old ++ piece.now }
        ensures kept { IsFalse result → self.new ≡ self.old }
    {
        if piece.len() > self.bytes.len() - self.used {
            return false;
        }
        let end = self.used + piece.len();
        self.bytes[self.used..end].copy_from_slice(piece);
        self.used = end;
        true
    }
}
