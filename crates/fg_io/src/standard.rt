//! The standard streams of the process. They tell nothing of content: what they really give and take is trusted.
ghost use Rattle.std.specs.Prelude.{◌≡◌, ◌⊎◌, ◌<◌, ◌≤◌, length, take, IfOk, OnOk, OnErr, None};
ghost use Rattle.std.specs.Io.KnownBytes.{IsAtEnd, ReadConsumes, WriteAppends};
ghost use Rattle.fg_io.specs.Calls.{next_count};
ghost use Rattle.fg_io.specs.Faults.{CountsFault};
ghost use Rattle.fg_io.specs.Sink.{Gains};
ghost use Rattle.fg_io.specs.Source.{Gives};
ghost use Rattle.fg_io.specs.Standard.{source_reader, source_faults, sink_writer, sink_faults};

use crate::Failed;
use crate::sink::Sink;
use crate::source::Source;
use std::io::{ErrorKind, Read, Write};
use std::rt::{Clock, Stderr, Stdin, Stdout};
use std::thread;
use std::time::Duration;

/// How many milliseconds pass before a call that would have to wait is made again.
const PAUSE: u64 = 1;

/// Standard input, as `StdinSource::new(rt.stdin(), rt)`.
pub type StdinSource<C> = ReaderSource<Stdin, C>;

/// Standard output, as `StdoutSink::new(rt.stdout(), rt)`.
pub type StdoutSink<C> = WriterSink<Stdout, C>;

/// Standard error, as `StderrSink::new(rt.stderr(), rt)`.
pub type StderrSink<C> = WriterSink<Stderr, C>;

/// Gives what a reader gives, and counts its faults. The count stands still at its last value. A reader that would have
/// to wait is asked again after a pause.
#[derive(Drop)]
pub struct ReaderSource<R, C> {
    reader: R,
    clock: C,
    faults: u64,
}

/// Hands what it takes to a writer, and counts its faults. The count stands still at its last value. A writer that would
/// have to wait is asked again after a pause.
#[derive(Drop)]
pub struct WriterSink<W, C> {
    writer: W,
    clock: C,
    faults: u64,
}

impl<R: Read, C: Clock> ReaderSource<R, C> {
    /// The reader, before any fault, and the clock for its pauses.
    pub fn new(reader: R, clock: C) -> ReaderSource<R, C>
        ensures reader { source_reader result ≡ reader }
        ensures faults { source_faults result ≡ 0 }
    {
        ReaderSource {
            reader,
            clock,
            faults: 0,
        }
    }
}

impl<W: Write, C: Clock> WriterSink<W, C> {
    /// The writer, before any fault, and the clock for its pauses.
    pub fn new(writer: W, clock: C) -> WriterSink<W, C>
        ensures writer { sink_writer result ≡ writer }
        ensures faults { sink_faults result ≡ 0 }
    {
        WriterSink {
            writer,
            clock,
            faults: 0,
        }
    }
}

impl<R: Read, C: Clock> Source for ReaderSource<R, C> {
    ghost left = { λ _. None };

    ghost faults = { source_faults };

    ghost Fixed = { Unit {0} };

    ghost fixed = { λ _. tt };

    fn read(&mut self, into: &mut [u8]) -> Result<usize, Failed>
        // What each source ensures.
        ensures bound { IfOk result (λ count. count ≤ length into.new) }
        ensures gives { IfOk result (λ count. Gives None (take count into.new) None) }
        ensures end { IfOk result (λ count. count ≡ 0 → 0 < length into.new → IsAtEnd None) }
        ensures no_fault { OnOk result (source_faults self.new ≡ source_faults self.old) }
        ensures counted { OnErr result (CountsFault (source_faults self.old)
            (source_faults self.new)) }
        ensures never_falls { source_faults self.old ≤ source_faults self.new }

        // Where the reader's bytes are known it gives them. The count rises by one, up to its last value.
        ensures bytes { ReadConsumes (R.remaining (source_reader self.old))
            (R.remaining (source_reader self.new)) result into.new }
        ensures err { OnErr result (source_faults self.new ≡ next_count (source_faults self.old)) }
    {
        let outcome = read_some(&mut self.reader, &self.clock, into);
        if outcome.is_err() {
            self.faults = self.faults.saturating_add(1);
        }
        outcome
    }
}

impl<W: Write, C: Clock> Sink for WriterSink<W, C> {
    ghost written = { λ _. None };

    ghost faults = { sink_faults };

    fn write(&mut self, piece: &[u8]) -> Result<usize, Failed>
        // What each sink ensures.
        ensures bound { IfOk result (λ count. count ≤ length piece.now) }
        ensures gains { IfOk result (λ count. Gains None (take count piece.now) None) }
        ensures full { IfOk result (λ count. count ≡ 0 → 0 < length piece.now
            → CountsFault (sink_faults self.old) (sink_faults self.new)) }
        ensures no_fault { IfOk result (λ count. (0 < count) ⊎ (length piece.now ≡ 0)
            → sink_faults self.new ≡ sink_faults self.old) }
        ensures counted { OnErr result (CountsFault (sink_faults self.old) (sink_faults self.new)) }
        ensures never_falls { sink_faults self.old ≤ sink_faults self.new }

        // Where the writer's bytes are known it has taken them. The count rises by one with Err alone, up to its last
        // value.
        ensures bytes { WriteAppends (W.contents (sink_writer self.old))
            (W.contents (sink_writer self.new)) result piece.now }
        ensures some { IfOk result (λ count. 0 < length piece.now → 0 < count) }
        ensures ok { OnOk result (sink_faults self.new ≡ sink_faults self.old) }
        ensures err { OnErr result (sink_faults self.new ≡ next_count (sink_faults self.old)) }
    {
        let outcome = write_some(&mut self.writer, &self.clock, piece);
        if outcome.is_err() {
            self.faults = self.faults.saturating_add(1);
        }
        outcome
    }
}

/// One read, again where it is worth it.
fn read_some<R: Read, C: Clock>(reader: &mut R, clock: &C, into: &mut [u8]) -> Result<usize, Failed>
    ensures bound { IfOk result (λ count. count ≤ length into.new) }
    ensures bytes { ReadConsumes (R.remaining reader.old) (R.remaining reader.new) result into.new }
{
    for _ in 0..u64::MAX {
        match reader.read(into) {
            Ok(count) => return Ok(count),
            Err(fault) if is_passing(clock, fault.kind()) => {}
            Err(_) => return Err(Failed),
        }
    }
    Err(Failed)
}

/// One write, again where it is worth it. A writer that takes none of a nonempty piece counts as failed.
fn write_some<W: Write, C: Clock>(writer: &mut W, clock: &C, piece: &[u8]) -> Result<usize, Failed>
    ensures bound { IfOk result (λ count. count ≤ length piece.now) }
    ensures some { IfOk result (λ count. 0 < length piece.now → 0 < count) }
    ensures bytes { WriteAppends (W.contents writer.old) (W.contents writer.new) result piece.now }
{
    for _ in 0..u64::MAX {
        match writer.write(piece) {
            Ok(count) if count > 0 || piece.is_empty() => return Ok(count),
            Err(fault) if is_passing(clock, fault.kind()) => {}
            _ => return Err(Failed),
        }
    }
    Err(Failed)
}

/// Whether a call that failed so is worth making again: a signal interrupted it, or it would have had to wait, which is
/// done here.
fn is_passing<C: Clock>(clock: &C, fault: ErrorKind) -> bool {
    match fault {
        ErrorKind::Interrupted => true,
        ErrorKind::WouldBlock => {
            thread::sleep(clock, Duration::from_millis(PAUSE));
            true
        }
        _ => false,
    }
}
