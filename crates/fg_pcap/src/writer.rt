//! Writing a trace as a capture.
ghost use Rattle.std.specs.Prelude.{◌≡◌, ◌+◌, ◌<◌, ◌≤◌, ◌^◌, ◌++◌, ℕ, List, [], ◌∷◌, length, IfOk, IfSome, OnOk, OnErr};
ghost use Rattle.std.specs.Io.KnownBytes.{IsAtEnd};
ghost use Rattle.fg_io.specs.Faults.{Counts};
ghost use Rattle.fg_io.specs.Sent.{Sent};
ghost use Rattle.fg_io.specs.Sink.{GainsPart};
ghost use Rattle.fg_trace.specs.Trace.{Record, NotTrace as NoMagic, IsTrace};
ghost use Rattle.fg_pcap.specs.ReadFor.{IsReadFor, ending_of};
ghost use Rattle.fg_pcap.specs.Spelling as spelled;
ghost use Rattle.fg_pcap.specs.Spelling.{seconds_end, most_datagram};
ghost use Rattle.fg_pcap.specs.ToCapture.{ComesBack, IsSpelled, LeavesNothing, ReachesFor, Spells, SpellsPart, WritesCapture};

use crate::laws::{one_spelling, written_is_read_back};
use crate::spelling::{FILE_HEADER_BYTES, fit, headers};
use fg_io::{Fault, OutputBuffer, Sink, Source};
use fg_trace::laws::read_as_far_as_needed;
use fg_trace::{Reader, Step, TraceFault};
use fg_walk::{Walking, walk};
use std::alloc::Global;

/// How many bytes of the capture are held at most.
const ROOM: usize = 262_144;

/// How the writing of a trace as a capture ends.
#[derive(Clone, Copy, Debug, PartialEq, Eq)]
pub enum SpellingEnding {
    /// All records of the trace are written.
    Done,
    /// As [`TraceFault::NotTrace`].
    NotTrace(u64),
    /// The record with this number, counted from 0, is the first that doesn't fit a capture, as [`fit`] says.
    Unfit(u64),
    /// As [`TraceFault::Cut`].
    Cut(u64),
    /// As [`TraceFault::TooLong`].
    TooLong(u64),
}

/// What is spelled of a capture and not written, and how many records it has.
#[derive(Drop)]
struct Spelling {
    held: OutputBuffer,
    number: u64,
}

/// Writes a trace, which may have at most `max` bytes, 8 to 2^40, as a capture: a classic pcap file of UDP datagrams. It answers
/// how that ends.
///
/// The trace is read to its end, to the first byte that differs from the magic, through the first record that doesn't fit, or
/// past the limit, and `out` gains the capture of the records before that in large pieces. `NotTrace` writes nothing, and every
/// other ending at least the file header. After a fault `out` has gained a prefix of what is written.
pub fn to_capture<S: Source, K: Sink>(
    alloc: Global,
    max: u64,
    input: &mut S,
    out: &mut K,
) -> Result<SpellingEnding, Fault>
    requires least { 8 ≤ max }
    requires limit { max ≤ 2 ^ 40 }

    // Where nothing fails, the records that the input's trace has before the first that doesn't fit are written, and all where
    // all fit.
    ensures whole { IfOk result (λ ending. Spells max ending (S.left input.old)
        (K.written out.old) (K.written out.new)) }
    ensures exactly { IfOk result (λ ending. IfSome (S.left input.old) (λ bytes. (due : SpellingEnding) (records : List Record)
        → IsSpelled due bytes max records → ending ≡ due)) }
    ensures all_read { IfOk result (λ ending. LeavesNothing ending → IsAtEnd (S.left input.new)) }

    // What is written is a capture from which `from_capture` makes the trace of the records that were written.
    ensures comes_back { IfOk result (λ ending. IfSome (S.left input.old) (λ bytes. WritesCapture ending
        → ComesBack max ending bytes (K.written out.old) (K.written out.new))) }

    // The input is read as far as the answer needs, and at most a byte past the limit.
    ensures reads { IfSome (S.left input.old) (λ bytes.
        IsReadFor (ReachesFor max) max (ending_of result) bytes (S.left input.new)) }

    // What is no trace has nothing written, whatever the answer.
    ensures refused { IfSome (S.left input.old) (λ bytes. (place : ℕ)
        → IsTrace bytes max [] (NoMagic place) → out.new ≡ out.old) }

    // After a fault a prefix is written.
    ensures part { OnErr result (SpellsPart max (S.left input.old)
        (K.written out.old) (K.written out.new)) }

    // A fault of the outside is answered only where it was counted in this call, and with every other answer none was. No
    // count falls.
    ensures faults { Counts result ((S.faults input.old, S.faults input.new) ∷ [])
        ((K.faults out.old, K.faults out.new) ∷ []) }
{
    one_spelling();
    written_is_read_back();
    read_as_far_as_needed();
    let held = OutputBuffer::new(alloc, ROOM)?;
    let mut reader = Reader::new(alloc, max)?;
    match reader.start(input) {
        Ok(()) => {
            let mut spelling = Spelling { held, number: 0 };
            walk(&mut spelling, &mut reader, input, out)
        }
        Err(TraceFault::NotTrace(place)) => Ok(SpellingEnding::NotTrace(place)),
        Err(TraceFault::ReadFault) => Err(Fault::Read),
        Err(TraceFault::Cut(_)) => unreachable!(),
        Err(TraceFault::TooLong(_)) => unreachable!(),
    }
}

impl Spelling {
    /// Spells a record that fits.
    fn add<K: Sink>(
        &mut self,
        time: u64,
        port: u16,
        datagram: &[u8],
        out: &mut K,
    ) -> Result<(), Fault>
        requires time { time < seconds_end }
        requires size { length datagram.now ≤ most_datagram }
        requires number { self.old.number < 2 ^ 60 }
        ensures sent { OnOk result (Sent (K.written out.old)
            (self.old.held ++ spelled.spelling (record { time = time; port = port; datagram = datagram.now }))
            self.new.held (K.written out.new)) }
        ensures part { OnErr result (GainsPart (K.written out.old)
            (self.old.held ++ spelled.spelling (record { time = time; port = port; datagram = datagram.now }))
            (K.written out.new)) }
        ensures number { OnOk result (self.new.number ≡ self.old.number + 1) }
        ensures faults { Counts result [] ((K.faults out.old, K.faults out.new) ∷ []) }
    {
        self.held
            .add(&headers(time, port, datagram.len() as u16), out)?;
        self.held.add(datagram, out)?;
        self.number += 1;
        Ok(())
    }
}

impl Walking for Spelling {
    ghost use Rattle.std.specs.Prelude.{◌-◌, ℕ};
    ghost use Rattle.fg_pcap.specs.Steps.{Breaks, HasSpelled, IsNew, IsUnderway, IsWritten};

    type Reader = Reader;

    type Ending = SpellingEnding;

    ghost Given = { ℕ };

    ghost given = { λ _ reader. reader.max };

    ghost is_new = { IsNew };

    ghost is_underway = { IsUnderway };

    ghost has_ended = { HasSpelled };

    ghost whole = { λ max _. IsWritten max };

    ghost part = { Breaks };

    ghost steps_left = { λ _ reader. reader.max - reader.place };

    fn begin<K: Sink>(&mut self, out: &mut K) -> Result<(), Fault> {
        self.held.add(&FILE_HEADER_BYTES, out)
    }

    /// Spells the next record, where there is one that fits.
    fn step<S: Source, K: Sink>(
        &mut self,
        reader: &mut Reader,
        input: &mut S,
        out: &mut K,
    ) -> Result<Option<SpellingEnding>, Fault> {
        match reader.next(input) {
            Ok(Step::Datagram { time, port, size }) => {
                if !fit(time, size) {
                    return Ok(Some(SpellingEnding::Unfit(self.number)));
                }
                self.add(time, port, reader.payload(), out)?;
                Ok(None)
            }
            Ok(Step::End) => Ok(Some(SpellingEnding::Done)),
            Err(TraceFault::Cut(place)) => Ok(Some(SpellingEnding::Cut(place))),
            Err(TraceFault::TooLong(place)) => Ok(Some(SpellingEnding::TooLong(place))),
            Err(TraceFault::ReadFault) => Err(Fault::Read),
            Err(TraceFault::NotTrace(_)) => unreachable!(),
        }
    }

    fn end<K: Sink>(&mut self, _ending: SpellingEnding, out: &mut K) -> Result<(), Fault> {
        one_spelling();
        self.held.flush(out)
    }
}
