//! The encoding of a stream as a trace.
ghost use Rattle.std.specs.Prelude.{◌≡◌, ◌≤◌, ◌<◌, ◌^◌, ◌++◌, [], ◌∷◌, length, IfOk, IfSome, OnOk, OnErr};
ghost use Rattle.std.specs.Io.KnownBytes.{IsAtEnd};
ghost use Rattle.std.specs.List.{flat_map};
ghost use Rattle.fg_io.specs.Faults.{Counts};
ghost use Rattle.fg_io.specs.Sent.{Sent};
ghost use Rattle.fg_io.specs.Sink.{GainsPart};
ghost use Rattle.fg_shape.specs.Settings.{CanEncode};
ghost use Rattle.fg_trace.specs.Trace.{Record, spelling};
ghost use Rattle.fg_encode.specs.Encode.{Encodes, EncodesPart, ending_of};
ghost use Rattle.fg_encode.specs.Encoder.{StandsAfter as HasTaken};
ghost use Rattle.fg_encode.specs.Reading.{IsStreamReadFor};
ghost use Rattle.fg_encode.specs.Stream.{LeavesNothing};

use crate::laws::a_payload_more_adds_its_records;
use crate::stream::{StreamFault, StreamReader, StreamStep, one_cut, read_as_far_as_needed};
use crate::{Batch, Encoder};
use fg_io::{Fault, OutputBuffer, Sink, Source};
use fg_shape::Settings;
use fg_trace::{MAGIC, record_header};
use fg_walk::{Walking, walk};
use std::alloc::{AllocError, Global};

/// How many bytes of the trace are held at most.
const ROOM: usize = 65_536;

/// Encodes the stream in the input, which may have at most `max` bytes, 8 to 2^40, and writes the trace of its media and parity
/// datagrams to `out`. It answers how the stream ends.
///
/// The stream is cut into payloads of so many packets as the settings say, the last one as it comes. A `StreamFault` tells the
/// first that isn't whole packets, or isn't whole within the limit, and the trace of those before it is written. After a fault
/// `out` has gained a prefix of the trace.
pub fn encode<S: Source, K: Sink>(
    alloc: Global,
    settings: &Settings,
    max: u64,
    input: &mut S,
    out: &mut K,
) -> Result<Option<StreamFault>, Fault>
    requires settings { CanEncode settings.now }
    requires least { 8 ≤ max }
    requires limit { max ≤ 2 ^ 40 }

    // Where nothing fails the answer is the stream's ending, and all payloads before it are encoded.
    ensures whole { IfOk result (λ ending. Encodes settings.now max ending (S.left input.old)
        (K.written out.old) (K.written out.new)) }
    ensures all_read { IfOk result (λ ending. LeavesNothing ending → IsAtEnd (S.left input.new)) }

    // The input is read as far as the answer needs, and at most a byte past the limit.
    ensures reads { IfSome (S.left input.old) (λ bytes.
        IsStreamReadFor max (ending_of result) bytes (S.left input.new)) }

    // After a fault the trace is a part.
    ensures part { OnErr result (EncodesPart settings.now max (S.left input.old)
        (K.written out.old) (K.written out.new)) }
    ensures faults { Counts result ((S.faults input.old, S.faults input.new) ∷ [])
        ((K.faults out.old, K.faults out.new) ∷ []) }
    ensures fixed { S.fixed input.new ≡ S.fixed input.old }
{
    let mut reader = StreamReader::new(alloc, settings.packets, max)?;
    let mut encoding = Encoding::new(alloc, settings)?;
    walk(&mut encoding, &mut reader, input, out)
}

/// An encoding under way: what encodes the stream's payloads, the records of the last one, and the bytes of the trace that
/// aren't written yet.
#[derive(Drop)]
struct Encoding {
    encoder: Encoder,
    batch: Batch,
    trace: OutputBuffer,
}

impl Encoding {
    /// An encoding of which nothing is written. All its memory is taken here.
    fn new(alloc: Global, settings: &Settings) -> Result<Encoding, AllocError>
        requires { CanEncode settings.now }
        ensures taken { IfOk result (λ work. HasTaken work.encoder []) }
        ensures settings { IfOk result (λ work. work.encoder.settings ≡ settings.now) }
        ensures trace { IfOk result (λ work. work.trace ≡ []) }
    {
        Ok(Encoding {
            encoder: Encoder::new(alloc, *settings)?,
            batch: Batch::new(alloc)?,
            trace: OutputBuffer::new(alloc, ROOM)?,
        })
    }
}

impl Walking for Encoding {
    ghost use Rattle.std.specs.Prelude.{◌-◌, ℕ};
    ghost use Rattle.fg_shape.specs.declared.encoding.Settings.{Settings};
    ghost use Rattle.fg_encode.specs.EncodeSteps.{Breaks, HasEncoded, IsEncoded, IsNew, IsUnderway};

    type Reader = StreamReader;

    type Ending = Option<StreamFault>;

    ghost Given = { Settings × ℕ };

    ghost given = { λ work reader. (work.encoder.settings, reader.max) };

    ghost is_new = { IsNew };

    ghost is_underway = { IsUnderway };

    ghost has_ended = { HasEncoded };

    ghost whole = { λ given _. IsEncoded given.0 given.1 };

    ghost part = { λ given. Breaks given.0 given.1 };

    ghost steps_left = { λ _ reader. reader.max - reader.place };

    fn begin<K: Sink>(&mut self, out: &mut K) -> Result<(), Fault> {
        self.trace.add(&MAGIC, out)
    }

    /// Encodes the next payload, where there is one.
    fn step<S: Source, K: Sink>(
        &mut self,
        reader: &mut StreamReader,
        input: &mut S,
        out: &mut K,
    ) -> Result<Option<Option<StreamFault>>, Fault> {
        a_payload_more_adds_its_records();
        read_as_far_as_needed();
        match reader.next(input)? {
            StreamStep::Payload => {
                self.encoder.push(reader.payload(), &mut self.batch);
                add_all(&mut self.trace, &self.batch, out)?;
                Ok(None)
            }
            StreamStep::End(ending) => Ok(Some(ending)),
        }
    }

    fn end<K: Sink>(&mut self, _ending: Option<StreamFault>, out: &mut K) -> Result<(), Fault> {
        one_cut();
        self.trace.flush(out)
    }
}

/// Adds the records of the batch to the trace.
fn add_all<K: Sink>(trace: &mut OutputBuffer, batch: &Batch, out: &mut K) -> Result<(), Fault>
    ensures sent { OnOk result (Sent (K.written out.old)
        (trace.old ++ flat_map spelling batch.now) trace.new (K.written out.new)) }
    ensures part { OnErr result (GainsPart (K.written out.old)
        (trace.old ++ flat_map spelling batch.now) (K.written out.new)) }
    ensures faults { Counts result [] ((K.faults out.old, K.faults out.new) ∷ []) }
{
    for i in 0..batch.count() {
        let (time, port, datagram) = batch.item(i);
        add(trace, time, port, datagram, out)?;
    }
    Ok(())
}

/// Adds a record to the trace.
fn add<K: Sink>(
    trace: &mut OutputBuffer,
    time: u64,
    port: u16,
    datagram: &[u8],
    out: &mut K,
) -> Result<(), Fault>
    requires { length datagram.now < 2 ^ 16 }
    ensures sent { OnOk result (Sent (K.written out.old)
        (trace.old ++ spelling (record { time = time; port = port; datagram = datagram.now }))
        trace.new (K.written out.new)) }
    ensures part { OnErr result (GainsPart (K.written out.old)
        (trace.old ++ spelling (record { time = time; port = port; datagram = datagram.now }))
        (K.written out.new)) }
    ensures faults { Counts result [] ((K.faults out.old, K.faults out.new) ∷ []) }
{
    trace.add(&record_header(time, port, datagram.len() as u16), out)?;
    trace.add(datagram, out)
}
