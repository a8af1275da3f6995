//! Making a trace of a capture.
ghost use Rattle.std.specs.Prelude.{◌≡◌, ◌≤◌, ◌^◌, ℕ, List, [], ◌∷◌, IfOk, IfErr, IfSome, OnOk, OnErr};
ghost use Rattle.std.specs.Io.KnownBytes.{IsAtEnd};
ghost use Rattle.fg_io.specs.Faults.{Counts};
ghost use Rattle.fg_pcap.specs.Capture.{IsRefused};
ghost use Rattle.fg_pcap.specs.FromCapture.{ComesTo, Converts, ConvertsPart, LeavesNothing, ReachesFor};
ghost use Rattle.fg_pcap.specs.ReadFor.{IsReadFor, ending_of};
ghost use Rattle.fg_pcap.specs.Reading.{SendsFrames, SendsPart};

use crate::capture_reader::{LONGEST, PIECE, look, open};
use crate::ending::CaptureEnding;
use crate::file_header::Format;
use crate::frame::datagram_of;
use crate::laws::one_capture;
use crate::packet_header::PACKET_HEADER;
use fg_io::{Fault, InputBuffer, OutputBuffer, Sink, Source};
use fg_trace::{MAGIC, record_header};
use fg_walk::{Walking, walk};
use std::alloc::Global;

/// How many bytes of the trace are gathered before they are written.
const ROOM: usize = 262_144;

/// Makes a trace of a capture: the datagrams that its frames give, in order. It answers how the capture ends.
///
/// The capture is read to its end, to where it is none, or past the limit, and `out` gains the trace in large pieces: the
/// magic, and a record for each frame that gives a datagram, with the frame's time in microseconds, the UDP port that it was
/// sent to and its payload. Where the file header is refused nothing is written. After a fault `out` has gained a prefix of
/// the trace.
pub fn from_capture<S: Source, K: Sink>(
    alloc: Global,
    max: u64,
    input: &mut S,
    out: &mut K,
) -> Result<CaptureEnding, Fault>
    requires least { 8 ≤ max }
    requires limit { max ≤ 2 ^ 40 }

    // Where nothing fails the answer is the capture's ending, and its trace is written.
    ensures whole { IfOk result (λ ending. Converts max ending (S.left input.old)
        (K.written out.old) (K.written out.new)) }
    ensures exactly { IfOk result (λ ending. IfSome (S.left input.old) (λ bytes. (trace : List ℕ) (end : CaptureEnding)
        → ComesTo bytes max trace end → ending ≡ end)) }
    ensures all_read { IfOk result (λ ending. LeavesNothing ending → IsAtEnd (S.left input.new)) }

    // The input is read as far as the answer needs, and at most a byte past the limit.
    ensures reads { IfSome (S.left input.old) (λ bytes.
        IsReadFor (ReachesFor max) max (ending_of result) bytes (S.left input.new)) }

    // Where the file header is refused nothing is written, whatever the answer.
    ensures refused { IfSome (S.left input.old) (λ bytes. (end : CaptureEnding)
        → IsRefused bytes max end → out.new ≡ out.old) }

    // After a fault the trace is a part.
    ensures part { OnErr result (ConvertsPart max (S.left input.old)
        (K.written out.old) (K.written out.new)) }

    // A fault of the outside is answered only where it was counted in this call, and with every other answer none was. No
    // count falls.
    ensures faults { Counts result ((S.faults input.old, S.faults input.new) ∷ [])
        ((K.faults out.old, K.faults out.new) ∷ []) }
{
    one_capture();
    let mut buffer = InputBuffer::new(alloc, max, LONGEST, PIECE)?;
    let trace = OutputBuffer::new(alloc, ROOM)?;
    match open(&mut buffer, input)? {
        Ok(format) => {
            let mut conversion = Conversion { format, trace };
            walk(&mut conversion, &mut buffer, input, out)
        }
        Err(ending) => Ok(ending),
    }
}

/// A conversion under way: how the capture is to be read, and the bytes of the trace that aren't written yet.
#[derive(Drop)]
struct Conversion {
    format: Format,
    trace: OutputBuffer,
}

impl Walking for Conversion {
    ghost use Rattle.std.specs.Prelude.{◌-◌, ℕ};
    ghost use Rattle.fg_pcap.specs.Reading.{Breaks, GoesOn, HasEnded, IsConverted, IsNew};

    type Reader = InputBuffer;

    type Ending = CaptureEnding;

    ghost Given = { ℕ };

    ghost given = { λ _ input. input.max };

    ghost is_new = { λ work. IsNew work.format work.trace };

    ghost is_underway = { λ work. GoesOn work.format work.trace };

    ghost has_ended = { λ work. HasEnded work.format work.trace };

    ghost whole = { λ max _. IsConverted max };

    ghost part = { Breaks };

    ghost steps_left = { λ _ input. input.max - input.place };

    fn begin<K: Sink>(&mut self, out: &mut K) -> Result<(), Fault> {
        self.trace.add(&MAGIC, out)
    }

    /// Sends the datagram of the next record, where there is one.
    fn step<S: Source, K: Sink>(
        &mut self,
        reader: &mut InputBuffer,
        input: &mut S,
        out: &mut K,
    ) -> Result<Option<CaptureEnding>, Fault> {
        let header = match look(self.format.order, reader, input)? {
            Ok(header) => header,
            Err(ending) => return Ok(Some(ending)),
        };
        let size = PACKET_HEADER + header.kept as usize;
        send_frame(
            header.time(self.format.unit),
            &reader.held()[PACKET_HEADER..size],
            &mut self.trace,
            out,
        )?;
        reader.step(size);
        Ok(None)
    }

    fn end<K: Sink>(&mut self, _ending: CaptureEnding, out: &mut K) -> Result<(), Fault> {
        self.trace.flush(out)
    }
}

/// Sends the record of a frame's datagram, if it gives one. The time is in microseconds.
fn send_frame<K: Sink>(
    time: u64,
    frame: &[u8],
    trace: &mut OutputBuffer,
    out: &mut K,
) -> Result<(), Fault>
    ensures sent { OnOk result (SendsFrames (record { time = time; bytes = frame.now } ∷ [])
        trace.old trace.new (K.written out.old) (K.written out.new)) }
    ensures part { OnErr result (SendsPart (record { time = time; bytes = frame.now } ∷ [])
        trace.old (K.written out.old) (K.written out.new)) }
    ensures fault { IfErr result (λ fault. fault ≡ Fault.Write) }
    ensures faults { Counts result [] ((K.faults out.old, K.faults out.new) ∷ []) }
{
    let Some((port, payload)) = datagram_of(frame) else {
        return Ok(());
    };
    trace.add(&record_header(time, port, payload.len() as u16), out)?;
    trace.add(payload, out)
}
