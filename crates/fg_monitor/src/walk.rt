//! Walking a stream, and telling its faults.
ghost use Rattle.std.specs.Prelude.{◌≡◌, ◌≤◌, ◌^◌, [], ◌∷◌, length, take, IfOk, IfSome, OnErr};
ghost use Rattle.std.specs.Io.KnownBytes.{IsAtEnd};
ghost use Rattle.fg_io.specs.Faults.{Counts};
ghost use Rattle.fg_io.specs.InputBuffer.{IsAhead};
ghost use Rattle.fg_ts.specs.Packets.{packet_length};
ghost use Rattle.fg_encode.specs.Encode.{ending_of};
ghost use Rattle.fg_encode.specs.Reading.{IsStreamReadFor};
ghost use Rattle.fg_encode.specs.Stream.{LeavesNothing};
ghost use Rattle.fg_monitor.specs.Kept.{HasSeen};
ghost use Rattle.fg_monitor.specs.Monitored.{Monitors, MonitorsPart};
ghost use Rattle.fg_monitor.specs.Steps.{IsEndingHere};

use crate::continuity::Monitor;
use crate::laws::{one_text, one_to_tell};
use crate::lines::Lines;
use fg_encode::stream::{StreamFault, one_cut, read_as_far_as_needed};
use fg_io::{Ahead, Fault, InputBuffer, Sink, Source};
use fg_ts::{PACKET_LENGTH, SYNC_BYTE, TsFault};
use fg_walk::{Walking, walk};
use std::alloc::{AllocError, Global};

/// How many bytes the source is asked for at once.
const PIECE: usize = 65_536;

/// Monitors the stream in the input, which may have at most `max` bytes, 8 to 2^40, and writes its text to `out`. It answers how
/// the stream ends.
///
/// A line for each packet that breaks the continuity of its PID has the packet's number from 0, its PID, its counter and that of
/// the last packet of its PID, and the last line says how many packets and faults there are. It is left out where the stream
/// ends early: a `StreamFault` tells the first packet that isn't whole, begins with another byte than the sync byte, or isn't
/// whole within the limit, and the lines of those before it are written. After a fault `out` has gained a prefix of the text.
pub fn monitor_stream<S: Source, K: Sink>(
    alloc: Global,
    max: u64,
    input: &mut S,
    out: &mut K,
) -> Result<Option<StreamFault>, Fault>
    requires least { 8 ≤ max }
    requires limit { max ≤ 2 ^ 40 }

    // Where nothing fails the answer is the stream's ending, and all faults among the packets before it are told.
    ensures whole { IfOk result (λ ending. Monitors max ending (S.left input.old)
        (K.written out.old) (K.written out.new)) }
    ensures all_read { IfOk result (λ ending. LeavesNothing ending → IsAtEnd (S.left input.new)) }

    // The input is read as far as the answer needs, and at most a byte past the limit.
    ensures reads { IfSome (S.left input.old) (λ bytes.
        IsStreamReadFor max (ending_of result) bytes (S.left input.new)) }

    // After a fault the text is a part.
    ensures part { OnErr result (MonitorsPart max (S.left input.old)
        (K.written out.old) (K.written out.new)) }
    ensures faults { Counts result ((S.faults input.old, S.faults input.new) ∷ [])
        ((K.faults out.old, K.faults out.new) ∷ []) }
    ensures fixed { S.fixed input.new ≡ S.fixed input.old }
{
    let mut input_buffer = InputBuffer::new(alloc, max, PACKET_LENGTH, PIECE)?;
    let mut monitoring = Monitoring::new(alloc)?;
    walk(&mut monitoring, &mut input_buffer, input, out)
}

/// A monitoring under way: what the monitor was fed, and the lines that aren't written yet.
#[derive(Drop)]
struct Monitoring {
    monitor: Monitor,
    lines: Lines,
}

impl Monitoring {
    /// A monitoring of which nothing is written. All its memory is taken here.
    fn new(alloc: Global) -> Result<Monitoring, AllocError>
        ensures seen { IfOk result (λ monitoring. HasSeen monitoring.monitor []) }
        ensures held { IfOk result (λ monitoring. monitoring.lines.held ≡ []) }
        ensures faults { IfOk result (λ monitoring. monitoring.lines.faults ≡ 0) }
    {
        Ok(Monitoring {
            monitor: Monitor::new(alloc)?,
            lines: Lines::new(alloc)?,
        })
    }
}

impl Walking for Monitoring {
    ghost use Rattle.std.specs.Prelude.{◌-◌, ℕ};
    ghost use Rattle.fg_monitor.specs.Steps.{Breaks, HasMonitored, HasWalked, IsNew, IsUnderway};

    type Reader = InputBuffer;

    type Ending = Option<StreamFault>;

    ghost Given = { ℕ };

    ghost given = { λ _ input. input.max };

    ghost is_new = { IsNew };

    ghost is_underway = { IsUnderway };

    ghost has_ended = { HasWalked };

    ghost whole = { λ max _. HasMonitored max };

    ghost part = { Breaks };

    ghost steps_left = { λ _ input. input.max - input.place };

    fn begin<K: Sink>(&mut self, _out: &mut K) -> Result<(), Fault> {
        Ok(())
    }

    /// Tells the next packet, where there is one.
    fn step<S: Source, K: Sink>(
        &mut self,
        reader: &mut InputBuffer,
        input: &mut S,
        out: &mut K,
    ) -> Result<Option<Option<StreamFault>>, Fault> {
        one_to_tell();
        read_as_far_as_needed();
        let ahead = reader.fill(input, PACKET_LENGTH)?;
        if let Some(ending) = ending_here(reader, ahead) {
            return Ok(Some(ending));
        }
        let told = self.monitor.feed(next_packet(reader));
        self.lines.add(told, out)?;
        reader.step(PACKET_LENGTH);
        Ok(None)
    }

    /// Writes the last lines.
    fn end<K: Sink>(&mut self, ending: Option<StreamFault>, out: &mut K) -> Result<(), Fault> {
        one_cut();
        one_text();
        self.lines.close(ending, self.monitor.fed(), out)
    }
}

/// The ending that is here, where this stands ahead for the next packet; none where that is a whole packet.
fn ending_here(input: &InputBuffer, ahead: Ahead) -> Option<Option<StreamFault>>
    requires max { input.now.max ≤ 2 ^ 40 }
    requires ahead { IsAhead ahead input.now packet_length }
    ensures { IsEndingHere result input.now }
{
    match ahead {
        Ahead::Whole if input.held()[0] == SYNC_BYTE => None,
        Ahead::Whole => {
            let number = input.place() / PACKET_LENGTH as u64;
            Some(Some(StreamFault::NotTransport(TsFault::NoSync(number))))
        }
        Ahead::EndsHere => Some(None),
        Ahead::EndsInside => {
            let length = input.place() + input.held().len() as u64;
            Some(Some(StreamFault::NotTransport(TsFault::Ragged(length))))
        }
        Ahead::PastLimit => Some(Some(StreamFault::TooLong(input.place()))),
    }
}

/// The next packet, which is held.
fn next_packet(input: &InputBuffer) -> &[u8; PACKET_LENGTH]
    requires { packet_length ≤ length input.now.held }
    ensures { result.now ≡ take packet_length input.now.held }
{
    let held = input.held();
    held[..PACKET_LENGTH].first_chunk().unwrap()
}
