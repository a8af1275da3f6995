//! Reading a capture, through one buffer.
ghost use Rattle.std.specs.Prelude.{◌≡◌, ◌⊎◌, ◌+◌, ◌≤◌, ◌<◌, ◌^◌, ℕ, Option, List, [], ◌∷◌, length, true, false, IfOk, IfErr, IfSome, IfNone, OnErr};
ghost use Rattle.std.specs.Io.KnownBytes.{IsAtEnd};
ghost use Rattle.fg_io.specs.Faults.{Counts};
ghost use Rattle.fg_io.specs.InputBuffer.{TakesMore};
ghost use Rattle.fg_pcap.specs.Capture.{IsRefused};
ghost use Rattle.fg_pcap.specs.FromCapture.{most_held};
ghost use Rattle.fg_pcap.specs.Reading.{EndsHere, Has, HasReached, HasRead, HoldsPacket, IsReading, Lacks, StandsAfter};

use crate::ending::CaptureEnding;
use crate::file_header::{ByteOrder, FILE_HEADER, Format, read_file_header};
use crate::packet_header::{PACKET_HEADER, PacketHeader};
use fg_io::{Ahead, Fault, InputBuffer, Source};

/// The most bytes that a record may keep.
const MOST_KEPT: u32 = 262_144;

/// The most bytes of a record.
pub(crate) const LONGEST: usize = PACKET_HEADER + 262_144;

/// How many bytes the source is asked for at once: whole pages of 4,096, and a record at least.
pub(crate) const PIECE: usize = 266_240;

/// Reads the file header. The answer is how the capture is to be read, or how it ends where the file header is refused.
pub(crate) fn open<S: Source>(
    input: &mut InputBuffer,
    from: &mut S,
) -> Result<Result<Format, CaptureEnding>, Fault>
    requires reading { IsReading input.old }
    requires start { input.old.place ≡ 0 }
    requires empty { input.old.held ≡ [] }
    ensures opens { IfOk result (λ opened. IfOk opened (λ format.
        StandsAfter format input.new (S.left from.old) (S.left from.new) [])) }
    ensures refuses { IfOk result (λ opened. IfErr opened (λ ending.
        IfSome (S.left from.old) (λ bytes. IsRefused bytes input.new.max ending))) }
    ensures reading { IfOk result (λ opened. IfOk opened (λ format. IsReading input.new)) }
    ensures read { HasRead input.new (S.left from.old) (S.left from.new) }
    ensures max { input.new.max ≡ input.old.max }
    ensures bounded { input.new.place + length input.new.held ≤ input.new.max + 1 }
    ensures reached { IfOk result (λ opened. IfErr opened (λ ending.
        HasReached ending input.new (S.left from.new))) }
    ensures fault { IfErr result (λ fault. fault ≡ Fault.Read) }
    ensures faults { Counts result ((S.faults from.old, S.faults from.new) ∷ []) [] }
{
    match input.fill(from, FILE_HEADER)? {
        Ahead::Whole => match read_file_header(input.held()) {
            Ok(format) => {
                input.step(FILE_HEADER);
                Ok(Ok(format))
            }
            Err(place) => Ok(Err(CaptureEnding::NotCapture(place))),
        },
        Ahead::EndsHere => Ok(Err(CaptureEnding::NotCapture(0))),
        Ahead::EndsInside => Ok(Err(CaptureEnding::NotCapture(input.held().len() as u64))),
        Ahead::PastLimit => Ok(Err(CaptureEnding::TooLong(0))),
    }
}

/// Looks for the next record, and reads it whole. The answer is its header, or how the capture ends.
pub(crate) fn look<S: Source>(
    order: ByteOrder,
    input: &mut InputBuffer,
    from: &mut S,
) -> Result<Result<PacketHeader, CaptureEnding>, Fault>
    requires reading { IsReading input.old }
    ensures takes { TakesMore input.old.held (S.left from.old) input.new.held (S.left from.new) }
    ensures same { input.new ≡ record input.old { held = input.new.held; ended = input.new.ended } }
    ensures holds { IfOk result (λ found. IfOk found (HoldsPacket order input.new)) }
    ensures reading { IfOk result (λ found. IfOk found (λ header. IsReading input.new)) }
    ensures ends { IfOk result (λ found. IfErr found (λ ending.
        EndsHere order ending input.new (S.left from.new))) }
    ensures reached { IfOk result (λ found. IfErr found (λ ending.
        HasReached ending input.new (S.left from.new))) }
    ensures bounded { input.new.place + length input.new.held ≤ input.new.max + 1 }
    ensures few { length input.new.held ≤ most_held }
    ensures fault { IfErr result (λ fault. fault ≡ Fault.Read) }
    ensures faults { Counts result ((S.faults from.old, S.faults from.new) ∷ []) [] }
    ensures fixed { S.fixed from.new ≡ S.fixed from.old }
{
    if let Some(ending) = ask(input, from, PACKET_HEADER)? {
        return Ok(Err(ending));
    }
    let header = PacketHeader::read(order, input.held());
    if header.kept > MOST_KEPT {
        return Ok(Err(CaptureEnding::NotCapture(input.place())));
    }
    if let Some(ending) = ask(input, from, PACKET_HEADER + header.kept as usize)? {
        return Ok(Err(ending));
    }
    Ok(Ok(header))
}

/// Reads until so many bytes are held. It answers the ending that is here where there aren't so many within the limit.
fn ask<S: Source>(
    input: &mut InputBuffer,
    from: &mut S,
    want: usize,
) -> Result<Option<CaptureEnding>, Fault>
    requires some { 1 ≤ want }
    requires want { want ≤ LONGEST }
    requires reading { IsReading input.old }
    ensures takes { TakesMore input.old.held (S.left from.old) input.new.held (S.left from.new) }
    ensures same { input.new ≡ record input.old { held = input.new.held; ended = input.new.ended } }
    ensures has { IfOk result (λ ending. IfNone ending (Has input.new want)) }
    ensures lacks { IfOk result (λ ending. IfSome ending (λ ending.
        Lacks ending input.new (S.left from.new) want)) }
    ensures failed { OnErr result (input.new.ended ≡ false) }
    ensures bounded { input.new.place + length input.new.held ≤ input.new.max + 1 }
    ensures few { length input.new.held ≤ most_held }
    ensures fault { IfErr result (λ fault. fault ≡ Fault.Read) }
    ensures faults { Counts result ((S.faults from.old, S.faults from.new) ∷ []) [] }
    ensures fixed { S.fixed from.new ≡ S.fixed from.old }
{
    match input.fill(from, want)? {
        Ahead::Whole => Ok(None),
        Ahead::EndsHere => Ok(Some(CaptureEnding::Ended)),
        Ahead::EndsInside => Ok(Some(CaptureEnding::Cut(input.place()))),
        Ahead::PastLimit => Ok(Some(CaptureEnding::TooLong(input.place()))),
    }
}
