//! Cutting a transport stream into the payloads of media datagrams.
ghost use Rattle.std.specs.Prelude.{◌≡◌, ◌+◌, ◌-◌, ◌*◌, ◌/◌, ◌<◌, ◌≤◌, ◌⊎◌, ◌^◌, ℕ, Option, List, [], ◌∷◌, ◌++◌, length, take, drop, min, true, false, IsSome, IsOk, IfOk, IfErr, IfSome, OnOk, OnErr, None, Some, MatchOption};
ghost use Rattle.fg_io.specs.Faults.{Counts};
ghost use Rattle.fg_io.specs.InputBuffer.{IsAhead};
ghost use Rattle.fg_ts.specs.Packets.{ArePackets, FirstFault, packet_length};
ghost use Rattle.fg_encode.specs.Reading.{ReadsAsFar, most_held};
ghost use Rattle.fg_encode.specs.Stream.{OneCut};
ghost use Rattle.fg_encode.specs.StreamReader.{StandsAfter, Walks, EndsHere, ending_told, new_reader};
ghost use Rattle.fg_encode.specs.StreamSteps.{Accepts, fault_from, reader_at};

use fg_io::{Ahead, Fault, InputBuffer, Source};
use fg_ts::{PACKET_LENGTH, TsFault, packet_count};
use fg_words::PAYLOAD_LIMIT;
use std::alloc::{AllocError, Global};
use std::marker::Model;

/// How many bytes the source is asked for at once. With them and a payload before them, 262,144 are held.
const PIECE: usize = 260_800;

/// The answer to a call for the next payload.
#[derive(Clone, Copy, Debug, PartialEq, Eq)]
pub enum StreamStep {
    /// The next payload. It stands in the reader's payload.
    Payload,
    /// The stream has ended with the payload before: none where that was its last, else why it ended early.
    End(Option<StreamFault>),
}

/// Why a stream ended early.
#[derive(Clone, Copy, Debug, PartialEq, Eq)]
pub enum StreamFault {
    /// The next payload isn't whole transport packets. `Ragged` has the length of the whole stream, and `NoSync` the number of
    /// the packet in the whole stream, counted from 0.
    NotTransport(TsFault),
    /// The stream has more bytes than it may, and the next payload isn't whole within the limit. The place is that of the
    /// payload's first byte.
    TooLong(u64),
}

/// Cuts a transport stream into payloads of so many packets, the last one as it comes, in the memory that it was made with and
/// whatever pieces the source gives.
///
/// A reader is for one source, from its first byte on. It reads at most one byte past the limit, and holds at most 262,144 bytes.
#[derive(Drop)]
pub struct StreamReader {
    input: InputBuffer,
    packets: u8,
    // How many bytes at the front of what the input holds were answered: the payload that was answered last.
    answered: usize,
    kept: Option<Option<StreamFault>>,
}

impl Model for StreamReader {
    ghost use Rattle.fg_encode.specs.StreamReader.{StreamState};
    ghost use Rattle.fg_encode.specs.StreamSteps.{IsReader, reader_of};

    ghost Value = { StreamState };

    ghost view = { λ a. reader_of a.input a.packets a.answered a.kept };

    ghost invariant = { λ a. IsReader a.input a.packets a.answered a.kept };
}

impl StreamReader {
    /// A reader of a stream that may have at most `max` bytes, which it cuts into payloads of so many packets. All its memory is
    /// taken here.
    pub fn new(alloc: Global, packets: u8, max: u64) -> Result<StreamReader, AllocError>
        requires packets { (1 ≤ packets) × (packets ≤ 7) }
        requires max { (8 ≤ max) × (max ≤ 2 ^ 40) }
        ensures new { IfOk result (λ reader. reader ≡ new_reader packets max) }
        ensures stands { IfOk result (λ reader.
            (first : Option (List ℕ)) → StandsAfter reader first first []) }
    {
        Ok(StreamReader {
            input: InputBuffer::new(alloc, max, PAYLOAD_LIMIT, PIECE)?,
            packets,
            answered: 0,
            kept: None,
        })
    }

    /// The next payload, which then stands in `payload`, or the stream's end.
    ///
    /// A stream ends with its last payload or early, for a `StreamFault`. Each later call answers that end again, and reads
    /// nothing. After a failed read, the only fault, what was read is kept: a later call goes on where the failed one stood.
    pub fn next<S: Source>(&mut self, from: &mut S) -> Result<StreamStep, Fault>
        ensures walks { (first : Option (List ℕ)) (payloads : List (List ℕ))
            → StandsAfter self.old first (S.left from.old) payloads
            → Walks result self.new first (S.left from.new) payloads }

        // An ending that is kept is answered again, and nothing is read.
        ensures kept { self.new.kept ≡ ending_told result }
        ensures again { IfSome self.old.kept (λ ending. result ≡ Ok (StreamStep.End ending)) }
        ensures unchanged { IsSome self.old.kept → (self.new ≡ self.old) × (from.new ≡ from.old) }

        // What the answer tells, also where the source doesn't tell its bytes.
        ensures ending { IfSome self.new.kept (λ ending.
            EndsHere ending self.new.packets self.new.max self.new.place self.new.held self.new.ended) }
        ensures payload { result ≡ Ok StreamStep.Payload
            → (count : ℕ) × (1 ≤ count) × (count ≤ self.new.packets) × ArePackets self.new.payload count }
        ensures other { (result ≡ Ok StreamStep.Payload) ⊎ (self.new.payload ≡ []) }
        ensures place { self.new.place ≡ self.old.place + length self.new.payload }

        // A payload has as many packets as the reader was made for, or is the last one.
        ensures last { result ≡ Ok StreamStep.Payload
            → (length self.new.payload ≡ packet_length * self.new.packets)
            ⊎ ((self.new.ended ≡ true) × (self.new.held ≡ [])) }
        ensures ended { self.old.ended ≡ true
            → (self.new.ended ≡ true) × (self.new.payload ++ self.new.held ≡ self.old.held) }
        ensures within { self.new.place ≤ self.new.max }
        ensures bounded { self.new.place + length self.new.held ≤ self.new.max + 1 }
        ensures few { length self.new.held ≤ most_held }
        ensures packets { self.new.packets ≡ self.old.packets }
        ensures max { self.new.max ≡ self.old.max }
        ensures fault { IfErr result (λ fault. fault ≡ Fault.Read) }
        ensures faults { Counts result ((S.faults from.old, S.faults from.new) ∷ []) [] }
        ensures fixed { S.fixed from.new ≡ S.fixed from.old }
    {
        if let Some(ending) = self.kept {
            return Ok(StreamStep::End(ending));
        }
        self.input.step(self.answered);
        self.answered = 0;
        let size = PACKET_LENGTH * usize::from(self.packets);
        let ahead = self.input.fill(from, size)?;
        match ending(&self.input, self.packets, ahead) {
            Some(ending) => {
                self.kept = Some(ending);
                Ok(StreamStep::End(ending))
            }
            None => {
                self.answered = next_payload(&self.input, self.packets).len();
                Ok(StreamStep::Payload)
            }
        }
    }

    /// The payload that was answered last. It is empty before the first, and after any other answer.
    pub fn payload(&self) -> &[u8]
        ensures { result.now ≡ self.now.payload }
    {
        &self.input.held()[..self.answered]
    }
}

/// The ending that is here, of a stream that is cut into payloads of so many packets, where this stands ahead for the next one;
/// none where that is acceptable.
fn ending(input: &InputBuffer, packets: u8, ahead: Ahead) -> Option<Option<StreamFault>>
    requires packets { (1 ≤ packets) × (packets ≤ 7) }
    requires max { input.now.max ≤ 2 ^ 40 }
    requires ahead { IsAhead ahead input.now (packet_length * packets) }
    ensures { MatchOption result (Accepts (reader_at input.now packets None)) (λ ending.
        EndsHere ending packets input.now.max input.now.place input.now.held input.now.ended) }
{
    match ahead {
        Ahead::PastLimit => return Some(Some(StreamFault::TooLong(input.place()))),
        Ahead::EndsHere => return Some(None),
        Ahead::Whole | Ahead::EndsInside => {}
    }
    match packet_count(next_payload(input, packets)) {
        Ok(_) => None,
        Err(fault) => {
            let fault = in_stream(input.place(), fault);
            Some(Some(StreamFault::NotTransport(fault)))
        }
    }
}

/// The next payload, of so many packets, or all that is held.
fn next_payload(input: &InputBuffer, packets: u8) -> &[u8]
    requires { packets ≤ 7 }
    ensures { result.now ≡ take (packet_length * packets) input.now.held }
{
    let held = input.held();
    &held[..held.len().min(PACKET_LENGTH * usize::from(packets))]
}

/// The fault of a payload that begins at a place, as the whole stream's.
fn in_stream(place: u64, fault: TsFault) -> TsFault
    requires { (payload : List ℕ) × FirstFault fault payload × (place + length payload ≤ 2 ^ 40) }
    ensures { result ≡ fault_from place fault }
{
    match fault {
        TsFault::Ragged(size) => TsFault::Ragged(place + size),
        TsFault::NoSync(number) => TsFault::NoSync(place / PACKET_LENGTH as u64 + number),
    }
}

/// A stream is cut in one way: its payloads and its ending follow from its bytes.
pub fn one_cut()
    ensures { OneCut }
{}

/// A reader's source was read as far as an ending needs that was answered: to its end, past the limit, or into the packet without
/// the sync byte and at most a buffer past its place. Never more than a byte past the limit was read.
pub fn read_as_far_as_needed()
    ensures { ReadsAsFar }
{}
