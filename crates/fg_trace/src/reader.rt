//! Walking a trace.
ghost use Rattle.std.specs.Prelude.{◌≡◌, ◌+◌, ◌-◌, ◌<◌, ◌≤◌, ◌⊎◌, ◌↔◌, ℕ, Option, List, [], ◌∷◌, length, take, drop, true, false, IsSome, IsNone, IsTrue, IsOk, IsOkAnd, IfOk, IfErr, IfSome, IfNone, OnErr, Ok, Err, None, Some};
ghost use Rattle.std.specs.Io.KnownBytes.{IsAtEnd};
ghost use Rattle.fg_io.specs.Faults.{Answers, CountsFaults};
ghost use Rattle.fg_io.specs.InputBuffer as buffer;
ghost use Rattle.fg_io.specs.InputBuffer.{TakesMore};
ghost use Rattle.fg_trace.specs.Trace.{Record, magic};
ghost use Rattle.fg_trace.specs.Reader.{StandsBefore, StandsAfter, Opens, Walks, payload_size, record_size, kept_answer, ending_at, ReadsToEnd, start_answer, IsDecided, IsOfStart, IsOfNext, new_reader};
ghost use Rattle.fg_trace.specs.Reading.{HoldsNext, most_held};
ghost use Rattle.fg_trace.specs.Walk.{Finds, Has, HoldsRecord, IsRecord, Lacks};

use crate::header::{HEADER, Header, LARGEST, MAGIC, differs_from_magic, read_header};
use crate::step::{Step, TraceFault};
use fg_io::{Ahead, Fault, InputBuffer, Source};
use std::alloc::{AllocError, Global};
use std::marker::Model;

/// How many bytes the source is asked for at once.
const PIECE: usize = 262_144;

/// Walks a trace, record by record, in the memory that it was made with and whatever pieces the source gives.
///
/// A reader is for one source, from its first byte on. It reads at most one byte past the limit.
#[derive(Drop)]
pub struct Reader {
    input: InputBuffer,
    // How many bytes at the front of what the input holds were answered: the record that was answered last.
    answered: usize,
    started: bool,
    kept: Option<Result<Step, TraceFault>>,
}

/// What stands next in a trace.
enum Found {
    /// A record with this header.
    Next(Header),
    /// The trace's end.
    Ends(Result<Step, TraceFault>),
}

impl Model for Reader {
    ghost use Rattle.fg_trace.specs.Reader.{ReaderState};
    ghost use Rattle.fg_trace.specs.Walk.{IsReader, reader_of};

    ghost Value = { ReaderState };

    ghost view = { λ a. reader_of a.input a.answered a.started a.kept };

    ghost invariant = { λ a. IsReader a.input a.answered a.started a.kept };
}

impl Reader {
    /// A reader of a trace that may have at most `max` bytes. All its memory is taken here.
    pub fn new(alloc: Global, max: u64) -> Result<Reader, AllocError>
        requires { 8 ≤ max }
        ensures new { IfOk result (λ reader. reader ≡ new_reader max) }
        ensures opening { IfOk result (λ reader.
            (first : Option (List ℕ)) → StandsBefore reader first first) }
    {
        Ok(Reader {
            input: InputBuffer::new(alloc, max, LARGEST, PIECE)?,
            answered: 0,
            started: false,
            kept: None,
        })
    }

    /// Reads the magic.
    ///
    /// The fault is `NotTrace` or `ReadFault`. Once the magic was found, a later call reads nothing: it answers Ok, or again
    /// the fault that `next` answered.
    pub fn start<S: Source>(&mut self, from: &mut S) -> Result<(), TraceFault>
        ensures opens { (first : Option (List ℕ)) → StandsBefore self.old first (S.left from.old)
            → Opens result self.new first (S.left from.new) }

        // Once it was decided, nothing is read.
        ensures again { IsDecided self.old → result ≡ start_answer self.old.kept }
        ensures unchanged { IsDecided self.old → (self.new ≡ self.old) × (from.new ≡ from.old) }

        ensures started { IsOk result → self.new.started ≡ true }
        ensures kept { IsOk result → self.new.kept ≡ self.old.kept }
        ensures payload { self.old.payload ≡ [] → self.new.payload ≡ [] }
        ensures max { self.new.max ≡ self.old.max }
        ensures bounded { self.new.place + length self.new.held ≤ self.new.max + 1 }
        ensures few { length self.new.held ≤ most_held }

        // The byte that differs was read, or there is none.
        ensures differs { IsNone self.old.kept → (place : ℕ) → result ≡ Err (TraceFault.NotTrace place)
            → (place < length self.new.held) ⊎ IsAtEnd (S.left from.new) }

        // After a failed read the magic is not held.
        ensures short { IsNone self.old.kept → result ≡ Err TraceFault.ReadFault
            → length self.new.held < length magic }
        ensures fault { IsNone self.old.kept → IfErr result IsOfStart }
        ensures faults { CountsFaults (Answers result TraceFault.ReadFault) ⊥
            ((S.faults from.old, S.faults from.new) ∷ []) [] }
        ensures fixed { S.fixed from.new ≡ S.fixed from.old }
    {
        if let Some(answer) = self.kept {
            return answer.map(|_| ());
        }
        if self.started {
            return Ok(());
        }
        ask(&mut self.input, from, MAGIC.len())?;
        if let Some(place) = differs_from_magic(self.input.held()) {
            let fault = TraceFault::NotTrace(place as u64);
            self.kept = Some(Err(fault));
            return Err(fault);
        }
        self.input.step(MAGIC.len());
        self.started = true;
        Ok(())
    }

    /// The next record, whose datagram then stands in `payload`, or the trace's end.
    ///
    /// The fault is `TooLong`, `Cut` or `ReadFault`. All answers but a record and `ReadFault` are given again by each later
    /// call, which reads nothing. After `ReadFault` a later call goes on where the failed one stood.
    pub fn next<S: Source>(&mut self, from: &mut S) -> Result<Step, TraceFault>
        requires { self.old.started ≡ true }
        ensures walks { (first : Option (List ℕ)) (records : List Record)
            → StandsAfter self.old first (S.left from.old) records
            → Walks result self.new first (S.left from.new) records }

        // An answer that is kept is given again, and nothing is read.
        ensures kept { self.new.kept ≡ kept_answer result }
        ensures again { IfSome self.old.kept (λ answer. result ≡ answer) }
        ensures unchanged { IsSome self.old.kept → (self.new ≡ self.old) × (from.new ≡ from.old) }

        // What the answer tells, also where the source doesn't tell its bytes.
        ensures ending { IsSome self.new.kept
            → result ≡ ending_at self.new.max self.new.place (length self.new.held) }

        // An ending that was found at the input's end leaves nothing of it.
        ensures at_end { IsNone self.old.kept → ReadsToEnd result → IsAtEnd (S.left from.new) }

        // A record that is held is answered, and nothing is read.
        ensures held { (held : HoldsNext self.old)
            → (result ≡ Ok (Step.Datagram held.next.time held.next.port (length held.next.datagram)))
            × (self.new.payload ≡ held.next.datagram) × (self.new.held ≡ held.rest) × (from.new ≡ from.old) }

        // After a failed read none is held.
        ensures short { result ≡ Err TraceFault.ReadFault → HoldsNext self.new → ⊥ }

        // An input that is too long was read past the limit.
        ensures past { (place : ℕ) → result ≡ Err (TraceFault.TooLong place)
            → self.new.max < self.new.place + length self.new.held }

        ensures fault { IfErr result IsOfNext }
        ensures payload { length self.new.payload ≡ payload_size result }
        ensures place { self.new.place ≡ self.old.place + record_size result }
        ensures within { self.new.place ≤ self.new.max }
        ensures bounded { self.new.place + length self.new.held ≤ self.new.max + 1 }
        ensures few { length self.new.held ≤ most_held }
        ensures max { self.new.max ≡ self.old.max }
        ensures started { self.new.started ≡ true }
        ensures faults { CountsFaults (Answers result TraceFault.ReadFault) ⊥
            ((S.faults from.old, S.faults from.new) ∷ []) [] }
        ensures fixed { S.fixed from.new ≡ S.fixed from.old }
    {
        if let Some(answer) = self.kept {
            return answer;
        }
        self.input.step(self.answered);
        self.answered = 0;
        match look(&mut self.input, from)? {
            Found::Next(header) => {
                let Header { time, port, size } = header;
                self.answered = HEADER + usize::from(size);
                Ok(Step::Datagram { time, port, size })
            }
            Found::Ends(answer) => {
                self.kept = Some(answer);
                answer
            }
        }
    }

    /// Whether the next record is held whole and within the limit: `next` then answers it, and reads nothing.
    pub fn is_next_held(&self) -> bool
        ensures { IsTrue result ↔ HoldsNext self.now }
    {
        if self.kept.is_some() {
            return false;
        }
        let held = &self.input.held()[self.answered..];
        match read_header(held) {
            Some(header) => {
                let size = usize::from(header.size);
                self.input.has(self.answered + HEADER + size)
            }
            None => false,
        }
    }

    /// The datagram of the record that was answered last. It is empty before the first, and after any other answer.
    pub fn payload(&self) -> &[u8]
        ensures { result.now ≡ self.now.payload }
    {
        let answered = self.answered;
        &self.input.held()[HEADER.min(answered)..answered]
    }
}

/// Looks for the next record, and reads it whole.
fn look<S: Source>(input: &mut InputBuffer, from: &mut S) -> Result<Found, TraceFault>
    requires longest { input.old.longest ≡ LARGEST }
    requires place { input.old.place ≤ input.old.max }
    requires going { input.old.ended ≡ false }
    ensures takes { TakesMore input.old.held (S.left from.old) input.new.held (S.left from.new) }
    ensures same { input.new ≡ record input.old { held = input.new.held; ended = input.new.ended } }
    ensures finds { IfOk result (λ found. Finds found input.new (S.left from.new)) }
    ensures failed { OnErr result (input.new.ended ≡ false) }

    // A record that is held is found, and nothing is read.
    ensures held { (time port size : ℕ)
        → HoldsRecord input.old.max input.old.place input.old.held time port size
        → IsOkAnd result IsRecord × (input.new ≡ input.old) × (from.new ≡ from.old) }

    // After a failed read none is held.
    ensures short { OnErr result ((time port size : ℕ)
        → HoldsRecord input.new.max input.new.place input.new.held time port size → ⊥) }
    ensures bounded { input.new.place + length input.new.held ≤ input.new.max + 1 }
    ensures few { length input.new.held ≤ buffer.most_held input.new.longest input.new.piece }
    ensures fault { IfErr result (λ fault. fault ≡ TraceFault.ReadFault) }
    ensures faults { CountsFaults (Answers result TraceFault.ReadFault) ⊥
        ((S.faults from.old, S.faults from.new) ∷ []) [] }
    ensures fixed { S.fixed from.new ≡ S.fixed from.old }
{
    if let Some(answer) = ask(input, from, HEADER)? {
        return Ok(Found::Ends(answer));
    }
    let header = read_header(input.held()).unwrap();
    if let Some(answer) = ask(input, from, HEADER + usize::from(header.size))? {
        return Ok(Found::Ends(answer));
    }
    Ok(Found::Next(header))
}

/// Reads until so many bytes are held. It answers the trace's ending where there aren't so many within the limit.
fn ask<S: Source>(
    input: &mut InputBuffer,
    from: &mut S,
    want: usize,
) -> Result<Option<Result<Step, TraceFault>>, TraceFault>
    requires some { 1 ≤ want }
    requires want { want ≤ input.old.longest }
    requires place { input.old.place ≤ input.old.max }
    requires going { input.old.ended ≡ false }
    ensures takes { TakesMore input.old.held (S.left from.old) input.new.held (S.left from.new) }
    ensures same { input.new ≡ record input.old { held = input.new.held; ended = input.new.ended } }
    ensures has { IfOk result (λ ending. IfNone ending (Has input.new want)) }
    ensures lacks { IfOk result (λ ending. IfSome ending (λ answer.
        Lacks answer input.new (S.left from.new) want)) }
    ensures failed { OnErr result (input.new.ended ≡ false) }

    // Where so many are held within the limit, nothing is read.
    ensures whole { (want ≤ length input.old.held) × (input.old.place + want ≤ input.old.max)
        → (result ≡ Ok None) × (input.new ≡ input.old) × (from.new ≡ from.old) }

    // After a failed read so many aren't held.
    ensures few_held { OnErr result (length input.new.held < want) }
    ensures bounded { input.new.place + length input.new.held ≤ input.new.max + 1 }
    ensures few { length input.new.held ≤ buffer.most_held input.new.longest input.new.piece }
    ensures fault { IfErr result (λ fault. fault ≡ TraceFault.ReadFault) }
    ensures faults { CountsFaults (Answers result TraceFault.ReadFault) ⊥
        ((S.faults from.old, S.faults from.new) ∷ []) [] }
    ensures fixed { S.fixed from.new ≡ S.fixed from.old }
{
    match input.fill(from, want) {
        Ok(Ahead::Whole) => Ok(None),
        Ok(Ahead::EndsHere) => Ok(Some(Ok(Step::End))),
        Ok(Ahead::EndsInside) => Ok(Some(Err(TraceFault::Cut(input.place())))),
        Ok(Ahead::PastLimit) => Ok(Some(Err(TraceFault::TooLong(input.place())))),
        Err(Fault::Read) => Err(TraceFault::ReadFault),
        Err(Fault::Write | Fault::Memory) => unreachable!(),
    }
}
