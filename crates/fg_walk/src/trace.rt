//! Walking a trace, and telling its records.
ghost use Rattle.std.specs.Prelude.{◌≡◌, ◌≤◌, ◌^◌, ℕ, List, [], ◌∷◌, IfOk, IfSome, OnErr};
ghost use Rattle.std.specs.Io.KnownBytes.{IsAtEnd};
ghost use Rattle.fg_io.specs.Faults.{Counts};
ghost use Rattle.fg_trace.specs.Trace.{NotTrace as NoMagic, IsTrace};
ghost use Rattle.fg_trace.specs.Finish.{ReadsAll};
ghost use Rattle.fg_trace.specs.Reached.{IsReadTo};
ghost use Rattle.fg_walk.specs.Walk.{Walked, WalkedPart};

use crate::teller::{Datagram, Telling};
use crate::walking::{Walking, walk};
use fg_io::{Fault, Sink, Source};
use fg_trace::laws::{one_trace, read_as_far_as_needed, walks_the_front};
use fg_trace::{Finish, Reader, Step, TraceFault};
use std::alloc::Global;

/// Walks the trace in the input, which may have at most `max` bytes, at least 8, and tells its records. It answers how the trace
/// ends.
///
/// The trace is read to its end, to the first byte that differs from the magic, or past the limit. Where the input is no trace
/// nothing is begun.
pub fn walk_trace<T: Telling, S: Source, K: Sink>(
    alloc: Global,
    max: u64,
    telling: &mut T,
    input: &mut S,
    out: &mut K,
) -> Result<Finish, Fault>
    requires least { 8 ≤ max }
    requires limit { max ≤ T.most }
    requires new { T.is_new telling.old }

    // Where nothing fails the answer is that of the trace's ending, and all its records are told.
    ensures whole { IfOk result (λ finish. Walked T.whole telling.new max finish (S.left input.old)
        (K.written out.old) (K.written out.new)) }
    ensures all_read { IfOk result (λ finish. ReadsAll finish → IsAtEnd (S.left input.new)) }

    // After a fault a part is told.
    ensures part { OnErr result (WalkedPart T.part (T.given telling.old) max (S.left input.old)
        (K.written out.old) (K.written out.new)) }

    // What is no trace has nothing told, whatever the answer.
    ensures refused { IfSome (S.left input.old) (λ bytes. (place : ℕ)
        → IsTrace bytes max [] (NoMagic place) → out.new ≡ out.old) }

    ensures given { T.given telling.new ≡ T.given telling.old }

    // The input is read as far as the answer needs, and at most a byte past the limit.
    ensures reached { IsReadTo max result (S.left input.old) (S.left input.new) }
    ensures faults { Counts result ((S.faults input.old, S.faults input.new) ∷ [])
        ((K.faults out.old, K.faults out.new) ∷ []) }
    ensures fixed { S.fixed input.new ≡ S.fixed input.old }
{
    read_as_far_as_needed();
    telling.stops();
    let mut reader = Reader::new(alloc, max)?;
    match reader.start(input) {
        Ok(()) => walk(telling, &mut reader, input, out),
        Err(TraceFault::NotTrace(place)) => Ok(Finish::NotTrace(place)),
        Err(TraceFault::ReadFault) => Err(Fault::Read),
        Err(TraceFault::Cut(_) | TraceFault::TooLong(_)) => unreachable!(),
    }
}

/// What tells the records of a trace walks through it.
impl<T: Telling> Walking for T {
    ghost use Rattle.std.specs.Prelude.{◌-◌, ℕ};
    ghost use Rattle.fg_walk.specs.Steps.{Breaks, HasToldAll, HasWalked, IsOpened, IsUnderway};

    type Reader = Reader;

    type Ending = Finish;

    ghost Given = { T.Given × ℕ };

    ghost given = { λ telling reader. (T.given telling, reader.max) };

    ghost is_new = { λ telling reader first now.
        T.is_new telling × IsOpened T.most reader first now };

    ghost is_underway = { IsUnderway T.most T.has_told };

    ghost has_ended = { HasToldAll T.most T.has_told };

    ghost whole = { λ given. HasWalked T.whole given.1 };

    ghost part = { λ given. Breaks T.part given.0 given.1 };

    ghost steps_left = { λ _ reader. reader.max - reader.place };

    fn begin<K: Sink>(&mut self, out: &mut K) -> Result<(), Fault> {
        read_as_far_as_needed();
        Telling::begin(self, out)
    }

    fn step<S: Source, K: Sink>(
        &mut self,
        reader: &mut Reader,
        input: &mut S,
        out: &mut K,
    ) -> Result<Option<Finish>, Fault> {
        walks_the_front();
        read_as_far_as_needed();
        self.stops();
        match reader.next(input) {
            Ok(Step::Datagram { time, port, .. }) => {
                let bytes = reader.payload();
                self.tell(Datagram { time, port, bytes }, out)?;
                Ok(None)
            }
            Ok(Step::End) => Ok(Some(Finish::Done)),
            Err(TraceFault::Cut(place)) => Ok(Some(Finish::Cut(place))),
            Err(TraceFault::TooLong(place)) => Ok(Some(Finish::TooLong(place))),
            Err(TraceFault::ReadFault) => Err(Fault::Read),
            Err(TraceFault::NotTrace(_)) => unreachable!(),
        }
    }

    fn end<K: Sink>(&mut self, ending: Finish, out: &mut K) -> Result<(), Fault> {
        one_trace();
        Telling::end(self, ending, out)
    }
}
