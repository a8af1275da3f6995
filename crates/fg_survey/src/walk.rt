//! Walking a trace, and telling what it holds.
ghost use Rattle.std.specs.Prelude.{◌≡◌, ◌≢◌, ◌⊎◌, ◌≤◌, ◌<◌, ◌^◌, ℕ, List, [], ◌∷◌, length, IfOk, IfSome, IfErr, OnOk, OnErr};
ghost use Rattle.std.specs.Io.KnownBytes.{IsAtEnd};
ghost use Rattle.fg_io.specs.Sink.{Gains, GainsPart};
ghost use Rattle.fg_io.specs.Faults.{Counts, CountsFaults};
ghost use Rattle.fg_trace.specs.Trace.{Record, Ending, NotTrace as NoMagic, IsTrace};
ghost use Rattle.fg_trace.specs.Finish.{IsFault, ReadsAll, finish_of};
ghost use Rattle.fg_trace.specs.Reading.{IsReadFor};
ghost use Rattle.fg_trace.specs.Reached.{IsReadTo};
ghost use Rattle.fg_survey.specs.Survey.{Surveys, SurveysPart};
ghost use Rattle.fg_survey.specs.Steps.{IsSheet, IsTailOf};
ghost use Rattle.fg_survey.specs.Text.{survey_text};

use crate::laws::one_text;
use crate::sheet::Sheet;
use fg_io::{Fault, SafeSink, Sink, Source, write_all};
use fg_report::Tail;
use fg_trace::Finish;
use fg_trace::laws::{one_trace, read_as_far_as_needed};
use fg_walk::{Datagram, Telling, walk_trace};
use std::alloc::Global;

/// Surveys a trace, and writes what it holds to `out`: its totals, each port with a record, each stream of media datagrams,
/// and how it ended. `json` asks for one JSON object a line.
///
/// The trace, of at most `max` bytes, is read to its end, to the first byte that differs from the magic, or past the limit,
/// and the text is written then. `NotTrace` writes nothing, and neither does a failed read. After a failed write `out` has
/// gained a prefix of the text.
pub fn survey<S: Source, K: Sink>(
    alloc: Global,
    max: u64,
    json: bool,
    input: &mut S,
    out: &mut K,
) -> Finish
    requires least { 8 ≤ max }
    requires limit { max ≤ 2 ^ 40 }

    // Every answer but a fault's or want of memory's is that of the trace's ending, and then the whole text is written.
    ensures whole { IsFault result ⊎ Surveys json max result (S.left input.old)
        (K.written out.old) (K.written out.new) }
    ensures exactly { IfSome (S.left input.old) (λ bytes. (records : List Record) (end : Ending)
        → IsTrace bytes max records end → IsFault result ⊎ (result ≡ finish_of end)) }
    ensures all_read { ReadsAll result → IsAtEnd (S.left input.new) }

    // The input is read as far as the answer needs, and at most a byte past the limit.
    ensures reads { IfSome (S.left input.old) (λ bytes. IsReadFor max result bytes (S.left input.new)) }

    // What is no trace has nothing told, whatever the answer.
    ensures refused { IfSome (S.left input.old) (λ bytes. (place : ℕ)
        → IsTrace bytes max [] (NoMagic place) → out.new ≡ out.old) }

    // After a failed write the text is a part, and after a failed read or want of memory there is none.
    ensures part { IsFault result → SurveysPart json max (S.left input.old)
        (K.written out.old) (K.written out.new) }
    ensures unread { result ≡ Finish.ReadFault → out.new ≡ out.old }
    ensures unmade { result ≡ Finish.Memory → out.new ≡ out.old }

    // A fault of the outside is answered only where it was counted in this call, and with every other answer none was. No
    // count falls.
    ensures faults { CountsFaults (result ≡ Finish.ReadFault) (result ≡ Finish.WriteFault)
        ((S.faults input.old, S.faults input.new) ∷ []) ((K.faults out.old, K.faults out.new) ∷ []) }
{
    one_trace();
    match survey_trace(alloc, max, json, input, out) {
        Ok(finish) => finish,
        Err(fault) => Finish::from(fault),
    }
}

/// Surveys a trace, and answers how it ends.
fn survey_trace<S: Source, K: Sink>(
    alloc: Global,
    max: u64,
    json: bool,
    input: &mut S,
    out: &mut K,
) -> Result<Finish, Fault>
    requires least { 8 ≤ max }
    requires limit { max ≤ 2 ^ 40 }
    ensures whole { IfOk result (λ finish. Surveys json max finish (S.left input.old)
        (K.written out.old) (K.written out.new)) }
    ensures part { OnErr result (SurveysPart json max (S.left input.old)
        (K.written out.old) (K.written out.new)) }
    ensures unwritten { IfErr result (λ fault. (fault ≢ Fault.Write) → out.new ≡ out.old) }
    ensures refused { IfSome (S.left input.old) (λ bytes. (place : ℕ)
        → IsTrace bytes max [] (NoMagic place) → out.new ≡ out.old) }
    ensures all_read { IfOk result (λ finish. ReadsAll finish → IsAtEnd (S.left input.new)) }
    ensures reached { IsReadTo max result (S.left input.old) (S.left input.new) }
    ensures faults { Counts result ((S.faults input.old, S.faults input.new) ∷ [])
        ((K.faults out.old, K.faults out.new) ∷ []) }
{
    read_as_far_as_needed();
    // What goes on is a function of its own, so that the sheet is let go in one place.
    let sheet = Sheet::new(alloc)?;
    let mut work = Surveying { alloc, sheet };
    work.survey_all(max, json, input, out)
}

/// A survey under way: what is kept of the records that were read.
#[derive(Drop)]
struct Surveying {
    alloc: Global,
    sheet: Sheet,
}

impl Surveying {
    /// Surveys all that is to be read, and answers how it ends.
    fn survey_all<S: Source, K: Sink>(
        &mut self,
        max: u64,
        json: bool,
        input: &mut S,
        out: &mut K,
    ) -> Result<Finish, Fault>
        requires least { 8 ≤ max }
        requires limit { max ≤ 2 ^ 40 }
        requires new { IsSheet self.old.sheet [] }
        ensures whole { IfOk result (λ finish. Surveys json max finish (S.left input.old)
            (K.written out.old) (K.written out.new)) }
        ensures part { OnErr result (SurveysPart json max (S.left input.old)
            (K.written out.old) (K.written out.new)) }
        ensures unwritten { IfErr result (λ fault. (fault ≢ Fault.Write) → out.new ≡ out.old) }
        ensures refused { IfSome (S.left input.old) (λ bytes. (place : ℕ)
            → IsTrace bytes max [] (NoMagic place) → out.new ≡ out.old) }
        ensures all_read { IfOk result (λ finish. ReadsAll finish → IsAtEnd (S.left input.new)) }
        ensures reached { IsReadTo max result (S.left input.old) (S.left input.new) }
        ensures faults { Counts result ((S.faults input.old, S.faults input.new) ∷ [])
            ((K.faults out.old, K.faults out.new) ∷ []) }
    {
        one_trace();
        one_text();
        // Nothing is written before all records are read.
        match walk_trace(self.alloc, max, self, input, &mut SafeSink::new())? {
            Finish::NotTrace(place) => Ok(Finish::NotTrace(place)),
            finish => {
                write_text(self.alloc, json, &mut self.sheet, tail_of(finish), out)?;
                Ok(finish)
            }
        }
    }
}

impl Telling for Surveying {
    ghost use Rattle.std.specs.Prelude.{⊤, []};
    ghost use Rattle.fg_survey.specs.Steps.{HasKept, IsSheet};

    ghost Given = { Unit {0} };

    ghost given = { λ _. tt };

    ghost most = { 2 ^ 40 };

    ghost is_new = { λ work. IsSheet work.sheet [] };

    ghost has_told = { λ work records _ _. IsSheet work.sheet records };

    ghost whole = { λ work records _ _ _. HasKept work.sheet records };

    ghost part = { λ _ _ _ _. ⊤ };

    fn begin<K: Sink>(&mut self, _out: &mut K) -> Result<(), Fault> {
        Ok(())
    }

    fn tell<K: Sink>(&mut self, datagram: Datagram<'_>, _out: &mut K) -> Result<(), Fault> {
        let Datagram { time, port, bytes } = datagram;
        self.sheet
            .take(self.alloc, time, port, bytes.len() as u16, bytes)?;
        Ok(())
    }

    fn end<K: Sink>(&mut self, _finish: Finish, _out: &mut K) -> Result<(), Fault> {
        Ok(())
    }

    fn stops(&self) {}
}

/// Writes the text of what is kept.
fn write_text<K: Sink>(
    alloc: Global,
    json: bool,
    sheet: &mut Sheet,
    tail: Tail,
    out: &mut K,
) -> Result<(), Fault>
    requires { (records : List Record) × IsSheet sheet.old records × (length records < 2 ^ 40) }
    ensures whole { OnOk result ((records : List Record) (kept : IsSheet sheet.old records)
        → Gains (K.written out.old) (survey_text json kept.heard tail) (K.written out.new)) }
    ensures part { OnErr result ((records : List Record) (kept : IsSheet sheet.old records)
        → GainsPart (K.written out.old) (survey_text json kept.heard tail) (K.written out.new)) }
    ensures unwritten { IfErr result (λ fault. (fault ≢ Fault.Write) → out.new ≡ out.old) }
    ensures faults { Counts result [] ((K.faults out.old, K.faults out.new) ∷ []) }
{
    let text = sheet.text(alloc, json, tail)?;
    write_all(out, &text)?;
    Ok(())
}

/// How the trace ended, where its records were read.
fn tail_of(finish: Finish) -> Tail
    ensures { IsTailOf finish result }
{
    match finish {
        Finish::Cut(place) => Tail::Cut(place),
        Finish::TooLong(place) => Tail::TooLong(place),
        _ => Tail::Ended,
    }
}
