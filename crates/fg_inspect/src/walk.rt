//! Walking a trace, and telling its records.
ghost use Rattle.std.specs.Prelude.{◌≡◌, ◌⊎◌, ◌≤◌, ◌^◌, ℕ, List, [], ◌∷◌, IfSome};
ghost use Rattle.std.specs.Io.KnownBytes.{IsAtEnd};
ghost use Rattle.fg_io.specs.Faults.{CountsFaults};
ghost use Rattle.fg_trace.specs.Trace.{Record, Ending, NotTrace as NoMagic, IsTrace};
ghost use Rattle.fg_trace.specs.Finish.{IsFault, ReadsAll, finish_of};
ghost use Rattle.fg_trace.specs.Reading.{IsReadFor};
ghost use Rattle.fg_inspect.specs.Inspect.{Tells, TellsPart};

use crate::laws::one_text;
use crate::lines::Lines;
use crate::reading::read_record;
use fg_flows::Table;
use fg_io::{Fault, Sink, Source};
use fg_trace::Finish;
use fg_trace::laws::{one_trace, read_as_far_as_needed};
use fg_walk::{Datagram, Telling, walk_trace};
use std::alloc::Global;

/// Tells the records of a trace, a line for each.
///
/// The trace is read to its end, to the first byte that differs from the magic, or past the limit, and `out` gains the
/// lines in large pieces. A line has the record's number from 0, its time, its port and how many bytes its datagram has,
/// and then what the datagram is as what its port carries: a media datagram, a parity datagram, or the number of its fault
/// from 1; or that the port is of no flow. `NotTrace` writes nothing. After a fault `out` has gained a prefix of the text.
pub fn inspect<S: Source, K: Sink>(
    alloc: Global,
    table: &Table,
    max: u64,
    input: &mut S,
    out: &mut K,
) -> Finish
    requires least { 8 ≤ max }
    requires limit { max ≤ 2 ^ 40 }

    // Every answer but a fault's or want of memory's is that of the trace's ending, and then all records are told.
    ensures whole { IsFault result ⊎ Tells table.now max result (S.left input.old)
        (K.written out.old) (K.written out.new) }
    ensures exactly { IfSome (S.left input.old) (λ bytes. (records : List Record) (end : Ending)
        → IsTrace bytes max records end → IsFault result ⊎ (result ≡ finish_of end)) }
    ensures all_read { ReadsAll result → IsAtEnd (S.left input.new) }

    // The input is read as far as the answer needs, and at most a byte past the limit.
    ensures reads { IfSome (S.left input.old) (λ bytes. IsReadFor max result bytes (S.left input.new)) }

    // What is no trace has nothing told, whatever the answer.
    ensures refused { IfSome (S.left input.old) (λ bytes. (place : ℕ)
        → IsTrace bytes max [] (NoMagic place) → out.new ≡ out.old) }

    // After a fault or want of memory the text is a part.
    ensures part { IsFault result → TellsPart table.now max (S.left input.old)
        (K.written out.old) (K.written out.new) }

    // A fault of the outside is answered only where it was counted in this call, and with every other answer none was. No
    // count falls.
    ensures faults { CountsFaults (result ≡ Finish.ReadFault) (result ≡ Finish.WriteFault)
        ((S.faults input.old, S.faults input.new) ∷ []) ((K.faults out.old, K.faults out.new) ∷ []) }
{
    // A table has no port twice.
    let _flows = table.count();
    one_trace();
    read_as_far_as_needed();
    let Ok(lines) = Lines::new(alloc) else {
        return Finish::Memory;
    };
    let mut work = Inspection { table, lines };
    match walk_trace(alloc, max, &mut work, input, out) {
        Ok(finish) => finish,
        Err(fault) => Finish::from(fault),
    }
}

/// An inspection under way: the flows, and the lines that are made.
#[derive(Drop)]
struct Inspection<'a> {
    table: &'a Table,
    lines: Lines,
}

impl<'a> Telling for Inspection<'a> {
    ghost use Rattle.std.specs.Prelude.{List, ℕ};
    ghost use Rattle.fg_inspect.specs.Steps.{HasGained, HasPart, HasTold, IsNew};

    ghost Given = { List ℕ };

    ghost given = { λ work. work.table.now };

    ghost most = { 2 ^ 40 };

    ghost is_new = { λ work. IsNew work.table.now work.lines };

    ghost has_told = { λ work records before after.
        HasTold work.table.now records work.lines before after };

    ghost whole = { λ work. HasGained work.table.now };

    ghost part = { HasPart };

    fn begin<K: Sink>(&mut self, _out: &mut K) -> Result<(), Fault> {
        Ok(())
    }

    fn tell<K: Sink>(&mut self, datagram: Datagram<'_>, out: &mut K) -> Result<(), Fault> {
        one_text();
        let Datagram { time, port, bytes } = datagram;
        let reading = read_record(self.table, port, bytes);
        self.lines
            .add(time, port, bytes.len() as u16, reading, out)?;
        Ok(())
    }

    fn end<K: Sink>(&mut self, _finish: Finish, out: &mut K) -> Result<(), Fault> {
        one_text();
        self.lines.held.flush(out)?;
        Ok(())
    }

    fn stops(&self) {
        one_text();
    }
}
