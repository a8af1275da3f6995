//! Walking a trace, and sending the records on that are picked.
ghost use Rattle.std.specs.Prelude.{◌≡◌, ◌⊎◌, ◌≤◌, ◌<◌, ◌^◌, ℕ, List, [], ◌∷◌, length, IfOk, IfSome, OnErr, OnOk};
ghost use Rattle.std.specs.List.{All};
ghost use Rattle.std.specs.Io.KnownBytes.{IsAtEnd};
ghost use Rattle.fg_io.specs.Faults.{Counts, CountsFaults};
ghost use Rattle.fg_shape.specs.Kind.{IsFlowPort};
ghost use Rattle.fg_trace.specs.Trace.{Record, Ending, NotTrace as NoMagic, IsTrace};
ghost use Rattle.fg_trace.specs.Finish.{IsFault, ReadsAll, finish_of};
ghost use Rattle.fg_trace.specs.Reading.{IsReadFor};
ghost use Rattle.fg_trace.specs.Reached.{IsReadTo};
ghost use Rattle.fg_pick.specs.Pick.{ComesBack, Picks, PicksPart, WritesTrace};
ghost use Rattle.fg_pick.specs.Ports.{IsPortTable};
ghost use Rattle.fg_pick.specs.Steps.{SendsPart, SendsPicked};

use crate::fitting::fits;
use crate::laws::{one_picked, picked_exist};
use crate::ports::PortTable;
use fg_flows::Selection;
use fg_io::{Fault, OutputBuffer, Sink, Source};
use fg_trace::laws::{one_trace, read_as_far_as_needed, spelled_is_read};
use fg_trace::{Finish, MAGIC, record_header};
use fg_walk::{Datagram, Telling, walk_trace};
use std::alloc::Global;

/// How many bytes of the trace are gathered before they are written.
const ROOM: usize = 262_144;

/// Writes the trace of the records that are picked of a trace, in their order, each byte as it was.
///
/// The trace is read to its end, to the first byte that differs from the magic, or past the limit, and `out` gains in large
/// pieces the trace of the whole records before that which fit: of whose port, synchronization source and time the selection
/// says so. Each payload is copied once. `NotTrace` writes nothing, and every other answer at least the magic. After a fault
/// `out` has gained a prefix of what is written.
pub fn pick<S: Source, K: Sink>(
    alloc: Global,
    selection: &Selection,
    max: u64,
    input: &mut S,
    out: &mut K,
) -> Finish
    requires flows { All IsFlowPort selection.now.flows }
    requires least { 8 ≤ max }
    requires limit { max ≤ 2 ^ 40 }

    // Every answer but a fault's or want of memory's is that of the trace's ending, and then the trace of all records that are
    // picked is written.
    ensures whole { IsFault result ⊎ Picks selection.now max result (S.left input.old)
        (K.written out.old) (K.written out.new) }
    ensures exactly { IfSome (S.left input.old) (λ bytes. (records : List Record) (end : Ending)
        → IsTrace bytes max records end → IsFault result ⊎ (result ≡ finish_of end)) }
    ensures all_read { ReadsAll result → IsAtEnd (S.left input.new) }

    // What is written is read back as the records that are picked.
    ensures comes_back { IfSome (S.left input.old) (λ bytes. WritesTrace result
        → ComesBack selection.now max bytes (K.written out.old) (K.written out.new)) }

    // The input is read as far as the answer needs, and at most a byte past the limit.
    ensures reads { IfSome (S.left input.old) (λ bytes. IsReadFor max result bytes (S.left input.new)) }

    // What is no trace has nothing written, whatever the answer.
    ensures refused { IfSome (S.left input.old) (λ bytes. (place : ℕ)
        → IsTrace bytes max [] (NoMagic place) → out.new ≡ out.old) }

    // After a fault or want of memory what is written is a part.
    ensures part { IsFault result → PicksPart selection.now max (S.left input.old)
        (K.written out.old) (K.written out.new) }

    // A fault of the outside is answered only where it was counted in this call, and with every other answer none was. No
    // count falls.
    ensures faults { CountsFaults (result ≡ Finish.ReadFault) (result ≡ Finish.WriteFault)
        ((S.faults input.old, S.faults input.new) ∷ []) ((K.faults out.old, K.faults out.new) ∷ []) }
{
    one_trace();
    spelled_is_read();
    one_picked();
    match pick_trace(alloc, selection, max, input, out) {
        Ok(finish) => finish,
        Err(Fault::Read) => Finish::ReadFault,
        Err(Fault::Write) => Finish::WriteFault,
        Err(Fault::Memory) => Finish::Memory,
    }
}

/// Picks the records of a trace, and answers how it ends.
fn pick_trace<S: Source, K: Sink>(
    alloc: Global,
    selection: &Selection,
    max: u64,
    input: &mut S,
    out: &mut K,
) -> Result<Finish, Fault>
    requires flows { All IsFlowPort selection.now.flows }
    requires least { 8 ≤ max }
    requires limit { max ≤ 2 ^ 40 }
    ensures whole { IfOk result (λ finish. Picks selection.now max finish (S.left input.old)
        (K.written out.old) (K.written out.new)) }
    ensures part { OnErr result (PicksPart selection.now max (S.left input.old)
        (K.written out.old) (K.written out.new)) }
    ensures refused { IfSome (S.left input.old) (λ bytes. (place : ℕ)
        → IsTrace bytes max [] (NoMagic place) → out.new ≡ out.old) }
    ensures all_read { IfOk result (λ finish. ReadsAll finish → IsAtEnd (S.left input.new)) }
    ensures reached { IsReadTo max result (S.left input.old) (S.left input.new) }
    ensures faults { Counts result ((S.faults input.old, S.faults input.new) ∷ [])
        ((K.faults out.old, K.faults out.new) ∷ []) }
{
    read_as_far_as_needed();
    let table = PortTable::new(alloc, selection)?;
    let held = OutputBuffer::new(alloc, ROOM)?;
    let mut work = Picking {
        selection,
        table,
        held,
    };
    walk_trace(alloc, max, &mut work, input, out)
}

/// A pick under way: what is picked, and the bytes that aren't written yet.
#[derive(Drop)]
struct Picking<'a> {
    selection: &'a Selection,
    table: PortTable,
    held: OutputBuffer,
}

impl<'a> Telling for Picking<'a> {
    ghost use Rattle.fg_flows.specs.declared.selection.Selection.{Selection};
    ghost use Rattle.fg_pick.specs.Steps.{HasGained, HasPart, HasPicked, IsNew};

    ghost Given = { Selection };

    ghost given = { λ work. work.selection.now };

    ghost most = { 2 ^ 40 };

    ghost is_new = { λ work. IsNew work.selection.now work.table.entries.items work.held };

    ghost has_told = { λ work records before after.
        HasPicked work.selection.now work.table.entries.items records work.held before after };

    ghost whole = { λ work. HasGained work.selection.now };

    ghost part = { HasPart };

    fn begin<K: Sink>(&mut self, out: &mut K) -> Result<(), Fault> {
        one_picked();
        picked_exist();
        self.held.add(&MAGIC, out)?;
        Ok(())
    }

    fn tell<K: Sink>(&mut self, datagram: Datagram<'_>, out: &mut K) -> Result<(), Fault> {
        one_picked();
        picked_exist();
        let Datagram { time, port, bytes } = datagram;
        pick_record(
            self.selection,
            &self.table,
            time,
            port,
            bytes,
            &mut self.held,
            out,
        )?;
        Ok(())
    }

    fn end<K: Sink>(&mut self, _finish: Finish, out: &mut K) -> Result<(), Fault> {
        one_picked();
        self.held.flush(out)?;
        Ok(())
    }

    fn stops(&self) {
        one_picked();
        picked_exist();
    }
}

/// Sends the record, if it is picked. The time is in microseconds.
fn pick_record<K: Sink>(
    selection: &Selection,
    table: &PortTable,
    time: u64,
    port: u16,
    datagram: &[u8],
    held: &mut OutputBuffer,
    out: &mut K,
) -> Result<(), Fault>
    requires table { IsPortTable selection.now table.now.entries.items }
    requires size { length datagram.now < 2 ^ 16 }
    ensures sent { OnOk result (SendsPicked selection.now
        (record { time = time; port = port; datagram = datagram.now })
        held.old held.new (K.written out.old) (K.written out.new)) }
    ensures part { OnErr result (SendsPart selection.now
        (record { time = time; port = port; datagram = datagram.now })
        held.old (K.written out.old) (K.written out.new)) }
    ensures faults { Counts result [] ((K.faults out.old, K.faults out.new) ∷ []) }
{
    picked_exist();
    if !fits(selection, table, time, port, datagram) {
        return Ok(());
    }
    held.add(&record_header(time, port, datagram.len() as u16), out)?;
    held.add(datagram, out)
}
