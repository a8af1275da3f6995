//! Writing the report.
ghost use Rattle.std.specs.Prelude.{◌≡◌, ℕ, ◌≤◌, ◌++◌, [], ◌∷◌, OnOk, OnErr, IsErrOf};
ghost use Rattle.std.specs.List.{flat_map};
ghost use Rattle.fg_io.specs.Faults.{Counts, CountsFaults};
ghost use Rattle.fg_io.specs.Sink.{Gains, GainsPart};
ghost use Rattle.fg_io.specs.Sent.{Sent};
ghost use Rattle.fg_report.specs.Text.{gap_line, flow_text, report_of};

use crate::fault::ReportFault;
use crate::flow_sum::FlowSum;
use crate::lines::{push_end, push_flow_lines, push_gap_line};
use crate::tail::Tail;
use fg_io::{Fault, OutputBuffer, Sink};
use std::alloc::Global;

/// How many bytes of the text are gathered before they are written.
const ROOM: usize = 16_384;

/// Room for a flow's four or five lines, which are made at once.
const LINES: usize = 1_024;

/// Writes the line of a run of positions that show nothing, or holds it. It is made in `text`.
fn write_gap<K: Sink>(
    text: &mut Vec<u8>,
    port: u16,
    gap: (u64, u64),
    held: &mut OutputBuffer,
    out: &mut K,
) -> Result<(), Fault>
    ensures sent { OnOk result (Sent (K.written out.old) (held.old ++ gap_line port gap) held.new
        (K.written out.new)) }
    ensures part { OnErr result (GainsPart (K.written out.old) (held.old ++ gap_line port gap)
        (K.written out.new)) }
    ensures faults { Counts result [] ((K.faults out.old, K.faults out.new) ∷ []) }
{
    text.clear();
    push_gap_line(text, port, gap)?;
    held.add(text, out)
}

/// Writes the lines of the runs of positions that show nothing, or holds them.
fn write_gaps<K: Sink>(
    text: &mut Vec<u8>,
    port: u16,
    gaps: &[(u64, u64)],
    held: &mut OutputBuffer,
    out: &mut K,
) -> Result<(), Fault>
    ensures sent { OnOk result (Sent (K.written out.old)
        (held.old ++ flat_map (gap_line port) gaps.now) held.new (K.written out.new)) }
    ensures part { OnErr result (GainsPart (K.written out.old)
        (held.old ++ flat_map (gap_line port) gaps.now) (K.written out.new)) }
    ensures faults { Counts result [] ((K.faults out.old, K.faults out.new) ∷ []) }
{
    for gap in gaps {
        write_gap(text, port, *gap, held, out)?;
    }
    Ok(())
}

/// Writes the lines of a flow, or holds them.
fn write_flow<K: Sink>(
    text: &mut Vec<u8>,
    flow: &FlowSum,
    held: &mut OutputBuffer,
    out: &mut K,
) -> Result<(), Fault>
    ensures sent { OnOk result (Sent (K.written out.old) (held.old ++ flow_text flow.now) held.new
        (K.written out.new)) }
    ensures part { OnErr result (GainsPart (K.written out.old) (held.old ++ flow_text flow.now)
        (K.written out.new)) }
    ensures faults { Counts result [] ((K.faults out.old, K.faults out.new) ∷ []) }
{
    text.clear();
    push_flow_lines(text, flow)?;
    held.add(text, out)?;
    write_gaps(text, flow.port, flow.gaps.runs(), held, out)
}

/// Writes the lines of the flows, or holds them.
fn write_flows<K: Sink>(
    text: &mut Vec<u8>,
    flows: &[FlowSum],
    held: &mut OutputBuffer,
    out: &mut K,
) -> Result<(), Fault>
    ensures sent { OnOk result (Sent (K.written out.old)
        (held.old ++ flat_map flow_text flows.now) held.new (K.written out.new)) }
    ensures part { OnErr result (GainsPart (K.written out.old)
        (held.old ++ flat_map flow_text flows.now) (K.written out.new)) }
    ensures faults { Counts result [] ((K.faults out.old, K.faults out.new) ∷ []) }
{
    for flow in flows {
        write_flow(text, flow, held, out)?;
    }
    Ok(())
}

/// Writes the report of the flows, in their order, with the number of records on a port of no flow.
///
/// The text goes to the sink in pieces of about 16 kB. After a fault the sink has gained a prefix
/// of it.
pub fn write_report<K: Sink>(
    alloc: Global,
    flows: &[FlowSum],
    other: u64,
    tail: Tail,
    out: &mut K,
) -> Result<(), ReportFault>
    ensures whole { OnOk result (Gains (K.written out.old) (report_of flows.now other tail)
        (K.written out.new)) }
    ensures part { OnErr result (GainsPart (K.written out.old) (report_of flows.now other tail)
        (K.written out.new)) }
    ensures faults { CountsFaults ⊥ (IsErrOf result ReportFault.WriteFault) []
        ((K.faults out.old, K.faults out.new) ∷ []) }
{
    match write_text(alloc, flows, other, tail, out) {
        Ok(()) => Ok(()),
        Err(Fault::Write) => Err(ReportFault::WriteFault),
        Err(Fault::Memory) => Err(ReportFault::Memory),
        Err(Fault::Read) => unreachable!(),
    }
}

/// Writes the report's text.
fn write_text<K: Sink>(
    alloc: Global,
    flows: &[FlowSum],
    other: u64,
    tail: Tail,
    out: &mut K,
) -> Result<(), Fault>
    ensures whole { OnOk result (Gains (K.written out.old) (report_of flows.now other tail)
        (K.written out.new)) }
    ensures part { OnErr result (GainsPart (K.written out.old) (report_of flows.now other tail)
        (K.written out.new)) }
    ensures faults { Counts result [] ((K.faults out.old, K.faults out.new) ∷ []) }
{
    let mut text = Vec::with_capacity(alloc, LINES)?;
    let mut held = OutputBuffer::new(alloc, ROOM)?;
    write_flows(&mut text, flows, &mut held, out)?;
    text.clear();
    push_end(&mut text, other, tail)?;
    held.add(&text, out)?;
    held.flush(out)
}
