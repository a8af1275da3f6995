//! What no clause says: worked traces, and a read and a write that fail in mid-stream.
ghost use Rattle.std.specs.Prelude.{◌≡◌, ◌≤◌, [], length};
ghost use Rattle.std.specs.List.{All};
ghost use Rattle.fg_shape.specs.Kind.{IsFlowPort};

use super::*;
use fg_flows::{Ports, Selection, Sources};
use fg_io::{MemSink, MemSource, SafeSource, Source};
use fg_trace::{Finish, record_header};
use std::alloc::{AllocError, Global};
use std::process::Abort;
use std::test::Fail;

const MOST: u64 = 1_099_511_627_776;

/// The first 200 bytes of a media datagram of this source, one packet, with this payload type.
fn media(ssrc: u8, pt: u8) -> [u8; 200] {
    let mut bytes = [0; 200];
    bytes[0] = 0x80;
    bytes[1] = pt;
    bytes[11] = ssrc;
    bytes[12] = 0x47;
    bytes
}

/// Adds a record to a trace.
fn add(trace: &mut Vec<u8>, time: u64, port: u16, datagram: &[u8]) -> Result<(), AllocError>
    requires { length datagram.now ≤ 65535 }
{
    trace.extend_from_slice(&record_header(time, port, datagram.len() as u16))?;
    trace.extend_from_slice(datagram)
}

/// The trace of those of six records whose numbers these are: media of the sources 7 and 9, one of them on a parity port; two
/// datagrams that are none; and a record without one.
fn trace_of(alloc: Global, numbers: &[usize]) -> Result<Vec<u8>, AllocError> {
    let mut trace = Vec::from_slice(alloc, b"FECTRAC1")?;
    for number in numbers {
        match number {
            0 => add(&mut trace, 5, 5000, &media(7, 33))?,
            1 => add(&mut trace, 6, 5002, &media(7, 96))?,
            2 => add(&mut trace, 4, 5000, &media(9, 0xa1))?,
            3 => add(&mut trace, 9, 6000, &media(7, 33))?,
            4 => add(&mut trace, 10, 5004, &media(9, 33))?,
            _ => add(&mut trace, u64::MAX, 65_535, &[])?,
        }
    }
    Ok(trace)
}

const ALL: [usize; 6] = [0, 1, 2, 3, 4, 5];

/// A selection in which nothing is set.
fn all_of(alloc: Global) -> Selection
    ensures { result.flows ≡ [] }
{
    Selection {
        flows: Ports::new(alloc),
        ports: Ports::new(alloc),
        sources: Sources::new(alloc),
        without: Sources::new(alloc),
        from: 0,
        until: None,
    }
}

/// The answer for a source, and what a sink of so much room and these failing writes has.
fn picked<S: Source>(
    alloc: Global,
    selection: &Selection,
    input: &mut S,
    room: usize,
    fails: &[u64],
) -> Result<(Finish, MemSink), AllocError>
    requires { All IsFlowPort selection.now.flows }
{
    let mut out = MemSink::new(alloc, room, fails)?;
    let finish = pick(alloc, selection, MOST, input, &mut out);
    Ok((finish, out))
}

/// Picks of the six records, and compares what is written with the trace of these.
fn leaves(
    rt: &impl Abort,
    alloc: Global,
    selection: &Selection,
    numbers: &[usize],
) -> Result<(), AllocError>
    requires { All IsFlowPort selection.now.flows }
{
    let mut input = SafeSource::new(alloc, &trace_of(alloc, &ALL)?, 100)?;
    let (finish, out) = picked(alloc, selection, &mut input, 65_536, &[])?;
    assert_eq!(rt; finish, Finish::Done);
    assert_eq!(rt; out.bytes(), trace_of(alloc, numbers)?.as_slice());
    Ok(())
}

#[test]
fn sources_are_of_media_alone(rt: HostRuntime) -> Result<(), Fail> {
    let mut left = all_of(rt.alloc());
    left.sources.add(7)?;
    leaves(&rt, rt.alloc(), &left, &[0, 1, 3, 5])?;
    left.without.add(7)?;
    leaves(&rt, rt.alloc(), &left, &[1, 5])?;
    Ok(())
}

// Record 2 is before the first time, and record 5 at the last.
#[test]
fn a_flow_has_three_ports(rt: HostRuntime) -> Result<(), Fail> {
    let mut chosen = all_of(rt.alloc());
    chosen.flows.add(5000)?;
    chosen.ports.add(65_535)?;
    leaves(&rt, rt.alloc(), &chosen, &[0, 1, 2, 4, 5])?;
    chosen.from = 5;
    chosen.until = Some(u64::MAX);
    leaves(&rt, rt.alloc(), &chosen, &[0, 1, 4])?;
    Ok(())
}

// The third record isn't whole when the read fails, and the first two are still held.
#[test]
fn a_read_fails(rt: HostRuntime) -> Result<(), Fail> {
    let trace = trace_of(rt.alloc(), &ALL)?;
    let mut input = MemSource::new(rt.alloc(), &trace, 1, &[500])?;
    let (finish, out) = picked(rt.alloc(), &all_of(rt.alloc()), &mut input, 65_536, &[])?;
    assert_eq!(rt; finish, Finish::ReadFault);
    assert!(rt; out.bytes().is_empty());
    Ok(())
}

// The sink has room for the magic, a record and a part of the next.
#[test]
fn a_write_fails(rt: HostRuntime) -> Result<(), Fail> {
    let trace = trace_of(rt.alloc(), &ALL)?;
    let mut input = SafeSource::new(rt.alloc(), &trace, 100)?;
    let (finish, out) = picked(rt.alloc(), &all_of(rt.alloc()), &mut input, 300, &[])?;
    assert_eq!(rt; finish, Finish::WriteFault);
    assert_eq!(rt; Some(out.bytes()), trace.get(..300));
    Ok(())
}
