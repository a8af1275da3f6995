//! The worked example, and traces with each kind of line.
ghost use Rattle.std.specs.Prelude.{◌≤◌};

use fg_flows::Table;
use fg_inspect::*;
use fg_io::{MemSink, MemSource, SafeSource, Source};
use fg_trace::{Finish, record_header};
use std::alloc::{AllocError, Global};
use std::process::Abort;
use std::test::Fail;

/// A media datagram of seven packets with this first byte, payload type and sequence number.
fn media(first: u8, pt: u8, seq: u8) -> [u8; 1328] {
    let mut bytes = [0; 1328];
    bytes[0] = first;
    bytes[1] = pt;
    bytes[3] = seq;
    for packet in 0..7 {
        bytes[12 + 188 * packet] = 0x47;
    }
    bytes
}

/// A parity datagram of 4 datagrams from the sequence number 0x0102 on, with this first byte, and with these in place of
/// the bytes 4, 12 and 13 of its FEC header (SMPTE ST 2022-1). It has a byte of payload too many.
fn parity(first: u8, recovery: u8, kind: u8, offset: u8) -> [u8; 1345] {
    let mut bytes = [0; 1345];
    bytes[0] = first;
    bytes[12] = 1;
    bytes[13] = 2;
    bytes[16] = recovery;
    bytes[24] = kind;
    bytes[25] = offset;
    bytes[26] = 4;
    bytes
}

fn magic(alloc: Global) -> Result<Vec<u8>, AllocError> {
    Vec::from_slice(alloc, b"FECTRAC1")
}

/// Adds a record with the first so many bytes of a datagram to a trace.
fn add(
    trace: &mut Vec<u8>,
    time: u64,
    port: u16,
    datagram: &[u8],
    size: u16,
) -> Result<(), AllocError> {
    trace.extend_from_slice(&record_header(time, port, size))?;
    trace.extend_from_slice(datagram.get(..usize::from(size)).unwrap_or(&[]))
}

/// The answer for a source, of the flows 5000 and 6000.
fn inspected<S: Source>(
    rt: &impl Abort,
    alloc: Global,
    max: u64,
    input: &mut S,
    out: &mut MemSink,
) -> Finish
    requires least { 8 ≤ max }
    requires limit { max ≤ 1099511627776 }
{
    let table = Table::new(alloc, &[5000, 6000]).expect(rt, "a table");
    inspect(alloc, &table, max, input, out)
}

/// The answer and the text for a trace.
fn told(
    rt: &impl Abort,
    alloc: Global,
    trace: &[u8],
    max: u64,
) -> Result<(Finish, MemSink), AllocError>
    requires least { 8 ≤ max }
    requires limit { max ≤ 1099511627776 }
{
    let mut input = SafeSource::new(alloc, trace, 1000)?;
    let mut out = MemSink::new(alloc, 65_536, &[])?;
    let finish = inspected(rt, alloc, max, &mut input, &mut out);
    Ok((finish, out))
}

const MOST: u64 = 1_099_511_627_776;

/// Inspects a trace of whole records, and compares its text with this one.
fn is_told_whole(
    rt: &impl Abort,
    alloc: Global,
    trace: &[u8],
    text: &str,
) -> Result<(), AllocError> {
    let (finish, out) = told(rt, alloc, trace, MOST)?;
    assert_eq!(rt; finish, Finish::Done);
    assert_eq!(rt; out.bytes(), text.as_bytes());
    Ok(())
}

/// The worked trace: three media datagrams with the sequence numbers 10, 11 and 12, which has 4,028 bytes.
fn three(alloc: Global) -> Result<Vec<u8>, AllocError> {
    let mut trace = magic(alloc)?;
    for seq in 10..13 {
        add(&mut trace, 0, 5000, &media(0x80, 0x21, seq), 1328)?;
    }
    Ok(trace)
}

const TWO: &str = "0 0 5000 1328 media seq 10 len 1316\n1 0 5000 1328 media seq 11 len 1316\n";

const THREE: &str = "0 0 5000 1328 media seq 10 len 1316
1 0 5000 1328 media seq 11 len 1316
2 0 5000 1328 media seq 12 len 1316
";

#[test]
fn three_in_order(rt: HostRuntime) -> Result<(), Fail> {
    let trace = three(rt.alloc())?;
    let (finish, out) = told(&rt, rt.alloc(), &trace, MOST)?;
    assert_eq!(rt; finish, Finish::Done);
    assert_eq!(rt; out.bytes(), THREE.as_bytes());
    Ok(())
}

#[test]
fn three_past_the_limit(rt: HostRuntime) -> Result<(), Fail> {
    let trace = three(rt.alloc())?;
    let (finish, out) = told(&rt, rt.alloc(), &trace, 2700)?;
    assert_eq!(rt; finish, Finish::TooLong(2688));
    assert_eq!(rt; out.bytes(), TWO.as_bytes());
    Ok(())
}

#[test]
fn no_trace(rt: HostRuntime) -> Result<(), Fail> {
    let (finish, out) = told(&rt, rt.alloc(), b"FECTRAC2", 8)?;
    assert_eq!(rt; finish, Finish::NotTrace(7));
    assert!(rt; out.bytes().is_empty());
    Ok(())
}

/// A record of each kind, one on a port of no flow, and datagrams on ports that carry another kind. The record that is cut
/// off has no line.
fn kinds(alloc: Global) -> Result<Vec<u8>, AllocError> {
    let mut trace = magic(alloc)?;
    add(&mut trace, 7, 6000, &media(0x80, 0xa1, 10), 388)?;
    add(&mut trace, u64::MAX, 5002, &parity(0x80, 0x80, 0, 5), 1344)?;
    add(&mut trace, 0, 5004, &parity(0xbf, 0xff, 0, 20), 29)?;
    add(&mut trace, 0, 5001, &[], 0)?;
    add(&mut trace, 0, 5000, &parity(0x80, 0x80, 0, 5), 1345)?;
    add(&mut trace, 0, 6004, &media(0x80, 0x21, 10), 1328)?;
    trace.extend_from_slice(&[0; 11])?;
    Ok(trace)
}

const KINDS: &str = "0 7 6000 388 media seq 10 len 376
1 18446744073709551615 5002 1344 column base 258 offset 5 na 4
2 0 5004 29 row base 258 offset 20 na 4
3 0 5001 0 other
4 0 5000 1345 media bad 4
5 0 6004 1328 row bad 3
";

#[test]
fn each_kind_and_a_cut_tail(rt: HostRuntime) -> Result<(), Fail> {
    let trace = kinds(rt.alloc())?;
    let (finish, out) = told(&rt, rt.alloc(), &trace, MOST)?;
    assert_eq!(rt; finish, Finish::Cut(4514));
    assert_eq!(rt; out.bytes(), KINDS.as_bytes());
    Ok(())
}

/// Media datagrams with each fault, the largest record, and one that is refused for its flags alone.
fn media_faults(alloc: Global) -> Result<Vec<u8>, AllocError> {
    let mut trace = magic(alloc)?;
    add(&mut trace, 0, 5000, &media(0x90, 0x21, 0), 11)?;
    add(&mut trace, 0, 5000, &media(0x50, 0x22, 0), 1328)?;
    add(&mut trace, 0, 5000, &media(0x90, 0x22, 0), 1328)?;
    add(&mut trace, 0, 5000, &media(0x80, 0x22, 0), 1328)?;
    add(&mut trace, 0, 5000, &media(0x80, 0x21, 0), 1327)?;
    let mut unsynced = media(0x80, 0x21, 0);
    unsynced[200] = 0x46;
    add(&mut trace, 0, 5000, &unsynced, 1328)?;
    add(&mut trace, 0, 5000, &[0x80; 65_535], 65_535)?;
    add(&mut trace, 0, 5000, &media(0x90, 0x21, 0), 1328)?;
    Ok(trace)
}

const MEDIA_FAULTS: &str = "0 0 5000 11 media bad 1
1 0 5000 1328 media bad 2
2 0 5000 1328 media bad 3
3 0 5000 1328 media bad 4
4 0 5000 1327 media bad 5
5 0 5000 1328 media bad 6
6 0 5000 65535 media bad 4
7 0 5000 1328 media bad 3
";

/// Parity datagrams with each fault.
fn parity_faults(alloc: Global) -> Result<Vec<u8>, AllocError> {
    let mut trace = magic(alloc)?;
    add(&mut trace, 0, 5002, &parity(0x40, 0, 0, 0), 27)?;
    add(&mut trace, 0, 5004, &parity(0x40, 0, 0, 0), 28)?;
    add(&mut trace, 0, 5002, &parity(0x80, 0x7f, 0x80, 0), 28)?;
    add(&mut trace, 0, 5004, &parity(0x80, 0x80, 0x80, 0), 28)?;
    add(&mut trace, 0, 5002, &parity(0x80, 0x80, 0x40, 21), 28)?;
    add(&mut trace, 0, 5004, &parity(0x80, 0x80, 0x40, 5), 28)?;
    Ok(trace)
}

const PARITY_FAULTS: &str = "0 0 5002 27 column bad 1
1 0 5004 28 row bad 2
2 0 5002 28 column bad 3
3 0 5004 28 row bad 4
4 0 5002 28 column bad 5
5 0 5004 28 row bad 6
";

#[test]
fn each_fault(rt: HostRuntime) -> Result<(), Fail> {
    let trace = media_faults(rt.alloc())?;
    is_told_whole(&rt, rt.alloc(), &trace, MEDIA_FAULTS)?;
    let trace = parity_faults(rt.alloc())?;
    is_told_whole(&rt, rt.alloc(), &trace, PARITY_FAULTS)?;
    Ok(())
}

// The second record isn't whole when the read fails, and the first one's line is still held.
#[test]
fn a_read_fails(rt: HostRuntime) -> Result<(), Fail> {
    let mut input = MemSource::new(rt.alloc(), &three(rt.alloc())?, 1, &[1500])?;
    let mut out = MemSink::new(rt.alloc(), 65_536, &[])?;
    let finish = inspected(&rt, rt.alloc(), MOST, &mut input, &mut out);
    assert_eq!(rt; finish, Finish::ReadFault);
    assert!(rt; out.bytes().is_empty());
    Ok(())
}

/// So many records without a datagram, on a port of no flow.
fn many(alloc: Global, count: u16) -> Result<Vec<u8>, AllocError> {
    let mut trace = magic(alloc)?;
    for number in 0..count {
        add(&mut trace, 1_000_000 + u64::from(number), 1, &[], 0)?;
    }
    Ok(trace)
}

// The text has 44,890 bytes in lines of at most 23. It goes out in three writes, of which the third fails: a write comes where
// the next piece of a line would be more than 16,384. Or it is more than the sink has room for.
#[test]
fn a_write_fails(rt: HostRuntime) -> Result<(), Fail> {
    let trace = many(rt.alloc(), 2000)?;
    for (room, fails, least, most) in [
        (65_536, [2], 32_700, 32_768),
        (32_868, [9], 32_868, 32_868),
    ] {
        let mut input = SafeSource::new(rt.alloc(), &trace, 1000)?;
        let mut out = MemSink::new(rt.alloc(), room, &fails)?;
        let finish = inspected(&rt, rt.alloc(), MOST, &mut input, &mut out);
        assert_eq!(rt; finish, Finish::WriteFault);
        assert!(rt; out.bytes().len() >= least && out.bytes().len() <= most);
        assert_eq!(rt;
            out.bytes().first_chunk(),
            Some(b"0 1000000 1 0 other\n1 1000001 1 0 other\n")
        );
    }
    Ok(())
}
