//! Small traces, the limits of what fits, and each ending.
ghost use Rattle.std.specs.Prelude.{◌≤◌, ◌^◌};

use super::reading::is_taken;
use super::{FAILING, MAGIC, MOST, joined};
use fg_io::{Fault, MemSink, MemSource};
use fg_pcap::{CaptureEnding, SpellingEnding, fit, to_capture};
use std::alloc::{AllocError, Global};
use std::process::Abort;
use std::test::Fail;

/// Records on port 5000 of seven bytes each, after 5 and 6 microseconds, and after 2^32 seconds, which is the least time that a
/// capture can't tell.
const FIVE: &[u8] = b"\0\0\0\0\0\0\0\x05\x13\x88\0\x07GGGGGGG";

const SIX: &[u8] = b"\0\0\0\0\0\0\0\x06\x13\x88\0\x07GGGGGGG";

const LATE: &[u8] = b"\0\x0f\x42\x40\0\0\0\0\x13\x88\0\x07GGGGGGG";

/// A record that isn't whole.
const CUT: &[u8] = b"\0\0\0\0\0\0\0\x06\x13\x88\0\x07GGGGGG";

/// What a writing answers.
type Answer = Result<SpellingEnding, Fault>;

/// The answer for a trace, of whose reads and writes these fail, and what is written.
fn written(
    alloc: Global,
    trace: &[u8],
    max: u64,
    reads: &[u64],
    writes: &[u64],
) -> Result<(Answer, MemSink), AllocError>
    requires least { 8 ≤ max }
    requires limit { max ≤ 2 ^ 40 }
{
    let mut input = MemSource::new(alloc, trace, 40, reads)?;
    let mut out = MemSink::new(alloc, 65_536, writes)?;
    let answer = to_capture(alloc, max, &mut input, &mut out);
    Ok((answer, out))
}

/// Compares an answer, and how many bytes are written.
fn is_told(rt: &impl Abort, answer: Answer, out: &MemSink, due: Answer, size: usize) {
    assert_eq!(rt; answer, due);
    assert_eq!(rt; out.bytes().len(), size);
}

/// Traces in pieces, a limit, and the ending of each and how many bytes are written.
static TRACES: [(&[&[u8]], u64, SpellingEnding, usize); 7] = [
    (&[b"FECTRACK"], MOST, SpellingEnding::NotTrace(7), 0),
    // Without records, or where the first one doesn't fit, the file header stands alone.
    (&[MAGIC], MOST, SpellingEnding::Done, 24),
    (&[MAGIC, LATE], MOST, SpellingEnding::Unfit(0), 24),
    (
        &[MAGIC, FIVE, SIX],
        MOST,
        SpellingEnding::Done,
        24 + 2 * (58 + 7),
    ),
    // What follows a record that doesn't fit isn't looked at.
    (
        &[MAGIC, FIVE, LATE, CUT],
        MOST,
        SpellingEnding::Unfit(1),
        24 + 58 + 7,
    ),
    (
        &[MAGIC, FIVE, CUT],
        MOST,
        SpellingEnding::Cut(27),
        24 + 58 + 7,
    ),
    // The second record ends one byte past the limit.
    (
        &[MAGIC, FIVE, SIX],
        45,
        SpellingEnding::TooLong(27),
        24 + 58 + 7,
    ),
];

#[test]
fn each_ending(rt: HostRuntime) -> Result<(), Fail> {
    for (pieces, max, ending, size) in &TRACES {
        let trace = joined(rt.alloc(), pieces)?;
        let (answer, out) = written(rt.alloc(), &trace, *max, &[], &[])?;
        is_told(&rt, answer, &out, Ok(*ending), *size);
    }
    Ok(())
}

#[test]
fn reads_and_writes_fail(rt: HostRuntime) -> Result<(), Fail> {
    let trace = joined(rt.alloc(), &[MAGIC, FIVE, SIX])?;
    for (reads, writes, fault) in &FAILING {
        let (answer, out) = written(rt.alloc(), &trace, MOST, reads, writes)?;
        is_told(&rt, answer, &out, Err(*fault), 0);
    }
    Ok(())
}

#[test]
fn limits_of_a_capture(rt: HostRuntime) {
    let end = 4_294_967_296_000_000;
    for (time, size, fits) in [(end - 1, 65_507, true), (end, 0, false), (0, 65_508, false)] {
        assert_eq!(rt; fit(time, size), fits);
    }
}

/// What stands before a datagram of 1,328 bytes that is the first.
const HEADERS: &[u8] = &[
    0xa1, 0xb2, 0xc3, 0xd4, 0, 2, 0, 4, 0, 0, 0, 0, 0, 0, 0, 0, 0, 4, 0, 0, 0, 0, 0, 1, // the file header
    0, 0, 0, 0, 0, 0, 0, 0, 0, 0, 5, 0x5a, 0, 0, 5, 0x5a, // the record's header
    2, 0, 0, 0, 0, 2, 2, 0, 0, 0, 0, 1, 0x08, 0x00, // Ethernet
    0x45, 0, 5, 0x4c, 0, 0, 0x40, 0, 0x40, 0x11, 0x21, 0x9f, 10, 0, 0, 1, 10, 0, 0, 2, // IPv4
    0x13, 0x88, 0x13, 0x88, 5, 0x38, 0, 0, // UDP
];

/// Compares an answer, and with what a capture begins.
fn begins(rt: &impl Abort, answer: Answer, out: &MemSink, front: &[u8]) {
    assert_eq!(rt; answer, Ok(SpellingEnding::Done));
    assert!(rt; out.bytes().starts_with(front));
}

/// Seven packets in a datagram: the IPv4 header with its checksum, and those beside it.
#[test]
fn headers_of_seven_packets(rt: HostRuntime) -> Result<(), Fail> {
    let header = b"\0\0\0\0\0\0\0\0\x13\x88\x05\x30";
    let trace = joined(rt.alloc(), &[MAGIC, header, &[0x47; 1328]])?;
    let (answer, out) = written(rt.alloc(), &trace, MOST, &[], &[])?;
    begins(&rt, answer, &out, HEADERS);
    Ok(())
}

/// The latest time that a capture tells.
const LATEST: &[u8] = b"\0\x0f\x42\x3f\xff\xff\xff\xff\x13\x88\0\x07GGGGGGG";

/// What is written is read back as the trace that it was made of.
#[test]
fn there_and_back(rt: HostRuntime) -> Result<(), Fail> {
    let trace = joined(rt.alloc(), &[MAGIC, FIVE, LATEST])?;
    let (_, out) = written(rt.alloc(), &trace, MOST, &[], &[])?;
    is_taken(
        &rt,
        rt.alloc(),
        out.bytes(),
        MOST,
        CaptureEnding::Ended,
        &trace,
    )?;
    Ok(())
}
