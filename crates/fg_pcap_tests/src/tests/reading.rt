//! Small captures, and frames of each kind.
ghost use Rattle.std.specs.Prelude.{◌≤◌, ◌^◌};

use super::{FAILING, MAGIC, MOST, joined};
use fg_io::{Fault, MemSink, MemSource, SafeSource};
use fg_pcap::{CaptureEnding, from_capture};
use std::alloc::{AllocError, Global};
use std::process::Abort;
use std::test::Fail;

/// A file header with the highest byte first and times in microseconds. The bytes between version and link type aren't looked at.
const FILE_HEADER: &[u8] = b"\xa1\xb2\xc3\xd4\0\x02\0\x04............\0\0\0\x01";

/// What a record begins with: its time, 5 microseconds, and the size of its frame, 48 bytes, as it was kept and as it was sent.
const TIME: &[u8] = b"\0\0\0\0\0\0\0\x05";

const SIZES: &[u8] = b"\0\0\0\x30\0\0\0\x30";

/// An Ethernet frame (RFC 894) with an IPv4 packet (RFC 791) of 32 bytes, a UDP datagram (RFC 768) from port 4369 to port
/// 5000 with four bytes of payload, and two bytes of padding.
const FRAME: &[u8] = &[
    2, 0, 0, 0, 0, 2, 2, 0, 0, 0, 0, 1, 0x08, 0x00, // Ethernet
    0x45, 0, 0, 32, 0, 0, 0x40, 0, 64, 17, 0, 0, 10, 0, 0, 1, 10, 0, 0, 2, // IPv4
    0x11, 0x11, 0x13, 0x88, 0, 12, 0, 0, // UDP
    1, 2, 3, 4, 0xee, 0xee,
];

/// The trace of its datagram, and that of a datagram without payload.
const TAKEN: &[u8] = b"FECTRAC1\0\0\0\0\0\0\0\x05\x13\x88\0\x04\x01\x02\x03\x04";

const EMPTY: &[u8] = b"FECTRAC1\0\0\0\0\0\0\0\x05\x13\x88\0\0";

/// What the making of a trace answers.
type Answer = Result<CaptureEnding, Fault>;

/// Compares an answer and what is written.
fn is_told(rt: &impl Abort, answer: Answer, out: &MemSink, due: Answer, trace: &[u8]) {
    assert_eq!(rt; answer, due);
    assert_eq!(rt; out.bytes(), trace);
}

/// Makes a trace of a capture that comes in pieces of seven bytes, and compares what comes of it.
pub(super) fn is_taken(
    rt: &impl Abort,
    alloc: Global,
    capture: &[u8],
    max: u64,
    ending: CaptureEnding,
    trace: &[u8],
) -> Result<(), AllocError>
    requires least { 8 ≤ max }
    requires limit { max ≤ 2 ^ 40 }
{
    let mut input = SafeSource::new(alloc, capture, 7)?;
    let mut out = MemSink::new(alloc, 65_536, &[])?;
    let answer = from_capture(alloc, max, &mut input, &mut out);
    is_told(rt, answer, &out, Ok(ending), trace);
    Ok(())
}

/// What stands before the frame, with times in microseconds and in nanoseconds, in each byte order.
static HEADS: [&[u8]; 4] = [
    b"\xa1\xb2\xc3\xd4\0\x02\0\x04............\0\0\0\x01\0\0\0\0\0\0\0\x05\0\0\0\x30\0\0\0\x30",
    b"\xd4\xc3\xb2\xa1\x02\0\x04\0............\x01\0\0\0\0\0\0\0\x05\0\0\0\x30\0\0\0\x30\0\0\0",
    b"\xa1\xb2\x3c\x4d\0\x02\0\x04............\0\0\0\x01\0\0\0\0\0\0\x17\x6f\0\0\0\x30\0\0\0\x30",
    b"\x4d\x3c\xb2\xa1\x02\0\x04\0............\x01\0\0\0\0\0\0\0\x6f\x17\0\0\x30\0\0\0\x30\0\0\0",
];

#[test]
fn both_orders_and_units(rt: HostRuntime) -> Result<(), Fail> {
    for head in HEADS {
        let bytes = joined(rt.alloc(), &[head, FRAME])?;
        is_taken(&rt, rt.alloc(), &bytes, 88, CaptureEnding::Ended, TAKEN)?;
    }
    Ok(())
}

/// An IPv4 header with four bytes of options.
const OPTIONS: &[u8] = &[
    0x46, 0, 0, 36, 0, 0, 0x40, 0, 64, 17, 0, 0, 10, 0, 0, 1, 10, 0, 0, 2, 1, 1, 1, 1,
];

/// From where and up to where the frame has other bytes, these bytes, and the trace then.
static FRAMES: [(usize, usize, &[u8], &[u8]); 20] = [
    // Padding is no payload, and needn't be there.
    (46, 48, &[0, 0], TAKEN),
    (46, 48, &[], TAKEN),
    (45, 48, &[], MAGIC),
    // Of another type, IPv6, tagged (IEEE 802.1Q), and tagged twice.
    (12, 13, &[0x86], MAGIC),
    (12, 14, &[0x86, 0xdd], MAGIC),
    (12, 12, &[0x81, 0, 0, 5], TAKEN),
    (12, 12, &[0x81, 0, 0, 5, 0x81, 0, 0, 6], MAGIC),
    // Of another version and of another protocol, and fragments.
    (14, 15, &[0x65], MAGIC),
    (23, 24, &[6], MAGIC),
    (20, 21, &[0x60], MAGIC),
    (21, 22, &[1], MAGIC),
    // The IPv4 header's length, also with options.
    (14, 15, &[0x44], MAGIC),
    (14, 34, OPTIONS, TAKEN),
    // The packet's length.
    (17, 18, &[34], TAKEN),
    (17, 18, &[35], MAGIC),
    (17, 18, &[31], MAGIC),
    (17, 18, &[19], MAGIC),
    // The datagram's length.
    (39, 40, &[8], EMPTY),
    (39, 40, &[7], MAGIC),
    (39, 40, &[13], MAGIC),
];

/// The capture of the frame with these bytes between the places.
fn changed(alloc: Global, start: usize, end: usize, bytes: &[u8]) -> Result<Vec<u8>, AllocError> {
    let front = FRAME.get(..start).unwrap_or(&[]);
    let back = FRAME.get(end..).unwrap_or(&[]);
    let frame = joined(alloc, &[front, bytes, back])?;
    let size = u32::try_from(frame.len()).unwrap_or(0).to_be_bytes();
    joined(alloc, &[FILE_HEADER, TIME, &size, &size, &frame])
}

// Other types, versions, protocols and lengths, with tags, options, padding, and as fragments.
#[test]
fn frames_of_each_kind(rt: HostRuntime) -> Result<(), Fail> {
    for (start, end, bytes, trace) in &FRAMES {
        let bytes = changed(rt.alloc(), *start, *end, bytes)?;
        is_taken(&rt, rt.alloc(), &bytes, MOST, CaptureEnding::Ended, trace)?;
    }
    Ok(())
}

/// File headers with the version of the other byte order, of another link type, and without its last byte.
const SWAPPED: &[u8] = b"\xd4\xc3\xb2\xa1\0\x02\0\x04............\x01\0\0\0";

const UNLINKED: &[u8] = b"\xa1\xb2\xc3\xd4\0\x02\0\x04............\0\0\0\x65";

const SHORT: &[u8] = b"\xa1\xb2\xc3\xd4\0\x02\0\x04............\0\0\0";

/// Captures without a record, a limit, and the ending and the trace of each.
static FILE_HEADERS: [(&[u8], u64, CaptureEnding, &[u8]); 7] = [
    (FILE_HEADER, 24, CaptureEnding::Ended, MAGIC),
    (&[], 8, CaptureEnding::NotCapture(0), &[]),
    (&[0; 24], MOST, CaptureEnding::NotCapture(0), &[]),
    (SWAPPED, MOST, CaptureEnding::NotCapture(4), &[]),
    (UNLINKED, MOST, CaptureEnding::NotCapture(20), &[]),
    (UNLINKED, 23, CaptureEnding::TooLong(0), &[]),
    (SHORT, 23, CaptureEnding::NotCapture(23), &[]),
];

#[test]
fn file_headers(rt: HostRuntime) -> Result<(), Fail> {
    for (bytes, max, ending, trace) in &FILE_HEADERS {
        is_taken(&rt, rt.alloc(), bytes, *max, *ending, trace)?;
    }
    Ok(())
}

#[test]
fn a_limit_at_each_place(rt: HostRuntime) -> Result<(), Fail> {
    let bytes = joined(rt.alloc(), &[FILE_HEADER, TIME, SIZES, FRAME])?;
    for max in 8..88 {
        let (place, trace) = if max < 24 { (0, &[][..]) } else { (24, MAGIC) };
        let ending = CaptureEnding::TooLong(place);
        is_taken(&rt, rt.alloc(), &bytes, max, ending, trace)?;
    }
    Ok(())
}

#[test]
fn an_end_at_each_place(rt: HostRuntime) -> Result<(), Fail> {
    let bytes = joined(rt.alloc(), &[FILE_HEADER, TIME, SIZES, FRAME])?;
    for count in 25..88 {
        let front = bytes.get(..count).unwrap_or(&[]);
        is_taken(&rt, rt.alloc(), front, MOST, CaptureEnding::Cut(24), MAGIC)?;
    }
    Ok(())
}

/// How many zeros stand behind the header of a record that keeps the most bytes, what follows them, and the ending.
static LONGEST: [(usize, &[u8], CaptureEnding); 3] = [
    (0, &[], CaptureEnding::Cut(24)),
    (262_144, &[], CaptureEnding::Ended),
    // A record keeps one byte more.
    (
        262_144,
        b"\0\0\0\0\0\0\0\0\0\x04\0\x01\0\0\0\0",
        CaptureEnding::NotCapture(262_184),
    ),
];

/// That capture.
fn longest(alloc: Global, zeros: usize, more: &[u8]) -> Result<Vec<u8>, AllocError> {
    let zeros = vec![in alloc; 0; zeros]?;
    let record = b"\0\0\0\0\0\0\0\0\0\x04\0\0\0\0\0\0";
    joined(alloc, &[FILE_HEADER, record, &zeros, more])
}

// A record that keeps 262,144 bytes, and one that keeps one more.
#[test]
fn the_longest_record(rt: HostRuntime) -> Result<(), Fail> {
    for (zeros, more, ending) in &LONGEST {
        let bytes = longest(rt.alloc(), *zeros, more)?;
        is_taken(&rt, rt.alloc(), &bytes, MOST, *ending, MAGIC)?;
    }
    Ok(())
}

/// Makes a trace of a capture in reads of 40 bytes, of which these fail, and compares what comes of it.
fn is_stopped(
    rt: &impl Abort,
    alloc: Global,
    capture: &[u8],
    reads: &[u64],
    writes: &[u64],
    fault: Fault,
) -> Result<(), AllocError> {
    let mut input = MemSource::new(alloc, capture, 40, reads)?;
    let mut out = MemSink::new(alloc, 100, writes)?;
    let answer = from_capture(alloc, MOST, &mut input, &mut out);
    is_told(rt, answer, &out, Err(fault), &[]);
    Ok(())
}

// The second of three reads fails, or the only write.
#[test]
fn reads_and_writes_fail(rt: HostRuntime) -> Result<(), Fail> {
    let bytes = joined(rt.alloc(), &[FILE_HEADER, TIME, SIZES, FRAME])?;
    for (reads, writes, fault) in &FAILING {
        is_stopped(&rt, rt.alloc(), &bytes, reads, writes, *fault)?;
    }
    Ok(())
}
