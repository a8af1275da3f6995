//! The worked examples: the trace of three records has 4,028 bytes, of which the third record begins at 2,688.
ghost use Rattle.std.specs.Prelude.{◌≡◌, ◌≤◌, ◌<◌, ◌^◌, ℕ, List, length, IfOk, IfSome, true};
ghost use Rattle.fg_trace.specs.Trace.{Record, IsTrace, Ended};

use fg_io::{Fault, MemSource, SafeSource, Source};
use fg_trace::*;
use std::alloc::{AllocError, Global};
use std::test::Fail;

/// A trace of records at time 1 and port 2, which have datagrams of these sizes, each filled with its number.
fn trace(alloc: Global, sizes: &[u16]) -> Result<Vec<u8>, AllocError> {
    let mut bytes = Vec::from_slice(alloc, b"FECTRAC1")?;
    for (number, size) in sizes.iter().enumerate() {
        bytes.extend_from_slice(&[0, 0, 0, 0, 0, 0, 0, 1, 0, 2])?;
        bytes.extend_from_slice(&size.to_be_bytes())?;
        bytes.extend_from_slice(&vec![in alloc; (number % 251) as u8; usize::from(*size)]?)?;
    }
    Ok(bytes)
}

fn three(alloc: Global) -> Result<Vec<u8>, AllocError> {
    trace(alloc, &[1328; 3])
}

/// How many records come, and then which other answer, of at most so many calls.
fn walk<S: Source>(
    reader: &mut Reader,
    from: &mut S,
    calls: usize,
) -> (usize, Result<Step, TraceFault>)
    requires { reader.old.started ≡ true }
    ensures { reader.new.started ≡ true }
{
    for count in 0..calls {
        match reader.next(from) {
            Ok(Step::Datagram { .. }) => {}
            answer => return (count, answer),
        }
    }
    (calls, Err(TraceFault::ReadFault))
}

/// How many records the bytes have, and how they end, over a source that gives pieces of this size.
fn walked(
    alloc: Global,
    bytes: &[u8],
    piece: usize,
    max: u64,
) -> Result<(usize, Result<Step, TraceFault>), AllocError>
    requires piece { 1 ≤ piece }
    requires max { 8 ≤ max }
{
    let mut source = SafeSource::new(alloc, bytes, piece)?;
    let mut reader = Reader::new(alloc, max)?;
    if let Err(fault) = reader.start(&mut source) {
        return Ok((0, Err(fault)));
    }
    Ok(walk(&mut reader, &mut source, 5))
}

/// As far as `count` bytes of the trace of three records go.
fn cut_at(count: usize) -> (usize, Result<Step, TraceFault>) {
    if count < 8 {
        return (0, Err(TraceFault::NotTrace(count as u64)));
    }
    let records = (count - 8) / 1340;
    let place = 8 + records * 1340;
    if place == count {
        (records, Ok(Step::End))
    } else {
        (records, Err(TraceFault::Cut(place as u64)))
    }
}

fn each_cut(alloc: Global, piece: usize) -> Result<usize, AllocError>
    requires { 1 ≤ piece }
{
    let bytes = three(alloc)?;
    let mut right = 0usize;
    for count in 0..bytes.len() {
        if walked(alloc, &bytes[..count], piece, 1 << 40)? == cut_at(count) {
            right = right.saturating_add(1);
        }
    }
    Ok(right)
}

#[test]
fn each_cut_in_bytes(rt: HostRuntime) -> Result<(), Fail> {
    assert_eq!(rt; each_cut(rt.alloc(), 1)?, 4028);
    Ok(())
}

#[test]
fn each_cut_in_pieces(rt: HostRuntime) -> Result<(), Fail> {
    assert_eq!(rt; each_cut(rt.alloc(), 1000)?, 4028);
    Ok(())
}

#[test]
fn cut_in_any_pieces(rt: HostRuntime) -> Result<(), Fail> {
    let mut bytes = three(rt.alloc())?;
    assert_eq!(rt; bytes.len(), 4028);
    bytes.truncate(4000);
    for piece in [1, 7, 4000] {
        let walk = walked(rt.alloc(), &bytes, piece.max(1), 1 << 40)?;
        assert_eq!(rt; walk, (2, Err(TraceFault::Cut(2688))));
    }
    Ok(())
}

/// Limits, and what the trace of three records gives under them.
const LIMITS: [(u64, usize, Result<Step, TraceFault>); 9] = [
    (8, 0, Err(TraceFault::TooLong(8))),
    (13, 0, Err(TraceFault::TooLong(8))),
    (19, 0, Err(TraceFault::TooLong(8))),
    (20, 0, Err(TraceFault::TooLong(8))),
    (1348, 1, Err(TraceFault::TooLong(1348))),
    (2694, 2, Err(TraceFault::TooLong(2688))),
    (2700, 2, Err(TraceFault::TooLong(2688))),
    (4027, 2, Err(TraceFault::TooLong(2688))),
    (4028, 3, Ok(Step::End)),
];

#[test]
fn limits_in_any_pieces(rt: HostRuntime) -> Result<(), Fail> {
    let bytes = three(rt.alloc())?;
    for (max, records, end) in LIMITS {
        for piece in [1, 7, 4096] {
            let walk = walked(rt.alloc(), &bytes, piece.max(1), max.max(8))?;
            assert_eq!(rt; walk, (records, end));
        }
    }
    Ok(())
}

#[test]
fn each_byte_of_the_magic_counts(rt: HostRuntime) -> Result<(), Fail> {
    for place in 0..8usize {
        let mut bytes = three(rt.alloc())?;
        assert_eq!(rt; bytes.len(), 4028);
        bytes[place] ^= 0x20;
        assert_eq!(rt;
            walked(rt.alloc(), &bytes, 3, 8)?,
            (0, Err(TraceFault::NotTrace(place as u64)))
        );
    }
    Ok(())
}

/// The answer, and then the size of the payload and its last byte.
fn seen<S: Source>(reader: &mut Reader, from: &mut S) -> (Result<Step, TraceFault>, usize, u8)
    requires { reader.old.started ≡ true }
    ensures { reader.new.started ≡ true }
{
    let answer = reader.next(from);
    let payload = reader.payload();
    (
        answer,
        payload.len(),
        payload.last().copied().unwrap_or(255),
    )
}

fn datagram(size: u16) -> Result<Step, TraceFault> {
    Ok(Step::Datagram {
        time: 1,
        port: 2,
        size,
    })
}

#[test]
fn least_and_largest_records(rt: HostRuntime) -> Result<(), Fail> {
    let bytes = trace(rt.alloc(), &[0, 65535, 65535, 65535, 65535, 1])?;
    let mut source = SafeSource::new(rt.alloc(), &bytes, 100_000)?;
    let mut reader = Reader::new(rt.alloc(), 1 << 40)?;
    assert_eq!(rt; reader.start(&mut source), Ok(()));
    assert_eq!(rt; seen(&mut reader, &mut source), (datagram(0), 0, 255));
    for number in 1..5u8 {
        assert_eq!(rt;
            seen(&mut reader, &mut source),
            (datagram(65535), 65535, number)
        );
    }
    assert_eq!(rt; seen(&mut reader, &mut source), (datagram(1), 1, 5));
    assert_eq!(rt; seen(&mut reader, &mut source), (Ok(Step::End), 0, 255));
    Ok(())
}

/// Whether a record is held at the start, after the first of two, and after the second, over a source that gives pieces of
/// this size.
fn held_ahead(alloc: Global, piece: usize) -> Result<[bool; 3], AllocError>
    requires { 1 ≤ piece }
{
    let mut source = SafeSource::new(alloc, &trace(alloc, &[3, 5])?, piece)?;
    let mut reader = Reader::new(alloc, 1 << 40)?;
    if reader.start(&mut source).is_err() {
        return Ok([false; 3]);
    }
    let first = reader.is_next_held();
    let _ = reader.next(&mut source);
    let second = reader.is_next_held();
    let _ = reader.next(&mut source);
    Ok([first, second, reader.is_next_held()])
}

#[test]
fn a_held_record_is_told(rt: HostRuntime) -> Result<(), Fail> {
    assert_eq!(rt; held_ahead(rt.alloc(), 40)?, [true, true, false]);
    assert_eq!(rt; held_ahead(rt.alloc(), 39)?, [true, false, false]);
    Ok(())
}

#[test]
fn goes_on_after_a_failed_read(rt: HostRuntime) -> Result<(), Fail> {
    let mut source = MemSource::new(rt.alloc(), &three(rt.alloc())?, 1, &[3, 1500])?;
    let mut reader = Reader::new(rt.alloc(), 1 << 40)?;
    assert_eq!(rt; reader.start(&mut source), Err(TraceFault::ReadFault));
    assert_eq!(rt; reader.start(&mut source), Ok(()));
    assert_eq!(rt;
        walk(&mut reader, &mut source, 5),
        (1, Err(TraceFault::ReadFault))
    );
    assert_eq!(rt; reader.payload(), b"".as_slice());
    assert_eq!(rt; walk(&mut reader, &mut source, 5), (2, Ok(Step::End)));
    Ok(())
}

#[test]
fn reads_one_byte_past_the_limit_and_no_more(rt: HostRuntime) -> Result<(), Fail> {
    let mut source = SafeSource::new(rt.alloc(), &three(rt.alloc())?, 4096)?;
    let mut reader = Reader::new(rt.alloc(), 2700)?;
    assert_eq!(rt; reader.start(&mut source), Ok(()));
    assert_eq!(rt;
        walk(&mut reader, &mut source, 5),
        (2, Err(TraceFault::TooLong(2688)))
    );
    assert_eq!(rt; reader.start(&mut source), Err(TraceFault::TooLong(2688)));
    assert_eq!(rt;
        walk(&mut reader, &mut source, 5),
        (0, Err(TraceFault::TooLong(2688)))
    );
    assert_eq!(rt; source.read(&mut [0; 4096]), Ok(4028 - 2701));
    Ok(())
}

#[test]
fn a_written_record_is_read_back(rt: HostRuntime) -> Result<(), Fail> {
    let mut bytes = [0x2a; 30];
    assert_eq!(rt;
        write_datagram(0x0102_0304_0506_0708, 0x1389, b"abc", &mut bytes),
        15
    );
    assert!(rt; bytes.starts_with(b"\x01\x02\x03\x04\x05\x06\x07\x08\x13\x89\x00\x03abc*"));
    assert_eq!(rt;
        record_header(0x0102_0304_0506_0708, 0x1389, 3),
        *b"\x01\x02\x03\x04\x05\x06\x07\x08\x13\x89\x00\x03"
    );
    Ok(())
}

#[test]
fn a_command_ends_by_a_fault(rt: HostRuntime) {
    assert_eq!(rt; Finish::from(Fault::Read), Finish::ReadFault);
    assert_eq!(rt; Finish::from(Fault::Write), Finish::WriteFault);
    assert_eq!(rt; Finish::from(Fault::Memory), Finish::Memory);
}

/// How many records a trace has that comes to its end: a loop over a reader, whose invariant is where the reader stands.
fn count_records<S: Source>(
    alloc: Global,
    from: &mut S,
    max: u64,
) -> Result<Result<u64, TraceFault>, AllocError>
    requires least { 8 ≤ max }
    requires few { max < 2 ^ 63 }
    ensures { IfOk result (λ counted. IfOk counted (λ count.
        (records : List Record) × (count ≡ length records)
        × IfSome (S.left from.old) (λ bytes. IsTrace bytes max records Ended))) }
{
    let mut reader = Reader::new(alloc, max)?;
    if let Err(fault) = reader.start(from) {
        return Ok(Err(fault));
    }
    let mut count = 0;
    loop {
        match reader.next(from) {
            Ok(Step::Datagram { .. }) => count += 1,
            Ok(Step::End) => return Ok(Ok(count)),
            Err(fault) => return Ok(Err(fault)),
        }
    }
}

#[test]
fn records_are_counted(rt: HostRuntime) -> Result<(), Fail> {
    let mut source = SafeSource::new(rt.alloc(), &three(rt.alloc())?, 7)?;
    assert_eq!(rt; count_records(rt.alloc(), &mut source, 1 << 40)?, Ok(3));
    Ok(())
}

fn needs_send<T: Send>(_value: &T) {}

// The engine's reader may be moved to a thread.
#[test]
fn crosses_threads(rt: HostRuntime) -> Result<(), Fail> {
    needs_send(&Reader::new(rt.alloc(), 8)?);
    Ok(())
}
