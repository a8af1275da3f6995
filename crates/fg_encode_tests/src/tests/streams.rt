//! Streams that are cut. Packet number n begins at byte 188 n, and seven packets have 1,316 bytes.
ghost use Rattle.std.specs.Prelude.{◌≡◌, ◌≤◌, ◌^◌, ℕ, List, length, IfOk, IfSome};
ghost use Rattle.fg_encode.specs.Stream.{IsCut};

use fg_encode::stream::{StreamFault, StreamReader, StreamStep};
use fg_io::{Fault, MemSource, SafeSource, Source};
use fg_ts::TsFault;
use std::alloc::{AllocError, Global};
use std::test::Fail;

/// So many bytes, with a sync byte at the beginning of each packet but one.
fn stream(alloc: Global, length: usize, unsynced: usize) -> Result<Vec<u8>, AllocError> {
    let mut bytes = vec![in alloc; 0; length]?;
    for (place, byte) in bytes.iter_mut().enumerate() {
        if place % 188 == 0 {
            *byte = if place / 188 == unsynced { 0x46 } else { 0x47 };
        }
    }
    Ok(bytes)
}

/// How many payloads come, how many bytes they have in all, and then which other answer, of at most so many calls.
type Walk = (usize, usize, Result<StreamStep, Fault>);

fn walk<S: Source>(reader: &mut StreamReader, from: &mut S, calls: usize) -> Walk {
    let mut bytes = 0usize;
    for count in 0..calls {
        match reader.next(from) {
            Ok(StreamStep::Payload) => bytes = bytes.saturating_add(reader.payload().len()),
            answer => return (count, bytes, answer),
        }
    }
    (calls, bytes, Err(Fault::Memory))
}

/// What comes of the bytes, over a source that gives pieces of this size.
fn walked(
    alloc: Global,
    bytes: &[u8],
    piece: usize,
    packets: u8,
    max: u64,
) -> Result<Walk, AllocError> {
    let mut source = SafeSource::new(alloc, bytes, piece.max(1))?;
    let mut reader = StreamReader::new(alloc, packets.clamp(1, 7), max.clamp(8, LARGE))?;
    Ok(walk(&mut reader, &mut source, 1000))
}

const LARGE: u64 = 1 << 40;

/// The answer at the end of a whole stream.
const WHOLE: Result<StreamStep, Fault> = Ok(StreamStep::End(None));

fn no_sync(number: u64) -> Result<StreamStep, Fault> {
    Ok(StreamStep::End(Some(StreamFault::NotTransport(TsFault::NoSync(number)))))
}

fn ragged(length: u64) -> Result<StreamStep, Fault> {
    Ok(StreamStep::End(Some(StreamFault::NotTransport(TsFault::Ragged(length)))))
}

fn too_long(place: u64) -> Result<StreamStep, Fault> {
    Ok(StreamStep::End(Some(StreamFault::TooLong(place))))
}

// How many bytes the stream has, which packet lacks its sync byte, how many packets a payload has, and the limit; and then
// what comes of it. A last payload is as it comes.
#[test]
fn streams_in_any_pieces(rt: HostRuntime) -> Result<(), Fail> {
    for (length, unsynced, packets, max, walk) in [
        (376, 1, 1, LARGE, (1, 188, no_sync(1))),
        (376, 1, 7, LARGE, (0, 0, no_sync(1))),
        (2820, 13, 7, LARGE, (1, 1316, no_sync(13))),
        (190, 99, 1, LARGE, (1, 188, ragged(190))),
        (190, 99, 7, 190, (0, 0, ragged(190))),
        (2821, 99, 7, 2821, (2, 2632, ragged(2821))),
        (0, 99, 7, 8, (0, 0, WHOLE)),
        (2820, 99, 7, 2820, (3, 2820, WHOLE)),
        (2820, 99, 5, 2820, (3, 2820, WHOLE)),
        (2820, 99, 7, 8, (0, 0, too_long(0))),
        (2820, 99, 7, 1315, (0, 0, too_long(0))),
        (2820, 99, 7, 1316, (1, 1316, too_long(1316))),
        (2820, 99, 7, 2631, (1, 1316, too_long(1316))),
        (2820, 99, 7, 2632, (2, 2632, too_long(2632))),
        (2820, 99, 7, 2819, (2, 2632, too_long(2632))),
    ] {
        let bytes = stream(rt.alloc(), length, unsynced)?;
        for piece in [1, 7, 4000] {
            assert_eq!(rt; walked(rt.alloc(), &bytes, piece, packets, max)?, walk);
        }
    }
    Ok(())
}

// 600,096 bytes are more than twice what the buffer has.
#[test]
fn a_stream_goes_on_past_the_buffer(rt: HostRuntime) -> Result<(), Fail> {
    let bytes = stream(rt.alloc(), 600_096, 9999)?;
    for (piece, packets, payloads) in [(100_000, 7, 456), (1_000_000, 6, 532)] {
        assert_eq!(rt;
            walked(rt.alloc(), &bytes, piece, packets, LARGE)?,
            (payloads, 600_096, WHOLE)
        );
    }
    Ok(())
}

#[test]
fn goes_on_after_a_failed_read(rt: HostRuntime) -> Result<(), Fail> {
    let bytes = stream(rt.alloc(), 1504, 99)?;
    let mut source = MemSource::new(rt.alloc(), &bytes, 100, &[3, 15])?;
    let mut reader = StreamReader::new(rt.alloc(), 7, LARGE)?;
    for wanted in [
        (0, 0, Err(Fault::Read)),
        (1, 1316, Err(Fault::Read)),
        (1, 188, WHOLE),
        (0, 0, WHOLE),
    ] {
        assert_eq!(rt; walk(&mut reader, &mut source, 9), wanted);
    }
    assert_eq!(rt; reader.payload(), b"".as_slice());
    Ok(())
}

#[test]
fn reads_one_byte_past_the_limit_and_no_more(rt: HostRuntime) -> Result<(), Fail> {
    let mut source = SafeSource::new(rt.alloc(), &stream(rt.alloc(), 2820, 99)?, 4096)?;
    let mut reader = StreamReader::new(rt.alloc(), 7, 2700)?;
    assert_eq!(rt;
        walk(&mut reader, &mut source, 9),
        (2, 2632, too_long(2632))
    );
    assert_eq!(rt; walk(&mut reader, &mut source, 9), (0, 0, too_long(2632)));
    assert_eq!(rt; source.read(&mut [0; 4096]), Ok(2820 - 2701));
    Ok(())
}

/// How many payloads a stream has, and how it ends: a loop over a reader, whose invariant is where the reader stands.
fn count_payloads<S: Source>(
    alloc: Global,
    from: &mut S,
    packets: u8,
    max: u64,
) -> Result<(u64, Option<StreamFault>), Fault>
    requires packets { (1 ≤ packets) × (packets ≤ 7) }
    requires max { (8 ≤ max) × (max ≤ 2 ^ 40) }
    ensures { IfOk result (λ counted. (payloads : List (List ℕ)) × (counted.0 ≡ length payloads)
        × IfSome (S.left from.old) (λ bytes. IsCut packets max bytes payloads counted.1)) }
{
    let mut reader = StreamReader::new(alloc, packets, max)?;
    let mut count = 0;
    loop {
        match reader.next(from)? {
            StreamStep::Payload => count += 1,
            StreamStep::End(ending) => return Ok((count, ending)),
        }
    }
}

#[test]
fn payloads_are_counted(rt: HostRuntime) -> Result<(), Fail> {
    let mut source = SafeSource::new(rt.alloc(), &stream(rt.alloc(), 2820, 99)?, 7)?;
    let counted = count_payloads(rt.alloc(), &mut source, 7, LARGE);
    assert_eq!(rt; counted, Ok((3, None)));
    Ok(())
}

fn needs_send<T: Send>(_value: &T) {}

// The reader may be moved to a thread.
#[test]
fn crosses_threads(rt: HostRuntime) -> Result<(), Fail> {
    needs_send(&StreamReader::new(rt.alloc(), 1, 8)?);
    Ok(())
}
