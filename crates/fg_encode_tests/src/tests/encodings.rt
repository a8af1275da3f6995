//! Encodings over sources and sinks in memory.
ghost use Rattle.fg_shape.specs.Settings.{CanEncode};

use fg_encode::encode;
use fg_encode::stream::StreamFault;
use fg_io::{Fault, MemSink, MemSource};
use fg_shape::{Layout, Settings};
use fg_ts::TsFault;
use std::alloc::{AllocError, Global};
use std::process::Abort;
use std::test::Fail;

/// A square of four, so many packets a datagram, 10,000,000 bits a second and port 5000 (0x1388).
fn square(rt: &impl Abort, packets: u8) -> Settings
    ensures { CanEncode result }
{
    Settings {
        layout: Layout::new(4, 4, true, false).expect(rt, "a layout"),
        packets: packets.clamp(1, 7),
        rate: 10_000_000,
        port: 5000,
        seq: 0,
        ssrc: 0,
        stamp: 0,
    }
}

/// How an encoding ended, and what it wrote.
#[derive(Drop)]
struct Ended {
    result: Result<Option<StreamFault>, Fault>,
    out: MemSink,
}

/// What comes of the bytes, read in pieces of 10,000, where these calls of the source and the sink fail.
fn encoded(
    alloc: Global,
    settings: &Settings,
    bytes: &[u8],
    max: u64,
    reads: &[u64],
    writes: &[u64],
) -> Result<Ended, AllocError>
    requires { CanEncode settings.now }
{
    let mut input = MemSource::new(alloc, bytes, 10_000, reads)?;
    let mut out = MemSink::new(alloc, 100_000, writes)?;
    let result = encode(alloc, settings, max.clamp(8, 1 << 40), &mut input, &mut out);
    Ok(Ended { result, out })
}

/// A packet of zeros, and then so many bytes that begin with this one.
fn one_and(alloc: Global, first: u8, count: usize) -> Result<Vec<u8>, AllocError> {
    let mut bytes = vec![in alloc; 0; 376]?;
    bytes[0] = 0x47;
    bytes[188] = first;
    bytes.truncate(count.saturating_add(188));
    Ok(bytes)
}

/// The limit on the length of a stream.
const LARGE: u64 = 1 << 40;

// Time 0, port 5000, 200 bytes (0xc8); version 2, payload type 33, and zeros for number, timestamp and source.
#[test]
fn one_packet_is_sent_as_220_bytes(rt: HostRuntime) -> Result<(), Fail> {
    let packet = one_and(rt.alloc(), 0, 0)?;
    let ended = encoded(rt.alloc(), &square(&rt, 7), &packet, LARGE, &[], &[])?;
    assert_eq!(rt; ended.result, Ok(None));
    let head = b"FECTRAC1\0\0\0\0\0\0\0\0\x13\x88\0\xc8\x80\x21";
    let mut wanted = Vec::from_slice(rt.alloc(), head)?;
    wanted.extend_from_slice(&[0; 10])?;
    wanted.extend_from_slice(&packet)?;
    assert_eq!(rt; ended.out.bytes(), wanted.as_slice());
    Ok(())
}

#[test]
fn no_payload_leaves_the_magic(rt: HostRuntime) -> Result<(), Fail> {
    let unsynced = StreamFault::NotTransport(TsFault::NoSync(1));
    let ragged = StreamFault::NotTransport(TsFault::Ragged(190));
    for (first, count, packets, max, wanted) in [
        (0x46, 188, 7, LARGE, unsynced),
        (0x47, 2, 7, LARGE, ragged),
        (0x47, 188, 1, 187, StreamFault::TooLong(0)),
    ] {
        let bytes = one_and(rt.alloc(), first, count)?;
        let ended = encoded(rt.alloc(), &square(&rt, packets), &bytes, max, &[], &[])?;
        assert_eq!(rt; ended.result, Ok(Some(wanted)));
        assert_eq!(rt; ended.out.bytes(), b"FECTRAC1".as_slice());
    }
    Ok(())
}

/// 50 payloads of seven packets of zeros, whose trace is more than a buffer holds.
fn long_stream(alloc: Global) -> Result<Vec<u8>, AllocError> {
    let mut bytes = vec![in alloc; 0; 65_800]?;
    for packet in bytes.chunks_mut(188) {
        packet[0] = 0x47;
    }
    Ok(bytes)
}

// The stream comes in 7 pieces, and a read gives none. Its trace goes out in two writes.
#[test]
fn each_fault_ends_an_encoding_with_a_prefix(rt: HostRuntime) -> Result<(), Fail> {
    let bytes = long_stream(rt.alloc())?;
    let settings = square(&rt, 7);
    let whole = encoded(rt.alloc(), &settings, &bytes, LARGE, &[], &[])?;
    assert_eq!(rt; whole.result, Ok(None));
    for call in 0..8 {
        let read = encoded(rt.alloc(), &settings, &bytes, LARGE, &[call], &[])?;
        assert_eq!(rt; read.result, Err(Fault::Read));
        assert!(rt; whole.out.bytes().starts_with(read.out.bytes()));
    }
    for call in 0..2 {
        let write = encoded(rt.alloc(), &settings, &bytes, LARGE, &[], &[call])?;
        assert_eq!(rt; write.result, Err(Fault::Write));
        assert!(rt; whole.out.bytes().starts_with(write.out.bytes()));
    }
    Ok(())
}
