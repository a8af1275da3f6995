//! Thinned encodings by example.
ghost use Rattle.std.specs.Prelude.{◌≡◌, ◌≤◌, ◌^◌, true};
ghost use Rattle.fg_shape.specs.Settings.{CanEncode};

use fg_io::{Failed, MemSource, Source};
use fg_shape::{Drops, Layout, Losses, Settings};
use fg_thin::{StreamFault, Thinned, Thinning};
use fg_trace::{Reader, Step, TraceFault};
use fg_ts::TsFault;
use std::alloc::{AllocError, Global};
use std::process::Abort;
use std::test::Fail;

const LARGE: u64 = 1 << 40;

/// So many transport packets, of which one is without its sync byte.
fn stream(alloc: Global, packets: usize, unsynced: usize) -> Result<Vec<u8>, AllocError>
    requires { packets ≤ 100 }
{
    let mut bytes = vec![in alloc; 0; packets * 188]?;
    for (place, byte) in bytes.iter_mut().enumerate() {
        if place % 188 == 0 && place / 188 != unsynced {
            *byte = 0x47;
        }
    }
    Ok(bytes)
}

/// One packet a datagram, four columns and four rows, port 5000.
fn settings(rt: &impl Abort) -> Settings
    ensures { CanEncode result }
{
    Settings {
        layout: Layout::new(4, 4, true, false).expect(rt, "a layout"),
        packets: 1,
        rate: 10_000_000,
        port: 5000,
        seq: 0,
        ssrc: 0,
        stamp: 0,
    }
}

/// These records are left out, and each multiple of `every`.
fn losses(alloc: Global, numbers: &[u64], every: u64) -> Result<Losses, AllocError> {
    let mut drops = Drops::new(alloc);
    for number in numbers {
        drops.add(*number)?;
    }
    Ok(Losses { drops, every })
}

/// The sequence number of a datagram.
fn sequence(datagram: &[u8]) -> u16 {
    let high = datagram.get(2).copied().unwrap_or(0);
    let low = datagram.get(3).copied().unwrap_or(0);
    u16::from_be_bytes([high, low])
}

/// The records that a trace has, each by its port and its sequence number, as 500,012 for number 12 on port 5000.
fn records<S: Source>(alloc: Global, source: &mut S) -> Result<Vec<u64>, AllocError> {
    let mut reader = Reader::new(alloc, LARGE)?;
    match reader.start(source) {
        Ok(()) => walk(alloc, &mut reader, source),
        Err(_) => Ok(Vec::new(alloc)),
    }
}

/// The records that come, of at most a hundred calls.
fn walk<S: Source>(
    alloc: Global,
    reader: &mut Reader,
    source: &mut S,
) -> Result<Vec<u64>, AllocError>
    requires { reader.old.started ≡ true }
{
    let mut seen = Vec::new(alloc);
    for _ in 0..100 {
        match reader.next(source) {
            Ok(Step::Datagram { port, .. }) => {
                let number = sequence(reader.payload());
                seen.push(u64::from(port) * 100 + u64::from(number))?;
            }
            Err(TraceFault::ReadFault) => {}
            _ => return Ok(seen),
        }
    }
    Ok(seen)
}

/// Whether a read answers that nothing is left.
fn is_at_end<S: Source>(source: &mut S) -> bool {
    source.read(&mut [0; 10]) == Ok(0)
}

// m0 m1 m2 m3 r0 m4 m5 m6 m7 r1 m8 m9 m10 m11 r2 m12 c0 m13 c1 m14 c2 m15 c3 r3 without records 6, 7, 12, 13 and 22, over a
// source that gives 100 bytes at a time and fails twice.
#[test]
fn four_lost_in_a_square(rt: HostRuntime) -> Result<(), Fail> {
    let alloc = rt.alloc();
    let source = MemSource::new(alloc, &stream(alloc, 16, 99)?, 100, &[2, 7])?;
    let lost = losses(alloc, &[22, 6, 13, 7, 12, 6], 0)?;
    let mut thinned = Thinned::new(alloc, settings(&rt), lost, LARGE, source)?;
    let seen = records(alloc, &mut thinned)?;
    let expected = [
        500000, 500001, 500002, 500003, 500400, 500004, 500007, 500401, 500008, 500009, 500402,
        500012, 500200, 500013, 500201, 500014, 500202, 500015, 500403,
    ];
    assert_eq!(rt; seen.as_slice(), expected.as_slice());
    assert!(rt; is_at_end(&mut thinned));
    assert_eq!(rt; thinned.fault(), None);
    Ok(())
}

// Of the same 24 records, without 5, 10, 15 and 20.
#[test]
fn each_multiple_is_lost(rt: HostRuntime) -> Result<(), Fail> {
    let alloc = rt.alloc();
    let source = MemSource::new(alloc, &stream(alloc, 16, 99)?, 4000, &[])?;
    let mut thinned = Thinned::new(alloc, settings(&rt), losses(alloc, &[], 5)?, LARGE, source)?;
    let seen = records(alloc, &mut thinned)?;
    let expected = [
        500000, 500001, 500002, 500003, 500400, 500005, 500006, 500007, 500401, 500009, 500010,
        500011, 500402, 500200, 500013, 500201, 500014, 500015, 500203, 500403,
    ];
    assert_eq!(rt; seen.as_slice(), expected.as_slice());
    Ok(())
}

/// How many records there are of so many packets, of which one may be without its sync byte, under a limit, and the fault.
fn ended(
    rt: &impl Abort,
    alloc: Global,
    packets: usize,
    unsynced: usize,
    max: u64,
) -> Result<(usize, Option<StreamFault>), AllocError>
    requires packets { packets ≤ 100 }
    requires max { (8 ≤ max) × (max ≤ 2 ^ 40) }
{
    let source = MemSource::new(alloc, &stream(alloc, packets, unsynced)?, 1000, &[])?;
    let mut thinned = Thinned::new(alloc, settings(rt), losses(alloc, &[], 0)?, max, source)?;
    let count = records(alloc, &mut thinned)?.len();
    let _ = is_at_end(&mut thinned);
    Ok((count, thinned.fault()))
}

#[test]
fn the_fault_is_told(rt: HostRuntime) -> Result<(), Fail> {
    let no_sync = StreamFault::NotTransport(TsFault::NoSync(2));
    assert_eq!(rt; ended(&rt, rt.alloc(), 3, 99, LARGE)?, (3, None));
    assert_eq!(rt; ended(&rt, rt.alloc(), 3, 2, LARGE)?, (2, Some(no_sync)));
    assert_eq!(rt;
        ended(&rt, rt.alloc(), 3, 99, 400)?,
        (2, Some(StreamFault::TooLong(376)))
    );
    Ok(())
}

fn needs_send<T: Send>(_value: &T) {}

// It may be moved to a thread.
#[test]
fn crosses_threads(rt: HostRuntime) -> Result<(), Fail> {
    let alloc = rt.alloc();
    let source = MemSource::new(alloc, b"", 1, &[])?;
    needs_send(&Thinned::new(alloc, settings(&rt), losses(alloc, &[], 0)?, 8, source)?);
    Ok(())
}
