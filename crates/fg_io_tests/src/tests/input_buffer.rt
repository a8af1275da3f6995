ghost use Rattle.std.specs.Prelude.{◌≤◌};

use fg_io::*;
use std::alloc::{AllocError, Global};
use std::test::Fail;

#[test]
fn steps_over_what_was_asked_for(rt: HostRuntime) -> Result<(), Fail> {
    let mut source = MemSource::new(rt.alloc(), b"abcdefgh", 3, &[])?;
    let mut input = InputBuffer::new(rt.alloc(), 8, 4, 8)?;
    assert!(rt; input.held() == b"".as_slice());
    assert!(rt; input.fill(&mut source, 2) == Ok(Ahead::Whole));
    assert!(rt; input.held() == b"abc".as_slice());
    input.step(1);
    assert!(rt; input.place() == 1);
    assert!(rt; input.fill(&mut source, 4) == Ok(Ahead::Whole));
    assert!(rt; input.held() == b"bcdef".as_slice());
    input.step(4);
    assert!(rt; input.fill(&mut source, 3) == Ok(Ahead::Whole));
    assert!(rt; input.held() == b"fgh".as_slice());
    input.step(3);
    assert!(rt; input.place() == 8);
    assert!(rt; input.fill(&mut source, 1) == Ok(Ahead::EndsHere));
    Ok(())
}

// The third read fails, so it is not made.
#[test]
fn a_source_at_its_end_is_not_asked_again(rt: HostRuntime) -> Result<(), Fail> {
    let mut source = MemSource::new(rt.alloc(), b"ab", 2, &[2])?;
    let mut input = InputBuffer::new(rt.alloc(), 8, 4, 8)?;
    assert!(rt; input.fill(&mut source, 3) == Ok(Ahead::EndsInside));
    assert!(rt; input.fill(&mut source, 3) == Ok(Ahead::EndsInside));
    assert!(rt; input.fill(&mut source, 2) == Ok(Ahead::Whole));
    input.step(2);
    assert!(rt; input.fill(&mut source, 1) == Ok(Ahead::EndsHere));
    assert!(rt; source.read(&mut [0]) == Err(Failed));
    Ok(())
}

#[test]
fn reads_one_byte_past_the_limit(rt: HostRuntime) -> Result<(), Fail> {
    let mut source = MemSource::new(rt.alloc(), b"abcdef", 6, &[])?;
    let mut input = InputBuffer::new(rt.alloc(), 4, 4, 8)?;
    assert!(rt; input.fill(&mut source, 4) == Ok(Ahead::Whole));
    assert!(rt; input.held() == b"abcde".as_slice());
    input.step(3);
    assert!(rt; input.fill(&mut source, 2) == Ok(Ahead::PastLimit));
    assert!(rt; input.fill(&mut source, 1) == Ok(Ahead::Whole));
    input.step(1);
    assert!(rt; input.fill(&mut source, 1) == Ok(Ahead::PastLimit));
    assert!(rt; source.read(&mut [0; 2]) == Ok(1));
    Ok(())
}

// A source that ends at the limit is not past it.
#[test]
fn ends_at_the_limit(rt: HostRuntime) -> Result<(), Fail> {
    let mut source = MemSource::new(rt.alloc(), b"abcd", 6, &[])?;
    let mut input = InputBuffer::new(rt.alloc(), 4, 4, 8)?;
    assert!(rt; input.fill(&mut source, 3) == Ok(Ahead::Whole));
    input.step(3);
    assert!(rt; input.fill(&mut source, 2) == Ok(Ahead::EndsInside));
    input.step(1);
    assert!(rt; input.fill(&mut source, 1) == Ok(Ahead::EndsHere));
    Ok(())
}

#[test]
fn a_failed_read_loses_nothing(rt: HostRuntime) -> Result<(), Fail> {
    let mut source = MemSource::new(rt.alloc(), b"abcdef", 2, &[1])?;
    let mut input = InputBuffer::new(rt.alloc(), 8, 4, 8)?;
    assert!(rt; input.fill(&mut source, 4) == Err(Fault::Read));
    assert!(rt; input.held() == b"ab".as_slice());
    assert!(rt; input.fill(&mut source, 4) == Ok(Ahead::Whole));
    assert!(rt; input.held() == b"abcd".as_slice());
    Ok(())
}

/// Walks a source of 1,000 bytes, of which each is its place's lowest byte, in such steps. Whether each is found at its
/// place.
fn walk(alloc: Global, bytes: &[u8], given: usize, step: usize) -> Result<bool, AllocError>
    requires given { 1 ≤ given }
    requires step { (1 ≤ step) × (step ≤ 64) }
{
    let mut source = MemSource::new(alloc, bytes, given, &[])?;
    let mut input = InputBuffer::new(alloc, 2_000, 64, 64)?;
    let mut same = true;
    for _ in 0..1_000u64 {
        let Ok(Ahead::Whole) = input.fill(&mut source, step) else {
            break;
        };
        for (i, byte) in input.held().iter().enumerate() {
            same = same && u64::from(*byte) == input.place().wrapping_add(i as u64) % 256;
        }
        input.step(step);
    }
    Ok(same && input.place() == (1_000 - 1_000 % step) as u64)
}

// Each byte is moved at some of these steps.
#[test]
fn walks_in_any_pieces(rt: HostRuntime) -> Result<(), Fail> {
    let mut bytes = Vec::new(rt.alloc());
    for place in 0..1_000u32 {
        bytes.push((place % 256) as u8)?;
    }
    for given in [1, 7, 63, 64, 65, 500] {
        for step in [1, 8, 33, 63, 64] {
            assert!(rt; walk(rt.alloc(), &bytes, given, step)?);
        }
    }
    Ok(())
}
