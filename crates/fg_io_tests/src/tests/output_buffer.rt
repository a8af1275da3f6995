//! A buffer before a sink.
use super::has;
use fg_io::*;
use std::alloc::{AllocError, Global};
use std::test::Fail;

/// A piece that is added, or none where the buffer is flushed, what that answers, and what the sink has then.
type Added = (Option<&'static [u8]>, Result<(), Fault>, &'static [u8]);

/// Whether the calls answer so.
fn adds(output: &mut OutputBuffer, sink: &mut MemSink, wanted: &[Added]) -> bool {
    for (piece, answer, bytes) in wanted {
        let added = match piece {
            Some(piece) => output.add(piece, sink),
            None => output.flush(sink),
        };
        if added != *answer || !has(sink, bytes) {
            return false;
        }
    }
    true
}

/// Whether a buffer of four bytes answers so.
fn fills(alloc: Global, sink: &mut MemSink, wanted: &[Added]) -> Result<bool, AllocError> {
    let mut output = OutputBuffer::new(alloc, 4)?;
    Ok(adds(&mut output, sink, wanted))
}

static LARGE: [Added; 8] = [
    (Some(b"ab"), Ok(()), b""),
    (Some(b"cd"), Ok(()), b""),
    (Some(b"e"), Ok(()), b"abcd"),
    (Some(b"fghijk"), Ok(()), b"abcdefghijk"),
    (Some(b"l"), Ok(()), b"abcdefghijk"),
    (Some(b""), Ok(()), b"abcdefghijk"),
    (None, Ok(()), b"abcdefghijkl"),
    (None, Ok(()), b"abcdefghijkl"),
];

#[test]
fn writes_large_pieces(rt: HostRuntime) -> Result<(), Fail> {
    let mut sink = MemSink::new(rt.alloc(), 20, &[])?;
    assert!(rt; fills(rt.alloc(), &mut sink, &LARGE)?);
    Ok(())
}

// Nothing is written twice.
static AFTER_A_FAULT: [Added; 7] = [
    (Some(b"ab"), Ok(()), b""),
    (None, Ok(()), b"ab"),
    (Some(b"cd"), Ok(()), b"ab"),
    (Some(b"xyz"), Err(Fault::Write), b"ab"),
    (Some(b"ef"), Ok(()), b"ab"),
    (Some(b"ghijk"), Err(Fault::Write), b"abefg"),
    (None, Ok(()), b"abefg"),
];

#[test]
fn holds_nothing_after_a_fault(rt: HostRuntime) -> Result<(), Fail> {
    let mut sink = MemSink::new(rt.alloc(), 5, &[1])?;
    assert!(rt; fills(rt.alloc(), &mut sink, &AFTER_A_FAULT)?);
    Ok(())
}
