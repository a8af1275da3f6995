//! What no clause says, by worked captures.

mod reading;
mod writing;

use fg_io::Fault;
use std::alloc::{AllocError, Global};

/// The most bytes that an input may have.
const MOST: u64 = 1 << 40;

/// What a trace begins with.
const MAGIC: &[u8] = b"FECTRAC1";

/// Which reads and writes fail, by their numbers from 0, and the answer then.
static FAILING: [(&[u64], &[u64], Fault); 2] = [
    (&[1], &[], Fault::Read),
    (&[], &[0], Fault::Write),
];

/// These pieces, one after another.
fn joined(alloc: Global, pieces: &[&[u8]]) -> Result<Vec<u8>, AllocError> {
    let mut bytes = Vec::new(alloc);
    for piece in pieces {
        bytes.extend_from_slice(piece)?;
    }
    Ok(bytes)
}
