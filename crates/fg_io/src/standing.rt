//! Which file a name leads to, and whether a standard stream of the program stands for it.

use std::fs::Metadata;
use std::os::unix::fs::MetadataExt;
use std::rt::Files;
use std::{fs, io};

/// Where Linux tells of the program's own standard input and standard output.
const STREAMS: [&str; 2] = ["/proc/self/fd/0", "/proc/self/fd/1"];

/// A regular file: its device, and its number there. Every name and link of the file leads to both.
#[derive(Clone, Copy, PartialEq, Eq)]
pub(crate) struct RegularFile {
    device: u64,
    number: u64,
}

/// The regular file of which this is told, if it is one.
pub(crate) fn regular_file(found: &Metadata) -> Option<RegularFile> {
    if !found.is_file() {
        return None;
    }
    Some(RegularFile {
        device: found.dev(),
        number: found.ino(),
    })
}

/// Whether the name leads to this file. One that leads to nothing leads to no file.
pub(crate) fn leads_to<F: Files>(files: &F, name: &str, file: RegularFile) -> bool {
    match fs::metadata(files, name) {
        Ok(found) => regular_file(&found) == Some(file),
        Err(_) => false,
    }
}

/// Whether the file is standard input or standard output.
///
/// # Errors
///
/// The system doesn't tell what one of the two is, as without `/proc`.
pub(crate) fn is_stream<F: Files>(files: &F, file: RegularFile) -> io::Result<bool> {
    for stream in &STREAMS {
        let found = fs::metadata(files, *stream)?;
        if regular_file(&found) == Some(file) {
            return Ok(true);
        }
    }
    Ok(false)
}
