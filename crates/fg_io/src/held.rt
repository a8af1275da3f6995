//! Standard streams that are closed when the program starts.
ghost use Rattle.std.specs.Prelude.{◌≤ℤ◌, pos, All, IfSome};

use std::marker::Model;
use std::os::fd::AsRawFd;
use std::rt::Files;
use std::{fs, io};

/// The number of standard error. Those of the other two standard streams are 0 and 1.
const LAST: i32 = 2;

/// Files that stand in for standard streams that were closed, until this is dropped.
#[derive(Drop)]
pub struct HeldStreams<T> {
    first: Option<T>,
    second: Option<T>,
    third: Option<T>,
}

impl<T> Model for HeldStreams<T> {
    ghost use Rattle.std.specs.Prelude.{List, [], ◌∷◌, filter_map};

    ghost Value = { List T };

    ghost view = { λ a. filter_map (λ file. file) (a.first ∷ a.second ∷ a.third ∷ []) };
}

/// Opens each standard stream that is closed: reading it fails, and so does writing to it.
///
/// POSIX gives a file that is opened the lowest free number, so after this call no file gets a standard stream's. That
/// the number is free is all that is known of a closed stream. No file with another number is held.
pub fn hold_standard_streams<F: Files>(files: &F) -> HeldStreams<F::File>
where
    F::File: AsRawFd,
    ensures { All (λ file. IfSome (F.File.raw_fd file) (λ number. number ≤ℤ pos 2)) result }
{
    HeldStreams {
        first: hold_lowest(files),
        second: hold_lowest(files),
        third: hold_lowest(files),
    }
}

/// Takes the lowest free number, if it is a standard stream's.
fn hold_lowest<F: Files>(files: &F) -> Option<F::File>
where
    F::File: AsRawFd,
    ensures { IfSome result (λ file. IfSome (F.File.raw_fd file) (λ number. number ≤ℤ pos 2)) }
{
    let file = open_useless(files).ok()?;
    if file.as_raw_fd() > LAST {
        return None;
    }
    Some(file)
}

/// Opens the root folder for reading alone, which can be neither read nor written to. Where that can't be opened, the empty
/// file, of which reading finds the end.
fn open_useless<F: Files>(files: &F) -> io::Result<F::File> {
    match fs::open(files, "/") {
        Ok(file) => Ok(file),
        Err(_) => fs::open(files, "/dev/null"),
    }
}
