//! Lanes as files. They tell nothing of content: what a file really holds is trusted.
ghost use Rattle.std.specs.Prelude.{◌≡◌, ◌≤◌, OnOk, OnErr, None};
ghost use Rattle.fg_io.specs.Calls.{next_count};
ghost use Rattle.fg_io.specs.Faults.{CountsFault};
ghost use Rattle.fg_io.specs.OpenFiles.{NoneComes};
ghost use Rattle.fg_io.specs.Outlet.{Puts, PutsPart};

use crate::Failed;
use crate::lane_name::LaneName;
use crate::open_files::OpenFiles;
use crate::outlet::Outlet;
use crate::standing::{RegularFile, is_stream, leads_to, regular_file};
use std::fs::{OpenFile, OpenOptions};
use std::io::{ErrorKind, Write};
use std::marker::Model;
use std::rt::Files;
use std::{fs, io};

const PORTS: usize = 65_536;

/// The number of Linux's error where the process has as many files open as it may.
const TOO_MANY_OPEN: i32 = 24;

/// The current folder, where the lane of a port is the file `<port>.ts`.
///
/// The first put to a port makes its file empty, and each put appends to it. No lane is made of a regular file that is standard
/// input, standard output or another lane, whatever names and links lead to it: that put fails, and the file keeps what it
/// has. Where the system tells of no standard stream, as without `/proc`, a regular file that was there already is refused.
/// `prepare` refuses all that it can tell of the files that are there, and each that can't be written to, before one is made
/// empty.
///
/// Files stay open until they are closed by `close`, or one of them because the process may open no more: that is the one
/// which was used longest ago. Before a file is closed it is synced, so that a disk, a quota or a network that doesn't keep
/// what it took is told; what a file of another kind, as a pipe, doesn't keep can't be told. A file whose put failed is closed
/// at once. Contracts see the count of faults, which stands still at its last value.
#[derive(Drop)]
pub struct FolderOutlet<F: Files> {
    files: F,
    made: [bool; PORTS],
    open: OpenFiles<F::File>,
    faults: u64,
}

impl<F: Files> Model for FolderOutlet<F> {
    ghost use Rattle.std.specs.Prelude.{ℕ};

    ghost Value = { ℕ };

    ghost view = { λ a. a.faults };
}

impl<F: Files + AllocGlobal> FolderOutlet<F> {
    /// The current folder, before any put.
    pub fn new(files: F) -> FolderOutlet<F>
        ensures { result ≡ 0 }
    {
        let open = OpenFiles::new(files.alloc());
        FolderOutlet {
            files,
            made: [false; PORTS],
            open,
            faults: 0,
        }
    }
}

impl<F: Files> FolderOutlet<F> {
    /// Appends the piece to the port's file. Where that fails the file is closed, so the next put opens it at its end.
    fn append(&mut self, port: u16, piece: &[u8]) -> io::Result<()>
        ensures { self.new ≡ self.old }
    {
        let mut file = match self.open.take(port) {
            Some(file) => file,
            None => open_lane(&self.files, &mut self.made, &mut self.open, port)?,
        };
        file.write_all(piece)?;
        match self.open.add(port, file) {
            Some(unkept) => sync(&unkept),
            None => Ok(()),
        }
    }

    /// What a call answers whose outcome this is: a fault is counted.
    fn count(&mut self, outcome: io::Result<()>) -> Result<(), Failed>
        ensures ok { OnOk result (self.new ≡ self.old) }
        ensures err { OnErr result (self.new ≡ next_count self.old) }
        ensures never_falls { self.old ≤ self.new }
    {
        if outcome.is_err() {
            self.faults = self.faults.saturating_add(1);
            return Err(Failed);
        }
        Ok(())
    }
}

/// Opens the port's file at its end, and makes it empty where this is the first time.
fn open_lane<F: Files>(
    files: &F,
    made: &mut [bool; PORTS],
    kept: &mut OpenFiles<F::File>,
    port: u16,
) -> io::Result<F::File>
    ensures { NoneComes kept.old kept.new }
{
    let place = usize::from(port);
    if made[place] {
        let mut how = OpenOptions::new();
        how.append(true);
        return open_file(files, kept, &how, LaneName::new(port).as_str());
    }
    let file = make_lane(files, made, kept, port)?;
    made[place] = true;
    Ok(file)
}

/// Opens the port's file, and makes it empty once it is known to be no other's.
fn make_lane<F: Files>(
    files: &F,
    made: &[bool; PORTS],
    kept: &mut OpenFiles<F::File>,
    port: u16,
) -> io::Result<F::File>
    ensures { NoneComes kept.old kept.new }
{
    let name = LaneName::new(port);
    let was_there = fs::metadata(files, name.as_str()).is_ok();
    let mut how = OpenOptions::new();
    how.write(true).create(true);
    let file = open_file(files, kept, &how, name.as_str())?;
    if let Some(regular) = regular_file(&file.metadata()?) {
        if is_taken(files, regular, was_there) || is_made_elsewhere(files, made, port, regular) {
            return Err(ErrorKind::ResourceBusy.into());
        }
        file.set_len(0)?;
    }
    Ok(file)
}

/// Opens a file. Where the process has as many open as it may, the one that was used longest ago is closed first.
fn open_file<F: Files>(
    files: &F,
    kept: &mut OpenFiles<F::File>,
    how: &OpenOptions,
    name: &str,
) -> io::Result<F::File>
    ensures { NoneComes kept.old kept.new }
{
    match how.open(files, name) {
        Err(fault) if fault.raw_os_error() == Some(TOO_MANY_OPEN) => {
            if !close_oldest(kept)? {
                return Err(fault);
            }
            how.open(files, name)
        }
        outcome => outcome,
    }
}

/// Syncs and closes the open file that was used longest ago, and answers whether there was one.
fn close_oldest<T: OpenFile + Drop>(kept: &mut OpenFiles<T>) -> io::Result<bool>
    ensures { NoneComes kept.old kept.new }
{
    match kept.take_oldest() {
        Some(file) => {
            sync(&file)?;
            Ok(true)
        }
        None => Ok(false),
    }
}

/// Syncs and closes all open files.
fn close_all<T: OpenFile + Drop>(kept: &mut OpenFiles<T>) -> io::Result<()> {
    for _ in 0..=PORTS {
        if !close_oldest(kept)? {
            break;
        }
    }
    Ok(())
}

/// Whether the file is that of another lane that was made.
fn is_made_elsewhere<F: Files>(
    files: &F,
    made: &[bool; PORTS],
    port: u16,
    file: RegularFile,
) -> bool {
    for other in 0..=u16::MAX {
        if made[usize::from(other)]
            && other != port
            && leads_to(files, LaneName::new(other).as_str(), file)
        {
            return true;
        }
    }
    false
}

/// Looks at the lanes of these ports. Fails where one of them can't be made, or two are one file.
fn look_at_each<F: Files>(files: &F, ports: &[u16]) -> io::Result<()> {
    for i in 0..ports.len() {
        look_at(files, ports[i], &ports[..i])?;
    }
    Ok(())
}

/// Looks at the lane of the port. Fails where its file is there and no lane can be made of it: it can't be written to, or a
/// standard stream or one of the other lanes is the same file. Only a regular file is opened for that.
fn look_at<F: Files>(files: &F, port: u16, others: &[u16]) -> io::Result<()> {
    let name = LaneName::new(port);
    let found = match fs::metadata(files, name.as_str()) {
        Ok(found) => found,
        Err(fault) if fault.kind() == ErrorKind::NotFound => return Ok(()),
        Err(fault) => return Err(fault),
    };
    if found.is_dir() {
        return Err(ErrorKind::IsADirectory.into());
    }
    let Some(file) = regular_file(&found) else {
        return Ok(());
    };
    let is_other = |other: &u16| *other != port
        && leads_to(files, LaneName::new(*other).as_str(), file);
    if is_taken(files, file, true) || others.iter().any(is_other) {
        return Err(ErrorKind::ResourceBusy.into());
    }
    let _writable = OpenOptions::new().write(true).open(files, name.as_str())?;
    Ok(())
}

/// Whether a standard stream has the file, so that it can't be a lane. Where the system doesn't tell, it counts as taken if it
/// was there already.
fn is_taken<F: Files>(files: &F, file: RegularFile, was_there: bool) -> bool {
    is_stream(files, file).unwrap_or(was_there)
}

/// Waits until what the file took is kept, and fails where it isn't. A file of a kind that keeps nothing is left as it is.
fn sync<T: OpenFile>(file: &T) -> io::Result<()> {
    match file.sync_data() {
        Err(fault) if fault.kind() == ErrorKind::InvalidInput => Ok(()),
        outcome => outcome,
    }
}

impl<F: Files> Outlet for FolderOutlet<F> {
    ghost lanes = { λ _. None };

    ghost faults = { λ outlet. outlet };

    fn put(&mut self, port: u16, piece: &[u8]) -> Result<(), Failed>
        // What each outlet ensures.
        ensures puts { OnOk result (Puts None port piece.now None) }
        ensures failed { OnErr result (PutsPart None port piece.now None) }
        ensures no_fault { OnOk result (self.new ≡ self.old) }
        ensures counted { OnErr result (CountsFault self.old self.new) }
        ensures never_falls { self.old ≤ self.new }

        // The count rises by one, up to its last value.
        ensures err { OnErr result (self.new ≡ next_count self.old) }
    {
        let outcome = self.append(port, piece);
        self.count(outcome)
    }

    fn prepare(&mut self, ports: &[u16]) -> Result<(), Failed>
        // What each outlet ensures.
        ensures no_fault { OnOk result (self.new ≡ self.old) }
        ensures counted { OnErr result (CountsFault self.old self.new) }
        ensures never_falls { self.old ≤ self.new }

        // The count rises by one, up to its last value.
        ensures err { OnErr result (self.new ≡ next_count self.old) }
    {
        let outcome = look_at_each(&self.files, ports);
        self.count(outcome)
    }

    fn close(&mut self) -> Result<(), Failed>
        // What each outlet ensures.
        ensures no_fault { OnOk result (self.new ≡ self.old) }
        ensures counted { OnErr result (CountsFault self.old self.new) }
        ensures never_falls { self.old ≤ self.new }

        // The count rises by one, up to its last value.
        ensures err { OnErr result (self.new ≡ next_count self.old) }
    {
        let outcome = close_all(&mut self.open);
        self.count(outcome)
    }
}
