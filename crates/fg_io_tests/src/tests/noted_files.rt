//! Files that note how they are opened, and keep nothing.

use super::lane_name;
use std::alloc::{Alloc, Allocator, Global};
use std::cell::Cell;
use std::fs::{File, Metadata, OpenOptions};
use std::io;
use std::rt::Files;

/// Whether the path is the name of the lane's file.
fn is_lane(alloc: Global, path: &str, port: u16) -> bool {
    match lane_name(alloc, port) {
        Ok(name) => path == name.as_str(),
        Err(_) => false,
    }
}

/// How a lane's file is opened at a put.
#[derive(Clone, Copy, PartialEq)]
pub(crate) enum Opened {
    /// It is made, and left as it is where it is there.
    New,
    /// It is opened at its end.
    AtItsEnd,
    /// It is not opened.
    Not,
}

/// Each file is the empty device, and there is nothing else.
#[derive(Drop)]
pub(crate) struct NotedFiles {
    rt: HostRuntime,
    /// Whose lane's file may be opened now, and how.
    port: Cell<u16>,
    how: Cell<Opened>,
    /// How often that was done since `expect`, and how often anything else.
    right: Cell<u64>,
    wrong: Cell<u64>,
}

impl NotedFiles {
    pub(crate) fn new(rt: HostRuntime) -> NotedFiles {
        NotedFiles {
            rt,
            port: Cell::new(0),
            how: Cell::new(Opened::Not),
            right: Cell::new(0),
            wrong: Cell::new(0),
        }
    }

    /// From now on the port's file may be opened so, once.
    pub(crate) fn expect(&self, port: u16, how: Opened) {
        self.port.set(port);
        self.how.set(how);
        self.right.set(0);
        self.wrong.set(0);
    }

    /// Whether that was done, and nothing else.
    pub(crate) fn is_met(&self) -> bool {
        let wanted = u64::from(self.how.get() != Opened::Not);
        self.right.get() == wanted && self.wrong.get() == 0
    }

    fn is_right(&self, how: &OpenOptions, path: &str) -> bool {
        is_lane(self.rt.alloc(), path, self.port.get())
            && !how.asks_truncate()
            && how.asks_create() == (self.how.get() == Opened::New)
            && how.asks_append() == (self.how.get() == Opened::AtItsEnd)
    }

    /// Notes anything else than an opened file, and answers that there is none.
    fn refuse<T: Drop>(&self) -> io::Result<T> {
        self.wrong.set(self.wrong.get().saturating_add(1));
        Err(io::Error::from(io::ErrorKind::NotFound))
    }
}

impl Alloc for NotedFiles {
    type A = Global;

    fn alloc(&self) -> Global {
        self.rt.alloc()
    }
}

impl Files for NotedFiles {
    type File = File;

    type Dir = <HostRuntime as Files>::Dir;

    fn open_file(&self, how: &OpenOptions, path: &str) -> io::Result<File> {
        if !self.is_right(how, path) {
            return self.refuse();
        }
        self.right.set(self.right.get().saturating_add(1));
        self.rt.open_file(how, "/dev/null")
    }

    /// It may be asked of any name.
    fn metadata(&self, _path: &str) -> io::Result<Metadata> {
        Err(io::Error::from(io::ErrorKind::NotFound))
    }

    fn symlink_metadata(&self, _path: &str) -> io::Result<Metadata> {
        Err(io::Error::from(io::ErrorKind::NotFound))
    }

    fn open_dir(&self, _path: &str) -> io::Result<<HostRuntime as Files>::Dir> {
        self.refuse()
    }

    fn copy(&self, _from: &str, _to: &str) -> io::Result<u64> {
        self.refuse()
    }

    fn rename(&self, _from: &str, _to: &str) -> io::Result<()> {
        self.refuse()
    }

    fn remove_file(&self, _path: &str) -> io::Result<()> {
        self.refuse()
    }

    fn create_dir(&self, _path: &str) -> io::Result<()> {
        self.refuse()
    }

    fn remove_dir(&self, _path: &str) -> io::Result<()> {
        self.refuse()
    }

    fn remove_dir_all<B: Allocator>(&self, _alloc: B, _path: &str) -> io::Result<()> {
        self.refuse()
    }
}
