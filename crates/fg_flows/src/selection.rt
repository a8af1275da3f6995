//! What a pick is told.
ghost use Rattle.std.specs.Prelude.{◌≡◌, ◌++◌, ◌∷◌, [], OnErr, OnOk};

use std::alloc::{AllocError, Global};
use std::marker::Model;

/// Which records of a trace are picked. All that is set must hold of a record.
#[derive(Drop)]
pub struct Selection {
    /// The flows, each by the port of its media, 1 to 65531, whose three ports are picked.
    pub flows: Ports,
    /// Further ports that are picked. Where neither these nor flows are named, each port is.
    pub ports: Ports,
    /// Of media datagrams, the synchronization sources that alone are left. Where none is named, each is.
    pub sources: Sources,
    /// Of media datagrams, the synchronization sources that are left out.
    pub without: Sources,
    /// The least time, in microseconds.
    pub from: u64,
    /// The time, in microseconds, below which a record's own must be, where one is set.
    pub until: Option<u64>,
}

/// UDP ports, in the order in which they were added. Contracts see them as a list.
#[derive(Drop)]
pub struct Ports {
    numbers: Vec<u16>,
}

impl Model for Ports {
    ghost use Rattle.std.specs.Prelude.{ℕ, List};

    ghost Value = { List ℕ };

    ghost view = { λ ports. ports.numbers.items };
}

impl Ports {
    /// No port. It takes no memory.
    pub fn new(alloc: Global) -> Ports
        ensures { result ≡ [] }
    {
        Ports {
            numbers: Vec::new(alloc),
        }
    }

    /// Adds a port at the end.
    ///
    /// # Errors
    ///
    /// Where there is no memory. Then nothing has changed.
    pub fn add(&mut self, port: u16) -> Result<(), AllocError>
        ensures ok { OnOk result (self.new ≡ self.old ++ port ∷ []) }
        ensures err { OnErr result (self.new ≡ self.old) }
    {
        self.numbers.push(port)?;
        Ok(())
    }

    /// The ports.
    pub fn as_slice(&self) -> &[u16]
        ensures { result.now ≡ self.now }
    {
        &self.numbers
    }
}

/// Synchronization sources of RTP (RFC 3550), in the order in which they were added. Contracts see them as a list.
#[derive(Drop)]
pub struct Sources {
    numbers: Vec<u32>,
}

impl Model for Sources {
    ghost use Rattle.std.specs.Prelude.{ℕ, List};

    ghost Value = { List ℕ };

    ghost view = { λ sources. sources.numbers.items };
}

impl Sources {
    /// No source. It takes no memory.
    pub fn new(alloc: Global) -> Sources
        ensures { result ≡ [] }
    {
        Sources {
            numbers: Vec::new(alloc),
        }
    }

    /// Adds a source at the end.
    ///
    /// # Errors
    ///
    /// Where there is no memory. Then nothing has changed.
    pub fn add(&mut self, ssrc: u32) -> Result<(), AllocError>
        ensures ok { OnOk result (self.new ≡ self.old ++ ssrc ∷ []) }
        ensures err { OnErr result (self.new ≡ self.old) }
    {
        self.numbers.push(ssrc)?;
        Ok(())
    }

    /// The sources.
    pub fn as_slice(&self) -> &[u32]
        ensures { result.now ≡ self.now }
    {
        &self.numbers
    }
}
