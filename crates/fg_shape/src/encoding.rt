//! What a stream is encoded with, and which records of an encoding are left out.
ghost use Rattle.std.specs.Prelude.{◌≡◌, ◌<◌, ◌++◌, [], ◌∷◌, ℕ, List, length, OnErr, OnOk, slice_index};

use crate::Layout;
use std::alloc::{AllocError, Global};
use std::marker::Model;

/// How a transport stream is sent: in media datagrams, with parity.
#[derive(Clone, Copy)]
pub struct Settings {
    /// The arrangement of the parity.
    pub layout: Layout,
    /// Transport packets a media datagram, 1 to 7. The last datagram may have fewer.
    pub packets: u8,
    /// Transport bits a second, 1 to 10,000,000,000.
    pub rate: u64,
    /// The UDP port of the media datagrams, 1 to 65531. Parity of columns goes to the port two
    /// above it, and parity of rows to the port four above (SMPTE ST 2022-1).
    pub port: u16,
    /// The RTP sequence number of the first media datagram.
    pub seq: u16,
    /// The RTP synchronization source of the media datagrams.
    pub ssrc: u32,
    /// The RTP timestamp of the first media datagram.
    pub stamp: u32,
}

/// The records of an encoding that are left out. Media and parity records are counted together,
/// from 0.
#[derive(Drop)]
pub struct Losses {
    /// The numbers of records that are left out.
    pub drops: Drops,
    /// Where it isn't 0, each positive multiple of it is left out too.
    pub every: u64,
}

/// Numbers of records, in the order in which they were added.
#[derive(Drop)]
pub struct Drops {
    numbers: Vec<u64>,
}

impl Model for Drops {
    ghost Value = { List ℕ };

    ghost view = { λ drops. drops.numbers.items };
}

impl Drops {
    /// No numbers. It takes no memory.
    pub fn new(alloc: Global) -> Drops
        ensures { result ≡ [] }
    {
        Drops {
            numbers: Vec::new(alloc),
        }
    }

    /// Adds a number at the end.
    ///
    /// # Errors
    ///
    /// Where there is no memory. Then nothing has changed.
    pub fn add(&mut self, number: u64) -> Result<(), AllocError>
        ensures ok { OnOk result (self.new ≡ self.old ++ number ∷ []) }
        ensures err { OnErr result (self.new ≡ self.old) }
    {
        self.numbers.push(number)?;
        Ok(())
    }

    /// How many numbers there are.
    pub fn count(&self) -> usize
        ensures { result ≡ length self.now }
    {
        self.numbers.len()
    }

    /// The number that was added as number `i`, counted from 0.
    pub fn item(&self, i: usize) -> u64
        requires { i < length self.now }
        ensures { result ≡ slice_index self.now i }
    {
        self.numbers[i]
    }
}
