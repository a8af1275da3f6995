//! What keeps the lane of one port of an outlet in memory.
ghost use Rattle.std.specs.Prelude.{◌≡◌, ◌==◌, ◌++◌, ◌-◌, ◌<◌, ◌↔◌, ◌⊎◌, IsTrue, IsNone, Some, [], IfOk, length, take, min, unwrap_or};
ghost use Rattle.std.specs.Option.{option_copied};
ghost use Rattle.fg_io.specs.MemOutlet.{empty_keeper, keeper_of, keeper_lanes, room_left};
ghost use Rattle.fg_io.specs.Outlet.{LaneGains};

use std::alloc::{AllocError, Global};
use std::marker::Model;

/// Keeps the lane of a listed port, which is there from the first put on.
#[derive(Drop)]
pub(crate) struct LaneKeeper {
    port: u16,
    room: usize,
    made: bool,
    bytes: Vec<u8>,
}

impl Model for LaneKeeper {
    ghost use Rattle.std.specs.Prelude.{if◌then◌else◌, Some, None, ◌≡◌, ◌≤◌, [], false, length, vec_capacity};
    ghost use Rattle.fg_io.specs.MemOutlet.{KeeperState};

    ghost Value = { KeeperState };

    ghost view = { λ a. record {
      port = a.port;
      room = a.room;
      lane = if a.made then Some a.bytes.items else None;
    } };

    ghost invariant = { λ a. (length a.bytes.items ≤ a.room) × (a.room ≤ vec_capacity a.bytes)
        × (a.made ≡ false → a.bytes.items ≡ []) };
}

impl LaneKeeper {
    /// A port without a lane, whose lane will take `room` bytes in all. Its memory is taken here.
    pub(crate) fn new(alloc: Global, port: u16, room: usize) -> Result<LaneKeeper, AllocError>
        ensures { IfOk result (λ keeper. keeper ≡ empty_keeper room port) }
    {
        Ok(LaneKeeper {
            port,
            room,
            made: false,
            bytes: Vec::with_capacity(alloc, room)?,
        })
    }

    /// Whether this is the port.
    pub(crate) fn is_for(&self, port: u16) -> bool
        ensures { result ≡ (self.now.port == port) }
    {
        self.port == port
    }

    /// The lane, if there is one.
    pub(crate) fn lane(&self) -> Option<&[u8]>
        ensures { option_copied result ≡ self.now.lane }
    {
        if self.made {
            Some(self.bytes.as_slice())
        } else {
            None
        }
    }

    /// Makes the lane where there is none, appends what fits of the piece, and answers how many bytes that was.
    pub(crate) fn append(&mut self, piece: &[u8]) -> usize
        ensures count { result
            ≡ min (length piece.now) (self.old.room - length (unwrap_or self.old.lane [])) }
        ensures lane { self.new ≡ record self.old {
          lane = Some (unwrap_or self.old.lane [] ++ take result piece.now);
        } }
    {
        self.made = true;
        let count = piece.len().min(self.room - self.bytes.len());
        // The memory was taken when the keeper was made.
        self.bytes.extend_from_slice(&piece[..count]).unwrap();
        count
    }
}
