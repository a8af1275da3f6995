//! Payloads that wait to be written to a lane.
ghost use Rattle.std.specs.Prelude.{◌≡◌, ◌≤◌, ◌++◌, [], IsOk, OnOk, OnErr};
ghost use Rattle.fg_io.specs.Faults.{CountsFault};
ghost use Rattle.fg_io.specs.Outlet.{PutsPart};
ghost use Rattle.fg_report.specs.Shelf.{Empties};

use fg_io::{Failed, Outlet};
use std::alloc::{AllocError, Global};
use std::marker::Model;

/// Holds payloads that wait to be written to a lane, so that they are written at once.
///
/// Contracts see it as the bytes that wait: the payloads, one after another. It keeps its memory when it is emptied, which
/// so is bounded by what was put between two emptyings, and it has no limit of its own.
#[derive(Drop)]
pub struct Shelf {
    bytes: Vec<u8>,
}

impl Model for Shelf {
    ghost use Rattle.std.specs.Prelude.{ℕ, List};

    ghost Value = { List ℕ };

    ghost view = { λ a. a.bytes.items };
}

impl Shelf {
    /// Nothing waits, and no memory is taken.
    pub fn new(alloc: Global) -> Shelf
        ensures { result ≡ [] }
    {
        Shelf {
            bytes: Vec::new(alloc),
        }
    }

    /// Adds a payload behind those that wait.
    ///
    /// # Errors
    ///
    /// There was no memory. What waits is as it was then.
    #[inline]
    pub fn put(&mut self, payload: &[u8]) -> Result<(), AllocError>
        ensures waits { OnOk result (self.new ≡ self.old ++ payload.now) }
        ensures unchanged { OnErr result (self.new ≡ self.old) }
    {
        self.bytes.extend_from_slice(payload)
    }

    /// Puts what waits to the lane of the port, as one piece. Nothing waits then, also after [`Failed`].
    ///
    /// Where nothing waits, the outlet is not called, and no lane is made.
    ///
    /// # Errors
    ///
    /// The outlet has counted a fault in this call, and the lane has gained a prefix of what waited.
    pub fn empty_into<O: Outlet>(&mut self, port: u16, lanes: &mut O) -> Result<(), Failed>
        ensures gains { OnOk result (Empties self.old (O.lanes lanes.old) port (O.lanes lanes.new)) }
        ensures part { OnErr result (PutsPart (O.lanes lanes.old) port self.old (O.lanes lanes.new)) }
        ensures empty { self.new ≡ [] }

        // Where nothing waits, nothing happens, and that is no fault.
        ensures nothing { self.old ≡ [] → IsOk result × (lanes.new ≡ lanes.old) }
        ensures no_fault { OnOk result (O.faults lanes.new ≡ O.faults lanes.old) }
        ensures counted { OnErr result (CountsFault (O.faults lanes.old) (O.faults lanes.new)) }
        ensures never_falls { O.faults lanes.old ≤ O.faults lanes.new }
    {
        if self.bytes.is_empty() {
            return Ok(());
        }
        let outcome = lanes.put(port, &self.bytes);
        self.bytes.clear();
        outcome
    }
}
