//! A flow of a repair in batches.
ghost use Rattle.std.specs.Prelude.{◌≡◌, ◌<◌, [], ◌∷◌, false, length, OnOk};
ghost use Rattle.std.specs.Bool.{OnFalse};
ghost use Rattle.fg_flows.specs.Sheaf.{items_of};
ghost use Rattle.fg_batches.specs.Batches.{CanRun, HasRun};

use fg_engine::{Flow, ShelfFiller, Shelved, WindowState};
use fg_flows::{Kind, Sheaf};
use fg_io::Fault;
use fg_report::Shelf;
use std::alloc::{AllocError, Global};
use std::marker::Model;
use std::mem;

/// A flow, and what waits for its lane.
#[derive(Drop)]
pub(crate) struct BatchFlow<D: WindowState> {
    flow: Flow<D>,
    shelved: Shelved,
    // Whether it found no memory for the records that it ran last.
    starved: bool,
}

impl<D: WindowState> Model for BatchFlow<D> {
    ghost use Rattle.std.specs.Prelude.{◌≡◌};
    ghost use Rattle.fg_batches.specs.BatchView.{BatchView, batch_code};

    ghost Value = { BatchView };

    ghost coded = { batch_code };

    ghost view = { λ a. record { flow = a.flow; shelf = a.shelved.shelf; starved = a.starved } };

    // What waits is the flow's.
    ghost invariant = { λ a. a.shelved.port ≡ a.flow.sum.port };
}

impl<D: WindowState> BatchFlow<D> {
    /// The flow, for whose lane nothing waits.
    pub(crate) fn new(alloc: Global, flow: Flow<D>) -> BatchFlow<D>
        ensures { result ≡ record { flow = flow; shelf = []; starved = false } }
    {
        let port = flow.sum.port;
        BatchFlow {
            flow,
            shelved: Shelved {
                port,
                shelf: Shelf::new(alloc),
            },
            starved: false,
        }
    }

    /// The flow. What waits is lost.
    pub(crate) fn into_flow(self) -> Flow<D>
        ensures { result ≡ self.flow }
    {
        self.flow
    }

    /// Whether it found no memory for the records that it ran last.
    pub(crate) fn is_starved(&self) -> bool
        ensures { result ≡ self.now.starved }
    {
        self.starved
    }

    /// Runs the flow's records of a batch, in their order. What its plays show waits for its lane then.
    ///
    /// Where there was no memory for one, [`BatchFlow::is_starved`] tells it, and the records after that one are not taken.
    pub(crate) fn run(&mut self, alloc: Global, sheaf: &Sheaf, index: usize)
        requires within { index < length sheaf.now.items }
        requires can { CanRun self.old.flow (length (items_of sheaf.now index)) }
        ensures { OnFalse self.new.starved (HasRun (items_of sheaf.now index) self.old self.new) }
    {
        self.starved = self.run_items(alloc, sheaf, index).is_err();
    }

    /// Runs the flow's records of a batch. The first for which there is no memory ends it.
    fn run_items(&mut self, alloc: Global, sheaf: &Sheaf, index: usize) -> Result<(), AllocError>
        requires within { index < length sheaf.now.items }
        requires can { CanRun self.old.flow (length (items_of sheaf.now index)) }
        ensures { OnOk result (HasRun (items_of sheaf.now index) self.old self.new) }
    {
        for k in 0..sheaf.count(index) {
            let (kind, time, payload) = sheaf.item(index, k);
            self.run_item(alloc, kind, time, payload)?;
        }
        Ok(())
    }

    /// Runs one record of the flow.
    fn run_item(
        &mut self,
        alloc: Global,
        kind: Kind,
        time: u64,
        payload: &[u8],
    ) -> Result<(), AllocError>
        requires { CanRun self.old.flow 1 }
        ensures { OnOk result (HasRun (record { kind = kind; time = time; payload = payload.now } ∷ []) self.old self.new) }
    {
        match self.flow.take(
            alloc,
            &mut ShelfFiller,
            kind,
            time,
            payload,
            &mut self.shelved,
        ) {
            Ok(()) => Ok(()),
            Err(Fault::Memory) => Err(AllocError),
            // A shelf counts no fault of the outside.
            Err(Fault::Read | Fault::Write) => unreachable!(),
        }
    }

    /// Takes this shelf in place of the one with what the flow has shown, and leaves that one.
    pub(crate) fn exchange_shelf(&mut self, shelf: &mut Shelf)
        ensures flow { self.new ≡ record self.old { shelf = shelf.old } }
        ensures shelf { shelf.new ≡ self.old.shelf }
    {
        mem::swap(&mut self.shelved.shelf, shelf);
    }
}
