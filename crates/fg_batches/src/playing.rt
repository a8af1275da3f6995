//! The second stage: the flows run batch after batch.
ghost use Rattle.std.specs.Prelude.{◌≡◌, length, OnOk};
ghost use Rattle.fg_batches.specs.Batches.{CanRunAll};
ghost use Rattle.fg_batches.specs.Stages.{HaveShown, RunsBatches};

use crate::emptying::exchange;
use crate::flows::BatchFlow;
use crate::passing::{Batch, Row, Tabled};
use crate::running::run_side_by_side;
use fg_engine::{Shelved, WindowState};
use fg_flows::Sheaf;
use fg_flows::laws::one_flow_has_a_port;
use fg_pipe::Maker;
use std::alloc::{AllocError, Global};
use std::thread::Threads;

/// The flows of a repair, in the order of its plan, as contracts see them.
pub(crate) trait Flows {
    ghost use Rattle.std.specs.Prelude.{List};
    ghost use Rattle.fg_batches.specs.BatchView.{BatchView};

    ghost seen: { Self → List BatchView };
}

impl<D: WindowState> Flows for Vec<BatchFlow<D>> {
    ghost seen = { λ flows. flows.items };
}

/// Has the flows of a repair run batches, until one of them finds no memory.
///
/// What runs a batch is a closure, since a method of a trait can't send to a thread what has a bound of the block: as the closure is
/// made, the flows are known to be sent.
#[derive(Drop)]
pub(crate) struct BatchPlayer<L, F> {
    /// Has each flow run its records of a batch, and take an empty shelf in place of the one with what it shows: [`run_batch`].
    pub(crate) run: F,
    /// In the order of the plan. Nothing waits on their shelves between two calls.
    pub(crate) flows: L,
    /// Whether a flow found no memory.
    pub(crate) starved: bool,
}

impl<L: Flows, F: Fn(&Sheaf, &mut L, &mut [Shelved]) -> Result<(), AllocError>, P: Tabled> Maker<
    Batch<P>,
    Row<P>,
> for BatchPlayer<L, F> {
    ghost use Rattle.std.specs.Prelude.{◌≡◌, true};
    ghost use Rattle.fg_batches.specs.Stages.{HavePlayed, RunsBatches};

    ghost turned = { λ old took made new. RunsBatches L.seen F.Fn new.run
        × HavePlayed P.table (L.seen old.flows) (L.seen new.flows) took made new.starved };

    ghost stopped = { λ player. player.starved ≡ true };

    fn is_stopped(&self) -> bool {
        self.starved
    }

    fn turn(&mut self, item: &mut Batch<P>, into: &mut Row<P>) -> bool {
        one_flow_has_a_port();
        let ran = play(&self.run, &item.sheaf, &mut self.flows, &mut into.shelves);
        item.sheaf.clear();
        if ran.is_err() {
            self.starved = true;
            return false;
        }
        true
    }
}

/// Runs a batch by this closure.
///
/// # Errors
///
/// A flow found no memory.
fn play<L: Flows, F: Fn(&Sheaf, &mut L, &mut [Shelved]) -> Result<(), AllocError>>(
    run: &F,
    sheaf: &Sheaf,
    flows: &mut L,
    shelves: &mut [Shelved],
) -> Result<(), AllocError>
    requires runs { RunsBatches L.seen F.Fn run.now }
    requires can { CanRunAll sheaf.now (L.seen flows.old) }
    requires count { length shelves.old ≡ length (L.seen flows.old) }
    ensures { OnOk result (HaveShown sheaf.now (L.seen flows.old) (L.seen flows.new) shelves.old shelves.new) }
{
    run(sheaf, flows, shelves)
}

/// Has each flow run its records of a batch, and take an empty shelf in place of the one with what it shows.
///
/// # Errors
///
/// A flow found no memory.
pub(crate) fn run_batch<W: Threads + Sync, D: WindowState + Send>(
    rt: &W,
    alloc: Global,
    depth: u32,
    sheaf: &Sheaf,
    flows: &mut Vec<BatchFlow<D>>,
    shelves: &mut [Shelved],
) -> Result<(), AllocError>
    requires can { CanRunAll sheaf.now flows.old.items }
    requires count { length shelves.old ≡ length flows.old.items }
    ensures { OnOk result (HaveShown sheaf.now flows.old.items flows.new.items shelves.old shelves.new) }
{
    run_side_by_side(rt, alloc, depth, sheaf, flows)?;
    exchange(flows, shelves);
    Ok(())
}
