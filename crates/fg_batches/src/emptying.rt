//! What waits for the lanes, and how it is put to them.
ghost use Rattle.std.specs.Prelude.{◌≡◌, [], ◌∷◌, length, map, replicate, IfOk, IfErr, OnOk, OnErr};
ghost use Rattle.fg_io.specs.Faults.{Counts};
ghost use Rattle.fg_flows.specs.declared.Plan.{Plan};
ghost use Rattle.fg_flows.specs.Plan.{PlanFits};
ghost use Rattle.fg_engine.specs.Engine.{GrowAll};
ghost use Rattle.fg_engine.specs.Steps.{Grows, GrowsPart};
ghost use Rattle.fg_batches.specs.Batches.{WaitFor, BreaksEmptying, HaveExchanged, emptied, nothing_waits, waiting};

use crate::flows::BatchFlow;
use crate::passing::{Row, Tabled};
use fg_engine::{Shelved, WindowState};
use fg_flows::Table;
use fg_flows::laws::one_flow_has_a_port;
use fg_io::{Failed, Fault, Outlet};
use fg_report::Shelf;
use std::alloc::{AllocError, Global};
use std::marker::PhantomData;

/// So many rows of empty shelves.
pub(crate) fn empty_rows<P: Tabled>(
    alloc: Global,
    table: &Table,
    count: usize,
) -> Result<Vec<Row<P>>, AllocError>
    ensures { IfOk result (λ rows. rows.items ≡ replicate count (map nothing_waits table.now)) }
{
    let mut rows = Vec::with_capacity(alloc, count)?;
    for _ in 0..count {
        rows.push(Row {
            shelves: shelves_for(alloc, table)?,
            of: PhantomData,
        })?;
    }
    Ok(rows)
}

/// An empty shelf for the lane of each port of the table, in its order. No memory is taken for what will wait.
fn shelves_for(alloc: Global, table: &Table) -> Result<Vec<Shelved>, AllocError>
    ensures { IfOk result (λ shelves. shelves.items ≡ map nothing_waits table.now) }
{
    let mut shelves = Vec::with_capacity(alloc, table.count())?;
    for k in 0..table.count() {
        shelves.push(Shelved {
            port: table.port(k),
            shelf: Shelf::new(alloc),
        })?;
    }
    Ok(shelves)
}

/// Puts what waits to the lanes, flow after flow. Nothing waits then.
///
/// # Errors
///
/// [`Fault::Write`]: a put failed. What waits for the lanes after that one is not put.
pub(crate) fn empty_shelves<O: Outlet>(shelves: &mut [Shelved], lanes: &mut O) -> Result<(), Fault>
    ensures puts { OnOk result ((plan : Plan) → PlanFits plan → WaitFor plan.table shelves.old
        → GrowAll (O.lanes lanes.old) plan.table (waiting shelves.old) (O.lanes lanes.new)) }
    ensures part { OnErr result ((plan : Plan) → PlanFits plan → WaitFor plan.table shelves.old
        → BreaksEmptying plan.table shelves.old (O.lanes lanes.old) (O.lanes lanes.new)) }
    ensures empty { OnOk result (shelves.new ≡ map emptied shelves.old) }
    ensures fault { IfErr result (λ fault. fault ≡ Fault.Write) }
    ensures faults { Counts result [] ((O.faults lanes.old, O.faults lanes.new) ∷ []) }
{
    one_flow_has_a_port();
    for shelved in shelves.iter_mut() {
        empty_shelf(shelved, lanes)?;
    }
    Ok(())
}

/// Puts what waits for one lane. Nothing waits for it then.
///
/// # Errors
///
/// [`Fault::Write`]: the put failed, and the lane has gained a front of what waited.
fn empty_shelf<O: Outlet>(shelved: &mut Shelved, lanes: &mut O) -> Result<(), Fault>
    ensures puts { OnOk result (Grows (O.lanes lanes.old) shelved.old.port shelved.old.shelf (O.lanes lanes.new)) }
    ensures part { OnErr result (GrowsPart (O.lanes lanes.old) shelved.old.port shelved.old.shelf (O.lanes lanes.new)) }
    ensures empty { shelved.new ≡ emptied shelved.old }
    ensures fault { IfErr result (λ fault. fault ≡ Fault.Write) }
    ensures faults { Counts result [] ((O.faults lanes.old, O.faults lanes.new) ∷ []) }
{
    match shelved.shelf.empty_into(shelved.port, lanes) {
        Ok(()) => Ok(()),
        Err(Failed) => Err(Fault::Write),
    }
}

/// Each flow takes the empty shelf that is there for its lane, and leaves the one with what it has shown.
pub(crate) fn exchange<D: WindowState>(flows: &mut [BatchFlow<D>], shelves: &mut [Shelved])
    requires { length flows.old ≡ length shelves.old }
    ensures { HaveExchanged flows.old flows.new shelves.old shelves.new }
{
    for k in 0..flows.len() {
        flows[k].exchange_shelf(&mut shelves[k].shelf);
    }
}
