//! The flows of a repair: which UDP port belongs to which flow, and what a repair and a pick are told.
#![tactic(auto)]

ghost use Rattle.std.specs.Prelude.{◌≡◌, ◌+◌, ◌<◌, ◌↔◌, ℕ, List, IfErr, IfNone, IfOk, IfSome, IsTrue, OnOk, length, slice_index};
ghost use Rattle.fg_flows.specs.Flows.{AreGoodBefore, IsGoodFlow, IsPortOf, IsTable, IsTableFault};
ghost use Rattle.fg_flows.specs.Index.{IsIndex};

pub use fg_shape::Kind;
use fg_shape::LAST_PORT;
pub use selection::{Ports, Selection, Sources};
pub use sheaf::Sheaf;
use std::alloc::{AllocError, AllocFailed, Global};
use std::collections::HashMap;
use std::marker::Model;
use thiserror::Error;

pub mod laws;
mod selection;
mod sheaf;

/// The most flows that a table has.
const MOST_FLOWS: usize = 64;

/// Why a list of flows has no table: the first rule that it breaks.
#[derive(Clone, Copy, Debug, PartialEq, Eq, Error)]
pub enum FlowFault {
    /// There is no flow.
    #[error("there is no flow")]
    NoFlow,
    /// There are more than 64 flows.
    #[error("there are more than 64 flows")]
    TooMany,
    /// The port of the flow with this number, counted from 0, isn't 1 to 65531.
    #[error("flow {0} has no port from 1 to 65531")]
    Port(usize),
    /// The flow with this number, counted from 0, shares a port with an earlier one.
    #[error("flow {0} shares a port with an earlier one")]
    Clash(usize),
}

/// Why there is no table.
#[derive(Clone, Copy, Debug, PartialEq, Eq, Error)]
pub enum TableFault {
    /// There was no memory.
    #[error("out of memory")]
    Memory,
    /// The flows break a rule.
    #[error("{0}")]
    Flow(FlowFault),
}

impl From<AllocError> for TableFault {
    ghost use Rattle.std.specs.Prelude.{◌≡◌};
    ghost use Rattle.fg_flows.specs.declared.TableFault.TheVariants.{Memory};

    ghost from_gives = { λ _ fault. fault ≡ Memory };

    fn from(_fault: AllocError) -> TableFault {
        TableFault::Memory
    }
}

impl<T: Drop> From<AllocFailed<T>> for TableFault {
    ghost use Rattle.std.specs.Prelude.{◌≡◌};
    ghost use Rattle.fg_flows.specs.declared.TableFault.TheVariants.{Memory};

    ghost from_gives = { λ _ fault. fault ≡ Memory };

    fn from(_fault: AllocFailed<T>) -> TableFault {
        TableFault::Memory
    }
}

/// 1 to 64 flows by their ports, of which no two have a port in common. Contracts see it as the
/// list of the flows' own ports.
#[derive(Drop)]
pub struct Table {
    flows: Vec<u16>,
    // The three ports of each flow, so that a look-up is one look into a map.
    owners: HashMap<u16, (usize, Kind)>,
}

impl Model for Table {
    ghost use Rattle.std.specs.Prelude.{ℕ, List, length};
    ghost use Rattle.fg_flows.specs.Flows.{IsTable};
    ghost use Rattle.fg_flows.specs.Index.{IsIndex};

    ghost Value = { List ℕ };

    ghost view = { λ table. table.flows.items };

    ghost invariant = { λ table. IsTable table.flows.items
        × IsIndex table.flows.items (length table.flows.items) table.owners };
}

impl Table {
    /// The table of the flows with these ports, in this order.
    ///
    /// # Errors
    ///
    /// The first rule that the list breaks, or want of memory.
    pub fn new(alloc: Global, ports: &[u16]) -> Result<Table, TableFault>
        ensures flows { IfOk result (λ table. table ≡ ports.now) }
        ensures table { IfOk result (λ table. IsTable table) }
        ensures faults { IfErr result (IsTableFault ports.now) }
    {
        if ports.is_empty() {
            return Err(TableFault::Flow(FlowFault::NoFlow));
        }
        if ports.len() > MOST_FLOWS {
            return Err(TableFault::Flow(FlowFault::TooMany));
        }
        let mut owners = HashMap::new(alloc);
        for i in 0..ports.len() {
            add_flow(&mut owners, ports, i)?;
        }
        let flows = Vec::from_slice(alloc, ports)?;
        Ok(Table { flows, owners })
    }

    /// The flow that has the port, by its number from 0, and what the port carries.
    #[inline]
    pub fn find(&self, port: u16) -> Option<(usize, Kind)>
        ensures found { IfSome result (λ owner. IsPortOf self.now port owner.0 owner.1) }
        ensures none { IfNone result ((i : ℕ) (kind : Kind) → IsPortOf self.now port i kind → ⊥) }
    {
        // Most records of a lone flow come by its own port.
        if port == self.flows[0] {
            return Some((0, Kind::Media));
        }
        self.owners.get(&port).copied()
    }

    /// How many flows there are, 1 to 64.
    pub fn count(&self) -> usize
        ensures count { result ≡ length self.now }
        ensures table { IsTable self.now }
    {
        self.flows.len()
    }

    /// The flows' own ports, in their order.
    pub fn ports(&self) -> &[u16]
        ensures { result.now ≡ self.now }
    {
        &self.flows
    }

    /// The port of the flow with this number, counted from 0.
    pub fn port(&self, i: usize) -> u16
        requires { i < length self.now }
        ensures { result ≡ slice_index self.now i }
    {
        self.flows[i]
    }
}

/// Adds the ports of flow `i` to those of the flows before it.
fn add_flow(
    owners: &mut HashMap<u16, (usize, Kind)>,
    ports: &[u16],
    i: usize,
) -> Result<(), TableFault>
    requires before { AreGoodBefore ports.now i }
    requires index { IsIndex ports.now i owners.old }
    ensures good { OnOk result (IsGoodFlow ports.now i) }
    ensures index { OnOk result (IsIndex ports.now (i + 1) owners.new) }
    ensures faults { IfErr result (IsTableFault ports.now) }
{
    let port = ports[i];
    if port == 0 || port > LAST_PORT {
        return Err(TableFault::Flow(FlowFault::Port(i)));
    }
    let column = Kind::Column.port(port);
    let row = Kind::Row.port(port);
    if owners.contains_key(&port) || owners.contains_key(&column) || owners.contains_key(&row) {
        return Err(TableFault::Flow(FlowFault::Clash(i)));
    }
    owners.insert(port, (i, Kind::Media))?;
    owners.insert(column, (i, Kind::Column))?;
    owners.insert(row, (i, Kind::Row))?;
    Ok(())
}

/// What a repair is told.
#[derive(Drop)]
pub struct Plan {
    /// The flows to repair.
    pub table: Table,
    /// Positions that are played at once, 1 to 100.
    pub window: u32,
    /// A window is played once a media datagram comes that is so far past its first position, from
    /// the window to 1000 positions.
    pub depth: u32,
    /// How long, in microseconds by the times of the records, a received word may wait until its
    /// position is closed. 0 sets no limit.
    pub hold: u64,
    /// Threads beside the one that reads, 0 to 16.
    pub workers: u32,
    /// The most bytes that the trace may have.
    pub max: u64,
}
