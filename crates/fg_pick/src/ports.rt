//! Which ports are picked: a table, so that a look-up is one look.
ghost use Rattle.std.specs.Prelude.{◌≡◌, ◌↔◌, [], false, IfOk, IsTrue, length, slice_index_or};
ghost use Rattle.std.specs.List.{All, Contains};
ghost use Rattle.fg_shape.specs.Kind.{IsFlowPort};
ghost use Rattle.fg_pick.specs.Picked.{IsOnFlow};
ghost use Rattle.fg_pick.specs.Ports.{IsPortOf, IsPortTable, Marks};

use fg_flows::{Kind, Selection};
use std::alloc::{AllocError, Global};

/// How many ports there are.
const PORTS: usize = 65_536;

/// Which of all ports are picked.
#[derive(Drop)]
pub(crate) struct PortTable {
    // An entry for each port.
    pub(crate) entries: Vec<bool>,
}

impl PortTable {
    /// The ports that are picked. The memory, 64 kB, is taken here.
    pub(crate) fn new(alloc: Global, selection: &Selection) -> Result<PortTable, AllocError>
        requires flows { All IsFlowPort selection.now.flows }
        ensures { IfOk result (λ table. IsPortTable selection.now table.entries.items) }
    {
        let mut entries = vec![in alloc; names_none(selection); PORTS]?;
        mark_flows(&mut entries, selection.flows.as_slice());
        mark_ports(&mut entries, selection.ports.as_slice());
        Ok(PortTable { entries })
    }

    /// Whether the port is picked.
    #[inline]
    pub(crate) fn has(&self, port: u16) -> bool
        requires { length self.now.entries.items ≡ PORTS }
        ensures { result ≡ slice_index_or self.now.entries.items port false }
    {
        self.entries[usize::from(port)]
    }
}

/// Whether neither flows nor ports are named.
fn names_none(selection: &Selection) -> bool
    ensures { IsTrue result ↔ ((selection.now.flows ≡ []) × (selection.now.ports ≡ [])) }
{
    selection.flows.as_slice().is_empty() && selection.ports.as_slice().is_empty()
}

/// Marks the three ports of each flow.
fn mark_flows(entries: &mut Vec<bool>, flows: &[u16])
    requires flows { All IsFlowPort flows.now }
    requires entry_each { length entries.old.items ≡ PORTS }
    ensures { Marks (IsOnFlow flows.now) entries.old.items entries.new.items }
{
    for flow in flows {
        mark_flow(entries, *flow);
    }
}

/// Marks the three ports of a flow.
fn mark_flow(entries: &mut Vec<bool>, flow: u16)
    requires flow { IsFlowPort flow }
    requires entry_each { length entries.old.items ≡ PORTS }
    ensures { Marks (IsPortOf flow) entries.old.items entries.new.items }
{
    entries[usize::from(Kind::Media.port(flow))] = true;
    entries[usize::from(Kind::Column.port(flow))] = true;
    entries[usize::from(Kind::Row.port(flow))] = true;
}

/// Marks the ports.
fn mark_ports(entries: &mut Vec<bool>, ports: &[u16])
    requires entry_each { length entries.old.items ≡ PORTS }
    ensures { Marks (Contains ports.now) entries.old.items entries.new.items }
{
    for port in ports {
        entries[usize::from(*port)] = true;
    }
}
