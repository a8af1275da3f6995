//! Tables by example.

ghost use Rattle.std.specs.Prelude.{◌≤◌};

mod sheaf;

use fg_flows::{FlowFault, Kind, Table, TableFault};
use std::alloc::{AllocError, Global};
use std::process::Abort;
use std::test::Fail;

/// The table of these ports.
fn table(rt: &impl Abort, alloc: Global, ports: &[u16]) -> Table {
    Table::new(alloc, ports).expect(rt, "a table")
}

/// Why the ports have no table.
fn fault(alloc: Global, ports: &[u16]) -> Option<TableFault> {
    match Table::new(alloc, ports) {
        Ok(_) => None,
        Err(fault) => Some(fault),
    }
}

#[test]
fn a_flow_has_three_ports(rt: HostRuntime) {
    let table = table(&rt, rt.alloc(), &[5000, 6000]);
    assert_eq!(rt; table.count(), 2);
    assert_eq!(rt; table.port(1), 6000);
    assert_eq!(rt; table.find(5000), Some((0, Kind::Media)));
    assert_eq!(rt; table.find(5002), Some((0, Kind::Column)));
    assert_eq!(rt; table.find(6004), Some((1, Kind::Row)));
    for port in [0, 4998, 5001, 5006, 65535] {
        assert_eq!(rt; table.find(port), None);
    }
}

#[test]
fn flows_between_flows(rt: HostRuntime) {
    let table = table(&rt, rt.alloc(), &[5000, 5001, 5006, 1, 65531]);
    assert_eq!(rt; table.find(5003), Some((1, Kind::Column)));
    assert_eq!(rt; table.find(5006), Some((2, Kind::Media)));
    assert_eq!(rt; table.find(65535), Some((4, Kind::Row)));
}

#[test]
fn ports_out_of_range(rt: HostRuntime) {
    let port = |i| Some(TableFault::Flow(FlowFault::Port(i)));
    assert_eq!(rt; fault(rt.alloc(), &[0]), port(0));
    assert_eq!(rt; fault(rt.alloc(), &[5000, 65532, 5000]), port(1));
}

#[test]
fn flows_that_clash(rt: HostRuntime) {
    let clash = |i| Some(TableFault::Flow(FlowFault::Clash(i)));
    for second in [4996, 4998, 5000, 5002, 5004] {
        assert_eq!(rt; fault(rt.alloc(), &[5000, second]), clash(1));
    }
    assert_eq!(rt; fault(rt.alloc(), &[5000, 7000, 6996, 0]), clash(2));
}

/// The ports 5000, 5006 and so on.
fn ports(alloc: Global, count: u16) -> Result<Vec<u16>, AllocError>
    requires { count ≤ 65 }
{
    let mut ports = Vec::new(alloc);
    for i in 0..count {
        ports.push(5000 + 6 * i)?;
    }
    Ok(ports)
}

#[test]
fn no_flow(rt: HostRuntime) {
    assert_eq!(rt;
        fault(rt.alloc(), &[]),
        Some(TableFault::Flow(FlowFault::NoFlow))
    );
}

#[test]
fn sixty_four_flows(rt: HostRuntime) -> Result<(), Fail> {
    assert_eq!(rt; fault(rt.alloc(), &ports(rt.alloc(), 64)?), None);
    Ok(())
}

#[test]
fn sixty_five_flows(rt: HostRuntime) -> Result<(), Fail> {
    let fault = fault(rt.alloc(), &ports(rt.alloc(), 65)?);
    assert_eq!(rt; fault, Some(TableFault::Flow(FlowFault::TooMany)));
    Ok(())
}
