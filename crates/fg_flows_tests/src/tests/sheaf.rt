ghost use Rattle.std.specs.Prelude.{◌≡◌, ◌<◌, ◌≤◌, length};

use fg_flows::*;
use std::test::Fail;

fn needs_send<T: Send>(_value: &T) {}

fn needs_sync<T: Sync>(_value: &T) {}

// A batch may be filled by one thread and read by several.
#[test]
fn crosses_threads(rt: HostRuntime) -> Result<(), Fail> {
    let sheaf = Sheaf::new(rt.alloc(), 1)?;
    needs_send(&sheaf);
    needs_sync(&sheaf);
    Ok(())
}

/// Whether so many records of this payload are all added to the first flow.
fn add_all(sheaf: &mut Sheaf, count: u64, payload: &[u8]) -> bool
    requires flow { 1 ≤ length sheaf.old.items }
    requires size { length payload.now ≤ 65535 }
    ensures { length sheaf.new.items ≡ length sheaf.old.items }
{
    for time in 0..count {
        if !sheaf.add(0, Kind::Media, time, payload) {
            return false;
        }
    }
    true
}

/// Whether these are the records of a flow.
fn holds(sheaf: &Sheaf, flow: usize, records: &[(Kind, u64, &[u8])]) -> bool
    requires { flow < length sheaf.now.items }
{
    if sheaf.count(flow) != records.len() {
        return false;
    }
    for k in 0..records.len() {
        if sheaf.item(flow, k) != records[k] {
            return false;
        }
    }
    true
}

/// Adds a record at an even time to the first of two flows, and one at an odd time to the second.
fn add_in_turn(sheaf: &mut Sheaf, time: u64, kind: Kind, payload: &[u8]) -> bool
    requires flows { length sheaf.old.items ≡ 2 }
    requires size { length payload.now ≤ 65535 }
    ensures { length sheaf.new.items ≡ 2 }
{
    sheaf.add((time % 2) as usize, kind, time, payload)
}

#[test]
fn holds_256_records(rt: HostRuntime) -> Result<(), Fail> {
    let mut sheaf = Sheaf::new(rt.alloc(), 1)?;
    assert!(rt; add_all(&mut sheaf, 256, b""));
    assert!(rt; !sheaf.add(0, Kind::Media, 256, b""));
    assert_eq!(rt; sheaf.count(0), 256);
    Ok(())
}

// 16 payloads of 65,535 bytes leave 16 bytes.
#[test]
fn holds_1048576_bytes(rt: HostRuntime) -> Result<(), Fail> {
    let mut sheaf = Sheaf::new(rt.alloc(), 1)?;
    assert!(rt; add_all(&mut sheaf, 16, &[7; 65_535]));
    assert!(rt; add_all(&mut sheaf, 1, &[8; 16]));
    assert!(rt; !add_all(&mut sheaf, 1, &[9; 1]));
    assert_eq!(rt; sheaf.count(0), 17);
    Ok(())
}

#[test]
fn flows_are_apart(rt: HostRuntime) -> Result<(), Fail> {
    let mut sheaf = Sheaf::new(rt.alloc(), 2)?;
    assert!(rt; add_in_turn(&mut sheaf, 10, Kind::Media, b"abc"));
    assert!(rt; add_in_turn(&mut sheaf, 11, Kind::Row, b""));
    assert!(rt; add_in_turn(&mut sheaf, 12, Kind::Column, b"de"));
    assert!(rt; add_in_turn(&mut sheaf, 13, Kind::Media, b"f"));
    assert!(rt;
        holds(
            &sheaf,
            0,
            &[(Kind::Media, 10, b"abc"), (Kind::Column, 12, b"de")]
        )
    );
    assert!(rt; holds(&sheaf, 1, &[(Kind::Row, 11, b""), (Kind::Media, 13, b"f")]));
    Ok(())
}

#[test]
fn takes_records_again(rt: HostRuntime) -> Result<(), Fail> {
    let mut sheaf = Sheaf::new(rt.alloc(), 1)?;
    assert!(rt; add_all(&mut sheaf, 256, b"abcd"));
    sheaf.clear();
    assert_eq!(rt; sheaf.count(0), 0);
    assert!(rt; add_all(&mut sheaf, 1, b"xy"));
    assert!(rt; holds(&sheaf, 0, &[(Kind::Media, 0, b"xy")]));
    Ok(())
}
