use fg_io::{Failed, MemOutlet};
use fg_report::*;
use std::test::Fail;

fn needs_send<T: Send>(_value: &T) {}

// A shelf may be filled by one thread and emptied by another.
#[test]
fn crosses_threads(rt: HostRuntime) {
    needs_send(&Shelf::new(rt.alloc()));
}

// The outlet would fail at its third call: an emptying is one call, and that of an empty shelf is none.
#[test]
fn payloads_go_in_order(rt: HostRuntime) -> Result<(), Fail> {
    let mut lanes = MemOutlet::new(rt.alloc(), &[5000, 5002], 10, &[2])?;
    let mut shelf = Shelf::new(rt.alloc());
    assert_eq!(rt; shelf.empty_into(5000, &mut lanes), Ok(()));
    assert_eq!(rt; lanes.lane(5000), None);
    shelf.put(b"abc")?;
    shelf.put(b"de")?;
    assert_eq!(rt; shelf.empty_into(5000, &mut lanes), Ok(()));
    assert_eq!(rt; shelf.empty_into(5000, &mut lanes), Ok(()));
    shelf.put(b"f")?;
    assert_eq!(rt; shelf.empty_into(5000, &mut lanes), Ok(()));
    assert_eq!(rt; lanes.lane(5000), Some(b"abcdef".as_slice()));
    assert_eq!(rt; lanes.lane(5002), None);
    Ok(())
}

#[test]
fn a_full_lane_takes_a_front(rt: HostRuntime) -> Result<(), Fail> {
    let mut lanes = MemOutlet::new(rt.alloc(), &[5000], 4, &[])?;
    let mut shelf = Shelf::new(rt.alloc());
    shelf.put(b"abc")?;
    shelf.put(b"de")?;
    assert_eq!(rt; shelf.empty_into(5000, &mut lanes), Err(Failed));
    assert_eq!(rt; lanes.lane(5000), Some(b"abcd".as_slice()));
    assert_eq!(rt; shelf.empty_into(5000, &mut lanes), Ok(()));
    Ok(())
}
