//! Positions by example.

use crate::position;

// Sequence numbers 65534, 65535, 1, 0 in the order of arrival.
#[test]
fn sequence_numbers_wrap(rt: HostRuntime) {
    assert_eq!(rt; position(0, 65534, 65534), Some(0));
    assert_eq!(rt; position(0, 65534, 65535), Some(1));
    assert_eq!(rt; position(1, 65535, 1), Some(3));
    assert_eq!(rt; position(3, 1, 0), Some(2));
}

#[test]
fn half_the_numbers_are_ahead(rt: HostRuntime) {
    assert_eq!(rt; position(0, 7, 32774), Some(32767));
    assert_eq!(rt; position(0, 7, 32775), None);
    assert_eq!(rt; position(32767, 7, 32775), None);
    assert_eq!(rt; position(32768, 7, 32775), Some(0));
    assert_eq!(rt; position(100, 7, 65442), None);
    assert_eq!(rt; position(101, 7, 65442), Some(0));
}
