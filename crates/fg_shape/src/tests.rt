use crate::{Drops, Ends, Layout, LayoutFault, Shape, contains, last, shape_ok, slot};
use std::process::Abort;
use std::test::Fail;

// The columns of the staggered layout of five columns and five rows: 0 5 10 15 20, then
// 6 11 16 21 26, and so on.
#[test]
fn staggered_columns(rt: HostRuntime) -> Result<(), Fail> {
    let column = Shape { offset: 5, na: 5 };
    assert!(rt; shape_ok(column));
    assert_eq!(rt; slot(6, column, 3), 21);
    assert_eq!(rt; last(24, column), 44);
    assert!(rt; contains(6, column, 26));
    assert!(rt; !contains(6, column, 25));
    assert!(rt; !contains(6, column, 31));
    assert!(rt; !contains(6, column, 1));
    Ok(())
}

// Twenty slots that lie 5 apart span 95 positions, and such that lie 6 apart too many.
#[test]
fn limits_of_shapes(rt: HostRuntime) -> Result<(), Fail> {
    assert!(rt; shape_ok(Shape { offset: 5, na: 20 }));
    assert!(rt; !shape_ok(Shape { offset: 6, na: 20 }));
    assert!(rt; !shape_ok(Shape { offset: 0, na: 4 }));
    assert!(rt; !shape_ok(Shape { offset: 1, na: 21 }));
    Ok(())
}

/// A layout that is written.
fn layout(rt: &impl Abort, l: u8, d: u8, rows: bool, staggered: bool) -> Layout {
    Layout::new(l, d, rows, staggered).expect(rt, "a layout")
}

/// Whether the layout is refused for this reason.
fn is_refused(l: u8, d: u8, rows: bool, why: LayoutFault) -> bool {
    Layout::new(l, d, rows, false) == Err(why)
}

#[test]
fn limits_of_columns(rt: HostRuntime) {
    assert!(rt; is_refused(0, 4, false, LayoutFault::Columns));
    assert!(rt; is_refused(21, 4, false, LayoutFault::Columns));
    assert!(rt; Layout::new(1, 4, false, false).is_ok());
    assert!(rt; Layout::new(20, 5, true, true).is_ok());
}

#[test]
fn limits_of_rows(rt: HostRuntime) {
    assert!(rt; is_refused(5, 3, false, LayoutFault::Rows));
    assert!(rt; is_refused(1, 21, false, LayoutFault::Rows));
    assert!(rt; Layout::new(5, 20, true, true).is_ok());
}

#[test]
fn limits_of_matrices(rt: HostRuntime) {
    assert!(rt; is_refused(20, 6, true, LayoutFault::Product));
    assert!(rt; is_refused(17, 6, false, LayoutFault::Product));
    assert!(rt; is_refused(3, 4, true, LayoutFault::RowsNeedFour));
    assert!(rt; Layout::new(3, 4, false, false).is_ok());
}

#[test]
fn the_first_broken_rule_is_told(rt: HostRuntime) {
    assert!(rt; is_refused(0, 0, true, LayoutFault::Columns));
    assert!(rt; is_refused(2, 200, true, LayoutFault::Rows));
}

// The columns of the first matrix, staggered, five columns and five rows: 0 5 10 15 20, then
// 6 11 16 21 26, 12 17 22 27 32, 18 23 28 33 38, 24 29 34 39 44.
#[test]
fn ends_of_staggered_columns(rt: HostRuntime) {
    let layout = layout(&rt, 5, 5, false, true);
    for (end, base) in [
        (20, 0),
        (26, 6),
        (32, 12),
        (38, 18),
        (44, 24),
        (45, 25),
        (51, 31),
    ] {
        assert_eq!(rt;
            layout.ending_at(end),
            Ends {
                column: Some(base),
                row: None
            }
        );
    }
    for slot in [0, 4, 19, 21, 22, 23, 24, 25, 27, 31, 43] {
        assert_eq!(rt;
            layout.ending_at(slot),
            Ends {
                column: None,
                row: None
            }
        );
    }
}

// A square of four in blocks: columns end at 12 to 15, rows at 3, 7, 11 and 15.
#[test]
fn ends_of_a_block(rt: HostRuntime) {
    let layout = layout(&rt, 4, 4, true, false);
    assert_eq!(rt;
        layout.ending_at(3),
        Ends {
            column: None,
            row: Some(0)
        }
    );
    assert_eq!(rt;
        layout.ending_at(11),
        Ends {
            column: None,
            row: Some(8)
        }
    );
    assert_eq!(rt;
        layout.ending_at(12),
        Ends {
            column: Some(0),
            row: None
        }
    );
    assert_eq!(rt;
        layout.ending_at(15),
        Ends {
            column: Some(3),
            row: Some(12)
        }
    );
    assert_eq!(rt;
        layout.ending_at(16),
        Ends {
            column: None,
            row: None
        }
    );
    assert_eq!(rt;
        layout.ending_at(31),
        Ends {
            column: Some(19),
            row: Some(28)
        }
    );
}

#[test]
fn drops_in_order(rt: HostRuntime) -> Result<(), Fail> {
    let mut drops = Drops::new(rt.alloc());
    assert_eq!(rt; drops.count(), 0);
    drops.add(9)?;
    drops.add(2)?;
    assert_eq!(rt; drops.count(), 2);
    assert_eq!(rt; (drops.item(0), drops.item(1)), (9, 2));
    Ok(())
}
