//! Choices, and their lines.
use super::*;
use fg_io::MemSink;
use std::test::Fail;

#[test]
fn matrices_are_chosen(rt: HostRuntime) {
    for (burst, most, rows, choice) in [
        (5, 20, true, Some((10, 10))),
        (5, 20, false, Some((5, 5))),
        (6, 15, false, Some((6, 7))),
        (10, 19, true, None),
    ] {
        assert!(rt; choose(burst, most, rows) == choice);
    }
}

#[test]
fn a_choice_is_told(rt: HostRuntime) -> Result<(), Fail> {
    let mut out = MemSink::new(rt.alloc(), 64, &[])?;
    assert!(rt; write_choice(Some((6, 7)), &mut out).is_ok());
    assert_eq!(rt; out.bytes(), b"columns 6 rows 7\n".as_slice());
    Ok(())
}
