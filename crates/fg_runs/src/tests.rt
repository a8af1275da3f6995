//! Runs and slots, added and told.
use super::*;
use fg_shape::Shape;
use std::alloc::{AllocError, Global};
use std::process::Abort;
use std::test::Fail;

/// These runs, added one after another.
fn added(alloc: Global, runs: &[(u64, u64)]) -> Result<Runs, AllocError> {
    let mut added = Runs::new(alloc);
    for (first, length) in runs {
        added.add(*first, *length)?;
    }
    Ok(added)
}

/// Compares the runs with these.
fn are_told(rt: &impl Abort, runs: &Runs, want: &[(u64, u64)]) {
    assert_eq!(rt; runs.count(), want.len());
    for (i, run) in want.iter().enumerate() {
        assert!(rt; i < runs.count());
        assert_eq!(rt; runs.item(i), *run);
    }
}

#[test]
fn runs_are_told_as_added(rt: HostRuntime) -> Result<(), Fail> {
    let want = [(7, 2), (0, 18446744073709551615)];
    are_told(&rt, &added(rt.alloc(), &want)?, &want);
    Ok(())
}

#[test]
fn runs_that_touch_are_joined(rt: HostRuntime) -> Result<(), Fail> {
    let mut runs = Runs::new(rt.alloc());
    runs.join(3, 2)?;
    runs.join(5, 1)?;
    runs.join(7, 18446744073709551608)?;
    are_told(&rt, &runs, &[(3, 3), (7, 18446744073709551608)]);
    Ok(())
}

#[test]
fn runs_are_cut_at_an_end(rt: HostRuntime) -> Result<(), Fail> {
    let mut runs = added(rt.alloc(), &[(3, 3), (7, 4), (18446744073709551615, 9)])?;
    runs.cut(18446744073709551619);
    are_told(&rt, &runs, &[(3, 3), (7, 4), (18446744073709551615, 4)]);
    runs.cut(8);
    are_told(&rt, &runs, &[(3, 3), (7, 1)]);
    runs.cut(6);
    are_told(&rt, &runs, &[(3, 3)]);
    Ok(())
}

#[test]
fn rules_are_told_as_added(rt: HostRuntime) -> Result<(), Fail> {
    let mut rules = Rules::new(rt.alloc());
    rules.add(8, Shape { offset: 1, na: 4 })?;
    assert_eq!(rt; rules.count(), 1);
    let (base, shape) = rules.item(0);
    assert_eq!(rt; base, 8);
    assert_eq!(rt; shape.offset, 1);
    assert_eq!(rt; shape.na, 4);
    Ok(())
}
