//! What the judge says of cases at the bounds of its rules.
use fg_proof::*;
use fg_shape::Shape;
use std::alloc::{AllocError, Global};
use std::process::Abort;
use std::test::Fail;

/// Known positions as runs, lines by base, offset and number of slots, holes as runs, and what is to be said of a case of them.
type Told = (
    &'static [(u64, u64)],
    &'static [(u64, u8, u8)],
    &'static [(u64, u64)],
    Answer,
);

/// A window's mark and count, holes, and what is to be said.
type ToldWindow = (u64, u32, &'static [(u64, u64)], Answer);

/// The greatest position.
const LAST: u64 = 4611686018427387904;

/// The greatest number of a field.
const MOST: u64 = 18446744073709551615;

static KNOWN_RUNS: [Told; 13] = [
    (&[(0, 5), (6, 2)], &[], &[(9, 1)], Answer::Yes),
    (&[(0, 5), (5, 2)], &[], &[(9, 1)], Answer::Disorder),
    (&[(0, 5), (4, 2)], &[], &[(9, 1)], Answer::Disorder),
    (&[(5, 2), (0, 2)], &[], &[(9, 1)], Answer::Disorder),
    (&[(5, 0)], &[], &[(9, 1)], Answer::Disorder),
    (&[(10, LAST - 9)], &[], &[(9, 1)], Answer::Yes),
    (&[(10, LAST - 8)], &[], &[(9, 1)], Answer::Disorder),
    (&[(10, MOST)], &[], &[(9, 1)], Answer::Disorder),
    (&[(LAST, 1)], &[], &[(9, 1)], Answer::Yes),
    (&[(LAST, 2)], &[], &[(9, 1)], Answer::Disorder),
    (&[(LAST + 1, 1)], &[], &[(9, 1)], Answer::Disorder),
    (&[(MOST, 1)], &[], &[(9, 1)], Answer::Disorder),
    (&[(MOST, MOST)], &[], &[(9, 1)], Answer::Disorder),
];

static HOLES: [Told; 10] = [
    (&[], &[], &[(9, 1), (11, 1)], Answer::Yes),
    (&[], &[], &[(9, 1), (10, 1)], Answer::Disorder),
    (&[], &[], &[(9, 2), (10, 1)], Answer::Disorder),
    (&[], &[], &[(11, 1), (9, 1)], Answer::Disorder),
    (&[], &[], &[(9, 1), (12, 0)], Answer::Disorder),
    (&[], &[], &[(9, 1), (LAST, 1)], Answer::Yes),
    (&[], &[], &[(9, 1), (LAST, 2)], Answer::Disorder),
    (&[], &[], &[(9, 1), (LAST + 1, 1)], Answer::Disorder),
    (&[], &[], &[(9, MOST)], Answer::Disorder),
    (&[], &[], &[(9, 1), (MOST, MOST)], Answer::Disorder),
];

static LINES: [Told; 13] = [
    (&[], &[(20, 20, 5)], &[(9, 1)], Answer::Yes),
    (&[], &[(20, 20, 6)], &[(9, 1)], Answer::Disorder),
    (&[], &[(20, 11, 10)], &[(9, 1)], Answer::Yes),
    (&[], &[(20, 10, 11)], &[(9, 1)], Answer::Disorder),
    (&[], &[(20, 1, 20)], &[(9, 1)], Answer::Yes),
    (&[], &[(20, 21, 1)], &[(9, 1)], Answer::Disorder),
    (&[], &[(20, 1, 21)], &[(9, 1)], Answer::Disorder),
    (&[], &[(20, 0, 1)], &[(9, 1)], Answer::Disorder),
    (&[], &[(20, 1, 0)], &[(9, 1)], Answer::Disorder),
    (&[], &[(LAST, 20, 5)], &[(9, 1)], Answer::Yes),
    (&[], &[(LAST + 1, 1, 1)], &[(9, 1)], Answer::Disorder),
    (&[], &[(MOST, 20, 5)], &[(9, 1)], Answer::Disorder),
    (&[], &[(20, 1, 4), (20, 0, 4)], &[(9, 1)], Answer::Disorder),
];

static WINDOWS: [ToldWindow; 12] = [
    (10, 4, &[], Answer::Disorder),
    (10, 4, &[(9, 1)], Answer::Disorder),
    (10, 4, &[(9, 2)], Answer::Yes),
    (10, 4, &[(10, 1)], Answer::Yes),
    (10, 4, &[(13, 1)], Answer::Yes),
    (10, 4, &[(14, 1)], Answer::Disorder),
    (10, 4, &[(2, 3), (20, 5)], Answer::Disorder),
    (10, 11, &[(2, 3), (20, 5)], Answer::Yes),
    (10, 0, &[(10, 1)], Answer::Disorder),
    (LAST, 1, &[(LAST, 1)], Answer::Yes),
    (LAST + 1, 1, &[(LAST, 1)], Answer::Disorder),
    (MOST, 4294967295, &[(9, 1), (LAST, 1)], Answer::Disorder),
];

static KNOWN_HOLES: [Told; 6] = [
    (&[(0, 9), (10, 5)], &[], &[(9, 1)], Answer::Yes),
    (&[(0, 10)], &[], &[(9, 1)], Answer::Known(9)),
    (&[(9, 3)], &[], &[(9, 1)], Answer::Known(9)),
    (&[(0, LAST + 1)], &[], &[(9, 1)], Answer::Known(9)),
    (
        &[(0, 5), (7, 2)],
        &[],
        &[(5, 1), (8, 1), (15, 1)],
        Answer::Known(8),
    ),
    (
        &[(0, 5), (11, 5)],
        &[],
        &[(5, 1), (9, 9)],
        Answer::Known(11),
    ),
];

static ALONE: [Told; 8] = [
    (&[], &[(5, 1, 4)], &[(9, 1)], Answer::Yes),
    (&[], &[(6, 1, 4)], &[(9, 1)], Answer::Alone(0)),
    (&[], &[(9, 1, 4)], &[(9, 1)], Answer::Alone(0)),
    (&[], &[(10, 1, 4)], &[(9, 1)], Answer::Yes),
    (&[], &[(1, 4, 3)], &[(9, 1)], Answer::Alone(0)),
    (&[], &[(2, 4, 3)], &[(9, 1)], Answer::Yes),
    (
        &[],
        &[(0, 1, 4), (10, 1, 4), (9, 1, 1), (9, 1, 2)],
        &[(9, 1)],
        Answer::Alone(2),
    ),
    (
        &[],
        &[(4, 1, 4), (1, 4, 3), (4, 1, 2)],
        &[(5, 2), (9, 1)],
        Answer::Alone(2),
    ),
];

/// Each breaks two rules.
static FIRST_RULES: [Told; 5] = [
    (&[(5, 1)], &[(4, 1, 3)], &[(5, 1)], Answer::Known(5)),
    (&[(16, 1)], &[], &[(16, 1)], Answer::Disorder),
    (
        &[(5, 1)],
        &[(4, 1, 3), (4, 0, 3)],
        &[(5, 1)],
        Answer::Disorder,
    ),
    (&[(5, 1), (6, 1)], &[], &[(5, 1)], Answer::Disorder),
    (&[], &[(4, 1, 2)], &[(5, 1), (6, 1)], Answer::Disorder),
];

/// The rows and columns of a block of 4 columns and 4 rows.
fn block() -> [(u64, u8, u8); 8] {
    let mut lines = [(0, 1, 4); 8];
    for i in 0..4 {
        lines[i].0 = 4 * i as u64;
        lines[4 + i] = (i as u64, 4, 4);
    }
    lines
}

fn runs_of(alloc: Global, told: &[(u64, u64)]) -> Result<Runs, AllocError> {
    let mut runs = Runs::new(alloc);
    for (first, length) in told {
        runs.add(*first, *length)?;
    }
    Ok(runs)
}

fn rules_of(alloc: Global, told: &[(u64, u8, u8)]) -> Result<Rules, AllocError> {
    let mut rules = Rules::new(alloc);
    for (base, offset, na) in told {
        rules.add(
            *base,
            Shape {
                offset: *offset,
                na: *na,
            },
        )?;
    }
    Ok(rules)
}

fn case_of(
    alloc: Global,
    mark: u64,
    count: u32,
    known: &[(u64, u64)],
    lines: &[(u64, u8, u8)],
    holes: &[(u64, u64)],
) -> Result<Case, AllocError> {
    let known = runs_of(alloc, known)?;
    let lines = rules_of(alloc, lines)?;
    let holes = runs_of(alloc, holes)?;
    Ok(Case {
        port: 5000,
        mark,
        count,
        known,
        lines,
        holes,
    })
}

fn is_judged(rt: &impl Abort, case: &Case, answer: Answer) {
    assert!(rt; case.lines.count() < 10000);
    assert_eq!(rt; judge(case), answer);
}

/// Judges cases whose windows are of 16 positions from 0 on.
fn are_judged(rt: &impl Abort, alloc: Global, table: &[Told]) -> Result<(), Fail> {
    for (known, lines, holes, answer) in table {
        let case = case_of(alloc, 0, 16, known, lines, holes)?;
        is_judged(rt, &case, *answer);
    }
    Ok(())
}

/// Judges cases of nothing but holes.
fn are_windows_judged(rt: &impl Abort, alloc: Global, table: &[ToldWindow]) -> Result<(), Fail> {
    for (mark, count, holes, answer) in table {
        let case = case_of(alloc, *mark, *count, &[], &[], holes)?;
        is_judged(rt, &case, *answer);
    }
    Ok(())
}

/// Of a block four words in a square were lost. They don't follow; three of them would.
fn is_block_judged(
    rt: &impl Abort,
    alloc: Global,
    holes: &[(u64, u64)],
    answer: Answer,
) -> Result<(), Fail> {
    let case = case_of(alloc, 0, 16, &[(0, 5), (7, 2), (11, 5)], &block(), holes)?;
    is_judged(rt, &case, answer);
    Ok(())
}

#[test]
fn cases_are_in_order(rt: HostRuntime) -> Result<(), Fail> {
    are_judged(&rt, rt.alloc(), &KNOWN_RUNS)?;
    are_judged(&rt, rt.alloc(), &HOLES)?;
    are_judged(&rt, rt.alloc(), &LINES)?;
    are_windows_judged(&rt, rt.alloc(), &WINDOWS)
}

#[test]
fn the_first_rule_is_told(rt: HostRuntime) -> Result<(), Fail> {
    are_judged(&rt, rt.alloc(), &KNOWN_HOLES)?;
    are_judged(&rt, rt.alloc(), &ALONE)?;
    are_judged(&rt, rt.alloc(), &FIRST_RULES)
}

#[test]
fn a_block_is_judged(rt: HostRuntime) -> Result<(), Fail> {
    is_block_judged(&rt, rt.alloc(), &[(5, 2), (9, 2)], Answer::Yes)?;
    is_block_judged(&rt, rt.alloc(), &[(5, 2), (9, 1)], Answer::Alone(2))?;
    is_block_judged(&rt, rt.alloc(), &[(4, 3), (9, 2)], Answer::Known(4))
}
