//! A block of 4 columns and 4 rows whose middle is lost.
use fg_closure::*;
use fg_desk::{Desk, Reply};
use fg_runs::{Rules, Runs};
use fg_shape::{Shape, shape_ok};
use fg_words::Word;
use std::alloc::{AllocError, Global};
use std::process::Abort;
use std::test::Fail;

/// A media word. What its payload is makes no difference here.
fn media_word() -> Word {
    let mut word = Word::zero();
    word.pt = 33;
    word.len = 1316;
    for packet in 0..7usize {
        word.bytes[188 * packet] = 0x47;
    }
    word
}

/// Whether a media datagram is admitted.
fn is_admitted(desk: &mut Desk, alloc: Global, seq: u16) -> Result<bool, AllocError> {
    let share = media_word().share(alloc)?;
    if !desk.room() || desk.fresh(7) || desk.due(seq, 7) || !share.word().is_media() {
        return Ok(false);
    }
    Ok(desk.admit_media(seq, 7, share) == Reply::Admitted)
}

/// Whether a parity datagram is admitted.
fn is_protected(
    desk: &mut Desk,
    alloc: Global,
    base: u16,
    shape: Shape,
) -> Result<bool, AllocError> {
    let share = Word::zero().share(alloc)?;
    if !desk.room() || !shape_ok(shape) {
        return Ok(false);
    }
    Ok(desk.admit_parity(base, shape, share) == Reply::Admitted)
}

/// Whether media datagrams are admitted.
fn are_admitted(desk: &mut Desk, alloc: Global, seqs: &[u16]) -> Result<bool, AllocError> {
    let mut all = true;
    for seq in seqs {
        all &= is_admitted(desk, alloc, *seq)?;
    }
    Ok(all)
}

/// Whether parity datagrams of one shape are admitted.
fn are_protected(
    desk: &mut Desk,
    alloc: Global,
    bases: &[u16],
    shape: Shape,
) -> Result<bool, AllocError> {
    let mut all = true;
    for base in bases {
        all &= is_protected(desk, alloc, *base, shape)?;
    }
    Ok(all)
}

/// Whether a desk admits the block, of which the media datagrams 5, 6, 9 and 10 are lost.
fn admits_block(desk: &mut Desk, alloc: Global) -> Result<bool, AllocError> {
    let row = Shape { offset: 1, na: 4 };
    let column = Shape { offset: 4, na: 4 };
    let seqs = [0, 1, 2, 3, 4, 7, 8, 11, 12, 13, 14, 15];
    let media = are_admitted(desk, alloc, &seqs)?;
    let rows = are_protected(desk, alloc, &[0, 4, 8], row)?;
    let columns = are_protected(desk, alloc, &[0, 1, 2, 3], column)?;
    let last = is_protected(desk, alloc, 12, row)?;
    Ok(media && rows && columns && last)
}

/// Whether the runs are these.
fn are_runs(runs: &Runs, want: &[(u64, u64)]) -> bool {
    if runs.count() != want.len() {
        return false;
    }
    for i in 0..runs.count() {
        if runs.item(i) != want[i] {
            return false;
        }
    }
    true
}

/// Whether the lines are these: the base of each, its offset and its number of slots.
fn are_lines(lines: &Rules, want: &[(u64, u8, u8)]) -> bool {
    if lines.count() != want.len() {
        return false;
    }
    for i in 0..lines.count() {
        let (base, shape) = lines.item(i);
        if (base, shape.offset, shape.na) != want[i] {
            return false;
        }
    }
    true
}

/// Whether of the block the middle is missing, as this says.
fn tells_square(closure: &Closure, alloc: Global) -> Result<bool, AllocError> {
    let known = closure.known(alloc)?;
    let lines = closure.lines(alloc)?;
    let rows_and_columns = [
        (0, 1, 4),
        (4, 1, 4),
        (8, 1, 4),
        (0, 4, 4),
        (1, 4, 4),
        (2, 4, 4),
        (3, 4, 4),
        (12, 1, 4),
    ];
    Ok(are_runs(&known, &[(0, 5), (7, 2), (11, 5)]) && are_lines(&lines, &rows_and_columns))
}

/// Whether these are the holes of a desk for a window of so many positions.
fn are_holes(
    closure: &mut Closure,
    alloc: Global,
    desk: &Desk,
    count: u32,
    want: &[(u64, u64)],
) -> Result<bool, AllocError> {
    closure.find(desk);
    if count > 100 {
        return Ok(false);
    }
    let holes = closure.holes(alloc, count)?;
    Ok(are_runs(&holes, want))
}

/// Four are lost in a square: the middle of the block.
fn try_square(
    rt: &impl Abort,
    alloc: Global,
    desk: &mut Desk,
    closure: &mut Closure,
) -> Result<(), Fail> {
    assert!(rt; admits_block(desk, alloc)?);
    assert!(rt; are_holes(closure, alloc, desk, 16, &[(5, 2), (9, 2)])?);
    assert!(rt; !closure.is_missing(5) && closure.is_missing(6));
    assert!(rt; tells_square(closure, alloc)?);
    assert_eq!(rt; closure.mark(), 0);
    Ok(())
}

/// The other three follow one by one, once one of them has come.
fn try_three(
    rt: &impl Abort,
    alloc: Global,
    desk: &mut Desk,
    closure: &mut Closure,
) -> Result<(), Fail> {
    assert!(rt; admits_block(desk, alloc)?);
    assert!(rt; is_admitted(desk, alloc, 5)?);
    assert!(rt; are_holes(closure, alloc, desk, 18, &[(16, 2)])?);
    assert!(rt; !closure.is_missing(16) && closure.is_missing(17));
    Ok(())
}

#[test]
fn four_lost_in_a_square(rt: HostRuntime) -> Result<(), Fail> {
    let mut closure = Closure::new(rt.alloc())?;
    let mut desk = Desk::new(rt.alloc(), 100, 400, 0)?;
    try_square(&rt, rt.alloc(), &mut desk, &mut closure)
}

#[test]
fn three_that_follow_one_by_one(rt: HostRuntime) -> Result<(), Fail> {
    let mut closure = Closure::new(rt.alloc())?;
    let mut desk = Desk::new(rt.alloc(), 100, 400, 0)?;
    try_three(&rt, rt.alloc(), &mut desk, &mut closure)
}
