//! A row of four slots of which one is missing.

ghost use Rattle.std.specs.Prelude.{◌≡◌, ◌≤◌};

use super::scene::{Feed, fold};
use super::stage::{PLACES, open};
use fg_board::{Admitter, Board, Fate, Key};
use fg_shape::Shape;
use fg_tally::{Begun, Folded, Tallies, Tally};
use std::alloc::{AllocError, Global};
use std::sync::Wait;
use std::test::Fail;

// Sixteen media datagrams but the one of number 5, then a row and a column that have it.
fn admit_block(wait: &impl Wait, feed: &mut Feed<'_>) -> Result<Option<(Key, Key)>, AllocError> {
    for seq in 0..16u16 {
        if seq != 5 && !feed.admits(wait, seq)? {
            return Ok(None);
        }
    }
    let row = feed.sum(wait, 4, Shape { offset: 1, na: 4 })?;
    let column = feed.sum(wait, 1, Shape { offset: 4, na: 4 })?;
    match (row, column) {
        (Some(row), Some(column)) => Ok(Some((row, column))),
        _ => Ok(None),
    }
}

// Whether it shows these folded slots of the row.
fn shows(tally: &Tally<'_>, key: Key, folded: u32) -> bool {
    match tally.held() {
        Some(held) => {
            held.key == key
                && held.base == 4
                && held.shape == Shape { offset: 1, na: 4 }
                && held.folded == folded
        }
        None => false,
    }
}

// Whether the row's slots are folded one after another, and the missing one is offered.
fn folds_to_the_last(
    wait: &impl Wait,
    alloc: Global,
    tally: &mut Tally<'_>,
    key: Key,
) -> Result<bool, AllocError> {
    if tally.start(wait, key) != Begun::Held || !shows(tally, key, 0) {
        return Ok(false);
    }
    for (slot, wanted) in [
        (4, Folded::Waiting(3)),
        (4, Folded::Waiting(3)),
        (6, Folded::Waiting(2)),
        (7, Folded::Last(5)),
        (5, Folded::Unknown),
    ] {
        if fold(wait, tally, key, slot) != Some(wanted) {
            return Ok(false);
        }
    }
    Ok(shows(tally, key, 0b1101) && tally.settle(wait, alloc, key)? == Some(Fate::Done))
}

// Whether the last slot is then folded too, and no other key.
fn folds_whole(
    wait: &impl Wait,
    alloc: Global,
    tally: &mut Tally<'_>,
    key: Key,
) -> Result<bool, AllocError> {
    let other = Key {
        serial: key.serial.wrapping_add(1),
        ..key
    };
    Ok(
        fold(wait, tally, key, 5) == Some(Folded::Whole(true))
            && fold(wait, tally, other, 5) == Some(Folded::Stale)
            && tally.settle(wait, alloc, other)?.is_none()
            && tally.settle(wait, alloc, key)? == Some(Fate::Done)
            && shows(tally, key, 0b1111),
    )
}

// Whether the tally of the row's place goes so.
fn is_folded(
    wait: &impl Wait,
    alloc: Global,
    tallies: &Tallies<'_>,
    row: Key,
) -> Result<bool, AllocError> {
    if row.place >= PLACES {
        return Ok(false);
    }
    let mut tally = tallies.lock(wait, row.place);
    goes(wait, alloc, &mut tally, row)
}

fn goes(
    wait: &impl Wait,
    alloc: Global,
    tally: &mut Tally<'_>,
    row: Key,
) -> Result<bool, AllocError> {
    Ok(folds_to_the_last(wait, alloc, tally, row)? && folds_whole(wait, alloc, tally, row)?)
}

// Whether the tally of a place holds nothing.
fn holds_nothing(wait: &impl Wait, tallies: &Tallies<'_>, place: u32) -> bool {
    place < PLACES && tallies.lock(wait, place).held().is_none()
}

// Whether the row's tally goes so, and the column's holds nothing.
fn row_alone(
    wait: &impl Wait,
    alloc: Global,
    tallies: &Tallies<'_>,
    feed: &mut Feed<'_>,
) -> Result<bool, AllocError> {
    match admit_block(wait, feed)? {
        Some((row, column)) => Ok(
            is_folded(wait, alloc, tallies, row)? && holds_nothing(wait, tallies, column.place),
        ),
        None => Ok(false),
    }
}

fn on_board(
    wait: &impl Wait,
    alloc: Global,
    board: &Board,
    mut admitter: Admitter,
) -> Result<bool, AllocError>
    requires board { (admitter.seat.turn ≡ board.now.name) × (board.now.seats ≡ 514) }
    requires made { admitter.seat.made ≡ 0 }
    requires window { admitter.playout.window ≤ 100 }
{
    let tallies = Tallies::new(alloc, board, &mut admitter)?;
    let mut feed = Feed::new(alloc, board, admitter);
    row_alone(wait, alloc, &tallies, &mut feed)
}

fn row_is_folded(wait: &impl Wait, alloc: Global) -> Result<bool, AllocError> {
    let (board, admitter) = open(alloc, 100, 100)?;
    on_board(wait, alloc, &board, admitter)
}

#[test]
fn a_row_is_folded_and_settled(rt: HostRuntime) -> Result<(), Fail> {
    assert!(rt; row_is_folded(&rt, rt.alloc())?);
    Ok(())
}
