//! A start with the key of an equation that a play retired.

ghost use Rattle.std.specs.Prelude.{◌≡◌, ◌≤◌};

use super::scene::{Feed, fold};
use super::stage::{PLACES, open};
use fg_board::{Admitter, Board, Key};
use fg_shape::Shape;
use fg_tally::{Begun, Folded, Tallies, Tally};
use std::alloc::{AllocError, Global};
use std::sync::Wait;
use std::test::Fail;

// Four media datagrams and their row.
fn admit_row(wait: &impl Wait, feed: &mut Feed<'_>) -> Result<Option<Key>, AllocError> {
    for seq in 0..4u16 {
        if !feed.admits(wait, seq)? {
            return Ok(None);
        }
    }
    feed.sum(wait, 0, Shape { offset: 1, na: 4 })
}

// Whether a tally that held the key holds none after a start with it, once a play has retired it.
fn is_gone(
    wait: &impl Wait,
    feed: &mut Feed<'_>,
    tally: &mut Tally<'_>,
    key: Key,
) -> Result<bool, AllocError> {
    if tally.start(wait, key) != Begun::Held || tally.held().is_none() {
        return Ok(false);
    }
    let is_played = feed.play(wait, 4)?.is_some();
    let stale = fold(wait, tally, key, 0) == Some(Folded::Stale);
    let gone = Begun::Gone { mark: 4, epoch: 0 };
    Ok(is_played && stale && tally.start(wait, key) == gone && tally.held().is_none())
}

fn is_gone_at(
    wait: &impl Wait,
    tallies: &Tallies<'_>,
    feed: &mut Feed<'_>,
    key: Key,
) -> Result<bool, AllocError> {
    if key.place >= PLACES {
        return Ok(false);
    }
    let mut tally = tallies.lock(wait, key.place);
    is_gone(wait, feed, &mut tally, key)
}

fn row_is_gone(
    wait: &impl Wait,
    tallies: &Tallies<'_>,
    feed: &mut Feed<'_>,
) -> Result<bool, AllocError> {
    match admit_row(wait, feed)? {
        Some(key) => is_gone_at(wait, tallies, feed, key),
        None => Ok(false),
    }
}

fn on_board(
    wait: &impl Wait,
    alloc: Global,
    board: &Board,
    mut admitter: Admitter,
) -> Result<bool, AllocError>
    requires board { (admitter.seat.turn ≡ board.now.name) × (board.now.seats ≡ 514) }
    requires made { admitter.seat.made ≡ 0 }
    requires window { admitter.playout.window ≤ 100 }
{
    let tallies = Tallies::new(alloc, board, &mut admitter)?;
    let mut feed = Feed::new(alloc, board, admitter);
    row_is_gone(wait, &tallies, &mut feed)
}

fn retired_is_gone(wait: &impl Wait, alloc: Global) -> Result<bool, AllocError> {
    let (board, admitter) = open(alloc, 4, 4)?;
    on_board(wait, alloc, &board, admitter)
}

#[test]
fn a_retired_key_is_gone(rt: HostRuntime) -> Result<(), Fail> {
    assert!(rt; retired_is_gone(&rt, rt.alloc())?);
    Ok(())
}
