//! Tallies are shared by threads.

use fg_board::Board;
use fg_tally::Tallies;
use std::alloc::{AllocError, Global};
use std::test::Fail;

/// Takes what several threads may use at once.
fn use_at_once<T: Sync>(_value: &T) {}

// The tallies of a board.
fn use_tallies(tallies: &Tallies<'_>) {
    use_at_once(tallies);
}

// The tallies of a new board.
fn all_cross(alloc: Global) -> Result<(), AllocError> {
    let (board, mut admitter) = Board::new(alloc, 10, 40, 0, 512)?;
    let tallies = Tallies::new(alloc, &board, &mut admitter)?;
    use_tallies(&tallies);
    Ok(())
}

#[test]
fn tallies_cross_threads(rt: HostRuntime) -> Result<(), Fail> {
    all_cross(rt.alloc())?;
    Ok(())
}
