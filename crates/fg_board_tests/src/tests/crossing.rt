//! A board is shared by threads, and its admitter, its passes and their jobs pass from one to another.

use fg_board::{Board, Job};
use std::alloc::{AllocError, Global};
use std::sync::Wait;
use std::test::Fail;

/// Takes what another thread may take over.
fn take_over<T: Send + Drop>(_value: T) {}

/// Takes what several threads may use at once.
fn use_at_once<T: Sync>(_value: &T) {}

// A board, its admitter, a pass and, where one is open, a job of it.
fn all_cross(wait: &impl Wait, alloc: Global) -> Result<(), AllocError> {
    let (board, mut admitter) = Board::new(alloc, 10, 40, 0, 1)?;
    let mut pass = board.pass(&mut admitter);
    let job = board.take(wait, &mut pass)?;
    use_at_once::<Board>(&board);
    take_over::<Option<Job>>(job);
    take_over(pass);
    take_over(admitter);
    take_over::<Board>(board);
    Ok(())
}

#[test]
fn a_board_and_its_seats_and_jobs_cross_threads(rt: HostRuntime) -> Result<(), Fail> {
    all_cross(&rt, rt.alloc())?;
    Ok(())
}
