//! Two passes of one board that were told the same, which their numbers tell apart.

ghost use Rattle.std.specs.Prelude.{◌≡◌, ◌≢◌, ◌+◌, ◌<◌};

use super::scene::open;
use fg_board::{Admitter, Board, Pass};
use std::alloc::{AllocError, Global};
use std::sync::Wait;
use std::test::Fail;

// Two passes at once.
fn two_passes(board: &Board, admitter: &mut Admitter) -> (Pass, Pass)
    requires board { admitter.old.seat.turn ≡ board.now.name }
    requires room { admitter.old.seat.made + 2 < board.now.seats }
    ensures admitter { admitter.new.seat.turn ≡ admitter.old.seat.turn }
    ensures made { admitter.new.seat.made ≡ admitter.old.seat.made + 2 }
    ensures turn { (result.0.turn ≡ board.now.name) × (result.1.turn ≡ board.now.name) }
    ensures told { result.0.told ≡ result.1.told }
    ensures apart { result.0.number ≢ result.1.number }
{
    let one = board.pass(admitter);
    let two = board.pass(admitter);
    (one, two)
}

// Whether two passes of an empty board are both given nothing.
fn find_nothing(
    wait: &impl Wait,
    board: &Board,
    one: &mut Pass,
    two: &mut Pass,
) -> Result<bool, AllocError>
    requires turn { (one.old.turn ≡ board.now.name) × (two.old.turn ≡ board.now.name) }
    ensures turn { (one.new.turn ≡ board.now.name) × (two.new.turn ≡ board.now.name) }
{
    Ok(board.take(wait, one)?.is_none() && board.take(wait, two)?.is_none())
}

// Whether they are, and both can be put back.
fn both_find_nothing(wait: &impl Wait, alloc: Global) -> Result<bool, AllocError> {
    let (board, mut admitter) = open(alloc, 10, 40, 0)?;
    let (mut one, mut two) = two_passes(&board, &mut admitter);
    let found = find_nothing(wait, &board, &mut one, &mut two);
    board.back(&mut admitter, two);
    board.back(&mut admitter, one);
    if admitter.made() == 0 {
        board.close(admitter);
    }
    found
}

#[test]
fn two_passes_of_one_board(rt: HostRuntime) -> Result<(), Fail> {
    assert!(rt; both_find_nothing(&rt, rt.alloc())?);
    Ok(())
}
