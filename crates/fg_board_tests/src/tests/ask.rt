//! A pass asks for an equation by its key.

ghost use Rattle.std.specs.Prelude.{◌≡◌, ◌≤◌};

use super::admit;
use super::scene::open;
use super::script::{sum_of, word_of};
use fg_board::{Admitter, Asked, Board, Key, Pass};
use fg_shape::Shape;
use std::alloc::{AllocError, Global};
use std::sync::Wait;
use std::test::Fail;

// The key of a row of four datagrams, of which the first came.
fn row_of_four(
    wait: &impl Wait,
    alloc: Global,
    board: &Board,
    admitter: &mut Admitter,
) -> Result<Option<Key>, AllocError>
    requires turn { admitter.old.seat.turn ≡ board.now.name }
    requires window { admitter.old.playout.window ≤ 100 }
    ensures { admitter.new.seat.turn ≡ admitter.old.seat.turn }
{
    let shape = Shape { offset: 1, na: 4 };
    let first = word_of(0).share(alloc)?;
    let parity = sum_of(0, shape).share(alloc)?;
    let _ = admit::media(wait, alloc, board, admitter, 0, 0, first)?;
    match admit::parity(wait, board, admitter, 0, shape, parity) {
        Some((_, key)) => Ok(key),
        None => Ok(None),
    }
}

// Whether it is that row.
fn is_row_of_four(answer: Asked) -> bool {
    match answer {
        Asked::Live {
            base,
            shape,
            parity,
        } => { base == 0 && shape.offset == 1 && shape.na == 4 && parity.same(&sum_of(0, shape)) }
        Asked::Gone { mark: _, epoch: _ } => false,
    }
}

// Whether a pass is told the row.
fn is_told(
    wait: &impl Wait,
    alloc: Global,
    board: &Board,
    admitter: &mut Admitter,
    pass: &mut Pass,
) -> Result<bool, AllocError>
    requires turn { admitter.old.seat.turn ≡ board.now.name }
    requires window { admitter.old.playout.window ≤ 100 }
    requires pass { pass.old.turn ≡ board.now.name }
{
    match row_of_four(wait, alloc, board, admitter)? {
        Some(key) => Ok(is_row_of_four(board.ask(wait, pass, key))),
        None => Ok(false),
    }
}

// Whether a pass of a new board is.
fn row_is_told(wait: &impl Wait, alloc: Global) -> Result<bool, AllocError> {
    let (board, mut admitter) = open(alloc, 10, 40, 0)?;
    let mut pass = board.pass(&mut admitter);
    is_told(wait, alloc, &board, &mut admitter, &mut pass)
}

#[test]
fn an_equation_is_asked_for(rt: HostRuntime) -> Result<(), Fail> {
    assert!(rt; row_is_told(&rt, rt.alloc())?);
    Ok(())
}
