// A state of another shape, a stock that only shrinks, and a turn through a bound.
ghost use Rattle.std.specs.Prelude.{◌≡◌, ◌+◌, ◌≤◌, [], ◌∷◌, false, length, None, IfOk, IsSomeAnd};

use fg_turn::{Guarded, Owner, Seat, Turn};
use std::alloc::{AllocError, Global};
use std::marker::Brand;
use std::sync::Wait;
use std::test::*;

#[derive(Drop)]
struct Stock {
    items: Vec<u8>,
}

impl Guarded for Stock {
    ghost use Rattle.fg_crew_tests.specs.Examples.{Takes, IsLeft, WasSeen};
    ghost use Rattle.fg_crew_tests.specs.ExampleLaws.{left_entry, left_step, seen_stays, seen_both};

    ghost step = { λ entry old new. Takes entry old.items.items new.items.items };

    ghost owner = { λ calls stock. IsLeft calls stock.items.items };

    ghost grows = { λ told stock. WasSeen told stock.items.items };

    ghost extends = { λ calls entry old new is step.
        left_entry calls entry old.items.items new.items.items is step };

    ghost keeps = { λ calls old new is step.
        left_step calls old.items.items new.items.items is step };

    ghost stays = { λ calls told entry old new is step r.
        seen_stays told entry old.items.items new.items.items step r };

    ghost untold = { λ stock. tt };

    ghost both = { λ first second stock r q. seen_both first second stock.items.items r q };
}

/// A state with a step of its own.
trait Change: Guarded {
    fn change(self) -> Self
        ensures { Self.step None self result };
}

impl Change for Stock {
    fn change(mut self) -> Stock {
        self.items.pop();
        self
    }
}

// One turn, of whatever state.
fn change_once<S: Change>(wait: &impl Wait, turn: &Turn<S>, seat: &mut Seat<S>)
    requires { (seat.old.turn ≡ turn.now.name) × (seat.old.inside ≡ false) }
    ensures turn { (seat.new.turn ≡ turn.now.name) × (seat.new.inside ≡ false) }
    ensures turns { seat.new.turns ≡ seat.old.turns + 1 }
    ensures step { IsSomeAnd seat.new.entered (λ old. IsSomeAnd seat.new.left (S.step None old)) }
{
    let state = turn.enter(wait, seat);
    turn.leave::<Brand>(seat, state.change());
}

// Two looks, of which the second finds no more than the first.
fn look_twice(wait: &impl Wait, turn: &Turn<Stock>, seat: &mut Seat<Stock>) -> (usize, usize)
    requires { (seat.old.turn ≡ turn.now.name) × (seat.old.inside ≡ false) }
    ensures turn { (seat.new.turn ≡ turn.now.name) × (seat.new.inside ≡ false) }
    ensures fewer { result.1 ≤ result.0 }
{
    let stock = turn.enter(wait, seat);
    let first = stock.items.len();
    turn.leave::<Brand>(seat, stock);
    let stock = turn.enter(wait, seat);
    let second = stock.items.len();
    turn.leave::<Brand>(seat, stock);
    (first, second)
}

// The owner takes all.
fn take_all(wait: &impl Wait, turn: &Turn<Stock>, owner: &mut Owner<Stock>)
    requires { (owner.old.turn ≡ turn.now.name) × (owner.old.inside ≡ false) }
    ensures turn { (owner.new.turn ≡ turn.now.name) × (owner.new.inside ≡ false)
        × (owner.new.made ≡ owner.old.made) }
    ensures calls { length owner.new.calls ≡ length owner.old.calls + 1 }
{
    let mut stock = turn.enter_owner(wait, owner);
    stock.items.clear();
    turn.leave_owner::<Brand>(owner, stock);
}

// The turn of a stock begins with one entry, the opening stock.
fn open(alloc: Global, stock: Stock) -> Result<(Turn<Stock>, Owner<Stock>), AllocError>
    ensures { IfOk result (λ r. (r.0.seats ≡ 2) × (r.1.turn ≡ r.0.name) × (r.1.inside ≡ false)
        × (r.1.calls ≡ stock.items.items ∷ []) × (r.1.made ≡ 0)) }
{
    Turn::new::<Brand>(alloc, stock, 2)
}

#[test]
fn a_stock_shrinks(rt: HostRuntime) -> Result<(), Fail> {
    let alloc: Global = rt.alloc();
    let (turn, mut owner) = open(
        alloc,
        Stock {
            items: vec![in alloc; 3, 1, 4]?,
        },
    )?;
    let mut seat = turn.pass(&mut owner);
    assert_eq!(rt; owner.made(), 1);
    change_once(&rt, &turn, &mut seat);
    assert_eq!(rt; look_twice(&rt, &turn, &mut seat), (2, 2));
    take_all(&rt, &turn, &mut owner);
    assert_eq!(rt; look_twice(&rt, &turn, &mut seat), (0, 0));
    turn.back(&mut owner, seat);
    assert_eq!(rt; turn.close(owner).items.len(), 0);
    Ok(())
}
