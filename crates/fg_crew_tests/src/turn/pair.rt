// The worked example: the owner's entries raise `a`, and steps without an entry raise `b`.
ghost use Rattle.std.specs.Prelude.{◌≡◌, ◌+◌, ◌<◌, ◌≤◌, ◌++◌, [], ◌∷◌, true, false, length, None, IfOk, IsSomeAnd};
ghost use Rattle.fg_crew_tests.specs.Examples.{Raises};

use fg_turn::{Guarded, Named, Owner, Seat, Turn};
use std::alloc::{AllocError, Global};
use std::marker::Brand;
use std::sync::Wait;
use std::test::*;
use std::thread::{Threads, join};

#[derive(Drop)]
pub(crate) struct Pair {
    pub(crate) a: u32,
    pub(crate) b: u32,
}

impl Guarded for Pair {
    ghost use Rattle.fg_crew_tests.specs.Examples.{Raises, Counts, Reached};
    ghost use Rattle.fg_crew_tests.specs.ExampleLaws.{counts_entry, counts_step, reached_stays, reached_both};

    ghost step = { λ entry old new. Raises entry old.a old.b new.a new.b };

    ghost owner = { λ calls pair. Counts calls pair.a pair.b };

    ghost grows = { λ told pair. Reached told pair.b };

    ghost extends = { λ calls entry old new is step.
        counts_entry calls entry old.a old.b new.a new.b is step };

    ghost keeps = { λ calls old new is step. counts_step calls old.a old.b new.a new.b is step };

    ghost stays = { λ calls told entry old new is step r.
        reached_stays told entry calls old.a old.b new.a new.b is step r };

    ghost untold = { λ pair. tt };

    ghost both = { λ first second pair r q. reached_both first second pair.b r q };
}

// One turn of the owner.
fn raise_a(wait: &impl Wait, turn: &Turn<Pair>, owner: &mut Owner<Pair>)
    requires turn { (owner.old.turn ≡ turn.now.name) × (owner.old.inside ≡ false) }
    requires few { length owner.old.calls < 4294967295 }
    ensures turn { (owner.new.turn ≡ turn.now.name) × (owner.new.inside ≡ false)
        × (owner.new.made ≡ owner.old.made) }
    ensures calls { length owner.new.calls ≡ length owner.old.calls + 1 }
{
    let mut pair = turn.enter_owner(wait, owner);
    pair.a += 1;
    turn.leave_owner::<Brand>(owner, pair);
}

// Ends a turn of a seat, which is told a number of the caller's own that the count has reached.
fn tell<N: Named>(turn: &Turn<Pair>, seat: &mut Seat<Pair>, pair: Pair, seen: u32)
    requires turn { (seat.old.turn ≡ turn.now.name) × (seat.old.inside ≡ true) }
    requires step { IsSomeAnd seat.old.entered (λ old. Raises None old.a old.b pair.a pair.b) }
    requires seen { (seen ≤ pair.b) × (N.entries ≡ (seen ∷ []) ∷ []) }
    ensures { seat.new
        ≡ record seat.old {
          told = seat.old.told ++ (seen ∷ []) ∷ [];
          inside = false;
          left = Some pair;
        } }
{
    turn.leave::<N>(seat, pair);
}

// One turn of a seat, which is told the count that it finds.
pub(crate) fn raise_b(wait: &impl Wait, turn: &Turn<Pair>, seat: &mut Seat<Pair>)
    requires { (seat.old.turn ≡ turn.now.name) × (seat.old.inside ≡ false) }
    ensures turn { (seat.new.turn ≡ turn.now.name) × (seat.new.inside ≡ false) }
    ensures turns { seat.new.turns ≡ seat.old.turns + 1 }
{
    let mut pair = turn.enter(wait, seat);
    let seen = pair.b;
    pair.b = seen.saturating_add(1);
    tell::<Brand>(turn, seat, pair, seen);
}

fn owner_turns(
    wait: &impl Wait,
    turn: &Turn<Pair>,
    mut owner: Owner<Pair>,
    count: u32,
) -> Owner<Pair>
    requires turn { (owner.turn ≡ turn.now.name) × (owner.inside ≡ false) }
    requires few { length owner.calls + count ≤ 4294967295 }
    ensures turn { (result.turn ≡ turn.now.name) × (result.inside ≡ false)
        × (result.made ≡ owner.made) }
    ensures calls { length result.calls ≡ length owner.calls + count }
{
    for _ in 0..count {
        raise_a(wait, turn, &mut owner);
    }
    owner
}

fn seat_turns(wait: &impl Wait, turn: &Turn<Pair>, mut seat: Seat<Pair>, count: u32) -> Seat<Pair>
    requires { (seat.turn ≡ turn.now.name) × (seat.inside ≡ false) }
    ensures turn { (result.turn ≡ turn.now.name) × (result.inside ≡ false) }
    ensures turns { result.turns ≡ seat.turns + count }
{
    for _ in 0..count {
        raise_b(wait, turn, &mut seat);
    }
    seat
}

fn both_seats<R: Threads + Wait + Sync>(
    rt: &R,
    turn: &Turn<Pair>,
    one: Seat<Pair>,
    two: Seat<Pair>,
) -> (Seat<Pair>, Seat<Pair>)
    requires one { (one.turn ≡ turn.now.name) × (one.inside ≡ false) }
    requires two { (two.turn ≡ turn.now.name) × (two.inside ≡ false) }
    ensures one { (result.0.turn ≡ turn.now.name) × (result.0.inside ≡ false) }
    ensures two { (result.1.turn ≡ turn.now.name) × (result.1.inside ≡ false) }
{
    join(
        rt,
        move ||
            requires { (one.turn ≡ turn.now.name) × (one.inside ≡ false) }
            ensures { (result.turn ≡ turn.entry.now.name) × (result.inside ≡ false) }
        { seat_turns(rt, turn, one, 1000) },
        move ||
            requires { (two.turn ≡ turn.now.name) × (two.inside ≡ false) }
            ensures { (result.turn ≡ turn.entry.now.name) × (result.inside ≡ false) }
        { seat_turns(rt, turn, two, 1000) },
    )
}

// The owner's turns beside those of two passes. The first count is proved, and the second is not.
fn worked<R: Threads + Wait + Sync>(rt: &R, alloc: Global) -> Result<Pair, AllocError>
    ensures { IfOk result (λ pair. pair.a ≡ 1000) }
{
    let (turn, mut owner) = Turn::new::<Brand>(alloc, Pair { a: 0, b: 0 }, 3)?;
    let one = turn.pass(&mut owner);
    let two = turn.pass(&mut owner);
    let lock = &turn;
    let (mut owner, (one, two)) = join(
        rt,
        move ||
            requires { (owner.turn ≡ lock.now.name) × (owner.inside ≡ false)
                × (length owner.calls + 1000 ≤ 4294967295) }
            ensures { (result.turn ≡ lock.entry.now.name) × (result.inside ≡ false)
                × (result.made ≡ owner.made)
                × (length result.calls ≡ length owner.calls + 1000) }
        { owner_turns(rt, lock, owner, 1000) },
        move ||
            requires { (one.turn ≡ lock.now.name) × (one.inside ≡ false)
                × (two.turn ≡ lock.now.name) × (two.inside ≡ false) }
            ensures { (result.0.turn ≡ lock.entry.now.name) × (result.0.inside ≡ false)
                × (result.1.turn ≡ lock.entry.now.name) × (result.1.inside ≡ false) }
        { both_seats(rt, lock, one, two) },
    );
    turn.back(&mut owner, one);
    turn.back(&mut owner, two);
    Ok(turn.close(owner))
}

#[test]
fn the_owner_and_two_passes_take_turns(rt: HostRuntime) -> Result<(), Fail> {
    let pair = worked(&rt, rt.alloc())?;
    assert_eq!(rt; (pair.a, pair.b), (1000, 2000));
    Ok(())
}
