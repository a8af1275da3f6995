// A small board: pass and admitter keep 'outside' in their own invariants, so no clause of a call speaks of it. The
// state is seen as a record with a finite map.
ghost use Rattle.std.specs.Prelude.{◌≡◌, ◌≢◌, ◌+◌, ◌<◌, ◌++◌, ◌↔◌, false, IfOk, IsSomeAnd, IsTrue};
ghost use Rattle.fg_crew_tests.specs.Board.{told_of_look};

use fg_turn::{Guarded, Owner, Seat, Turn};
use std::alloc::{AllocError, Global};
use std::marker::{Brand, Model};
use std::sync::Wait;
use std::test::*;

#[derive(Drop)]
struct Shelf {
    mark: u64,
    words: Vec<(u64, u64)>,
}

impl Model for Shelf {
    ghost use Rattle.std.specs.FinMap as map;
    ghost use Rattle.fg_crew_tests.specs.Board.{ShelfView, shelf_coded};

    ghost Value = { ShelfView };

    ghost coded = { shelf_coded };

    ghost view = { λ s. record { mark = s.mark; words = map.from_entries s.words.items } };
}

impl Guarded for Shelf {
    ghost use Rattle.std.specs.Prelude.{◌≤◌};
    ghost use Rattle.fg_crew_tests.specs.Examples.{Reached};
    ghost use Rattle.fg_crew_tests.specs.ExampleLaws.{reached_rises, reached_both};

    ghost step = { λ entry old new. old.mark ≤ new.mark };

    ghost owner = { λ calls shelf. Unit {0} };

    ghost grows = { λ told shelf. Reached told shelf.mark };

    ghost extends = { λ calls entry old new is step. tt };

    ghost keeps = { λ calls old new is step. tt };

    ghost stays = { λ calls told entry old new is step r.
        reached_rises told old.mark new.mark step r };

    ghost untold = { λ shelf. tt };

    ghost both = { λ first second shelf r q. reached_both first second shelf.mark r q };
}

/// What the threads share.
#[derive(Drop)]
struct Board {
    turn: Turn<Shelf>,
}

impl Model for Board {
    ghost use Rattle.fg_turn.specs.Standing.{TurnId, turn_id_coded};

    ghost Value = { TurnId };

    ghost coded = { turn_id_coded };

    ghost view = { λ b. b.turn };
}

#[derive(Drop)]
struct Admitter {
    owner: Owner<Shelf>,
}

impl Model for Admitter {
    ghost use Rattle.std.specs.Prelude.{◌≡◌, false};
    ghost use Rattle.fg_crew_tests.specs.Board.{ActorView, actor_coded};

    ghost Value = { ActorView };

    ghost coded = { actor_coded };

    ghost view = { λ a. record { seat = a.owner; looks = 0 } };

    ghost invariant = { λ a. a.owner.inside ≡ false };
}

/// A seat, which counts its looks.
#[derive(Drop)]
struct Pass {
    seat: Seat<Shelf>,
    looks: u64,
}

impl Model for Pass {
    ghost use Rattle.std.specs.Prelude.{◌≡◌, false};
    ghost use Rattle.fg_crew_tests.specs.Board.{ActorView, actor_coded};

    ghost Value = { ActorView };

    ghost coded = { actor_coded };

    ghost view = { λ p. record { seat = p.seat; looks = p.looks } };

    ghost invariant = { λ p. p.seat.inside ≡ false };
}

// Whether a place was played, in one turn. The seat is told how far it found the shelf played.
fn look_inside(wait: &impl Wait, turn: &Turn<Shelf>, seat: &mut Seat<Shelf>, place: u64) -> bool
    requires { (seat.old.turn ≡ turn.now.name) × (seat.old.inside ≡ false) }
    ensures turn { (seat.new.turn ≡ turn.now.name) × (seat.new.inside ≡ false) }
    ensures same { (seat.new.number ≡ seat.old.number) × (seat.new.turns ≡ seat.old.turns + 1) }
    ensures answer { IsSomeAnd seat.new.entered (λ shelf. IsTrue result ↔ place < shelf.mark) }
    ensures told { seat.new.told ≡ seat.old.told ++ told_of_look seat.new.entered }
{
    let shelf = turn.enter(wait, seat);
    let played = place < shelf.mark;
    turn.leave::<Brand>(seat, shelf);
    played
}

// Plays one place, in one turn. The mark that was found is the entry.
fn play_inside(wait: &impl Wait, turn: &Turn<Shelf>, owner: &mut Owner<Shelf>)
    requires { (owner.old.turn ≡ turn.now.name) × (owner.old.inside ≡ false) }
    ensures turn { (owner.new.turn ≡ turn.now.name) × (owner.new.inside ≡ false) }
    ensures turns { owner.new.turns ≡ owner.old.turns + 1 }
    ensures calls { owner.new.calls ≡ owner.old.calls ++ told_of_look owner.new.entered }
{
    let mut shelf = turn.enter_owner(wait, owner);
    shelf.mark = shelf.mark.saturating_add(1);
    turn.leave_owner::<Brand>(owner, shelf);
}

impl Board {
    /// A further pass.
    fn pass(&self, admitter: &mut Admitter) -> Pass
        requires turn { admitter.old.seat.turn ≡ self.now.name }
        requires room { admitter.old.seat.made + 1 < self.now.seats }
        ensures admitter { admitter.new
            ≡ record {
              seat = record admitter.old.seat {
                made = admitter.old.seat.made + 1;
                seated = admitter.old.seat.seated + 1;
              };
              looks = 0;
            } }
        ensures number { result.seat.number ≡ admitter.old.seat.seated }
        ensures pass { (result.seat.turn ≡ self.now.name) × (result.looks ≡ 0) }
    {
        let seat = self.turn.pass(&mut admitter.owner);
        Pass { seat, looks: 0 }
    }

    /// Plays one place.
    fn play(&self, wait: &impl Wait, admitter: &mut Admitter)
        requires { admitter.old.seat.turn ≡ self.now.name }
        ensures turn { admitter.new.seat.turn ≡ self.now.name }
        ensures turns { admitter.new.seat.turns ≡ admitter.old.seat.turns + 1 }
        ensures calls { admitter.new.seat.calls
            ≡ admitter.old.seat.calls ++ told_of_look admitter.new.seat.entered }
    {
        play_inside(wait, &self.turn, &mut admitter.owner);
    }

    /// Whether a place was played.
    fn look(&self, wait: &impl Wait, pass: &mut Pass, place: u64) -> bool
        requires { pass.old.seat.turn ≡ self.now.name }
        ensures same { (pass.new.seat.turn ≡ self.now.name)
            × (pass.new.seat.number ≡ pass.old.seat.number) }
        ensures turns { pass.new.seat.turns ≡ pass.old.seat.turns + 1 }
        ensures answer { IsSomeAnd pass.new.seat.entered
            (λ shelf. IsTrue result ↔ place < shelf.mark) }
        ensures told { pass.new.seat.told
            ≡ pass.old.seat.told ++ told_of_look pass.new.seat.entered }
    {
        pass.looks = pass.looks.saturating_add(1);
        look_inside(wait, &self.turn, &mut pass.seat, place)
    }
}

// Two passes of one board with equal views, which their numbers tell apart.
fn two_passes(board: &Board, admitter: &mut Admitter) -> (Pass, Pass)
    requires turn { admitter.old.seat.turn ≡ board.now.name }
    requires room { admitter.old.seat.made + 2 < board.now.seats }
    ensures turn { (result.0.seat.turn ≡ board.now.name) × (result.1.seat.turn ≡ board.now.name) }
    ensures apart { result.0.seat.number ≢ result.1.seat.number }
    ensures admitter { admitter.new.seat.turn ≡ board.now.name }
{
    let one = board.pass(admitter);
    let two = board.pass(admitter);
    (one, two)
}

fn open(alloc: Global, shelf: Shelf) -> Result<(Board, Admitter), AllocError>
    ensures { IfOk result (λ r. (r.0.seats ≡ 3) × (r.1.seat.turn ≡ r.0.name)
        × (r.1.seat.made ≡ 0)) }
{
    let (turn, owner) = Turn::new::<Brand>(alloc, shelf, 3)?;
    Ok((Board { turn }, Admitter { owner }))
}

#[test]
fn two_passes_look_at_a_shelf(rt: HostRuntime) -> Result<(), Fail> {
    let alloc: Global = rt.alloc();
    let words = vec![in alloc; (4u64, 40u64), (7, 70)]?;
    let (board, mut admitter) = open(alloc, Shelf { mark: 4, words })?;
    let (mut one, mut two) = two_passes(&board, &mut admitter);
    assert_eq!(rt; board.look(&rt, &mut one, 3), true);
    assert_eq!(rt; board.look(&rt, &mut two, 3), true);
    assert_eq!(rt; board.look(&rt, &mut two, 4), false);
    board.play(&rt, &mut admitter);
    assert_eq!(rt; board.look(&rt, &mut two, 4), true);
    assert_eq!(rt; (one.looks, two.looks), (1, 3));
    Ok(())
}
