//! The turn, its owner and its seats.
ghost use Rattle.std.specs.Prelude.{◌≡◌, ◌+◌, ◌-◌, ◌<◌, ◌≤◌, Bool, true, false, [], ◌∷◌, ◌++◌, Option, Some, None, IfOk, IsSomeAnd};
ghost use mathlib.Core.List.{IsPrefix};
ghost use Rattle.fg_turn.specs.Entries.{entry_of, told_of};
ghost use Rattle.fg_turn.specs.Standing.{owner_of, newcomer_of, OwnerStep};

use crate::guarded::{Guarded, Named};
use crate::sleepers::Sleepers;
use crate::steps;
use crate::steps::{OwnedTable, TableSeat};
use atomic_table::{Refused, Table};
use std::alloc::{AllocError, Global};
use std::marker::Model;
use std::snapshot::Snapshot;
use std::sync::Wait;

/// A state that one seat at a time takes out and puts back, in the order in which they drew tickets.
///
/// To a contract it is its name and the greatest number of its seats. A seat is entered for one turn: [`Turn::enter`]
/// hands the state out, and [`Turn::leave`] takes the next one, which has to follow by one step.
#[derive(Drop)]
pub struct Turn<S: Guarded> {
    table: OwnedTable<S>,
    sleepers: Sleepers,
    seats: u32,
}

impl<S: Guarded> Model for Turn<S> {
    ghost use Rattle.std.specs.Prelude.{◌≡◌, ◌≤◌};
    ghost use Rattle.fg_turn.specs.Standing.{TurnId};

    ghost Value = { TurnId };

    ghost view = { λ t. record { name = t.table.shared.table_id; seats = t.seats } };

    ghost invariant = { λ t. (t.table.shared.table_id.words ≡ 2)
        × (t.table.shared.table_id.slots ≡ 1) × (t.seats ≤ 65535) };
}

/// The one seat of a turn whose steps have entries. A contract sees its standing.
#[derive(Drop)]
pub struct Owner<S: Guarded> {
    seat: TableSeat<S>,
    made: u32,
}

impl<S: Guarded> Model for Owner<S> {
    ghost use Rattle.std.specs.Prelude.{◌≡◌, ◌+◌, true};
    ghost use Rattle.fg_turn.specs.Standing.{Standing};

    ghost Value = { Standing S };

    ghost use Rattle.fg_turn.specs.Inside.{standing, BetweenCalls};

    ghost view = { λ o. standing o.seat o.made (o.seat.me.0.split + 1) };

    ghost invariant = { λ o. (o.seat.me.0.owns ≡ true)
        × (o.seat.me.0.joined + o.made ≡ o.seat.me.0.split)
        × BetweenCalls o.seat.me.0.place o.seat.me.1 };
}

/// A seat of a turn, for a thread of its own. A contract sees its standing.
#[derive(Drop)]
pub struct Seat<S: Guarded> {
    seat: TableSeat<S>,
}

impl<S: Guarded> Model for Seat<S> {
    ghost use Rattle.std.specs.Prelude.{◌≡◌, false};
    ghost use Rattle.fg_turn.specs.Standing.{Standing};

    ghost Value = { Standing S };

    ghost use Rattle.fg_turn.specs.Inside.{standing, BetweenCalls};

    ghost view = { λ s. standing s.seat 0 0 };

    ghost invariant = { λ s. (s.seat.me.0.owns ≡ false)
        × BetweenCalls s.seat.me.0.place s.seat.me.1 };
}

impl<S: Guarded> Turn<S> {
    /// A turn over `state`, for `seats` seats at once, of which the owner's is one. The owner's calls begin with the
    /// list that `N` means, of which the state has to be what they make. Only this call takes memory.
    pub fn new<N: Named>(
        alloc: Global,
        state: S,
        seats: u32,
    ) -> Result<(Turn<S>, Owner<S>), AllocError>
        requires seats { (1 ≤ seats) × (seats ≤ 65535) }
        requires owner { S.owner N.entries state }
        ensures { IfOk result (λ r. (r.0.seats ≡ seats) × (r.1 ≡ owner_of r.0.name N.entries)) }
    {
        let opened = Snapshot::of(&state);
        let mut slots = Vec::new(alloc);
        slots.push(Some(state))?;
        match Table::new(alloc, &[0, 0], slots, &opened) {
            Ok((table, mut seat)) => {
                steps::open::<S, N>(&table.shared, &mut seat);
                let sleepers = Sleepers::new();
                let turn = Turn {
                    table,
                    sleepers,
                    seats,
                };
                Ok((turn, Owner { seat, made: 0 }))
            }
            Err(Refused { slots: _ }) => Err(AllocError),
        }
    }

    /// A further seat, which has seen the owner's calls and was told nothing. Its number is one that no seat of this
    /// turn had before.
    pub fn pass(&self, owner: &mut Owner<S>) -> Seat<S>
        requires turn { owner.old.turn ≡ self.now.name }
        requires outside { owner.old.inside ≡ false }
        requires room { owner.old.made + 1 < self.now.seats }
        ensures owner { owner.new
            ≡ record owner.old { made = owner.old.made + 1; seated = owner.old.seated + 1 } }
        ensures seat { result ≡ newcomer_of self.now.name owner.old.seated owner.old.calls }
    {
        let seat = steps::split(&self.table.shared, &mut owner.seat, owner.made);
        owner.made += 1;
        Seat { seat }
    }

    /// Takes back a seat of this turn, which is one of those that are out.
    pub fn back(&self, owner: &mut Owner<S>, seat: Seat<S>)
        requires turn { (owner.old.turn ≡ self.now.name) × (seat.turn ≡ self.now.name) }
        requires outside { (owner.old.inside ≡ false) × (seat.inside ≡ false) }
        ensures out { 0 < owner.old.made }
        ensures owner { owner.new ≡ record owner.old { made = owner.old.made - 1 } }
    {
        let Seat { seat } = seat;
        steps::join(&self.table.shared, &mut owner.seat, seat);
        owner.made -= 1;
    }

    /// Waits for the seat's turn, and takes the state out. It is what the owner's calls so far make of it, which
    /// begin with those that the seat has seen, and the seat may rest on it for all that it was told.
    pub fn enter(&self, wait: &impl Wait, seat: &mut Seat<S>) -> S
        requires turn { seat.old.turn ≡ self.now.name }
        requires outside { seat.old.inside ≡ false }
        ensures owner { S.owner seat.new.calls result }
        ensures grows { S.grows seat.old.told result }
        ensures calls { IsPrefix seat.old.calls seat.new.calls }
        ensures seat { seat.new
            ≡ record seat.old {
              calls = seat.new.calls;
              turns = seat.old.turns + 1;
              inside = true;
              entered = Some result;
            } }
    {
        steps::take(wait, &self.table.shared, &self.sleepers, &mut seat.seat)
    }

    /// Ends the seat's turn with a state that follows the one entered by a step without an entry. The seat is told
    /// the list that `N` means, which it may rest on.
    pub fn leave<N: Named>(&self, seat: &mut Seat<S>, state: S)
        requires turn { seat.old.turn ≡ self.now.name }
        requires inside { seat.old.inside ≡ true }
        requires step { IsSomeAnd seat.old.entered (λ old. S.step None old state) }
        requires grows { S.grows N.entries state }
        ensures { seat.new
            ≡ record seat.old {
              told = seat.old.told ++ N.entries;
              inside = false;
              left = Some state;
            } }
    {
        steps::serve::<S, N>(&self.table.shared, &self.sleepers, &mut seat.seat, state);
    }

    /// As [`Turn::enter`] for the owner, who has seen all its calls.
    pub fn enter_owner(&self, wait: &impl Wait, owner: &mut Owner<S>) -> S
        requires turn { owner.old.turn ≡ self.now.name }
        requires outside { owner.old.inside ≡ false }
        ensures owner { S.owner owner.old.calls result }
        ensures grows { S.grows owner.old.told result }
        ensures seat { owner.new
            ≡ record owner.old {
              turns = owner.old.turns + 1;
              inside = true;
              entered = Some result;
            } }
    {
        steps::take(wait, &self.table.shared, &self.sleepers, &mut owner.seat)
    }

    /// As [`Turn::leave`] for the owner, by a step with an entry: the first member of the list that `N` means, which
    /// is added to the owner's calls. The others are told.
    pub fn leave_owner<N: Named>(&self, owner: &mut Owner<S>, state: S)
        requires turn { owner.old.turn ≡ self.now.name }
        requires inside { owner.old.inside ≡ true }
        requires step { OwnerStep S.step N.entries owner.old.entered state }
        requires grows { S.grows (told_of N.entries) state }
        ensures { owner.new
            ≡ record owner.old {
              calls = owner.old.calls ++ entry_of N.entries;
              told = owner.old.told ++ told_of N.entries;
              inside = false;
              left = Some state;
            } }
    {
        steps::serve_owner::<S, N>(&self.table.shared, &self.sleepers, &mut owner.seat, state);
    }

    /// The state, once every pass is back. It is what the owner's calls make of it.
    pub fn close(self, owner: Owner<S>) -> S
        requires turn { owner.turn ≡ self.name }
        requires outside { owner.inside ≡ false }
        requires back { owner.made ≡ 0 }
        ensures owner { S.owner owner.calls result }
        ensures grows { S.grows owner.told result }
    {
        let Turn {
            table,
            sleepers: _,
            seats: _,
        } = self;
        let Owner { seat, made: _ } = owner;
        steps::gather(table, seat).unwrap()
    }
}

impl<S: Guarded> Owner<S> {
    /// How many passes are out.
    pub fn made(&self) -> u32
        ensures { result ≡ self.now.made }
    {
        self.made
    }
}
