//! What the rule says that every atomic step of a turn keeps. Each law is the contract of a function that does nothing.
ghost use Rattle.fg_turn.specs.Laws.{TicketsCount, FewTickets, TicketsApart, NumbersApart, OneTurn, TurnIsServed, SeesABeginning, TurnSeesAll, HomeState, EnteredState};

use crate::guarded::Guarded;

/// The ticket served and the number of tickets that are out give the next ticket.
pub fn tickets_count<S: Guarded>()
    ensures { TicketsCount S.owner S.grows }
{}

/// Fewer than 65,536 tickets are out.
pub fn few_tickets<S: Guarded>()
    ensures { FewTickets S.owner S.grows }
{}

/// Tickets that are out are distinct.
pub fn tickets_apart<S: Guarded>()
    ensures { TicketsApart S.owner S.grows }
{}

/// Seats have distinct numbers, but for those that were brought back.
pub fn numbers_apart<S: Guarded>()
    ensures { NumbersApart S.owner S.grows }
{}

/// At most one seat has the turn.
pub fn one_turn<S: Guarded>()
    ensures { OneTurn S.owner S.grows }
{}

/// It is the seat whose ticket is served.
pub fn turn_is_served<S: Guarded>()
    ensures { TurnIsServed S.owner S.grows }
{}

/// What each seat has seen is a beginning of the owner's calls.
pub fn sees_a_beginning<S: Guarded>()
    ensures { SeesABeginning S.owner S.grows }
{}

/// Whoever has the turn has seen all the owner's calls, so the list that an entering seat gets is the owner's.
pub fn turn_sees_all<S: Guarded>()
    ensures { TurnSeesAll S.owner S.grows }
{}

/// Whenever no seat has the turn, the state is in the slot. It is what the owner's calls make of it, and every seat
/// may rest on it for what that seat was told.
pub fn home_state<S: Guarded>()
    ensures { HomeState S.owner S.grows }
{}

/// While a seat has the turn, the same holds of the state that it entered.
pub fn entered_state<S: Guarded>()
    ensures { EnteredState S.owner S.grows }
{}
