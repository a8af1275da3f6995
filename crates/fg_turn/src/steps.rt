//! The atomic steps of a turn, and how a seat waits for its ticket.
ghost use Rattle.std.specs.Prelude.{◌≡◌, ℕ, ◌+◌, ◌%◌, ◌^◌, ◌<◌, ◌≤◌, true, [], ◌∷◌, ◌⊎◌, Option, Some, None, IsSomeAnd};
ghost use Rattle.fg_turn.specs.declared.view.Place.TheVariants.{Outside, Waiting};
ghost use Rattle.fg_turn.specs.Entries.{Entry, entry_of, told_of};
ghost use Rattle.fg_turn.specs.Rule.{unopened, splitting, newcomer, joining};
ghost use Rattle.fg_turn.specs.Plays.{opening_with, waiting, Has, HasSeen, leaving};
ghost use Rattle.fg_turn.specs.Inside.{IsOf, IsSame, InTurn};

use crate::guarded::{Guarded, Named};
use crate::rule::{Count, Draw, Look, Open, Pass, Rule, Serve, ServeOwner};
use crate::sleepers::Sleepers;
use crate::view::View;
use atomic_table::{Seat, Shared, Table};
use std::alloc::Global;
use std::hint;
use std::snapshot::Snapshot;
use std::sync::Wait;

/// The ticket that is drawn next.
const NEXT: usize = 0;

/// The ticket that is served.
const SERVING: usize = 1;

/// Where the state lies.
const STATE: usize = 0;

/// How often a seat that waits looks before it sleeps.
const LOOKS: u32 = 1000;

/// The words and the slot of a turn.
pub(crate) type SharedTable<S> = Shared<Option<S>, View<S>, Snapshot<S>, Rule>;

/// The table with its memory.
pub(crate) type OwnedTable<S> = Table<Option<S>, View<S>, Snapshot<S>, Rule, Global>;

/// What a seat knows and holds.
pub(crate) type TableSeat<S> = Seat<Option<S>, View<S>>;

// Takes a ticket.
fn draw<S: Guarded>(table: &SharedTable<S>, seat: &mut TableSeat<S>) -> u64
    requires table { IsOf table.now.table_id seat.old }
    requires outside { seat.old.me.0.place ≡ Outside }
    ensures same { IsSame seat.old seat.new }
    ensures ticket { (t : ℕ) × (result ≡ t % 2 ^ 64)
        × (seat.new.me ≡ (waiting t seat.old.me.0, seat.old.me.1)) }
{
    table.fetch_add::<Draw>(seat, NEXT, 1)
}

// What a seat that waits does between two looks, and how many looks it then has behind it. It looks again at once so
// often, then it announces that it will sleep and looks once more, and then it sleeps and begins anew.
fn pause(wait: &impl Wait, sleepers: &Sleepers, ticket: u64, looks: u32) -> u32 {
    if looks < LOOKS {
        hint::spin_loop();
        looks + 1
    } else if looks == LOOKS {
        sleepers.announce(ticket);
        looks + 1
    } else {
        sleepers.sleep(wait, ticket);
        0
    }
}

// Waits until the ticket is served.
fn await_ticket<S: Guarded>(
    wait: &impl Wait,
    table: &SharedTable<S>,
    sleepers: &Sleepers,
    seat: &mut TableSeat<S>,
    ticket: u64,
)
    requires table { IsOf table.now.table_id seat.old }
    requires waits { (t : ℕ) × (seat.old.me.0.place ≡ Waiting t) × (ticket ≡ t % 2 ^ 64) }
    ensures same { IsSame seat.old seat.new }
    ensures has { Has S.owner S.grows seat.old.me seat.new.me }
{
    let mut looks = 0;
    for _ in wait.forever() {
        let serving = table.load::<Look>(seat, SERVING);
        if serving == ticket {
            return;
        }
        looks = pause(wait, sleepers, ticket, looks);
    }
    unreachable!()
}

// Waits for a turn, and takes the state out.
pub(crate) fn take<S: Guarded>(
    wait: &impl Wait,
    table: &SharedTable<S>,
    sleepers: &Sleepers,
    seat: &mut TableSeat<S>,
) -> S
    requires table { IsOf table.now.table_id seat.old }
    requires outside { (seat.old.me.0.place ≡ Outside) × (seat.old.me.1 ≡ []) }
    ensures same { IsSame seat.old seat.new }
    ensures taken { HasSeen S.owner S.grows seat.old.me.0 seat.new.me result }
{
    let ticket = draw(table, seat);
    await_ticket(wait, table, sleepers, seat, ticket);
    table.exchange(seat, STATE, None).unwrap()
}

// Puts the state into the slot that the seat holds.
fn put<S: Guarded>(table: &SharedTable<S>, seat: &mut TableSeat<S>, state: S)
    requires table { IsOf table.now.table_id seat.old }
    requires empty { seat.old.me.1 ≡ (0, None) ∷ [] }
    ensures same { IsSame seat.old seat.new }
    ensures put { seat.new.me ≡ (seat.old.me.0, (0, Some state) ∷ []) }
{
    match table.exchange(seat, STATE, Some(state)) {
        None => {}
        Some(_) => unreachable!(),
    }
}

// Puts the state back and ends the turn, and the seat was told what `N` means. Wakes the seat whose ticket is next.
pub(crate) fn serve<S: Guarded, N: Named>(
    table: &SharedTable<S>,
    sleepers: &Sleepers,
    seat: &mut TableSeat<S>,
    state: S,
)
    requires table { IsOf table.now.table_id seat.old }
    requires inside { InTurn seat.old.me }
    requires step { (old : S) × (seat.old.me.0.entered ≡ Some old) × S.step None old state }
    requires grows { S.grows N.entries state }
    ensures same { IsSame seat.old seat.new }
    ensures left { seat.new.me ≡ (leaving [] N.entries (Some state) seat.old.me.0, []) }
{
    put(table, seat, state);
    let served = table.fetch_add::<Serve<N>>(seat, SERVING, 1);
    sleepers.wake(served.wrapping_add(1));
}

// The same for the owner: the first member of what `N` means is its entry, and the others are told.
pub(crate) fn serve_owner<S: Guarded, N: Named>(
    table: &SharedTable<S>,
    sleepers: &Sleepers,
    seat: &mut TableSeat<S>,
    state: S,
)
    requires table { IsOf table.now.table_id seat.old }
    requires inside { InTurn seat.old.me × (seat.old.me.0.owns ≡ true) }
    requires step { (entry : Entry) × (old : S) × (entry_of N.entries ≡ entry ∷ [])
        × (seat.old.me.0.entered ≡ Some old) × S.step (Some entry) old state }
    requires grows { S.grows (told_of N.entries) state }
    ensures same { IsSame seat.old seat.new }
    ensures left { seat.new.me
        ≡ (leaving (entry_of N.entries) (told_of N.entries) (Some state) seat.old.me.0, []) }
{
    put(table, seat, state);
    let served = table.fetch_add::<ServeOwner<N>>(seat, SERVING, 1);
    sleepers.wake(served.wrapping_add(1));
}

// Lets the owner's calls begin with what `N` means.
pub(crate) fn open<S: Guarded, N: Named>(table: &SharedTable<S>, seat: &mut TableSeat<S>)
    requires table { IsOf table.now.table_id seat.old }
    requires unopened { seat.old.me.0 ≡ unopened }
    requires owner { S.owner N.entries table.now.key.value }
    ensures same { IsSame seat.old seat.new }
    ensures opened { seat.new.me ≡ (opening_with N.entries seat.old.me.0, seat.old.me.1) }
{
    table.load::<Open<N>>(seat, NEXT);
}

// Splits off a seat for a thread of its own.
pub(crate) fn split<S: Guarded>(
    table: &SharedTable<S>,
    owner: &mut TableSeat<S>,
    made: u32,
) -> TableSeat<S>
    requires table { IsOf table.now.table_id owner.old }
    requires owner { (owner.old.me.0.owns ≡ true) × (owner.old.me.0.place ≡ Outside) }
    requires room { (owner.old.me.0.joined + made ≡ owner.old.me.0.split) × (made + 2 < 65536) }
    ensures same { IsSame owner.old owner.new × IsOf owner.old.table_id result }
    ensures owner { owner.new.me ≡ (splitting owner.old.me.0, owner.old.me.1) }
    ensures seat { result.me ≡ (newcomer owner.old.me.0, []) }
{
    table.split_seat::<Pass>(owner)
}

// Takes a seat back, which was one of those that are out.
pub(crate) fn join<S: Guarded>(table: &SharedTable<S>, owner: &mut TableSeat<S>, pass: TableSeat<S>)
    requires table { IsOf table.now.table_id owner.old × IsOf table.now.table_id pass }
    requires owner { (owner.old.me.0.owns ≡ true) × (owner.old.me.0.place ≡ Outside) }
    requires pass { (pass.me.0.place ≡ Outside) × (pass.me.1 ≡ []) }
    ensures same { IsSame owner.old owner.new }
    ensures owner { owner.new.me ≡ (joining owner.old.me.0, owner.old.me.1) }
    ensures counted { owner.new.me.0.joined ≤ owner.new.me.0.split }
{
    table.join_seat::<Pass>(owner, pass);
    table.load::<Count>(owner, NEXT);
}

// The state, once no pass is out.
pub(crate) fn gather<S: Guarded>(table: OwnedTable<S>, owner: TableSeat<S>) -> Option<S>
    requires table { IsOf table.shared.table_id owner }
    requires owner { (owner.me.0.owns ≡ true) × (owner.me.0.place ≡ Outside) }
    requires back { owner.me.0.joined ≡ owner.me.0.split }
    ensures { IsSomeAnd result (λ x. S.owner owner.me.0.calls x × S.grows owner.me.0.told x) }
{
    let mut closed = table.close_with(owner);
    let state = closed.take(STATE);
    closed.free();
    state
}
