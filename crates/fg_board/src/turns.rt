//! How turns end: what was done, and what it tells.

ghost use Rattle.std.specs.Prelude.{◌≡◌, ◌++◌, ◌∷◌, [], true, false, None, Some, IsSomeAnd};
ghost use Rattle.fg_core.specs.Steps.{IsStep};
ghost use Rattle.fg_core.specs.Codes.{call_code, told_code, GrowsFrom};
ghost use Rattle.fg_core.specs.Core.{Tells};
ghost use Rattle.fg_board.specs.Deeds.{event_of, told_of, told_by, Follows, call_of, named_by};
ghost use Rattle.fg_core.specs.Views.{seen_of};

use fg_core::laws::{answers_hold, codes_are_read_back, events_keep_owned, events_keep_told};
use fg_core::{Asked, Fate, Flow, Key, Seen, Skip, Work};
use fg_desk::{Played, Reply};
use fg_shape::Shape;
use fg_turn::{Named, Owner, Seat, Turn};
use fg_words::Shared;
use std::marker::Brand;
use std::snapshot::Snapshot;

/// What a pass did in its turn: what was asked, and the answer.
#[derive(Drop)]
pub(crate) enum Deed {
    Take(Snapshot<Option<Work>>),
    /// A word, and whether who brings it holds the job.
    Bring(bool, Key, u64, Snapshot<Shared>, Fate),
    /// A check, and whether who brings it holds the job.
    Check(bool, Key, bool, Fate),
    GiveBack(Key, Fate),
    Look(Key, u64, Snapshot<Seen>),
    Ask(Key, Snapshot<Asked>),
}

/// What the admitter did in its turn.
#[derive(Drop)]
pub(crate) enum Made {
    Media(u16, u32, Snapshot<Shared>, Reply),
    Parity(u16, Shape, Snapshot<Shared>, Reply, Option<Key>),
    Play(Played),
    Flush(Option<Played>),
    /// A held step at a time.
    Held(u64, Option<Played>),
    /// Which windows were passed, and how many.
    Skip(Skip, u64),
}

// Leaves what the deed made of the state, and is told what it tells.
fn tell<N: Named>(turn: &Turn<Flow>, seat: &mut Seat<Flow>, flow: Flow, deed: Deed)
    requires turn { (seat.old.turn ≡ turn.now.name) × (seat.old.inside ≡ true) }
    requires step { IsSomeAnd seat.old.entered (λ old. IsStep None old flow) }
    requires grows { GrowsFrom (told_by flow (event_of deed)) flow }
    requires named { N.entries ≡ told_by flow (event_of deed) }
    ensures { seat.new
        ≡ record seat.old {
          told = seat.old.told ++ told_by flow (event_of deed);
          inside = false;
          left = Some flow;
        } }
{
    let _ = deed;
    turn.leave::<N>(seat, flow);
}

/// Ends a pass's turn with what its deed made of the state.
pub(crate) fn settle(turn: &Turn<Flow>, seat: &mut Seat<Flow>, flow: Flow, deed: Deed)
    requires turn { (seat.old.turn ≡ turn.now.name) × (seat.old.inside ≡ true) }
    requires follows { IsSomeAnd seat.old.entered (λ old. Follows seat.old (event_of deed) old flow) }
    ensures tells { Tells flow (event_of deed) (told_of flow (event_of deed)) }
    ensures seat { seat.new
        ≡ record seat.old {
          told = seat.old.told ++ told_by flow (event_of deed);
          inside = false;
          left = Some flow;
        } }
{
    // The event keeps what the lock's rule says of the board, and what it tells holds.
    events_keep_owned();
    events_keep_told();
    answers_hold();
    codes_are_read_back();
    tell::<Brand>(turn, seat, flow, deed);
}

/// Ends a pass's turn that changed nothing and tells nothing.
pub(crate) fn skip(turn: &Turn<Flow>, seat: &mut Seat<Flow>, flow: Flow)
    requires turn { (seat.old.turn ≡ turn.now.name) × (seat.old.inside ≡ true) }
    requires same { seat.old.entered ≡ Some flow }
    ensures { seat.new ≡ record seat.old { inside = false; left = Some flow } }
{
    turn.leave::<Brand>(seat, flow);
}

/// As `tell` for the admitter, whose call is added to its calls.
pub(crate) fn tell_owner<N: Named>(
    turn: &Turn<Flow>,
    owner: &mut Owner<Flow>,
    flow: Flow,
    made: Made,
)
    requires turn { (owner.old.turn ≡ turn.now.name) × (owner.old.inside ≡ true) }
    requires step { IsSomeAnd owner.old.entered (λ old. IsStep (Some (call_code (call_of made))) old flow) }
    requires grows { GrowsFrom (told_code (seen_of flow) ∷ []) flow }
    requires named { N.entries ≡ named_by flow (call_of made) }
    ensures { owner.new
        ≡ record owner.old {
          calls = owner.old.calls ++ call_code (call_of made) ∷ [];
          told = owner.old.told ++ told_code (seen_of flow) ∷ [];
          inside = false;
          left = Some flow;
        } }
{
    let _ = made;
    turn.leave_owner::<N>(owner, flow);
}
