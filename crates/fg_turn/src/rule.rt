//! The rule of the table, and what each step tells.
use crate::guarded::{Guarded, Named};
use crate::view::View;
use atomic_table::{Join, Play, Split, TableRule};
use std::marker::PhantomData;
use std::snapshot::Snapshot;

/// Word 0 is the next ticket, word 1 the ticket that is served, and the slot has the state.
pub(crate) struct Rule;

impl<S: Guarded> TableRule<Option<S>, View<S>, Snapshot<S>> for Rule {
    ghost use Rattle.fg_turn.specs.Rule.{Ruled, unopened};

    ghost holds = { λ key. Ruled S.owner S.grows key.value };

    ghost first = { λ key. unopened };
}

/// The owner's calls begin with the list that `N` means.
pub(crate) struct Open<N> {
    named: PhantomData<N>,
}

impl<S, N: Named> Play<Option<S>, View<S>> for Open<N> {
    ghost use Rattle.fg_turn.specs.Plays.{opened};

    ghost then = { λ step. opened N.entries };
}

/// The seat draws a ticket.
pub(crate) struct Draw;

impl<S> Play<Option<S>, View<S>> for Draw {
    ghost use Rattle.fg_turn.specs.Plays.{drew};

    ghost then = { λ step. drew };
}

/// The seat looks at the ticket that is served. Where it is its own, it has the turn and the slot.
pub(crate) struct Look;

impl<S: Guarded> Play<Option<S>, View<S>> for Look {
    ghost use Rattle.fg_turn.specs.Plays.{looked};

    ghost then = { λ step. looked S.owner S.grows };
}

/// The turn ends, and the seat was told the list that `N` means.
pub(crate) struct Serve<N> {
    named: PhantomData<N>,
}

impl<S, N: Named> Play<Option<S>, View<S>> for Serve<N> {
    ghost use Rattle.std.specs.Prelude.{[]};
    ghost use Rattle.fg_turn.specs.Plays.{served};

    ghost then = { λ step. served [] N.entries };
}

/// The owner's turn ends. The first member of `N`'s list is its entry, and the others are told.
pub(crate) struct ServeOwner<N> {
    named: PhantomData<N>,
}

impl<S, N: Named> Play<Option<S>, View<S>> for ServeOwner<N> {
    ghost use Rattle.fg_turn.specs.Plays.{served};
    ghost use Rattle.fg_turn.specs.Entries.{entry_of, told_of};

    ghost then = { λ step. served (entry_of N.entries) (told_of N.entries) };
}

/// The owner looks at how many seats are out.
pub(crate) struct Count;

impl<S> Play<Option<S>, View<S>> for Count {
    ghost use Rattle.fg_turn.specs.Plays.{counted};

    ghost then = { λ step. counted };
}

/// The owner splits off a seat that was told nothing, or takes one back.
pub(crate) struct Pass;

impl<S> Split<View<S>> for Pass {
    ghost use Rattle.fg_turn.specs.Rule.{splitting, newcomer};

    ghost left = { splitting };

    ghost right = { newcomer };
}

impl<S> Join<View<S>> for Pass {
    ghost use Rattle.fg_turn.specs.Rule.{joining, spent};

    ghost both = { λ owner pass. joining owner };

    ghost spent = { spent };
}
