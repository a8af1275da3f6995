//! Tallies of a board's equations, as who has the lock sees them.

ghost use Rattle.std.specs.Prelude.{◌≡◌, ◌⊎◌, IfSome, IsSomeAnd, Ok, None, Some};
ghost use Rattle.std.specs.List.{Contains};
ghost use Rattle.fg_words.specs.Word.{HasRoom};
ghost use Rattle.fg_peel.specs.Equation.{slots};
ghost use Rattle.fg_core.specs.Core.{look};
ghost use Rattle.fg_core.specs.declared.fate.Look.{Look as LookState};
ghost use Rattle.fg_board.specs.Actors.{TakesTurn};
ghost use Rattle.fg_tally.specs.Folding.{missing_of, with_folded, Tells};
ghost use Rattle.fg_tally.specs.Tally.{IsTally, IsPartOfSum, asked_of, Begins, Starts, IsLeft, Folds, FoldsBy, Settles, SettlesBy, ShowsHeld};
ghost use Rattle.fg_tally.specs.declared.answers.Folded.TheVariants.{Stale};

use crate::answers::{Begun, Folded, Held};
use crate::folding::{Folding, has_room};
use crate::missing::Missing;
use fg_board::laws::{codes_are_read_back, jobs_follow, passes_go_on};
use fg_board::{Asked, Board, Fate, Key, Look, Pass, Seen};
use fg_words::Word;
use std::alloc::{AllocError, Global};
use std::marker::Model;
use std::sync::Wait;

/// The running remainder of one equation at a time, with a pass of its board to ask and to bring what is found.
///
/// Contracts see its board, the standing of its pass, and what it holds.
#[derive(Drop)]
pub struct Tally<'b> {
    board: &'b Board,
    pass: Pass,
    folding: Option<Folding>,
}

impl<'b> Model for Tally<'b> {
    ghost use Rattle.fg_tally.specs.Tally.{TallyState, IsTally};
    ghost use Rattle.fg_tally.specs.Codings.{tally_code};

    ghost Value = { TallyState };

    ghost coded = { tally_code };

    ghost view = { λ t. record { board = t.board.now; pass = t.pass; held = t.folding } };

    ghost invariant = { λ t. IsTally (record { board = t.board.now; pass = t.pass; held = t.folding }) };
}

// Asks for the key's equation, and holds it.
fn begin(
    wait: &impl Wait,
    board: &Board,
    pass: &mut Pass,
    folding: &mut Option<Folding>,
    key: Key,
) -> Begun
    requires { pass.old.turn ≡ board.now.name }
    ensures turn { TakesTurn (look key None (asked_of result)) pass.old pass.new }
    ensures begins { IsSomeAnd pass.new.entered (λ entered. Begins entered key result folding.new) }
    ensures part { IfSome folding.new (IsPartOfSum pass.new) }
{
    match board.ask(wait, pass, key) {
        Asked::Live {
            base,
            shape,
            parity,
        } => {
            has_room(&parity);
            *folding = Some(Folding::new(key, base, shape, parity));
            Begun::Held
        }
        Asked::Gone { mark, epoch } => {
            *folding = None;
            Begun::Gone { mark, epoch }
        }
    }
}

// Folds the word that is known at a slot.
fn fold_word(folding: &mut Folding, slot: u64, word: &Word) -> Folded
    requires { Contains (slots folding.old.equation) slot }
    ensures folds { folding.new ≡ with_folded folding.old slot word.now }
    ensures tells { Tells folding.new result }
    ensures room { HasRoom word.now }
{
    has_room(word);
    folding.fold(slot, word);
    folding.answer()
}

// Looks at a slot, and folds the word that is known there.
fn fold_known(
    wait: &impl Wait,
    board: &Board,
    pass: &mut Pass,
    folding: &mut Folding,
    key: Key,
    slot: u64,
) -> Folded
    requires board { pass.old.turn ≡ board.now.name }
    requires key { folding.old.key ≡ key }
    requires slot { Contains (slots folding.old.equation) slot }
    requires part { IsPartOfSum pass.old folding.old }
    ensures folds { (looked : LookState) × TakesTurn (look key (Some slot) looked) pass.old pass.new
        × Folds folding.old slot looked result folding.new }
    ensures part { IsPartOfSum pass.new folding.new }
{
    codes_are_read_back();
    match board.see(wait, pass, key, slot) {
        Seen::Lent(share) => fold_word(folding, slot, share.word()),
        Seen::Told(Look::Known(word)) => fold_word(folding, slot, &word),
        Seen::Told(Look::Unknown) => Folded::Unknown,
        Seen::Told(Look::Gone { mark: _, epoch: _ }) => Folded::Stale,
    }
}

// Brings what follows from what was folded, where at most one slot is missing.
fn bring(
    wait: &impl Wait,
    alloc: Global,
    board: &Board,
    pass: &mut Pass,
    folding: &Folding,
    key: Key,
) -> Result<Option<Fate>, AllocError>
    requires board { pass.old.turn ≡ board.now.name }
    requires key { folding.now.key ≡ key }
    requires part { IsPartOfSum pass.old folding.now }
    ensures settles { Settles folding.now (missing_of folding.now) result pass.old pass.new }
    ensures part { IsPartOfSum pass.new folding.now }
    ensures board { pass.new.turn ≡ pass.old.turn }
{
    passes_go_on();
    jobs_follow();
    let rest = folding.remainder();
    match folding.missing() {
        Missing::Nothing => {
            let comes_out = rest.is_zero();
            Ok(Some(board.attest(wait, pass, key, comes_out)))
        }
        Missing::One(slot) => {
            let share = rest.share(alloc)?;
            Ok(Some(board.offer(wait, pass, key, slot, share)))
        }
        Missing::Several(_) => Ok(None),
    }
}

impl<'b> Tally<'b> {
    /// A tally of the board, which holds no key.
    pub(crate) fn new(board: &'b Board, pass: Pass) -> Tally<'b>
        requires { pass.turn ≡ board.now.name }
        ensures { result ≡ record { board = board.now; pass = pass; held = None } }
    {
        Tally {
            board,
            pass,
            folding: None,
        }
    }

    /// Starts with the key's equation, which it asks for in one turn of its pass. Where that is gone it holds no key
    /// afterwards.
    pub fn start(&mut self, wait: &impl Wait, key: Key) -> Begun
        ensures { Starts self.old key result self.new }
    {
        begin(wait, self.board, &mut self.pass, &mut self.folding, key)
    }

    /// Folds the word that is known at a slot of the key's equation, for which it looks in one turn of its pass. A slot
    /// that was folded before isn't folded again. Where it doesn't hold the key it takes no turn.
    pub fn fold(&mut self, wait: &impl Wait, key: Key, slot: u64) -> Folded
        requires { IfSome self.old.held (λ held. held.key ≡ key → Contains (slots held.equation) slot) }
        ensures { (IsLeft self.old key self.new × (result ≡ Stale)) ⊎ FoldsBy self.old key slot result self.new }
    {
        match &mut self.folding {
            Some(folding) => {
                if !folding.is_of(key) {
                    return Folded::Stale;
                }
                fold_known(wait, self.board, &mut self.pass, folding, key, slot)
            }
            None => Folded::Stale,
        }
    }

    /// Offers the remainder for the one slot that is missing, or attests whether it is zero where none is, in one turn of
    /// its pass. None where more are missing, or where it doesn't hold the key. Answers want of memory only where it holds
    /// the key and one slot is missing.
    pub fn settle(
        &mut self,
        wait: &impl Wait,
        alloc: Global,
        key: Key,
    ) -> Result<Option<Fate>, AllocError>
        ensures { (IsLeft self.old key self.new × (result ≡ Ok None)) ⊎ SettlesBy self.old key result self.new }
    {
        match &self.folding {
            Some(folding) => {
                if !folding.is_of(key) {
                    return Ok(None);
                }
                bring(wait, alloc, self.board, &mut self.pass, folding, key)
            }
            None => Ok(None),
        }
    }

    /// What it holds. None exactly where it holds no key.
    pub fn held(&self) -> Option<Held>
        ensures held { ShowsHeld self.now.held result }
        ensures tally { IsTally self.now }
    {
        match &self.folding {
            Some(folding) => Some(folding.held()),
            None => None,
        }
    }

    /// Whenever its lock is free, its pass is one of its board's, and what it holds is a part of its equation's sum.
    pub(crate) fn is_kept(&self)
        ensures { IsTally self.now }
    {
        // What holds of the fields is known where they are read.
        let _ = &self.folding;
    }
}
