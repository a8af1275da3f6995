//! A board: a flow's desk, and the turn in which one thread at a time works on it.

ghost use Rattle.std.specs.Prelude.{◌≡◌, ◌↔◌, ◌+◌, ◌-◌, ◌<◌, ◌≤◌, ℕ, [], ◌∷◌, map, false, Some, None, IfOk, IfErr, IfSome, IsSomeAnd, IsTrue, option_map};
ghost use Rattle.std.specs.FinMap.{get};
ghost use Rattle.fg_words.specs.Word.{zero_word};
ghost use Rattle.fg_peel.specs.declared.span.Missing.TheVariants.{One};
ghost use Rattle.fg_peel.specs.Equation.{Equation, IsComplete, IsSettled};
ghost use Rattle.fg_peel.specs.Slots.{IsMissing};
ghost use Rattle.fg_turn.specs.Standing.{owner_of, newcomer_of};
ghost use Rattle.fg_playout.specs.State.{Live};
ghost use Rattle.fg_desk.specs.Contents.{CanFill, known_in};
ghost use Rattle.fg_core.specs.Board.{IsCurrent, job_sum, look_of, look_seen, TellsEquation, TellsReadable};
ghost use Rattle.fg_core.specs.Codes.{told_from, opening_code};
ghost use Rattle.fg_core.specs.Core.{take, publish, vouch, give_back, look, offer, attest, IsEvent};
ghost use Rattle.fg_board.specs.Deeds.{brings, checks};
ghost use Rattle.fg_core.specs.Views.{IsWorked, IsChecked, WasAnswered};
ghost use Rattle.fg_board.specs.Actors.{TakenJob, IsLater, TakesTurn, TakesNoTurn};

use crate::admitter::Admitter;
use crate::job::Job;
use crate::pass::Pass;
use crate::turns::{Deed, settle, skip};
use fg_core::laws::{checked_come_out, codes_are_read_back, opening_is_owned, worked_words_follow};
use fg_core::{Asked, Fate, Flow, Key, Look, Seen, Work};
use fg_turn::{Seat, Turn};
use fg_words::Shared;
use fg_words::laws::xor_is_a_group;
use std::alloc::{AllocError, Global};
use std::marker::{Brand, Model};
use std::snapshot::Snapshot;
use std::sync::Wait;

/// What the threads of one flow share.
#[derive(Drop)]
pub struct Board {
    pub(crate) turn: Turn<Flow>,
    alloc: Global,
}

impl Model for Board {
    ghost use Rattle.fg_turn.specs.Standing.{TurnId, turn_id_coded};

    ghost Value = { TurnId };

    ghost coded = { turn_id_coded };

    ghost view = { λ b. b.turn };
}

// A take, in one turn.
fn take_inside(
    wait: &impl Wait,
    turn: &Turn<Flow>,
    alloc: Global,
    seat: &mut Seat<Flow>,
) -> Result<Option<Work>, AllocError>
    requires { (seat.old.turn ≡ turn.now.name) × (seat.old.inside ≡ false) }
    ensures outside { seat.new.inside ≡ false }
    ensures taken { IfOk result (λ work. TakesTurn (take work) seat.old seat.new) }
    ensures none { IfErr result (λ _. TakesNoTurn seat.old seat.new) }
{
    let mut flow = turn.enter(wait, seat);
    match flow.take(alloc) {
        Ok(work) => {
            settle(turn, seat, flow, Deed::Take(Snapshot::of(&work)));
            Ok(work)
        }
        Err(AllocError) => {
            skip(turn, seat, flow);
            Err(AllocError)
        }
    }
}

// Takes a word that is brought to the state: by who holds the job, which is given back, or by another one.
fn bring(flow: &mut Flow, key: Key, slot: u64, share: Shared, holds_job: bool) -> Fate
    requires { (live : Live) → IsCurrent flow.old key live → known_in flow.old.desk slot ≡ None
        → CanFill flow.old.desk live.equation slot share }
    ensures { IsEvent flow.old (brings holds_job key slot share result) flow.new }
{
    if holds_job {
        flow.publish(key, slot, share)
    } else {
        flow.offer(key, slot, share)
    }
}

// A word is brought, in one turn.
fn bring_inside(
    wait: &impl Wait,
    turn: &Turn<Flow>,
    seat: &mut Seat<Flow>,
    key: Key,
    slot: u64,
    share: Shared,
    holds_job: bool,
) -> Fate
    requires turn { (seat.old.turn ≡ turn.now.name) × (seat.old.inside ≡ false) }
    requires worked { (equation : Equation) × IsWorked (map told_from seat.old.told) key equation slot share }
    ensures outside { seat.new.inside ≡ false }
    ensures turn { TakesTurn (brings holds_job key slot share result) seat.old seat.new }
{
    worked_words_follow();
    let mut flow = turn.enter(wait, seat);
    let word = Snapshot::of(&share);
    let fate = bring(&mut flow, key, slot, share, holds_job);
    settle(
        turn,
        seat,
        flow,
        Deed::Bring(holds_job, key, slot, word, fate),
    );
    fate
}

// Takes a check to the state: by who holds the job, or by another one.
fn check(flow: &mut Flow, key: Key, zero: bool, holds_job: bool) -> Fate
    requires { IsTrue zero → (live : Live) → IsCurrent flow.old key live
        → IsSettled (known_in flow.old.desk) live.equation }
    ensures { IsEvent flow.old (checks holds_job key zero result) flow.new }
{
    if holds_job {
        flow.vouch(key, zero)
    } else {
        flow.attest(key, zero)
    }
}

// A check is brought, in one turn.
fn check_inside(
    wait: &impl Wait,
    turn: &Turn<Flow>,
    seat: &mut Seat<Flow>,
    key: Key,
    zero: bool,
    holds_job: bool,
) -> Fate
    requires turn { (seat.old.turn ≡ turn.now.name) × (seat.old.inside ≡ false) }
    requires checked { (equation : Equation) × IsChecked (map told_from seat.old.told) key equation zero }
    ensures outside { seat.new.inside ≡ false }
    ensures turn { TakesTurn (checks holds_job key zero result) seat.old seat.new }
{
    checked_come_out();
    let mut flow = turn.enter(wait, seat);
    let fate = check(&mut flow, key, zero, holds_job);
    settle(turn, seat, flow, Deed::Check(holds_job, key, zero, fate));
    fate
}

// A job is given back, in one turn.
fn give_back_inside(wait: &impl Wait, turn: &Turn<Flow>, seat: &mut Seat<Flow>, key: Key) -> Fate
    requires { (seat.old.turn ≡ turn.now.name) × (seat.old.inside ≡ false) }
    ensures outside { seat.new.inside ≡ false }
    ensures turn { TakesTurn (give_back key result) seat.old seat.new }
{
    let mut flow = turn.enter(wait, seat);
    let fate = flow.give_back(key);
    settle(turn, seat, flow, Deed::GiveBack(key, fate));
    fate
}

// A look, in one turn.
fn see_inside(
    wait: &impl Wait,
    turn: &Turn<Flow>,
    seat: &mut Seat<Flow>,
    key: Key,
    slot: u64,
) -> Seen
    requires { (seat.old.turn ≡ turn.now.name) × (seat.old.inside ≡ false) }
    ensures outside { seat.new.inside ≡ false }
    ensures turn { TakesTurn (look key (Some slot) (look_seen result)) seat.old seat.new }
{
    let flow = turn.enter(wait, seat);
    let answer = flow.see(key, slot);
    settle(
        turn,
        seat,
        flow,
        Deed::Look(key, slot, Snapshot::of(&answer)),
    );
    answer
}

// An equation is asked for, in one turn.
fn ask_inside(wait: &impl Wait, turn: &Turn<Flow>, seat: &mut Seat<Flow>, key: Key) -> Asked
    requires { (seat.old.turn ≡ turn.now.name) × (seat.old.inside ≡ false) }
    ensures outside { seat.new.inside ≡ false }
    ensures turn { TakesTurn (look key None (look_of result)) seat.old seat.new }
    ensures equation { IsSomeAnd seat.new.entered (λ board. TellsEquation board key result) }
    ensures told { WasAnswered (map told_from seat.new.told) key result }
    ensures readable { TellsReadable result }
{
    codes_are_read_back();
    let flow = turn.enter(wait, seat);
    let answer = flow.ask(key);
    settle(turn, seat, flow, Deed::Ask(key, Snapshot::of(&answer)));
    answer
}

impl Board {
    /// A new board for a flow whose plays close `window` positions, and for which a play is due where a datagram lies
    /// `depth` positions past the mark, with its admitter. A word is played once a time is told that is at least `hold`
    /// microseconds past its own, and with 0 no time plays it. The board can have up to `passes` passes at once.
    pub fn new(
        alloc: Global,
        window: u32,
        depth: u32,
        hold: u64,
        passes: u32,
    ) -> Result<(Board, Admitter), AllocError>
        requires window { (1 ≤ window) × (window ≤ 100) }
        requires depth { (window ≤ depth) × (depth ≤ 1000) }
        requires passes { passes ≤ 65534 }
        ensures seats { IfOk result (λ r. r.0.seats ≡ passes + 1) }
        ensures admitter { IfOk result (λ r. r.1
            ≡ record {
              seat = owner_of r.0.name (opening_code (record { window = window; depth = depth; hold = hold }) ∷ []);
              playout = record { window = window; depth = depth; hold = hold };
            }) }
    {
        opening_is_owned();
        let flow = Flow::new(alloc, window, depth, hold)?;
        let (turn, owner) = Turn::new::<Brand>(alloc, flow, passes + 1)?;
        Ok((
            Board { turn, alloc },
            Admitter::new(owner, window, depth, hold),
        ))
    }

    /// A further pass, which was told nothing. Its number is one that no pass of this board had before.
    pub fn pass(&self, admitter: &mut Admitter) -> Pass
        requires board { admitter.old.seat.turn ≡ self.now.name }
        requires room { admitter.old.seat.made + 1 < self.now.seats }
        ensures admitter { admitter.new
            ≡ record admitter.old {
              seat = record admitter.old.seat {
                made = admitter.old.seat.made + 1;
                seated = admitter.old.seat.seated + 1;
              };
            } }
        ensures pass { result ≡ newcomer_of self.now.name admitter.old.seat.seated admitter.old.seat.calls }
    {
        let seat = self.turn.pass(&mut admitter.seat.owner);
        Pass { seat }
    }

    /// Takes back a pass, which is one of those that are out.
    pub fn back(&self, admitter: &mut Admitter, pass: Pass)
        requires board { (admitter.old.seat.turn ≡ self.now.name) × (pass.turn ≡ self.now.name) }
        ensures out { 0 < admitter.old.seat.made }
        ensures admitter { admitter.new
            ≡ record admitter.old { seat = record admitter.old.seat { made = admitter.old.seat.made - 1 } } }
    {
        let Pass { seat } = pass;
        self.turn.back(&mut admitter.seat.owner, seat);
    }

    /// Ends the board, once every pass is back.
    pub fn close(self, admitter: Admitter)
        requires board { admitter.seat.turn ≡ self.name }
        requires back { admitter.seat.made ≡ 0 }
    {
        let Board { turn, alloc: _ } = self;
        let _flow = turn.close(admitter.into_owner());
    }

    /// Takes the open equation of the least serial number, in one turn. None exactly where no equation is open. Answers
    /// want of memory alone, which changes nothing.
    ///
    /// An equation is open where nobody else has it, a share of each word known at its slots can be lent, and either one
    /// slot has no word, or all have one and nobody found that it comes out.
    ///
    /// Jobs are for who builds on a board with workers of his own, by this call, `publish`, `vouch` and `give_back`. The
    /// program's workers help by key, by `see`, `offer` and `attest`.
    pub fn take(&self, wait: &impl Wait, pass: &mut Pass) -> Result<Option<Job>, AllocError>
        requires { pass.old.turn ≡ self.now.name }
        ensures taken { IfOk result (λ job. TakesTurn (take (option_map (λ (j : TakenJob). j.job) job)) pass.old pass.new) }
        ensures standing { IfOk result (λ job. IfSome job (λ job. job.taken ≡ pass.new)) }
        ensures later { IfOk result (λ job. IfSome job (λ job. IsLater job.taken pass.new)) }
        ensures none { IfErr result (λ _. TakesNoTurn pass.old pass.new) }
    {
        codes_are_read_back();
        match take_inside(wait, &self.turn, self.alloc, &mut pass.seat) {
            Ok(Some(work)) => Ok(Some(Job::new(work, &pass.seat))),
            Ok(None) => Ok(None),
            Err(AllocError) => Err(AllocError),
        }
    }

    /// Brings the word of a job's one slot that had none, in one turn, and gives the job back. No command calls it, as `take`.
    pub fn publish(&self, wait: &impl Wait, pass: &mut Pass, job: Job, share: Shared) -> Fate
        requires board { pass.old.turn ≡ self.now.name }
        requires taken { IsLater job.taken pass.old }
        requires word { ((slot : ℕ) × IsMissing (get job.job.inputs) job.job.equation (One slot)) × (share ≡ job_sum job.job) }
        ensures { (slot : ℕ) × IsMissing (get job.job.inputs) job.job.equation (One slot)
            × TakesTurn (publish job.job.key slot share result) pass.old pass.new }
    {
        let key = job.key();
        let slot = job.missing().unwrap();
        bring_inside(wait, &self.turn, &mut pass.seat, key, slot, share, true)
    }

    /// Brings whether the equation of a job comes out, whose slots all had words, in one turn. The job is given back where
    /// it does. No command calls it, as `take`.
    pub fn vouch(&self, wait: &impl Wait, pass: &mut Pass, job: Job, zero: bool) -> Fate
        requires board { pass.old.turn ≡ self.now.name }
        requires taken { IsLater job.taken pass.old }
        requires complete { IsComplete (get job.job.inputs) job.job.equation }
        requires zero { IsTrue zero ↔ (job_sum job.job ≡ zero_word) }
        ensures { TakesTurn (vouch job.job.key zero result) pass.old pass.new }
    {
        xor_is_a_group();
        job.work.room();
        check_inside(wait, &self.turn, &mut pass.seat, job.key(), zero, true)
    }

    /// Gives a job back as it is, in one turn. No command calls it, as `take`.
    pub fn give_back(&self, wait: &impl Wait, pass: &mut Pass, job: Job) -> Fate
        requires board { pass.old.turn ≡ self.now.name }
        requires taken { job.taken.turn ≡ self.now.name }
        ensures { TakesTurn (give_back job.job.key result) pass.old pass.new }
    {
        give_back_inside(wait, &self.turn, &mut pass.seat, job.key())
    }

    /// The word known at a position, asked in one turn by the key of an equation. The turn lends a share of it, so that the
    /// word is copied behind it, where it can be lent.
    pub fn look(&self, wait: &impl Wait, pass: &mut Pass, key: Key, slot: u64) -> Look
        requires { pass.old.turn ≡ self.now.name }
        ensures { TakesTurn (look key (Some slot) result) pass.old pass.new }
    {
        match self.see(wait, pass, key, slot) {
            Seen::Lent(share) => Look::Known(*share.word()),
            Seen::Told(look) => look,
        }
    }

    /// A look that gives a share of the word known at a position, where one can be lent, so that the word isn't copied at all.
    pub fn see(&self, wait: &impl Wait, pass: &mut Pass, key: Key, slot: u64) -> Seen
        requires { pass.old.turn ≡ self.now.name }
        ensures { TakesTurn (look key (Some slot) (look_seen result)) pass.old pass.new }
    {
        see_inside(wait, &self.turn, &mut pass.seat, key, slot)
    }

    /// The equation of a key, asked in one turn. It is a look that gives no word.
    pub fn ask(&self, wait: &impl Wait, pass: &mut Pass, key: Key) -> Asked
        requires { pass.old.turn ≡ self.now.name }
        ensures turn { TakesTurn (look key None (look_of result)) pass.old pass.new }
        ensures equation { IsSomeAnd pass.new.entered (λ board. TellsEquation board key result) }
        ensures told { WasAnswered (map told_from pass.new.told) key result }
        ensures readable { TellsReadable result }
    {
        ask_inside(wait, &self.turn, &mut pass.seat, key)
    }

    /// Brings the word of a slot of the key's equation, in one turn. It has to follow from what the pass was told.
    pub fn offer(
        &self,
        wait: &impl Wait,
        pass: &mut Pass,
        key: Key,
        slot: u64,
        share: Shared,
    ) -> Fate
        requires board { pass.old.turn ≡ self.now.name }
        requires word { (equation : Equation) × IsWorked (map told_from pass.old.told) key equation slot share }
        ensures { TakesTurn (offer key slot share result) pass.old pass.new }
    {
        bring_inside(wait, &self.turn, &mut pass.seat, key, slot, share, false)
    }

    /// Brings whether the key's equation comes out, in one turn. It has to follow from what the pass was told.
    pub fn attest(&self, wait: &impl Wait, pass: &mut Pass, key: Key, zero: bool) -> Fate
        requires board { pass.old.turn ≡ self.now.name }
        requires check { (equation : Equation) × IsChecked (map told_from pass.old.told) key equation zero }
        ensures { TakesTurn (attest key zero result) pass.old pass.new }
    {
        check_inside(wait, &self.turn, &mut pass.seat, key, zero, false)
    }
}
