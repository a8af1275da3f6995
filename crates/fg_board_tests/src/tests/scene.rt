//! A board, its admitter and three passes, of which each has one job at most.

ghost use Rattle.std.specs.Prelude.{◌≡◌, ◌+◌, ◌<◌, ◌≤◌, ◌↔◌, IfOk, IsTrue};
ghost use Rattle.std.specs.FinMap.{get};
ghost use Rattle.fg_words.specs.Word.{zero_word};
ghost use Rattle.fg_peel.specs.declared.span.Missing.TheVariants.{One};
ghost use Rattle.fg_peel.specs.Equation.{IsComplete};
ghost use Rattle.fg_peel.specs.Slots.{IsMissing};
ghost use Rattle.fg_core.specs.Board.{job_sum};
ghost use Rattle.fg_board.specs.Actors.{IsLater, IsWorkedBy, IsCheckedBy};

use super::admit;
use super::admit::Window;
use fg_board::{Admitter, Board, Fate, Job, Key, Look, Pass};
use fg_desk::{Played, Reply, Tray};
use fg_shape::Shape;
use fg_words::Shared;
use std::alloc::{AllocError, Global};
use std::marker::Model;
use std::sync::Wait;

/// A pass, with the job that it took last.
#[derive(Drop)]
pub(super) struct Hand {
    pass: Pass,
    job: Option<Job>,
}

impl Model for Hand {
    ghost use Rattle.std.specs.Prelude.{IfSome};
    ghost use Rattle.fg_turn.specs.Standing.{Standing, standing_coded};
    ghost use Rattle.fg_board.specs.Actors.{IsLater};
    ghost use Rattle.fg_core.specs.Board.{BoardState};
    ghost use Rattle.fg_core.specs.Codings.{board_code};

    ghost Value = { Standing BoardState };

    ghost coded = { standing_coded board_code };

    ghost view = { λ h. h.pass };

    ghost invariant = { λ h. IfSome h.job (λ job. IsLater job.taken h.pass) };
}

/// How a pass brings what it found of its job.
#[derive(Clone, Copy)]
pub(super) enum Way {
    /// With the job, which it has no more.
    Ending,
    /// By the key of the job, which it keeps.
    Keeping,
    /// By the key of the job, which it gives back first.
    BackFirst,
}

/// What a pass brought, and what it was answered.
#[derive(Clone, Copy, PartialEq)]
pub(super) struct Brought {
    /// Whether the equation comes out. None where it is the word of a slot that had none.
    pub zero: Option<bool>,
    /// The answer as the job was given back first.
    pub back: Option<Fate>,
    pub fate: Fate,
}

/// Takes a job. Answers the serial number of its equation, and the slot that has no word.
pub(super) fn take(
    wait: &impl Wait,
    board: &Board,
    hand: &mut Hand,
) -> Result<Option<(u64, Option<u64>)>, AllocError>
    requires { hand.old.turn ≡ board.now.name }
    ensures { hand.new.turn ≡ board.now.name }
{
    hand.job = None;
    let Some(job) = board.take(wait, &mut hand.pass)? else {
        return Ok(None);
    };
    let answer = (job.key().serial, job.missing());
    hand.job = Some(job);
    Ok(Some(answer))
}

// Gives the job back. None where there is none.
fn give_back(wait: &impl Wait, board: &Board, hand: &mut Hand) -> Option<Fate>
    requires { hand.old.turn ≡ board.now.name }
    ensures { hand.new.turn ≡ board.now.name }
{
    let job = hand.job.take()?;
    Some(board.give_back(wait, &mut hand.pass, job))
}

// Gives a job back. The pass was told what the job tells, and still is.
fn give_back_job(wait: &impl Wait, board: &Board, pass: &mut Pass, job: Job) -> Fate
    requires board { pass.old.turn ≡ board.now.name }
    requires taken { IsLater job.taken pass.old }
    ensures board { pass.new.turn ≡ board.now.name }
    ensures taken { IsLater job.taken pass.new }
{
    board.give_back(wait, pass, job)
}

// Brings the word of the slot that has none. Answers what became of the job where it was given back first, and of the word.
fn bring_word(
    wait: &impl Wait,
    board: &Board,
    hand: &mut Hand,
    job: Job,
    slot: u64,
    share: Shared,
    way: Way,
) -> (Option<Fate>, Fate)
    requires board { hand.old.turn ≡ board.now.name }
    requires taken { IsLater job.taken hand.old }
    requires missing { IsMissing (get job.job.inputs) job.job.equation (One slot) }
    requires word { share ≡ job_sum job.job }
    requires worked { IsWorkedBy job slot share }
    ensures { hand.new.turn ≡ board.now.name }
{
    let key = job.key();
    match way {
        Way::Ending => (None, board.publish(wait, &mut hand.pass, job, share)),
        Way::Keeping => {
            let fate = board.offer(wait, &mut hand.pass, key, slot, share);
            hand.job = Some(job);
            (None, fate)
        }
        Way::BackFirst => {
            hand.job = None;
            let back = give_back_job(wait, board, &mut hand.pass, job);
            (
                Some(back),
                board.offer(wait, &mut hand.pass, key, slot, share),
            )
        }
    }
}

// Brings whether the equation comes out. Answers what became of the job where it was given back first, and of the check.
fn bring_check(
    wait: &impl Wait,
    board: &Board,
    hand: &mut Hand,
    job: Job,
    zero: bool,
    way: Way,
) -> (Option<Fate>, Fate)
    requires board { hand.old.turn ≡ board.now.name }
    requires taken { IsLater job.taken hand.old }
    requires complete { IsComplete (get job.job.inputs) job.job.equation }
    requires zero { IsTrue zero ↔ (job_sum job.job ≡ zero_word) }
    requires checked { IsCheckedBy job zero }
    ensures { hand.new.turn ≡ board.now.name }
{
    let key = job.key();
    match way {
        Way::Ending => (None, board.vouch(wait, &mut hand.pass, job, zero)),
        Way::Keeping => {
            let fate = board.attest(wait, &mut hand.pass, key, zero);
            hand.job = Some(job);
            (None, fate)
        }
        Way::BackFirst => {
            hand.job = None;
            let back = give_back_job(wait, board, &mut hand.pass, job);
            (Some(back), board.attest(wait, &mut hand.pass, key, zero))
        }
    }
}

/// Does the job and brings what was found: the word of its slot that has none, or what its check says. None where there is no
/// job.
pub(super) fn bring(
    wait: &impl Wait,
    alloc: Global,
    board: &Board,
    hand: &mut Hand,
    way: Way,
) -> Result<Option<Brought>, AllocError>
    requires { hand.old.turn ≡ board.now.name }
    ensures { hand.new.turn ≡ board.now.name }
{
    let Some(job) = hand.job.take() else {
        return Ok(None);
    };
    match job.missing() {
        Some(slot) => {
            let share = job.solve(alloc)?;
            let (back, fate) = bring_word(wait, board, hand, job, slot, share, way);
            let zero = None;
            Ok(Some(Brought { zero, back, fate }))
        }
        None => {
            let zero = job.check();
            let (back, fate) = bring_check(wait, board, hand, job, zero, way);
            let zero = Some(zero);
            Ok(Some(Brought { zero, back, fate }))
        }
    }
}

// Looks at a position, with the job in the hand.
fn look(wait: &impl Wait, board: &Board, hand: &mut Hand, key: Key, slot: u64) -> Look
    requires { hand.old.turn ≡ board.now.name }
    ensures { hand.new.turn ≡ board.now.name }
{
    board.look(wait, &mut hand.pass, key, slot)
}

/// A further pass.
pub(super) fn further_hand(board: &Board, admitter: &mut Admitter) -> Hand
    requires board { admitter.old.seat.turn ≡ board.now.name }
    requires room { admitter.old.seat.made + 1 < board.now.seats }
    ensures admitter { admitter.new.seat.turn ≡ board.now.name }
    ensures made { admitter.new.seat.made ≡ admitter.old.seat.made + 1 }
    ensures window { admitter.new.playout.window ≡ admitter.old.playout.window }
    ensures pass { result.turn ≡ board.now.name }
{
    let pass = board.pass(admitter);
    Hand { pass, job: None }
}

/// A hand with this pass and no job.
pub(super) fn hand_of(pass: Pass) -> Hand
    ensures { result.turn ≡ pass.turn }
{
    Hand { pass, job: None }
}

/// The pass of a hand, without its job.
pub(super) fn pass_of(hand: Hand) -> Pass
    ensures { result.turn ≡ hand.turn }
{
    let Hand { pass, job: _ } = hand;
    pass
}

/// Takes a pass back.
pub(super) fn put_back(board: &Board, admitter: &mut Admitter, hand: Hand)
    requires { (admitter.old.seat.turn ≡ board.now.name) × (hand.turn ≡ board.now.name) }
    ensures { admitter.new.seat.turn ≡ board.now.name }
{
    let Hand { pass, job: _ } = hand;
    board.back(admitter, pass);
}

/// A board with room for three passes.
pub(super) fn open(
    alloc: Global,
    window: u32,
    depth: u32,
    hold: u64,
) -> Result<(Board, Admitter), AllocError>
    requires window { (1 ≤ window) × (window ≤ 100) }
    requires depth { (window ≤ depth) × (depth ≤ 1000) }
    ensures board { IfOk result (λ r. (r.1.seat.turn ≡ r.0.name) × (r.0.seats ≡ 4)) }
    ensures admitter { IfOk result (λ r. (r.1.seat.made ≡ 0) × (r.1.playout.window ≡ window)) }
{
    Board::new(alloc, window, depth, hold, 3)
}

/// Which pass.
#[derive(Clone, Copy)]
pub(super) enum Who {
    A,
    B,
    C,
}

/// A board, its admitter and three passes.
#[derive(Drop)]
pub(super) struct Scene {
    alloc: Global,
    board: Board,
    admitter: Admitter,
    a: Hand,
    b: Hand,
    c: Hand,
    /// Of the equations that were admitted, by their serial numbers.
    keys: Vec<Key>,
}

impl Model for Scene {
    ghost use Rattle.std.specs.Prelude.{◌≡◌, ◌≤◌};
    ghost use Rattle.fg_turn.specs.Standing.{TurnId, turn_id_coded};

    ghost Value = { TurnId };

    ghost coded = { turn_id_coded };

    ghost view = { λ s. s.board };

    ghost invariant = { λ s. (s.admitter.seat.turn ≡ s.board.name) × (s.admitter.playout.window ≤ 100)
        × (s.a.turn ≡ s.board.name) × (s.b.turn ≡ s.board.name) × (s.c.turn ≡ s.board.name) };
}

impl Scene {
    pub(super) fn new(
        alloc: Global,
        window: u32,
        depth: u32,
        hold: u64,
    ) -> Result<Scene, AllocError>
        requires window { (1 ≤ window) × (window ≤ 100) }
        requires depth { (window ≤ depth) × (depth ≤ 1000) }
    {
        let (board, mut admitter) = open(alloc, window, depth, hold)?;
        let a = further_hand(&board, &mut admitter);
        let b = further_hand(&board, &mut admitter);
        let c = further_hand(&board, &mut admitter);
        Ok(Scene {
            alloc,
            board,
            admitter,
            a,
            b,
            c,
            keys: Vec::new(alloc),
        })
    }

    /// Whether a play is due before a datagram of this sequence number and SSRC.
    pub(super) fn due(&self, seq: u16, ssrc: u32) -> bool {
        self.admitter.due(seq, ssrc)
    }

    /// Whether an SSRC is fresh.
    pub(super) fn fresh(&self, ssrc: u32) -> bool {
        self.admitter.fresh(ssrc)
    }

    /// How many runs were begun.
    pub(super) fn runs(&self) -> u64 {
        self.admitter.runs()
    }

    /// The first position that isn't played yet.
    pub(super) fn mark(&self) -> u64 {
        self.admitter.mark()
    }

    /// How many equations were admitted.
    pub(super) fn admitted(&self) -> usize {
        self.keys.len()
    }

    /// Whether a pass has a job.
    pub(super) fn is_busy(&self, who: Who) -> bool {
        match who {
            Who::A => self.a.job.is_some(),
            Who::B => self.b.job.is_some(),
            Who::C => self.c.job.is_some(),
        }
    }

    /// The allocator of its words.
    pub(super) fn alloc(&self) -> Global {
        self.alloc
    }

    /// Admits a media datagram. None where a play is due first, where a run begins and something is left to be shown first, or
    /// where the word is no media word.
    pub(super) fn media(
        &mut self,
        wait: &impl Wait,
        seq: u16,
        ssrc: u32,
        share: Shared,
    ) -> Result<Option<Reply>, AllocError> {
        let (board, admitter) = (&self.board, &mut self.admitter);
        admit::media(wait, self.alloc, board, admitter, seq, ssrc, share)
    }

    /// Admits a parity datagram. None where there is no such shape.
    pub(super) fn parity(
        &mut self,
        wait: &impl Wait,
        base: u16,
        shape: Shape,
        share: Shared,
    ) -> Result<Option<Reply>, AllocError> {
        let done = admit::parity(wait, &self.board, &mut self.admitter, base, shape, share);
        let Some((reply, key)) = done else {
            return Ok(None);
        };
        if let Some(key) = key {
            self.keys.push(key)?;
        }
        Ok(Some(reply))
    }

    /// Plays a window. None where there is no such one.
    pub(super) fn play(
        &mut self,
        wait: &impl Wait,
        window: Window,
    ) -> Result<Option<(Played, Tray)>, AllocError> {
        admit::play(wait, self.alloc, &self.board, &mut self.admitter, window)
    }

    /// Passes such windows that show nothing. Answers how many.
    pub(super) fn skip(&mut self, wait: &impl Wait, window: Window) -> u64 {
        match window {
            Window::Due(seq, ssrc) => self.admitter.skip_due(wait, &self.board, seq, ssrc),
            Window::Rest => self.admitter.skip_rest(wait, &self.board),
            Window::Held(time) if self.admitter.hold() > 0 => {
                self.admitter.skip_held(wait, &self.board, time)
            }
            Window::Held(_) => 0,
        }
    }

    pub(super) fn take(
        &mut self,
        wait: &impl Wait,
        who: Who,
    ) -> Result<Option<(u64, Option<u64>)>, AllocError> {
        match who {
            Who::A => take(wait, &self.board, &mut self.a),
            Who::B => take(wait, &self.board, &mut self.b),
            Who::C => take(wait, &self.board, &mut self.c),
        }
    }

    pub(super) fn give_back(&mut self, wait: &impl Wait, who: Who) -> Option<Fate> {
        match who {
            Who::A => give_back(wait, &self.board, &mut self.a),
            Who::B => give_back(wait, &self.board, &mut self.b),
            Who::C => give_back(wait, &self.board, &mut self.c),
        }
    }

    /// Brings what a pass finds of its job. None where it has none.
    pub(super) fn bring(
        &mut self,
        wait: &impl Wait,
        who: Who,
        way: Way,
    ) -> Result<Option<Brought>, AllocError> {
        match who {
            Who::A => bring(wait, self.alloc, &self.board, &mut self.a, way),
            Who::B => bring(wait, self.alloc, &self.board, &mut self.b, way),
            Who::C => bring(wait, self.alloc, &self.board, &mut self.c, way),
        }
    }

    /// Looks at a position by the key of a serial number. None where no such equation was admitted.
    pub(super) fn look(
        &mut self,
        wait: &impl Wait,
        who: Who,
        serial: usize,
        slot: u64,
    ) -> Option<Look> {
        let key = *self.keys.get(serial)?;
        Some(match who {
            Who::A => look(wait, &self.board, &mut self.a, key, slot),
            Who::B => look(wait, &self.board, &mut self.b, key, slot),
            Who::C => look(wait, &self.board, &mut self.c, key, slot),
        })
    }

    /// Takes all passes back and ends the board. Whether no pass is out.
    pub(super) fn close(self) -> bool {
        let Scene {
            alloc: _,
            board,
            mut admitter,
            a,
            b,
            c,
            keys: _,
        } = self;
        put_back(&board, &mut admitter, a);
        put_back(&board, &mut admitter, b);
        put_back(&board, &mut admitter, c);
        if admitter.made() != 0 {
            return false;
        }
        board.close(admitter);
        true
    }
}
