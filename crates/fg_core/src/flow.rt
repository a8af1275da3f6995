//! The state of a board: a desk, and which of its live equations are handed out and which were vouched for.

ghost use Rattle.std.specs.Prelude.{◌≡◌, ◌≢◌, ◌↔◌, ◌+◌, ◌<◌, ◌≤◌, ◌^◌, length, replicate, Some, None, Option, IsSome, IfOk, IfErr, IfSome, IfNone, IsTrue, option_map};
ghost use Rattle.std.specs.FinMap.{get};
ghost use Rattle.fg_words.specs.Word.{IsMedia};
ghost use Rattle.fg_shape.specs.Shape.{IsShape};
ghost use Rattle.fg_peel.specs.Equation.{IsSettled};
ghost use Rattle.fg_peel.specs.Live.{live_limit};
ghost use Rattle.fg_playout.specs.State.{Live, current};
ghost use Rattle.fg_playout.specs.Admission.{IsDue, IsFresh};
ghost use Rattle.fg_playout.specs.Play.{HasMore};
ghost use Rattle.fg_playout.specs.Room.{HasRoom};
ghost use Rattle.fg_playout.specs.Laws.{HavePlayed, AreFlushSteps, AreHeldSteps};
ghost use Rattle.fg_playout.specs.Empty.{empty_plays};
ghost use Rattle.fg_desk.specs.Contents.{CanFill, known_in, opened};
ghost use Rattle.fg_core.specs.Board.{opened_board, IsCurrent, IsHeld, AdmitsMediaOn, AdmitsParityOn, PlaysOn, FlushesOn, PlaysHeldOn, Takes, Offers, Publishes, Attests, Vouches, GivesBack, Looks, look_seen, Asks, TellsReadable, with_vouched, VouchedAreComplete};
ghost use Rattle.fg_core.specs.Flow.{with_handed, no_note};
ghost use Rattle.fg_core.specs.Skipping.{ArePlayed, PassesOn, time_of};
ghost use Rattle.fg_core.specs.Core.{play_of};

use crate::fate::{Asked, Fate, Look, Seen};
use crate::key::Key;
use crate::notes::Notes;
use crate::open::{equation_at, facts, next_open, note_of, share_at, work_of};
use crate::skipping::{Skip, pass_windows};
use crate::work::Work;
use fg_desk::{Desk, Played, Reply, Tray};
use fg_shape::Shape;
use fg_words::Shared;
use std::alloc::{AllocError, Global};
use std::marker::Model;

/// What a flow's state holds.
#[derive(Drop)]
struct Held {
    desk: Desk,
    notes: Notes,
}

impl Held {
    /// An empty desk, of which nothing is noted.
    fn new(alloc: Global, window: u32, depth: u32, hold: u64) -> Result<Held, AllocError>
        requires window { (1 ≤ window) × (window ≤ 100) }
        requires depth { (window ≤ depth) × (depth ≤ 1000) }
        ensures desk { IfOk result (λ held. held.desk ≡ opened (record { window = window; depth = depth; hold = hold })) }
        ensures notes { IfOk result (λ held. held.notes ≡ replicate live_limit no_note) }
    {
        let notes = Notes::new(alloc)?;
        let desk = Desk::new(alloc, window, depth, hold)?;
        Ok(Held { desk, notes })
    }
}

/// What a board's turn guards. It is one handle, so that it moves cheaply: each turn takes it out and puts it back.
///
/// Contracts see the desk with what was solved between its plays, and the serial numbers of the equations that were
/// vouched for and of those that are handed out.
#[derive(Drop)]
pub struct Flow {
    held: Box<Held>,
}

impl Model for Flow {
    ghost use Rattle.fg_core.specs.Board.{BoardState};
    ghost use Rattle.fg_core.specs.Codings.{board_code};
    ghost use Rattle.fg_core.specs.Flow.{board_of, AreKept};

    ghost Value = { BoardState };

    ghost coded = { board_code };

    ghost view = { λ f. board_of f.held.value.desk f.held.value.notes };

    ghost invariant = { λ f. AreKept f.held.value.desk f.held.value.notes };
}

/// Whether a key's equation is live and no solved word was withdrawn since the key was given.
fn is_held(desk: &Desk, key: Key) -> bool
    ensures { IsTrue result ↔ ((live : Live) × (get desk.now.state.equations key.serial ≡ Some live)
        × (live.place ≡ key.place) × (key.epoch ≡ desk.now.epoch)) }
{
    facts(desk);
    match desk.line(key.place) {
        Some(line) => line.serial == key.serial && key.epoch == desk.epoch(),
        None => false,
    }
}

impl Flow {
    /// A new board's state. A word is played once a time is told that is at least `hold` microseconds past its own, and with
    /// 0 no time plays it. All its memory is taken here.
    pub fn new(alloc: Global, window: u32, depth: u32, hold: u64) -> Result<Flow, AllocError>
        requires window { (1 ≤ window) × (window ≤ 100) }
        requires depth { (window ≤ depth) × (depth ≤ 1000) }
        ensures { IfOk result (λ flow. flow ≡ opened_board (record { window = window; depth = depth; hold = hold })) }
    {
        let held = Held::new(alloc, window, depth, hold)?;
        Ok(Flow {
            held: Box::new(alloc, held)?,
        })
    }

    /// The position and the sequence number of the farthest media datagram of the current run.
    pub fn top(&self) -> Option<(u64, u16)>
        ensures { result ≡ option_map (λ top. (top.position, top.seq)) self.now.desk.state.top }
    {
        self.held.desk.top()
    }

    /// The SSRC of the current run.
    pub fn current(&self) -> Option<u32>
        ensures { result ≡ current self.now.desk.state }
    {
        self.held.desk.current()
    }

    /// The SSRC of the run before, where there was one.
    pub fn previous(&self) -> Option<u32>
        ensures { result ≡ self.now.desk.state.previous }
    {
        self.held.desk.previous()
    }

    /// How long a received word may wait, in microseconds. 0 where it may wait for ever.
    pub fn hold(&self) -> u64
        ensures { result ≡ self.now.desk.state.playout.hold }
    {
        self.held.desk.hold()
    }

    /// How many runs were begun.
    pub fn runs(&self) -> u64
        ensures { result ≡ self.now.desk.state.runs }
    {
        self.held.desk.runs()
    }

    /// The first position that isn't played yet.
    pub fn mark(&self) -> u64
        ensures { result ≡ self.now.desk.state.mark }
    {
        self.held.desk.mark()
    }

    /// A share that the desk let go, where it has one, for the payload of the next datagram. Somebody else may have a share
    /// of the same word.
    pub fn spare(&mut self) -> Option<Shared>
        ensures { self.new ≡ self.old }
    {
        self.held.desk.spare()
    }

    /// Admits a media datagram, or says why not. One of a fresh SSRC begins a run at the mark.
    pub fn admit_media(&mut self, seq: u16, ssrc: u32, share: Shared) -> Reply
        requires room { HasRoom self.old.desk.state }
        requires not_due { ¬ IsDue self.old.desk.state seq ssrc }
        requires flushed { IsFresh self.old.desk.state ssrc → ¬ HasMore self.old.desk.state }
        requires media { IsMedia share }
        ensures { AdmitsMediaOn self.old seq ssrc share result self.new }
    {
        // Where a run begins all equations leave the desk. What is noted of them is void from then on.
        self.held.desk.admit_media(seq, ssrc, share)
    }

    /// Admits a parity datagram's equation, with a key to it, or says why not.
    pub fn admit_parity(&mut self, base: u16, shape: Shape, share: Shared) -> (Reply, Option<Key>)
        requires room { HasRoom self.old.desk.state }
        requires shape { IsShape shape.offset shape.na }
        ensures { AdmitsParityOn self.old
            (record { base = base; offset = shape.offset; count = shape.na; word = share })
            result.0 result.1 self.new }
    {
        facts(&self.held.desk);
        let serial = self.held.desk.admitted();
        let (reply, place) = self.held.desk.admit_placed(base, shape, share);
        let epoch = self.held.desk.epoch();
        match place {
            Some(place) => {
                let key = Key {
                    place,
                    serial,
                    epoch,
                };
                (reply, Some(key))
            }
            None => (reply, None),
        }
    }

    /// Plays a window. The tray then has what it shows.
    pub fn play(&mut self, tray: &mut Tray) -> Played
        requires room { HasRoom self.old.desk.state }
        requires started { IsSome self.old.desk.state.top }
        requires tray { self.old.desk.state.playout.window ≤ tray.old.window }
        ensures play { PlaysOn self.old (play_of result tray.new.shown) self.new }
        ensures count { result.count ≡ length tray.new.shown }
        ensures tray { tray.new.window ≡ tray.old.window }
    {
        self.held.desk.play(tray)
    }

    /// Makes a flush step, where one is defined.
    pub fn flush_step(&mut self, tray: &mut Tray) -> Option<Played>
        requires room { HasRoom self.old.desk.state }
        requires tray { self.old.desk.state.playout.window ≤ tray.old.window }
        ensures flushes { FlushesOn self.old (option_map (λ played. play_of played tray.new.shown) result) self.new }
        ensures count { IfSome result (λ played. played.count ≡ length tray.new.shown) }
        ensures none { IfNone result (tray.new ≡ tray.old) }
        ensures tray { tray.new.window ≡ tray.old.window }
    {
        self.held.desk.flush_step(tray)
    }

    /// Tells the desk the time of a datagram, in microseconds, and makes a held play, where one is defined.
    pub fn held_step(&mut self, time: u64, tray: &mut Tray) -> Option<Played>
        requires room { HasRoom self.old.desk.state }
        requires limited { self.old.desk.state.playout.hold ≢ 0 }
        requires tray { self.old.desk.state.playout.window ≤ tray.old.window }
        ensures held { PlaysHeldOn self.old time (option_map (λ played. play_of played tray.new.shown) result) self.new }
        ensures count { IfSome result (λ played. played.count ≡ length tray.new.shown) }
        ensures none { IfNone result (tray.new ≡ tray.old) }
        ensures tray { tray.new.window ≡ tray.old.window }
    {
        self.held.desk.held_step(time, tray)
    }

    /// Plays at once so many of these windows as come next and show nothing, and answers how many. It may leave some of them, or
    /// all, to be played one by one, as it does where an equation is live.
    pub fn skip(&mut self, which: Skip) -> u64
        requires limited { IsSome (time_of which) → self.old.desk.state.playout.hold ≢ 0 }
        ensures plays { ArePlayed which self.old.desk.state
            (empty_plays result self.old.desk.state.playout.window self.old.desk.state.mark) self.new.desk.state }
        ensures passes { PassesOn self.old (time_of which) result self.new }
        ensures calls { self.new.desk.state.calls ≡ self.old.desk.state.calls + result }
        ensures limit { result ≤ 2 ^ 62 }
    {
        let _window = self.held.desk.window();
        let count = pass_windows(&mut self.held.desk, which);
        let _depth = self.held.desk.depth();
        count
    }

    /// Hands out the open equation of the least serial number, with a share of each word known at its slots. Want of
    /// memory changes nothing.
    pub fn take(&mut self, alloc: Global) -> Result<Option<Work>, AllocError>
        requires { VouchedAreComplete self.old }
        ensures taken { IfOk result (λ job. Takes self.old job self.new) }
        ensures none { IfErr result (λ _. self.new ≡ self.old) }
    {
        let Some(key) = next_open(&self.held.desk, &self.held.notes) else {
            return Ok(None);
        };
        let work = work_of(alloc, &self.held.desk, key)?;
        self.hand(key, true);
        Ok(Some(work))
    }

    /// Takes a word that is offered for a slot of the key's equation.
    pub fn offer(&mut self, key: Key, slot: u64, share: Shared) -> Fate
        requires follows { (live : Live) → IsCurrent self.old key live → known_in self.old.desk slot ≡ None
            → CanFill self.old.desk live.equation slot share }
        ensures { Offers self.old key slot share result self.new }
    {
        if !self.holds(key) {
            return self.gone();
        }
        if self.held.desk.word(slot).is_some() {
            return Fate::Beaten(slot);
        }
        self.held.desk.fill(key.place, slot, share);
        Fate::Done
    }

    /// As `offer`, by who holds the job.
    pub fn publish(&mut self, key: Key, slot: u64, share: Shared) -> Fate
        requires follows { (live : Live) → IsCurrent self.old key live → known_in self.old.desk slot ≡ None
            → CanFill self.old.desk live.equation slot share }
        ensures { Publishes self.old key slot share result self.new }
    {
        match self.offer(key, slot, share) {
            Fate::Done => {
                self.hand(key, false);
                Fate::Done
            }
            Fate::Beaten(other) => {
                self.hand(key, false);
                Fate::Beaten(other)
            }
            Fate::Gone { mark, epoch } => Fate::Gone { mark, epoch },
        }
    }

    /// Takes it that the key's equation comes out, where that is said.
    pub fn attest(&mut self, key: Key, zero: bool) -> Fate
        requires follows { IsTrue zero → (live : Live) → IsCurrent self.old key live
            → IsSettled (known_in self.old.desk) live.equation }
        ensures { Attests self.old key zero result self.new }
    {
        if !self.holds(key) {
            return self.gone();
        }
        if zero {
            self.settle(key);
        }
        Fate::Done
    }

    /// As `attest`, by who holds the job.
    pub fn vouch(&mut self, key: Key, zero: bool) -> Fate
        requires follows { IsTrue zero → (live : Live) → IsCurrent self.old key live
            → IsSettled (known_in self.old.desk) live.equation }
        ensures { Vouches self.old key zero result self.new }
    {
        if !self.holds(key) {
            return self.gone();
        }
        if zero {
            self.settle(key);
            self.hand(key, false);
        }
        Fate::Done
    }

    /// Takes a job back.
    pub fn give_back(&mut self, key: Key) -> Fate
        ensures { GivesBack self.old key result self.new }
    {
        if !self.holds(key) {
            return self.gone();
        }
        self.hand(key, false);
        Fate::Done
    }

    /// The word known at a position: a share of it, and a copy where none can be lent or memory lacks for it.
    pub fn see(&self, key: Key, slot: u64) -> Seen
        ensures { Looks self.now key (Some slot) (look_seen result) self.now }
    {
        if !self.holds(key) {
            return Seen::Told(Look::Gone {
                mark: self.held.desk.mark(),
                epoch: self.held.desk.epoch(),
            });
        }
        if let Ok(Some(share)) = share_at(&self.held.desk, slot) {
            return Seen::Lent(share);
        }
        match self.held.desk.word(slot) {
            Some(word) => Seen::Told(Look::Known(*word)),
            None => Seen::Told(Look::Unknown),
        }
    }

    /// The equation of a key.
    pub fn ask(&self, key: Key) -> Asked
        ensures asks { Asks self.now key result self.now }
        ensures readable { TellsReadable result }
    {
        if !self.holds(key) {
            return Asked::Gone {
                mark: self.held.desk.mark(),
                epoch: self.held.desk.epoch(),
            };
        }
        equation_at(&self.held.desk, key)
    }

    /// Whether a key's equation is live and no solved word was withdrawn since the key was given.
    fn holds(&self, key: Key) -> bool
        ensures { IsTrue result ↔ IsHeld self.now key }
    {
        is_held(&self.held.desk, key)
    }

    /// Tells that a key's equation is gone.
    fn gone(&self) -> Fate
        ensures { result ≡ Fate.Gone self.now.desk.state.mark self.now.desk.epoch }
    {
        Fate::Gone {
            mark: self.held.desk.mark(),
            epoch: self.held.desk.epoch(),
        }
    }

    /// Takes it that an equation comes out.
    fn settle(&mut self, key: Key)
        requires { (live : Live) × IsCurrent self.old key live × IsSettled (known_in self.old.desk) live.equation }
        ensures { self.new ≡ with_vouched self.old key.serial }
    {
        facts(&self.held.desk);
        self.held.desk.vouch(key.place);
        let mut note = note_of(&self.held.notes, key);
        note.vouched = true;
        self.held.notes.put(key.place, note);
    }

    /// Notes an equation as handed out, or as handed out no more.
    fn hand(&mut self, key: Key, out: bool)
        requires { IsHeld self.old key }
        ensures { self.new ≡ with_handed self.old key.serial out }
    {
        facts(&self.held.desk);
        let mut note = note_of(&self.held.notes, key);
        note.handed_out = out;
        self.held.notes.put(key.place, note);
    }
}
