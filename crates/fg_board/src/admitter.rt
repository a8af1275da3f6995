//! The admitter: the one seat that takes datagrams in and plays windows.

ghost use Rattle.std.specs.Prelude.{◌≡◌, ◌≢◌, ◌↔◌, ◌+◌, ◌<◌, ◌≤◌, ◌^◌, [], ◌∷◌, length, false, None, IsTrue, IsSome, IfSome, IfNone, option_map};
ghost use Rattle.fg_words.specs.Word.{IsMedia};
ghost use Rattle.fg_shape.specs.Shape.{IsShape};
ghost use Rattle.fg_playout.specs.Admission.{IsDue, IsFresh, AdmitsMedia, AdmitsParity};
ghost use Rattle.fg_playout.specs.Room.{HasRoom, call_limit};
ghost use Rattle.fg_desk.specs.Contents.{AreSolved};
ghost use Rattle.fg_playout.specs.Facts.{Holds};
ghost use Rattle.fg_playout.specs.Play.{IsPlay, Flushes, HasMore};
ghost use Rattle.fg_playout.specs.Held.{IsHeldStep};
ghost use Rattle.fg_board.specs.Actors.{MakesCall, board_of, desk_of, IsOwnBoard, GivesKeyOf};
ghost use Rattle.fg_core.specs.Codes.{opening_code};
ghost use Rattle.fg_core.specs.Core.{media, parity, play, flush, held, play_of};
ghost use Rattle.fg_board.specs.Knowing.{top_of};

mod own_seat;
mod skipping;

use crate::admitter::own_seat::OwnSeat;
use crate::board::Board;
use crate::turns::Made;
use fg_core::laws::opening_is_owned;
use fg_core::{Flow, Key};
use fg_desk::{Played, Reply, Tray};
use fg_playout::{CALL_LIMIT, FARTHEST_LIMIT};
use fg_shape::Shape;
use fg_turn::Owner;
use fg_unwrap::position;
use fg_words::Shared;
use std::marker::Model;
use std::snapshot::Snapshot;
use std::sync::Wait;

/// What an admitter knows of its desk without a turn.
#[derive(Clone, Copy)]
struct Near {
    /// The farthest position of the current run, its sequence number and its SSRC.
    top: Option<(u64, u16, u32)>,
    /// The SSRC of the run before.
    previous: Option<u32>,
    /// How many runs were begun.
    runs: u64,
    mark: u64,
    calls: u64,
}

// The farthest position of the current run, its sequence number and its SSRC.
fn farthest(flow: &Flow) -> Option<(u64, u16, u32)>
    ensures { top_of result ≡ flow.now.desk.state.top }
{
    let (position, seq) = flow.top()?;
    let ssrc = flow.current()?;
    Some((position, seq, ssrc))
}

impl Near {
    // After one call more.
    fn after(self, flow: &Flow) -> Near
        requires { self.calls < call_limit }
        ensures top { top_of result.top ≡ flow.now.desk.state.top }
        ensures previous { result.previous ≡ flow.now.desk.state.previous }
        ensures runs { result.runs ≡ flow.now.desk.state.runs }
        ensures mark { result.mark ≡ flow.now.desk.state.mark }
        ensures calls { result.calls ≡ self.calls + 1 }
    {
        Near {
            top: farthest(flow),
            previous: flow.previous(),
            runs: flow.runs(),
            mark: flow.mark(),
            calls: self.calls + 1,
        }
    }

    // After so many windows that were passed, each of which counts as a call.
    fn after_windows(self, flow: &Flow, count: u64) -> Near
        requires calls { self.calls < call_limit }
        requires few { count ≤ 2 ^ 62 }
        ensures top { top_of result.top ≡ flow.now.desk.state.top }
        ensures previous { result.previous ≡ flow.now.desk.state.previous }
        ensures runs { result.runs ≡ flow.now.desk.state.runs }
        ensures mark { result.mark ≡ flow.now.desk.state.mark }
        ensures calls { result.calls ≡ self.calls + count }
    {
        Near {
            calls: self.calls + count,
            ..self.after(flow)
        }
    }
}

/// The owner of a board: it admits the flow's datagrams and plays its windows. It knows the desk that its calls have
/// made, so it needs no turn to see whether a play is due or an SSRC is fresh.
///
/// Contracts see its standing, and the settings of its board.
#[derive(Drop)]
pub struct Admitter {
    pub(crate) seat: OwnSeat,
    near: Near,
    /// A share that the desk let go, for the payload of the next datagram.
    spare: Option<Shared>,
}

impl Model for Admitter {
    ghost use Rattle.fg_board.specs.Actors.{AdmitterState};
    ghost use Rattle.fg_board.specs.Standings.{admitter_code};
    ghost use Rattle.fg_board.specs.Knowing.{KnowsItsDesk};
    ghost use Rattle.fg_board.specs.OwnTurns.{standing};

    ghost Value = { AdmitterState };

    ghost coded = { admitter_code };

    ghost view = { λ a. standing a.seat };

    ghost invariant = { λ a. KnowsItsDesk (standing a.seat) a.near.top a.near.previous a.near.runs a.near.mark a.near.calls };
}

impl Admitter {
    /// The owner of a new board.
    pub(crate) fn new(owner: Owner<Flow>, window: u32, depth: u32, hold: u64) -> Admitter
        requires outside { owner.inside ≡ false }
        requires window { (1 ≤ window) × (window ≤ 100) × (window ≤ depth) }
        requires calls { owner.calls ≡ opening_code (record { window = window; depth = depth; hold = hold }) ∷ [] }
        requires left { owner.left ≡ None }
        ensures { result ≡ record { seat = owner; playout = record { window = window; depth = depth; hold = hold } } }
    {
        opening_is_owned();
        let near = Near {
            top: None,
            previous: None,
            runs: 0,
            mark: 0,
            calls: 0,
        };
        Admitter {
            seat: OwnSeat {
                owner,
                window,
                depth,
                hold,
            },
            near,
            spare: None,
        }
    }

    /// Its seat, which is outside.
    pub(crate) fn into_owner(self) -> Owner<Flow>
        ensures owner { result ≡ self.seat }
        ensures outside { result.inside ≡ false }
    {
        let Admitter {
            seat,
            near: _,
            spare: _,
        } = self;
        seat.owner
    }

    /// Whether an SSRC (RFC 3550) is fresh: there is a current run, and the SSRC is neither its own nor that of the run before.
    /// A datagram of it begins a run, once nothing is left to be shown.
    #[inline]
    pub fn fresh(&self, ssrc: u32) -> bool
        ensures { IsTrue result ↔ IsFresh (desk_of self.now) ssrc }
    {
        let Some((_, _, current)) = self.near.top else {
            return false;
        };
        current != ssrc && self.near.previous != Some(ssrc)
    }

    /// How many runs were begun.
    #[inline]
    pub fn runs(&self) -> u64
        ensures { result ≡ (desk_of self.now).runs }
    {
        self.near.runs
    }

    /// How long a received word may wait, in microseconds. 0 where it may wait for ever.
    #[inline]
    pub fn hold(&self) -> u64
        ensures { result ≡ (desk_of self.now).playout.hold }
    {
        self.seat.hold
    }

    /// Whether a play is due before a datagram of this sequence number and SSRC is admitted: it is of the current run, and
    /// lies the depth past the mark, or farther.
    #[inline]
    pub fn due(&self, seq: u16, ssrc: u32) -> bool
        ensures { IsTrue result ↔ IsDue (desk_of self.now) seq ssrc }
    {
        let Some((top, top_seq, current)) = self.near.top else {
            return false;
        };
        if current != ssrc {
            return false;
        }
        match position(top, top_seq, seq) {
            Some(position) => {
                position >= self.near.mark
                    && position - self.near.mark >= u64::from(self.seat.depth)
            }
            None => false,
        }
    }

    /// Whether its desk may change: the mark and the farthest position are below 2^61, and fewer than 2^62 calls were
    /// made.
    pub fn room(&self) -> bool
        ensures room { IsTrue result ↔ HasRoom (desk_of self.now) }
        ensures facts { Holds (desk_of self.now) }
        ensures solved { AreSolved (board_of self.now).desk }
        ensures own { IsOwnBoard self.now }
        ensures playout { (desk_of self.now).playout ≡ self.now.playout }
    {
        let top_has_room = match self.near.top {
            Some((top, _, _)) => top < FARTHEST_LIMIT,
            None => true,
        };
        top_has_room && self.near.mark < FARTHEST_LIMIT && self.near.calls < CALL_LIMIT
    }

    /// How many passes are out.
    pub fn made(&self) -> u32
        ensures { result ≡ self.now.seat.made }
    {
        self.seat.owner.made()
    }

    /// A share that its desk let go, where it has one, for the payload of the next datagram. It takes no turn: each turn
    /// takes one where there is none. Somebody else may have a share of the same word.
    pub fn spare(&mut self) -> Option<Shared>
        ensures { self.new ≡ self.old }
    {
        self.spare.take()
    }

    /// Admits a media datagram in one turn, or says why not. One of a fresh SSRC begins a run at the mark: all equations leave,
    /// so jobs and keys of before it are gone.
    pub fn admit_media(
        &mut self,
        wait: &impl Wait,
        board: &Board,
        seq: u16,
        ssrc: u32,
        share: Shared,
    ) -> Reply
        requires board { self.old.seat.turn ≡ board.now.name }
        requires room { HasRoom (desk_of self.old) }
        requires not_due { ¬ IsDue (desk_of self.old) seq ssrc }
        requires flushed { IsFresh (desk_of self.old) ssrc → ¬ HasMore (desk_of self.old) }
        requires media { IsMedia share }
        ensures call { MakesCall (media seq ssrc share result) self.old self.new }
        ensures state { AdmitsMedia (desk_of self.old) seq ssrc share result (desk_of self.new) }
    {
        let mut flow = self.seat.enter(wait, board, &mut self.spare);
        let word = Snapshot::of(&share);
        let reply = flow.admit_media(seq, ssrc, share);
        self.near = self.near.after(&flow);
        self.seat
            .leave(board, flow, Made::Media(seq, ssrc, word, reply));
        reply
    }

    /// Admits a parity datagram's equation in one turn, with a key to it, or says why not.
    pub fn admit_parity(
        &mut self,
        wait: &impl Wait,
        board: &Board,
        base: u16,
        shape: Shape,
        share: Shared,
    ) -> (Reply, Option<Key>)
        requires board { self.old.seat.turn ≡ board.now.name }
        requires room { HasRoom (desk_of self.old) }
        requires shape { IsShape shape.offset shape.na }
        ensures call { MakesCall
            (parity (record { base = base; offset = shape.offset; count = shape.na; word = share }) result.0 result.1)
            self.old self.new }
        ensures state { AdmitsParity (desk_of self.old)
            (record { base = base; offset = shape.offset; count = shape.na; word = share })
            result.0 (desk_of self.new) }
        ensures key { GivesKeyOf self.old result.0 result.1 self.new }
    {
        let mut flow = self.seat.enter(wait, board, &mut self.spare);
        let word = Snapshot::of(&share);
        let (reply, key) = flow.admit_parity(base, shape, share);
        self.near = self.near.after(&flow);
        self.seat
            .leave(board, flow, Made::Parity(base, shape, word, reply, key));
        (reply, key)
    }

    /// Plays a window in one turn. The tray then has what it shows.
    pub fn play(&mut self, wait: &impl Wait, board: &Board, tray: &mut Tray) -> Played
        requires board { self.old.seat.turn ≡ board.now.name }
        requires room { HasRoom (desk_of self.old) }
        requires started { IsSome (desk_of self.old).top }
        requires tray { self.old.playout.window ≤ tray.old.window }
        ensures call { MakesCall (play result) self.old self.new }
        ensures play { IsPlay self.old.playout.window (desk_of self.old) (play_of result tray.new.shown) (desk_of self.new) }
        ensures count { result.count ≡ length tray.new.shown }
        ensures tray { tray.new.window ≡ tray.old.window }
    {
        let mut flow = self.seat.enter(wait, board, &mut self.spare);
        let played = flow.play(tray);
        self.near = self.near.after(&flow);
        self.seat.leave(board, flow, Made::Play(played));
        played
    }

    /// Makes a flush step in one turn, where one is defined. The tray then has what it shows.
    pub fn flush_step(&mut self, wait: &impl Wait, board: &Board, tray: &mut Tray) -> Option<Played>
        requires board { self.old.seat.turn ≡ board.now.name }
        requires room { HasRoom (desk_of self.old) }
        requires tray { self.old.playout.window ≤ tray.old.window }
        ensures call { MakesCall (flush result) self.old self.new }
        ensures flushes { Flushes (desk_of self.old) (option_map (λ played. play_of played tray.new.shown) result) (desk_of self.new) }
        ensures count { IfSome result (λ played. played.count ≡ length tray.new.shown) }
        ensures none { IfNone result (tray.new ≡ tray.old) }
        ensures tray { tray.new.window ≡ tray.old.window }
    {
        let mut flow = self.seat.enter(wait, board, &mut self.spare);
        let played = flow.flush_step(tray);
        self.near = self.near.after(&flow);
        self.seat.leave(board, flow, Made::Flush(played));
        played
    }

    /// Tells the desk the time of a datagram, in microseconds, and makes a held play, where one is defined: all of it in one
    /// turn. The tray then has what it shows.
    pub fn held_step(
        &mut self,
        wait: &impl Wait,
        board: &Board,
        time: u64,
        tray: &mut Tray,
    ) -> Option<Played>
        requires board { self.old.seat.turn ≡ board.now.name }
        requires room { HasRoom (desk_of self.old) }
        requires limited { (desk_of self.old).playout.hold ≢ 0 }
        requires tray { self.old.playout.window ≤ tray.old.window }
        ensures call { MakesCall (held time result) self.old self.new }
        ensures held { IsHeldStep (desk_of self.old) time (option_map (λ played. play_of played tray.new.shown) result)
            (desk_of self.new) }
        ensures count { IfSome result (λ played. played.count ≡ length tray.new.shown) }
        ensures none { IfNone result (tray.new ≡ tray.old) }
        ensures tray { tray.new.window ≡ tray.old.window }
    {
        let mut flow = self.seat.enter(wait, board, &mut self.spare);
        let played = flow.held_step(time, tray);
        self.near = self.near.after(&flow);
        self.seat.leave(board, flow, Made::Held(time, played));
        played
    }
}
