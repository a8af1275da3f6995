//! Which datagrams a desk admits, and what it says of the others.

ghost use Rattle.std.specs.Prelude.{◌≡◌, ◌+◌, ◌-◌, ◌↔◌, ◌<◌, ◌≤◌, ◌^◌, Option, Some, None, IsTrue, IsSome, IfSome, option_map};
ghost use Rattle.std.specs.FinMap.{get};
ghost use Rattle.fg_words.specs.Word.{HasRoom as WordHasRoom, IsMedia};
ghost use Rattle.fg_shape.specs.Shape.{IsShape, position_limit};
ghost use Rattle.fg_playout.specs.Facts.{Holds};
ghost use Rattle.fg_playout.specs.Room.{HasRoom, farthest_limit, call_limit};
ghost use Rattle.fg_desk.specs.Contents.{IsPlaceAfter, GivesWay, IsAfterArrival};
ghost use Rattle.fg_playout.specs.Admission.{sender_of, own, another, IsFresh, IsDue, IsReplyAt, IsEquationReply, IsLeastFree, AdmitsMedia, AdmitsParity, base_on, begun, counted, farther as farther_top, with_media, with_equation};
ghost use Rattle.fg_playout.specs.Play.{HasMore};
ghost use Rattle.fg_desk.specs.Inside.{IsLateAt, raised};
ghost use Rattle.fg_desk.specs.Parts.{top_of};

use crate::desk::{Desk, Farthest};
use crate::holding::note;
use crate::storage::{begin, receive};
use fg_buffer::{KEPT, LIVE_LIMIT, lost_slot};
use fg_peel::laws::peelings_stay;
use fg_playout::Reply;
use fg_shape::{Shape, last};
use fg_unwrap::position;
use fg_words::{Shared, Word};

impl Desk {
    /// Admits a media datagram, or says why not. With one of neither this run's sender nor the run before's
    /// a run begins at the mark, and the equations of the run before leave.
    ///
    /// The share is let go with every reply but `Admitted`. Where the word is admitted at a position at
    /// which another one was solved, all solved words are withdrawn and the epoch rises.
    pub fn admit_media(&mut self, seq: u16, ssrc: u32, share: Shared) -> Reply
        requires room { HasRoom self.old.state }
        requires not_due { ¬ IsDue self.old.state seq ssrc }
        requires flushed { IsFresh self.old.state ssrc → ¬ HasMore self.old.state }
        requires media { IsMedia share }
        ensures state { AdmitsMedia self.old.state seq ssrc share result self.new.state }
        ensures rest { IsAfterArrival self.old seq ssrc share result self.new }
    {
        if self.previous == Some(ssrc) {
            self.refuse(share);
            return Reply::Foreign;
        }
        match self.top {
            Some(top) if top.ssrc == ssrc => self.admit_own(top, seq, share),
            _ => {
                self.begin_run(seq, ssrc, share);
                Reply::Admitted
            }
        }
    }

    /// Admits a parity datagram's equation, or says why not. `base` is the sequence number of its
    /// base.
    ///
    /// The share is let go with every reply but `Admitted`.
    pub fn admit_parity(&mut self, base: u16, shape: Shape, share: Shared) -> Reply
        requires room { HasRoom self.old.state }
        requires shape { IsShape shape.offset shape.na }
        ensures state { AdmitsParity self.old.state
            (record { base = base; offset = shape.offset; count = shape.na; word = share })
            result self.new.state }
        ensures rest { self.new ≡ record self.old { state = self.new.state } }
    {
        self.admit_placed(base, shape, share).0
    }

    /// As `admit_parity`, and tells the place of an equation that is admitted.
    pub fn admit_placed(&mut self, base: u16, shape: Shape, share: Shared) -> (Reply, Option<u32>)
        requires room { HasRoom self.old.state }
        requires shape { IsShape shape.offset shape.na }
        ensures state { AdmitsParity self.old.state
            (record { base = base; offset = shape.offset; count = shape.na; word = share })
            result.0 self.new.state }
        ensures rest { self.new ≡ record self.old { state = self.new.state } }
        ensures place { IsPlaceAfter self.old.state result.0 result.1 self.new.state }
    {
        if self.top.is_none() {
            self.refuse(share);
            return (Reply::NotStarted, None);
        }
        let Some(base) = self.base_position(base) else {
            self.refuse(share);
            return (Reply::BeforeStart, None);
        };
        match self.equation_reply(base, shape, share.word()) {
            Reply::Admitted => {
                let place = self.add(base, shape, share);
                (Reply::Admitted, Some(place))
            }
            reply => {
                self.refuse(share);
                (reply, None)
            }
        }
    }

    /// Counts a call that refused a share, which is let go.
    fn refuse(&mut self, share: Shared)
        requires calls { self.old.state.calls < call_limit }
        ensures { self.new ≡ record self.old { state = counted self.old.state } }
    {
        self.buffer.keep_spare(share);
        self.calls += 1;
    }

    /// Admits a media datagram of the current run, whose farthest one is this, or says why not.
    fn admit_own(&mut self, top: Farthest, seq: u16, share: Shared) -> Reply
        requires own { sender_of self.old.state top.ssrc ≡ own (top_of top) }
        requires top { self.old.state.top ≡ Some (top_of top) }
        requires holds { Holds self.old.state }
        requires room { HasRoom self.old.state }
        requires not_due { ¬ IsDue self.old.state seq top.ssrc }
        requires media { IsMedia share }
        ensures state { AdmitsMedia self.old.state seq top.ssrc share result self.new.state }
        ensures rest { IsAfterArrival self.old seq top.ssrc share result self.new }
    {
        let Some(position) = position(top.position, top.seq, seq) else {
            self.refuse(share);
            return Reply::Late;
        };
        match self.reply_at(position, share.word()) {
            Reply::Admitted => {
                self.take(position, seq, top.ssrc, share);
                Reply::Admitted
            }
            reply => {
                self.refuse(share);
                reply
            }
        }
    }

    /// Takes a word in at a position that has none.
    fn take(&mut self, position: u64, seq: u16, ssrc: u32, share: Shared)
        requires ahead { self.old.state.mark ≤ position }
        requires near { position < self.old.state.mark + self.old.state.playout.depth }
        requires none { get self.old.state.media position ≡ None }
        requires holds { Holds (with_media self.old.state seq ssrc position share) }
        requires limit { position < farthest_limit + 2 ^ 16 }
        requires calls { self.old.state.calls < call_limit }
        ensures state { self.new.state ≡ with_media self.old.state seq ssrc position share }
        ensures rest { GivesWay self.old position share self.new }
    {
        peelings_stay();
        let withdrawn = receive(
            &mut self.buffer,
            &mut self.lines,
            &mut self.watches,
            position,
            share,
        );
        note(&mut self.waiting, position);
        let datagram = Farthest {
            position,
            seq,
            ssrc,
        };
        self.top = Some(farther(self.top, datagram));
        self.calls += 1;
        self.epoch = raised_epoch(self.epoch, withdrawn);
    }

    /// Begins the run of another sender at the mark, with its first word. The equations of the run before
    /// leave. Nothing that follows is left then, so no found word is lost.
    fn begin_run(&mut self, seq: u16, ssrc: u32, share: Shared)
        requires another { sender_of self.old.state ssrc ≡ another }
        requires flushed { IsFresh self.old.state ssrc → ¬ HasMore self.old.state }
        requires room { HasRoom self.old.state }
        requires media { IsMedia share }
        ensures state { self.new.state ≡ with_media (begun self.old.state) seq ssrc self.old.state.mark share }
        ensures rest { GivesWay self.old self.old.state.mark share self.new }
    {
        peelings_stay();
        let previous = self.current();
        let mark = self.buffer.mark();
        begin(&mut self.buffer, &mut self.lines, share);
        note(&mut self.waiting, mark);
        self.previous = previous;
        self.top = Some(Farthest {
            position: mark,
            seq,
            ssrc,
        });
        self.origin = mark;
        self.runs += 1;
        self.calls += 1;
    }

    /// The position of a base in the current run. None where it lies before the run.
    fn base_position(&self, base: u16) -> Option<u64>
        ensures value { result ≡ base_on self.now.state base }
        ensures limit { IfSome result (λ position. position ≤ position_limit) }
    {
        let Some(top) = self.top else {
            return None;
        };
        match position(top.position, top.seq, base) {
            Some(position) if position >= self.origin => Some(position),
            _ => None,
        }
    }

    /// Adds an equation to the live ones, and tells its place.
    fn add(&mut self, base: u64, shape: Shape, share: Shared) -> u32
        requires shape { IsShape shape.offset shape.na }
        requires base { base ≤ position_limit }
        requires origin { self.old.state.origin ≤ base }
        requires started { IsSome self.old.state.top }
        requires admitted { IsEquationReply self.old.state
            (record { base = base; offset = shape.offset; count = shape.na; parity = share })
            Reply.Admitted }
        requires calls { self.old.state.calls < call_limit }
        requires room { WordHasRoom share }
        ensures { IsLeastFree self.old.state.equations result × (self.new ≡ record self.old {
          state = with_equation self.old.state result
              (record { base = base; offset = shape.offset; count = shape.na; parity = share });
        }) }
    {
        peelings_stay();
        let place = self.lines.insert(base, shape, share, self.admitted);
        self.watches.add(place);
        self.admitted += 1;
        self.calls += 1;
        place
    }

    /// The reply to an equation.
    fn equation_reply(&self, base: u64, shape: Shape, parity: &Word) -> Reply
        requires base { base ≤ position_limit }
        requires shape { IsShape shape.offset shape.na }
        ensures { IsEquationReply self.now.state
            (record { base = base; offset = shape.offset; count = shape.na; parity = parity.now })
            result }
    {
        if self.is_late(base, shape) {
            return Reply::Late;
        }
        if last(base, shape) >= self.buffer.mark() + u64::from(self.depth) + KEPT as u64 {
            return Reply::Ahead;
        }
        match self.lines.find(base, shape) {
            Some(line) if line.parity.word().same(parity) => Reply::Duplicate,
            Some(_) => Reply::Conflict,
            None if self.lines.count() >= LIVE_LIMIT => Reply::Crowded,
            None => Reply::Admitted,
        }
    }

    /// Whether all slots of an equation are played, or the word at one that is played isn't kept.
    fn is_late(&self, base: u64, shape: Shape) -> bool
        requires base { base ≤ position_limit }
        requires shape { IsShape shape.offset shape.na }
        ensures { IsTrue result ↔ IsLateAt self.now.state base shape.offset shape.na }
    {
        last(base, shape) < self.buffer.mark() || lost_slot(base, shape, &self.buffer).is_some()
    }

    /// The reply to a word that comes for a position.
    fn reply_at(&self, position: u64, word: &Word) -> Reply
        ensures { IsReplyAt self.now.state position word.now result }
    {
        if position < self.buffer.mark() {
            return Reply::Late;
        }
        match self.buffer.received(position) {
            None => Reply::Admitted,
            Some(other) if other.same(word) => Reply::Duplicate,
            Some(_) => Reply::Conflict,
        }
    }
}

/// The farther of two datagrams.
fn farther(top: Option<Farthest>, new: Farthest) -> Farthest
    ensures { Some (top_of result) ≡ farther_top (option_map top_of top) (top_of new) }
{
    match top {
        Some(top) if top.position >= new.position => top,
        _ => new,
    }
}

/// The epoch after a call that withdrew solved words, or did not.
fn raised_epoch(epoch: u64, withdrawn: bool) -> u64
    requires { epoch ≤ call_limit }
    ensures { result ≡ raised epoch withdrawn }
{
    if withdrawn { epoch + 1 } else { epoch }
}
