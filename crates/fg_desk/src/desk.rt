//! A desk: one flow's window state, and what it tells of itself.

ghost use Rattle.std.specs.Prelude.{◌≡◌, ◌≢◌, ◌+◌, ◌-◌, ◌↔◌, ◌<◌, ◌≤◌, ◌^◌, ℕ, min, Option, Some, None, IsSome, IsTrue, IfOk, IfSome, IfNone, option_map};
ghost use Rattle.std.specs.Option.{option_copied};
ghost use Rattle.std.specs.FinMap.{get, len, empty};
ghost use Rattle.std.specs.FinSet.{contains};
ghost use Rattle.fg_shape.specs.Shape.{IsShape, position_limit};
ghost use Rattle.fg_peel.specs.Equation.{IsSettled};
ghost use Rattle.fg_peel.specs.declared.Line.{Line as LiveLine};
ghost use Rattle.fg_playout.specs.State.{known, current, Live};
ghost use Rattle.fg_playout.specs.Facts.{Holds};
ghost use Rattle.fg_playout.specs.Solution.{InClosure};
ghost use Rattle.fg_buffer.specs.LiveEquations.{live_of, no_equations, IsAmong};
ghost use Rattle.fg_buffer.specs.PlayoutBuffer.{opened_buffer};
ghost use Rattle.fg_hold.specs.Waiting.{Waits, since};
ghost use Rattle.fg_playout.specs.Room.{HasRoom, farthest_limit};
ghost use Rattle.fg_desk.specs.Contents.{opened, AreSolved, CanFill, IsLiveAt, filled, known_in, shared_at};
ghost use Rattle.fg_playout.specs.Admission.{IsFresh, IsDue};
ghost use Rattle.fg_playout.specs.Held.{at_time, IsHeld, IsGreatest};

mod admission;
mod passing;
mod plays;

use crate::closing::count_to;
use crate::holding::{held_by, tell};
use crate::storage::publish;
use fg_buffer::{LiveEquations, PlayoutBuffer, Watches};
use fg_hold::Waiting;
use fg_peel::Line;
use fg_peel::laws::peelings_fill_the_closure;
use fg_playout::laws::mark_makes_no_difference;
use fg_playout::{CALL_LIMIT, FARTHEST_LIMIT, Outcome};
use fg_unwrap::position;
use fg_words::laws::xor_is_a_group;
use fg_words::{Shared, Word};
use slab::Slab;
use std::alloc::{AllocError, Global};
use std::marker::Model;

/// The farthest datagram of the current run: its position, its sequence number, and the SSRC of the run's sender.
#[derive(Clone, Copy)]
struct Farthest {
    position: u64,
    seq: u16,
    ssrc: u32,
}

/// One flow's window state.
#[derive(Drop)]
pub struct Desk {
    window: u32,
    depth: u32,
    /// Which received words wait, and since when.
    waiting: Waiting,
    top: Option<Farthest>,
    /// The SSRC of the run before.
    previous: Option<u32>,
    /// The position at which the current run begins.
    origin: u64,
    runs: u64,
    buffer: PlayoutBuffer,
    lines: LiveEquations,
    /// Which equations a play has to look at.
    watches: Watches,
    admitted: u64,
    calls: u64,
    epoch: u64,
}

/// A play: which positions it closed, and its outcome. The tray has the words of one that `play`, `flush_step`
/// or `held_step` made, and the desk keeps those of one that was made in place.
#[derive(Clone, Copy, PartialEq)]
pub struct Played {
    /// The first position that was played.
    pub first: u64,
    /// How many positions were.
    pub count: u32,
    /// What the words are.
    pub verdict: Outcome,
}

impl Model for Desk {
    ghost use Rattle.fg_desk.specs.Contents.{Contents};
    ghost use Rattle.fg_desk.specs.Inside.{contents_code};

    ghost Value = { Contents };

    ghost coded = { contents_code };

    ghost use Rattle.fg_desk.specs.Inside.{contents_of};
    ghost use Rattle.fg_desk.specs.Parts.{parts_of, IsDesk};

    ghost view = { λ a. contents_of (parts_of a) };

    ghost invariant = { IsDesk };
}

impl Desk {
    /// An empty desk whose plays close `window` positions, and for which a play is due where a
    /// datagram lies `depth` positions past the mark. No word waits longer than `hold` microseconds by the
    /// times that are told, or for 0 as long as it has to.
    ///
    /// All its memory is taken here.
    pub fn new(alloc: Global, window: u32, depth: u32, hold: u64) -> Result<Desk, AllocError>
        requires window { (1 ≤ window) × (window ≤ 100) }
        requires depth { (window ≤ depth) × (depth ≤ 1000) }
        ensures { IfOk result (λ desk. desk ≡ opened (record { window = window; depth = depth; hold = hold })) }
    {
        let watches = Watches::new(alloc)?;
        let waiting = Waiting::new(alloc, hold)?;
        let buffer = PlayoutBuffer::new(alloc, depth)?;
        let lines = LiveEquations::new(alloc)?;
        Ok(Desk::joined(window, depth, waiting, buffer, lines, watches))
    }

    /// The desk of parts in which nothing is yet. Apart from `new`, whose parts may each fail.
    fn joined(
        window: u32,
        depth: u32,
        waiting: Waiting,
        buffer: PlayoutBuffer,
        lines: LiveEquations,
        watches: Watches,
    ) -> Desk
        requires window { (1 ≤ window) × (window ≤ 100) }
        requires depth { (window ≤ depth) × (depth ≤ 1000) }
        requires clock { waiting.clock ≡ 0 }
        requires since { (position : ℕ) → since waiting position ≡ 0 }
        requires waits { Waits waiting 0 empty }
        requires buffer { buffer ≡ opened_buffer (depth + 100) }
        requires lines { lines ≡ no_equations }
        ensures { result ≡ opened (record { window = window; depth = depth; hold = waiting.hold }) }
    {
        Desk {
            window,
            depth,
            waiting,
            top: None,
            previous: None,
            origin: 0,
            runs: 0,
            buffer,
            lines,
            watches,
            admitted: 0,
            calls: 0,
            epoch: 0,
        }
    }

    /// The first position that isn't played yet.
    pub fn mark(&self) -> u64
        ensures { result ≡ self.now.state.mark }
    {
        self.buffer.mark()
    }

    /// How far past the mark a datagram makes a play due: 1,000 positions at most.
    ///
    /// This call also tells what holds of every desk: the facts, by which the slots of the live equations lie
    /// less than the depth and 100 past the mark, and that the mark is far below 2^63.
    #[inline]
    pub fn depth(&self) -> u32
        ensures value { result ≡ self.now.state.playout.depth }
        ensures limit { result ≤ 1000 }
        ensures mark { self.now.state.mark < farthest_limit + 200 }
        ensures facts { Holds self.now.state }
    {
        self.depth
    }

    /// How many positions a play closes: 1 to 100, and no more than the depth.
    #[inline]
    pub fn window(&self) -> u32
        ensures value { result ≡ self.now.state.playout.window }
        ensures some { 1 ≤ result }
        ensures limit { result ≤ 100 }
        ensures depth { result ≤ self.now.state.playout.depth }
    {
        self.window
    }

    /// How often solved words were withdrawn: at each inconsistent play, and where a media word came for a
    /// position at which another one was solved.
    pub fn epoch(&self) -> u64
        ensures { result ≡ self.now.epoch }
    {
        self.epoch
    }

    /// How many equations are live.
    pub fn live(&self) -> u32
        ensures { result ≡ len self.now.state.equations }
    {
        self.lines.count() as u32
    }

    /// How many equations were ever admitted. The next one gets this serial number.
    pub fn admitted(&self) -> u64
        ensures { result ≡ self.now.state.admitted }
    {
        self.admitted
    }

    /// The word known at a position: kept, received or solved. None exactly where none is known.
    pub fn word(&self, slot: u64) -> Option<&Word>
        ensures { option_copied result ≡ known_in self.now slot }
    {
        self.buffer.word(slot)
    }

    /// The word that the desk's own datagrams and plays gave at a position: kept or received. A word that
    /// was filled in is left aside.
    pub fn own_word(&self, slot: u64) -> Option<&Word>
        ensures { option_copied result ≡ known self.now.state slot }
    {
        if slot < self.buffer.mark() {
            self.buffer.word(slot)
        } else {
            self.buffer.received(slot)
        }
    }

    /// Whether a word is kept at a position, was received there, or follows there as far as was looked. A word
    /// that follows need not be known: plays find words ahead of the window that they close.
    pub fn has_found(&self, slot: u64) -> bool
        ensures known { IsSome (known_in self.now slot) → IsTrue result }
        ensures closure { IsTrue result → InClosure self.now.state slot }
    {
        peelings_fill_the_closure();
        mark_makes_no_difference();
        self.buffer.any_word(slot).is_some()
    }

    /// The share of the word known at a position. None exactly where none is known or it stands
    /// alone.
    pub fn share(&self, slot: u64) -> Option<&Shared>
        ensures { option_copied result ≡ shared_at self.now slot }
    {
        self.buffer.share(slot)
    }

    /// Whether the word kept at a position was repaired: it was not received when it was shown.
    pub fn repaired(&self, slot: u64) -> bool
        ensures { result ≡ contains self.now.repaired slot }
    {
        self.buffer.is_repaired(slot)
    }

    /// The position and the sequence number of the current run's farthest media datagram. None before
    /// the first one.
    pub fn top(&self) -> Option<(u64, u16)>
        ensures { result ≡ option_map (λ top. (top.position, top.seq)) self.now.state.top }
    {
        match self.top {
            Some(top) => Some((top.position, top.seq)),
            None => None,
        }
    }

    /// The SSRC of the current run's sender. None before the first media datagram.
    pub fn current(&self) -> Option<u32>
        ensures { result ≡ current self.now.state }
    {
        match self.top {
            Some(top) => Some(top.ssrc),
            None => None,
        }
    }

    /// The SSRC of the run before, where there was one.
    pub fn previous(&self) -> Option<u32>
        ensures { result ≡ self.now.state.previous }
    {
        self.previous
    }

    /// How long a received word may wait, in microseconds. 0 where it may wait for ever.
    #[inline]
    pub fn hold(&self) -> u64
        ensures { result ≡ self.now.state.playout.hold }
    {
        self.waiting.hold()
    }

    /// Whether a held step at this time would play: a position is held once the desk is told the time, in
    /// microseconds. It isn't told here, and nothing changes. False where a word may wait for ever.
    #[inline]
    pub fn held(&self, time: u64) -> bool
        ensures { IsTrue result ↔ ((position : ℕ) × IsHeld (at_time self.now.state time) position) }
    {
        self.greatest_held(time).is_some()
    }

    /// How many positions a held step at this time would play, and 0 where it would play none. The desk isn't
    /// told the time, and nothing changes.
    #[inline]
    pub fn held_count(&self, time: u64) -> u32
        ensures none { result ≡ 0 → (position : ℕ) → ¬ IsHeld (at_time self.now.state time) position }
        ensures some { result ≢ 0 → (greatest : ℕ)
            × IsGreatest (IsHeld (at_time self.now.state time)) greatest
            × (result ≡ min self.now.state.playout.window (greatest + 1 - self.now.state.mark)) }
    {
        match self.greatest_held(time) {
            Some(greatest) => count_to(self.window, self.buffer.mark(), greatest),
            None => 0,
        }
    }

    /// How many runs of a sender were begun.
    #[inline]
    pub fn runs(&self) -> u64
        ensures { result ≡ self.now.state.runs }
    {
        self.runs
    }

    /// The live equation at a place. None exactly where no live equation has it.
    pub fn line(&self, place: u32) -> Option<&Line>
        ensures some { IfSome result (λ line.
            (get self.now.state.equations line.now.serial ≡ Some (live_of line.now))
            × (line.now.place ≡ place)) }
        ensures none { IfNone result ((serial : ℕ) (live : Live)
            → get self.now.state.equations serial ≡ Some live → live.place ≢ place) }
    {
        self.lines.at(place)
    }

    /// The live equations in two groups: those that a play may have to look at, and those known to come out.
    pub fn live_lines(&self) -> (&Slab<Line>, &Slab<Line>)
        ensures live { (line : LiveLine) → IsAmong result.0.now result.1.now line
            ↔ (get self.now.state.equations line.serial ≡ Some (live_of line)) }
        ensures within { (line : LiveLine) → IsAmong result.0.now result.1.now line
            → IsShape line.shape.offset line.shape.na × (line.base ≤ position_limit) }
    {
        (self.lines.open(), self.lines.settled())
    }

    /// Whether the desk may change: the mark and the farthest position are below 2^61, and fewer
    /// than 2^62 calls were made that may change it.
    pub fn room(&self) -> bool
        ensures room { IsTrue result ↔ HasRoom self.now.state }
        ensures facts { Holds self.now.state }
        ensures solved { AreSolved self.now }
    {
        let top_has_room = match self.top {
            Some(top) => top.position < FARTHEST_LIMIT,
            None => true,
        };
        top_has_room && self.buffer.mark() < FARTHEST_LIMIT && self.calls < CALL_LIMIT
    }

    /// Whether an SSRC is fresh: there is a run, and neither it nor the run before has this SSRC. Before its
    /// datagram is admitted the desk is flushed, since a run begins with it.
    #[inline]
    pub fn fresh(&self, ssrc: u32) -> bool
        ensures { IsTrue result ↔ IsFresh self.now.state ssrc }
    {
        match self.top {
            Some(top) => top.ssrc != ssrc && self.previous != Some(ssrc),
            None => false,
        }
    }

    /// Whether a play is due before a datagram of this sequence number and SSRC is admitted: it is of the
    /// current run, and lies the depth past the mark, or farther.
    #[inline]
    pub fn due(&self, seq: u16, ssrc: u32) -> bool
        ensures { IsTrue result ↔ IsDue self.now.state seq ssrc }
    {
        let Some(top) = self.top else {
            return false;
        };
        if top.ssrc != ssrc {
            return false;
        }
        match position(top.position, top.seq, seq) {
            Some(position) => position >= self.buffer.mark() + u64::from(self.depth),
            None => false,
        }
    }

    /// A share that the desk let go, where it has one, for the payload of the next datagram. It keeps
    /// 128 at most of payloads and 128 of parities. Somebody else may have a share of the same word.
    pub fn spare(&mut self) -> Option<Shared>
        ensures { self.new ≡ self.old }
    {
        match self.lines.spare() {
            Some(share) => Some(share),
            None => self.buffer.spare(),
        }
    }

    /// Takes a word that the live equation at a place gives at its one slot without a known word. It is
    /// solved from then on. This is none of the calls that are counted, and it takes no memory.
    pub fn fill(&mut self, place: u32, slot: u64, share: Shared)
        requires { IsLiveAt self.old.state place (λ equation. CanFill self.old equation slot share) }
        ensures { self.new ≡ filled self.old slot share }
    {
        peelings_fill_the_closure();
        xor_is_a_group();
        publish(
            &mut self.buffer,
            &mut self.lines,
            &mut self.watches,
            slot,
            share,
        );
        self.lines.settle_at(place);
    }

    /// Takes it that the live equation at a place comes out: all its slots have known words, which sum to
    /// its parity word. A play then needn't sum them again. Nothing else changes, and it takes no memory.
    pub fn vouch(&mut self, place: u32)
        requires { IsLiveAt self.old.state place (IsSettled (known_in self.old)) }
        ensures { self.new ≡ self.old }
    {
        self.lines.settle_at(place);
    }

    /// Tells the desk a time, and answers the greatest position whose word has waited for as long as one
    /// may, or longer.
    #[inline]
    fn tell(&mut self, time: u64) -> Option<u64>
        requires { self.old.state.playout.hold ≢ 0 }
        ensures state { self.new ≡ record self.old { state = at_time self.old.state time } }
        ensures some { IfSome result (IsGreatest (IsHeld self.new.state)) }
        ensures none { IfNone result ((position : ℕ) → ¬ IsHeld self.new.state position) }
        ensures near { IfSome result (λ greatest. (self.new.state.mark ≤ greatest)
            × (greatest < self.new.state.mark + 1000)) }
    {
        let mark = self.buffer.mark();
        tell(&mut self.waiting, time, mark)
    }

    /// The greatest position that is held once the desk is told this time. It isn't told here.
    #[inline]
    fn greatest_held(&self, time: u64) -> Option<u64>
        ensures some { IfSome result (IsGreatest (IsHeld (at_time self.now.state time))) }
        ensures none { IfNone result ((position : ℕ) → ¬ IsHeld (at_time self.now.state time) position) }
        ensures limit { IfSome result (λ greatest. greatest < 2 ^ 62) }
    {
        held_by(&self.waiting, time, self.buffer.mark())
    }
}
