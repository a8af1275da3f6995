//! How long words wait: which position is the greatest whose word has waited as long as an operator
//! lets it, by the times of a flow's records, found without a scan of the window.
#![tactic(auto)]

ghost use Rattle.std.specs.Prelude.{◌≡◌, ◌≢◌, ◌+◌, ◌<◌, ◌≤◌, ◌^◌, ℕ, length, max, false, None, IsTrue, IsOk, IfOk, IfSome, IfNone};
ghost use Rattle.std.specs.FinMap.{get, empty, insert};
ghost use Rattle.fg_peel.specs.Words.{IsGreatest};
ghost use Rattle.fg_hold.specs.HasWaited.{Times, HasWaited};
ghost use Rattle.fg_hold.specs.Ring.{ring_at};
ghost use Rattle.fg_hold.specs.Steps.{TakesHeld, WillTake, OldestIsUnheld, AreBelow, AreNotBelow, queue_len};
ghost use Rattle.fg_hold.specs.Waiting.{Waits, AreFrom, since, high};

mod ring;
#[cfg(test)]
mod tests;

use ring::Ring;
use std::alloc::{AllocError, Global};
use std::marker::Model;

/// The words that wait at the mark of a window and past it, each since it came. Positions are below
/// 2^62, and times are in microseconds.
#[derive(Drop)]
pub struct Waiting {
    hold: u64,
    clock: u64,
    came: Ring,
    highs: Ring,
    first: u64,
    next: u64,
    high_end: u64,
    held_end: u64,
    earliest_held: u64,
}

impl Model for Waiting {
    ghost use Rattle.fg_hold.specs.Waiting.{WaitingState, waiting_code};

    ghost Value = { WaitingState };

    ghost coded = { waiting_code };

    ghost use Rattle.fg_hold.specs.Inside.{state_of};
    ghost use Rattle.fg_hold.specs.Waiting.{HasRoom};

    ghost view = { state_of };

    ghost invariant = { λ a. HasRoom (state_of a) };
}

impl Waiting {
    /// No word waits, and the clock is 0. A word has waited for too long once the clock is at least
    /// `hold` microseconds past its time. For 0 no word may be put, and no memory is taken.
    pub fn new(alloc: Global, hold: u64) -> Result<Waiting, AllocError>
        ensures hold { IfOk result (λ waiting. waiting.hold ≡ hold) }
        ensures clock { IfOk result (λ waiting. waiting.clock ≡ 0) }
        ensures since { IfOk result (λ waiting. (position : ℕ) → since waiting position ≡ 0) }
        ensures waits { IfOk result (λ waiting. Waits waiting 0 empty) }
        ensures free { hold ≡ 0 → IsOk result }
    {
        Ok(Waiting {
            hold,
            clock: 0,
            came: ring_for(alloc, hold)?,
            highs: ring_for(alloc, hold)?,
            first: 0,
            next: 0,
            high_end: 0,
            held_end: 0,
            earliest_held: 0,
        })
    }

    /// How long a word waits at most, in microseconds.
    #[inline]
    pub fn hold(&self) -> u64
        ensures { result ≡ self.now.hold }
    {
        self.hold
    }

    /// The greatest record time so far, in microseconds.
    #[inline]
    pub fn clock(&self) -> u64
        ensures { result ≡ self.now.clock }
    {
        self.clock
    }

    /// A record of this time comes, in microseconds. Answers the greatest position whose word has
    /// waited long enough. A time that goes back does not set the clock back.
    #[inline]
    pub fn pass_time(&mut self, time: u64, mark: u64) -> Option<u64>
        ensures hold { self.new.hold ≡ self.old.hold }
        ensures clock { self.new.clock ≡ max self.old.clock time }
        ensures since { (position : ℕ) → since self.new position ≡ since self.old position }
        ensures waits { (times : Times) → Waits self.old mark times → Waits self.new mark times }
        ensures some { (times : Times) → Waits self.old mark times →
            IfSome result (IsGreatest (HasWaited self.new.hold self.new.clock times)) }
        ensures none { (times : Times) → Waits self.old mark times →
            IfNone result ((position : ℕ) → ¬ HasWaited self.new.hold self.new.clock times position) }
    {
        self.clock = self.clock.max(time);
        self.take_all_held();
        if mark < self.held_end {
            Some(self.held_end - 1)
        } else {
            None
        }
    }

    /// The greatest position whose word will have waited long enough once a record of this time has come, in
    /// microseconds. It is what `pass_time` then answers, and nothing changes before.
    #[inline]
    pub fn held_by(&self, time: u64, mark: u64) -> Option<u64>
        ensures some { (times : Times) → Waits self.now mark times →
            IfSome result (IsGreatest (HasWaited self.now.hold (max self.now.clock time) times)) }
        ensures none { (times : Times) → Waits self.now mark times →
            IfNone result ((position : ℕ) → ¬ HasWaited self.now.hold (max self.now.clock time) times position) }
    {
        let end = self.held_end_by(self.clock.max(time));
        if mark < end { Some(end - 1) } else { None }
    }

    /// A word comes at a position where none waits, in the window of 1,000 positions from the mark on.
    #[inline]
    pub fn put(&mut self, position: u64)
        requires hold { 0 < self.old.hold }
        requires limit { position < 2 ^ 62 }
        ensures hold { self.new.hold ≡ self.old.hold }
        ensures clock { self.new.clock ≡ self.old.clock }
        ensures here { since self.new position ≡ self.old.clock }
        ensures others { (other : ℕ) → other ≢ position → other < position + 1024 → position < other + 1024 →
            since self.new other ≡ since self.old other }
        ensures waits { (mark : ℕ) (times : Times) → Waits self.old mark times →
            mark ≤ position → position < mark + 1000 → get times position ≡ None →
            Waits self.new mark (insert times position self.old.clock) }
    {
        self.came.set(position, self.clock);
        if position >= self.high_end {
            self.highs.set(self.next, position);
            self.next += 1;
            self.high_end = position + 1;
        }
    }

    /// The mark moves on. All words below it leave.
    #[inline]
    pub fn advance(&mut self, mark: u64)
        ensures hold { self.new.hold ≡ self.old.hold }
        ensures clock { self.new.clock ≡ self.old.clock }
        ensures since { (position : ℕ) → since self.new position ≡ since self.old position }
        ensures waits { (old_mark : ℕ) (times left : Times) → Waits self.old old_mark times →
            old_mark ≤ mark → AreFrom mark times left → Waits self.new mark left }
    {
        self.first = self.number_from(mark);
    }

    /// Takes off the queue the highs that have waited long enough. Nothing is looked at before one may have.
    #[inline]
    fn take_all_held(&mut self)
        ensures takes { TakesHeld self.old self.new }
        ensures oldest { (mark : ℕ) (times : Times) → Waits self.new mark times → OldestIsUnheld self.new }
    {
        if self.clock >= self.earliest_held {
            self.take_while_held();
        }
    }

    /// Takes the oldest highs off the queue while they have waited long enough, and notes from when on another one may have.
    #[inline(never)]
    fn take_while_held(&mut self)
        ensures takes { TakesHeld self.old self.new }
        ensures oldest { OldestIsUnheld self.new }
    {
        while self.take_held() {}
        self.earliest_held = self.since_oldest().saturating_add(self.hold);
    }

    /// One past the greatest high that will have left the queue by this time of the clock, since it will have
    /// waited long enough. Nothing is looked at before one may have.
    #[inline]
    fn held_end_by(&self, clock: u64) -> u64
        ensures { WillTake self.now clock result }
    {
        if clock < self.earliest_held {
            self.held_end
        } else {
            self.held_end_in_queue(clock)
        }
    }

    /// The same, found in the queue, whose oldest high comes first.
    #[inline(never)]
    fn held_end_in_queue(&self, clock: u64) -> u64
        ensures { WillTake self.now clock result }
    {
        let mut end = self.held_end;
        for number in self.first..self.next {
            let high = self.highs.at(number);
            if clock.saturating_sub(self.came.at(high)) < self.hold {
                return end;
            }
            end = high.saturating_add(1);
        }
        end
    }

    /// Since when the oldest high in the queue waits, and now where there is none.
    fn since_oldest(&self) -> u64
        ensures some { self.now.first < self.now.next → result ≡ since self.now (high self.now self.now.first) }
        ensures none { self.now.next ≤ self.now.first → result ≡ self.now.clock }
    {
        if self.first < self.next {
            self.came.at(self.highs.at(self.first))
        } else {
            self.clock
        }
    }

    /// Takes the oldest high off the queue where it has waited long enough, and tells whether.
    #[inline]
    fn take_held(&mut self) -> bool
        ensures takes { TakesHeld self.old self.new }
        ensures fewer { IsTrue result → queue_len self.new < queue_len self.old }
        ensures oldest { result ≡ false → OldestIsUnheld self.new }
    {
        if self.first >= self.next {
            return false;
        }
        // A high came at a time of the clock, and is far below 2^64: nothing saturates.
        let high = self.highs.at(self.first);
        if self.clock.saturating_sub(self.came.at(high)) < self.hold {
            return false;
        }
        self.first += 1;
        self.held_end = high.saturating_add(1);
        true
    }

    /// The number of the oldest high in the queue that isn't below the mark, and one past the newest where all are.
    fn number_from(&self, mark: u64) -> u64
        ensures below { AreBelow mark self.now result }
        ensures rest { AreNotBelow mark self.now result }
    {
        // Each lies past the one before it, so no more are below the mark than the mark is past the oldest.
        let most = mark.saturating_sub(self.highs.at(self.first));
        let mut below = self.first;
        let mut rest = self.first + most.min(self.next - self.first);
        while below < rest {
            let middle = below + (rest - below) / 2;
            if self.highs.at(middle) < mark {
                below = middle + 1;
            } else {
                rest = middle;
            }
        }
        below
    }
}

/// A ring of zeros where words may wait, and else none.
fn ring_for(alloc: Global, hold: u64) -> Result<Ring, AllocError>
    ensures room { IfOk result (λ ring. 0 < hold → length ring ≡ 1024) }
    ensures zeros { IfOk result (λ ring. (index : ℕ) → ring_at ring index ≡ 0) }
    ensures free { hold ≡ 0 → IsOk result }
{
    if hold == 0 {
        Ok(Ring::none(alloc))
    } else {
        Ring::new(alloc)
    }
}
