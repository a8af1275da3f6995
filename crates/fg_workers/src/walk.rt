//! One visit of a worker to a flow: a walk over the places whose equations wait.
ghost use Rattle.std.specs.Prelude.{◌<◌, ◌≤◌, ◌+◌};
ghost use Rattle.fg_playout.specs.Admission.{live_limit};

use crate::held_places::PLACES;
use crate::places::{Places, Spot};
use crate::points::{FOLDED, Hears, NO_MEMORY, TAKEN};
use crate::post::Remembered;
use crate::signal::Signal;
use fg_board::Fate;
use fg_crew::Hints;
use std::alloc::{AllocError, Global};
use std::sync::Wait;

/// How many equations a visit settles at most. The rest waits for the next hint.
const SETTLES_A_VISIT: u32 = 4;

/// What a worker did at a place.
#[derive(Clone, Copy)]
enum Help {
    /// It settled nothing.
    Nothing,
    /// It settled the equation, whatever the board said to that.
    Settled,
    /// It found no memory for the word.
    NoMemory,
}

/// A worker at a flow.
#[derive(Drop)]
pub(crate) struct Visit<'a, W: Wait, G: Hears, P: Places> {
    pub(crate) wait: &'a W,
    pub(crate) gate: &'a G,
    pub(crate) hints: &'a Hints,
    pub(crate) signal: &'a Signal,
    pub(crate) places: &'a P,
    pub(crate) alloc: Global,
    /// The flow's number, which a hint names.
    pub(crate) flow: u32,
    /// The worker's number, by which a gate hears it.
    pub(crate) worker: u32,
}

impl<'a, W: Wait, G: Hears, P: Places> Visit<'a, W, G, P> {
    /// Walks over the places, if something has changed since a walk found nothing to settle.
    pub(crate) fn make(&self, remembered: &mut Remembered) {
        self.signal.hear();
        let count = self.signal.count();
        if remembered.idle_at == Some(count) {
            return;
        }
        if self.walk() {
            remembered.idle_at = Some(count);
        }
    }

    /// Goes over the held places in their order. Answers whether it went over all and settled nothing.
    fn walk(&self) -> bool {
        let mut left = SETTLES_A_VISIT;
        for word in 0..PLACES / 64 {
            left = self.walk_over(64 * word, self.signal.held.word(word), left);
            if left == 0 {
                return false;
            }
        }
        left == SETTLES_A_VISIT
    }

    /// Goes over those of the 64 places from a first one on whose bits are set, in their order, until so many equations were
    /// settled. Answers how many more may be.
    fn walk_over(&self, first: u32, marked: u64, left: u32) -> u32
        requires { first + 64 ≤ live_limit }
    {
        let mut left = left;
        let mut marked = marked;
        for _ in 0..64 {
            let bit = marked.trailing_zeros();
            if left == 0 || bit == 64 {
                break;
            }
            marked &= !(1 << bit);
            match self.help(first + bit) {
                Help::Nothing => {}
                Help::Settled => left = left.saturating_sub(1),
                Help::NoMemory => left = 0,
            }
        }
        left
    }

    /// Folds what arrived of the equation at a place, and settles it where at most one slot is missing then.
    fn help(&self, place: u32) -> Help
        requires { place < live_limit }
    {
        if !self.signal.held.has(place) {
            return Help::Nothing;
        }
        let spot = Spot {
            flow: self.flow,
            place,
        };
        let Some(ready) = self.places.fold(self.wait, self.signal, spot) else {
            return Help::Nothing;
        };
        // Another worker may settle the next one meanwhile.
        self.signal.hint(self.wait, self.hints, self.flow);
        self.gate.hear(self.worker, FOLDED);
        let settled = self
            .places
            .settle(self.wait, self.alloc, self.signal, spot, ready.key);
        match settled {
            Ok(Some(fate)) => {
                self.tell(fate, ready.missing);
                Help::Settled
            }
            Ok(None) => Help::Nothing,
            Err(AllocError) => {
                self.gate.hear(self.worker, NO_MEMORY);
                Help::NoMemory
            }
        }
    }

    /// Tells of a word that the board took for a slot.
    fn tell(&self, fate: Fate, missing: Option<u64>) {
        if let (Fate::Done, Some(position)) = (fate, missing) {
            self.signal.arrivals.mark(position);
            self.gate.hear(self.worker, TAKEN);
            self.hints.tell_found();
            self.signal.tell_change(self.wait, self.hints, self.flow);
        }
    }
}
