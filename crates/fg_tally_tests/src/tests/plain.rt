//! A flow and its tallies, kept plainly. Words are timestamps alone, and no equation spans 100 positions.

use super::stage::PLACES;
use fg_board::{Fate, Key};
use fg_shape::Shape;
use fg_tally::{Begun, Folded, Held};
use std::alloc::{AllocError, Global};

/// Positions are below this.
const POSITIONS: usize = 512;

/// An equation that was admitted.
#[derive(Clone, Copy)]
pub(super) struct Sum {
    pub key: Key,
    pub base: usize,
    pub shape: Shape,
    pub parity: u32,
}

/// What a tally holds.
#[derive(Clone, Copy)]
struct Counted {
    sum: Sum,
    /// Bit `j` is set where the slot of number `j` was folded.
    folded: u32,
    /// The sum of the parity and the folded words.
    rest: u32,
}

/// What there is of a position: the word that was received, that which a play showed, and that which a tally gave.
#[derive(Clone, Copy)]
struct Place {
    received: Option<u32>,
    shown: Option<u32>,
    solved: Option<u32>,
}

const NOTHING: Place = Place {
    received: None,
    shown: None,
    solved: None,
};

#[derive(Drop)]
pub(super) struct Plain {
    pub mark: usize,
    pub epoch: u64,
    places: Vec<Place>,
    /// By their serial numbers.
    pub admitted: Vec<Sum>,
    /// By their places.
    tallies: Vec<Option<Counted>>,
}

impl Sum {
    pub(super) fn slot(&self, number: u32) -> usize {
        let distance = number.wrapping_mul(u32::from(self.shape.offset));
        self.base.wrapping_add(distance as usize)
    }

    fn last(&self) -> usize {
        self.slot(u32::from(self.shape.na).wrapping_sub(1))
    }
}

impl Counted {
    fn is_folded(&self, number: u32) -> bool {
        self.folded.wrapping_shr(number) & 1 == 1
    }

    /// What a fold tells, by a count of the slots that aren't folded.
    fn answer(&self) -> Folded {
        let mut missing = 0u8;
        let mut last = 0;
        for number in 0..u32::from(self.sum.shape.na) {
            if !self.is_folded(number) {
                missing = missing.wrapping_add(1);
                last = self.sum.slot(number);
            }
        }
        match missing {
            0 => Folded::Whole(self.rest == 0),
            1 => Folded::Last(last as u64),
            _ => Folded::Waiting(missing),
        }
    }
}

impl Plain {
    pub(super) fn new(alloc: Global) -> Result<Plain, AllocError> {
        Ok(Plain {
            mark: 0,
            epoch: 0,
            places: vec![in alloc; NOTHING; POSITIONS]?,
            admitted: Vec::new(alloc),
            tallies: vec![in alloc; None; PLACES as usize]?,
        })
    }

    /// What there is of a position.
    fn at(&self, position: usize) -> Place {
        match self.places.get(position) {
            Some(place) => *place,
            None => NOTHING,
        }
    }

    fn put(&mut self, position: usize, place: Place) {
        if let Some(entry) = self.places.get_mut(position) {
            *entry = place;
        }
    }

    /// The word known at a position.
    fn known(&self, position: usize) -> Option<u32> {
        let place = self.at(position);
        if position < self.mark {
            place.shown
        } else {
            place.received.or(place.solved)
        }
    }

    /// What tallies gave is withdrawn, since a received word differs or a play was inconsistent. No key from before is
    /// current then.
    pub(super) fn withdraw(&mut self) {
        self.epoch = self.epoch.wrapping_add(1);
        for place in self.places.iter_mut() {
            place.solved = None;
        }
    }

    /// A word comes for a position. Whether it is admitted.
    pub(super) fn media(&mut self, position: usize, word: u32) -> bool {
        let place = self.at(position);
        if position < self.mark || place.received.is_some() {
            return false;
        }
        if place.solved.is_some() && place.solved != Some(word) {
            self.withdraw();
        }
        let received = Some(word);
        let solved = None;
        self.put(
            position,
            Place {
                received,
                solved,
                ..place
            },
        );
        true
    }

    /// A play shows this at the mark.
    pub(super) fn show(&mut self, word: Option<u32>) {
        let place = self.at(self.mark);
        self.put(
            self.mark,
            Place {
                shown: word,
                ..place
            },
        );
        self.mark = self.mark.wrapping_add(1);
    }

    /// Whether a play showed nothing at one of its slots.
    fn is_lost(&self, sum: &Sum) -> bool {
        for number in 0..u32::from(sum.shape.na) {
            let slot = sum.slot(number);
            if slot < self.mark && self.known(slot).is_none() {
                return true;
            }
        }
        false
    }

    /// Whether it is live, and nothing was withdrawn since it was admitted.
    pub(super) fn is_current(&self, sum: &Sum) -> bool {
        sum.key.epoch == self.epoch && sum.last() >= self.mark && !self.is_lost(sum)
    }

    fn gone(&self) -> Fate {
        Fate::Gone {
            mark: self.mark as u64,
            epoch: self.epoch,
        }
    }

    /// What the tally of the place holds, where that is this equation.
    fn counted(&self, sum: &Sum) -> Option<Counted> {
        let counted = (*self.tallies.get(sum.key.place as usize)?)?;
        if counted.sum.key != sum.key {
            return None;
        }
        Some(counted)
    }

    fn keep(&mut self, place: u32, counted: Option<Counted>) {
        if let Some(entry) = self.tallies.get_mut(place as usize) {
            *entry = counted;
        }
    }

    /// The tally of its place starts with it.
    pub(super) fn start(&mut self, sum: &Sum) -> Begun {
        if !self.is_current(sum) {
            self.keep(sum.key.place, None);
            return Begun::Gone {
                mark: self.mark as u64,
                epoch: self.epoch,
            };
        }
        let counted = Counted {
            sum: *sum,
            folded: 0,
            rest: sum.parity,
        };
        self.keep(sum.key.place, Some(counted));
        Begun::Held
    }

    /// The tally of its place folds a slot of it.
    pub(super) fn fold(&mut self, sum: &Sum, number: u32) -> Folded {
        let Some(mut counted) = self.counted(sum) else {
            return Folded::Stale;
        };
        if !self.is_current(sum) {
            return Folded::Stale;
        }
        let Some(word) = self.known(sum.slot(number)) else {
            return Folded::Unknown;
        };
        if !counted.is_folded(number) {
            counted.folded |= 1u32.wrapping_shl(number);
            counted.rest ^= word;
        }
        self.keep(sum.key.place, Some(counted));
        counted.answer()
    }

    /// The tally of its place settles it. What the board answers, and the word that it takes.
    pub(super) fn settle(&mut self, sum: &Sum) -> (Option<Fate>, Option<(u64, u32)>) {
        let Some(counted) = self.counted(sum) else {
            return (None, None);
        };
        match counted.answer() {
            Folded::Last(slot) => self.offer(sum, slot, counted.rest),
            Folded::Whole(_) if self.is_current(sum) => (Some(Fate::Done), None),
            Folded::Whole(_) => (Some(self.gone()), None),
            _ => (None, None),
        }
    }

    fn offer(&mut self, sum: &Sum, slot: u64, word: u32) -> (Option<Fate>, Option<(u64, u32)>) {
        if !self.is_current(sum) {
            return (Some(self.gone()), None);
        }
        if self.known(slot as usize).is_some() {
            return (Some(Fate::Beaten(slot)), None);
        }
        let place = self.at(slot as usize);
        let solved = Some(word);
        self.put(slot as usize, Place { solved, ..place });
        (Some(Fate::Done), Some((slot, word)))
    }

    /// Whether the tally of its place shows what it holds, of whatever equation that is.
    pub(super) fn shows(&self, place: u32, held: Option<Held>) -> bool {
        let counted = match self.tallies.get(place as usize) {
            Some(counted) => *counted,
            None => None,
        };
        match (counted, held) {
            (Some(counted), Some(held)) => {
                held.key == counted.sum.key
                    && held.base == counted.sum.base as u64
                    && held.shape == counted.sum.shape
                    && held.folded == counted.folded
            }
            (None, None) => true,
            _ => false,
        }
    }
}
