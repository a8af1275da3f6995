//! Which places of a flow's tallies wait to be settled, and the equations there.
ghost use Rattle.std.specs.Prelude.{◌≡◌, IfSome};

use crate::bits::Bits;
use fg_board::Key;
use fg_shape::Shape;
use std::alloc::{AllocError, Global};
use std::sync::atomic::{AtomicU8, AtomicU16, AtomicU64, Ordering};

/// How many equations of a flow can be live at once, each at a place of its own.
pub(crate) const PLACES: u32 = 512;

/// An equation that was admitted, as far as a worker has to know it before it starts a tally.
#[derive(Clone, Copy)]
pub struct HeldEquation {
    pub key: Key,
    /// The position of its base, modulo 65,536.
    pub base: u16,
    pub shape: Shape,
}

impl HeldEquation {
    /// The position of a slot by its number, modulo 65,536.
    pub(crate) fn position(&self, number: u8) -> u16 {
        let distance = u16::from(number).wrapping_mul(u16::from(self.shape.offset));
        self.base.wrapping_add(distance)
    }
}

/// What is told of the equation at a place, in words of its own.
#[derive(Drop)]
struct Told {
    serial: AtomicU64,
    base: AtomicU16,
    offset: AtomicU8,
    count: AtomicU8,
}

/// Which places have an equation that was admitted and, for all that is known here, isn't settled yet, and which one. It only
/// saves looks: whoever reads what was told of two equations in turn gets a key that the board knows nothing of, or the slots of
/// another equation, and a tally tells itself what it holds.
#[derive(Drop)]
pub struct HeldPlaces {
    bits: Bits,
    told: Vec<Told>,
    /// The epoch of the key that was told last, which all keys are taken to have.
    epoch: AtomicU64,
}

impl HeldPlaces {
    /// None.
    pub(crate) fn new(alloc: Global) -> Result<HeldPlaces, AllocError> {
        let mut told = Vec::with_capacity(alloc, PLACES as usize)?;
        for _ in 0..PLACES {
            told.push(Told {
                serial: AtomicU64::new(0),
                base: AtomicU16::new(0),
                offset: AtomicU8::new(0),
                count: AtomicU8::new(0),
            })?;
        }
        Ok(HeldPlaces {
            bits: Bits::new(alloc, PLACES as usize / 64)?,
            told,
            epoch: AtomicU64::new(0),
        })
    }

    /// Whether a place is marked.
    pub(crate) fn has(&self, place: u32) -> bool {
        self.bits.has(place as usize)
    }

    /// Which of 64 places are marked: bit `i` is that of the place `64 * word + i`.
    pub(crate) fn word(&self, word: u32) -> u64 {
        self.bits.word(word as usize)
    }

    /// Tells of an equation that was admitted, and marks its place. What already stands there isn't stored again, since a store
    /// costs more than a look.
    pub fn tell(&self, waiting: HeldEquation) {
        let place = waiting.key.place as usize;
        if let Some(told) = self.told.get(place) {
            told.serial.store(waiting.key.serial, Ordering::SeqCst);
            told.base.store(waiting.base, Ordering::SeqCst);
            put(&told.offset, waiting.shape.offset);
            put(&told.count, waiting.shape.na);
            if self.epoch.load(Ordering::SeqCst) != waiting.key.epoch {
                self.epoch.store(waiting.key.epoch, Ordering::SeqCst);
            }
            self.bits.set(place);
        }
    }

    /// What was told last of the equation at a place.
    pub(crate) fn at(&self, place: u32) -> Option<HeldEquation>
        ensures { IfSome result (λ waiting. waiting.key.place ≡ place) }
    {
        let told = self.told.get(place as usize)?;
        Some(HeldEquation {
            key: Key {
                place,
                serial: told.serial.load(Ordering::SeqCst),
                epoch: self.epoch.load(Ordering::SeqCst),
            },
            base: told.base.load(Ordering::SeqCst),
            shape: Shape {
                offset: told.offset.load(Ordering::SeqCst),
                na: told.count.load(Ordering::SeqCst),
            },
        })
    }

    /// Marks the place of an equation no more, since there is nothing left to do for a worker. Where another equation was told of
    /// meanwhile, the place stays marked.
    pub(crate) fn unmark(&self, key: Key) {
        self.bits.clear(key.place as usize);
        if let Some(waiting) = self.at(key.place) {
            if waiting.key.serial != key.serial {
                self.bits.set(key.place as usize);
            }
        }
    }
}

/// Has a number stand in a word.
fn put(word: &AtomicU8, number: u8) {
    if word.load(Ordering::SeqCst) != number {
        word.store(number, Ordering::SeqCst);
    }
}
