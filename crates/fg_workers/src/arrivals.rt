//! Which positions of a flow have a word.

use crate::bits::{Bits, mask};
use fg_desk::Played;
use std::alloc::{AllocError, Global};

/// How many words of 64 bits a flow's arrivals take: one bit for each sequence number.
const WORDS: usize = 1024;

/// Which positions near the newest ones have a word, modulo 65,536: a media datagram was admitted, or a worker's word was
/// taken. It only saves looks: what a board knows it tells itself.
#[derive(Drop)]
pub struct Arrivals {
    bits: Bits,
}

impl Arrivals {
    /// None.
    pub(crate) fn new(alloc: Global) -> Result<Arrivals, AllocError> {
        Ok(Arrivals {
            bits: Bits::new(alloc, WORDS)?,
        })
    }

    /// Whether a position, modulo 65,536, has a word.
    pub(crate) fn has(&self, position: u16) -> bool {
        self.bits.has(usize::from(position))
    }

    /// Marks a position that has a word now.
    pub(crate) fn mark(&self, position: u64) {
        self.bits.set(bit_of(position));
    }
}

/// Where a position stands in the map.
fn bit_of(position: u64) -> usize {
    (position % (64 * WORDS as u64)) as usize
}

/// How far the caller has come with a flow's datagrams, and what it has not told of them yet.
#[derive(Clone, Copy)]
pub struct Progress {
    /// The sequence number that position 0 has in the current run, modulo 65,536.
    first: u16,
    /// The position that is played next, modulo 65,536. The next run begins there.
    next: u16,
    /// The word of the map in which the last one stands.
    word: usize,
    /// The bits of that word that are to be set.
    bits: u64,
    /// How many datagrams were admitted since the caller told of them last.
    untold: u32,
}

impl Progress {
    /// None was admitted.
    pub fn new() -> Progress {
        Progress {
            first: 0,
            next: 0,
            word: 0,
            bits: 0,
            untold: 0,
        }
    }

    /// Notes a play.
    pub fn play(&mut self, played: Played) {
        self.next = ((played.first % 65_536) as u16).wrapping_add((played.count % 65_536) as u16);
    }

    /// Notes that so many positions were passed at once.
    pub fn skip(&mut self, positions: u64) {
        self.next = self.next.wrapping_add((positions % 65_536) as u16);
    }

    /// Notes that a run begins with a media datagram of this sequence number.
    pub fn begin(&mut self, seq: u16) {
        self.first = seq.wrapping_sub(self.next);
    }

    /// Adds a media datagram that was admitted. Where that goes into another word of the map than the last one, what stands in that
    /// one is marked, and the word half the map ahead is cleared: what stands there is of an earlier lap.
    pub fn add_media(&mut self, arrivals: &Arrivals, seq: u16) {
        let position = usize::from(self.position(seq));
        let word = position / 64;
        if word != self.word {
            self.mark(arrivals);
            self.word = word;
            arrivals.bits.clear_word((word + WORDS / 2) % WORDS);
        }
        self.bits |= mask(position);
        self.add();
    }

    /// Adds a datagram that was admitted.
    pub fn add(&mut self) {
        self.untold = self.untold.saturating_add(1);
    }

    /// How many datagrams were added since the last call of `tell`.
    pub(crate) fn untold(&self) -> u32 {
        self.untold
    }

    /// Marks all media datagrams that were added. Answers whether any datagram was added since the last call.
    pub(crate) fn tell(&mut self, arrivals: &Arrivals) -> bool {
        self.mark(arrivals);
        let some = self.untold > 0;
        self.untold = 0;
        some
    }

    /// Marks what stands in the last word.
    fn mark(&mut self, arrivals: &Arrivals) {
        if self.bits != 0 {
            arrivals.bits.set_in(self.word, self.bits);
            self.bits = 0;
        }
    }

    /// The position of a sequence number in the current run, modulo 65,536.
    pub fn position(&self, seq: u16) -> u16 {
        seq.wrapping_sub(self.first)
    }
}
