//! Rows of bits that threads set and clear without a lock.

use std::alloc::{AllocError, Global};
use std::sync::atomic::{AtomicU64, Ordering};

/// A row of bits. Whoever reads one may find it as it was or as it is: nothing rests on what stands here.
#[derive(Drop)]
pub(crate) struct Bits {
    words: Vec<AtomicU64>,
}

impl Bits {
    /// So many words of 64 bits, of which none is set. All memory is taken here.
    pub(crate) fn new(alloc: Global, count: usize) -> Result<Bits, AllocError> {
        let mut words = Vec::with_capacity(alloc, count)?;
        for _ in 0..count {
            words.push(AtomicU64::new(0))?;
        }
        Ok(Bits { words })
    }

    /// Whether a bit is set. One past the end never is.
    pub(crate) fn has(&self, bit: usize) -> bool {
        match self.words.as_slice().get(bit / 64) {
            Some(word) => word.load(Ordering::SeqCst) & mask(bit) != 0,
            None => false,
        }
    }

    /// The 64 bits of a word. Past the end none is set.
    pub(crate) fn word(&self, word: usize) -> u64 {
        match self.words.as_slice().get(word) {
            Some(word) => word.load(Ordering::SeqCst),
            None => 0,
        }
    }

    /// Sets a bit, where there is one.
    pub(crate) fn set(&self, bit: usize) {
        self.set_in(bit / 64, mask(bit));
    }

    /// Sets these bits of a word, where there is one.
    pub(crate) fn set_in(&self, word: usize, bits: u64) {
        if let Some(word) = self.words.as_slice().get(word) {
            word.fetch_or(bits, Ordering::SeqCst);
        }
    }

    /// Clears a bit, where there is one.
    pub(crate) fn clear(&self, bit: usize) {
        if let Some(word) = self.words.as_slice().get(bit / 64) {
            word.fetch_and(!mask(bit), Ordering::SeqCst);
        }
    }

    /// Clears the 64 bits of a word, where there is one.
    pub(crate) fn clear_word(&self, word: usize) {
        if let Some(word) = self.words.as_slice().get(word) {
            word.store(0, Ordering::SeqCst);
        }
    }
}

/// A bit in its word.
pub(crate) fn mask(bit: usize) -> u64 {
    1u64 << (bit % 64)
}
