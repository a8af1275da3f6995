//! Where seats sleep that wait for their turn.
use std::sync::Wait;
use std::sync::atomic::AtomicU64;
use std::sync::atomic::Ordering::SeqCst;

/// How many words there are.
const WORDS: u64 = 16;

/// How many turns before its own a seat is woken: waking takes as long as some turns.
const AHEAD: u64 = 2;

/// A row of words, each for the tickets that are the same modulo 16.
///
/// A word has the token of the ticket whose seat was the last to announce that it will sleep there, until a seat that
/// leaves stores 0 in its place.
#[derive(Drop)]
pub(crate) struct Sleepers {
    words: [AtomicU64; 16],
}

// Odd, so it is not 0, and below 2^32. Tickets that are out at once have tokens that differ.
fn token(ticket: u64) -> u32 {
    2 * (ticket & 0x7fff_ffff) as u32 + 1
}

impl Sleepers {
    pub(crate) fn new() -> Sleepers {
        Sleepers {
            words: [
                AtomicU64::new(0),
                AtomicU64::new(0),
                AtomicU64::new(0),
                AtomicU64::new(0),
                AtomicU64::new(0),
                AtomicU64::new(0),
                AtomicU64::new(0),
                AtomicU64::new(0),
                AtomicU64::new(0),
                AtomicU64::new(0),
                AtomicU64::new(0),
                AtomicU64::new(0),
                AtomicU64::new(0),
                AtomicU64::new(0),
                AtomicU64::new(0),
                AtomicU64::new(0),
            ],
        }
    }

    fn word(&self, ticket: u64) -> &AtomicU64 {
        &self.words[(ticket % WORDS) as usize]
    }

    /// Announces that the seat with this ticket is about to sleep. It has to look once more before it does.
    pub(crate) fn announce(&self, ticket: u64) {
        self.word(ticket).store(u64::from(token(ticket)), SeqCst);
    }

    /// Sleeps, unless the word has changed since the announcement, until it is woken.
    pub(crate) fn sleep(&self, wait: &impl Wait, ticket: u64) {
        self.word(ticket).park(wait, token(ticket));
    }

    /// Wakes the seat whose ticket is served now, and the one that comes some turns later, which is then awake when its turn
    /// comes.
    pub(crate) fn wake(&self, ticket: u64) {
        self.wake_one(ticket);
        self.wake_one(ticket.wrapping_add(AHEAD));
    }

    /// Wakes the seat with this ticket, where one sleeps or is about to. Whoever else sleeps on its word looks again.
    fn wake_one(&self, ticket: u64) {
        let word = self.word(ticket);
        if word.load(SeqCst) != 0 {
            word.store(0, SeqCst);
            word.wake_all();
        }
    }
}
