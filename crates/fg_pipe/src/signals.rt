//! What the stages tell each other, and how they rest. No fact rests on it.
use std::sync::Wait;
use std::sync::atomic::{AtomicBool, AtomicU64, Ordering};
use std::time::Duration;

/// The longest rest, in milliseconds. A stage that can go on is woken before.
const LONGEST: u64 = 100;

/// The stages in other threads.
const OTHERS: u64 = 2;

/// How often the body looks for the others, and how long it rests between two looks, in milliseconds: a second in all.
const LOOKS: u32 = 100;

const BETWEEN: u64 = 10;

/// Whether the stages of other threads are to go on: it isn't told yet, they are, or they are not.
const UNTOLD: u64 = 0;

const ON: u64 = 1;

const NEVER: u64 = 2;

/// Wakes a stage that rests.
#[derive(Drop)]
pub(crate) struct Bell {
    rung: AtomicU64,
}

impl Bell {
    fn new() -> Bell {
        Bell {
            rung: AtomicU64::new(0),
        }
    }

    /// How often it was rung. Who rests tells what it heard before it looked, so that no ring is missed.
    pub(crate) fn heard(&self) -> u64 {
        self.rung.load(Ordering::SeqCst)
    }

    pub(crate) fn ring(&self) {
        self.rung.fetch_add(1, Ordering::SeqCst);
        self.rung.wake_all();
    }

    /// Rests until it is rung again.
    pub(crate) fn rest<W: Wait>(&self, wait: &W, heard: u64) {
        let low = (heard & 0xffff_ffff) as u32;
        self.rung
            .park_timeout(wait, low, Duration::from_millis(LONGEST));
    }
}

/// What three stages tell each other.
#[derive(Drop)]
pub(crate) struct Signals {
    pub(crate) giver: Bell,
    pub(crate) maker: Bell,
    pub(crate) storer: Bell,
    // How many stages of other threads have begun, and whether they are to go on.
    begun: AtomicU64,
    way: AtomicU64,
    // Nothing more is given; nothing more is made; all are to stop.
    given: AtomicBool,
    made: AtomicBool,
    stopped: AtomicBool,
}

impl Signals {
    pub(crate) fn new() -> Signals {
        Signals {
            giver: Bell::new(),
            maker: Bell::new(),
            storer: Bell::new(),
            begun: AtomicU64::new(0),
            way: AtomicU64::new(UNTOLD),
            given: AtomicBool::new(false),
            made: AtomicBool::new(false),
            stopped: AtomicBool::new(false),
        }
    }

    /// Tells that a stage of another thread has begun, and waits to be told whether it is to go on. It is not where the other one
    /// had no thread: then this may be called in the body's own thread, after it.
    pub(crate) fn begin<W: Wait>(&self, wait: &W) -> bool {
        self.begun.fetch_add(1, Ordering::SeqCst);
        self.begun.wake_all();
        for _ in wait.forever() {
            let way = self.way.load(Ordering::SeqCst);
            if way != UNTOLD {
                return way == ON;
            }
            self.way.park(wait, UNTOLD as u32);
        }
        unreachable!()
    }

    /// Waits until the stages of the other threads have begun, for a second at most, and has them go on; else nobody does.
    pub(crate) fn lead<W: Wait>(&self, wait: &W) -> bool {
        for _ in 0..LOOKS {
            let begun = self.begun.load(Ordering::SeqCst);
            if begun >= OTHERS {
                break;
            }
            self.begun.park_timeout(
                wait,
                (begun & 0xffff_ffff) as u32,
                Duration::from_millis(BETWEEN),
            );
        }
        let on = self.begun.load(Ordering::SeqCst) >= OTHERS;
        self.way
            .store(if on { ON } else { NEVER }, Ordering::SeqCst);
        self.way.wake_all();
        on
    }

    pub(crate) fn end_giving(&self) {
        self.given.store(true, Ordering::SeqCst);
        self.maker.ring();
    }

    pub(crate) fn is_given(&self) -> bool {
        self.given.load(Ordering::SeqCst)
    }

    pub(crate) fn end_making(&self) {
        self.made.store(true, Ordering::SeqCst);
        self.storer.ring();
    }

    pub(crate) fn is_made(&self) -> bool {
        self.made.load(Ordering::SeqCst)
    }

    /// Has the giver and the maker stop, since nothing more is made or stored.
    pub(crate) fn stop(&self) {
        self.stopped.store(true, Ordering::SeqCst);
        self.giver.ring();
        self.maker.ring();
    }

    pub(crate) fn is_stopped(&self) -> bool {
        self.stopped.load(Ordering::SeqCst)
    }
}
