//! Workers beside a run, whom a gate holds.
use super::*;
use std::sync::atomic::{AtomicU64, Ordering};
use std::time::Duration;

/// How many naps a thread is held at most.
const NAPS: u32 = 10_000;

/// Points of the gate: a worker has folded all but one slot of an equation, and not yet settled it; a board has taken a word;
/// the caller is about to play.
const FOLDED: u32 = 1;

const TAKEN: u32 = 3;

pub(super) const PLAYS: u32 = 5;

/// Counts of what passed a gate, and naps.
#[derive(Drop)]
pub(super) struct Counts<'a, W: Wait> {
    wait: &'a W,
    /// It stays 0, so that a nap on it ends by time.
    clock: AtomicU64,
    /// The first worker that had an equation to settle, or 0.
    first: AtomicU64,
    /// How many words were taken of others than that one, and how many of all.
    others: AtomicU64,
    all: AtomicU64,
    /// How often the caller was about to play.
    pub(super) plays: AtomicU64,
    /// How many holds came to their end in vain.
    failed: AtomicU64,
}

impl<'a, W: Wait> Counts<'a, W> {
    /// Nothing has passed.
    pub(super) fn new(wait: &'a W) -> Counts<'a, W> {
        Counts {
            wait,
            clock: AtomicU64::new(0),
            first: AtomicU64::new(0),
            others: AtomicU64::new(0),
            all: AtomicU64::new(0),
            plays: AtomicU64::new(0),
            failed: AtomicU64::new(0),
        }
    }

    /// Whether each hold came to its end by what it was for.
    pub(super) fn all_met(&self) -> bool {
        self.failed.load(Ordering::SeqCst) == 0
    }

    /// Counts a word of the worker that was taken.
    fn count_word(&self, worker: u32) {
        self.all.fetch_add(1, Ordering::SeqCst);
        if self.first.load(Ordering::SeqCst) != u64::from(worker) {
            self.others.fetch_add(1, Ordering::SeqCst);
        }
    }

    /// Holds the thread until the count is this or more.
    pub(super) fn hold(&self, count: &AtomicU64, least: u64) {
        for _ in 0..NAPS {
            if count.load(Ordering::SeqCst) >= least {
                return;
            }
            self.nap(1_000);
        }
        self.failed.fetch_add(1, Ordering::SeqCst);
    }

    /// Holds the first worker that has an equation to settle until the count is this or more.
    fn hold_first(&self, worker: u32, count: &AtomicU64, least: u64) {
        let is_first = self
            .first
            .compare_exchange(0, u64::from(worker), Ordering::SeqCst, Ordering::SeqCst)
            .is_ok();
        if is_first {
            self.hold(count, least);
        }
    }

    /// Naps for so many microseconds.
    fn nap(&self, micros: u64) {
        self.clock
            .park_timeout(self.wait, 0, Duration::from_micros(micros));
    }
}

/// Holds the first worker that has an equation to settle until a word of another one was taken, and the caller before it plays
/// until some worker's was.
#[derive(Drop)]
struct Settling<'a, W: Wait>(Counts<'a, W>);

impl<W: Wait + Sync> Gate for Settling<'_, W> {
    fn at(&self, worker: u32, point: u32) {
        match point {
            FOLDED => self.0.hold_first(worker, &self.0.others, 1),
            TAKEN => self.0.count_word(worker),
            PLAYS => self.0.hold(&self.0.all, 1),
            _ => {}
        }
    }
}

/// Holds the caller before it plays until a worker has an equation to settle, and that worker until the caller has played all.
#[derive(Drop)]
struct Outlasting<'a, W: Wait>(Counts<'a, W>);

impl<W: Wait + Sync> Gate for Outlasting<'_, W> {
    fn at(&self, worker: u32, point: u32) {
        match point {
            FOLDED => self.0.hold_first(worker, &self.0.plays, 2),
            PLAYS => {
                self.0.hold(&self.0.first, 1);
                self.0.plays.fetch_add(1, Ordering::SeqCst);
            }
            _ => {}
        }
    }
}

/// Lets threads nap at points that look like drawn ones.
#[derive(Drop)]
struct Napping<'a, W: Wait>(Counts<'a, W>);

impl<W: Wait + Sync> Gate for Napping<'_, W> {
    fn at(&self, _worker: u32, _point: u32) {
        let passed = self.0.all.fetch_add(1, Ordering::SeqCst);
        if passed.wrapping_mul(0x9e37_79b9_7f4a_7c15) >> 61 == 0 {
            self.0.nap(100);
        }
    }
}

/// A row of which one datagram is missing, among media datagrams alone.
static ONE_ROW: [Sent; 16] = [
    Sent::Media(0),
    Sent::Media(1),
    Sent::Media(2),
    Sent::Media(3),
    Sent::Media(4),
    Sent::Media(6),
    Sent::Media(7),
    Sent::Row(1),
    Sent::Media(8),
    Sent::Media(9),
    Sent::Media(10),
    Sent::Media(11),
    Sent::Media(12),
    Sent::Media(13),
    Sent::Media(14),
    Sent::Media(15),
];

/// What that comes to.
const ONE_REPAIRED: &str = "flow 5000 shown 16 repaired 1 missing 0 windows 1 inconsistent 0
media 5000 admitted 15 duplicate 0 conflict 0 late 0 bad 0
column 5000 admitted 0 duplicate 0 conflict 0 late 0 notstarted 0 beforestart 0 ahead 0 crowded 0 bad 0
row 5000 admitted 1 duplicate 0 conflict 0 late 0 notstarted 0 beforestart 0 ahead 0 crowded 0 bad 0
other 0
";

/// Whether the bytes come to this beside two workers, whom the gate holds.
pub(super) fn come_to<W: Threads + Wait + Sync, G: Gate>(
    rt: &W,
    alloc: Global,
    bytes: &[u8],
    report: &str,
    gate: &G,
) -> Result<bool, AllocError> {
    let line = "repair flow=5000 workers=2";
    let ran = run_gated(rt, alloc, &PLAIN, line, bytes, gate)?;
    Ok(is_block(&ran, report))
}

/// Whether they do where each equation is settled before a play.
fn is_settled<W: Threads + Wait + Sync>(
    rt: &W,
    alloc: Global,
    bytes: &[u8],
    report: &str,
) -> Result<bool, AllocError> {
    let gate = Settling(Counts::new(rt));
    Ok(come_to(rt, alloc, bytes, report, &gate)? && gate.0.all_met())
}

/// Whether the block comes to this where a worker settles last of all.
fn is_outlasted<W: Threads + Wait + Sync>(rt: &W, alloc: Global) -> Result<bool, AllocError> {
    let bytes = trace(alloc, &BLOCK, &[1, 7])?;
    let gate = Outlasting(Counts::new(rt));
    Ok(come_to(rt, alloc, &bytes, TWO_REPAIRED, &gate)? && gate.0.all_met())
}

// The block lacks its datagrams 1 and 6, which its parity gives.
#[test]
fn workers_settle_before_a_play(rt: HostRuntime) -> Result<(), Fail> {
    let bytes = trace(rt.alloc(), &BLOCK, &[1, 7])?;
    assert!(rt; is_settled(&rt, rt.alloc(), &bytes, TWO_REPAIRED)?);
    Ok(())
}

#[test]
fn a_worker_settles_after_its_flow_has_ended(rt: HostRuntime) -> Result<(), Fail> {
    assert!(rt; is_outlasted(&rt, rt.alloc())?);
    Ok(())
}

/// The first worker is held with no lock, so that another one settles the same equation, of which there is only one.
#[test]
fn one_equation_is_settled_by_another_worker(rt: HostRuntime) -> Result<(), Fail> {
    let bytes = trace(rt.alloc(), &ONE_ROW, &[])?;
    assert!(rt; is_settled(&rt, rt.alloc(), &bytes, ONE_REPAIRED)?);
    Ok(())
}

/// An outside with room for the lane of a long stream.
const WIDE: Setting<'static> = Setting {
    lane: 3_000_000,
    ..AT_ONCE
};

/// Of 2,400 records 64 are left out: 53 media, 5 columns and 6 rows. No row loses two of its records.
const DRILL: &str = "drill columns=10 rows=10 window=100 depth=400 workers=16 every=37";

const DRILLED: &str = "flow 5000 shown 2000 repaired 53 missing 0 windows 20 inconsistent 0
media 5000 admitted 1947 duplicate 0 conflict 0 late 0 bad 0
column 5000 admitted 195 duplicate 0 conflict 0 late 0 notstarted 0 beforestart 0 ahead 0 crowded 0 bad 0
row 5000 admitted 194 duplicate 0 conflict 0 late 0 notstarted 0 beforestart 0 ahead 0 crowded 0 bad 0
other 0
";

/// Whether a drill of a stream beside workers who nap gives all of it back.
fn is_drilled<W: Threads + Wait + Sync>(
    rt: &W,
    alloc: Global,
    stream: &[u8],
) -> Result<bool, AllocError> {
    let gate = Napping(Counts::new(rt));
    let ran = run_gated(rt, alloc, &WIDE, DRILL, stream, &gate)?;
    Ok(
        ran.ended.status == 0
            && ran.outside.lane() == stream
            && ran.outside.out.bytes() == DRILLED.as_bytes(),
    )
}

#[test]
fn naps_change_nothing(rt: HostRuntime) -> Result<(), Fail> {
    let bytes = stream(rt.alloc(), 2_000)?;
    for _ in 0..2 {
        assert!(rt; is_drilled(&rt, rt.alloc(), &bytes)?);
    }
    Ok(())
}
