//! Threads that a gate holds at one of its points.
use super::gates::come_to;
use super::*;
use std::sync::atomic::{AtomicU64, Ordering};
use std::time::Duration;

/// How many naps of a millisecond each thread is held for.
const TURNS: u32 = 20;

/// Holds each thread that passes a point.
#[derive(Drop)]
struct Holding<'a, W: Wait> {
    wait: &'a W,
    point: u32,
    /// How many threads were held.
    held: AtomicU64,
    /// It stays 0, so that a nap on it ends by time.
    clock: AtomicU64,
}

impl<W: Wait + Sync> Gate for Holding<'_, W> {
    fn at(&self, _worker: u32, point: u32) {
        if point != self.point {
            return;
        }
        self.held.fetch_add(1, Ordering::SeqCst);
        for _ in 0..TURNS {
            self.clock
                .park_timeout(self.wait, 0, Duration::from_micros(1_000));
        }
    }
}

/// A point, and how many threads pass it at least: each of two workers starts, and the caller plays one window and looks for
/// another. How many equations a worker settles is left to the schedule.
static POINTS: [(u32, u64); 6] = [(0, 2), (1, 0), (2, 0), (3, 0), (4, 0), (5, 2)];

/// Whether two workers and a caller who are held at the point change nothing.
fn is_unchanged<W: Threads + Wait + Sync>(
    rt: &W,
    alloc: Global,
    bytes: &[u8],
    point: u32,
    least: u64,
) -> Result<bool, AllocError> {
    let gate = Holding {
        wait: rt,
        point,
        held: AtomicU64::new(0),
        clock: AtomicU64::new(0),
    };
    let came = come_to(rt, alloc, bytes, TWO_REPAIRED, &gate)?;
    Ok(came && gate.held.load(Ordering::SeqCst) >= least)
}

// The block lacks its datagrams 1 and 6, which its parity gives.
#[test]
fn a_thread_held_at_any_point_changes_nothing(rt: HostRuntime) -> Result<(), Fail> {
    let bytes = trace(rt.alloc(), &BLOCK, &[1, 7])?;
    for (point, least) in &POINTS {
        assert!(rt; is_unchanged(&rt, rt.alloc(), &bytes, *point, *least)?);
    }
    Ok(())
}
