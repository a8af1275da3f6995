//! Batches of records, which are read, run and put beside each other where there are workers.
use super::gates::{Counts, PLAYS};
use super::*;
use std::sync::atomic::Ordering;

/// How many lines of the report end so.
fn count_lines(outside: &Outside, end: &[u8]) -> usize {
    let lines = outside.out.bytes().split(|byte| *byte == b'\n');
    lines.filter(|line| line.ends_with(end)).count()
}

/// Holds the first play until so many were about to be made.
#[derive(Drop)]
struct Meeting<'a, W: Wait> {
    counts: Counts<'a, W>,
    least: u64,
}

impl<W: Wait + Sync> Gate for Meeting<'_, W> {
    fn at(&self, _worker: u32, point: u32) {
        if point == PLAYS && self.counts.plays.fetch_add(1, Ordering::SeqCst) == 0 {
            self.counts.hold(&self.counts.plays, self.least);
        }
    }
}

/// A repair, how many flows it has, and how many plays are about to be made before the first one is.
static MEETINGS: [(&'static str, usize, u64); 2] = [
    (
        "repair flow=5000 flow=5010 window=4 depth=4 workers=1",
        2,
        2,
    ),
    // While the first that plays is held, one other thread has two flows to go on with.
    (
        "repair flow=5000 flow=5010 flow=5020 flow=5030 window=4 depth=4 workers=1",
        4,
        3,
    ),
];

/// Whether each of the flows has shown five datagrams in two windows.
fn have_shown_five(outside: &Outside, flows: usize) -> bool {
    let end = b" shown 5 repaired 0 missing 0 windows 2 inconsistent 0";
    let counts = [Some(5); 4];
    count_lines(outside, end) == flows && outside.has_lanes(10, &counts[..flows.min(4)])
}

/// Whether the bytes are repaired so where the first play is held until so many are about to be made.
fn have_met<W: Threads + Wait + Sync>(
    rt: &W,
    alloc: Global,
    line: &str,
    flows: usize,
    least: u64,
    bytes: &[u8],
) -> Result<bool, AllocError> {
    let gate = Meeting {
        counts: Counts::new(rt),
        least,
    };
    let ran = run_gated(rt, alloc, &AT_ONCE, line, bytes, &gate)?;
    Ok(ran.ended.status == 0 && gate.counts.all_met() && have_shown_five(&ran.outside, flows))
}

/// Whether five media datagrams on each of the flows, in one batch, are. The last of them makes a play of four due.
fn meet<W: Threads + Wait + Sync>(
    rt: &W,
    alloc: Global,
    line: &str,
    flows: usize,
    least: u64,
) -> Result<bool, AllocError> {
    let bytes = in_turn(alloc, &PORTS[..flows.min(4)], 10, 5)?;
    have_met(rt, alloc, line, flows, least, &bytes)
}

#[test]
fn flows_play_beside_one_that_is_held(rt: HostRuntime) -> Result<(), Fail> {
    for (line, flows, least) in &MEETINGS {
        assert!(rt; meet(&rt, rt.alloc(), line, *flows, *least)?);
    }
    Ok(())
}

/// Repairs of media datagrams on some flows in turn, of whose outside calls fail.
struct Scene {
    /// The command lines, which come to the same.
    lines: &'static [&'static str],
    flows: &'static [u16],
    /// The number of the first datagram of each flow, and how many there are.
    first: u16,
    count: u16,
    /// The most bytes that a read gives.
    piece: usize,
    /// Whose calls fail.
    part: Part,
    /// The calls that fail in a run, and how many datagrams each lane has then; `None` where there is no lane.
    left: &'static [(&'static [u64], &'static [Option<u16>])],
}

impl Scene {
    /// Whether a run of the bytes leaves so many datagrams where these calls fail.
    fn is_left<W: Threads + Wait + Sync>(
        &self,
        rt: &W,
        alloc: Global,
        line: &str,
        bytes: &[u8],
        calls: &[u64],
        counts: &[Option<u16>],
    ) -> Result<bool, AllocError> {
        let roomy = Setting {
            piece: self.piece,
            lane: 100_000,
            ..PLAIN
        };
        let ran = run_line(rt, alloc, &self.part.failing(roomy, calls), line, bytes)?;
        Ok(
            ran.ended.status == self.part.status()
                && ran.outside.out.bytes().is_empty()
                && ran.outside.has_lanes(self.first, counts),
        )
    }

    /// Whether each run leaves what is wanted.
    fn are_left<W: Threads + Wait + Sync>(
        &self,
        rt: &W,
        alloc: Global,
        line: &str,
        bytes: &[u8],
    ) -> Result<bool, AllocError> {
        for (calls, counts) in self.left {
            if !self.is_left(rt, alloc, line, bytes, calls, counts)? {
                return Ok(false);
            }
        }
        Ok(true)
    }

    fn is_met<W: Threads + Wait + Sync>(&self, rt: &W, alloc: Global) -> Result<bool, AllocError> {
        let bytes = in_turn(alloc, self.flows, self.first, self.count)?;
        for line in self.lines {
            if !self.are_left(rt, alloc, line, &bytes)? {
                return Ok(false);
            }
        }
        Ok(true)
    }
}

/// A repair of three flows, whose lanes have 60 datagrams each.
const THREE_FLOWS: &str = "repair flow=5000 flow=5010 flow=5020 window=4 depth=4 workers=2";

static PUTS: [Scene; 2] = [
    // The whole trace is one batch.
    Scene {
        lines: &["repair flow=5000 flow=5010 window=4 depth=4 workers=1"],
        flows: &[5000, 5010],
        first: 10,
        count: 5,
        piece: 100_000,
        part: Part::Lanes,
        left: &[
            // The lanes are made,
            (&[0], &[None, None]),
            (&[1], &[Some(0), None]),
            // what the batch shows is put flow after flow,
            (&[2], &[Some(0), Some(0)]),
            (&[3], &[Some(4), Some(0)]),
            // and the flows are flushed.
            (&[4], &[Some(4), Some(4)]),
            (&[5], &[Some(5), Some(4)]),
        ],
    },
    // Reads of 100,000 bytes make batches of 74, 75 and 31 records of 1,340 bytes, in turn of the flows. Puts to the second of three
    // lanes fail.
    Scene {
        lines: &[THREE_FLOWS],
        flows: &[5000, 5010, 5020],
        first: 0,
        count: 60,
        piece: 100_000,
        part: Part::Lanes,
        left: &[
            // Three puts make the lanes, and three follow each batch.
            (&[4], &[Some(24), Some(0), Some(0)]),
            (&[7], &[Some(48), Some(24), Some(20)]),
            (&[10], &[Some(56), Some(48), Some(48)]),
            // Then the flows are flushed.
            (&[13], &[Some(60), Some(56), Some(56)]),
        ],
    },
];

#[test]
fn puts_that_fail_leave_the_first_flows_ahead(rt: HostRuntime) -> Result<(), Fail> {
    for scene in &PUTS {
        assert!(rt; scene.is_met(&rt, rt.alloc())?);
    }
    Ok(())
}

/// A read gives 5,000 bytes, and a record has 1,340. Before the fifth read 14 are whole, and before the sixth 18.
const A_READ_FAILS: Scene = Scene {
    lines: &[],
    flows: &[5000],
    first: 0,
    count: 20,
    piece: 5_000,
    part: Part::Input,
    left: &[],
};

// The lanes have what the whole records show, with workers and without.
static READS: [Scene; 2] = [
    Scene {
        lines: &[
            "repair flow=5000 window=4 depth=4 workers=0",
            "repair flow=5000 window=4 depth=4 workers=2",
        ],
        left: &[(&[4], &[Some(12)]), (&[5], &[Some(16)])],
        ..A_READ_FAILS
    },
    Scene {
        lines: &[
            "repair flow=5000 flow=5010 flow=5020 window=4 depth=4 workers=0",
            THREE_FLOWS,
        ],
        flows: &[5000, 5010, 5020],
        left: &[
            (&[4], &[Some(4), Some(4), Some(0)]),
            (&[5], &[Some(4), Some(4), Some(4)]),
        ],
        ..A_READ_FAILS
    },
];

#[test]
fn a_read_that_fails_with_and_without_workers(rt: HostRuntime) -> Result<(), Fail> {
    for scene in &READS {
        assert!(rt; scene.is_met(&rt, rt.alloc())?);
    }
    Ok(())
}

/// How many datagrams the three lanes may have where memory is wanting: what whole batches show, and flows that were flushed.
static WHOLE_BATCHES: [[u16; 3]; 7] = [
    [0, 0, 0],
    [24, 24, 20],
    [48, 48, 48],
    [56, 56, 56],
    [60, 56, 56],
    [60, 60, 56],
    [60, 60, 60],
];

/// Whether each of these lanes has so many datagrams. One that isn't there has none.
fn has_counts(outside: &Outside, counts: &[u16]) -> bool {
    for (port, count) in PORTS.iter().zip(counts) {
        let lane = outside.lanes.lane(*port).unwrap_or(b"");
        if lane.len() != usize::from(*count) * PAYLOAD {
            return false;
        }
    }
    true
}

/// Whether the lanes have what whole batches show.
fn has_whole_batches(outside: &Outside) -> bool {
    for counts in &WHOLE_BATCHES {
        if has_counts(outside, counts) {
            return true;
        }
    }
    false
}

/// Whether all was put, or memory was wanting between two batches.
fn is_whole_or_wanting(ran: &Ran) -> bool {
    if ran.ended.why == Why::Memory {
        return has_whole_batches(&ran.outside);
    }
    ran.ended.status == 0 && ran.outside.has_lanes(0, &[Some(60); 3])
}

fn repairs_or_wants<W: Threads + Wait + Sync>(
    rt: &W,
    alloc: Global,
    bytes: &[u8],
) -> Result<bool, AllocError> {
    let setting = Setting {
        lane: 100_000,
        ..AT_ONCE
    };
    let ran = run_line(rt, alloc, &setting, THREE_FLOWS, bytes)?;
    Ok(is_whole_or_wanting(&ran))
}

// Memory is wanting where `rt try --test --fail-alloc` has it so, and else nowhere.
#[test]
fn want_of_memory_puts_nothing_of_its_batch(rt: HostRuntime) -> Result<(), Fail> {
    let bytes = in_turn(rt.alloc(), &[5000, 5010, 5020], 0, 60)?;
    assert!(rt; repairs_or_wants(&rt, rt.alloc(), &bytes)?);
    Ok(())
}

/// What comes of a trace of 2,400 records, of which 2,350 are whole before the read that fails, by the puts that fail: the status,
/// how many datagrams the lane has, and whether that read was made, `None` where the schedule decides.
type LongRead = (&'static [u64], u8, u16, Option<bool>);

static LONG_READS: [LongRead; 3] = [
    // All that they show is put.
    (&[], 2, 2_348, Some(true)),
    // A put that fails is before that read in the trace, also where both have failed: here the last,
    (&[588], 3, 2_344, None),
    // and the first, while only a few batches may have been read ahead.
    (&[2], 3, 0, Some(false)),
];

/// Whether the source's call that is to fail was made: none of those that are left does.
fn has_failed(input: &mut MemSource) -> bool {
    for _ in 0..1_000 {
        match input.read(&mut [0; 1_000]) {
            Ok(0) => return true,
            Ok(_) => {}
            Err(_) => return false,
        }
    }
    false
}

/// Whether a run of the bytes comes to this.
fn is_long_read<W: Threads + Wait + Sync>(
    rt: &W,
    alloc: Global,
    bytes: &[u8],
    long_read: &LongRead,
) -> Result<bool, AllocError> {
    let (puts, status, count, is_read) = *long_read;
    let setting = Setting {
        lane: 3_100_000,
        reads: &[3_150],
        puts,
        ..PLAIN
    };
    let line = "repair flow=5000 flow=5010 window=4 depth=4 workers=1";
    let mut ran = run_line(rt, alloc, &setting, line, bytes)?;
    let is_asked = match is_read {
        Some(is_read) => has_failed(&mut ran.outside.input) == is_read,
        None => true,
    };
    Ok(is_asked && ran.ended.status == status && ran.outside.has_lanes(0, &[Some(count), Some(0)]))
}

// Each record has 1,340 bytes, and a read gives 1,000, so that each is a batch. Two puts make the lanes, and each fourth batch from the
// fifth on is put.
#[test]
fn a_read_that_fails_beside_a_run(rt: HostRuntime) -> Result<(), Fail> {
    let bytes = in_turn(rt.alloc(), &[5000], 0, 2_400)?;
    for long_read in &LONG_READS {
        assert!(rt; is_long_read(&rt, rt.alloc(), &bytes, long_read)?);
    }
    Ok(())
}
