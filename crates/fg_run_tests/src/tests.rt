//! Runs over sources, sinks and lanes in memory.
use fg_crew::{Gate, NoGate};
use fg_io::{MemOutlet, MemSink, MemSource, Outlet, Source};
use fg_run::{Ended, Why, run};
use std::alloc::{AllocError, Global};
use std::sync::Wait;
use std::test::Fail;
use std::thread::Threads;

mod batches;
mod failing;
mod gates;
mod held;
mod order;
mod pieces;
mod traces;

use traces::{BLOCK, PAYLOAD, Sent, are_payloads, in_turn, stream, trace};

/// What the outside is like: how much it gives and takes, and which of its calls fail.
#[derive(Clone, Copy)]
struct Setting<'a> {
    /// The most bytes that a read gives.
    piece: usize,
    /// How many bytes the sink takes.
    out: usize,
    /// The ports that may have a lane.
    ports: &'a [u16],
    /// How many bytes each lane takes.
    lane: usize,
    /// The calls of the source, the sink and the outlet that fail.
    reads: &'a [u64],
    writes: &'a [u64],
    puts: &'a [u64],
}

/// The flows of the tests.
const PORTS: [u16; 4] = [5000, 5010, 5020, 5030];

/// An outside with room for short runs of these flows, of which no call fails.
const PLAIN: Setting<'static> = Setting {
    piece: 1000,
    out: 2000,
    ports: &PORTS,
    lane: 30_000,
    reads: &[],
    writes: &[],
    puts: &[],
};

/// An outside that gives a short trace at once, so that its records are one batch.
const AT_ONCE: Setting<'static> = Setting {
    piece: 100_000,
    ..PLAIN
};

/// Which part of the outside is to fail.
#[derive(Clone, Copy)]
enum Part {
    Input,
    Out,
    Lanes,
}

impl Part {
    /// An outside that is so, but for these calls of the part, which fail.
    fn failing<'a>(self, setting: Setting<'a>, calls: &'a [u64]) -> Setting<'a> {
        match self {
            Part::Input => Setting {
                reads: calls,
                ..setting
            },
            Part::Out => Setting {
                writes: calls,
                ..setting
            },
            Part::Lanes => Setting {
                puts: calls,
                ..setting
            },
        }
    }

    /// The status of a run that the part ended.
    fn status(self) -> u8 {
        match self {
            Part::Input => 2,
            Part::Out | Part::Lanes => 3,
        }
    }

    /// Whether the run ended with the part's fault, and told it.
    fn has_failed(self, ran: &Ran) -> bool {
        let told = match self {
            Part::Input => b"read fault\n".as_slice(),
            Part::Out | Part::Lanes => b"write fault\n".as_slice(),
        };
        ran.ended.status == self.status() && ran.outside.err.bytes() == told
    }
}

/// What a run leaves of the outside.
#[derive(Drop)]
struct Outside {
    input: MemSource,
    out: MemSink,
    err: MemSink,
    lanes: MemOutlet,
}

impl Outside {
    /// An outside that is so, with these bytes to read.
    fn new(alloc: Global, setting: &Setting<'_>, bytes: &[u8]) -> Result<Outside, AllocError> {
        Ok(Outside {
            input: MemSource::new(alloc, bytes, setting.piece.max(1), setting.reads)?,
            out: MemSink::new(alloc, setting.out, setting.writes)?,
            err: MemSink::new(alloc, 100, &[])?,
            lanes: MemOutlet::new(alloc, setting.ports, setting.lane, setting.puts)?,
        })
    }

    /// Whether the port's lane has so many payloads, from that of this number up, or there is no lane where none is wanted.
    fn has_lane(&self, port: u16, first: u16, count: Option<u16>) -> bool {
        match (self.lanes.lane(port), count) {
            (Some(lane), Some(count)) => {
                lane.len() == usize::from(count) * PAYLOAD && are_payloads(lane, first)
            }
            (None, None) => true,
            _ => false,
        }
    }

    /// Whether the first lanes have so many payloads each.
    fn has_lanes(&self, first: u16, counts: &[Option<u16>]) -> bool {
        for (port, count) in PORTS.iter().zip(counts) {
            if !self.has_lane(*port, first, *count) {
                return false;
            }
        }
        true
    }

    /// What the lane of port 5000 has, or no byte where it isn't there.
    fn lane(&self) -> &[u8] {
        self.lanes.lane(5000).unwrap_or(b"")
    }
}

/// How a run ended, and what it left.
#[derive(Drop)]
struct Ran {
    ended: Ended,
    outside: Outside,
}

/// Runs the words between the blanks of the line on these bytes.
fn run_line<W: Threads + Wait + Sync>(
    rt: &W,
    alloc: Global,
    setting: &Setting<'_>,
    line: &str,
    bytes: &[u8],
) -> Result<Ran, AllocError> {
    run_gated(rt, alloc, setting, line, bytes, &NoGate)
}

/// Runs them with a gate.
fn run_gated<W: Threads + Wait + Sync, G: Gate>(
    rt: &W,
    alloc: Global,
    setting: &Setting<'_>,
    line: &str,
    bytes: &[u8],
    gate: &G,
) -> Result<Ran, AllocError> {
    let words = words_of(alloc, line)?;
    run_words(rt, alloc, setting, &words, bytes, gate)
}

fn run_words<W: Threads + Wait + Sync, G: Gate>(
    rt: &W,
    alloc: Global,
    setting: &Setting<'_>,
    words: &[String],
    bytes: &[u8],
    gate: &G,
) -> Result<Ran, AllocError> {
    let mut outside = Outside::new(alloc, setting, bytes)?;
    let ended = run(
        rt,
        alloc,
        words,
        &mut outside.input,
        &mut outside.out,
        &mut outside.err,
        &mut outside.lanes,
        gate,
    );
    Ok(Ran { ended, outside })
}

/// The words between the blanks of the line.
fn words_of(alloc: Global, line: &str) -> Result<Vec<String>, AllocError> {
    let mut words = Vec::new(alloc);
    push_words(alloc, &mut words, line)?;
    Ok(words)
}

fn push_words(alloc: Global, words: &mut Vec<String>, line: &str) -> Result<(), AllocError> {
    for word in line.split(' ') {
        words.push(String::from_str(alloc, word)?)?;
    }
    Ok(())
}

/// The report of a block of which two datagrams are repaired.
const TWO_REPAIRED: &str = "flow 5000 shown 16 repaired 2 missing 0 windows 1 inconsistent 0
media 5000 admitted 14 duplicate 0 conflict 0 late 0 bad 0
column 5000 admitted 4 duplicate 0 conflict 0 late 0 notstarted 0 beforestart 0 ahead 0 crowded 0 bad 0
row 5000 admitted 4 duplicate 0 conflict 0 late 0 notstarted 0 beforestart 0 ahead 0 crowded 0 bad 0
other 0
";

/// Whether all went well, with this report, and the lane of port 5000 has the 16 payloads of a block.
fn is_block(ran: &Ran, report: &str) -> bool {
    ran.ended.status == 0
        && ran.outside.out.bytes() == report.as_bytes()
        && ran.outside.has_lane(5000, 0, Some(16))
}
