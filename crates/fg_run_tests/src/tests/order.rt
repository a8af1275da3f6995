//! The order in which lanes are looked at, made, flushed and closed.
ghost use Rattle.std.specs.Prelude.{None};

use super::*;
use fg_io::Failed;

/// A change to a lane.
#[derive(Clone, Copy, PartialEq)]
enum Change {
    /// The lanes are looked at, this many.
    LookedAt(usize),
    /// The lanes are closed.
    Closed,
    /// The lane of this port is made.
    Made(u16),
    /// The lane of this port gains bytes, in one put or several in succession.
    Gained(u16),
}

/// An outlet that takes all pieces, and keeps what its calls change, in order.
#[derive(Drop)]
struct Changes {
    changes: Vec<Change>,
}

impl Outlet for Changes {
    ghost lanes = { λ _. None };

    ghost faults = { λ _. 0 };

    fn put(&mut self, port: u16, piece: &[u8]) -> Result<(), Failed> {
        let change = if piece.is_empty() {
            Change::Made(port)
        } else {
            Change::Gained(port)
        };
        if self.changes.last() != Some(&change) {
            let _ = self.changes.push(change);
        }
        Ok(())
    }

    fn prepare(&mut self, ports: &[u16]) -> Result<(), Failed> {
        let _ = self.changes.push(Change::LookedAt(ports.len()));
        Ok(())
    }

    fn close(&mut self) -> Result<(), Failed> {
        let _ = self.changes.push(Change::Closed);
        Ok(())
    }
}

/// The words of a repair, and what changes in it.
type Ordered = (&'static str, [Change; 8]);

static ORDERS: [Ordered; 2] = [
    (
        "repair flow=5020 flow=5000 flow=5010",
        [
            Change::LookedAt(3),
            Change::Made(5020),
            Change::Made(5000),
            Change::Made(5010),
            Change::Gained(5020),
            Change::Gained(5000),
            Change::Gained(5010),
            Change::Closed,
        ],
    ),
    (
        "repair flow=5010 flow=5020 flow=5000",
        [
            Change::LookedAt(3),
            Change::Made(5010),
            Change::Made(5020),
            Change::Made(5000),
            Change::Gained(5010),
            Change::Gained(5020),
            Change::Gained(5000),
            Change::Closed,
        ],
    ),
];

/// Runs the words on these bytes.
fn run_into<W: Threads + Wait + Sync>(
    rt: &W,
    alloc: Global,
    words: &[String],
    bytes: &[u8],
    lanes: &mut Changes,
) -> Result<(), AllocError> {
    let mut outside = Outside::new(alloc, &PLAIN, bytes)?;
    let _ = run(
        rt,
        alloc,
        words,
        &mut outside.input,
        &mut outside.out,
        &mut outside.err,
        lanes,
        &NoGate,
    );
    Ok(())
}

/// What changes in a repair of the bytes.
fn changes_of<W: Threads + Wait + Sync>(
    rt: &W,
    alloc: Global,
    words: &[String],
    bytes: &[u8],
) -> Result<Changes, AllocError> {
    let mut lanes = Changes {
        changes: Vec::new(alloc),
    };
    run_into(rt, alloc, words, bytes, &mut lanes)?;
    Ok(lanes)
}

/// Whether the words change the lanes so.
fn is_ordered<W: Threads + Wait + Sync>(
    rt: &W,
    alloc: Global,
    ordered: &Ordered,
    bytes: &[u8],
) -> Result<bool, AllocError> {
    let words = words_of(alloc, ordered.0)?;
    let lanes = changes_of(rt, alloc, &words, bytes)?;
    Ok(lanes.changes.as_slice() == ordered.1.as_slice())
}

// Nothing is due before the flushes.
#[test]
fn lanes_are_made_and_flushed_in_the_order_of_the_words(rt: HostRuntime) -> Result<(), Fail> {
    let bytes = in_turn(rt.alloc(), &[5000, 5010, 5020], 0, 2)?;
    for ordered in &ORDERS {
        assert!(rt; is_ordered(&rt, rt.alloc(), ordered, &bytes)?);
    }
    Ok(())
}
