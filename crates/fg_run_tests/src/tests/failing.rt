//! A source, a sink or an outlet that fails or is full.
use super::*;

/// An outside with much room.
const ROOMY: Setting<'static> = Setting {
    out: 100_000,
    ..PLAIN
};

/// What is run while each call fails in turn.
struct Work {
    line: &'static str,
    /// How many bytes are written before any lane is made.
    head: usize,
    /// The least numbers of calls of the source, the sink and the outlet; where it is 0 there is none.
    least: [(Part, u64); 3],
}

impl Work {
    /// Whether a run that the failing part stopped left what may be left of the whole run: a part of the lane, and then a part of
    /// what is written after it. No lane is flushed after a failed read.
    fn is_left(&self, part: Part, outside: &Outside, whole: &Outside) -> bool {
        let is_begun = outside.out.bytes().len() > self.head;
        let is_whole = outside.lane() == whole.lane();
        let is_in_order = match part {
            Part::Input => outside.lane().is_empty() && (is_whole || !is_begun),
            Part::Out => is_whole || !is_begun && self.head > 0,
            Part::Lanes => !is_begun,
        };
        is_in_order
            && whole.lane().starts_with(outside.lane())
            && whole.out.bytes().starts_with(outside.out.bytes())
    }

    /// Has a call of the part fail. None where it isn't made; else whether the run left what may be left.
    fn leaves<W: Threads + Wait + Sync>(
        &self,
        rt: &W,
        alloc: Global,
        bytes: &[u8],
        part: Part,
        call: u64,
        whole: &Outside,
    ) -> Result<Option<bool>, AllocError> {
        let ran = run_line(rt, alloc, &part.failing(ROOMY, &[call]), self.line, bytes)?;
        if ran.ended.status == 0 {
            return Ok(None);
        }
        Ok(Some(part.has_failed(&ran) && self.is_left(part, &ran.outside, whole)))
    }

    /// Has each call of the part fail in turn. How many are made; 100 where a run left what may not be left, or there are more.
    fn failing_calls<W: Threads + Wait + Sync>(
        &self,
        rt: &W,
        alloc: Global,
        bytes: &[u8],
        part: Part,
        whole: &Outside,
    ) -> Result<u64, AllocError> {
        for call in 0..100 {
            match self.leaves(rt, alloc, bytes, part, call, whole)? {
                None => return Ok(call),
                Some(true) => {}
                Some(false) => return Ok(100),
            }
        }
        Ok(100)
    }

    /// Has each call of each part fail in turn. Whether all leave what may be left, and as many are made as are wanted.
    fn leave<W: Threads + Wait + Sync>(
        &self,
        rt: &W,
        alloc: Global,
        bytes: &[u8],
        whole: &Outside,
    ) -> Result<bool, AllocError> {
        for (part, least) in &self.least {
            let calls = self.failing_calls(rt, alloc, bytes, *part, whole)?;
            if calls < *least || calls >= 100 || (calls == 0) != (*least == 0) {
                return Ok(false);
            }
        }
        Ok(true)
    }

    fn is_met<W: Threads + Wait + Sync>(
        &self,
        rt: &W,
        alloc: Global,
        bytes: &[u8],
    ) -> Result<bool, AllocError> {
        let whole = run_line(rt, alloc, &ROOMY, self.line, bytes)?;
        self.leave(rt, alloc, bytes, &whole.outside)
    }
}

/// The trace has 25,580 bytes, so 26 pieces, and a read gives nothing. The lane is made, and then put to.
const A_REPAIR: Work = Work {
    line: "repair flow=5000",
    head: 0,
    least: [(Part::Input, 27), (Part::Out, 1), (Part::Lanes, 2)],
};

/// No lane is made.
const AN_INSPECTION: Work = Work {
    line: "inspect flow=5000",
    least: [(Part::Input, 27), (Part::Out, 1), (Part::Lanes, 0)],
    ..A_REPAIR
};

// Without workers the records are taken one by one, and with some in batches.
static OVER_A_TRACE: [Work; 4] = [
    A_REPAIR,
    Work {
        line: "repair flow=5000 workers=0",
        ..A_REPAIR
    },
    AN_INSPECTION,
    // Each datagram is played alone, so that four cases are written.
    Work {
        line: "prove flow=5000 window=1 depth=1",
        ..AN_INSPECTION
    },
];

static OVER_A_STREAM: [Work; 2] = [
    // The stream has 21,056 bytes, which come in 22 pieces, and a read gives none.
    Work {
        line: "drill columns=4 rows=4 drop=6 drop=7 drop=12 drop=13 drop=22",
        head: 0,
        least: [(Part::Input, 23), (Part::Out, 1), (Part::Lanes, 2)],
    },
    // The input isn't read. The line is written, and then the report.
    Work {
        line: "sample seed=1 datagrams=20 loss=3",
        head: 45,
        least: [(Part::Input, 0), (Part::Out, 2), (Part::Lanes, 2)],
    },
];

// The stream has 65,800 bytes, which come in 66 pieces; its trace is more than a buffer holds.
static ENCODING: [Work; 1] = [Work {
    line: "encode columns=4 rows=4",
    head: 0,
    least: [(Part::Input, 67), (Part::Out, 2), (Part::Lanes, 0)],
}];

/// Has each call of each of the commands fail in turn.
fn are_met<W: Threads + Wait + Sync>(
    rt: &W,
    alloc: Global,
    works: &[Work],
    bytes: &[u8],
) -> Result<bool, AllocError> {
    for work in works {
        if !work.is_met(rt, alloc, bytes)? {
            return Ok(false);
        }
    }
    Ok(true)
}

// Its records 6, 7, 12, 13 and 22 are left out, which two passes repair.
#[test]
fn each_call_over_a_trace_fails_in_turn(rt: HostRuntime) -> Result<(), Fail> {
    let bytes = trace(rt.alloc(), &BLOCK, &[6, 7, 12, 13, 22])?;
    assert!(rt; are_met(&rt, rt.alloc(), &OVER_A_TRACE, &bytes)?);
    Ok(())
}

#[test]
fn each_call_over_a_stream_fails_in_turn(rt: HostRuntime) -> Result<(), Fail> {
    let bytes = stream(rt.alloc(), 16)?;
    assert!(rt; are_met(&rt, rt.alloc(), &OVER_A_STREAM, &bytes)?);
    Ok(())
}

#[test]
fn each_call_of_an_encoding_fails_in_turn(rt: HostRuntime) -> Result<(), Fail> {
    let bytes = stream(rt.alloc(), 50)?;
    assert!(rt; are_met(&rt, rt.alloc(), &ENCODING, &bytes)?);
    Ok(())
}

/// A repair of media datagrams from number 0 up, where a lane or the sink is too small, and what is left of it.
struct Full {
    line: &'static str,
    count: u16,
    /// How many bytes the lane and the sink take.
    lane: usize,
    out: usize,
    /// How many bytes the lane has afterwards, and what the sink has.
    put: usize,
    written: &'static str,
}

static FULL: [Full; 4] = [
    // The report isn't begun.
    Full {
        line: "repair flow=5000",
        count: 3,
        lane: 2000,
        out: 2000,
        put: 2000,
        written: "",
    },
    Full {
        line: "repair flow=5000",
        count: 3,
        lane: 4000,
        out: 100,
        put: 3948,
        written: "flow 5000 shown 3 repaired 0 missing 0 windows 1 inconsistent 0
media 5000 admitted 3 duplicate 0 co",
    },
    // Media 4 plays 0 to 3 in windows of four. The third of the four payloads doesn't fit.
    Full {
        line: "repair flow=5000 window=4 depth=4",
        count: 5,
        lane: 3000,
        out: 2000,
        put: 3000,
        written: "",
    },
    Full {
        line: "repair flow=5000 window=4 depth=4",
        count: 5,
        lane: 6580,
        out: 10,
        put: 6580,
        written: "flow 5000 ",
    },
];

impl Full {
    /// Whether a run left this.
    fn is_left(&self, ran: &Ran) -> bool {
        let lane = ran.outside.lane();
        ran.ended.status == 3
            && ran.outside.err.bytes() == b"write fault\n".as_slice()
            && ran.outside.out.bytes() == self.written.as_bytes()
            && lane.len() == self.put
            && are_payloads(lane, 0)
    }

    /// Whether a repair of these bytes leaves this.
    fn is_met_by<W: Threads + Wait + Sync>(
        &self,
        rt: &W,
        alloc: Global,
        bytes: &[u8],
    ) -> Result<bool, AllocError> {
        let setting = Setting {
            lane: self.lane,
            out: self.out,
            ..PLAIN
        };
        let ran = run_line(rt, alloc, &setting, self.line, bytes)?;
        Ok(self.is_left(&ran))
    }

    fn is_met<W: Threads + Wait + Sync>(&self, rt: &W, alloc: Global) -> Result<bool, AllocError> {
        let bytes = in_turn(alloc, &[5000], 0, self.count)?;
        self.is_met_by(rt, alloc, &bytes)
    }
}

#[test]
fn lanes_and_sinks_that_are_full(rt: HostRuntime) -> Result<(), Fail> {
    for full in &FULL {
        assert!(rt; full.is_met(&rt, rt.alloc())?);
    }
    Ok(())
}
