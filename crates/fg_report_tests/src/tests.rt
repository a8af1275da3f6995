mod shelf;

use fg_io::MemSink;
use fg_report::*;
use std::alloc::{AllocError, Global};
use std::test::Fail;

/// Counters that follow this number, each its own.
fn marks(before: u8) -> Marks {
    let before = u64::from(before);
    Marks {
        admitted: before + 1,
        duplicate: before + 2,
        conflict: before + 3,
        late: before + 4,
        not_started: before + 5,
        before_start: before + 6,
        ahead: before + 7,
        crowded: before + 8,
        bad: before + 9,
        foreign: before + 10,
    }
}

/// A flow all of whose counters differ, with so many runs.
fn flow(port: u16, runs: u64, gaps: Gaps) -> FlowSum {
    FlowSum {
        port,
        shown: 1,
        repaired: 2,
        missing: 3,
        windows: 4,
        inconsistent: 5,
        media: marks(10),
        column: marks(20),
        row: marks(30),
        runs,
        gaps,
    }
}

/// Gaps of two windows that touch, and one more.
fn three_gaps(alloc: Global) -> Result<Gaps, AllocError> {
    let mut gaps = Gaps::new(alloc);
    gaps.add(197, 3)?;
    gaps.add(200, 2)?;
    gaps.add(203, 1)?;
    Ok(gaps)
}

/// So many gaps, none of which touch.
fn many_gaps(alloc: Global, count: u16) -> Result<Gaps, AllocError> {
    let mut gaps = Gaps::new(alloc);
    for place in 0..count {
        gaps.add(3 * u64::from(place), 1)?;
    }
    Ok(gaps)
}

/// Flows on so many ports, without gaps.
fn many_flows(alloc: Global, count: u16) -> Result<Vec<FlowSum>, AllocError> {
    let mut flows = Vec::new(alloc);
    for port in 0..count {
        flows.push(flow(port, 1, Gaps::new(alloc)))?;
    }
    Ok(flows)
}

const FLOW: &str = "flow 5000 shown 1 repaired 2 missing 3 windows 4 inconsistent 5
media 5000 admitted 11 duplicate 12 conflict 13 late 14 bad 19
column 5000 admitted 21 duplicate 22 conflict 23 late 24 notstarted 25 beforestart 26 ahead 27 crowded 28 bad 29
row 5000 admitted 31 duplicate 32 conflict 33 late 34 notstarted 35 beforestart 36 ahead 37 crowded 38 bad 39
runs 5000 2 foreign 20
gap 5000 197 5
gap 5000 203 1
other 6
cut at byte 77
";

#[test]
fn tells_all_counters(rt: HostRuntime) -> Result<(), Fail> {
    let alloc = rt.alloc();
    let flows = [flow(5000, 2, three_gaps(alloc)?)];
    let mut out = MemSink::new(alloc, 1000, &[])?;
    assert_eq!(rt;
        write_report(alloc, &flows, 6, Tail::Cut(77), &mut out),
        Ok(())
    );
    assert_eq!(rt; out.bytes(), FLOW.as_bytes());
    Ok(())
}

#[test]
fn tells_the_tail(rt: HostRuntime) -> Result<(), Fail> {
    let alloc = rt.alloc();
    let mut out = MemSink::new(alloc, 100, &[])?;
    assert_eq!(rt;
        write_report(alloc, &[], 0, Tail::TooLong(16_777_216), &mut out),
        Ok(())
    );
    assert_eq!(rt;
        write_report(alloc, &[], u64::MAX, Tail::Ended, &mut out),
        Ok(())
    );
    assert_eq!(rt;
        out.bytes(),
        b"other 0\ntoo long at byte 16777216\nother 18446744073709551615\n".as_slice()
    );
    Ok(())
}

/// Writes the report of flows of a trace that ended, without other records.
fn report_to(alloc: Global, flows: &[FlowSum], out: &mut MemSink) -> Result<(), ReportFault> {
    write_report(alloc, flows, 0, Tail::Ended, out)
}

/// How many lines.
fn lines(text: &[u8]) -> usize {
    text.iter().filter(|byte| **byte == b'\n').count()
}

/// How many lines the report has in a sink of so much room. There is none where the sink is asked as often as this call, which
/// fails.
fn lines_in(
    alloc: Global,
    flows: &[FlowSum],
    room: usize,
    fails: u64,
) -> Result<Option<usize>, AllocError> {
    let mut out = MemSink::new(alloc, room, &[fails])?;
    match report_to(alloc, flows, &mut out) {
        Ok(()) => Ok(Some(lines(out.bytes()))),
        Err(_) => Ok(None),
    }
}

// Of these lines no flow may be left out, and the pieces are few: the sink would fail at its third write.
#[test]
fn tells_64_flows(rt: HostRuntime) -> Result<(), Fail> {
    let flows = many_flows(rt.alloc(), 64)?;
    assert_eq!(rt; lines_in(rt.alloc(), &flows, 65_536, 2)?, Some(257));
    Ok(())
}

// The text has some 200 kB. A sink that fails at its 16th write isn't asked that often.
#[test]
fn many_gaps_are_few_writes(rt: HostRuntime) -> Result<(), Fail> {
    let flows = [flow(5000, 1, many_gaps(rt.alloc(), 10_000)?)];
    assert_eq!(rt; lines_in(rt.alloc(), &flows, 400_000, 15)?, Some(10_005));
    Ok(())
}

// The second write fails, so that the first piece is written, which ends with a line.
#[test]
fn a_failed_write_ends_the_report(rt: HostRuntime) -> Result<(), Fail> {
    let alloc = rt.alloc();
    let flows = [flow(5000, 1, many_gaps(alloc, 2_000)?)];
    let mut whole = MemSink::new(alloc, 100_000, &[])?;
    assert_eq!(rt; report_to(alloc, &flows, &mut whole), Ok(()));
    let mut out = MemSink::new(alloc, 100_000, &[1])?;
    assert_eq!(rt;
        report_to(alloc, &flows, &mut out),
        Err(ReportFault::WriteFault)
    );
    assert!(rt; out.bytes().len() > 16_364 && out.bytes().len() <= 16_384);
    assert!(rt; whole.bytes().starts_with(out.bytes()));
    Ok(())
}

#[test]
fn a_full_sink_ends_the_report(rt: HostRuntime) -> Result<(), Fail> {
    let alloc = rt.alloc();
    let flows = [flow(5000, 1, Gaps::new(alloc))];
    let mut out = MemSink::new(alloc, 10, &[])?;
    assert_eq!(rt;
        report_to(alloc, &flows, &mut out),
        Err(ReportFault::WriteFault)
    );
    assert_eq!(rt; out.bytes(), b"flow 5000 ".as_slice());
    Ok(())
}
