//! Texts of cases, whole and broken.
ghost use Rattle.std.specs.Prelude.{◌≤◌, ◌^◌};

use fg_check::*;
use fg_io::{Fault, MemSink, MemSource, SafeSource, Source};
use std::alloc::{AllocError, Global};
use std::process::Abort;
use std::test::Fail;

const MOST: u64 = 1 << 40;

/// What a check answers, or which fault came.
type Outcome = Result<Checked, Fault>;

/// The answer for a source, and the text that a sink has which fails at these calls.
fn checked<S: Source>(
    alloc: Global,
    input: &mut S,
    max: u64,
    fails: &[u64],
) -> Result<(Outcome, MemSink), AllocError>
    requires least { 8 ≤ max }
    requires limit { max ≤ 2 ^ 40 }
{
    let mut out = MemSink::new(alloc, 65_536, fails)?;
    let answer = check_cases(alloc, max, input, &mut out);
    Ok((answer, out))
}

/// Checks this text, in pieces of several sizes, and compares what is told of it and written with these.
fn is_told(
    rt: &impl Abort,
    alloc: Global,
    bytes: &str,
    max: u64,
    told: Checked,
    text: &str,
) -> Result<(), AllocError>
    requires least { 8 ≤ max }
    requires limit { max ≤ 2 ^ 40 }
{
    for piece in [1, 13, 4000] {
        let mut input = SafeSource::new(alloc, bytes.as_bytes(), piece)?;
        let (answer, out) = checked(alloc, &mut input, max, &[])?;
        assert_eq!(rt; answer, Ok(told));
        assert_eq!(rt; out.bytes(), text.as_bytes());
    }
    Ok(())
}

/// Checks each text, for which this line is told that doesn't fit, and no case before it.
fn are_refused(rt: &impl Abort, alloc: Global, texts: &[(u64, &str)]) -> Result<(), AllocError> {
    for (line, text) in texts {
        is_told(rt, alloc, text, MOST, Checked::NotCase(*line), "")?;
    }
    Ok(())
}

/// These texts, one after another.
fn joined(alloc: Global, texts: &[&str]) -> Result<String, AllocError> {
    let mut all = String::new(alloc);
    for text in texts {
        all.push_str(text)?;
    }
    Ok(all)
}

/// A block whose four columns of 4 and three rows of 4 give no hole of 5, 6, 9 and 10, with these lines for its holes. The last
/// equation is whole.
fn block(alloc: Global, holes: &str) -> Result<String, AllocError> {
    let mut text = String::from_str(alloc, "case 5000 0 16\nknown 0 5\nknown 7 2\nknown 11 5\n")?;
    for (base, offset) in [
        (0, 1),
        (4, 1),
        (8, 1),
        (0, 4),
        (1, 4),
        (2, 4),
        (3, 4),
        (12, 1),
    ] {
        text.push_str(&format!(in alloc; "line {base} {offset} 4\n")?)?;
    }
    text.push_str(holes)?;
    text.push_str("end\n")?;
    Ok(text)
}

const HOLES: &str = "open 5 2\nopen 9 2\n";

// Position 10 is no hole.
const ALONE: &str = "open 5 2\nopen 9 1\n";

// A known position is told as a hole.
const KNOWN: &str = "open 4 3\nopen 9 2\n";

// Nothing is known, and there is no equation.
const SMALL: &str = "case 1 7 2\nopen 7 1\nend\n";

// The window has no hole.
const NO_GAP: &str = "case 1 7 2\nend\n";

/// Checks the block with these lines for its holes.
fn is_block_told(
    rt: &impl Abort,
    alloc: Global,
    holes: &str,
    told: Checked,
    text: &str,
) -> Result<(), AllocError> {
    is_told(rt, alloc, &block(alloc, holes)?, MOST, told, text)
}

#[test]
fn worked_cases(rt: HostRuntime) -> Result<(), Fail> {
    let alloc = rt.alloc();
    let unproved = Checked::Unproved(0);
    is_told(&rt, alloc, "", 8, Checked::Done, "")?;
    is_told(&rt, alloc, SMALL, MOST, Checked::Done, "case 0 yes\n")?;
    is_told(&rt, alloc, NO_GAP, MOST, unproved, "case 0 disorder\n")?;
    is_block_told(&rt, alloc, HOLES, Checked::Done, "case 0 yes\n")?;
    is_block_told(&rt, alloc, ALONE, unproved, "case 0 alone 2\n")?;
    is_block_told(&rt, alloc, KNOWN, unproved, "case 0 known 4\n")?;
    Ok(())
}

// The first case that isn't proved is told, unless a line doesn't fit.
#[test]
fn several_cases(rt: HostRuntime) -> Result<(), Fail> {
    let alloc = rt.alloc();
    let alone = block(alloc, ALONE)?;
    let two = joined(alloc, &[SMALL, NO_GAP, SMALL, &alone])?;
    let lines = "case 0 yes\ncase 1 disorder\ncase 2 yes\ncase 3 alone 2\n";
    is_told(&rt, alloc, &two, MOST, Checked::Unproved(1), lines)?;
    let broken = joined(
        alloc,
        &[NO_GAP, SMALL, "case 1 7 2\nopen 7 1\nopen 07 1\n", NO_GAP],
    )?;
    let lines = "case 0 disorder\ncase 1 yes\n";
    is_told(&rt, alloc, &broken, MOST, Checked::NotCase(7), lines)?;
    Ok(())
}

// Each field at its greatest value.
#[test]
fn greatest_numbers(rt: HostRuntime) -> Result<(), Fail> {
    let text = "case 65535 9999999999999999999 4294967295
known 9999999999999999999 9999999999999999999
line 9999999999999999999 255 255
open 9999999999999999999 9999999999999999999
end
case 0 0 0
known 0 0
line 0 0 0
open 0 0
end
";
    let lines = "case 0 disorder\ncase 1 disorder\n";
    is_told(&rt, rt.alloc(), text, MOST, Checked::Unproved(0), lines)?;
    Ok(())
}

#[test]
fn numbers_out_of_range(rt: HostRuntime) -> Result<(), Fail> {
    are_refused(
        &rt,
        rt.alloc(),
        &[
            (0, "case 65536 7 2\nopen 7 1\nend\n"),
            (0, "case 1 10000000000000000000 2\nopen 7 1\nend\n"),
            (0, "case 1 7 4294967296\nopen 7 1\nend\n"),
            (1, "case 1 7 2\nknown 10000000000000000000 1\nend\n"),
            (1, "case 1 7 2\nknown 1 99999999999999999999\nend\n"),
            (1, "case 1 7 2\nline 10000000000000000000 1 4\nend\n"),
            (1, "case 1 7 2\nline 1 256 4\nend\n"),
            (1, "case 1 7 2\nline 1 1 256\nend\n"),
            (1, "case 1 7 2\nopen 10000000000000000000 1\nend\n"),
            (1, "case 1 7 2\nopen 7 10000000000000000000\nend\n"),
        ],
    )?;
    Ok(())
}

#[test]
fn lines_spelled_otherwise(rt: HostRuntime) -> Result<(), Fail> {
    are_refused(
        &rt,
        rt.alloc(),
        &[
            (0, "case  1 7 2\nopen 7 1\nend\n"),
            (0, "case 1 7 2 \nopen 7 1\nend\n"),
            (0, " case 1 7 2\nopen 7 1\nend\n"),
            (0, "case 1 7\nopen 7 1\nend\n"),
            (0, "case 1 7 2 3\nopen 7 1\nend\n"),
            (0, "case 01 7 2\nopen 7 1\nend\n"),
            (0, "case 1 +7 2\nopen 7 1\nend\n"),
            (0, "Case 1 7 2\nopen 7 1\nend\n"),
            (0, "\n"),
            (1, "case 1 7 2\n\nopen 7 1\nend\n"),
            (1, "case 1 7 2\nopen 00 1\nend\n"),
            (1, "case 1 7 2\nopen -7 1\nend\n"),
            (1, "case 1 7 2\nopen 7 1a\nend\n"),
            (1, "case 1 7 2\nopen 7\nend\n"),
            (1, "case 1 7 2\nopen 7 1\r\nend\n"),
            (2, "case 1 7 2\nopen 7 1\nend \n"),
            (2, "case 1 7 2\nopen 7 1\nends\n"),
        ],
    )?;
    Ok(())
}

#[test]
fn lines_out_of_order(rt: HostRuntime) -> Result<(), Fail> {
    are_refused(
        &rt,
        rt.alloc(),
        &[
            (0, "end\n"),
            (0, "known 1 1\n"),
            (0, "line 1 1 4\n"),
            (0, "open 7 1\n"),
            (1, "case 1 7 2\ncase 1 7 2\nopen 7 1\nend\n"),
            (2, "case 1 7 2\nline 1 1 4\nknown 1 1\nend\n"),
            (2, "case 1 7 2\nopen 7 1\nknown 1 1\nend\n"),
            (2, "case 1 7 2\nopen 7 1\nline 1 1 4\nend\n"),
        ],
    )?;
    Ok(())
}

// A text that ends inside a case, or without a line feed, and a long line.
#[test]
fn early_ends(rt: HostRuntime) -> Result<(), Fail> {
    are_refused(
        &rt,
        rt.alloc(),
        &[
            (0, "case 1 7 2\n"),
            (1, "case 1 7 2\nopen 7 1\n"),
            (2, "case 1 7 2\nopen 7 1\nend"),
            (1, "case 1 7 2\nopen 7"),
            (0, "case 65535 9999999999999999999 4294967295"),
            (
                1,
                "case 1 7 2\nknown 9999999999999999999 99999999999999999990\nend\n",
            ),
            (
                1,
                "case 1 7 2\nknown 9999999999999999999 9999999999999999999",
            ),
            (
                1,
                "case 1 7 2\nknown 9999999999999999999 99999999999999999990",
            ),
        ],
    )?;
    let text = joined(rt.alloc(), &[SMALL, "case 1 7 2\nopen 7 1\n"])?;
    is_told(
        &rt,
        rt.alloc(),
        &text,
        MOST,
        Checked::NotCase(4),
        "case 0 yes\n",
    )?;
    Ok(())
}

// The limit at each place of a text of 24 bytes: its lines end behind bytes 10, 19 and 23.
#[test]
fn limits(rt: HostRuntime) -> Result<(), Fail> {
    for max in 8..=25 {
        let (told, lines) = if max < 11 {
            (Checked::TooLong(0), "")
        } else if max < 20 {
            (Checked::TooLong(11), "")
        } else if max < 24 {
            (Checked::TooLong(20), "")
        } else {
            (Checked::Done, "case 0 yes\n")
        };
        is_told(&rt, rt.alloc(), SMALL, max, told, lines)?;
    }
    Ok(())
}

// A line that doesn't fit is told where it is whole within the limit, and only there.
#[test]
fn limits_and_lines_that_do_not_fit(rt: HostRuntime) -> Result<(), Fail> {
    let alloc = rt.alloc();
    let long = "case 1 7 2\nknown 9999999999999999999 99999999999999999990\nend\n";
    for (max, told) in [
        (57, Checked::TooLong(11)),
        (58, Checked::NotCase(1)),
        (59, Checked::NotCase(1)),
    ] {
        is_told(&rt, alloc, long, max, told, "")?;
    }
    for (max, told) in [(9, Checked::TooLong(0)), (10, Checked::NotCase(0))] {
        is_told(&rt, alloc, "case 1 7 \nopen 7 1\nend\n", max, told, "")?;
    }
    let two = joined(alloc, &[SMALL, SMALL])?;
    is_told(&rt, alloc, &two, 47, Checked::TooLong(44), "case 0 yes\n")?;
    Ok(())
}

// The second read fails, or the only write.
#[test]
fn reads_and_writes_fail(rt: HostRuntime) -> Result<(), Fail> {
    let mut input = MemSource::new(rt.alloc(), SMALL.as_bytes(), 15, &[1])?;
    let (answer, out) = checked(rt.alloc(), &mut input, MOST, &[])?;
    assert_eq!(rt; answer, Err(Fault::Read));
    assert!(rt; out.bytes().is_empty());
    let mut input = SafeSource::new(rt.alloc(), SMALL.as_bytes(), 15)?;
    let (answer, out) = checked(rt.alloc(), &mut input, MOST, &[0])?;
    assert_eq!(rt; answer, Err(Fault::Write));
    assert!(rt; out.bytes().is_empty());
    Ok(())
}
