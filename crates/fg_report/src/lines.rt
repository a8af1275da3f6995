//! The lines of the report, each pushed to a text.
ghost use Rattle.std.specs.Prelude.{◌≡◌, ◌++◌, OnOk, codes, map};
ghost use Rattle.std.specs.Fmt.{decimal};
ghost use Rattle.fg_report.specs.Text.{counts_text, line_of, flow_line, media_line, parity_line, runs_line, gap_line, flow_lines, other_line, tail_text};

use crate::flow_sum::FlowSum;
use crate::marks::Marks;
use crate::tail::Tail;
use itoa::Buffer;
use std::alloc::AllocError;

/// Pushes a number in decimal.
fn push_number(text: &mut Vec<u8>, number: u64) -> Result<(), AllocError>
    ensures { OnOk result (text.new.items ≡ text.old.items ++ decimal number) }
{
    let mut digits = Buffer::new();
    text.extend_from_slice(digits.format(number).as_bytes())
}

/// Pushes a blank, a name, a blank and its number.
fn push_named(text: &mut Vec<u8>, name: &str, number: u64) -> Result<(), AllocError>
    ensures { OnOk result (text.new.items
        ≡ text.old.items ++ codes " " ++ name.now ++ codes " " ++ decimal number) }
{
    text.push(b' ')?;
    text.extend_from_slice(name.as_bytes())?;
    text.push(b' ')?;
    push_number(text, number)
}

/// Pushes names, each with its number.
fn push_counts(text: &mut Vec<u8>, counts: &[(&str, u64)]) -> Result<(), AllocError>
    ensures { OnOk result (text.new.items
        ≡ text.old.items ++ counts_text (map (λ count. (count.0.now, count.1)) counts.now)) }
{
    for (name, number) in counts {
        push_named(text, name, *number)?;
    }
    Ok(())
}

/// Pushes the line of a kind of counts, on a port.
fn push_line(
    text: &mut Vec<u8>,
    kind: &str,
    port: u16,
    counts: &[(&str, u64)],
) -> Result<(), AllocError>
    ensures { OnOk result (text.new.items
        ≡ text.old.items ++ line_of kind.now port
        (map (λ count. (count.0.now, count.1)) counts.now)) }
{
    text.extend_from_slice(kind.as_bytes())?;
    text.push(b' ')?;
    push_number(text, u64::from(port))?;
    push_counts(text, counts)?;
    text.push(b'\n')?;
    Ok(())
}

/// Pushes a flow's own line.
#[tactic(auto, unfolding(crate::specs::Text::flow_line))]
fn push_flow_line(text: &mut Vec<u8>, flow: &FlowSum) -> Result<(), AllocError>
    ensures { OnOk result (text.new.items ≡ text.old.items ++ flow_line flow.now) }
{
    push_line(
        text,
        "flow",
        flow.port,
        &[
            ("shown", flow.shown),
            ("repaired", flow.repaired),
            ("missing", flow.missing),
            ("windows", flow.windows),
            ("inconsistent", flow.inconsistent),
        ],
    )
}

/// Pushes the line of a flow's media datagrams.
#[tactic(auto, unfolding(crate::specs::Text::media_line))]
fn push_media_line(text: &mut Vec<u8>, port: u16, marks: &Marks) -> Result<(), AllocError>
    ensures { OnOk result (text.new.items ≡ text.old.items ++ media_line port marks.now) }
{
    push_line(
        text,
        "media",
        port,
        &[
            ("admitted", marks.admitted),
            ("duplicate", marks.duplicate),
            ("conflict", marks.conflict),
            ("late", marks.late),
            ("bad", marks.bad),
        ],
    )
}

/// Pushes the line of a flow's column or row parity datagrams.
#[tactic(auto, unfolding(crate::specs::Text::parity_line))]
fn push_parity_line(
    text: &mut Vec<u8>,
    kind: &str,
    port: u16,
    marks: &Marks,
) -> Result<(), AllocError>
    ensures { OnOk result (text.new.items ≡ text.old.items ++ parity_line kind.now port marks.now) }
{
    push_line(
        text,
        kind,
        port,
        &[
            ("admitted", marks.admitted),
            ("duplicate", marks.duplicate),
            ("conflict", marks.conflict),
            ("late", marks.late),
            ("notstarted", marks.not_started),
            ("beforestart", marks.before_start),
            ("ahead", marks.ahead),
            ("crowded", marks.crowded),
            ("bad", marks.bad),
        ],
    )
}

/// Pushes the line of a flow's runs, where there are two or more.
#[tactic(auto, unfolding(crate::specs::Text::runs_line))]
fn push_runs_line(text: &mut Vec<u8>, flow: &FlowSum) -> Result<(), AllocError>
    ensures { OnOk result (text.new.items ≡ text.old.items ++ runs_line flow.now) }
{
    if flow.runs < 2 {
        return Ok(());
    }
    text.extend_from_slice(b"runs ")?;
    push_number(text, u64::from(flow.port))?;
    text.push(b' ')?;
    push_number(text, flow.runs)?;
    text.extend_from_slice(b" foreign ")?;
    push_number(text, flow.media.foreign)?;
    text.push(b'\n')?;
    Ok(())
}

/// Pushes the four lines that every flow has, and the one of its runs.
#[tactic(auto, unfolding(crate::specs::Text::flow_lines))]
pub(crate) fn push_flow_lines(text: &mut Vec<u8>, flow: &FlowSum) -> Result<(), AllocError>
    ensures { OnOk result (text.new.items ≡ text.old.items ++ flow_lines flow.now) }
{
    push_flow_line(text, flow)?;
    push_media_line(text, flow.port, &flow.media)?;
    push_parity_line(text, "column", flow.port, &flow.column)?;
    push_parity_line(text, "row", flow.port, &flow.row)?;
    push_runs_line(text, flow)
}

/// Pushes the line of a run of positions that show nothing.
#[tactic(auto, unfolding(crate::specs::Text::gap_line))]
pub(crate) fn push_gap_line(
    text: &mut Vec<u8>,
    port: u16,
    gap: (u64, u64),
) -> Result<(), AllocError>
    ensures { OnOk result (text.new.items ≡ text.old.items ++ gap_line port gap) }
{
    let (first, count) = gap;
    text.extend_from_slice(b"gap ")?;
    push_number(text, u64::from(port))?;
    text.push(b' ')?;
    push_number(text, first)?;
    text.push(b' ')?;
    push_number(text, count)?;
    text.push(b'\n')?;
    Ok(())
}

/// Pushes a line of some words and a number.
fn push_place(text: &mut Vec<u8>, words: &[u8], place: u64) -> Result<(), AllocError>
    ensures { OnOk result (text.new.items
        ≡ text.old.items ++ words.now ++ decimal place ++ codes "\n") }
{
    text.extend_from_slice(words)?;
    push_number(text, place)?;
    text.push(b'\n')?;
    Ok(())
}

/// Pushes the line that says where the trace ended too early, if it did.
#[tactic(auto, unfolding(crate::specs::Text::tail_text))]
fn push_tail(text: &mut Vec<u8>, tail: Tail) -> Result<(), AllocError>
    ensures { OnOk result (text.new.items ≡ text.old.items ++ tail_text tail) }
{
    match tail {
        Tail::Ended => Ok(()),
        Tail::Cut(place) => push_place(text, b"cut at byte ", place),
        Tail::TooLong(place) => push_place(text, b"too long at byte ", place),
    }
}

/// Pushes what follows the flows.
#[tactic(auto, unfolding(crate::specs::Text::other_line))]
pub(crate) fn push_end(text: &mut Vec<u8>, other: u64, tail: Tail) -> Result<(), AllocError>
    ensures { OnOk result (text.new.items ≡ text.old.items ++ other_line other ++ tail_text tail) }
{
    push_place(text, b"other ", other)?;
    push_tail(text, tail)
}
