//! Gathering a case from its lines, and telling which line fits.
ghost use Rattle.std.specs.Prelude.{◌≡◌, ◌+◌, ◌<◌, ◌≤◌, ◌↔◌, length, IsTrue, IfOk};
ghost use Rattle.fg_proof.specs.Text.{Known, Open, Rule, Head, End, IsWritableRule, IsWritableRun, line_limit, lines_of, number_limit};
ghost use Rattle.fg_check.specs.Line.{FitsFields, line_of};
ghost use Rattle.fg_check.specs.Steps.{Takes};

use crate::reading::TextLine;
use fg_proof::{Case, Rules, Runs};
use fg_shape::Shape;
use std::alloc::{AllocError, Global};

/// The most lines that the text of a case has.
const LINES: usize = 10_000;

/// What became of a line.
#[derive(Drop)]
pub(crate) enum Taken {
    /// It belongs to the open case.
    More,
    /// It ends the open case, which is this.
    Whole(Case),
    /// It doesn't fit.
    Refused,
}

/// Takes the next line, where it fits.
pub(crate) fn take_line(
    alloc: Global,
    opened: &mut Option<Case>,
    line: TextLine,
) -> Result<Taken, AllocError>
    requires { FitsFields (line_of line) }
    ensures { IfOk result (λ taken. Takes opened.old (line_of line) taken opened.new) }
{
    match line {
        TextLine::Head(port, mark, count) => Ok(take_head(alloc, opened, port, mark, count)),
        TextLine::Known(first, count) => take_known(opened, first, count),
        TextLine::Rule(base, shape) => take_rule(opened, base, shape),
        TextLine::Open(first, count) => take_open(opened, first, count),
        TextLine::End => Ok(take_end(opened)),
    }
}

/// The first line of a case fits where none is open.
fn take_head(alloc: Global, opened: &mut Option<Case>, port: u16, mark: u64, count: u32) -> Taken
    requires { mark < number_limit }
    ensures { Takes opened.old (Head port mark count) result opened.new }
{
    if opened.is_some() {
        return Taken::Refused;
    }
    *opened = Some(Case {
        port,
        mark,
        count,
        known: Runs::new(alloc),
        lines: Rules::new(alloc),
        holes: Runs::new(alloc),
    });
    Taken::More
}

/// A run of known positions fits in an open case that has no other lines yet.
fn take_known(opened: &mut Option<Case>, first: u64, count: u64) -> Result<Taken, AllocError>
    requires { IsWritableRun (first, count) }
    ensures { IfOk result (λ taken. Takes opened.old (Known (first, count)) taken opened.new) }
{
    let Some(case) = opened else {
        return Ok(Taken::Refused);
    };
    if case.lines.count() > 0
        || case.holes.count() > 0
        || is_full(&case.known, &case.lines, &case.holes)
    {
        return Ok(Taken::Refused);
    }
    case.known.add(first, count)?;
    Ok(Taken::More)
}

/// The slots of an equation fit in an open case that has no holes yet.
fn take_rule(opened: &mut Option<Case>, base: u64, shape: Shape) -> Result<Taken, AllocError>
    requires { IsWritableRule (base, shape) }
    ensures { IfOk result (λ taken. Takes opened.old (Rule (base, shape)) taken opened.new) }
{
    let Some(case) = opened else {
        return Ok(Taken::Refused);
    };
    if case.holes.count() > 0 || is_full(&case.known, &case.lines, &case.holes) {
        return Ok(Taken::Refused);
    }
    case.lines.add(base, shape)?;
    Ok(Taken::More)
}

/// A run of holes fits in an open case.
fn take_open(opened: &mut Option<Case>, first: u64, count: u64) -> Result<Taken, AllocError>
    requires { IsWritableRun (first, count) }
    ensures { IfOk result (λ taken. Takes opened.old (Open (first, count)) taken opened.new) }
{
    let Some(case) = opened else {
        return Ok(Taken::Refused);
    };
    if is_full(&case.known, &case.lines, &case.holes) {
        return Ok(Taken::Refused);
    }
    case.holes.add(first, count)?;
    Ok(Taken::More)
}

/// The last line of a case fits where one is open.
fn take_end(opened: &mut Option<Case>) -> Taken
    ensures { Takes opened.old End result opened.new }
{
    match opened.take() {
        Some(case) => Taken::Whole(case),
        None => Taken::Refused,
    }
}

/// Whether a case of these, once it is ended, has as many lines as it may.
fn is_full(known: &Runs, lines: &Rules, holes: &Runs) -> bool
    ensures { IsTrue result
        ↔ (line_limit ≤ length known.now + length lines.now + length holes.now + 2) }
{
    let runs = known.count().saturating_add(holes.count());
    runs.saturating_add(lines.count()) >= LINES - 2
}
