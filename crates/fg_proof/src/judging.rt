//! The judge of a case.
ghost use Rattle.std.specs.Prelude.{◌≡◌, ◌↔◌, ◌+◌, ◌<◌, ◌≤◌, ◌^◌, ℕ, length, slice_get, All, IfSome, IfNone, IsTrue, drop};
ghost use Rattle.fg_peel.specs.Verdict.{IsLeast};
ghost use Rattle.fg_shape.specs.Shape.{position_limit};
ghost use Rattle.fg_runs.specs.Runs.{run_end, InRuns};
ghost use Rattle.fg_proof.specs.Judgement.{IsAnswer, IsInOrder, AreInOrder, IsRule, ClaimsAGap, IsBoth, IsAlone, HasOneHole};

use crate::case::Case;
use fg_runs::{Rules, Runs};
use fg_shape::{Shape, shape_ok, slot};

/// The greatest position.
const LAST_POSITION: u64 = 1 << 62;

/// What a judge says of a case.
#[derive(Clone, Copy, Debug, PartialEq, Eq)]
pub enum Answer {
    /// No hole follows from what is known.
    Yes,
    /// The case is out of order.
    Disorder,
    /// The least position that is told as known and as a hole.
    Known(u64),
    /// The number of the first line that has one hole alone, so that its word follows. Lines are counted from 0.
    Alone(u32),
}

/// Judges a case, by itself: nothing else is asked. It takes no memory.
pub fn judge(case: &Case) -> Answer
    requires { length case.now.lines < 2 ^ 32 }
    ensures { IsAnswer case.now result }
{
    if !is_in_order(case) {
        return Answer::Disorder;
    }
    if let Some(position) = first_shared(case) {
        return Answer::Known(position);
    }
    match first_alone(case) {
        Some(number) => Answer::Alone(number),
        None => Answer::Yes,
    }
}

/// Whether a case is in order.
fn is_in_order(case: &Case) -> bool
    ensures { IsTrue result ↔ IsInOrder case.now }
{
    are_in_order(&case.known)
        && are_in_order(&case.holes)
        && are_rules(&case.lines)
        && claims_a_gap(case)
}

/// Whether runs rise with gaps between them, none is empty, and none goes past the greatest position.
fn are_in_order(runs: &Runs) -> bool
    ensures { IsTrue result ↔ AreInOrder runs.now }
{
    let mut least = 0;
    for i in 0..runs.count() {
        let (first, length) = runs.item(i);
        if !may_follow(least, first, length) {
            return false;
        }
        least = first + length + 1;
    }
    true
}

/// Whether a run that isn't to begin before a least position is not empty, and doesn't go past the greatest one.
fn may_follow(least: u64, first: u64, length: u64) -> bool
    ensures { IsTrue result ↔ ((least ≤ first) × (0 < length) × (first + length ≤ position_limit + 1)) }
{
    first >= least && length > 0 && first <= LAST_POSITION && length <= LAST_POSITION + 1 - first
}

/// Whether all lines are the slots of an equation.
fn are_rules(lines: &Rules) -> bool
    ensures { IsTrue result ↔ All IsRule lines.now }
{
    for i in 0..lines.count() {
        let (base, shape) = lines.item(i);
        if base > LAST_POSITION || !shape_ok(shape) {
            return false;
        }
    }
    true
}

/// Whether the window has a position that is claimed to be a hole.
fn claims_a_gap(case: &Case) -> bool
    requires { AreInOrder case.now.holes }
    ensures { IsTrue result ↔ ClaimsAGap case.now }
{
    let at = first_reaching(&case.holes, case.mark);
    if at >= case.holes.count() {
        return false;
    }
    let (first, _) = case.holes.item(at);
    first.saturating_sub(case.mark) < u64::from(case.count)
}

/// The number of the first run that goes past a position or lies behind it, or how many runs there are if none does. It is
/// found by halving.
fn first_reaching(runs: &Runs, position: u64) -> usize
    requires { AreInOrder runs.now }
    ensures passed { (other : ℕ) → position ≤ other → InRuns runs.now other → InRuns (drop result runs.now) other }
    ensures reaches { IfSome (slice_get runs.now result) (λ run. position < run_end run) }
{
    let mut low = 0;
    let mut high = runs.count();
    while low < high {
        let middle = low + (high - low) / 2;
        let (first, length) = runs.item(middle);
        if first + length <= position {
            low = middle + 1;
        } else {
            high = middle;
        }
    }
    low
}

/// The same, from a run on before which none goes past the position. Slot follows slot at most 20 positions on, so few runs are
/// passed.
fn next_reaching(runs: &Runs, from: usize, position: u64) -> usize
    requires order { AreInOrder runs.now }
    requires passed { (other : ℕ) → position ≤ other → InRuns runs.now other → InRuns (drop from runs.now) other }
    ensures passed { (other : ℕ) → position ≤ other → InRuns runs.now other → InRuns (drop result runs.now) other }
    ensures reaches { IfSome (slice_get runs.now result) (λ run. position < run_end run) }
{
    let mut at = from;
    while at < runs.count() {
        let (first, length) = runs.item(at);
        if position < first + length {
            return at;
        }
        at += 1;
    }
    at
}

/// Whether a position is in the run of this number, which is the first to reach it, and so in any.
fn is_reached(runs: &Runs, at: usize, position: u64) -> bool
    requires order { AreInOrder runs.now }
    requires passed { (other : ℕ) → position ≤ other → InRuns runs.now other → InRuns (drop at runs.now) other }
    requires reaches { IfSome (slice_get runs.now at) (λ run. position < run_end run) }
    ensures { IsTrue result ↔ InRuns runs.now position }
{
    if at >= runs.count() {
        return false;
    }
    let (first, _) = runs.item(at);
    first <= position
}

/// The least position that is known and a hole.
fn first_shared(case: &Case) -> Option<u64>
    requires known { AreInOrder case.now.known }
    requires holes { AreInOrder case.now.holes }
    ensures least { IfSome result (IsLeast (IsBoth case.now)) }
    ensures none { IfNone result ((position : ℕ) → ¬ IsBoth case.now position) }
{
    let mut i = 0;
    let mut j = 0;
    while i < case.known.count() && j < case.holes.count() {
        let (known, length) = case.known.item(i);
        let (hole, width) = case.holes.item(j);
        if known + length <= hole {
            i += 1;
        } else if hole + width <= known {
            j += 1;
        } else {
            return Some(known.max(hole));
        }
    }
    None
}

/// The number of the first line with one hole alone.
fn first_alone(case: &Case) -> Option<u32>
    requires few { length case.now.lines < 2 ^ 32 }
    requires holes { AreInOrder case.now.holes }
    requires lines { All IsRule case.now.lines }
    ensures least { IfSome result (IsLeast (IsAlone case.now)) }
    ensures none { IfNone result ((number : ℕ) → ¬ IsAlone case.now number) }
{
    for i in 0..case.lines.count() {
        let (base, shape) = case.lines.item(i);
        if has_one_hole(&case.holes, base, shape) {
            return Some(i as u32);
        }
    }
    None
}

/// Whether one slot of an equation is a hole, and no other. Slots and holes both rise, and are walked together.
fn has_one_hole(holes: &Runs, base: u64, shape: Shape) -> bool
    requires holes { AreInOrder holes.now }
    requires rule { IsRule (base, shape) }
    ensures { IsTrue result ↔ HasOneHole holes.now (base, shape) }
{
    let mut at = first_reaching(holes, base);
    let mut found = false;
    for j in 0..shape.na {
        let position = slot(base, shape, j);
        at = next_reaching(holes, at, position);
        if is_reached(holes, at, position) {
            if found {
                return false;
            }
            found = true;
        }
    }
    found
}
