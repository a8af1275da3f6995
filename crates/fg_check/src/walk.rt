//! Walking a text of cases, and judging each.
ghost use Rattle.std.specs.Prelude.{◌≡◌, ◌+◌, ◌-◌, ◌≤◌, ◌<◌, ◌^◌, ℕ, Option, List, [], ◌∷◌, ◌++◌, length, take, None, Some, IfOk, IfSome, IfNone, OnErr};
ghost use Rattle.std.specs.List.{Contains};
ghost use Rattle.std.specs.Io.KnownBytes.{IsAtEnd};
ghost use Rattle.fg_io.specs.Faults.{Counts};
ghost use Rattle.fg_io.specs.InputBuffer.{IsAhead};
ghost use Rattle.fg_check.specs.Checked.{Checks, ChecksPart, LeavesNothing, TellsExactly};
ghost use Rattle.fg_check.specs.Reading.{IsCheckReadFor, answer_of};
ghost use Rattle.fg_check.specs.Line.{IsFirstPlace};
ghost use Rattle.fg_check.specs.Steps.{Breaks, HasPassed, HasWalked, IsBehind, IsBuffer, IsNext, IsUnderway, TakesText, longest, stepped};

use crate::gathering::{Taken, take_line};
use crate::laws::{one_check, one_text};
use crate::lines::Lines;
use crate::reading::{first_place, read_line};
use fg_io::{Ahead, Fault, InputBuffer, Sink, Source};
use fg_proof::{Case, judge};
use std::alloc::{AllocError, Global};

/// How many bytes the source is asked for at once.
const PIECE: usize = 65_536;

/// The most bytes of a line that fits, without its line feed: `known` and two numbers of 19 digits.
const LONGEST: usize = 45;

/// What is told of a text of cases. Cases, lines and bytes are counted from 0.
#[derive(Clone, Copy, Debug, PartialEq, Eq)]
pub enum Checked {
    /// Each case is judged `Yes`.
    Done,
    /// This is the first case that isn't.
    Unproved(u64),
    /// This is the first line that doesn't fit: the bytes are no text of cases.
    NotCase(u64),
    /// There are more bytes than the limit, and the line that begins here isn't whole within it.
    TooLong(u64),
}

/// What stands ahead.
#[derive(Clone, Copy)]
enum Next {
    /// A line of so many bytes, and its line feed.
    Line(usize),
    /// No line feed, where the longest line that fits and a line feed were asked for.
    Other(Ahead),
}

/// How a line that was passed over ends.
#[derive(Clone, Copy)]
enum Passed {
    /// With its line feed.
    Line,
    /// At the end of the bytes.
    Rest,
    /// Past the limit.
    Limit,
}

/// Checks the cases in the input, which may have at most `max` bytes, 8 to 2^40: judges each and writes its line to `out`.
///
/// The line of case I, counted from 0, is `case I` and then `yes`, `disorder`, `known X` or `alone J`, as [`judge`] answers. The
/// first line that doesn't fit is told before a case that isn't proved. Cases before such a line, or before the line that isn't
/// whole within the limit, are judged and written. After a fault `out` has gained a prefix of the text.
pub fn check_cases<S: Source, K: Sink>(
    alloc: Global,
    max: u64,
    input: &mut S,
    out: &mut K,
) -> Result<Checked, Fault>
    requires least { 8 ≤ max }
    requires limit { max ≤ 2 ^ 40 }

    // Where nothing fails the answer is that of the input, and all its whole cases are told.
    ensures whole { IfOk result (λ checked. Checks max checked (S.left input.old)
        (K.written out.old) (K.written out.new)) }
    ensures exactly { IfOk result (λ checked. TellsExactly max (S.left input.old) checked) }
    ensures all_read { IfOk result (λ checked. LeavesNothing checked → IsAtEnd (S.left input.new)) }

    // The input is read as far as the answer needs, and at most a byte past the limit.
    ensures reads { IfSome (S.left input.old) (λ bytes.
        IsCheckReadFor max (answer_of result) bytes (S.left input.new)) }

    // After a fault the text is a part.
    ensures part { OnErr result (ChecksPart max (S.left input.old)
        (K.written out.old) (K.written out.new)) }
    ensures faults { Counts result ((S.faults input.old, S.faults input.new) ∷ [])
        ((K.faults out.old, K.faults out.new) ∷ []) }
    ensures fixed { S.fixed input.new ≡ S.fixed input.old }
{
    // What goes on is a function of its own, so that the walk is let go in one place.
    let mut walk = Walk::new(alloc, max)?;
    walk.check(alloc, input, out)
}

/// A text that is walked: what was read of it, how many of its lines were taken, the case that is open, and the lines that
/// aren't written yet.
#[derive(Drop)]
struct Walk {
    input: InputBuffer,
    max: u64,
    number: u64,
    opened: Option<Case>,
    lines: Lines,
}

impl Walk {
    /// A walk of which nothing is read or written.
    fn new(alloc: Global, max: u64) -> Result<Walk, AllocError>
        requires { max ≤ 2 ^ 40 }
        ensures begins { IfOk result (λ walk. (first before : Option (List ℕ))
            → IsUnderway first first walk before before) }
        ensures max { IfOk result (λ walk. walk.max ≡ max) }
    {
        Ok(Walk {
            input: InputBuffer::new(alloc, max, LONGEST + 1, PIECE)?,
            max,
            number: 0,
            opened: None,
            lines: Lines::new(alloc)?,
        })
    }

    /// Checks all that is to be read: takes its lines, and writes those of its cases.
    fn check<S: Source, K: Sink>(
        &mut self,
        alloc: Global,
        input: &mut S,
        out: &mut K,
    ) -> Result<Checked, Fault>
        requires { (first before : Option (List ℕ)) → IsUnderway first first self.old before before }
        ensures whole { IfOk result (λ checked. Checks self.old.max checked (S.left input.old)
            (K.written out.old) (K.written out.new)) }
        ensures exactly { IfOk result (λ checked. TellsExactly self.old.max (S.left input.old) checked) }
        ensures all_read { IfOk result (λ checked. LeavesNothing checked → IsAtEnd (S.left input.new)) }
        ensures reads { IfSome (S.left input.old) (λ bytes.
            IsCheckReadFor self.old.max (answer_of result) bytes (S.left input.new)) }
        ensures part { OnErr result (ChecksPart self.old.max (S.left input.old)
            (K.written out.old) (K.written out.new)) }
        ensures faults { Counts result ((S.faults input.old, S.faults input.new) ∷ [])
            ((K.faults out.old, K.faults out.new) ∷ []) }
        ensures fixed { S.fixed input.new ≡ S.fixed input.old }
    {
        one_check();
        one_text();
        let checked = self.walk_all(alloc, input, out)?;
        self.lines.held.flush(out)?;
        Ok(checked)
    }

    /// Takes the lines that are left, and answers what is to be told.
    fn walk_all<S: Source, K: Sink>(
        &mut self,
        alloc: Global,
        input: &mut S,
        out: &mut K,
    ) -> Result<Checked, Fault>
        requires { (first : Option (List ℕ)) × (before : Option (List ℕ))
            × IsUnderway first (S.left input.old) self.old before (K.written out.old) }
        ensures whole { IfOk result (λ checked. (first before : Option (List ℕ))
            → IsUnderway first (S.left input.old) self.old before (K.written out.old)
            → HasWalked first (S.left input.new) checked self.new before (K.written out.new)) }
        ensures part { OnErr result ((first before : Option (List ℕ))
            → IsUnderway first (S.left input.old) self.old before (K.written out.old)
            → Breaks self.old.max first (S.left input.new) before (K.written out.new)) }
        ensures max { self.new.max ≡ self.old.max }
        ensures faults { Counts result ((S.faults input.old, S.faults input.new) ∷ [])
            ((K.faults out.old, K.faults out.new) ∷ []) }
        ensures fixed { S.fixed input.new ≡ S.fixed input.old }
    {
        loop {
            if let Some(checked) = self.walk_on(alloc, input, out)? {
                return Ok(checked);
            }
        }
    }

    /// Takes the next line, where there is one that fits; else it answers what is to be told.
    fn walk_on<S: Source, K: Sink>(
        &mut self,
        alloc: Global,
        input: &mut S,
        out: &mut K,
    ) -> Result<Option<Checked>, Fault>
        requires { (first : Option (List ℕ)) × (before : Option (List ℕ))
            × IsUnderway first (S.left input.old) self.old before (K.written out.old) }
        ensures more { IfOk result (λ end. IfNone end ((first before : Option (List ℕ))
            → IsUnderway first (S.left input.old) self.old before (K.written out.old)
            → IsUnderway first (S.left input.new) self.new before (K.written out.new))) }
        ensures ends { IfOk result (λ end. IfSome end (λ checked. (first before : Option (List ℕ))
            → IsUnderway first (S.left input.old) self.old before (K.written out.old)
            → HasWalked first (S.left input.new) checked self.new before (K.written out.new))) }
        ensures part { OnErr result ((first before : Option (List ℕ))
            → IsUnderway first (S.left input.old) self.old before (K.written out.old)
            → Breaks self.old.max first (S.left input.new) before (K.written out.new)) }
        ensures max { self.new.max ≡ self.old.max }
        ensures place { IfOk result (λ end. IfNone end (self.old.input.place < self.new.input.place)) }
        ensures within { self.new.input.place ≤ self.new.input.max }
        ensures faults { Counts result ((S.faults input.old, S.faults input.new) ∷ [])
            ((K.faults out.old, K.faults out.new) ∷ []) }
        ensures fixed { S.fixed input.new ≡ S.fixed input.old }
    {
        match find_line(&mut self.input, self.max, input)? {
            Next::Line(count) => self.take_text(alloc, count, out),
            Next::Other(Ahead::Whole) => Ok(Some(self.pass_over(input)?)),
            Next::Other(Ahead::EndsHere) => Ok(Some(self.told_at_end())),
            Next::Other(Ahead::EndsInside) => Ok(Some(Checked::NotCase(self.number))),
            Next::Other(Ahead::PastLimit) => Ok(Some(Checked::TooLong(self.input.place()))),
        }
    }

    /// Takes the line of so many bytes that is held next, where it fits; else it answers so.
    fn take_text<K: Sink>(
        &mut self,
        alloc: Global,
        count: usize,
        out: &mut K,
    ) -> Result<Option<Checked>, Fault>
        requires line { IsNext (Next.Line count) self.old.input }
        requires underway { (first : Option (List ℕ)) × (now : Option (List ℕ))
            × (before : Option (List ℕ)) × IsUnderway first now self.old before (K.written out.old) }
        ensures more { IfOk result (λ end. IfNone end ((first now before : Option (List ℕ))
            → IsUnderway first now self.old before (K.written out.old)
            → IsUnderway first now self.new before (K.written out.new))) }
        ensures ends { IfOk result (λ end. IfSome end (λ checked. (first now before : Option (List ℕ))
            → IsUnderway first now self.old before (K.written out.old)
            → HasWalked first now checked self.new before (K.written out.new))) }
        ensures part { OnErr result ((first now before : Option (List ℕ))
            → IsUnderway first now self.old before (K.written out.old)
            → Breaks self.old.max first now before (K.written out.new)) }
        ensures max { self.new.max ≡ self.old.max }
        ensures place { IfOk result (λ end. IfNone end
            (self.new.input.place ≡ self.old.input.place + count + 1)) }
        ensures within { self.new.input.place ≤ self.new.input.max }
        ensures faults { Counts result [] ((K.faults out.old, K.faults out.new) ∷ []) }
    {
        let text = &self.input.held()[..count];
        match take_text(alloc, text, &mut self.opened)? {
            Taken::More => {
                self.step_over(count);
                Ok(None)
            }
            Taken::Whole(case) => {
                self.lines.add(judge(&case), out)?;
                self.step_over(count);
                Ok(None)
            }
            Taken::Refused => Ok(Some(Checked::NotCase(self.number))),
        }
    }

    /// Steps over a line of so many bytes and its line feed.
    fn step_over(&mut self, count: usize)
        requires held { count + 1 ≤ length self.old.input.held }
        requires within { self.old.input.place + count + 1 ≤ self.old.input.max }
        requires limit { self.old.input.max ≤ 2 ^ 40 }
        requires few { self.old.number < 2 ^ 40 }
        ensures { self.new ≡ record self.old {
          input = stepped self.old.input (count + 1);
          number = self.old.number + 1;
        } }
    {
        self.input.step(count + 1);
        self.number += 1;
    }

    /// Passes over the next line, which is longer than any that fits, and answers what is to be told.
    fn pass_over<S: Source>(&mut self, input: &mut S) -> Result<Checked, Fault>
        requires long { IsNext (Next.Other Ahead.Whole) self.old.input }
        requires underway { (first : Option (List ℕ)) × (before : Option (List ℕ))
            × (after : Option (List ℕ)) × IsUnderway first (S.left input.old) self.old before after }
        ensures ends { IfOk result (λ checked. (first before after : Option (List ℕ))
            → IsUnderway first (S.left input.old) self.old before after
            → HasWalked first (S.left input.new) checked self.new before after) }
        ensures part { OnErr result ((first before after : Option (List ℕ))
            → IsUnderway first (S.left input.old) self.old before after
            → Breaks self.old.max first (S.left input.new) before after) }
        ensures max { self.new.max ≡ self.old.max }
        ensures within { self.new.input.place ≤ self.new.input.max }
        ensures faults { Counts result ((S.faults input.old, S.faults input.new) ∷ []) [] }
        ensures fixed { S.fixed input.new ≡ S.fixed input.old }
    {
        let place = self.input.place();
        self.input.step(LONGEST + 1);
        match pass_line(&mut self.input, self.max, input)? {
            Passed::Line | Passed::Rest => Ok(Checked::NotCase(self.number)),
            Passed::Limit => Ok(Checked::TooLong(place)),
        }
    }

    /// What is to be told where the text ends behind a line.
    fn told_at_end(&self) -> Checked
        requires end { IsNext (Next.Other Ahead.EndsHere) self.now.input }
        requires underway { (first : Option (List ℕ)) × (now : Option (List ℕ))
            × (before : Option (List ℕ)) × (after : Option (List ℕ))
            × IsUnderway first now self.now before after }
        ensures { (first now before after : Option (List ℕ))
            → IsUnderway first now self.now before after
            → HasWalked first now result self.now before after }
    {
        if self.opened.is_some() {
            return Checked::NotCase(self.number - 1);
        }
        match self.lines.unproved {
            Some(number) => Checked::Unproved(number),
            None => Checked::Done,
        }
    }
}

/// Takes the line with this text, where it fits.
fn take_text(alloc: Global, text: &[u8], opened: &mut Option<Case>) -> Result<Taken, AllocError>
    ensures { IfOk result (λ taken. TakesText opened.old text.now taken opened.new) }
{
    match read_line(text) {
        Some(line) => take_line(alloc, opened, line),
        None => Ok(Taken::Refused),
    }
}

/// Reads as far as the next line needs, and says what stands ahead.
fn find_line<S: Source>(input: &mut InputBuffer, max: u64, from: &mut S) -> Result<Next, Fault>
    requires buffer { IsBuffer input.old }
    requires max { max ≡ input.old.max }
    ensures next { IfOk result (λ next. IsNext next input.new) }
    ensures behind { (first : Option (List ℕ)) (front : List ℕ)
        → IsBehind first front input.old (S.left from.old)
        → IsBehind first front input.new (S.left from.new) }
    ensures buffer { IsBuffer input.new }
    ensures place { input.new.place ≡ input.old.place }
    ensures max { input.new.max ≡ input.old.max }
    ensures faults { Counts result ((S.faults from.old, S.faults from.new) ∷ []) [] }
    ensures fixed { S.fixed from.new ≡ S.fixed from.old }
{
    let ahead = input.fill(from, LONGEST + 1)?;
    Ok(next_line(input, max, ahead))
}

/// What stands ahead for a line, where this stands ahead for the longest that fits and its line feed.
fn next_line(input: &InputBuffer, max: u64, ahead: Ahead) -> Next
    requires ahead { IsAhead ahead input.now (longest + 1) }
    requires max { max ≡ input.now.max }
    ensures { IsNext result input.now }
{
    let held = input.held();
    let seen = match ahead {
        Ahead::Whole => LONGEST + 1,
        Ahead::EndsHere | Ahead::EndsInside => held.len(),
        Ahead::PastLimit => (max - input.place()) as usize,
    };
    match first_place(b'\n', &held[..seen]) {
        Some(count) => Next::Line(count),
        None => Next::Other(ahead),
    }
}

/// Passes over the rest of a line, in bounded memory.
fn pass_line<S: Source>(input: &mut InputBuffer, max: u64, from: &mut S) -> Result<Passed, Fault>
    requires buffer { IsBuffer input.old }
    requires max { max ≡ input.old.max }
    ensures passed { IfOk result (λ passed. (first : Option (List ℕ)) (front line : List ℕ)
        → ¬ Contains line 10 → IsBehind first (front ++ line) input.old (S.left from.old)
        → HasPassed first front line passed input.new (S.left from.new)) }
    ensures behind { (first : Option (List ℕ)) (front : List ℕ)
        → IsBehind first front input.old (S.left from.old)
        → (more : List ℕ) × IsBehind first (front ++ more) input.new (S.left from.new) }
    ensures buffer { IsBuffer input.new }
    ensures max { input.new.max ≡ input.old.max }
    ensures faults { Counts result ((S.faults from.old, S.faults from.new) ∷ []) [] }
    ensures fixed { S.fixed from.new ≡ S.fixed from.old }
{
    loop {
        if let Some(passed) = pass_piece(input, max, from)? {
            return Ok(passed);
        }
    }
}

/// Passes over what is held of a line, once something is; it answers how the line ends, where it does.
fn pass_piece<S: Source>(
    input: &mut InputBuffer,
    max: u64,
    from: &mut S,
) -> Result<Option<Passed>, Fault>
    requires buffer { IsBuffer input.old }
    requires max { max ≡ input.old.max }
    ensures passed { IfOk result (λ end. IfSome end (λ passed.
        (first : Option (List ℕ)) (front line : List ℕ)
        → ¬ Contains line 10 → IsBehind first (front ++ line) input.old (S.left from.old)
        → HasPassed first front line passed input.new (S.left from.new))) }
    ensures more { IfOk result (λ end. IfNone end ((more : List ℕ) × (¬ Contains more 10)
        × ((first : Option (List ℕ)) (front : List ℕ)
        → IsBehind first front input.old (S.left from.old)
        → IsBehind first (front ++ more) input.new (S.left from.new)))) }
    ensures behind { (first : Option (List ℕ)) (front : List ℕ)
        → IsBehind first front input.old (S.left from.old)
        → (more : List ℕ) × IsBehind first (front ++ more) input.new (S.left from.new) }
    ensures buffer { IsBuffer input.new }
    ensures place { IfOk result (λ end. IfNone end (input.old.place < input.new.place)) }
    ensures max { input.new.max ≡ input.old.max }
    ensures faults { Counts result ((S.faults from.old, S.faults from.new) ∷ []) [] }
    ensures fixed { S.fixed from.new ≡ S.fixed from.old }
{
    match input.fill(from, 1)? {
        Ahead::Whole => Ok(pass_held(input, max)),
        Ahead::EndsHere => Ok(Some(Passed::Rest)),
        Ahead::EndsInside => unreachable!(),
        Ahead::PastLimit => Ok(Some(Passed::Limit)),
    }
}

/// Passes over what is held of a line, and says so where that ends it.
fn pass_held(input: &mut InputBuffer, max: u64) -> Option<Passed>
    requires some { 1 ≤ length input.old.held }
    requires within { input.old.place + 1 ≤ input.old.max }
    requires max { max ≡ input.old.max }
    requires limit { max ≤ 2 ^ 40 }
    ensures passed { IfSome result (λ passed. (passed ≡ Passed.Line)
        × ((count : ℕ) × IsFirstPlace 10 input.old.held count
        × (input.old.place + count + 1 ≤ input.old.max)
        × (input.new ≡ stepped input.old (count + 1)))) }
    ensures more { IfNone result ((count : ℕ) × (1 ≤ count) × (count ≤ length input.old.held)
        × (input.old.place + count ≤ input.old.max) × (¬ Contains (take count input.old.held) 10)
        × (input.new ≡ stepped input.old count)) }
{
    let held = input.held();
    let within = (max - input.place()).min(held.len() as u64) as usize;
    match first_place(b'\n', &held[..within]) {
        Some(count) => {
            input.step(count + 1);
            Some(Passed::Line)
        }
        None => {
            input.step(within);
            None
        }
    }
}
