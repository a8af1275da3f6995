//! The text of cases, made one after another.
ghost use Rattle.std.specs.Prelude.{◌≡◌, ◌++◌, [], ◌∷◌, map, IfOk, OnOk, OnErr};
ghost use Rattle.std.specs.Fmt.{decimal};
ghost use Rattle.std.specs.List.{flat_map};
ghost use Rattle.fg_io.specs.Faults.{Counts};
ghost use Rattle.fg_io.specs.Sent.{Sent};
ghost use Rattle.fg_io.specs.Sink.{GainsPart};
ghost use Rattle.fg_proof.specs.Text.{spelled, text_of, case_text, Rule, Known, Open};

use fg_io::{Fault, OutputBuffer, Sink};
use fg_proof::{Case, Rules, Runs};
use itoa::Buffer;
use std::alloc::{AllocError, Global};

/// How many bytes of the text are gathered before they are written.
const ROOM: usize = 16_384;

/// Room for a case of some lines.
const CASE: usize = 4_096;

/// The text that is held.
#[derive(Drop)]
pub(crate) struct CaseText {
    // The text of a case is made here.
    text: Vec<u8>,
    pub(crate) held: OutputBuffer,
}

/// Pushes a blank, and a number in decimal.
fn push_number(text: &mut Vec<u8>, number: u64) -> Result<(), AllocError>
    ensures { OnOk result (text.new.items ≡ text.old.items ++ 32 ∷ decimal number) }
{
    text.push(b' ')?;
    let mut digits = Buffer::new();
    text.extend_from_slice(digits.format(number).as_bytes())
}

/// Pushes the line of a word and two numbers.
fn push_two(text: &mut Vec<u8>, word: &str, one: u64, other: u64) -> Result<(), AllocError>
    ensures { OnOk result (text.new.items ≡ text.old.items
        ++ (spelled word.now (one ∷ other ∷ []) ++ 10 ∷ [])) }
{
    text.extend_from_slice(word.as_bytes())?;
    push_number(text, one)?;
    push_number(text, other)?;
    text.push(b'\n')?;
    Ok(())
}

/// Pushes the line of a word and three numbers.
fn push_three(
    text: &mut Vec<u8>,
    word: &str,
    first: u64,
    second: u64,
    third: u64,
) -> Result<(), AllocError>
    ensures { OnOk result (text.new.items ≡ text.old.items
        ++ (spelled word.now (first ∷ second ∷ third ∷ []) ++ 10 ∷ [])) }
{
    text.extend_from_slice(word.as_bytes())?;
    push_number(text, first)?;
    push_number(text, second)?;
    push_number(text, third)?;
    text.push(b'\n')?;
    Ok(())
}

/// Pushes a line of this word for each run.
fn push_runs(text: &mut Vec<u8>, word: &str, runs: &Runs) -> Result<(), AllocError>
    ensures { OnOk result (text.new.items ≡ text.old.items
        ++ flat_map (λ run. spelled word.now (run.0 ∷ run.1 ∷ []) ++ 10 ∷ []) runs.now) }
{
    for i in 0..runs.count() {
        let (first, length) = runs.item(i);
        push_two(text, word, first, length)?;
    }
    Ok(())
}

/// Pushes a line for the slots of each equation.
fn push_rules(text: &mut Vec<u8>, rules: &Rules) -> Result<(), AllocError>
    ensures { OnOk result (text.new.items ≡ text.old.items ++ text_of (map Rule rules.now)) }
{
    for i in 0..rules.count() {
        let (base, shape) = rules.item(i);
        push_three(
            text,
            "line",
            base,
            u64::from(shape.offset),
            u64::from(shape.na),
        )?;
    }
    Ok(())
}

/// Pushes the text of a case.
fn push_case(text: &mut Vec<u8>, case: &Case) -> Result<(), AllocError>
    ensures { OnOk result (text.new.items ≡ text.old.items ++ case_text case.now) }
{
    push_three(
        text,
        "case",
        u64::from(case.port),
        case.mark,
        u64::from(case.count),
    )?;
    push_runs(text, "known", &case.known)?;
    push_rules(text, &case.lines)?;
    push_runs(text, "open", &case.holes)?;
    text.extend_from_slice(b"end\n")?;
    Ok(())
}

impl CaseText {
    /// No text, with the memory to make and to hold some.
    pub(crate) fn new(alloc: Global) -> Result<CaseText, AllocError>
        ensures { IfOk result (λ text. text.held ≡ []) }
    {
        Ok(CaseText {
            text: Vec::with_capacity(alloc, CASE)?,
            held: OutputBuffer::new(alloc, ROOM)?,
        })
    }

    /// Adds the text of a case, and writes what is held where there is no more room.
    // Seldom called.
    #[inline(never)]
    pub(crate) fn add<K: Sink>(&mut self, case: &Case, out: &mut K) -> Result<(), Fault>
        ensures sent { OnOk result (Sent (K.written out.old) (self.old.held ++ case_text case.now)
            self.new.held (K.written out.new)) }
        ensures part { OnErr result (GainsPart (K.written out.old) (self.old.held ++ case_text case.now)
            (K.written out.new)) }
        ensures faults { Counts result [] ((K.faults out.old, K.faults out.new) ∷ []) }
    {
        self.text.clear();
        push_case(&mut self.text, case)?;
        self.held.add(&self.text, out)?;
        Ok(())
    }
}
