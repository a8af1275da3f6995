//! The lines of a checking, made one after another.
ghost use Rattle.std.specs.Prelude.{◌≡◌, ◌+◌, ◌<◌, ◌^◌, ◌++◌, [], ◌∷◌, None, IfOk, OnOk, OnErr};
ghost use Rattle.std.specs.Fmt.{decimal};
ghost use Rattle.fg_io.specs.Faults.{Counts};
ghost use Rattle.fg_io.specs.Sent.{Sent};
ghost use Rattle.fg_io.specs.Sink.{GainsPart};
ghost use Rattle.fg_check.specs.Steps.{FindsUnproved};
ghost use Rattle.fg_check.specs.Text.{verdict, verdict_line};

use fg_io::{Fault, OutputBuffer, Sink};
use fg_proof::Answer;
use itoa::Buffer;
use std::alloc::{AllocError, Global};

/// How many bytes of the lines are gathered before they are written.
const ROOM: usize = 16_384;

/// Room for a line.
const LINE: usize = 64;

/// The lines that are held, how many cases were told, and the first whose answer isn't `Yes`.
#[derive(Drop)]
pub(crate) struct Lines {
    // A line is made here.
    line: Vec<u8>,
    pub(crate) held: OutputBuffer,
    pub(crate) cases: u64,
    pub(crate) unproved: Option<u64>,
}

/// Pushes some words and a number in decimal.
fn push_named(text: &mut Vec<u8>, words: &str, number: u64) -> Result<(), AllocError>
    ensures { OnOk result (text.new.items ≡ text.old.items ++ words.now ++ decimal number) }
{
    text.extend_from_slice(words.as_bytes())?;
    let mut digits = Buffer::new();
    text.extend_from_slice(digits.format(number).as_bytes())
}

/// Pushes what a line says of a case that is judged so.
fn push_verdict(text: &mut Vec<u8>, answer: Answer) -> Result<(), AllocError>
    ensures { OnOk result (text.new.items ≡ text.old.items ++ verdict answer) }
{
    match answer {
        Answer::Yes => text.extend_from_slice(b"yes"),
        Answer::Disorder => text.extend_from_slice(b"disorder"),
        Answer::Known(position) => push_named(text, "known ", position),
        Answer::Alone(number) => push_named(text, "alone ", u64::from(number)),
    }
}

/// Pushes the line of a case.
#[tactic(auto, unfolding(crate::specs::Text::verdict_line))]
fn push_line(text: &mut Vec<u8>, number: u64, answer: Answer) -> Result<(), AllocError>
    ensures { OnOk result (text.new.items ≡ text.old.items ++ verdict_line number answer) }
{
    push_named(text, "case ", number)?;
    text.push(b' ')?;
    push_verdict(text, answer)?;
    text.extend_from_slice(b"\n")
}

impl Lines {
    /// No lines, with the memory to make and to hold them.
    pub(crate) fn new(alloc: Global) -> Result<Lines, AllocError>
        ensures held { IfOk result (λ lines. lines.held ≡ []) }
        ensures cases { IfOk result (λ lines. lines.cases ≡ 0) }
        ensures unproved { IfOk result (λ lines. lines.unproved ≡ None) }
    {
        Ok(Lines {
            line: Vec::with_capacity(alloc, LINE)?,
            held: OutputBuffer::new(alloc, ROOM)?,
            cases: 0,
            unproved: None,
        })
    }

    /// Adds the line of the next case, and writes what is held where there is no more room.
    pub(crate) fn add<K: Sink>(&mut self, answer: Answer, out: &mut K) -> Result<(), Fault>
        requires { self.old.cases < 2 ^ 60 }
        ensures sent { OnOk result (Sent (K.written out.old)
            (self.old.held ++ verdict_line self.old.cases answer) self.new.held (K.written out.new)) }
        ensures part { OnErr result (GainsPart (K.written out.old)
            (self.old.held ++ verdict_line self.old.cases answer) (K.written out.new)) }
        ensures cases { OnOk result (self.new.cases ≡ self.old.cases + 1) }
        ensures unproved { OnOk result (FindsUnproved self.old.cases self.old.unproved answer
            self.new.unproved) }
        ensures counts { Counts result [] ((K.faults out.old, K.faults out.new) ∷ []) }
    {
        self.line.clear();
        push_line(&mut self.line, self.cases, answer)?;
        self.held.add(&self.line, out)?;
        if self.unproved.is_none() && answer != Answer::Yes {
            self.unproved = Some(self.cases);
        }
        self.cases += 1;
        Ok(())
    }
}
