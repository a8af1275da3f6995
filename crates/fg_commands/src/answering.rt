//! The answers to questions.
ghost use Rattle.fg_commands.specs.Answering.{answering};
ghost use Rattle.fg_commands.specs.Printer.{PrinterAnswered};

use crate::ended::Why;
use fg_cli::Question;
use fg_io::laws::parts_of_writes;
use fg_io::{Sink, write_all};
use std::alloc::Global;

/// Writes the answer to a question to `out`, and tells why that ended.
pub fn answer_question<K: Sink>(alloc: Global, question: Question, out: &mut K) -> Why
    ensures { PrinterAnswered (answering question) result K.written K.faults out.old out.new }
{
    parts_of_writes();
    let Ok(text) = question.answer(alloc) else {
        return Why::Memory;
    };
    match write_all(out, &text) {
        Ok(()) => Why::Done,
        Err(fault) => fault.into(),
    }
}
