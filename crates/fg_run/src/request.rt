//! What words ask for.
ghost use Rattle.std.specs.Prelude.{IfOk, map, string_bytes};
ghost use Rattle.fg_run.specs.Request.{Asks, RequestFits};

use fg_cli::{Order, Question, ReadWords, WordFault, read_words};
use std::alloc::{AllocError, Global};

/// What words ask for.
#[derive(Drop)]
pub enum Request {
    /// The answer to a question beside the grammar.
    Asked(Question),
    /// What the words order.
    Ordered(Order),
    /// Nothing: the words break a rule, and this is the first.
    Refused(WordFault),
}

/// What the words ask for.
pub fn read_request(alloc: Global, words: &[String]) -> Result<Request, AllocError>
    ensures asked { IfOk result (Asks (map string_bytes words.now)) }
    ensures fits { IfOk result RequestFits }
{
    if let Some(question) = Question::asked(words) {
        return Ok(Request::Asked(question));
    }
    match read_words(alloc, words) {
        Ok(order) => Ok(Request::Ordered(order)),
        Err(ReadWords::Words(fault)) => Ok(Request::Refused(fault)),
        Err(ReadWords::Memory) => Err(AllocError),
    }
}
