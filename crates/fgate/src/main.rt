//! The program: makes the real source, sinks and folder, and calls [`fg_run::run`].
#![tactic(auto)]

ghost use Rattle.std.specs.Prelude.{◌≡◌, ◌≤◌, ◌∷◌, [], ℕ, List, Option, None, drop, length, map, string_bytes, IfOk, IfErr, IfSome, IsErr, OnErr};
ghost use Rattle.std.specs.IoError.{error_kind};
ghost use Rattle.std.specs.Process.{exit_status};
ghost use Rattle.std.specs.Str.{IsUtf8};
ghost use Rattle.std.specs.Vec.Iter.{into_iter_items};
ghost use Rattle.fg_results.specs.Counted.{CountsAhead};
ghost use Rattle.fg_run.specs.Answered.{WordsAnswered};
ghost use Rattle.fg_commands.specs.Ended.{IsFault, TellsFault, status_of};
ghost use Rattle.fgate.specs.Words.{AreTaken, IsTakenAt, Tells};

use fg_crew::NoGate;
use fg_io::{
    FolderOutlet, Outlet, Sink, Source, StderrSink, StdinSource, StdoutSink, hold_standard_streams,
};
use fg_run::{Ended, Why};
use std::alloc::{AllocError, Global};
use std::env::FillError;
use std::io::ErrorKind;
use std::process::ExitCode;
use std::rt::Env;
use std::sync::Wait;
use std::thread::Threads;
use std::{env, io};

/// Room for each word that has a meaning.
const WORD: usize = 64;

fn main(rt: HostRuntime) -> ExitCode {
    let _held = hold_standard_streams(&rt);
    exit_code(run_words(
        &rt,
        rt.alloc(),
        words(rt.alloc(), &rt, env::args(&rt)),
        &mut StdinSource::new(rt.stdin(), &rt),
        &mut StdoutSink::new(rt.stdout(), &rt),
        &mut StderrSink::new(rt.stderr(), &rt),
        &mut FolderOutlet::new(&rt),
    ))
}

/// Runs the program that the words name: all that [`fg_run::run`] ensures holds. Where there was no memory for the words,
/// only that is told.
fn run_words<W: Threads + Wait + Sync, S: Source + Send, K: Sink + Send, E: Sink, O: Outlet + Send>(
    rt: &W,
    alloc: Global,
    words: Result<Vec<String>, AllocError>,
    input: &mut S,
    out: &mut K,
    err: &mut E,
    lanes: &mut O,
) -> Ended
    ensures status { result.status ≡ status_of result.why }

    // Without memory for the words nothing is read, written or made.
    ensures no_memory { OnErr words (result.why ≡ Why.Memory) }
    ensures no_words_read { OnErr words (input.new ≡ input.old) }
    ensures no_words_written { OnErr words (out.new ≡ out.old) }
    ensures no_words_made { OnErr words (lanes.new ≡ lanes.old) }

    // What the words ask for is what is done.
    ensures answered { IfOk words (λ words. WordsAnswered (map string_bytes words.items) result.why
        S.left S.faults input.old input.new O.lanes O.faults lanes.old lanes.new K.written K.faults out.old out.new) }

    // How faults are counted, whatever the words.
    ensures faults { CountsAhead (IsFault result.why) (result.why ≡ Why.ReadFault) (result.why ≡ Why.WriteFault)
        ((S.faults input.old, S.faults input.new) ∷ [])
        ((K.faults out.old, K.faults out.new) ∷ (O.faults lanes.old, O.faults lanes.new) ∷ []) }
    ensures err_faults { E.faults err.old ≤ E.faults err.new }
    ensures err { TellsFault result.why (E.written err.old) (E.faults err.old)
        (E.written err.new) (E.faults err.new) }
    ensures quiet { result.why ≡ Why.Done → err.new ≡ err.old }
{
    match words {
        Ok(words) => fg_run::run(rt, alloc, &words, input, out, err, lanes, &NoGate),
        Err(AllocError) => fg_run::tell_end(err, Why::Memory),
    }
}

/// What the program is called with.
trait Called {
    // The words, the program's own name first, where they are told.
    ghost told: { Self → Option (List (List ℕ)) };

    /// Copies the word at the place to the front of the buffer, and answers how long it is.
    fn word(&self, place: usize, into: &mut [u8]) -> Result<usize, FillError>
        ensures bound { IfOk result (λ size. size ≤ length into.new) }
        ensures room { length into.new ≡ length into.old }
        ensures tells { IfSome (told self.now) (λ all. Tells all place result into.new) };
}

/// The system tells its words to no contract: that it gives them is trusted.
impl<V: Env> Called for V {
    ghost told = { λ _. None };

    fn word(&self, place: usize, into: &mut [u8]) -> Result<usize, FillError> {
        self.arg(place, into)
    }
}

/// The words that the program is called with. Where the kit has no words because one isn't UTF-8, they are read one by one.
fn words<C: Called>(
    alloc: Global,
    called: &C,
    args: io::Result<env::Args>,
) -> Result<Vec<String>, AllocError>
    ensures text { IfOk args (λ args. IfOk result (λ words.
        words.items ≡ drop 1 (into_iter_items args))) }
    ensures no_memory { IfErr args (λ fault. error_kind fault ≡ ErrorKind.OutOfMemory
        → IsErr result) }

    // Each word is taken, in its place, also one that isn't UTF-8.
    ensures no_text { IfErr args (λ fault. IfSome (C.told called.now) (λ all. IfOk result (λ words.
        AreTaken string_bytes all words.items))) }
{
    match args {
        Ok(args) => after_the_name(alloc, args),
        Err(fault) if fault.kind() == ErrorKind::OutOfMemory => Err(AllocError),
        Err(_) => words_one_by_one(alloc, called),
    }
}

/// The words of the environment, each at its place. The program's own name is at 0.
fn words_one_by_one<C: Called>(alloc: Global, called: &C) -> Result<Vec<String>, AllocError>
    ensures { IfSome (C.told called.now) (λ all. IfOk result (λ words. AreTaken string_bytes all words.items)) }
{
    let mut words = Vec::new(alloc);
    for place in 1..usize::MAX {
        match word_at(alloc, called, place)? {
            Some(word) => words.push(word)?,
            None => break,
        }
    }
    Ok(words)
}

/// The word at the place, if there is one. One that is too long to have a meaning is an empty word, which has none either.
fn word_at<C: Called>(alloc: Global, called: &C, place: usize) -> Result<Option<String>, AllocError>
    ensures { IfSome (C.told called.now) (λ all. IfOk result (IsTakenAt string_bytes all place)) }
{
    let mut bytes = [0; WORD];
    match called.word(place, &mut bytes) {
        Ok(length) => Ok(Some(word_of(alloc, &bytes[..length])?)),
        Err(FillError::TooLong) => Ok(Some(String::new(alloc))),
        Err(FillError::NotPresent) => Ok(None),
    }
}

/// The word that the bytes are. An empty word, which is as faulty, stands for bytes that aren't UTF-8.
fn word_of(alloc: Global, bytes: &[u8]) -> Result<String, AllocError>
    ensures text { IfOk result (λ word. IsUtf8 bytes.now → string_bytes word ≡ bytes.now) }
    ensures no_text { IfOk result (λ word. ¬ IsUtf8 bytes.now → string_bytes word ≡ []) }
{
    match str::from_utf8(bytes) {
        Ok(text) => String::from_str(alloc, text),
        Err(_) => Ok(String::new(alloc)),
    }
}

/// All but the first, which is the program's own name.
fn after_the_name(alloc: Global, mut args: env::Args) -> Result<Vec<String>, AllocError>
    ensures { IfOk result (λ words. words.items ≡ drop 1 (into_iter_items args)) }
{
    let _name = args.next();
    let mut words = Vec::new(alloc);
    while let Some(word) = args.next() {
        words.push(word)?;
    }
    Ok(words)
}

/// The status that the program ends with.
fn exit_code(ended: Ended) -> ExitCode
    ensures { exit_status result ≡ ended.status }
{
    ExitCode::from(ended.status)
}
