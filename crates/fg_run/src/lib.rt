//! The top call of the program: [`run`] reads its words, does what they ask for, and tells how that ended.
#![tactic(auto)]

ghost use Rattle.std.specs.Prelude.{◌≡◌, ◌≤◌, ◌∷◌, [], map, string_bytes};
ghost use Rattle.fg_results.specs.Counted.{CountsAhead};
ghost use Rattle.fg_run.specs.Answered.{WordsAnswered};
ghost use Rattle.fg_commands.specs.Ended.{IsFault, TellsFault, status_of};

mod answer;
mod drill;
pub mod laws;
mod repairing;
mod request;
mod sample;

pub use fg_commands::{
    Ended, Why, run_check, run_encode, run_fromcap, run_inspect, run_monitor, run_pick, run_plan,
    run_prove, run_survey, run_tocap, tell_end,
};
use fg_crew::Gate;
use fg_io::laws::parts_of_writes;
use fg_io::{Outlet, Sink, Source};
use request::Request;
use std::alloc::{AllocError, Global};
use std::sync::Wait;
use std::thread::Threads;

/// Runs the program that the words name over the input, the sinks and the lanes.
///
/// `--help` and `--version`, each as the only word, write their text to `out`. `repair` repairs the flows of the trace in the
/// input: each flow's lane gains its repaired stream, and `out` the report. Workers, where the words ask for some, are threads
/// that recover words beside the caller's, for a drill and a sample too; the gate hears of their steps. Only what a fault leaves,
/// and what is counted then, depends on whether there are any. `encode` writes the trace of the stream's encoding to `out`, and
/// `inspect` a line for each record of the trace. `drill` encodes the stream, leaves records out, and repairs the rest; `sample`
/// does so with a stream that it makes, and reads nothing. `fromcap` writes the trace of a capture's datagrams to `out`, `tocap`
/// a capture of a trace's records, and `monitor` a line for each break of a stream's continuity. `prove` writes a case for each
/// repaired window that shows a gap in the one flow that it takes, `check` judges a text of cases and writes a line for each, and
/// `plan` writes the matrix that it chooses for a burst, and reads nothing. `survey` tells what a trace holds, and `pick` writes the
/// trace of some of a trace's records. Words that break a rule are refused: then nothing is read, written or made. The line that says why goes to `err`; a fault of
/// `err` changes no answer.
pub fn run<
    W: Threads + Wait + Sync,
    S: Source + Send,
    K: Sink + Send,
    E: Sink,
    O: Outlet + Send,
    G: Gate,
>(
    rt: &W,
    alloc: Global,
    words: &[String],
    input: &mut S,
    out: &mut K,
    err: &mut E,
    lanes: &mut O,
    gate: &G,
) -> Ended
    ensures status { result.status ≡ status_of result.why }

    // The headline, for every number of workers, and what a run keeps beside it: whatever the words ask for is what is done.
    ensures answered { WordsAnswered (map string_bytes words.now) result.why S.left S.faults input.old input.new
        O.lanes O.faults lanes.old lanes.new K.written K.faults out.old out.new }

    // A fault of the outside is answered only where it was counted in this call. With every other answer no fault of writing was,
    // and none of reading where the answer is neither a fault nor want of memory. No count falls.
    ensures faults { CountsAhead (IsFault result.why) (result.why ≡ Why.ReadFault) (result.why ≡ Why.WriteFault)
        ((S.faults input.old, S.faults input.new) ∷ [])
        ((K.faults out.old, K.faults out.new) ∷ (O.faults lanes.old, O.faults lanes.new) ∷ []) }
    ensures err_faults { E.faults err.old ≤ E.faults err.new }

    // The error sink gains the line, or a prefix of it where a fault of its own was counted.
    ensures err { TellsFault result.why (E.written err.old) (E.faults err.old)
        (E.written err.new) (E.faults err.new) }
    ensures quiet { result.why ≡ Why.Done → err.new ≡ err.old }
{
    laws::one_request();
    parts_of_writes();
    let why = match request::read_request(alloc, words) {
        Ok(request) => { answer::answer(rt, alloc, request, input, out, lanes, gate) }
        Err(AllocError) => Why::Memory,
    };
    tell_end(err, why)
}
