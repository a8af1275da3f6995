//! What a call of the program owes for what is asked of it, and the commands that need no worker: each reads one text and writes
//! one, or reads nothing and writes one.
#![tactic(auto)]

ghost use Rattle.std.specs.Prelude.{◌≡◌, ◌≤◌};
ghost use Rattle.fg_commands.specs.Ended.{TellsFault, status_of};

mod answering;
mod checking;
mod encoding;
mod ended;
mod fault_line;
mod from_capture;
mod inspection;
mod monitoring;
mod picking;
mod planning;
mod proving;
mod surveying;
mod to_capture;

pub use answering::answer_question;
pub use checking::run_check;
pub use encoding::run_encode;
pub use ended::{Ended, Why};
use fg_io::Sink;
pub use from_capture::run_fromcap;
pub use inspection::run_inspect;
pub use monitoring::run_monitor;
pub use picking::run_pick;
pub use planning::run_plan;
pub use proving::run_prove;
pub use surveying::run_survey;
pub use to_capture::run_tocap;

/// Tells how a call ended: writes the line that says why to `err`, and answers with the status. A fault of `err`
/// changes nothing else.
pub fn tell_end<E: Sink>(err: &mut E, why: Why) -> Ended
    ensures why { result.why ≡ why }
    ensures status { result.status ≡ status_of why }
    ensures err { TellsFault why (E.written err.old) (E.faults err.old)
        (E.written err.new) (E.faults err.new) }
    ensures quiet { why ≡ Why.Done → err.new ≡ err.old }
    ensures never_falls { E.faults err.old ≤ E.faults err.new }
{
    let _ = fault_line::write_fault_line(err, why);
    Ended::of(why)
}
