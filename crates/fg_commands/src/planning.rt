//! The command `plan`.
ghost use Rattle.std.specs.Prelude.{◌≡◌, ◌≤◌};
ghost use Rattle.fg_commands.specs.Ended.{status_of};
ghost use Rattle.fg_commands.specs.Planning.{planning};
ghost use Rattle.fg_commands.specs.Printer.{PrinterAnswered};

use crate::ended::{Ended, Why};
use fg_io::Sink;
use fg_plan::laws::one_choice;
use fg_plan::{choose, write_choice};
use std::alloc::Global;

/// Writes to `out` the columns and rows of the least matrix for bursts of up to `burst` datagrams whose parity is at most `most`
/// percent, with parity of rows or without, or that there is none.
pub fn run_plan<K: Sink>(_alloc: Global, burst: u8, most: u8, rows: bool, out: &mut K) -> Ended
    requires burst { (1 ≤ burst) × (burst ≤ 20) }
    requires most { (1 ≤ most) × (most ≤ 100) }
    ensures status { result.status ≡ status_of result.why }
    ensures answered { PrinterAnswered (planning burst most rows) result.why K.written K.faults out.old out.new }
{
    one_choice();
    match write_choice(choose(burst, most, rows), out) {
        Ok(()) => Ended::of(Why::Done),
        Err(fault) => Ended::of(fault.into()),
    }
}
