//! What all ports hold.
ghost use Rattle.std.specs.Prelude.{◌≡◌, ◌<◌, ◌^◌, ◌∷◌, [], ℕ, List, IfOk, length, sum_by};
ghost use Rattle.fg_survey.specs.Heard.{Heard};
ghost use Rattle.fg_survey.specs.Steps.{ArePorts};
ghost use Rattle.fg_survey.specs.Totals.{size};

use crate::reading::Reading;
use crate::rows::{NO_ROW, Row};
use std::alloc::{AllocError, Global};

/// How many ports there are.
pub(crate) const PORTS: usize = 65_536;

/// A row for each port, none with a record.
pub(crate) fn no_rows(alloc: Global) -> Result<Vec<Row>, AllocError>
    ensures { IfOk result (λ rows. ArePorts rows.items []) }
{
    vec![in alloc; NO_ROW; PORTS]
}

/// Counts a record on a port.
pub(crate) fn take_row(rows: &mut [Row], port: u16, time: u64, len: u16, reading: Reading)
    requires { (before : List Heard) × ArePorts rows.old before
        × (length before < 2 ^ 40) × (sum_by size before < 2 ^ 58) }
    ensures { (before : List Heard) (x : Heard) → x.time ≡ time → x.port ≡ port → size x ≡ len → x.reading ≡ reading
        → ArePorts rows.old before → ArePorts rows.new (x ∷ before) }
{
    rows[usize::from(port)].take(time, len, reading);
}
