//! Where no media datagram is missing, each slot peels.
ghost use Rattle.fg_drill.specs.TrueLaws.{FullArrivalsPeel};

use crate::laws::true_runs::runs_are_lawful;
use fg_playout::laws::runs_exist;

/// True datagrams of which no media datagram is missing peel, at every playout: each slot is
/// received before the play that closes it, and the flush closes the rest.
pub fn full_arrivals_peel()
    ensures { FullArrivalsPeel }
{
    runs_exist();
    runs_are_lawful();
}
