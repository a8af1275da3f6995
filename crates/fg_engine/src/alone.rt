//! The repair on one thread, over a desk for each flow.
ghost use Rattle.std.specs.Prelude.{◌≡◌, length, All, IfOk};
ghost use Rattle.fg_flows.specs.Plan.{PlanFits, playout_of};
ghost use Rattle.fg_playout.specs.State.{opening};
ghost use Rattle.fg_results.specs.Contract.{Repairs};
ghost use Rattle.fg_results.specs.Stops.{ByRecord};

use crate::records::{give_up, repair_windows};
use crate::window::{Skipped, WindowState};
use fg_desk::{Desk, Played, Reply};
use fg_flows::Plan;
use fg_io::{Outlet, Sink, Source};
use fg_shape::Shape;
use fg_trace::Finish;
use fg_words::{Shared, Word};
use std::alloc::{AllocError, Global};

/// A desk keeps the words of its last plays, so they are read where they stand.
impl WindowState for Desk {
    ghost use Rattle.fg_desk.specs.Contents.{kept_from};

    ghost state = { λ desk. desk.state };

    ghost shows = { λ desk played. kept_from desk played.first played.count };

    #[inline]
    fn hold(&self) -> u64 {
        self.hold()
    }

    #[inline]
    fn fresh(&self, ssrc: u32) -> bool {
        self.fresh(ssrc)
    }

    #[inline]
    fn due(&self, seq: u16, ssrc: u32) -> bool {
        self.due(seq, ssrc)
    }

    #[inline]
    fn runs(&self) -> u64 {
        self.runs()
    }

    #[inline]
    fn spare(&mut self) -> Option<Shared> {
        self.spare()
    }

    #[inline]
    fn admit_media(&mut self, seq: u16, ssrc: u32, share: Shared) -> Reply {
        self.admit_media(seq, ssrc, share)
    }

    #[inline]
    fn admit_parity(&mut self, base: u16, shape: Shape, share: Shared) -> Reply {
        self.admit_parity(base, shape, share)
    }

    #[inline]
    fn play(&mut self) -> Played {
        self.play_in_place()
    }

    #[inline]
    fn flush_step(&mut self) -> Option<Played> {
        self.flush_step_in_place()
    }

    #[inline]
    fn held_step(&mut self, time: u64) -> Option<Played> {
        self.held_step_in_place(time)
    }

    #[inline]
    fn skip_due(&mut self, seq: u16, ssrc: u32) -> Skipped {
        let mark = self.mark();
        let windows = self.skip_due(seq, ssrc);
        Skipped {
            windows,
            positions: self.mark() - mark,
        }
    }

    #[inline]
    fn skip_rest(&mut self) -> Skipped {
        let mark = self.mark();
        let windows = self.skip_rest();
        Skipped {
            windows,
            positions: self.mark() - mark,
        }
    }

    #[inline]
    fn skip_held(&mut self, time: u64) -> Skipped {
        let mark = self.mark();
        let windows = self.skip_held(time);
        Skipped {
            windows,
            positions: self.mark() - mark,
        }
    }

    #[inline]
    fn word(&self, played: Played, i: u32) -> Option<&Word> {
        self.own_word(played.first + u64::from(i))
    }

    #[inline]
    fn repaired(&self, played: Played, i: u32) -> bool {
        self.repaired(played.first + u64::from(i))
    }
}

/// Repairs the flows of a trace, on the caller's thread.
///
/// The trace is read to its end, to the first byte that differs from the magic, or past the limit. Each flow's lane gains the payloads of all
/// words that the flow's plays show, and `out` the report, whole before `Done`, `Cut` and `TooLong`. `NotTrace` makes no
/// lane and no report. The first fault ends the call: each lane has gained what its flow had shown by then, but for the one
/// whose put failed, which has gained a part of what comes next. The report is begun only once all lanes are whole. The
/// plan's workers are ignored.
pub fn repair_alone<S: Source, K: Sink, O: Outlet>(
    alloc: Global,
    plan: &Plan,
    input: &mut S,
    out: &mut K,
    lanes: &mut O,
) -> Finish
    requires { PlanFits plan.now }
    ensures { Repairs ByRecord plan.now result S.left S.faults S.fixed input.old input.new
        O.lanes O.faults lanes.old lanes.new K.written K.faults out.old out.new }
{
    match open_desks(alloc, plan) {
        Ok(desks) => repair_windows(alloc, plan, desks, input, out, lanes),
        Err(AllocError) => give_up(plan, input, out, lanes),
    }
}

/// An empty desk for each of the plan's flows, in their order. All their memory is taken here.
fn open_desks(alloc: Global, plan: &Plan) -> Result<Vec<Desk>, AllocError>
    requires { PlanFits plan.now }
    ensures { IfOk result (λ desks. (length desks.items ≡ length plan.now.table)
        × All (λ desk. desk.state ≡ opening (playout_of plan.now)) desks.items) }
{
    let count = plan.table.count();
    let mut desks = Vec::with_capacity(alloc, count)?;
    for _ in 0..count {
        desks.push(Desk::new(alloc, plan.window, plan.depth, plan.hold)?)?;
    }
    Ok(desks)
}
