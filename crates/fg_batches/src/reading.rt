//! The first stage: it reads batch after batch.
use crate::gathering::Gathering;
use crate::passing::{Batch, Tabled};
use fg_flows::Plan;
use fg_io::{Fault, Source};
use fg_pipe::Giver;
use fg_report::Tail;
use fg_trace::Reader;
use std::mem;

/// Reads the batches of a trace, until it ends or a read fails.
#[derive(Drop)]
pub(crate) struct BatchReader<'a> {
    pub(crate) plan: &'a Plan,
    pub(crate) reader: Reader,
    /// The batch that is read, which is empty between two calls.
    pub(crate) gathering: Gathering,
    /// How the trace ends, or that a read failed, once that is known.
    pub(crate) end: Option<Result<Tail, Fault>>,
}

impl<'a, S: Source, P: Tabled> Giver<Batch<P>, S> for BatchReader<'a> {
    ghost use Rattle.std.specs.Prelude.{◌≡◌, IsSome};
    ghost use Rattle.fg_batches.specs.Stages.{GivesBatches};

    ghost gave = { λ old source sheaves new from. (old.plan.now.table ≡ P.table) × (new.plan ≡ old.plan)
        × GivesBatches old.plan.now (S.left source) (S.left from) (S.faults source, S.faults from)
        old.reader new.reader old.gathering new.gathering new.end sheaves × (S.fixed from ≡ S.fixed source) };

    ghost over = { λ reader. IsSome reader.end };

    fn is_over(&self) -> bool {
        self.end.is_some()
    }

    fn give(&mut self, from: &mut S, into: &mut Batch<P>) {
        self.end = self
            .gathering
            .fill(self.plan, &mut self.reader, from)
            .transpose();
        mem::swap(&mut self.gathering.sheaf, &mut into.sheaf);
    }
}
