//! How the records of a batch are gathered, ahead of the flows that run them.
ghost use Rattle.std.specs.Prelude.{◌≡◌, ◌<◌, ◌≤◌, ◌^◌, ◌++◌, ℕ, Option, None, Some, List, [], ◌∷◌, length, IfOk, IfErr, IfSome, IfNone, IsSome, OnErr};
ghost use Rattle.fg_io.specs.Faults.{Counts};
ghost use Rattle.fg_trace.specs.Reader.{StandsAfter};
ghost use Rattle.fg_trace.specs.Reading.{HasReached, HoldsNext};
ghost use Rattle.fg_trace.specs.Trace.{Record};
ghost use Rattle.fg_flows.specs.Plan.{PlanFits};
ghost use Rattle.fg_flows.specs.Sheaf.{HasRoom, no_items};
ghost use Rattle.fg_engine.specs.Engine.{ReadsOn, told_finish};
ghost use Rattle.fg_batches.specs.Batches.{HoldsBatch};
ghost use Rattle.fg_batches.specs.Gathering.{GathersLast, HasAdded, HasGathered, HasKept, with_record};

use fg_flows::laws::one_flow_has_a_port;
use fg_flows::{Kind, Plan, Sheaf};
use fg_io::{Fault, Source};
use fg_report::Tail;
use fg_trace::{Reader, Step, TraceFault};
use std::alloc::{AllocError, Global};

/// A record for which a sheaf had no room. The reader has its datagram.
#[derive(Clone, Copy)]
pub(crate) struct Heading {
    /// The number of its flow, from 0.
    pub(crate) flow: usize,
    /// Which of the flow's streams it belongs to.
    pub(crate) kind: Kind,
    /// Its time, in microseconds.
    pub(crate) time: u64,
}

/// The records that were read ahead of the flows.
#[derive(Drop)]
pub(crate) struct Gathering {
    /// Those of the batch.
    pub(crate) sheaf: Sheaf,
    /// The one after them, for which the sheaf had no room.
    pub(crate) next: Option<Heading>,
    /// How many records were read, in all batches, on a port of no flow.
    pub(crate) other: u64,
}

impl Gathering {
    /// Nothing was read ahead yet. All memory for records is taken here.
    pub(crate) fn new(alloc: Global, plan: &Plan, other: u64) -> Result<Gathering, AllocError>
        requires { PlanFits plan.now }
        ensures { IfOk result (λ gathering. gathering
            ≡ record { sheaf = no_items (length plan.now.table); next = None; other = other }) }
    {
        Ok(Gathering {
            sheaf: Sheaf::new(alloc, plan.table.count())?,
            next: None,
            other,
        })
    }

    /// Reads records into the sheaf, until it has no room for one, or has some and the next is not held: its source may keep the
    /// reader waiting for it. Or the trace ends, and then it answers how. A record for which there was no room is the first of the
    /// next batch.
    ///
    /// # Errors
    ///
    /// A read failed. The batch has what came before it.
    pub(crate) fn fill<S: Source>(
        &mut self,
        plan: &Plan,
        reader: &mut Reader,
        input: &mut S,
    ) -> Result<Option<Tail>, Fault>
        requires fits { PlanFits plan.now }
        requires empty { self.old.sheaf ≡ no_items (length plan.now.table) }
        requires underway { (first : Option (List ℕ)) × (records : List Record)
            × HasGathered plan.now first (S.left input.old) reader.old records [] self.old }
        requires open { reader.old.kept ≡ None }
        requires max { reader.old.max ≡ plan.now.max }
        ensures more { IfOk result (λ end. IfNone end ((first : Option (List ℕ)) (records : List Record)
            → HasGathered plan.now first (S.left input.old) reader.old records [] self.old
            → (batch : List Record)
            × HasGathered plan.now first (S.left input.new) reader.new records batch self.new)) }
        ensures ends { IfOk result (λ end. IfSome end (λ tail. (first : Option (List ℕ)) (records : List Record)
            → HasGathered plan.now first (S.left input.old) reader.old records [] self.old
            → (batch : List Record) × GathersLast plan.now first records batch self.new tail)) }
        ensures fault { IfErr result (λ fault. fault ≡ Fault.Read) }

        // A read that fails leaves the reader right after the batch.
        ensures after { OnErr result ((first : Option (List ℕ)) (records : List Record)
            → HasGathered plan.now first (S.left input.old) reader.old records [] self.old
            → (batch : List Record) × HoldsBatch plan.now batch self.new.sheaf
            × StandsAfter reader.new first (S.left input.new) (records ++ batch)) }
        ensures short { OnErr result (¬ HoldsNext reader.new) }
        ensures far { ReadsOn plan.now.max reader.old (S.left input.old) reader.new (S.left input.new) }
        ensures reaches { IfOk result (λ end. IfSome end (λ tail.
            HasReached (told_finish tail) reader.new (S.left input.new))) }
        ensures open { IfOk result (λ end. IfNone end (reader.new.kept ≡ None)) }
        ensures max { reader.new.max ≡ reader.old.max }
        ensures within { reader.new.place ≤ reader.new.max }
        ensures faults { Counts result ((S.faults input.old, S.faults input.new) ∷ []) [] }
        ensures fixed { S.fixed input.new ≡ S.fixed input.old }
    {
        one_flow_has_a_port();
        self.add_left(reader.payload());
        loop {
            if !self.sheaf.is_empty() && !reader.is_next_held() {
                return Ok(None);
            }
            if let Some(tail) = self.take_next(plan, reader, input)? {
                return Ok(Some(tail));
            }
            if self.next.is_some() {
                return Ok(None);
            }
        }
    }

    /// Adds the record that was left by the batch before, where there is one, of which this is the datagram.
    fn add_left(&mut self, datagram: &[u8])
        requires empty { self.old.sheaf ≡ no_items (length self.old.sheaf.items) }
        requires flow { IfSome self.old.next (λ heading. heading.flow < length self.old.sheaf.items) }
        requires size { IfSome self.old.next (λ _. length datagram.now ≤ 65535) }
        ensures added { IfSome self.old.next (λ heading. self.new
            ≡ record (with_record self.old heading datagram.now) { next = None }) }
        ensures none { IfNone self.old.next (self.new ≡ self.old) }
    {
        if let Some(heading) = self.next.take() {
            // An empty sheaf has room for any record.
            self.add(heading, datagram);
        }
    }

    /// Reads the next record, where there is one; else it answers how the trace ends.
    ///
    /// # Errors
    ///
    /// A read failed.
    fn take_next<S: Source>(
        &mut self,
        plan: &Plan,
        reader: &mut Reader,
        input: &mut S,
    ) -> Result<Option<Tail>, Fault>
        requires fits { PlanFits plan.now }
        requires none { self.old.next ≡ None }
        requires underway { (first : Option (List ℕ)) × (records : List Record) × (batch : List Record)
            × HasGathered plan.now first (S.left input.old) reader.old records batch self.old }
        requires open { reader.old.kept ≡ None }
        requires max { reader.old.max ≡ plan.now.max }
        ensures more { IfOk result (λ end. IfNone end
            ((first : Option (List ℕ)) (records batch : List Record)
            → HasGathered plan.now first (S.left input.old) reader.old records batch self.old
            → (longer : List Record)
            × HasGathered plan.now first (S.left input.new) reader.new records longer self.new)) }
        ensures ends { IfOk result (λ end. IfSome end (λ tail.
            (first : Option (List ℕ)) (records batch : List Record)
            → HasGathered plan.now first (S.left input.old) reader.old records batch self.old
            → GathersLast plan.now first records batch self.new tail)) }
        ensures left { IfOk result (λ end. IfNone end
            (IsSome self.new.next → ¬ HasRoom self.new.sheaf reader.new.payload)) }
        ensures fault { IfErr result (λ fault. fault ≡ Fault.Read) }
        ensures after { OnErr result ((first : Option (List ℕ)) (records batch : List Record)
            → HasGathered plan.now first (S.left input.old) reader.old records batch self.old
            → StandsAfter reader.new first (S.left input.new) (records ++ batch)) }
        ensures unchanged { OnErr result (self.new ≡ self.old) }
        ensures short { OnErr result (¬ HoldsNext reader.new) }
        ensures far { ReadsOn plan.now.max reader.old (S.left input.old) reader.new (S.left input.new) }
        ensures reaches { IfOk result (λ end. IfSome end (λ tail.
            HasReached (told_finish tail) reader.new (S.left input.new))) }
        ensures open { IfOk result (λ end. IfNone end (reader.new.kept ≡ None)) }
        ensures max { reader.new.max ≡ reader.old.max }
        ensures place { IfOk result (λ end. IfNone end (reader.old.place < reader.new.place)) }
        ensures within { reader.new.place ≤ reader.new.max }
        ensures faults { Counts result ((S.faults input.old, S.faults input.new) ∷ []) [] }
        ensures fixed { S.fixed input.new ≡ S.fixed input.old }
    {
        match reader.next(input) {
            Ok(Step::Datagram { time, port, .. }) => {
                self.take(plan, port, time, reader.payload());
                Ok(None)
            }
            Ok(Step::End) => Ok(Some(Tail::Ended)),
            Err(TraceFault::Cut(place)) => Ok(Some(Tail::Cut(place))),
            Err(TraceFault::TooLong(place)) => Ok(Some(Tail::TooLong(place))),
            Err(TraceFault::ReadFault) => Err(Fault::Read),
            Err(TraceFault::NotTrace(_)) => unreachable!(),
        }
    }

    /// Takes a record, of which the time is in microseconds: it goes to the sheaf, is left where that has no room for it, or is
    /// counted as one of no flow.
    fn take(&mut self, plan: &Plan, port: u16, time: u64, datagram: &[u8])
        requires fits { PlanFits plan.now }
        requires none { self.old.next ≡ None }
        requires flows { length self.old.sheaf.items ≡ length plan.now.table }
        requires few { self.old.other < 2 ^ 43 }
        requires size { length datagram.now ≤ 65535 }
        ensures keeps { (records batch : List Record) (r : Record)
            → HasKept plan.now [] records batch [] self.old
            → r.port ≡ port → r.time ≡ time → r.datagram ≡ datagram.now
            → (longer left : List Record) × ((records ++ longer) ++ left ≡ (records ++ batch) ++ r ∷ [])
            × HasKept plan.now datagram.now records longer left self.new }
        ensures left { IsSome self.new.next → ¬ HasRoom self.new.sheaf datagram.now }
    {
        one_flow_has_a_port();
        match plan.table.find(port) {
            Some((flow, kind)) => self.add(Heading { flow, kind, time }, datagram),
            None => self.other += 1,
        }
    }

    /// Adds a record of a flow to the sheaf. Where that has no room for it, it is left.
    fn add(&mut self, heading: Heading, datagram: &[u8])
        requires none { self.old.next ≡ None }
        requires flow { heading.flow < length self.old.sheaf.items }
        requires size { length datagram.now ≤ 65535 }
        ensures { HasAdded heading datagram.now self.old self.new }
    {
        let Heading { flow, kind, time } = heading;
        if !self.sheaf.add(flow, kind, time, datagram) {
            self.next = Some(heading);
        }
    }
}
