//! Walking a trace, and proving the gaps of its one flow.
ghost use Rattle.std.specs.Prelude.{◌≡◌, ◌⊎◌, ◌≤◌, ◌^◌, ℕ, List, [], ◌∷◌, length, IfOk, IfSome, OnErr};
ghost use Rattle.std.specs.Io.KnownBytes.{IsAtEnd};
ghost use Rattle.fg_io.specs.Faults.{Counts, CountsFaults};
ghost use Rattle.fg_trace.specs.Trace.{Record, Ending, NotTrace as NoMagic, IsTrace};
ghost use Rattle.fg_trace.specs.Finish.{IsFault, ReadsAll, finish_of};
ghost use Rattle.fg_trace.specs.Reading.{IsReadFor};
ghost use Rattle.fg_trace.specs.Reached.{IsReadTo};
ghost use Rattle.fg_flows.specs.Plan.{PlanFits};
ghost use Rattle.fg_rtp.specs.Laws.{ReadsOneWay as MediaReadsOneWay};
ghost use Rattle.fg_fechead.specs.Laws.{ReadsOneWay as ParityReadsOneWay};
ghost use Rattle.fg_playout.specs.DesksJoin.{DesksBeforeComeNextInRuns, FlushDesksComeNext, TakenDesksComeFirst};
ghost use Rattle.fg_playout.specs.Laws.{FlushesStayWithin, RunsStayWithin};
ghost use Rattle.fg_prove.specs.Laws.{OneListOfCases, OneProof};
ghost use Rattle.fg_prove.specs.Proved.{Proves, ProvesPart};

use crate::laws::one_proof;
use crate::prover::Prover;
use fg_fechead::laws::parity_datagrams_read_one_way;
use fg_flows::Plan;
use fg_io::{Fault, Sink, Source};
use fg_playout::laws::{desks_come_in_order, desks_end, desks_join, runs_stay_within};
use fg_rtp::laws::media_datagrams_read_one_way;
use fg_trace::Finish;
use fg_trace::laws::{one_trace, read_as_far_as_needed};
use fg_walk::{Datagram, Telling, walk_trace};
use std::alloc::Global;

/// Proves the gaps of a trace's one flow: writes the case of each play that is repaired and shows a position as missing.
///
/// The flow is repaired as the plan says, by one desk and without workers, and nothing of what it shows is written. The trace is
/// read to its end, to the first byte that differs from the magic, or past the limit, and `out` gains the cases in the order of
/// the plays, in large pieces. Each tells of its window which positions were known, the slots of which equations, and which
/// positions follow from neither. `NotTrace` writes nothing. After a fault `out` has gained a prefix of the text.
pub fn prove_flow<S: Source, K: Sink>(
    alloc: Global,
    plan: &Plan,
    input: &mut S,
    out: &mut K,
) -> Finish
    requires fits { PlanFits plan.now }
    requires one { length plan.now.table ≡ 1 }

    // Every answer but a fault's or want of memory's is that of the trace's ending, and then the cases of all plays are written.
    ensures whole { IsFault result ⊎ Proves plan.now result (S.left input.old)
        (K.written out.old) (K.written out.new) }
    ensures exactly { IfSome (S.left input.old) (λ bytes. (records : List Record) (end : Ending)
        → IsTrace bytes plan.now.max records end → IsFault result ⊎ (result ≡ finish_of end)) }
    ensures all_read { ReadsAll result → IsAtEnd (S.left input.new) }

    // The input is read as far as the answer needs, and at most a byte past the limit.
    ensures reads { IfSome (S.left input.old) (λ bytes. IsReadFor plan.now.max result bytes (S.left input.new)) }

    // What is no trace has nothing written, whatever the answer.
    ensures refused { IfSome (S.left input.old) (λ bytes. (place : ℕ)
        → IsTrace bytes plan.now.max [] (NoMagic place) → out.new ≡ out.old) }

    // After a fault or want of memory the text is a part.
    ensures part { IsFault result → ProvesPart plan.now (S.left input.old)
        (K.written out.old) (K.written out.new) }

    // A fault of the outside is answered only where it was counted in this call, and with every other answer none was. No
    // count falls.
    ensures faults { CountsFaults (result ≡ Finish.ReadFault) (result ≡ Finish.WriteFault)
        ((S.faults input.old, S.faults input.new) ∷ []) ((K.faults out.old, K.faults out.new) ∷ []) }
    ensures fixed { S.fixed input.new ≡ S.fixed input.old }
{
    one_trace();
    match prove_trace(alloc, plan, input, out) {
        Ok(finish) => finish,
        Err(Fault::Read) => Finish::ReadFault,
        Err(Fault::Write) => Finish::WriteFault,
        Err(Fault::Memory) => Finish::Memory,
    }
}

/// Proves the gaps of a trace, and answers how it ends.
fn prove_trace<S: Source, K: Sink>(
    alloc: Global,
    plan: &Plan,
    input: &mut S,
    out: &mut K,
) -> Result<Finish, Fault>
    requires fits { PlanFits plan.now }
    requires one { length plan.now.table ≡ 1 }
    ensures whole { IfOk result (λ finish. Proves plan.now finish (S.left input.old)
        (K.written out.old) (K.written out.new)) }
    ensures part { OnErr result (ProvesPart plan.now (S.left input.old)
        (K.written out.old) (K.written out.new)) }
    ensures refused { IfSome (S.left input.old) (λ bytes. (place : ℕ)
        → IsTrace bytes plan.now.max [] (NoMagic place) → out.new ≡ out.old) }
    ensures all_read { IfOk result (λ finish. ReadsAll finish → IsAtEnd (S.left input.new)) }
    ensures reached { IsReadTo plan.now.max result (S.left input.old) (S.left input.new) }
    ensures faults { Counts result ((S.faults input.old, S.faults input.new) ∷ [])
        ((K.faults out.old, K.faults out.new) ∷ []) }
    ensures fixed { S.fixed input.new ≡ S.fixed input.old }
{
    read_as_far_as_needed();
    let prover = Prover::new(alloc, plan)?;
    let mut proving = Proving {
        alloc,
        plan,
        prover,
    };
    walk_trace(alloc, plan.max, &mut proving, input, out)
}

/// A proof of a trace's gaps under way.
#[derive(Drop)]
struct Proving<'a> {
    alloc: Global,
    plan: &'a Plan,
    prover: Prover,
}

impl<'a> Telling for Proving<'a> {
    ghost use Rattle.fg_flows.specs.declared.Plan.{Plan};
    ghost use Rattle.fg_prove.specs.Steps.{HasProved, HasProvedPart, HasTold, IsNew};

    ghost Given = { Plan };

    ghost given = { λ work. work.plan.now };

    ghost most = { 2 ^ 42 };

    ghost is_new = { λ work. IsNew work.plan.now work.prover.gaps.port work.prover.desk.state
        work.prover.gaps.text.held };

    ghost has_told = { λ work records before after. HasTold work.plan.now work.prover.gaps.port records
        work.prover.desk.state before work.prover.gaps.text.held after };

    ghost whole = { λ work records _. HasProved work.plan.now records };

    ghost part = { HasProvedPart };

    fn begin<K: Sink>(&mut self, _out: &mut K) -> Result<(), Fault> {
        Ok(())
    }

    fn tell<K: Sink>(&mut self, datagram: Datagram<'_>, out: &mut K) -> Result<(), Fault> {
        records_are_told();
        desks_join();
        let Datagram { time, port, bytes } = datagram;
        match self.plan.table.find(port) {
            Some((_, kind)) => self.prover.take(self.alloc, kind, time, bytes, out),
            None => Ok(()),
        }
    }

    fn end<K: Sink>(&mut self, _finish: Finish, out: &mut K) -> Result<(), Fault> {
        records_are_told();
        desks_end();
        self.prover.play_rest(self.alloc, out)?;
        self.prover.gaps.text.held.flush(out)
    }

    fn stops(&self) {
        records_are_told();
    }
}

/// What is told of a flow follows from its records: these are read in one way, the run of them stays within the limits, its desks
/// come in the order of the plays, and the plays have one list of cases.
fn records_are_told()
    ensures media { MediaReadsOneWay }
    ensures parity { ParityReadsOneWay }
    ensures taking { RunsStayWithin }
    ensures flushing { FlushesStayWithin }
    ensures taken { TakenDesksComeFirst }
    ensures next { DesksBeforeComeNextInRuns }
    ensures flushed { FlushDesksComeNext }
    ensures mades { OneListOfCases }
    ensures records { OneProof }
{
    media_datagrams_read_one_way();
    parity_datagrams_read_one_way();
    runs_stay_within();
    desks_come_in_order();
    one_proof();
}
