//! A flow whose gaps are proved: its desk, and the cases of the plays that show a loss.
ghost use Rattle.std.specs.Prelude.{◌≡◌, ◌≢◌, ℕ, Some, None, Option, IsSome, [], ◌∷◌, slice_index, IfOk, OnOk, OnErr};
ghost use Rattle.std.specs.Bool.{OnTrue, OnFalse};
ghost use Rattle.fg_io.specs.Faults.{Counts};
ghost use Rattle.fg_fechead.specs.declared.Parity.{Parity as ParityRead};
ghost use Rattle.fg_fechead.specs.ParityDatagram.{IsParityDatagram};
ghost use Rattle.fg_shape.specs.declared.kind.Kind.{Kind as KindOf};
ghost use Rattle.fg_flows.specs.Plan.{PlanFits, playout_of};
ghost use Rattle.fg_playout.specs.declared.reply.Reply.{Reply};
ghost use Rattle.fg_playout.specs.State.{State};
ghost use Rattle.fg_playout.specs.Admission.{IsDue, IsFresh, counted};
ghost use Rattle.fg_playout.specs.Play.{IsPlay, IsFlushStep, Flushes, HasMore};
ghost use Rattle.fg_playout.specs.Held.{at_time, IsHeldStep};
ghost use Rattle.fg_playout.specs.Room.{HasRoom};
ghost use Rattle.fg_playout.specs.Run.{Arrival, time_of, ArePlaysHeld, ArePlaysBefore, TakesThen, IsFlush};
ghost use Rattle.fg_playout.specs.Laws.{HavePlayedBefore, AreFlushSteps};
ghost use Rattle.fg_playout.specs.PlayedOn.{flushed_on, held_on, before_on};
ghost use Rattle.fg_playout.specs.DesksJoin.{flush_steps_on, played_before_on};
ghost use Rattle.fg_desk.specs.Arrivals.{StaysWithin, HeldWithin, BeforeWithin, FlushesWithin, ThenStaysWithin};
ghost use Rattle.fg_desk.specs.Contents.{opened};
ghost use Rattle.fg_results.specs.Flow.{IsReadAs};
ghost use Rattle.fg_prove.specs.Steps.{Tells, Breaks, IsQuiet, TellsOne, BreaksOne, HaveHeld, have_held_on, AdmitsDatagram, AdmitsThen, BreaksAtDatagram, BreaksThen};

use crate::gaps::Gaps;
use fg_desk::Desk;
use fg_fechead::parity_share;
use fg_flows::{Kind, Plan};
use fg_io::{Fault, Sink};
use fg_playout::laws::{desks_end, desks_join, flushes_end, runs_begin, runs_join};
use fg_proof::laws::true_cases_are_proved;
use fg_rtp::laws::media_datagrams_read_one_way;
use fg_rtp::media_share;
use std::alloc::{AllocError, Global};

/// A flow, and what is told of its gaps.
#[derive(Drop)]
pub(crate) struct Prover {
    pub(crate) desk: Desk,
    pub(crate) gaps: Gaps,
}

impl Prover {
    /// The plan's first flow, before its first record. All its memory but that of cases is taken here.
    pub(crate) fn new(alloc: Global, plan: &Plan) -> Result<Prover, AllocError>
        requires fits { PlanFits plan.now }
        ensures port { IfOk result (λ prover. prover.gaps.port ≡ slice_index plan.now.table 0) }
        ensures desk { IfOk result (λ prover. prover.desk ≡ opened (playout_of plan.now)) }
        ensures held { IfOk result (λ prover. prover.gaps.text.held ≡ []) }
    {
        // What costs less to let go is made first.
        Ok(Prover {
            gaps: Gaps::new(alloc, plan.table.port(0))?,
            desk: Desk::new(alloc, plan.window, plan.depth, plan.hold)?,
        })
    }

    /// Takes a datagram that came on the flow's port of this kind at this time, in microseconds: plays what comes before it, tells
    /// the cases of these plays, and admits it or refuses it.
    pub(crate) fn take<K: Sink>(
        &mut self,
        alloc: Global,
        kind: Kind,
        time: u64,
        datagram: &[u8],
        out: &mut K,
    ) -> Result<(), Fault>
        requires within { StaysWithin self.old.desk.state }
        ensures takes { OnOk result (AdmitsDatagram kind time datagram.now self.old.gaps.port self.old.desk.state
            self.old.gaps.text.held (K.written out.old) self.new.desk.state self.new.gaps.text.held
            (K.written out.new)) }
        ensures breaks { OnErr result (BreaksAtDatagram kind time datagram.now self.old.gaps.port self.old.desk.state
            self.old.gaps.text.held (K.written out.old) (K.written out.new)) }
        ensures port { self.new.gaps.port ≡ self.old.gaps.port }
        ensures faults { Counts result [] ((K.faults out.old, K.faults out.new) ∷ []) }
    {
        self.play_held(alloc, time, out)?;
        self.admit_then(alloc, kind, datagram, out)
    }

    /// Plays what has waited for too long by a time, and tells the cases of these plays.
    fn play_held<K: Sink>(&mut self, alloc: Global, time: u64, out: &mut K) -> Result<(), Fault>
        requires within { HeldWithin self.old.desk.state time }
        ensures plays { OnOk result (Tells (ArePlaysHeld self.old.desk.state time) (held_on self.old.desk.state time)
            self.old.gaps.port self.old.gaps.text.held (K.written out.old) self.new.desk.state
            self.new.gaps.text.held (K.written out.new)) }
        ensures breaks { OnErr result (Breaks (HaveHeld self.old.desk.state time)
            (have_held_on self.old.desk.state time)
            self.old.gaps.port self.old.gaps.text.held (K.written out.old) (K.written out.new)) }
        ensures port { self.new.gaps.port ≡ self.old.gaps.port }
        ensures faults { Counts result [] ((K.faults out.old, K.faults out.new) ∷ []) }
    {
        desks_join();
        desks_end();
        if self.desk.hold() == 0 {
            return Ok(());
        }
        'steps: while self.held_step(alloc, time, out)? {}
        Ok(())
    }

    /// Plays what comes before a datagram of this kind where no word waits for too long, and admits it or refuses it.
    fn admit_then<K: Sink>(
        &mut self,
        alloc: Global,
        kind: Kind,
        datagram: &[u8],
        out: &mut K,
    ) -> Result<(), Fault>
        requires within { ThenStaysWithin self.old.desk.state }
        ensures takes { OnOk result ((time : ℕ) → AdmitsThen kind time datagram.now self.old.gaps.port
            self.old.desk.state self.old.gaps.text.held (K.written out.old) self.new.desk.state self.new.gaps.text.held
            (K.written out.new)) }
        ensures breaks { OnErr result ((time : ℕ) → BreaksThen kind time datagram.now self.old.gaps.port
            self.old.desk.state self.old.gaps.text.held (K.written out.old) (K.written out.new)) }
        ensures port { self.new.gaps.port ≡ self.old.gaps.port }
        ensures faults { Counts result [] ((K.faults out.old, K.faults out.new) ∷ []) }
    {
        // Whether an SSRC is fresh can be told, and a media datagram is read in one way.
        runs_begin();
        media_datagrams_read_one_way();
        match kind {
            Kind::Media => {
                let Ok((seq, ssrc, share)) = media_share(alloc, self.desk.spare(), datagram)? else {
                    return Ok(());
                };
                self.play_before(alloc, seq, ssrc, out)?;
                let _reply = self.desk.admit_media(seq, ssrc, share);
                Ok(())
            }
            _ => {
                admit_parity(alloc, &mut self.desk, datagram)?;
                Ok(())
            }
        }
    }

    /// Plays what comes before a media datagram of this sequence number and SSRC: all that is left where the SSRC is fresh, so
    /// that a run can begin, and else while a play is due. Tells the cases of these plays.
    fn play_before<K: Sink>(
        &mut self,
        alloc: Global,
        seq: u16,
        ssrc: u32,
        out: &mut K,
    ) -> Result<(), Fault>
        requires within { BeforeWithin self.old.desk.state seq ssrc }
        ensures plays { OnOk result (Tells (ArePlaysBefore self.old.desk.state seq ssrc)
            (before_on self.old.desk.state seq ssrc)
            self.old.gaps.port self.old.gaps.text.held (K.written out.old) self.new.desk.state
            self.new.gaps.text.held (K.written out.new)) }
        ensures none_due { OnOk result (¬ IsDue self.new.desk.state seq ssrc) }
        ensures flushed { OnOk result (IsFresh self.new.desk.state ssrc → ¬ HasMore self.new.desk.state) }
        ensures room { OnOk result (HasRoom self.new.desk.state) }
        ensures breaks { OnErr result (Breaks (HavePlayedBefore self.old.desk.state seq ssrc)
            (played_before_on self.old.desk.state seq ssrc)
            self.old.gaps.port self.old.gaps.text.held (K.written out.old) (K.written out.new)) }
        ensures port { self.new.gaps.port ≡ self.old.gaps.port }
        ensures faults { Counts result [] ((K.faults out.old, K.faults out.new) ∷ []) }
    {
        flushes_end();
        runs_join();
        desks_join();
        desks_end();
        if self.desk.fresh(ssrc) {
            return self.play_rest(alloc, out);
        }
        'plays: while self.desk.due(seq, ssrc) {
            self.play(alloc, out)?;
        }
        Ok(())
    }

    /// Plays all that is left, and tells the cases of these plays.
    pub(crate) fn play_rest<K: Sink>(&mut self, alloc: Global, out: &mut K) -> Result<(), Fault>
        requires within { FlushesWithin self.old.desk.state }
        ensures plays { OnOk result ((empty : State) × (self.new.desk.state ≡ counted empty)
            × Tells (IsFlush self.old.desk.state) (flushed_on self.old.desk.state)
            self.old.gaps.port self.old.gaps.text.held (K.written out.old) empty
            self.new.gaps.text.held (K.written out.new)) }
        ensures breaks { OnErr result (Breaks (AreFlushSteps self.old.desk.state) (flush_steps_on self.old.desk.state)
            self.old.gaps.port self.old.gaps.text.held (K.written out.old) (K.written out.new)) }
        ensures port { self.new.gaps.port ≡ self.old.gaps.port }
        ensures faults { Counts result [] ((K.faults out.old, K.faults out.new) ∷ []) }
    {
        desks_join();
        desks_end();
        'steps: while self.flush_step(alloc, out)? {}
        Ok(())
    }

    /// Plays a window, and tells its case where it shows a loss.
    fn play<K: Sink>(&mut self, alloc: Global, out: &mut K) -> Result<(), Fault>
        requires room { HasRoom self.old.desk.state }
        requires started { IsSome self.old.desk.state.top }
        ensures plays { OnOk result (TellsOne (IsPlay self.old.desk.state.playout.window self.old.desk.state)
            self.old.desk.state self.old.gaps.port self.old.gaps.text.held (K.written out.old) self.new.desk.state
            self.new.gaps.text.held (K.written out.new)) }
        ensures breaks { OnErr result (BreaksOne (IsPlay self.old.desk.state.playout.window self.old.desk.state)
            self.old.desk.state self.old.gaps.port self.old.gaps.text.held (K.written out.old) (K.written out.new)) }
        ensures port { self.new.gaps.port ≡ self.old.gaps.port }
        ensures faults { Counts result [] ((K.faults out.old, K.faults out.new) ∷ []) }
    {
        true_cases_are_proved();
        let count = self.desk.window();
        let looked = self.gaps.look(&self.desk, count);
        let played = self.desk.play_in_place();
        self.gaps.tell(alloc, looked, played, out)
    }

    /// Makes a flush step, tells its case where it shows a loss, and answers whether something was left to be played.
    fn flush_step<K: Sink>(&mut self, alloc: Global, out: &mut K) -> Result<bool, Fault>
        requires room { HasRoom self.old.desk.state }
        ensures some { IfOk result (λ some. OnTrue some (TellsOne (IsFlushStep self.old.desk.state)
            self.old.desk.state self.old.gaps.port self.old.gaps.text.held (K.written out.old) self.new.desk.state
            self.new.gaps.text.held (K.written out.new))) }
        ensures none { IfOk result (λ some. OnFalse some (Flushes self.old.desk.state None self.new.desk.state
            × IsQuiet self.old.gaps.text.held (K.written out.old) self.new.gaps.text.held (K.written out.new))) }
        ensures breaks { OnErr result (BreaksOne (IsFlushStep self.old.desk.state) self.old.desk.state
            self.old.gaps.port self.old.gaps.text.held (K.written out.old) (K.written out.new)) }
        ensures port { self.new.gaps.port ≡ self.old.gaps.port }
        ensures faults { Counts result [] ((K.faults out.old, K.faults out.new) ∷ []) }
    {
        true_cases_are_proved();
        let count = self.desk.window();
        let looked = self.gaps.look(&self.desk, count);
        let Some(played) = self.desk.flush_step_in_place() else {
            return Ok(false);
        };
        self.gaps.tell(alloc, looked, played, out)?;
        Ok(true)
    }

    /// Makes a held step at this time, tells its case where it shows a loss, and answers whether a word had waited for too long.
    fn held_step<K: Sink>(&mut self, alloc: Global, time: u64, out: &mut K) -> Result<bool, Fault>
        requires room { HasRoom self.old.desk.state }
        requires limited { self.old.desk.state.playout.hold ≢ 0 }
        ensures some { IfOk result (λ some. OnTrue some
            (TellsOne (λ play now. IsHeldStep self.old.desk.state time (Some play) now)
            (at_time self.old.desk.state time) self.old.gaps.port self.old.gaps.text.held (K.written out.old) self.new.desk.state
            self.new.gaps.text.held (K.written out.new))) }
        ensures none { IfOk result (λ some. OnFalse some (IsHeldStep self.old.desk.state time None self.new.desk.state
            × IsQuiet self.old.gaps.text.held (K.written out.old) self.new.gaps.text.held (K.written out.new))) }
        ensures breaks { OnErr result (BreaksOne (λ play now. IsHeldStep self.old.desk.state time (Some play) now)
            (at_time self.old.desk.state time)
            self.old.gaps.port self.old.gaps.text.held (K.written out.old) (K.written out.new)) }
        ensures port { self.new.gaps.port ≡ self.old.gaps.port }
        ensures faults { Counts result [] ((K.faults out.old, K.faults out.new) ∷ []) }
    {
        true_cases_are_proved();
        let count = self.desk.held_count(time);
        let looked = self.gaps.look(&self.desk, count);
        let Some(played) = self.desk.held_step_in_place(time) else {
            return Ok(false);
        };
        self.gaps.tell(alloc, looked, played, out)?;
        Ok(true)
    }
}

/// Admits a parity datagram, or refuses it.
fn admit_parity(alloc: Global, desk: &mut Desk, datagram: &[u8]) -> Result<(), AllocError>
    requires room { HasRoom desk.old.state }
    ensures admits { OnOk result ((kind : KindOf) (time : ℕ) → kind ≢ Kind.Media → (arrival : Arrival) × (time_of arrival ≡ time)
        × IsReadAs kind datagram.now arrival
        × ((reply : Option Reply) × TakesThen desk.old.state arrival [] reply desk.new.state)) }
    ensures read { OnErr result ((parity : ParityRead) × IsParityDatagram datagram.now parity) }
{
    let spare = desk.spare();
    let Ok((parity, share)) = parity_share(alloc, spare, datagram)? else {
        return Ok(());
    };
    let _reply = desk.admit_parity(parity.base, parity.shape, share);
    Ok(())
}
