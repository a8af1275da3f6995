//! One flow of a repair.
ghost use Rattle.std.specs.Prelude.{◌≡◌, ◌≢◌, ℕ, List, [], ◌∷◌, IfOk, OnOk, OnErr};
ghost use Rattle.fg_io.specs.Faults.{Counts};
ghost use Rattle.fg_trace.specs.Trace.{Record};
ghost use Rattle.fg_fechead.specs.declared.Parity.{Parity as ParityRead};
ghost use Rattle.fg_fechead.specs.ParityDatagram.{IsParityDatagram};
ghost use Rattle.fg_shape.specs.declared.kind.Kind.{Kind as KindOf};
ghost use Rattle.fg_shape.specs.Kind.{port_of};
ghost use Rattle.fg_shape.specs.Playout.{Playout};
ghost use Rattle.fg_playout.specs.State.{State, opening};
ghost use Rattle.fg_playout.specs.Admission.{IsDue, IsFresh, counted};
ghost use Rattle.fg_playout.specs.Play.{HasMore};
ghost use Rattle.fg_playout.specs.Room.{HasRoom, farthest_limit};
ghost use Rattle.fg_playout.specs.Run.{Arrival, time_of, ArePlaysHeld, ArePlaysDue, ArePlaysBefore, TakesThen, IsFlush};
ghost use Rattle.fg_playout.specs.Laws.{HavePlayed, HavePlayedBefore, AreFlushSteps};
ghost use Rattle.fg_desk.specs.Arrivals.{StaysWithin, HeldWithin, FlushesWithin, ThenStaysWithin};
ghost use Rattle.fg_results.specs.Flow.{IsReadAs, lane_of};
ghost use Rattle.fg_engine.specs.Steps.{HasTaken, IsUnderway, TakesRecord, BreaksAtRecord, EndsFlow, BreaksAtEnd};
ghost use Rattle.fg_engine.specs.Steps.{CountsWithin, Stays, Grows, GrowsPart, HaveShown, HaveHeld, BreakOff, AdmitsDatagram, AdmitsThen, BreaksAtDatagram, BreaksThen, with_plays, played_as};

use crate::counts::{count_answer, count_skipped};
use crate::player::Player;
use crate::window::WindowState;
use fg_desk::{Played, Reply};
use fg_fechead::laws::parity_datagrams_read_one_way;
use fg_fechead::parity_share;
use fg_flows::Kind;
use fg_io::Fault;
use fg_playout::laws::{
    counts_add, counts_stay_within, each_gets_a_reply, flush_steps_come_next, flushes_end,
    plays_before_come_next, plays_reach_the_mark, runs_begin, runs_join, runs_stay_within,
};
use fg_report::{FlowSum, Gaps, Marks};
use fg_rtp::laws::media_datagrams_read_one_way;
use fg_rtp::media_share;
use std::alloc::{AllocError, Global};
use std::marker::Model;

/// A flow: its windows, and what is counted of it.
#[derive(Drop)]
pub struct Flow<D: WindowState> {
    /// The windows.
    pub window: D,
    /// What is counted of it. Its port is the flow's.
    pub sum: FlowSum,
}

impl<D: WindowState> Model for Flow<D> {
    ghost use Rattle.fg_engine.specs.View.{FlowView, view_code};

    ghost Value = { FlowView };

    ghost coded = { view_code };

    ghost view = { λ a. record { state = D.state a.window; sum = a.sum } };
}

impl<D: WindowState> Flow<D> {
    /// The flow on this port over these windows, before its first record.
    pub fn new(alloc: Global, port: u16, window: D) -> Flow<D>
        ensures { (playout : Playout) → D.state window ≡ opening playout
            → HasTaken playout port [] result.state result.sum [] }
    {
        Flow {
            window,
            sum: FlowSum {
                port,
                shown: 0,
                repaired: 0,
                missing: 0,
                windows: 0,
                inconsistent: 0,
                media: Marks::default(),
                column: Marks::default(),
                row: Marks::default(),
                runs: 0,
                gaps: Gaps::new(alloc),
            },
        }
    }

    /// Takes a datagram that came on the flow's port of this kind at this time, in microseconds: plays what comes before it, and admits it or counts why
    /// not. The player takes what the plays show to the flow's lane.
    ///
    /// # Errors
    ///
    /// There was no memory, or the player's place has counted a fault. The flow is of no further use then.
    pub fn take<L, P: Player<L>>(
        &mut self,
        alloc: Global,
        player: &mut P,
        kind: Kind,
        time: u64,
        datagram: &[u8],
        lanes: &mut L,
    ) -> Result<(), Fault>
        requires player { P.takes lanes.old self.old.sum.port }
        requires underway { IsUnderway self.old.state.playout self.old.sum.port
            self.old.state self.old.sum }
        ensures takes { OnOk result ((records : List Record) (r : Record) (lane : List ℕ)
            → HasTaken self.old.state.playout self.old.sum.port records
            self.old.state self.old.sum lane
            → r.datagram ≡ datagram.now → r.time ≡ time → port_of self.old.sum.port kind ≡ r.port
            → TakesRecord self.old.state.playout self.old.sum.port records r lane
            self.new.state self.new.sum (P.lanes lanes.old) (P.lanes lanes.new)) }
        ensures breaks { OnErr result ((records : List Record) (r : Record) (lane : List ℕ)
            → HasTaken self.old.state.playout self.old.sum.port records
            self.old.state self.old.sum lane
            → r.datagram ≡ datagram.now → r.time ≡ time → port_of self.old.sum.port kind ≡ r.port
            → BreaksAtRecord self.old.state.playout self.old.sum.port records r lane
            (P.lanes lanes.old) (P.lanes lanes.new)) }
        ensures port { self.new.sum.port ≡ self.old.sum.port }
        ensures still { P.takes lanes.new self.old.sum.port }
        ensures player { player.new ≡ player.old }
        ensures playout { self.new.state.playout ≡ self.old.state.playout }
        ensures faults { Counts result [] ((P.faults lanes.old, P.faults lanes.new) ∷ []) }
    {
        // What a flow has come to is said of its run: how runs join, stay within the limits and are counted, which plays a datagram
        // brings, and that a datagram is read in one way.
        runs_join();
        runs_stay_within();
        plays_reach_the_mark();
        counts_add();
        counts_stay_within();
        each_gets_a_reply();
        plays_before_come_next();
        media_datagrams_read_one_way();
        parity_datagrams_read_one_way();
        let reply = self.admit(alloc, player, kind, time, datagram, lanes)?;
        count_answer(&mut self.sum, kind, reply);
        self.sum.runs = self.window.runs();
        Ok(())
    }

    /// Plays all that is left. The player takes what the plays show to the flow's lane.
    ///
    /// # Errors
    ///
    /// There was no memory, or the player's place has counted a fault. The flow is of no further use then.
    pub fn flush<L, P: Player<L>>(&mut self, player: &mut P, lanes: &mut L) -> Result<(), Fault>
        requires player { P.takes lanes.old self.old.sum.port }
        requires underway { IsUnderway self.old.state.playout self.old.sum.port
            self.old.state self.old.sum }
        ensures ends { OnOk result ((records : List Record) (lane : List ℕ)
            → HasTaken self.old.state.playout self.old.sum.port records
            self.old.state self.old.sum lane
            → EndsFlow self.old.state.playout self.old.sum.port records lane
            self.new.sum (P.lanes lanes.old) (P.lanes lanes.new)) }
        ensures breaks { OnErr result ((records : List Record) (lane : List ℕ)
            → HasTaken self.old.state.playout self.old.sum.port records
            self.old.state self.old.sum lane
            → BreaksAtEnd self.old.state.playout self.old.sum.port records lane
            (P.lanes lanes.old) (P.lanes lanes.new)) }
        ensures port { self.new.sum.port ≡ self.old.sum.port }
        ensures still { P.takes lanes.new self.old.sum.port }
        ensures player { player.new ≡ player.old }
        ensures faults { Counts result [] ((P.faults lanes.old, P.faults lanes.new) ∷ []) }
    {
        // A flush ends the run, stays within the limits, and its steps are the run's next plays.
        flushes_end();
        runs_stay_within();
        plays_reach_the_mark();
        flush_steps_come_next();
        media_datagrams_read_one_way();
        parity_datagrams_read_one_way();
        self.play_rest(player, lanes)
    }

    /// Plays what comes before a datagram that came on the port of this kind at this time, and admits it or says why not. There
    /// is no reply where its reader refused it.
    fn admit<L, P: Player<L>>(
        &mut self,
        alloc: Global,
        player: &mut P,
        kind: Kind,
        time: u64,
        datagram: &[u8],
        lanes: &mut L,
    ) -> Result<Option<Reply>, Fault>
        requires player { P.takes lanes.old self.old.sum.port }
        requires within { StaysWithin self.old.state }
        requires counts { CountsWithin self.old.sum self.old.state.mark }
        ensures admits { IfOk result (λ reply. AdmitsDatagram kind time datagram.now self.old.state self.old.sum
            (P.lanes lanes.old) reply self.new.state self.new.sum (P.lanes lanes.new)) }
        ensures breaks { OnErr result (BreaksAtDatagram kind time datagram.now self.old.state self.old.sum.port
            (P.lanes lanes.old) (P.lanes lanes.new)) }
        ensures stays { Stays self.old.sum self.new.sum (player.new ≡ player.old) (P.takes lanes.new self.old.sum.port) }
        ensures playout { self.new.state.playout ≡ self.old.state.playout }
        ensures faults { Counts result [] ((P.faults lanes.old, P.faults lanes.new) ∷ []) }
    {
        self.play_held(player, time, lanes)?;
        self.admit_then(alloc, player, kind, datagram, lanes)
    }

    /// Plays what has waited for too long by a time.
    fn play_held<L, P: Player<L>>(
        &mut self,
        player: &mut P,
        time: u64,
        lanes: &mut L,
    ) -> Result<(), Fault>
        requires player { P.takes lanes.old self.old.sum.port }
        requires within { HeldWithin self.old.state time }
        requires counts { CountsWithin self.old.sum self.old.state.mark }
        ensures plays { OnOk result (HaveShown (ArePlaysHeld self.old.state time) self.old.state
            self.old.sum (P.lanes lanes.old) self.new.state self.new.sum (P.lanes lanes.new)) }
        ensures counts { OnOk result (CountsWithin self.new.sum self.new.state.mark) }
        ensures breaks { OnErr result (BreakOff (HaveHeld self.old.state time) self.old.sum.port
            (P.lanes lanes.old) (P.lanes lanes.new)) }
        ensures stays { Stays self.old.sum self.new.sum (player.new ≡ player.old) (P.takes lanes.new self.old.sum.port) }
        ensures playout { self.new.state.playout ≡ self.old.state.playout }
        ensures faults { Counts result [] ((P.faults lanes.old, P.faults lanes.new) ∷ []) }
    {
        runs_join();
        if self.window.hold() == 0 {
            return Ok(());
        }
        while let Some(played) = self.window.held_step(time) {
            player.put_play(lanes, &mut self.sum, &self.window, played)?;
            let skipped = self.window.skip_held(time);
            count_skipped(&mut self.sum, played, skipped)?;
        }
        Ok(())
    }

    /// Plays what comes before a datagram of this kind where no word waits for too long, and admits it or says why not.
    fn admit_then<L, P: Player<L>>(
        &mut self,
        alloc: Global,
        player: &mut P,
        kind: Kind,
        datagram: &[u8],
        lanes: &mut L,
    ) -> Result<Option<Reply>, Fault>
        requires player { P.takes lanes.old self.old.sum.port }
        requires within { ThenStaysWithin self.old.state }
        requires counts { CountsWithin self.old.sum self.old.state.mark }
        ensures admits { IfOk result (λ reply. (time : ℕ) → AdmitsThen kind time datagram.now self.old.state self.old.sum
            (P.lanes lanes.old) reply self.new.state self.new.sum (P.lanes lanes.new)) }
        ensures breaks { OnErr result ((time : ℕ) → BreaksThen kind time datagram.now self.old.state self.old.sum.port
            (P.lanes lanes.old) (P.lanes lanes.new)) }
        ensures stays { Stays self.old.sum self.new.sum (player.new ≡ player.old) (P.takes lanes.new self.old.sum.port) }
        ensures playout { self.new.state.playout ≡ self.old.state.playout }
        ensures faults { Counts result [] ((P.faults lanes.old, P.faults lanes.new) ∷ []) }
    {
        // Whether an SSRC is fresh can be told, and a media datagram is read in one way.
        runs_begin();
        media_datagrams_read_one_way();
        match kind {
            Kind::Media => {
                let spare = self.window.spare();
                let Ok((seq, ssrc, share)) = media_share(alloc, spare, datagram)? else {
                    return Ok(None);
                };
                self.play_before(player, seq, ssrc, lanes)?;
                Ok(Some(self.window.admit_media(seq, ssrc, share)))
            }
            _ => Ok(admit_parity(alloc, &mut self.window, datagram)?),
        }
    }

    /// Plays what comes before a media datagram of this sequence number and SSRC: all that is left where the SSRC is fresh, so
    /// that a run can begin, and else what is due.
    fn play_before<L, P: Player<L>>(
        &mut self,
        player: &mut P,
        seq: u16,
        ssrc: u32,
        lanes: &mut L,
    ) -> Result<(), Fault>
        requires player { P.takes lanes.old self.old.sum.port }
        requires within { ThenStaysWithin self.old.state }
        requires counts { CountsWithin self.old.sum self.old.state.mark }
        ensures plays { OnOk result (HaveShown (ArePlaysBefore self.old.state seq ssrc) self.old.state
            self.old.sum (P.lanes lanes.old) self.new.state self.new.sum (P.lanes lanes.new)) }
        ensures none_due { OnOk result (¬ IsDue self.new.state seq ssrc) }
        ensures flushed { OnOk result (IsFresh self.new.state ssrc → ¬ HasMore self.new.state) }
        ensures room { OnOk result (HasRoom self.new.state) }
        ensures breaks { OnErr result (BreakOff (HavePlayedBefore self.old.state seq ssrc) self.old.sum.port
            (P.lanes lanes.old) (P.lanes lanes.new)) }
        ensures stays { Stays self.old.sum self.new.sum (player.new ≡ player.old) (P.takes lanes.new self.old.sum.port) }
        ensures playout { self.new.state.playout ≡ self.old.state.playout }
        ensures faults { Counts result [] ((P.faults lanes.old, P.faults lanes.new) ∷ []) }
    {
        flushes_end();
        runs_join();
        if self.window.fresh(ssrc) {
            self.play_rest(player, lanes)
        } else {
            self.play_due(player, seq, ssrc, lanes)
        }
    }

    /// Plays while a play is due before a media datagram of this sequence number and SSRC, which isn't fresh.
    fn play_due<L, P: Player<L>>(
        &mut self,
        player: &mut P,
        seq: u16,
        ssrc: u32,
        lanes: &mut L,
    ) -> Result<(), Fault>
        requires stale { ¬ IsFresh self.old.state ssrc }
        requires player { P.takes lanes.old self.old.sum.port }
        requires within { ThenStaysWithin self.old.state }
        requires counts { CountsWithin self.old.sum self.old.state.mark }
        ensures plays { OnOk result (HaveShown (ArePlaysDue self.old.state seq ssrc) self.old.state
            self.old.sum (P.lanes lanes.old) self.new.state self.new.sum (P.lanes lanes.new)) }
        ensures none_due { OnOk result (¬ IsDue self.new.state seq ssrc) }
        ensures room { OnOk result (HasRoom self.new.state) }
        ensures breaks { OnErr result (BreakOff (HavePlayed self.old.state seq ssrc) self.old.sum.port
            (P.lanes lanes.old) (P.lanes lanes.new)) }
        ensures stays { Stays self.old.sum self.new.sum (player.new ≡ player.old) (P.takes lanes.new self.old.sum.port) }
        ensures playout { self.new.state.playout ≡ self.old.state.playout }
        ensures faults { Counts result [] ((P.faults lanes.old, P.faults lanes.new) ∷ []) }
    {
        runs_join();
        while self.window.due(seq, ssrc) {
            let played = self.window.play();
            player.put_play(lanes, &mut self.sum, &self.window, played)?;
            let skipped = self.window.skip_due(seq, ssrc);
            count_skipped(&mut self.sum, played, skipped)?;
        }
        Ok(())
    }

    /// Plays while something is left to be played.
    fn play_rest<L, P: Player<L>>(&mut self, player: &mut P, lanes: &mut L) -> Result<(), Fault>
        requires player { P.takes lanes.old self.old.sum.port }
        requires within { FlushesWithin self.old.state }
        requires counts { CountsWithin self.old.sum self.old.state.mark }
        ensures plays { OnOk result ((empty : State) × (self.new.state ≡ counted empty)
            × HaveShown (IsFlush self.old.state) self.old.state
            self.old.sum (P.lanes lanes.old) empty self.new.sum (P.lanes lanes.new)) }
        ensures breaks { OnErr result (BreakOff (AreFlushSteps self.old.state) self.old.sum.port
            (P.lanes lanes.old) (P.lanes lanes.new)) }
        ensures stays { Stays self.old.sum self.new.sum (player.new ≡ player.old) (P.takes lanes.new self.old.sum.port) }
        ensures playout { self.new.state.playout ≡ self.old.state.playout }
        ensures faults { Counts result [] ((P.faults lanes.old, P.faults lanes.new) ∷ []) }
    {
        flushes_end();
        while let Some(played) = self.window.flush_step() {
            player.put_play(lanes, &mut self.sum, &self.window, played)?;
            let skipped = self.window.skip_rest();
            count_skipped(&mut self.sum, played, skipped)?;
        }
        Ok(())
    }
}

/// Admits a parity datagram, or says why not. There is no reply where its reader refused it.
fn admit_parity<D: WindowState>(
    alloc: Global,
    window: &mut D,
    datagram: &[u8],
) -> Result<Option<Reply>, AllocError>
    requires room { HasRoom (D.state window.old) }
    ensures admits { IfOk result (λ reply. (kind : KindOf) (time : ℕ) → kind ≢ Kind.Media → (arrival : Arrival) × (time_of arrival ≡ time)
        × IsReadAs kind datagram.now arrival × TakesThen (D.state window.old) arrival [] reply (D.state window.new)) }
    ensures read { OnErr result ((parity : ParityRead) × IsParityDatagram datagram.now parity) }
    ensures unchanged { OnErr result (D.state window.new ≡ D.state window.old) }
    ensures playout { (D.state window.new).playout ≡ (D.state window.old).playout }
{
    let spare = window.spare();
    let Ok((parity, share)) = parity_share(alloc, spare, datagram)? else {
        return Ok(None);
    };
    Ok(Some(window.admit_parity(parity.base, parity.shape, share)))
}
