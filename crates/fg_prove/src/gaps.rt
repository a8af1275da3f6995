//! The gaps of a flow: which plays show a loss, and their cases.
ghost use Rattle.std.specs.Prelude.{◌≡◌, ◌↔◌, ◌+◌, ◌<◌, ◌≤◌, ◌^◌, ℕ, [], ◌∷◌, IfOk, OnOk, OnErr, IsTrue, IsFalse};
ghost use Rattle.fg_io.specs.Faults.{Counts};
ghost use Rattle.fg_playout.specs.State.{State};
ghost use Rattle.fg_playout.specs.Solution.{InClosure};
ghost use Rattle.fg_playout.specs.Facts.{Holds};
ghost use Rattle.fg_closure.specs.Holes.{HasMissing};
ghost use Rattle.fg_closure.specs.Found.{IsFoundOf};
ghost use Rattle.fg_prove.specs.Steps.{TellsGap, BreaksGap};

use crate::text::CaseText;
use fg_closure::Closure;
use fg_desk::{Desk, Outcome, Played};
use fg_io::{Fault, Sink};
use fg_proof::Case;
use std::alloc::{AllocError, Global};

/// What is told of a flow's gaps.
#[derive(Drop)]
pub(crate) struct Gaps {
    /// The port of the flow's media datagrams.
    pub(crate) port: u16,
    /// What was known and what followed before the last play that may show a loss.
    pub(crate) closure: Closure,
    /// The cases' text.
    pub(crate) text: CaseText,
}

impl Gaps {
    /// No case, of the flow with this port. All memory but that of cases is taken here.
    pub(crate) fn new(alloc: Global, port: u16) -> Result<Gaps, AllocError>
        ensures port { IfOk result (λ gaps. gaps.port ≡ port) }
        ensures held { IfOk result (λ gaps. gaps.text.held ≡ []) }
    {
        Ok(Gaps {
            port,
            closure: Closure::new(alloc)?,
            text: CaseText::new(alloc)?,
        })
    }

    /// Looks at so many positions from the mark on, and answers whether a play of them may show a loss. Then the closure is found
    /// as it is now, which serves after the play.
    pub(crate) fn look(&mut self, desk: &Desk, count: u32) -> bool
        requires { desk.now.state.mark < 2 ^ 62 }
        ensures found { IsTrue result → IsFoundOf desk.now.state self.new.closure }
        ensures none { IsFalse result → ¬ HasMissing desk.now.state count }
        ensures same { self.new ≡ record self.old { closure = self.new.closure } }
        ensures facts { Holds desk.now.state }
        ensures depth { desk.now.state.playout.depth ≤ 1000 }
    {
        let _depth = desk.depth();
        if all_follow(desk, count) {
            return false;
        }
        self.closure.find(desk);
        true
    }

    /// Whether a play shows a loss. It was looked at before: where it may show one, the closure is that of the desk that it was made
    /// on.
    #[inline]
    fn shows_a_loss(&self, looked: bool, played: Played) -> bool
        requires { played.count ≤ 100 }
        ensures looked { IsTrue result → IsTrue looked }
        ensures loss { (desk : State) → (IsTrue looked → IsFoundOf desk self.now.closure)
            → (IsFalse looked → ¬ HasMissing desk played.count)
            → (IsTrue result ↔ ((played.verdict ≡ Outcome.Repaired) × HasMissing desk played.count)) }
    {
        match played.verdict {
            Outcome::Repaired => looked && self.closure.is_missing(played.count),
            Outcome::Inconsistent => false,
        }
    }

    /// Tells the case of a play where it shows a loss. The play was looked at before: where it may show one, the closure is that of
    /// the desk that it was made on.
    pub(crate) fn tell<K: Sink>(
        &mut self,
        alloc: Global,
        looked: bool,
        played: Played,
        out: &mut K,
    ) -> Result<(), Fault>
        requires count { played.count ≤ 100 }
        requires found { IsTrue looked → (desk : State) × IsFoundOf desk self.old.closure }
        ensures tells { OnOk result ((desk : State) → (IsTrue looked → IsFoundOf desk self.old.closure)
            → (IsFalse looked → ¬ HasMissing desk played.count)
            → TellsGap self.old.port desk played.count played.verdict
            self.old.text.held (K.written out.old) self.new.text.held (K.written out.new)) }
        ensures breaks { OnErr result ((desk : State) → (IsTrue looked → IsFoundOf desk self.old.closure)
            → (IsFalse looked → ¬ HasMissing desk played.count)
            → BreaksGap self.old.port desk played.count played.verdict
            self.old.text.held (K.written out.old) (K.written out.new)) }
        ensures port { self.new.port ≡ self.old.port }
        ensures faults { Counts result [] ((K.faults out.old, K.faults out.new) ∷ []) }
    {
        if !self.shows_a_loss(looked, played) {
            return Ok(());
        }
        let case = Case::found(alloc, self.port, &self.closure, played.count)?;
        self.text.add(&case, out)
    }
}

/// Whether each of so many positions from the mark on is known to follow: its word was received, or a play before found it.
fn all_follow(desk: &Desk, count: u32) -> bool
    requires { desk.now.state.mark < 2 ^ 62 }
    ensures { IsTrue result → (position : ℕ) → desk.now.state.mark ≤ position
        → position < desk.now.state.mark + count → InClosure desk.now.state position }
{
    let mark = desk.mark();
    for i in 0..count {
        if !desk.has_found(mark + u64::from(i)) {
            return false;
        }
    }
    true
}
