//! The case of a gap.
ghost use Rattle.std.specs.Prelude.{◌≡◌, ◌+◌, ◌-◌, ◌*◌, ◌≤◌, ℕ, IfOk};

use fg_closure::Closure;
use fg_desk::Desk;
use fg_runs::{Rules, Runs};
use fg_shape::Shape;
use std::alloc::{AllocError, Global};

/// What a desk had when a window was played: which positions were known, the slots of which equations, and which positions
/// followed from neither.
#[derive(Drop)]
pub struct Case {
    /// The port of the flow's media datagrams.
    pub port: u16,
    /// The window's first position.
    pub mark: u64,
    /// How many positions the window has.
    pub count: u32,
    /// The positions of all kept and received words.
    pub known: Runs,
    /// The slots of the live equations, in the order of admission.
    pub lines: Rules,
    /// The positions ahead that follow from neither.
    pub holes: Runs,
}

impl Case {
    ghost use Rattle.fg_playout.specs.State.{State};
    ghost use Rattle.fg_closure.specs.Found.{IsFoundOf};
    ghost use Rattle.fg_proof.specs.Case.{IsCase};

    /// The case of the flow on this port, for a desk and a window of so many positions.
    ///
    /// # Errors
    ///
    /// Where there is no memory.
    pub fn of(alloc: Global, port: u16, desk: &Desk, count: u32) -> Result<Case, AllocError>
        requires { count ≤ 100 }
        ensures { IfOk result (IsCase port desk.now.state count) }
    {
        let mut closure = Closure::new(alloc)?;
        closure.find(desk);
        Case::found(alloc, port, &closure, count)
    }

    /// The same, of what a closure has found of the desk. Nothing is searched again.
    ///
    /// # Errors
    ///
    /// Where there is no memory.
    pub fn found(
        alloc: Global,
        port: u16,
        closure: &Closure,
        count: u32,
    ) -> Result<Case, AllocError>
        requires found { (desk : State) × IsFoundOf desk closure.now }
        requires count { count ≤ 100 }
        ensures { (desk : State) → IsFoundOf desk closure.now → IfOk result (IsCase port desk count) }
    {
        let known = closure.known(alloc)?;
        let lines = closure.lines(alloc)?;
        let holes = closure.holes(alloc, count)?;
        Ok(Case {
            port,
            mark: closure.mark(),
            count,
            known,
            lines,
            holes,
        })
    }

    /// Makes of the case of a desk that of the same desk for a smaller window. It takes no memory.
    pub fn cut(&mut self, count: u32)
        ensures { (port old_count : ℕ) (desk : State) → IsCase port desk old_count self.old → count ≤ old_count
            → IsCase port desk count self.new }
    {
        let mut end = u128::from(self.mark) + u128::from(count);
        for i in 0..self.lines.count() {
            let (base, shape) = self.lines.item(i);
            end = end.max(end_of(base, shape));
        }
        self.holes.cut(end);
        self.count = count;
    }
}

/// The position behind the last slot of the equation with this base, which may lie past 64 bits.
fn end_of(base: u64, shape: Shape) -> u128
    ensures { result ≡ base + (shape.na - 1) * shape.offset + 1 }
{
    let steps = u128::from(shape.na.saturating_sub(1));
    u128::from(base) + steps * u128::from(shape.offset) + 1
}
