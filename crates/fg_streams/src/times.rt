//! When the datagrams of a stream's positions were received.
ghost use Rattle.std.specs.Prelude.{◌≡◌, ◌+◌, ◌-◌, ◌<◌, ◌≤◌, ◌^◌, ◌++◌, ◌∷◌, [], ℕ, List, Option, None, Some, IfOk, OnOk, get_or, length, replicate, set};
ghost use Rattle.fg_streams.specs.Steps.{HasEnded, IsClosed, Keeps};

use crate::gaps::Gaps;
use crate::recent::{RECENT, Recent};
use std::alloc::{AllocError, Global};

/// When the datagrams of the positions were received, from the first position to the top. Only the last 1,024 are kept.
#[derive(Drop)]
pub(crate) struct Times {
    pub(crate) gaps: Gaps,
    pub(crate) recent: Recent,
}

impl Times {
    /// No position. All memory is taken here.
    pub(crate) fn new(alloc: Global) -> Result<Times, AllocError>
        ensures { IfOk result (λ times. Keeps times []) }
    {
        Ok(Times {
            gaps: Gaps::new(alloc)?,
            recent: Recent::new(alloc)?,
        })
    }

    /// Adds the next position: when it was received, or none where it wasn't.
    pub(crate) fn push(&mut self, time: Option<u64>) -> Result<(), AllocError>
        requires { (times : List (Option ℕ)) × Keeps self.old times × (length times < 2 ^ 60) }
        ensures { OnOk result ((times : List (Option ℕ)) → Keeps self.old times → Keeps self.new (times ++ time ∷ [])) }
    {
        if self.recent.len() == RECENT {
            return self.push_past(time);
        }
        self.recent.push(time);
        Ok(())
    }

    /// Adds the next position where as many are kept as at most: the oldest goes.
    fn push_past(&mut self, time: Option<u64>) -> Result<(), AllocError>
        requires full { length self.old.recent ≡ 1024 }
        requires few { (times : List (Option ℕ)) × Keeps self.old times × (length times < 2 ^ 60) }
        ensures { OnOk result ((times : List (Option ℕ)) → Keeps self.old times → Keeps self.new (times ++ time ∷ [])) }
    {
        let oldest = self.recent.pop().unwrap();
        self.gaps.pass(oldest)?;
        self.recent.push(time);
        Ok(())
    }

    /// When the position was received that is so far behind the top.
    pub(crate) fn get(&self, behind: u64) -> Option<u64>
        requires { behind < length self.now.recent }
        ensures { (times : List (Option ℕ)) → Keeps self.now times
            → result ≡ get_or times (length times - 1 - behind) None }
    {
        self.recent.at(self.recent.len() - 1 - behind as usize)
    }

    /// Receives the position that is so far behind the top.
    pub(crate) fn set(&mut self, behind: u64, time: u64)
        requires { behind < length self.old.recent }
        ensures { (times : List (Option ℕ)) → Keeps self.old times
            → Keeps self.new (set times (length times - 1 - behind) (Some time)) }
    {
        let slot = self.recent.len() - 1 - behind as usize;
        self.recent.set(slot, time);
    }

    /// Adds so many positions at which nothing was received.
    pub(crate) fn skip(&mut self, count: u64) -> Result<(), AllocError>
        requires few { (times : List (Option ℕ)) × Keeps self.old times × (length times < 2 ^ 59) }
        requires count { count < 2 ^ 59 }
        ensures { OnOk result ((times : List (Option ℕ)) → Keeps self.old times
            → Keeps self.new (times ++ replicate count None)) }
    {
        if count <= RECENT as u64 {
            return self.push_lost(count);
        }
        self.drain()?;
        self.gaps.skip(count - RECENT as u64);
        self.fill();
        Ok(())
    }

    /// Adds a few positions at which nothing was received.
    fn push_lost(&mut self, count: u64) -> Result<(), AllocError>
        requires few { (times : List (Option ℕ)) × Keeps self.old times × (length times < 2 ^ 59) }
        requires count { count ≤ 1024 }
        ensures { OnOk result ((times : List (Option ℕ)) → Keeps self.old times
            → Keeps self.new (times ++ replicate count None)) }
    {
        for _ in 0..count {
            self.push(None)?;
        }
        Ok(())
    }

    /// Lets all positions go.
    fn drain(&mut self) -> Result<(), AllocError>
        requires few { (times : List (Option ℕ)) × Keeps self.old times × (length times < 2 ^ 60) }
        ensures drained { OnOk result ((times : List (Option ℕ)) → Keeps self.old times
            → IsClosed self.new.gaps times) }
        ensures empty { OnOk result (self.new.recent ≡ []) }
    {
        while let Some(oldest) = self.recent.pop() {
            self.gaps.pass(oldest)?;
        }
        Ok(())
    }

    /// Keeps as many positions at which nothing was received as it keeps at most.
    fn fill(&mut self)
        requires { self.old.recent ≡ [] }
        ensures filled { self.new.recent ≡ replicate 1024 None }
        ensures gaps { self.new.gaps ≡ self.old.gaps }
    {
        for _ in 0..RECENT {
            self.recent.push(None);
        }
    }

    /// Lets all positions go, and tells the last burst.
    pub(crate) fn finish(&mut self) -> Result<(), AllocError>
        requires few { (times : List (Option ℕ)) × Keeps self.old times × (length times < 2 ^ 60) }
        ensures { OnOk result ((times : List (Option ℕ)) → Keeps self.old times
            → HasEnded self.new.gaps times) }
    {
        self.drain()?;
        self.gaps.end_burst()
    }
}
