//! What is kept of the positions that can't be received any more.
ghost use Rattle.std.specs.Prelude.{◌≡◌, ◌+◌, ◌<◌, ◌^◌, ◌++◌, ◌∷◌, [], ℕ, List, Option, None, Some, IfOk, OnOk, length, replicate};
ghost use Rattle.fg_streams.specs.Bursts.{bursts_of, lengths_of, longest_of};
ghost use Rattle.fg_streams.specs.Steps.{HasEnded, IsClosed};

use crate::bursts::{Burst, Lengths, put};
use std::alloc::{AllocError, Global};

/// What is kept of the positions behind the last 1,024.
#[derive(Drop)]
pub(crate) struct Gaps {
    /// How many there are.
    pub(crate) slots: u64,
    /// When the last of them that was received was.
    pub(crate) at: Option<u64>,
    /// How many behind that one are lost.
    pub(crate) lost: u64,
    /// The bursts before.
    pub(crate) lengths: Lengths,
    /// The longest of them.
    pub(crate) longest: Vec<Burst>,
}

impl Gaps {
    /// No position. All memory is taken here.
    pub(crate) fn new(alloc: Global) -> Result<Gaps, AllocError>
        ensures { IfOk result (λ gaps. IsClosed gaps []) }
    {
        Ok(Gaps {
            slots: 0,
            at: None,
            lost: 0,
            lengths: Lengths::new(),
            longest: Vec::with_capacity(alloc, 11)?,
        })
    }

    /// Tells the burst that is open.
    pub(crate) fn end_burst(&mut self) -> Result<(), AllocError>
        requires { (times : List (Option ℕ)) × IsClosed self.old times × (length times < 2 ^ 60) }
        ensures ended { OnOk result ((times : List (Option ℕ)) → IsClosed self.old times → HasEnded self.new times) }
        ensures slots { self.new.slots ≡ self.old.slots }
    {
        match self.at {
            None => Ok(()),
            Some(at) => self.end_burst_after(at),
        }
    }

    /// Tells the burst that is open behind a position that was received at this time.
    fn end_burst_after(&mut self, at: u64) -> Result<(), AllocError>
        requires closed { (times : List (Option ℕ)) × IsClosed self.old times × (length times < 2 ^ 60) }
        requires at { self.old.at ≡ Some at }
        ensures ended { OnOk result ((times : List (Option ℕ)) → IsClosed self.old times → HasEnded self.new times) }
        ensures slots { self.new.slots ≡ self.old.slots }
    {
        if self.lost == 0 {
            return Ok(());
        }
        let burst = Burst {
            slot: self.slots - self.lost,
            length: self.lost,
            at,
        };
        self.lengths.add(burst);
        put(burst, &mut self.longest)
    }

    /// Takes the next position: when it was received, or none where it is lost.
    pub(crate) fn pass(&mut self, time: Option<u64>) -> Result<(), AllocError>
        requires { (times : List (Option ℕ)) × IsClosed self.old times × (length times < 2 ^ 60) }
        ensures { OnOk result ((times : List (Option ℕ)) → IsClosed self.old times → IsClosed self.new (times ++ time ∷ [])) }
    {
        match time {
            None => {
                self.skip(1);
                Ok(())
            }
            Some(at) => self.receive(at),
        }
    }

    /// Takes the next position, which was received at this time.
    fn receive(&mut self, at: u64) -> Result<(), AllocError>
        requires { (times : List (Option ℕ)) × IsClosed self.old times × (length times < 2 ^ 60) }
        ensures { OnOk result ((times : List (Option ℕ)) → IsClosed self.old times → IsClosed self.new (times ++ Some at ∷ [])) }
    {
        self.end_burst()?;
        self.at = Some(at);
        self.lost = 0;
        self.slots += 1;
        Ok(())
    }

    /// Takes so many positions, all of them lost.
    pub(crate) fn skip(&mut self, count: u64)
        requires few { (times : List (Option ℕ)) × IsClosed self.old times × (length times < 2 ^ 60) }
        requires count { count < 2 ^ 60 }
        ensures { (times : List (Option ℕ)) → IsClosed self.old times → IsClosed self.new (times ++ replicate count None) }
    {
        self.lost += count;
        self.slots += count;
    }
}
