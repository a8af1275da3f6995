//! Why a call of the outside gave up.
use std::alloc::AllocError;

/// Why a call that reads, writes and takes memory gave up: a fault of the outside, or want of memory.
#[derive(Clone, Copy, Debug, PartialEq, Eq)]
pub enum Fault {
    /// A source failed.
    Read,
    /// A sink or an outlet failed.
    Write,
    /// There was no memory.
    Memory,
}

impl From<AllocError> for Fault {
    ghost use Rattle.std.specs.Prelude.{◌≡◌};
    ghost use Rattle.fg_io.specs.declared.fault.Fault.TheVariants.{Memory};

    ghost from_gives = { λ _ fault. fault ≡ Memory };

    fn from(_: AllocError) -> Fault {
        Fault::Memory
    }
}
