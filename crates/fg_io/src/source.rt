//! Where bytes come from.
ghost use Rattle.std.specs.Borrow.{GName};
ghost use Rattle.std.specs.Prelude.{◌≡◌, ℕ, ◌<◌, ◌≤◌, Option, List, length, take, IfOk, OnOk, OnErr};
ghost use Rattle.std.specs.Io.KnownBytes.{IsAtEnd};
ghost use Rattle.fg_io.specs.Faults.{CountsFault};
ghost use Rattle.fg_io.specs.Source.{Gives};

use crate::Failed;

/// Gives bytes, a piece at a time.
pub trait Source {
    // The bytes that are left to read, where the source tells them.
    ghost left: { Self → Option (List ℕ) };

    // How many faults there have been.
    ghost faults: { Self → ℕ };

    // What no read changes: among it are the references that the source reads through.
    ghost Fixed: { Type 0 };

    ghost fixed: { Self → Fixed };

    /// Reads some of the bytes left to the front of `into`, and answers how many.
    ///
    /// 0 for a nonempty `into` means that nothing is left. What `into` holds beyond that many bytes, and after
    /// [`Failed`], is not told. A call that is `Ok` counts no fault.
    fn read(&mut self, into: &mut [u8]) -> Result<usize, Failed>
        ensures bound { IfOk result (λ count. count ≤ length into.new) }
        ensures gives { IfOk result (λ count. Gives (left self.old) (take count into.new)
            (left self.new)) }
        ensures end { IfOk result (λ count. count ≡ 0 → 0 < length into.new
            → IsAtEnd (left self.new)) }
        ensures failed { OnErr result (left self.new ≡ left self.old) }
        ensures no_fault { OnOk result (faults self.new ≡ faults self.old) }
        ensures counted { OnErr result (CountsFault (faults self.old) (faults self.new)) }
        ensures never_falls { faults self.old ≤ faults self.new }
        ensures fixed { fixed self.new ≡ fixed self.old };
}

impl<S: Source> Source for &mut S {
    ghost left = { λ source. S.left source.now };

    ghost faults = { λ source. S.faults source.now };

    ghost Fixed = { GName × S.Fixed };

    ghost fixed = { λ source. (source.ghost_name, S.fixed source.now) };

    fn read(&mut self, into: &mut [u8]) -> Result<usize, Failed> {
        Source::read(&mut **self, into)
    }
}
