//! Where bytes go.
ghost use Rattle.std.specs.Prelude.{◌≡◌, ◌⊎◌, ℕ, ◌<◌, ◌≤◌, Option, List, [], ◌∷◌, length, take, IfOk, IfErr, OnOk, OnErr};
ghost use Rattle.std.specs.List.{flat_map};
ghost use Rattle.fg_io.specs.Faults.{Counts, CountsFault};
ghost use Rattle.fg_io.specs.Sink.{Gains, GainsPart};

use crate::Failed;
use crate::fault::Fault;

/// Takes bytes, a piece at a time.
pub trait Sink {
    // The bytes that have been written, where the sink tells them.
    ghost written: { Self → Option (List ℕ) };

    // How many faults there have been.
    ghost faults: { Self → ℕ };

    /// Takes some bytes of the front of `piece`, and answers how many.
    ///
    /// A sink that takes none of a nonempty piece has counted a fault in this call; any other call that is `Ok` counts
    /// none.
    fn write(&mut self, piece: &[u8]) -> Result<usize, Failed>
        ensures bound { IfOk result (λ count. count ≤ length piece.now) }
        ensures gains { IfOk result (λ count. Gains (written self.old) (take count piece.now)
            (written self.new)) }
        ensures full { IfOk result (λ count. count ≡ 0 → 0 < length piece.now
            → CountsFault (faults self.old) (faults self.new)) }
        ensures no_fault { IfOk result (λ count. (0 < count) ⊎ (length piece.now ≡ 0)
            → faults self.new ≡ faults self.old) }
        ensures failed { OnErr result (written self.new ≡ written self.old) }
        ensures counted { OnErr result (CountsFault (faults self.old) (faults self.new)) }
        ensures never_falls { faults self.old ≤ faults self.new };
}

/// Writes the whole piece.
///
/// After a fault, which is `Write`, the sink has gained a prefix of it. A sink that takes none of what is left counts as
/// failed.
pub fn write_all<K: Sink>(sink: &mut K, piece: &[u8]) -> Result<(), Fault>
    ensures whole { OnOk result (Gains (K.written sink.old) piece.now (K.written sink.new)) }
    ensures part { OnErr result (GainsPart (K.written sink.old) piece.now (K.written sink.new)) }
    ensures fault { IfErr result (λ fault. fault ≡ Fault.Write) }
    ensures faults { Counts result [] ((K.faults sink.old, K.faults sink.new) ∷ []) }
{
    let mut taken = 0;
    while taken < piece.len() {
        match sink.write(&piece[taken..]) {
            Ok(0) => return Err(Fault::Write),
            Ok(count) => taken += count,
            Err(Failed) => return Err(Fault::Write),
        }
    }
    Ok(())
}

/// Writes the pieces, one after another.
///
/// After a fault, which is `Write`, the sink has gained a prefix of what they are together.
pub fn write_pieces<K: Sink>(sink: &mut K, pieces: &[&[u8]]) -> Result<(), Fault>
    ensures whole { OnOk result (Gains (K.written sink.old)
        (flat_map (λ piece. piece.now) pieces.now) (K.written sink.new)) }
    ensures part { OnErr result (GainsPart (K.written sink.old)
        (flat_map (λ piece. piece.now) pieces.now) (K.written sink.new)) }
    ensures fault { IfErr result (λ fault. fault ≡ Fault.Write) }
    ensures faults { Counts result [] ((K.faults sink.old, K.faults sink.new) ∷ []) }
{
    for piece in pieces {
        write_all(sink, piece)?;
    }
    Ok(())
}
