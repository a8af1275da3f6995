//! Walking an input, item by item.
ghost use Rattle.std.specs.Prelude.{◌≡◌, ◌<◌, ℕ, Option, List, [], ◌∷◌, IfOk, IfSome, IfNone, OnOk, OnErr};
ghost use Rattle.fg_io.specs.Faults.{Counts};
ghost use Rattle.fg_io.specs.Texts.{ReadTexts};

use fg_io::{Fault, Sink, Source};

/// Goes through an input item by item, and writes what it makes of it to a sink.
///
/// In the members below, an input had the first list when the walk began and has the second left; the sink had the third
/// written then, and has the fourth.
pub trait Walking {
    /// What the input is read through.
    type Reader;

    /// How the input ends.
    type Ending: Copy;

    // What no call changes.
    ghost Given: { Type 0 };

    ghost given: { Self → Self.Reader → Given };

    // No item is read yet, and nothing is written.
    ghost is_new: { Self → Self.Reader → Option (List ℕ) → Option (List ℕ) → Type 0 };

    // What is made of the items that were read is written, but for a rest that is held.
    ghost is_underway: { Self → Self.Reader → ReadTexts };

    // What is made of all items before this ending is written, but for a rest that is held.
    ghost has_ended: { Self → Self.Reader → Self.Ending → ReadTexts };

    // All that is made of an input that ends so is written.
    ghost whole: { Given → Self → Self.Ending → ReadTexts };

    // What a fault leaves: a part of that is written.
    ghost part: { Given → ReadTexts };

    // How many steps are left at most.
    ghost steps_left: { Self → Self.Reader → ℕ };

    /// Begins, before the first item is read.
    fn begin<K: Sink>(&mut self, out: &mut K) -> Result<(), Fault>
        requires { (reader : Self.Reader) × (first : Option (List ℕ)) × (now : Option (List ℕ))
            × is_new self.old reader first now }
        ensures underway { OnOk result ((reader : Self.Reader) (first now : Option (List ℕ))
            → is_new self.old reader first now
            → is_underway self.new reader first now (K.written out.old) (K.written out.new)) }
        ensures part { OnErr result ((reader : Self.Reader) (first now : Option (List ℕ))
            → is_new self.old reader first now
            → part (given self.old reader) first now (K.written out.old) (K.written out.new)) }
        ensures given { (reader : Self.Reader) → given self.new reader ≡ given self.old reader }
        ensures faults { Counts result [] ((K.faults out.old, K.faults out.new) ∷ []) };

    /// Reads the next item, where there is one, and writes what it makes of it; else it answers how the input ends.
    fn step<S: Source, K: Sink>(
        &mut self,
        reader: &mut Self::Reader,
        input: &mut S,
        out: &mut K,
    ) -> Result<Option<Self::Ending>, Fault>
        requires { (first : Option (List ℕ)) × (before : Option (List ℕ))
            × is_underway self.old reader.old first (S.left input.old) before (K.written out.old) }
        ensures more { IfOk result (λ end. IfNone end ((first before : Option (List ℕ))
            → is_underway self.old reader.old first (S.left input.old) before (K.written out.old)
            → is_underway self.new reader.new first (S.left input.new) before (K.written out.new))) }
        ensures ends { IfOk result (λ end. IfSome end (λ ending. (first before : Option (List ℕ))
            → is_underway self.old reader.old first (S.left input.old) before (K.written out.old)
            → has_ended self.new reader.new ending first (S.left input.new) before (K.written out.new))) }
        ensures part { OnErr result ((first before : Option (List ℕ))
            → is_underway self.old reader.old first (S.left input.old) before (K.written out.old)
            → part (given self.old reader.old) first (S.left input.new) before (K.written out.new)) }
        ensures given { given self.new reader.new ≡ given self.old reader.old }
        ensures fewer { IfOk result (λ end. IfNone end
            (steps_left self.new reader.new < steps_left self.old reader.old)) }
        ensures faults { Counts result ((S.faults input.old, S.faults input.new) ∷ [])
            ((K.faults out.old, K.faults out.new) ∷ []) }
        ensures fixed { S.fixed input.new ≡ S.fixed input.old };

    /// Ends, once the input has ended so: what is held is written.
    fn end<K: Sink>(&mut self, ending: Self::Ending, out: &mut K) -> Result<(), Fault>
        requires { (reader : Self.Reader) × (first : Option (List ℕ)) × (now : Option (List ℕ))
            × (before : Option (List ℕ))
            × has_ended self.old reader ending first now before (K.written out.old) }
        ensures whole { OnOk result ((reader : Self.Reader) (first now before : Option (List ℕ))
            → has_ended self.old reader ending first now before (K.written out.old)
            → whole (given self.old reader) self.new ending first now before (K.written out.new)) }
        ensures part { OnErr result ((reader : Self.Reader) (first now before : Option (List ℕ))
            → has_ended self.old reader ending first now before (K.written out.old)
            → part (given self.old reader) first now before (K.written out.new)) }
        ensures given { (reader : Self.Reader) → given self.new reader ≡ given self.old reader }
        ensures faults { Counts result [] ((K.faults out.old, K.faults out.new) ∷ []) };
}

/// Walks the input to its end, and answers how that comes.
pub fn walk<W: Walking, S: Source, K: Sink>(
    walking: &mut W,
    reader: &mut W::Reader,
    input: &mut S,
    out: &mut K,
) -> Result<W::Ending, Fault>
    requires { (first : Option (List ℕ))
        × W.is_new walking.old reader.old first (S.left input.old) }

    // Where nothing fails, all is written that is made of the input.
    ensures whole { IfOk result (λ ending. (first : Option (List ℕ))
        → W.is_new walking.old reader.old first (S.left input.old)
        → W.whole (W.given walking.old reader.old) walking.new ending first (S.left input.new)
        (K.written out.old) (K.written out.new)) }

    // After a fault a part is.
    ensures part { OnErr result ((first : Option (List ℕ))
        → W.is_new walking.old reader.old first (S.left input.old)
        → W.part (W.given walking.old reader.old) first (S.left input.new)
        (K.written out.old) (K.written out.new)) }
    ensures given { W.given walking.new reader.new ≡ W.given walking.old reader.old }
    ensures faults { Counts result ((S.faults input.old, S.faults input.new) ∷ [])
        ((K.faults out.old, K.faults out.new) ∷ []) }
    ensures fixed { S.fixed input.new ≡ S.fixed input.old }
{
    walking.begin(out)?;
    let ending = walk_on(walking, reader, input, out)?;
    walking.end(ending, out)?;
    Ok(ending)
}

/// Walks over the items that are left, and answers how the input ends.
fn walk_on<W: Walking, S: Source, K: Sink>(
    walking: &mut W,
    reader: &mut W::Reader,
    input: &mut S,
    out: &mut K,
) -> Result<W::Ending, Fault>
    requires { (first : Option (List ℕ)) × (before : Option (List ℕ))
        × W.is_underway walking.old reader.old first (S.left input.old) before (K.written out.old) }
    ensures whole { IfOk result (λ ending. (first before : Option (List ℕ))
        → W.is_underway walking.old reader.old first (S.left input.old) before (K.written out.old)
        → W.has_ended walking.new reader.new ending first (S.left input.new) before (K.written out.new)) }
    ensures part { OnErr result ((first before : Option (List ℕ))
        → W.is_underway walking.old reader.old first (S.left input.old) before (K.written out.old)
        → W.part (W.given walking.old reader.old) first (S.left input.new) before (K.written out.new)) }
    ensures given { W.given walking.new reader.new ≡ W.given walking.old reader.old }
    ensures faults { Counts result ((S.faults input.old, S.faults input.new) ∷ [])
        ((K.faults out.old, K.faults out.new) ∷ []) }
    ensures fixed { S.fixed input.new ≡ S.fixed input.old }
{
    loop {
        if let Some(ending) = walking.step(reader, input, out)? {
            return Ok(ending);
        }
    }
}
