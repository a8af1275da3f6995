//! Laws of the XOR of words and of their sum. Each is the contract of a function that does nothing.

ghost use Rattle.fg_words.specs.Laws.{SumAppends, SumIgnoresOrder, XorAssociates, XorCommutes, XorHasZero, XorUndoesItself};

/// XOR is an abelian group in which each word is its own inverse.
pub fn xor_is_a_group()
    ensures commutes { XorCommutes }
    ensures associates { XorAssociates }
    ensures has_zero { XorHasZero }
    ensures undoes_itself { XorUndoesItself }
{}

/// The sum of words depends neither on their order nor on how they are grouped.
pub fn sum_ignores_order()
    ensures appends { SumAppends }
    ensures permutes { SumIgnoresOrder }
{}
