//! Laws of positions. Each is the contract of a function that does nothing.

ghost use Rattle.fg_unwrap.specs.Laws.{FunctionGivesPosition, FunctionTellsBelowZero, HasOnePosition, HasPosition};

/// There is exactly one position for a sequence number.
pub fn each_sequence_number_has_one_position()
    ensures some { HasPosition }
    ensures one { HasOnePosition }
{}

/// The function of the definitions gives just that position, and none where it is below 0.
pub fn the_function_gives_the_position()
    ensures gives { FunctionGivesPosition }
    ensures below_zero { FunctionTellsBelowZero }
{}
