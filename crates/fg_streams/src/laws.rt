//! Laws of streams. Each is the contract of a function that does nothing.
ghost use Rattle.fg_streams.specs.Laws.{CountsPositions};

/// Each position from the first to the top is received or lost, and not both.
pub fn each_position_is_received_or_lost()
    ensures { CountsPositions }
{}
