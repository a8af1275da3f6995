//! What a turn guards: a board's state, of which the admitter's calls make what they make of a desk of its own.

use crate::flow::Flow;
use fg_turn::Guarded;

impl Guarded for Flow {
    ghost use Rattle.fg_core.specs.Steps.{IsStep};
    ghost use Rattle.fg_core.specs.Codes.{IsOwnedBy, GrowsFrom};
    ghost use Rattle.fg_core.specs.Guarding.{step_carries_on, nothing_grows, both_grow};

    ghost step = { IsStep };

    ghost owner = { IsOwnedBy };

    ghost grows = { GrowsFrom };

    ghost extends = { λ entries entry old new is step. step.1.owned entries is };

    ghost keeps = { λ entries old new is step. step.1.owned entries is };

    ghost stays = { λ entries told entry old new is step grows.
        (step_carries_on entry old new step).grows entries told is grows };

    ghost untold = { nothing_grows };

    ghost both = { both_grow };
}
