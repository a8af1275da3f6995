//! Windows of a board that show nothing, passed at once.

use super::scene::Who::A;
use super::script::Step::{
    Flush, Held, Media, Parity, Play, Run, SkipDue, SkipHeld, SkipRest, Take,
};
use super::script::{Script, Shows, follow};
use fg_desk::Outcome::Repaired;
use fg_desk::Reply::Admitted;
use std::test::Fail;

/// Windows of which the first position shows a word, the last one, and none.
const FIRST: Shows = Shows(Repaired, 100, (1 << 100) - 2, 0, 0);

const LAST: Shows = Shows(Repaired, 100, (1 << 99) - 1, 0, 0);

const NOTHING: Shows = Shows(Repaired, 100, (1 << 100) - 1, 0, 0);

static JUMPS: [Script; 3] = [
    Script {
        name: "jump",
        hold: 0,
        steps: &[
            Media(0, 0, Admitted),
            SkipDue(399, 0),
            // Windows are played one by one while they show words.
            SkipDue(20_000, 0),
            Play(20_000, FIRST),
            SkipDue(20_000, 196),
            SkipDue(20_000, 0),
            Media(20_000, 20_000, Admitted),
            SkipRest(3),
            SkipRest(0),
            Flush(Shows(Repaired, 1, 0, 0, 0)),
            SkipRest(0),
        ],
    },
    Script {
        name: "jump past an equation",
        hold: 0,
        steps: &[
            Media(0, 0, Admitted),
            Parity(250, 1, 2, 250, Admitted),
            // It stays to be played out.
            Play(5000, FIRST),
            SkipDue(5000, 0),
            Play(5000, NOTHING),
            SkipDue(5000, 0),
            Play(5000, NOTHING),
            Take(A, None),
            SkipDue(5000, 44),
            Run(5000, 2, 0),
        ],
    },
    Script {
        name: "held windows",
        hold: 100,
        steps: &[
            Held(1000, None),
            Media(0, 0, Admitted),
            Media(399, 399, Admitted),
            SkipHeld(1099, 0),
            Held(1100, Some(FIRST)),
            SkipHeld(1100, 2),
            SkipHeld(1100, 0),
            Held(1100, Some(LAST)),
            Held(1100, None),
        ],
    },
];

#[test]
fn windows_that_are_passed(rt: HostRuntime) -> Result<(), Fail> {
    follow(&rt, rt.alloc(), &JUMPS)
}
