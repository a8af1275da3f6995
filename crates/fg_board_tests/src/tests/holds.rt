//! Held steps of a board on which a word may wait for 100 microseconds.

use super::scene::Who::{A, B};
use super::script::Step::{Held, Look, Media, Parity, Publish, Take};
use super::script::{FLIPPED, Script, Shows, Sight, follow};
use fg_board::Fate::{Done, Gone};
use fg_desk::Outcome::{Inconsistent, Repaired};
use fg_desk::Reply::{Admitted, Late};
use std::test::Fail;

static HOLDS: [Script; 2] = [
    Script {
        name: "times that words wait",
        hold: 100,
        steps: &[
            Held(1000, None),
            Media(0, 0, Admitted),
            Media(1, 1, Admitted),
            Media(3, 3, Admitted),
            Held(1050, None),
            Media(5, 5, Admitted),
            Held(1099, None),
            Held(1100, Some(Shows(Repaired, 4, 1 << 2, 0, 0))),
            // A time that goes back is none that is told.
            Held(900, None),
            Media(4, 4, Admitted),
            Held(1149, None),
            // The word at 4 waited for 50 microseconds.
            Held(1150, Some(Shows(Repaired, 2, 0, 0, 0))),
            Media(5, 5, Late),
            Held(2000, None),
        ],
    },
    Script {
        name: "held plays beside passes",
        hold: 100,
        steps: &[
            Media(0, 0, Admitted),
            Media(2, 2, Admitted),
            Parity(0, 1, 3, 0, Admitted),
            Take(A, Some((0, Some(1)))),
            Publish(A, Done),
            // What was solved stays so where nothing is held.
            Held(99, None),
            Look(B, 0, 1, Sight::Word),
            Take(B, Some((0, None))),
            Held(100, Some(Shows(Repaired, 3, 0, 1 << 1, 0))),
            Look(B, 0, 1, Sight::Gone(3, 0)),
            Media(3, 3, Admitted),
            Parity(3, 1, 2, 3, Admitted),
            Take(A, Some((1, Some(4)))),
            Media(4, 4 + FLIPPED, Admitted),
            Held(200, Some(Shows(Inconsistent, 2, 0, 0, 1 << 1))),
            Publish(A, Gone { mark: 5, epoch: 1 }),
            Held(300, None),
        ],
    },
];

#[test]
fn held_steps(rt: HostRuntime) -> Result<(), Fail> {
    follow(&rt, rt.alloc(), &HOLDS)
}
