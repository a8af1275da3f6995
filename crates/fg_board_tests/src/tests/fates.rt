//! What becomes of what passes bring, and what looks show.

use super::scene::Who::{A, B, C};
use super::script::Step::{
    Attest, BackAndAttest, BackAndOffer, Block, Flush, From, GiveBack, Look, Media, Parity, Play,
    Publish, Run, Take, Vouch,
};
use super::script::{FLIPPED, Script, Shows, Sight, follow};
use fg_board::Fate::{Beaten, Done, Gone};
use fg_desk::Outcome::{Inconsistent, Repaired};
use fg_desk::Reply::{Admitted, BeforeStart, Foreign};
use std::test::Fail;

static FATES: [Script; 6] = [
    Script {
        name: "word beaten by a datagram",
        hold: 0,
        steps: &[
            Run(0, 16, 1 << 5),
            Parity(4, 1, 4, 4, Admitted),
            Take(A, Some((0, Some(5)))),
            Media(5, 5, Admitted),
            Publish(A, Beaten(5)),
            Take(B, Some((0, None))),
            Vouch(B, true, Done),
            Take(A, None),
        ],
    },
    Script {
        name: "false check until the epoch rises",
        hold: 0,
        steps: &[
            Run(0, 16, 1 << 5),
            // It doesn't come out.
            Parity(8, 1, 4, 8 + FLIPPED, Admitted),
            Parity(4, 1, 4, 4, Admitted),
            Take(A, Some((0, None))),
            Vouch(A, false, Done),
            Take(B, Some((1, Some(5)))),
            Publish(B, Done),
            Take(C, Some((1, None))),
            Vouch(C, true, Done),
            Take(C, None),
            // Another word than was solved: neither is handed out or vouched for any more.
            Media(5, 5 + FLIPPED, Admitted),
            Take(B, Some((0, None))),
            Take(A, Some((1, None))),
            Vouch(A, false, Done),
            Take(C, None),
            Flush(Shows(Inconsistent, 16, 0, 0, 1 << 5)),
            Vouch(B, false, Gone { mark: 16, epoch: 2 }),
        ],
    },
    Script {
        name: "jobs after an inconsistent play",
        hold: 0,
        steps: &[
            Run(0, 16, 1 << 5),
            Parity(8, 1, 4, 8 + FLIPPED, Admitted),
            Parity(4, 1, 4, 4, Admitted),
            Take(A, Some((0, None))),
            Take(B, Some((1, Some(5)))),
            Flush(Shows(Inconsistent, 16, 1 << 5, 0, 0)),
            Publish(B, Gone { mark: 16, epoch: 1 }),
            Attest(A, false, Gone { mark: 16, epoch: 1 }),
            GiveBack(A, Gone { mark: 16, epoch: 1 }),
            Take(A, None),
        ],
    },
    Script {
        name: "looks at all kinds of positions",
        hold: 0,
        steps: &[
            Run(0, 101, 1 << 90),
            Parity(88, 1, 4, 88, Admitted),
            Parity(95, 5, 3, 95, Admitted),
            Parity(100, 5, 3, 100, Admitted),
            Parity(90, 15, 2, 90, Admitted),
            Take(A, Some((0, Some(90)))),
            Take(B, Some((1, Some(105)))),
            Look(B, 1, 105, Sight::Nothing),
            Publish(B, Done),
            Play(400, Shows(Repaired, 100, 0, 1 << 90, 0)),
            // Its equation has retired.
            Publish(
                A,
                Gone {
                    mark: 100,
                    epoch: 0,
                },
            ),
            Look(C, 0, 90, Sight::Gone(100, 0)),
            // A word that was kept, one that stands alone, one that was solved, one that came, and none.
            Look(C, 1, 89, Sight::Word),
            Look(C, 1, 90, Sight::Word),
            Look(C, 1, 105, Sight::Word),
            Look(C, 1, 100, Sight::Word),
            Look(C, 1, 110, Sight::Nothing),
            Take(A, Some((1, None))),
            Take(B, Some((2, Some(110)))),
            // The last one has a word that stands alone.
            Take(C, None),
        ],
    },
    Script {
        name: "words and checks of jobs given back",
        hold: 0,
        steps: &[
            Block,
            Take(A, Some((0, Some(5)))),
            BackAndOffer(A, Done),
            // Neither the offer nor the attest has noted it.
            Take(B, Some((0, None))),
            BackAndAttest(B, true, Done),
            Take(C, Some((1, None))),
            Take(A, None),
        ],
    },
    Script {
        name: "jobs where a run begins",
        hold: 0,
        steps: &[
            Run(0, 16, 1 << 5),
            Parity(4, 1, 4, 4, Admitted),
            Parity(8, 1, 4, 8, Admitted),
            // Two of its words are still to come.
            Parity(12, 3, 4, 12, Admitted),
            Take(A, Some((0, Some(5)))),
            Take(B, Some((1, None))),
            Vouch(B, true, Done),
            Flush(Shows(Repaired, 16, 0, 1 << 5, 0)),
            Look(C, 2, 12, Sight::Word),
            // Another sender's run begins at the mark, without the equations of the one before.
            From(1, 500, 16, Admitted),
            Look(C, 2, 12, Sight::Gone(16, 0)),
            Publish(A, Gone { mark: 16, epoch: 0 }),
            Take(A, None),
            Media(16, 16, Foreign),
            Parity(499, 1, 4, 15, BeforeStart),
            From(1, 501, 17, Admitted),
            From(1, 503, 19, Admitted),
            Parity(500, 1, 4, 16, Admitted),
            Take(B, Some((3, Some(18)))),
            Publish(B, Done),
            Flush(Shows(Repaired, 4, 0, 1 << 2, 0)),
            From(2, 10, 20, Admitted),
            Flush(Shows(Repaired, 1, 0, 0, 0)),
            // The first sender isn't the one before any more.
            From(0, 16, 21, Admitted),
            From(2, 11, 22, Foreign),
        ],
    },
];

#[test]
fn fates_and_looks(rt: HostRuntime) -> Result<(), Fail> {
    follow(&rt, rt.alloc(), &FATES)
}
