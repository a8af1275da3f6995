//! Jobs of a block of four rows and four columns that lost the word at 5, which is in row 1 and column 1.

use super::scene::Who::{A, B, C};
use super::script::Step::{
    Attest, Block, Flush, GiveBack, Look, Media, Offer, Parity, Play, Publish, Run, Take, Vouch,
};
use super::script::{FLIPPED, Script, Shows, Sight, follow};
use fg_board::Fate::{Beaten, Done, Gone};
use fg_desk::Outcome::{Inconsistent, Repaired};
use fg_desk::Reply::Admitted;
use std::test::Fail;

static JOBS: [Script; 5] = [
    Script {
        name: "two jobs for one slot",
        hold: 0,
        steps: &[
            Run(0, 16, 1 << 5),
            Take(A, None),
            Parity(4, 1, 4, 4, Admitted),
            Parity(1, 4, 4, 1, Admitted),
            Take(A, Some((0, Some(5)))),
            Take(B, Some((1, Some(5)))),
            Take(C, None),
            Publish(A, Done),
            Publish(B, Beaten(5)),
            // Both are open again, since neither was found to come out.
            Take(C, Some((0, None))),
            Vouch(C, true, Done),
            Take(A, Some((1, None))),
            Vouch(A, true, Done),
            Take(B, None),
        ],
    },
    Script {
        name: "word of an older epoch",
        hold: 0,
        steps: &[
            Block,
            Take(A, Some((0, Some(5)))),
            Take(C, Some((1, Some(5)))),
            Publish(A, Done),
            Take(B, Some((0, None))),
            // Another word than was solved: it withdraws what was solved.
            Media(5, 5 + FLIPPED, Admitted),
            Vouch(B, true, Gone { mark: 0, epoch: 1 }),
            Publish(C, Gone { mark: 0, epoch: 1 }),
            Flush(Shows(Inconsistent, 16, 0, 0, 1 << 5)),
        ],
    },
    Script {
        name: "job given back and looks",
        hold: 0,
        steps: &[
            Block,
            Take(A, Some((0, Some(5)))),
            GiveBack(A, Done),
            Take(B, Some((0, Some(5)))),
            Look(C, 1, 9, Sight::Word),
            Look(B, 0, 5, Sight::Nothing),
            Publish(B, Done),
            Look(A, 1, 5, Sight::Word),
            Play(400, Shows(Repaired, 100, (1 << 100) - (1 << 16), 1 << 5, 0)),
            Look(C, 0, 5, Sight::Gone(100, 0)),
        ],
    },
    Script {
        name: "equation that does not come out",
        hold: 0,
        steps: &[
            Run(0, 8, 0),
            Parity(4, 1, 4, 4 + FLIPPED, Admitted),
            Take(A, Some((0, None))),
            Vouch(A, false, Done),
            // Nobody has to check it again.
            Take(B, None),
            Flush(Shows(Inconsistent, 8, 0, 0, 0)),
            Look(A, 0, 4, Sight::Gone(8, 1)),
            Run(8, 4, 0),
            Parity(8, 1, 4, 8, Admitted),
            Take(B, Some((1, None))),
            Vouch(B, true, Done),
        ],
    },
    Script {
        name: "words and checks by who keeps the job",
        hold: 0,
        steps: &[
            Block,
            Take(A, Some((0, Some(5)))),
            Offer(A, Done),
            Offer(A, Beaten(5)),
            Take(B, Some((1, None))),
            Attest(B, true, Done),
            // Both are handed out still.
            Take(C, None),
            GiveBack(A, Done),
            GiveBack(B, Done),
            // The other one was found to come out.
            Take(C, Some((0, None))),
            Take(A, None),
        ],
    },
];

#[test]
fn jobs_of_a_block(rt: HostRuntime) -> Result<(), Fail> {
    follow(&rt, rt.alloc(), &JOBS)
}
