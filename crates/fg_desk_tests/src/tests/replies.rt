//! The replies to datagrams.

use super::script::Step::{
    Due, Flush, Flushed, From, Known, Live, Mark, Media, Parity, Play, Senders,
};
use super::script::follows;
use fg_desk::Outcome::Repaired;
use fg_desk::Reply::{
    Admitted, Ahead, BeforeStart, Conflict, Duplicate, Foreign, Late, NotStarted,
};
use std::test::Fail;

/// A word of which a payload bit is flipped.
const FLIPPED: u32 = 1 << 20;

#[test]
fn replies_to_parities(rt: HostRuntime) -> Result<(), Fail> {
    let script = [
        Parity(99, 1, 4, 0, NotStarted),
        Media(100, 0, Admitted),
        Parity(99, 1, 4, 0, BeforeStart),
        Parity(581, 1, 20, 0, Ahead),
        Parity(580, 1, 20, 0, Admitted),
        Parity(580, 1, 20, 0, Duplicate),
        Parity(580, 1, 20, FLIPPED, Conflict),
        // Another offset, and another count.
        Parity(580, 1, 19, 0, Admitted),
        Parity(480, 5, 20, 0, Admitted),
        Parity(480, 4, 20, 0, Admitted),
        Live(4),
    ];
    follows(&rt, rt.alloc(), 100, 400, &script)
}

#[test]
fn replies_to_media(rt: HostRuntime) -> Result<(), Fail> {
    let script = [
        Media(7, 0, Admitted),
        Media(7, 0, Duplicate),
        Media(7, FLIPPED, Conflict),
        Media(6, 1, Late),
        Play(Repaired, 4, 0b1110, 0, 0),
        Media(7, 0, Late),
        Media(10, 3, Late),
        Media(11, 4, Admitted),
    ];
    follows(&rt, rt.alloc(), 4, 8, &script)
}

#[test]
fn replies_by_sender(rt: HostRuntime) -> Result<(), Fail> {
    let script = [
        Media(10, 0, Admitted),
        Media(12, 2, Admitted),
        Parity(13, 1, 2, 3, Admitted),
        Flush(Repaired, 3, 0b010, 0, 0),
        Flushed,
        Live(1),
        Senders(Some(0), None, 1),
        // A run begins at the mark, without that equation. The kept words stay.
        From(1, 500, 3, Admitted),
        Live(0),
        Mark(3),
        Known(2, true, true),
        Known(3, true, true),
        Senders(Some(1), Some(0), 2),
        Parity(499, 1, 2, 2, BeforeStart),
        Media(13, 4, Foreign),
        Due(511, false),
        From(1, 501, 4, Admitted),
        From(1, 499, 2, Late),
        Flush(Repaired, 2, 0, 0, 0),
        From(2, 7, 5, Admitted),
        Flush(Repaired, 1, 0, 0, 0),
        // The first sender is fresh again.
        Media(40, 6, Admitted),
        Senders(Some(0), Some(2), 4),
    ];
    follows(&rt, rt.alloc(), 4, 8, &script)
}

#[test]
fn farthest_slot_of_an_equation(rt: HostRuntime) -> Result<(), Fail> {
    let script = [
        Media(0, 0, Admitted),
        Parity(107, 1, 1, 0, Admitted),
        Parity(108, 1, 1, 0, Ahead),
        Play(Repaired, 4, 0b1110, 0, 0),
        Parity(111, 1, 1, 0, Admitted),
        Parity(112, 1, 1, 0, Ahead),
        Parity(13, 11, 10, 0, Ahead),
        Parity(12, 11, 10, 0, Admitted),
    ];
    follows(&rt, rt.alloc(), 4, 8, &script)
}
