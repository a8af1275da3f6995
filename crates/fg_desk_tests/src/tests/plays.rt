//! Plays: when one is due, what it shows, what it keeps, and which equations stay live.

use super::script::Step::{
    Due, Epoch, Flush, FlushInPlace, Flushed, Known, Live, Mark, Media, Parities, Parity, Place,
    Play, PlayInPlace, Plays, Run,
};
use super::script::follows;
use fg_desk::Outcome::{Inconsistent, Repaired};
use fg_desk::Reply::{Admitted, Conflict, Crowded, Duplicate, Late};
use std::test::Fail;

/// A word of which a payload bit is flipped.
const FLIPPED: u32 = 1 << 20;

#[test]
fn sequence_numbers_wrap(rt: HostRuntime) -> Result<(), Fail> {
    let script = [
        Media(65534, 0, Admitted),
        Media(65535, 1, Admitted),
        Media(1, 3, Admitted),
        Media(0, 2, Admitted),
        Flush(Repaired, 4, 0, 0, 0),
        Flushed,
    ];
    follows(&rt, rt.alloc(), 100, 400, &script)
}

#[test]
fn datagram_after_its_play(rt: HostRuntime) -> Result<(), Fail> {
    let script = [
        Run(0, 2, 0),
        Media(3, 3, Admitted),
        Due(4, true),
        Play(Repaired, 4, 0b0100, 0, 0),
        Due(4, false),
        Media(4, 4, Admitted),
        Media(2, 2, Late),
        // The second has a slot that isn't kept.
        Parity(3, 1, 2, 3, Admitted),
        Parity(2, 1, 3, 2, Late),
        Flush(Repaired, 1, 0, 0, 0),
        Flushed,
    ];
    follows(&rt, rt.alloc(), 4, 4, &script)
}

#[test]
fn as_many_equations_as_may_be_live(rt: HostRuntime) -> Result<(), Fail> {
    let script = [
        Media(0, 0, Admitted),
        Parities(1, 513, 1),
        Live(512),
        Parity(513, 1, 1, 513, Crowded),
        Parity(1, 1, 1, 1, Duplicate),
        Parity(1, 1, 1, 2, Conflict),
        Play(Repaired, 100, 0, (1 << 100) - 2, 0),
        Live(413),
        Parity(513, 1, 1, 513, Admitted),
        Live(414),
        Place(0, Some(513)),
        Place(1, None),
    ];
    follows(&rt, rt.alloc(), 100, 1000, &script)
}

#[test]
fn play_is_due_at_the_depth(rt: HostRuntime) -> Result<(), Fail> {
    let script = [
        Due(400, false),
        Media(0, 0, Admitted),
        Due(399, false),
        Due(400, true),
        Play(Repaired, 100, (1 << 100) - 2, 0, 0),
        Due(400, false),
        Mark(100),
    ];
    follows(&rt, rt.alloc(), 100, 400, &script)
}

#[test]
fn words_are_kept_at_a_hundred_positions(rt: HostRuntime) -> Result<(), Fail> {
    let script = [
        Run(0, 100, 0),
        Play(Repaired, 50, 0, 0, 0),
        Play(Repaired, 50, 0, 0, 0),
        Known(0, true, true),
        // Their last slots are the mark, and the position before it.
        Parity(1, 11, 10, 1, Admitted),
        Parity(0, 11, 10, 0, Late),
        Media(100, 100, Admitted),
        Play(Repaired, 50, (1 << 50) - 2, 0, 0),
        Known(49, false, false),
        Known(50, true, true),
        Known(100, true, true),
        Known(101, false, false),
    ];
    follows(&rt, rt.alloc(), 50, 100, &script)
}

#[test]
fn plays_that_copy_nothing(rt: HostRuntime) -> Result<(), Fail> {
    let script = [
        Run(0, 6, 0b10100),
        Parity(1, 1, 3, 1, Admitted),
        PlayInPlace(Repaired, 4),
        Known(1, true, true),
        Known(2, true, false),
        FlushInPlace(Repaired, 2),
        Known(4, false, false),
        Known(5, true, true),
        FlushInPlace(Repaired, 0),
    ];
    follows(&rt, rt.alloc(), 4, 8, &script)
}

#[test]
fn word_found_ahead_is_found_again(rt: HostRuntime) -> Result<(), Fail> {
    let script = [
        Run(0, 5, 0),
        Parity(3, 1, 3, 3, Admitted),
        Play(Repaired, 4, 0, 0, 0),
        Known(5, false, false),
        Known(4, true, true),
        Live(1),
        Flush(Repaired, 2, 0, 0b10, 0),
        Known(5, true, false),
        Flushed,
    ];
    follows(&rt, rt.alloc(), 4, 8, &script)
}

#[test]
fn word_found_ahead_comes(rt: HostRuntime) -> Result<(), Fail> {
    let script = [
        Run(0, 5, 0),
        Parity(3, 1, 3, 3, Admitted),
        Play(Repaired, 4, 0, 0, 0),
        Media(5, 5, Admitted),
        Play(Repaired, 4, 0b1100, 0, 0),
        Known(5, true, true),
        Live(0),
    ];
    follows(&rt, rt.alloc(), 4, 8, &script)
}

#[test]
fn another_word_comes_than_was_found_ahead(rt: HostRuntime) -> Result<(), Fail> {
    let script = [
        Run(0, 5, 0),
        Parity(3, 1, 3, 3, Admitted),
        Play(Repaired, 4, 0, 0, 0),
        Media(5, 5 + FLIPPED, Admitted),
        Media(5, 5, Conflict),
        Play(Inconsistent, 4, 0b1100, 0, 0b10),
        Epoch(1),
        Live(0),
        // The next window has nothing of that.
        Run(8, 4, 0b0010),
        Parity(8, 1, 4, 8, Admitted),
        Play(Repaired, 4, 0, 0b0010, 0),
        Epoch(1),
    ];
    follows(&rt, rt.alloc(), 4, 8, &script)
}

#[test]
fn inconsistent_play_shows_media_alone(rt: HostRuntime) -> Result<(), Fail> {
    let script = [
        Run(0, 8, 0b0000_1010),
        Parity(0, 1, 3, 0, Admitted),
        // Far ahead of the window.
        Parity(5, 1, 3, 5 + FLIPPED, Admitted),
        Play(Inconsistent, 4, 0b1010, 0, 0),
        Live(0),
        Known(0, true, true),
        Known(1, false, false),
        Play(Repaired, 4, 0, 0, 0),
        Epoch(1),
    ];
    follows(&rt, rt.alloc(), 4, 8, &script)
}

#[test]
fn equation_whose_last_slot_is_the_mark(rt: HostRuntime) -> Result<(), Fail> {
    let script = [
        Run(0, 4, 0),
        Parities(0, 2, 4),
        Play(Repaired, 4, 0, 0, 0),
        Live(1),
        Place(0, None),
        Place(1, Some(1)),
        Parity(2, 1, 3, 2, Admitted),
        Parity(1, 1, 3, 1, Late),
        Flush(Repaired, 1, 0, 1, 0),
        Live(0),
        Flushed,
    ];
    follows(&rt, rt.alloc(), 4, 8, &script)
}

#[test]
fn equation_whose_slot_stays_unknown(rt: HostRuntime) -> Result<(), Fail> {
    let script = [
        Run(0, 6, 0b0110),
        Parity(1, 1, 4, 1, Admitted),
        Parity(3, 1, 4, 3, Admitted),
        Play(Repaired, 4, 0b0110, 0, 0),
        Live(1),
        Place(0, None),
        Place(1, Some(3)),
    ];
    follows(&rt, rt.alloc(), 4, 8, &script)
}

#[test]
fn least_free_place_is_taken(rt: HostRuntime) -> Result<(), Fail> {
    let script = [
        Run(0, 5, 0),
        Parity(0, 1, 4, 0, Admitted),
        Parity(4, 1, 4, 4, Admitted),
        Parity(1, 1, 2, 1, Admitted),
        Play(Repaired, 4, 0, 0, 0),
        Place(0, None),
        Place(1, Some(4)),
        Place(2, None),
        Parities(5, 8, 4),
        Place(0, Some(5)),
        Place(2, Some(6)),
        Place(3, Some(7)),
        Place(4, None),
        Place(512, None),
    ];
    follows(&rt, rt.alloc(), 4, 8, &script)
}

#[test]
fn jumps_forth_and_back(rt: HostRuntime) -> Result<(), Fail> {
    let script = [
        Media(0, 0, Admitted),
        // Below position 0.
        Media(65535, 1, Late),
        Due(32768, false),
        Media(32768, 1, Late),
        Due(32767, true),
        Plays(32767),
        Mark(31_800),
        Media(32767, 32767, Admitted),
        Media(65535, 1, Late),
        Due(65534, true),
        Plays(65534),
        Media(65534, 65534, Admitted),
        // Back by half the numbers, and forth by one less.
        Due(32766, false),
        Media(32766, 32766, Late),
        Due(32765, true),
    ];
    follows(&rt, rt.alloc(), 100, 1000, &script)
}

#[test]
fn window_of_one_position(rt: HostRuntime) -> Result<(), Fail> {
    let script = [
        Media(0, 0, Admitted),
        Due(1, true),
        Play(Repaired, 1, 0, 0, 0),
        Parity(0, 1, 2, 0, Admitted),
        Due(2, true),
        Play(Repaired, 1, 0, 1, 0),
        Known(0, true, true),
        Known(1, true, false),
        Media(2, 2, Admitted),
        Flush(Repaired, 1, 0, 0, 0),
        Flushed,
        Mark(3),
    ];
    follows(&rt, rt.alloc(), 1, 1, &script)
}

#[test]
fn flush_of_an_empty_desk_and_to_a_recovered_word(rt: HostRuntime) -> Result<(), Fail> {
    let script = [
        Flushed,
        Mark(0),
        // The last word of all is a recovered one.
        Run(0, 5, 0),
        Parity(4, 1, 2, 4, Admitted),
        Parity(5, 2, 2, 5, Admitted),
        Flush(Repaired, 4, 0, 0, 0),
        Flush(Repaired, 4, 0b0100, 0b1010, 0),
        Flushed,
        Mark(8),
    ];
    follows(&rt, rt.alloc(), 4, 8, &script)
}
