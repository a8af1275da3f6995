//! Words that wait no longer than a stated time: how it is told, and what is played for it.

use super::runs::{media_at, row_at, run_of};
use super::script::Step::{
    Epoch, Flushed, Held, HeldInPlace, HoldsBy, Live, Mark, Media, Parity, Playout, Run,
};
use super::script::{follows, follows_within, word_of};
use fg_desk::Outcome::{Inconsistent, Repaired};
use fg_desk::Reply::{Admitted, Late};
use fg_plain::{Datagram, ShownPlay};
use fg_shape::Kind;
use std::alloc::Global;
use std::process::Abort;
use std::test::Fail;

/// A word of which a payload bit is flipped.
const FLIPPED: u32 = 1 << 20;

/// A play that is wanted: its first position, how many it shows, which of them show no word, and which show
/// a repaired one. The words have the positions' numbers.
#[derive(Clone, Copy)]
struct Wanted(u64, usize, u32, u32);

fn is_wanted(play: &ShownPlay, want: Wanted) -> bool {
    let Wanted(first, count, missing, repaired) = want;
    if play.first != first || play.shown.len() != count || play.outcome != Repaired {
        return false;
    }
    for (i, shown) in play.shown.iter().enumerate() {
        let i = (i % 32) as u32;
        let is_missing = missing >> i & 1 == 1;
        let right = match shown.word {
            Some(word) => !is_missing && word.same(&word_of((first % 1000) as u32 + i)),
            None => is_missing,
        };
        if !right || shown.repaired != (repaired >> i & 1 == 1) {
            return false;
        }
    }
    true
}

/// Datagrams are run with this hold, and these are the plays.
fn runs(
    rt: &impl Abort,
    alloc: Global,
    hold: u64,
    datagrams: &[Datagram],
    want: &[Wanted],
) -> Result<(), Fail> {
    let run = run_of(rt, alloc, 8, hold, datagrams)?;
    plays(rt, &run.plays, want)
}

fn plays(rt: &impl Abort, plays: &[ShownPlay], want: &[Wanted]) -> Result<(), Fail> {
    assert_eq!(rt; plays.len(), want.len());
    for (i, (play, want)) in plays.iter().zip(want.iter()).enumerate() {
        assert!(rt; is_wanted(play, *want), "play {i}");
    }
    Ok(())
}

/// Datagrams are run with a hold of 1000, and so many of them are late, and so many runs begun.
fn counts(
    rt: &impl Abort,
    alloc: Global,
    datagrams: &[Datagram],
    late: u64,
    runs: u64,
) -> Result<(), Fail> {
    let run = run_of(rt, alloc, 8, 1000, datagrams)?;
    let came_late = run.count(datagrams, Kind::Media, Some(Late));
    assert!(rt; came_late == late && run.runs == runs);
    Ok(())
}

#[test]
fn words_wait_for_a_stated_time(rt: HostRuntime) -> Result<(), Fail> {
    let [a, b, c, d] = [
        media_at(0, 0, 0),
        media_at(500, 1, 0),
        media_at(900, 3, 0),
        media_at(1500, 4, 0),
    ];
    let in_time = [a, b, c, d, media_at(1600, 2, 0)];
    let two_plays = [Wanted(0, 2, 0, 0), Wanted(2, 3, 0, 0)];
    runs(&rt, rt.alloc(), 1000, &in_time, &two_plays)?;
    let too_late = [a, b, c, d, media_at(1900, 2, 0)];
    let three_plays = [
        Wanted(0, 2, 0, 0),
        Wanted(2, 2, 0b01, 0),
        Wanted(4, 1, 0, 0),
    ];
    runs(&rt, rt.alloc(), 1000, &too_late, &three_plays)?;
    counts(&rt, rt.alloc(), &too_late, 1, 1)?;
    let flushed = [Wanted(0, 4, 0, 0), Wanted(4, 1, 0, 0)];
    runs(&rt, rt.alloc(), 0, &too_late, &flushed)
}

#[test]
fn times_of_all_kinds(rt: HostRuntime) -> Result<(), Fail> {
    let back = [
        media_at(2000, 0, 0),
        media_at(500, 1, 0),
        media_at(2999, 2, 0),
        media_at(3000, 3, 0),
    ];
    let two_and_two = [Wanted(0, 2, 0, 0), Wanted(2, 2, 0, 0)];
    runs(&rt, rt.alloc(), 1000, &back, &two_and_two)?;
    let all_at_once = [media_at(5, 0, 0), media_at(5, 1, 0), media_at(5, 2, 0)];
    runs(&rt, rt.alloc(), 1, &all_at_once, &[Wanted(0, 3, 0, 0)])?;
    let next = [
        media_at(5, 0, 0),
        media_at(5, 1, 0),
        media_at(6, 2, 0),
        media_at(7, 3, 0),
    ];
    let three_plays = [Wanted(0, 2, 0, 0), Wanted(2, 1, 0, 0), Wanted(3, 1, 0, 0)];
    runs(&rt, rt.alloc(), 1, &next, &three_plays)?;
    let greatest = [
        media_at(0, 0, 0),
        media_at(1, 1, 0),
        media_at(u64::MAX, 2, 0),
    ];
    let one_and_two = [Wanted(0, 1, 0, 0), Wanted(1, 2, 0, 0)];
    runs(&rt, rt.alloc(), u64::MAX, &greatest, &one_and_two)?;
    // Time and hold together are past 64 bits.
    let at_the_end = [media_at(u64::MAX, 0, 0), media_at(u64::MAX, 1, 0)];
    runs(&rt, rt.alloc(), 1, &at_the_end, &[Wanted(0, 2, 0, 0)])
}

#[test]
fn any_datagram_tells_its_time(rt: HostRuntime) -> Result<(), Fail> {
    let more_than_a_window = [media_at(0, 0, 0), media_at(0, 6, 0), media_at(1, 7, 0)];
    let three_plays = [
        Wanted(0, 4, 0b1110, 0),
        Wanted(4, 3, 0b011, 0),
        Wanted(7, 1, 0, 0),
    ];
    runs(&rt, rt.alloc(), 1, &more_than_a_window, &three_plays)?;
    let refused_and_parity = [
        media_at(0, 0, 0),
        media_at(0, 1, 0),
        Datagram::Refused {
            time: 1000,
            stream: Kind::Column,
        },
        media_at(500, 2, 0),
        row_at(2000, 2),
    ];
    // The row comes after the play of its first word, and gives the second.
    let row_last = [Wanted(0, 2, 0, 0), Wanted(2, 1, 0, 0), Wanted(3, 1, 0, 0b1)];
    runs(&rt, rt.alloc(), 1000, &refused_and_parity, &row_last)?;
    let restart = [
        media_at(0, 0, 1),
        media_at(500, 1, 1),
        media_at(600, 3, 1),
        media_at(1500, 4, 2),
    ];
    let held_then_flushed = [
        Wanted(0, 2, 0, 0),
        Wanted(2, 2, 0b01, 0),
        Wanted(4, 1, 0, 0),
    ];
    runs(&rt, rt.alloc(), 1000, &restart, &held_then_flushed)?;
    counts(&rt, rt.alloc(), &restart, 0, 2)
}

#[test]
fn held_steps_play_what_waits(rt: HostRuntime) -> Result<(), Fail> {
    let script = [
        HeldInPlace(500, Repaired, 0),
        Run(0, 3, 0b010),
        Parity(0, 1, 3, 0, Admitted),
        // It gives the word at 3, which no one waits for.
        Parity(2, 1, 2, 2, Admitted),
        HeldInPlace(1499, Repaired, 0),
        Held(1500, Repaired, 3, 0, 0b010, 0),
        HeldInPlace(1500, Repaired, 0),
        Mark(3),
        Media(3, 3 + FLIPPED, Admitted),
        HeldInPlace(2500, Inconsistent, 1),
        Epoch(1),
        Live(0),
        HeldInPlace(u64::MAX, Repaired, 0),
        Flushed,
    ];
    follows_within(&rt, rt.alloc(), 4, 8, 1000, &script)
}

#[test]
fn held_steps_are_foretold(rt: HostRuntime) -> Result<(), Fail> {
    let script = [
        Playout(4, 8),
        HoldsBy(u64::MAX, 0),
        Run(0, 7, 0b010_0000),
        HoldsBy(999, 0),
        // All seven have waited then, and a play has a window.
        HoldsBy(1000, 4),
        HeldInPlace(1000, Repaired, 4),
        // A time that goes back.
        HoldsBy(0, 3),
        HeldInPlace(0, Repaired, 3),
        HoldsBy(u64::MAX, 0),
        // It comes at 1000.
        Media(8, 8, Admitted),
        HoldsBy(1999, 0),
        HoldsBy(2000, 2),
    ];
    follows_within(&rt, rt.alloc(), 4, 8, 1000, &script)?;
    let for_ever = [Run(0, 7, 0), HoldsBy(u64::MAX, 0)];
    follows(&rt, rt.alloc(), 4, 8, &for_ever)
}
