//! Windows that show nothing: played at once they leave what they leave when they are played one by one.

use super::script::Step::{
    Due, Flush, Flushed, Held, HoldsBy, Known, Live, Mark, Media, Parity, Play, Plays, Run,
    SkipDue, SkipHeld, SkipRest,
};
use super::script::{follows, follows_within};
use fg_desk::Outcome::Repaired;
use fg_desk::Reply::{Admitted, Late};
use std::test::Fail;

#[test]
fn due_windows(rt: HostRuntime) -> Result<(), Fail> {
    let (first, played) = (Run(0, 2, 0), Play(Repaired, 3, 0b100, 0, 0));
    let [due, marked] = [Due(40, false), Mark(36)];
    let [kept, lost] = [Known(1, true, true), Known(2, false, false)];
    let [next, last] = [Media(40, 40, Admitted), Media(35, 35, Late)];
    let [flushed, all] = [Flush(Repaired, 2, 0b01, 0, 0), Flushed];
    let empty = Flush(Repaired, 3, 0b111, 0, 0);
    let one_by_one = [
        first,
        played,
        Plays(40),
        due,
        marked,
        kept,
        lost,
        next,
        last,
        empty,
        flushed,
        all,
    ];
    follows(&rt, rt.alloc(), 3, 6, &one_by_one)?;
    let at_once = [
        SkipDue(0, 0),
        first,
        SkipDue(40, 0),
        played,
        SkipDue(40, 11),
        SkipDue(40, 0),
        due,
        marked,
        kept,
        lost,
        next,
        last,
        SkipRest(1),
        SkipRest(0),
        flushed,
        all,
        SkipRest(0),
    ];
    follows(&rt, rt.alloc(), 3, 6, &at_once)
}

#[test]
fn windows_past_all_that_is_kept(rt: HostRuntime) -> Result<(), Fail> {
    let script = [
        Run(0, 2, 0),
        Play(Repaired, 3, 0b100, 0, 0),
        // The marks of those due are 3 to 96: one more leaves the word at 0 no more kept.
        SkipDue(102, 32),
        Mark(99),
        Known(0, true, true),
        SkipDue(105, 1),
        Mark(102),
        Known(0, false, false),
        Known(1, false, false),
        SkipDue(30_000, 9965),
        Mark(29_997),
        Due(30_000, false),
        Media(30_000, 30_000, Admitted),
        Play(Repaired, 3, 0b111, 0, 0),
        SkipRest(0),
        Flush(Repaired, 1, 0, 0, 0),
        Flushed,
    ];
    follows(&rt, rt.alloc(), 3, 6, &script)
}

#[test]
fn held_windows(rt: HostRuntime) -> Result<(), Fail> {
    let (first, played) = (Media(0, 0, Admitted), Play(Repaired, 3, 0b110, 0, 0));
    let next = Media(20, 20, Admitted);
    let empty = Held(1000, Repaired, 3, 0b111, 0, 0);
    let last = Held(1000, Repaired, 3, 0b011, 0, 0);
    let [kept, marked] = [Known(0, true, true), Mark(21)];
    let one_by_one = [
        first, played, next, empty, empty, empty, empty, empty, last, kept, marked,
    ];
    follows_within(&rt, rt.alloc(), 3, 30, 1000, &one_by_one)?;
    // The time is told with the windows, and not where there are none.
    let [not_told, told] = [HoldsBy(0, 0), HoldsBy(0, 3)];
    let at_once = [
        first,
        SkipHeld(1000, 0),
        played,
        next,
        SkipHeld(999, 0),
        not_told,
        SkipHeld(1000, 5),
        told,
        SkipHeld(1000, 0),
        last,
        kept,
        marked,
    ];
    follows_within(&rt, rt.alloc(), 3, 30, 1000, &at_once)
}

#[test]
fn windows_under_a_live_equation(rt: HostRuntime) -> Result<(), Fail> {
    let script = [
        Run(0, 3, 0),
        Parity(6, 1, 4, 6, Admitted),
        Play(Repaired, 3, 0, 0, 0),
        Live(1),
        SkipDue(40, 0),
        Play(Repaired, 3, 0b111, 0, 0),
        SkipDue(40, 0),
        Play(Repaired, 3, 0b111, 0, 0),
        Live(0),
        SkipDue(40, 9),
        Mark(36),
    ];
    follows(&rt, rt.alloc(), 3, 6, &script)
}
