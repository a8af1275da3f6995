//! Holds by example.
ghost use Rattle.std.specs.Prelude.{◌≡◌};

use crate::Waiting;
use std::process::Abort;
use std::test::Fail;

/// Passes these times one after another, and compares what is held at each.
fn passes(rt: &impl Abort, waiting: &mut Waiting, mark: u64, times: &[(u64, Option<u64>)])
    ensures { waiting.new.hold ≡ waiting.old.hold }
{
    for (time, held) in times {
        assert_eq!(rt; waiting.pass_time(*time, mark), *held, "at {time}");
    }
}

/// Compares what will be held at each of these times.
fn will_hold(rt: &impl Abort, waiting: &Waiting, mark: u64, times: &[(u64, Option<u64>)]) {
    for (time, held) in times {
        assert_eq!(rt; waiting.held_by(*time, mark), *held, "at {time}");
    }
}

// Times are in microseconds, and words are held for 10 of them.
#[test]
fn times_that_go_back(rt: HostRuntime) -> Result<(), Fail> {
    let mut waiting = Waiting::new(rt.alloc(), 10)?;
    passes(&rt, &mut waiting, 0, &[(100, None)]);
    waiting.put(3);
    passes(&rt, &mut waiting, 0, &[(50, None)]);
    assert_eq!(rt; waiting.clock(), 100);
    // It came at 100.
    waiting.put(4);
    will_hold(&rt, &waiting, 0, &[(109, None), (110, Some(4))]);
    passes(&rt, &mut waiting, 0, &[(109, None), (110, Some(4))]);
    Ok(())
}

#[test]
fn words_out_of_order(rt: HostRuntime) -> Result<(), Fail> {
    let mut waiting = Waiting::new(rt.alloc(), 10)?;
    waiting.put(5);
    waiting.pass_time(3, 0);
    // Below 5, which has waited longer.
    waiting.put(2);
    waiting.pass_time(4, 0);
    waiting.put(8);
    // 8 came at 4, and 5 at 0.
    will_hold(&rt, &waiting, 0, &[(9, None), (13, Some(5)), (14, Some(8))]);
    will_hold(&rt, &waiting, 9, &[(14, None)]);
    passes(&rt, &mut waiting, 0, &[(10, Some(5)), (13, Some(5))]);
    // A time that goes back: the clock is 13.
    will_hold(&rt, &waiting, 0, &[(0, Some(5))]);
    passes(&rt, &mut waiting, 0, &[(14, Some(8))]);
    Ok(())
}

#[test]
fn marks_past_highs(rt: HostRuntime) -> Result<(), Fail> {
    let mut waiting = Waiting::new(rt.alloc(), 10)?;
    waiting.put(0);
    waiting.pass_time(1, 0);
    waiting.put(1);
    waiting.put(2);
    waiting.pass_time(2, 0);
    waiting.put(9);
    waiting.advance(2);
    // 2 came at 1, and 9 at 2.
    passes(
        &rt,
        &mut waiting,
        2,
        &[(10, None), (11, Some(2)), (12, Some(9))],
    );
    waiting.advance(1024);
    passes(&rt, &mut waiting, 1024, &[(1000, None)]);
    // It has the slot of 9.
    waiting.put(1033);
    passes(&rt, &mut waiting, 1024, &[(1009, None), (1010, Some(1033))]);
    Ok(())
}

#[test]
fn the_greatest_hold_and_time(rt: HostRuntime) -> Result<(), Fail> {
    let mut waiting = Waiting::new(rt.alloc(), u64::MAX)?;
    waiting.put(0);
    passes(&rt, &mut waiting, 0, &[(u64::MAX - 1, None)]);
    waiting.put(7);
    passes(&rt, &mut waiting, 0, &[(u64::MAX, Some(0))]);
    waiting.advance(1);
    passes(&rt, &mut waiting, 1, &[(u64::MAX, None)]);
    Ok(())
}
