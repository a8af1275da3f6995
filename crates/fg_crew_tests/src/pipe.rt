//! Numbers through three stages.
use fg_pipe::{Giver, Maker, Passes, Storer, run_three};
use std::alloc::{AllocError, Global};
use std::process::Abort;
use std::sync::Wait;
use std::thread::Threads;

/// Any number may go on, and each may come back.
#[derive(Clone, Copy)]
struct Number(u64);

impl Passes for Number {
    ghost allows = { λ _ _. Unit {0} };

    ghost blank = { λ _. Unit {0} };
}

/// Counts to a number.
#[derive(Drop)]
struct Counter {
    next: u64,
    end: u64,
}

impl Giver<Number, ()> for Counter {
    ghost use Rattle.std.specs.Prelude.{◌≤◌};

    ghost gave = { λ _ _ _ _ _. Unit {0} };

    ghost over = { λ counter. counter.end ≤ counter.next };

    fn is_over(&self) -> bool {
        self.next >= self.end
    }

    fn give(&mut self, _from: &mut (), into: &mut Number) {
        into.0 = self.next;
        self.next += 1;
    }
}

/// Doubles numbers, and stops at one.
#[derive(Drop)]
struct Doubler {
    stops_at: u64,
    stopped: bool,
}

impl Maker<Number, Number> for Doubler {
    ghost use Rattle.std.specs.Prelude.{◌≡◌, true};

    ghost turned = { λ _ _ _ _. Unit {0} };

    ghost stopped = { λ doubler. doubler.stopped ≡ true };

    fn is_stopped(&self) -> bool {
        self.stopped
    }

    fn turn(&mut self, item: &mut Number, into: &mut Number) -> bool {
        if item.0 == self.stops_at {
            self.stopped = true;
            return false;
        }
        into.0 = item.0 % 1_000_000 * 2;
        true
    }
}

/// Adds numbers up, and breaks off at one.
#[derive(Drop)]
struct Adder {
    breaks_at: u64,
    broken: bool,
}

impl Storer<Number, u64> for Adder {
    ghost use Rattle.std.specs.Prelude.{◌≡◌, true};

    ghost stored = { λ _ _ _ _ _. Unit {0} };

    ghost broken = { λ adder. adder.broken ≡ true };

    fn is_broken(&self) -> bool {
        self.broken
    }

    fn store(&mut self, to: &mut u64, item: &mut Number) -> bool {
        if item.0 == self.breaks_at {
            self.broken = true;
            return false;
        }
        *to = to.wrapping_add(item.0);
        true
    }
}

/// The sum, where the maker stops at one number, and the storer breaks off at another.
fn sum_of<W: Threads + Wait + Sync>(
    rt: &W,
    alloc: Global,
    stops_at: u64,
    breaks_at: u64,
) -> Result<(u64, bool), AllocError> {
    let mut counter = Counter { next: 0, end: 100 };
    let mut doubler = Doubler {
        stops_at,
        stopped: false,
    };
    let mut adder = Adder {
        breaks_at,
        broken: false,
    };
    let mut sum = 0;
    run_three(
        rt,
        alloc,
        vec![in alloc; Number(0); 4]?,
        vec![in alloc; Number(0); 4]?,
        &mut counter,
        &mut (),
        &mut doubler,
        &mut adder,
        &mut sum,
    )?;
    Ok((sum, counter.is_over()))
}

#[test]
fn all_goes_through(rt: HostRuntime) -> Result<(), AllocError> {
    let (sum, over) = sum_of(&rt, rt.alloc(), 200, 1_000)?;
    assert_eq!(rt; sum, 9_900);
    assert!(rt; over);
    Ok(())
}

#[test]
fn what_was_made_before_a_stop_is_stored(rt: HostRuntime) -> Result<(), AllocError> {
    let (sum, _) = sum_of(&rt, rt.alloc(), 50, 1_000)?;
    assert_eq!(rt; sum, 2_450);
    Ok(())
}

#[test]
fn nothing_is_stored_after_a_break(rt: HostRuntime) -> Result<(), AllocError> {
    let (sum, _) = sum_of(&rt, rt.alloc(), 200, 60)?;
    assert_eq!(rt; sum, 870);
    Ok(())
}
