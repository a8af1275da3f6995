//! Random turns of a board's admitter and its three passes, beside a desk alone.

use super::admit::Window;
use super::arriving::{
    both_flush_on, both_start, both_take_media, both_take_parity, both_take_run, one_of,
};
use super::both::{Both, Came, Event, Odds, both_play, both_play_some, new_both};
use super::scene::{Scene, Way, Who};
use fg_board::{Fate, Look};
use fg_desk::Desk;
use rand_core::utils::NextWord;
use rand_pcg::Pcg32;
use std::alloc::{AllocError, Global};
use std::process::Abort;
use std::sync::Wait;
use std::test::Fail;

/// The generator's state at first.
const SEED: u64 = 2022;

/// How many flows there are.
const FLOWS: u32 = 30;

/// How many steps a flow has before it is flushed.
const STEPS: u32 = 240;

/// Both pass windows that are held plays, or make one, at a time that may go back. Whether they agree.
fn both_hold_some(
    wait: &impl Wait,
    both: &mut Both,
    random: &mut Pcg32,
) -> Result<bool, AllocError> {
    let time = both.time.saturating_add(one_of(random, 40));
    both.time = time.saturating_sub(10);
    both_play_some(wait, both, Window::Held(both.time))
}

/// A pass looks at a position near the mark. Whether it is shown what the desk alone has there, or a word that was solved.
fn look_agrees(wait: &impl Wait, both: &mut Both, who: Who, random: &mut Pcg32) -> bool {
    let serial = one_of(random, both.scene.admitted() as u64);
    let slot = both
        .desk
        .mark()
        .saturating_add(one_of(random, 30))
        .saturating_sub(10);
    let Some(look) = both.scene.look(wait, who, serial as usize, slot) else {
        return true;
    };
    match (look, both.desk.word(slot)) {
        (Look::Known(word), Some(other)) => word.same(other),
        (Look::Known(_), None) => slot >= both.desk.mark(),
        (Look::Unknown, alone) => alone.is_none(),
        (Look::Gone { mark, epoch }, _) => {
            mark == both.desk.mark() && epoch >= both.desk.epoch()
        }
    }
}

/// Notes what a pass was answered. Whether it tells the mark and the epoch as they are.
fn note(came: &mut Came, desk: &Desk, fate: Option<Fate>) -> bool {
    match fate {
        Some(Fate::Done) => came[Event::Done as usize] = true,
        Some(Fate::Beaten(_)) => came[Event::Beaten as usize] = true,
        Some(Fate::Gone { mark, epoch }) => {
            came[Event::Gone as usize] = true;
            if epoch > desk.epoch() {
                came[Event::Withdrawn as usize] = true;
            }
            return mark == desk.mark() && epoch >= desk.epoch();
        }
        None => return false,
    }
    true
}

fn pass_of(number: u32) -> Who {
    match number % 3 {
        0 => Who::A,
        1 => Who::B,
        _ => Who::C,
    }
}

/// A pass that has a job gives it back or does it.
fn end_job(
    wait: &impl Wait,
    scene: &mut Scene,
    who: Who,
    kind: u32,
) -> Result<Option<Fate>, AllocError> {
    if kind == 4 {
        return Ok(scene.give_back(wait, who));
    }
    let way = if kind < 7 { Way::Keeping } else { Way::Ending };
    Ok(scene.bring(wait, who, way)?.map(|brought| brought.fate))
}

/// One turn of a pass, which is of no effect on what the admitter is answered.
fn pass_goes_on(wait: &impl Wait, both: &mut Both, random: &mut Pcg32) -> Result<bool, AllocError> {
    let who = pass_of(random.next_word());
    let kind = random.next_word() % 16;
    if kind < 3 {
        return Ok(look_agrees(wait, both, who, random));
    }
    // Now and then a job is forgotten.
    if kind == 3 || !both.scene.is_busy(who) {
        both.scene.take(wait, who)?;
        return Ok(true);
    }
    let fate = end_job(wait, &mut both.scene, who, kind)?;
    Ok(note(&mut both.came, &both.desk, fate))
}

/// One step of the admitter, and of the desk alone. Whether they agree.
fn admitter_goes_on(
    wait: &impl Wait,
    both: &mut Both,
    random: &mut Pcg32,
    kind: u32,
) -> Result<bool, AllocError> {
    if kind < 10 {
        both_take_media(wait, both, random)
    } else if kind < 13 || !both.odds.parity {
        both_take_run(wait, both, random)
    } else {
        both_take_parity(wait, both, random)
    }
}

/// One step. Whether board and desk agree.
fn go_on(wait: &impl Wait, both: &mut Both, random: &mut Pcg32) -> Result<bool, AllocError> {
    let kind = random.next_word() % 40;
    if kind == 39 {
        both_play(wait, both, Window::Rest)
    } else if kind > 35 {
        both_hold_some(wait, both, random)
    } else if kind < 21 {
        admitter_goes_on(wait, both, random, kind)
    } else {
        pass_goes_on(wait, both, random)
    }
}

fn steps(rt: &(impl Abort + Wait), both: &mut Both, random: &mut Pcg32) -> Result<(), Fail> {
    for i in 0..STEPS {
        assert!(rt; go_on(rt, both, random)?, "step {i}");
    }
    Ok(())
}

/// A window: mostly a small one.
fn drawn_window(random: &mut Pcg32) -> u32 {
    if one_of(random, 4) == 0 {
        1 + random.next_word() % 100
    } else {
        1 + random.next_word() % 10
    }
}

/// A depth for a window: a small one, or any.
fn drawn_depth(random: &mut Pcg32, window: u32) -> u32 {
    let more = if one_of(random, 4) == 0 {
        random.next_word() % 1000
    } else {
        random.next_word() % 20
    };
    window.saturating_add(more).min(1000)
}

/// What a flow loses, how seldom its words are wrong, and whether it has parity.
fn drawn_odds(random: &mut Pcg32) -> Odds {
    let wrong = if one_of(random, 3) == 0 { 1000 } else { 8 };
    Odds {
        loss: random.next_word() % 51,
        wrong,
        parity: one_of(random, 4) != 0,
    }
}

/// Both start, take steps and flush at last. How many runs were begun on each.
fn try_both(
    rt: &(impl Abort + Wait),
    both: &mut Both,
    came: &mut Came,
    random: &mut Pcg32,
) -> Result<u64, Fail> {
    assert!(rt; both_start(rt, both)?);
    steps(rt, both, random)?;
    assert!(rt; both_flush_on(rt, both, random)? && both.scene.runs() == both.desk.runs());
    *came = both.came;
    Ok(both.scene.runs())
}

/// Steps of a new board and a new desk. How many runs were begun.
fn try_flow(
    rt: &(impl Abort + Wait),
    alloc: Global,
    came: &mut Came,
    random: &mut Pcg32,
) -> Result<u64, Fail> {
    let window = drawn_window(random);
    let depth = drawn_depth(random, window);
    let hold = u64::from(random.next_word() % 4 * 20);
    assert!(rt; 1 <= window && window <= 100 && window <= depth && depth <= 1000);
    let mut both = new_both(alloc, window, depth, hold, drawn_odds(random), *came)?;
    try_both(rt, &mut both, came, random)
}

/// All flows. Each event comes, and runs are begun beside the first one of each flow.
fn try_flows(rt: &(impl Abort + Wait), alloc: Global, random: &mut Pcg32) -> Result<(), Fail> {
    let mut came = [false; 8];
    let mut runs = 0u64;
    for _ in 0..FLOWS {
        runs = runs.saturating_add(try_flow(rt, alloc, &mut came, random)?);
    }
    for (event, came) in came.iter().enumerate() {
        assert!(rt; *came, "event {event}");
    }
    assert!(rt; runs > u64::from(FLOWS));
    Ok(())
}

#[test]
fn random_turns(rt: HostRuntime) -> Result<(), Fail> {
    let mut random = Pcg32::new(SEED, 7);
    try_flows(&rt, rt.alloc(), &mut random)
}
