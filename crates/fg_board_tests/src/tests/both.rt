//! A board, and a desk that takes the same: what both play, pass and show.

ghost use Rattle.std.specs.Prelude.{◌≤◌};

use super::admit::Window;
use super::bare;
use super::bare::same_plays;
use super::scene::Scene;
use fg_desk::{Desk, Outcome, Played, Tray};
use rand_core::utils::NextWord;
use rand_pcg::Pcg32;
use std::alloc::{AllocError, Global};
use std::sync::Wait;

/// The sequence number of position 0 in the first run.
pub(super) const FIRST: u16 = 65_500;

/// What can come of a step.
#[derive(Clone, Copy)]
pub(super) enum Event {
    Done,
    Beaten,
    Gone,
    /// Gone, since a word that was solved was contradicted.
    Withdrawn,
    Foreign,
    /// A held play.
    Held,
    /// Windows that were passed at once.
    Passed,
    Inconsistent,
}

/// Which of the events came, by their numbers.
pub(super) type Came = [bool; 8];

/// What is drawn for a flow.
#[derive(Clone, Copy)]
pub(super) struct Odds {
    /// How many of a hundred datagrams that follow one another are lost.
    pub loss: u32,
    /// One of so many datagrams has another word than was sent.
    pub wrong: u32,
    /// Whether parity datagrams come.
    pub parity: bool,
}

/// A board, and a desk that takes the same.
#[derive(Drop)]
pub(super) struct Both {
    pub scene: Scene,
    pub desk: Desk,
    pub depth: u32,
    /// The SSRC of the current run, and the sequence number that position 0 has in it.
    pub ssrc: u32,
    pub first: u16,
    /// The time that was told last, in microseconds.
    pub time: u64,
    pub odds: Odds,
    pub came: Came,
}

/// A new board and a new desk.
pub(super) fn new_both(
    alloc: Global,
    window: u32,
    depth: u32,
    hold: u64,
    odds: Odds,
    came: Came,
) -> Result<Both, AllocError>
    requires window { (1 ≤ window) × (window ≤ 100) }
    requires depth { (window ≤ depth) × (depth ≤ 1000) }
{
    let desk = Desk::new(alloc, window, depth, hold)?;
    let scene = Scene::new(alloc, window, depth, hold)?;
    Ok(Both {
        scene,
        desk,
        depth,
        ssrc: 0,
        first: FIRST,
        time: 0,
        odds,
        came,
    })
}

/// Whether a play shows no word at as many positions as a window has.
fn is_nothing(done: &Option<(Played, Tray)>, window: u32) -> bool {
    let Some((played, tray)) = done else {
        return false;
    };
    if played.count != window || played.verdict != Outcome::Repaired {
        return false;
    }
    for i in 0..100u32 {
        if tray.word(i).is_some() {
            return false;
        }
    }
    true
}

/// The desk alone plays as many windows as were passed. Whether each shows nothing.
fn alone_plays(both: &mut Both, window: Window, count: u64) -> Result<bool, AllocError> {
    for _ in 0..count {
        let done = bare::play(&mut both.desk, both.scene.alloc(), window)?;
        if !is_nothing(&done, both.desk.window()) {
            return Ok(false);
        }
    }
    Ok(true)
}

/// Notes windows that were passed. Whether board and desk have one mark.
fn have_passed(both: &mut Both, count: u64) -> bool {
    if count > 0 {
        both.came[Event::Passed as usize] = true;
    }
    both.scene.mark() == both.desk.mark()
}

/// Whether a play was made, and was inconsistent.
fn is_inconsistent(done: &Option<(Played, Tray)>) -> bool {
    match done {
        Some((played, _)) => played.verdict == Outcome::Inconsistent,
        None => false,
    }
}

/// Notes a play. Whether it is the same for both, or neither made it.
fn have_played(
    both: &mut Both,
    shared: &Option<(Played, Tray)>,
    alone: &Option<(Played, Tray)>,
) -> bool {
    if is_inconsistent(shared) {
        both.came[Event::Inconsistent as usize] = true;
    }
    same_plays(shared, alone)
}

/// The desk alone plays a window that the board has played so. Whether they agree, and there is one where it is to be due.
fn alone_agrees(
    both: &mut Both,
    window: Window,
    shared: &Option<(Played, Tray)>,
) -> Result<bool, AllocError> {
    let alone = bare::play(&mut both.desk, both.scene.alloc(), window)?;
    match window {
        Window::Due(..) if shared.is_none() => return Ok(false),
        Window::Held(_) if shared.is_some() => both.came[Event::Held as usize] = true,
        _ => {}
    }
    Ok(have_played(both, shared, &alone))
}

/// Both play a window. Whether they agree, and there is one where it is to be due.
pub(super) fn both_play(
    wait: &impl Wait,
    both: &mut Both,
    window: Window,
) -> Result<bool, AllocError> {
    let shared = both.scene.play(wait, window)?;
    alone_agrees(both, window, &shared)
}

/// Both pass windows, or play one. Whether they agree.
pub(super) fn both_play_some(
    wait: &impl Wait,
    both: &mut Both,
    window: Window,
) -> Result<bool, AllocError> {
    let count = both.scene.skip(wait, window);
    if count == 0 {
        return both_play(wait, both, window);
    }
    Ok(alone_plays(both, window, count)? && have_passed(both, count))
}

/// Both pass, half of the time, windows that are steps of a flush. Whether they agree.
pub(super) fn both_pass_rest(
    wait: &impl Wait,
    both: &mut Both,
    random: &mut Pcg32,
) -> Result<bool, AllocError> {
    if random.next_word() % 2 == 0 {
        return Ok(true);
    }
    let count = both.scene.skip(wait, Window::Rest);
    Ok(alone_plays(both, Window::Rest, count)? && have_passed(both, count))
}
