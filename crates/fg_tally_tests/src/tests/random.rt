//! Random admissions, plays, starts, folds and settles over one board, beside plain counts and sums.

ghost use Rattle.std.specs.Prelude.{◌≡◌, ◌≤◌};

use super::plain::{Plain, Sum};
use super::scene::{Feed, word_of};
use super::stage::{Stage, open};
use fg_board::{Admitter, Board, Fate, Look};
use fg_desk::{Outcome, Played, Reply, Tray};
use fg_shape::Shape;
use fg_tally::{Begun, Folded};
use fg_words::Word;
use rand_core::utils::NextWord;
use rand_pcg::Pcg32;
use std::alloc::{AllocError, Global};
use std::process::Abort;
use std::sync::Wait;
use std::test::Fail;

/// The generator's state at first.
const SEED: u64 = 2022;

/// How many flows there are.
const FLOWS: u32 = 10;

/// How many steps a flow has.
const STEPS: u32 = 400;

/// How many positions a play closes.
const WINDOW: u32 = 8;

/// How far past the mark a datagram makes a play due.
const DEPTH: u32 = 32;

/// So many of the equations that were admitted last are started, folded and settled.
const RECENT: usize = 12;

/// Which answers of folds came.
#[derive(Clone, Copy, Default)]
struct Folds {
    waiting: bool,
    last: bool,
    comes_out: bool,
    left_over: bool,
    stale: bool,
    unknown: bool,
}

/// Which fates came.
#[derive(Clone, Copy, Default)]
struct Fates {
    done: bool,
    beaten: bool,
    gone: bool,
    /// Gone, since solved words were withdrawn after the key was given.
    withdrawn: bool,
}

/// What came of the steps.
#[derive(Clone, Copy, Default)]
struct Came {
    folds: Folds,
    fates: Fates,
    /// A stale fold, though the equation is there: its tally holds another one.
    other: bool,
    /// A start with the key of an equation that is gone.
    ended: bool,
}

/// What comes to a board, its tallies, and what is plainly so of them.
#[derive(Drop)]
struct Both<'b> {
    feed: Feed<'b>,
    stage: Stage<'b>,
    plain: Plain,
    /// The first position that wasn't sent yet.
    next: usize,
    came: Came,
}

/// A media word with this timestamp.
fn stamped(timestamp: u32) -> Word {
    let mut word = word_of(0);
    word.ts = timestamp;
    word
}

/// The timestamp that was sent at a position.
fn sent(position: usize) -> u32 {
    ((position % 65_536) as u32).wrapping_mul(0x9e37_79b1)
}

/// The sequence number of a position.
fn seq_of(position: usize) -> u16 {
    (position % 65_536) as u16
}

/// The sum of the timestamps that were sent at these slots.
fn parity_of(base: usize, shape: Shape) -> u32 {
    let mut sum = 0;
    for j in 0..usize::from(shape.na) {
        sum ^= sent(base.wrapping_add(j.wrapping_mul(usize::from(shape.offset))));
    }
    sum
}

/// The parity word of a shape, with this sum of timestamps.
fn parity_word(shape: Shape, sum: u32) -> Word {
    let mut word = if shape.na % 2 == 0 {
        Word::zero()
    } else {
        stamped(0)
    };
    word.ts = sum;
    word
}

/// One of so many, or 0 where there are none.
fn one_of(random: &mut Pcg32, count: usize) -> usize {
    random.next_word() as usize % count.max(1)
}

/// Now and then a bit is wrong.
fn wrong_bit(random: &mut Pcg32) -> u32 {
    u32::from(random.next_word() % 24 == 0)
}

/// One of the equations that were admitted last.
fn recent(plain: &Plain, random: &mut Pcg32) -> Option<Sum> {
    let count = plain.admitted.len();
    let back = one_of(random, count.min(RECENT));
    let serial = count.checked_sub(1)?.checked_sub(back)?;
    Some(*plain.admitted.get(serial)?)
}

/// A play shows words, which the plain flow has from then on.
fn take_play(plain: &mut Plain, played: Played, tray: &Tray) {
    for i in 0..played.count {
        plain.show(tray.word(i).map(|word| word.ts));
    }
    if played.verdict == Outcome::Inconsistent {
        plain.withdraw();
    }
}

/// Plays while a play is due before a sequence number.
fn play_on(wait: &impl Wait, both: &mut Both<'_>, seq: u16) -> Result<(), AllocError> {
    for _ in 0..8 {
        if let Some((played, tray)) = both.feed.play(wait, seq)? {
            take_play(&mut both.plain, played, &tray);
        }
    }
    Ok(())
}

/// Where the next media datagram lies: mostly at the next position, one of which is now and then lost.
fn next_position(next: &mut usize, random: &mut Pcg32) -> usize {
    let kind = random.next_word() % 8;
    if kind == 0 {
        return next.saturating_sub(one_of(random, 30));
    }
    let position = next.saturating_add(usize::from(kind < 3));
    *next = position.saturating_add(1);
    position
}

/// A media datagram comes, after the plays that it makes due. Whether it is admitted where plainly it has to be.
fn take_media(
    wait: &impl Wait,
    both: &mut Both<'_>,
    position: usize,
    word: u32,
) -> Result<bool, AllocError> {
    let seq = seq_of(position);
    play_on(wait, both, seq)?;
    let reply = both.feed.media(wait, seq, stamped(word))?;
    let admitted = both.plain.media(position, word);
    Ok((reply == Some(Reply::Admitted)) == admitted)
}

/// A parity datagram comes, and mostly its tally is started where it is admitted.
fn take_parity(
    wait: &impl Wait,
    both: &mut Both<'_>,
    random: &mut Pcg32,
) -> Result<bool, AllocError> {
    let shape = Shape {
        offset: (1 + random.next_word() % 5) as u8,
        na: (1 + random.next_word() % 6) as u8,
    };
    let base = both.next.saturating_sub(one_of(random, 24));
    let parity = parity_of(base, shape) ^ wrong_bit(random);
    let word = parity_word(shape, parity);
    let Some(key) = both.feed.parity(wait, seq_of(base), shape, word)? else {
        return Ok(true);
    };
    let sum = Sum {
        key,
        base,
        shape,
        parity,
    };
    both.plain.admitted.push(sum)?;
    Ok(random.next_word() % 4 == 0 || start(wait, both, &sum))
}

/// Whether the tally of a place shows what it plainly holds.
fn shows(wait: &impl Wait, both: &Both<'_>, sum: &Sum) -> bool {
    both.plain
        .shows(sum.key.place, both.stage.held(wait, sum.key))
}

/// Starts the tally of an equation's place. Whether it answers what is plainly so.
fn start(wait: &impl Wait, both: &mut Both<'_>, sum: &Sum) -> bool {
    let wanted = both.plain.start(sum);
    if wanted != Begun::Held {
        both.came.ended = true;
    }
    both.stage.start(wait, sum.key) == Some(wanted) && shows(wait, both, sum)
}

fn note_fold(folds: &mut Folds, answer: Folded) {
    match answer {
        Folded::Waiting(_) => folds.waiting = true,
        Folded::Last(_) => folds.last = true,
        Folded::Whole(true) => folds.comes_out = true,
        Folded::Whole(false) => folds.left_over = true,
        Folded::Stale => folds.stale = true,
        Folded::Unknown => folds.unknown = true,
    }
}

/// Folds a slot. Whether it answers what is plainly so.
fn fold(wait: &impl Wait, both: &mut Both<'_>, sum: &Sum, number: u32) -> bool {
    let wanted = both.plain.fold(sum, number);
    note_fold(&mut both.came.folds, wanted);
    let held = both.stage.held(wait, sum.key);
    if both.plain.is_current(sum) && held.is_some_and(|held| held.key != sum.key) {
        both.came.other = true;
    }
    let slot = sum.slot(number) as u64;
    both.stage.fold(wait, sum.key, slot) == Some(wanted) && shows(wait, both, sum)
}

/// Folds all slots, one after another.
fn fold_all(wait: &impl Wait, both: &mut Both<'_>, sum: &Sum) -> bool {
    for number in 0..u32::from(sum.shape.na) {
        if !fold(wait, both, sum, number) {
            return false;
        }
    }
    true
}

fn note_fate(fates: &mut Fates, sum: &Sum, fate: Fate) {
    match fate {
        Fate::Done => fates.done = true,
        Fate::Beaten(_) => fates.beaten = true,
        Fate::Gone { mark: _, epoch } if epoch > sum.key.epoch => fates.withdrawn = true,
        Fate::Gone { mark: _, epoch: _ } => fates.gone = true,
    }
}

/// Whether another pass is shown the remainder where a word was taken.
fn is_shown(wait: &impl Wait, both: &mut Both<'_>, sum: &Sum, slot: u64, rest: u32) -> bool {
    match both.stage.look(wait, sum.key, slot) {
        Look::Known(word) => word.same(&stamped(rest)),
        _ => false,
    }
}

/// Settles the tally of an equation's place. Whether it answers what is plainly so, and the board has the plain sum.
fn settle(wait: &impl Wait, both: &mut Both<'_>, sum: &Sum) -> Result<bool, AllocError> {
    let (wanted, taken) = both.plain.settle(sum);
    if let Some(fate) = wanted {
        note_fate(&mut both.came.fates, sum, fate);
    }
    if both.stage.settle(wait, sum.key)? != wanted || !shows(wait, both, sum) {
        return Ok(false);
    }
    Ok(match taken {
        Some((slot, rest)) => is_shown(wait, both, sum, slot, rest),
        None => true,
    })
}

/// One step of the admitter. Whether all is plainly so.
fn admitter_goes_on(
    wait: &impl Wait,
    both: &mut Both<'_>,
    random: &mut Pcg32,
    kind: u32,
) -> Result<bool, AllocError> {
    if kind < 2 {
        return take_parity(wait, both, random);
    }
    let position = next_position(&mut both.next, random);
    let word = sent(position) ^ wrong_bit(random);
    take_media(wait, both, position, word)
}

/// One step of a tally. Whether all is plainly so.
fn tally_goes_on(
    wait: &impl Wait,
    both: &mut Both<'_>,
    random: &mut Pcg32,
    kind: u32,
) -> Result<bool, AllocError> {
    let Some(sum) = recent(&both.plain, random) else {
        return Ok(true);
    };
    match kind {
        8 => Ok(start(wait, both, &sum)),
        9 => Ok(fold_all(wait, both, &sum)),
        10..=12 => settle(wait, both, &sum),
        _ => {
            let number = random.next_word() % u32::from(sum.shape.na.max(1));
            Ok(fold(wait, both, &sum, number))
        }
    }
}

fn go_on(wait: &impl Wait, both: &mut Both<'_>, random: &mut Pcg32) -> Result<bool, AllocError> {
    let kind = random.next_word() % 20;
    if kind < 8 {
        admitter_goes_on(wait, both, random, kind)
    } else {
        tally_goes_on(wait, both, random, kind)
    }
}

fn steps(rt: &(impl Abort + Wait), both: &mut Both<'_>, random: &mut Pcg32) -> Result<(), Fail> {
    for i in 0..STEPS {
        assert!(rt; go_on(rt, both, random)?, "step {i}");
    }
    Ok(())
}

/// What comes to a new board, its tallies, and what is plainly so of them.
fn new_both<'b>(
    alloc: Global,
    board: &'b Board,
    mut admitter: Admitter,
    came: Came,
) -> Result<Both<'b>, AllocError>
    requires board { (admitter.seat.turn ≡ board.now.name) × (board.now.seats ≡ 514) }
    requires made { admitter.seat.made ≡ 0 }
    requires window { admitter.playout.window ≤ 100 }
{
    let stage = Stage::new(alloc, board, &mut admitter)?;
    let plain = Plain::new(alloc)?;
    Ok(Both {
        feed: Feed::new(alloc, board, admitter),
        stage,
        plain,
        next: 1,
        came,
    })
}

/// All steps. Which answers came.
fn try_both(
    rt: &(impl Abort + Wait),
    both: &mut Both<'_>,
    random: &mut Pcg32,
) -> Result<Came, Fail> {
    assert!(rt; take_media(rt, both, 0, sent(0))?);
    steps(rt, both, random)?;
    Ok(both.came)
}

fn try_board(
    rt: &(impl Abort + Wait),
    alloc: Global,
    board: &Board,
    admitter: Admitter,
    came: Came,
    random: &mut Pcg32,
) -> Result<Came, Fail>
    requires board { (admitter.seat.turn ≡ board.now.name) × (board.now.seats ≡ 514) }
    requires made { admitter.seat.made ≡ 0 }
    requires window { admitter.playout.window ≤ 100 }
{
    let mut both = new_both(alloc, board, admitter, came)?;
    try_both(rt, &mut both, random)
}

/// The steps of a new board. Which answers came.
fn try_flow(
    rt: &(impl Abort + Wait),
    alloc: Global,
    came: Came,
    random: &mut Pcg32,
) -> Result<Came, Fail> {
    let (board, admitter) = open(alloc, WINDOW, DEPTH)?;
    try_board(rt, alloc, &board, admitter, came, random)
}

/// Each answer came.
fn have_come(rt: &impl Abort, came: &Came) -> Result<(), Fail> {
    let Folds {
        waiting,
        last,
        comes_out,
        left_over,
        stale,
        unknown,
    } = came.folds;
    assert!(rt; waiting && last && comes_out && left_over && stale && unknown);
    let Fates {
        done,
        beaten,
        gone,
        withdrawn,
    } = came.fates;
    assert!(rt; done && beaten && gone && withdrawn && came.other && came.ended);
    Ok(())
}

#[test]
fn random_folds(rt: HostRuntime) -> Result<(), Fail> {
    let mut random = Pcg32::new(SEED, 7);
    let mut came = Came::default();
    for _ in 0..FLOWS {
        came = try_flow(&rt, rt.alloc(), came, &mut random)?;
    }
    have_come(&rt, &came)
}
