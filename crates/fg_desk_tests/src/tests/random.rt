//! Random calls of a desk and of one in another style.

use super::plain::{Plain, Sum, at};
use super::script::{admit_media, admit_parity, flush, held, play};
use fg_desk::{Desk, Outcome, Played, Reply, Tray};
use fg_shape::Shape;
use fg_words::Word;
use rand_core::utils::NextWord;
use rand_pcg::Pcg32;
use std::alloc::{AllocError, Global};
use std::process::Abort;
use std::test::Fail;

/// The first sequence number of all.
const FIRST: u16 = 65_500;

/// How many flows there are.
const FLOWS: u32 = 16;

/// A flush has so many steps at most: a window of one position, and the greatest depth.
const FLUSHES: u32 = 1_200;

/// A datagram makes so many plays due at most.
const PLAYS: u32 = 600;

/// What is drawn in a flow, and what came of it.
#[derive(Drop)]
struct Draw {
    random: Pcg32,
    /// How many of a hundred datagrams that follow one another are lost.
    loss: u32,
    /// One of so many datagrams has another word than was sent.
    wrong: u32,
    /// Whether parity datagrams come.
    parity: bool,
    /// How many windows were passed at once.
    passed: u64,
    /// How many plays were inconsistent.
    inconsistent: u64,
    /// How many runs were begun.
    runs: u64,
}

/// A desk, and one in another style that takes the same.
#[derive(Drop)]
struct Both {
    alloc: Global,
    desk: Desk,
    plain: Plain,
}

/// One of so many numbers from 0 on, or 0 where there are none.
fn one_of(draw: &mut Draw, count: usize) -> usize {
    draw.random.next_word() as usize % count.max(1)
}

/// What was sent at a position, or now and then another word.
fn arriving(draw: &mut Draw, position: usize) -> u32 {
    let flips = if draw.random.next_word() % draw.wrong.max(1) == 0 {
        1 + draw.random.next_word() % 2
    } else {
        0
    };
    sent(position) ^ flips
}

/// A media word with this timestamp.
fn stamped(timestamp: u32) -> Word {
    let mut word = super::script::word_of(0);
    word.ts = timestamp;
    word
}

/// The timestamp that was sent at a position.
fn sent(position: usize) -> u32 {
    ((position % 65_536) as u32).wrapping_mul(0x9e37_79b1)
}

/// The sequence number that a position has in the current run.
fn seq_of(plain: &Plain, position: usize) -> u16 {
    let ahead = position.wrapping_sub(plain.origin);
    plain.first.wrapping_add((ahead % 65_536) as u16)
}

/// Whether a word is the media word with this timestamp.
fn has_stamp(word: Option<&Word>, timestamp: Option<u32>) -> bool {
    match word {
        Some(word) => timestamp.is_some_and(|timestamp| word.same(&stamped(timestamp))),
        None => timestamp.is_none(),
    }
}

/// Whether a play shows what the plain desk shows of it.
fn shows_same(
    plain: &Plain,
    done: &(Played, Tray),
    first: usize,
    count: usize,
    outcome: Outcome,
) -> bool {
    let (played, tray) = done;
    if played.first != first as u64 || played.count as usize != count || played.verdict != outcome {
        return false;
    }
    for i in 0..count {
        let position = first.wrapping_add(i);
        let word = at(&plain.shown, position);
        let repaired = word.is_some() && at(&plain.media, position).is_none();
        let i = (i % 128) as u32;
        if !has_stamp(tray.word(i), word) || tray.repaired(i) != repaired {
            return false;
        }
    }
    true
}

/// Whether both desks tell the same of themselves.
fn tell_same(both: &Both) -> bool {
    let (desk, plain) = (&both.desk, &both.plain);
    if desk.mark() != plain.mark as u64
        || desk.epoch() != plain.epoch
        || desk.live() as usize != plain.live.len()
        || desk.runs() != plain.runs
        || desk.current() != plain.current
        || desk.previous() != plain.previous
    {
        return false;
    }
    true
}

/// Whether a word has this timestamp, which alone tells the words of a flow apart.
fn is_sent(word: Option<&Word>, timestamp: Option<u32>) -> bool {
    match word {
        Some(word) => timestamp == Some(word.ts),
        None => timestamp.is_none(),
    }
}

/// Whether both desks know the same near the mark. What they show is compared byte by byte.
fn know_same(both: &Both) -> bool {
    let (desk, plain) = (&both.desk, &both.plain);
    for i in 0..140usize {
        let position = plain.mark.saturating_add(i).wrapping_sub(100);
        if position < 100_000 && !is_sent(desk.word(position as u64), plain.known(position)) {
            return false;
        }
    }
    true
}

/// A way to play.
#[derive(Clone, Copy)]
enum Way {
    /// A window.
    Window,
    /// A flush step.
    Flush,
    /// A held step at a time.
    Held(u64),
}

/// Both desks play. Whether they agree.
fn both_play(both: &mut Both, way: Way) -> Result<bool, AllocError> {
    let (desk, alloc) = (&mut both.desk, both.alloc);
    let (done, held) = match way {
        Way::Window => (play(desk, alloc)?, both.plain.window),
        Way::Flush => (flush(desk, alloc)?, both.plain.window),
        Way::Held(time) => (held(desk, alloc, time)?, both.plain.held(time)),
    };
    // Most held steps find nothing, and then no word has to be looked for.
    if held == 0 {
        return Ok(done.is_none());
    }
    plays_same(both, way, held, &done)
}

/// The plain desk plays, and at most so many positions. Whether a desk did the same.
fn plays_same(
    both: &mut Both,
    way: Way,
    most: usize,
    done: &Option<(Played, Tray)>,
) -> Result<bool, AllocError> {
    let (alloc, plain) = (both.alloc, &mut both.plain);
    let first = plain.mark;
    let words = plain.closure(alloc)?;
    let count = match way {
        Way::Flush => plain.rest(&words),
        _ => most,
    };
    let Some(done) = done else {
        return Ok(count == 0);
    };
    if count == 0 {
        return Ok(false);
    }
    let outcome = plain.play(alloc, &words, count)?;
    Ok(shows_same(plain, done, first, count, outcome) && tell_same(both))
}

/// Whether no word was shown at so many positions.
fn is_nothing(plain: &Plain, first: usize, count: usize) -> bool {
    for i in 0..count {
        if at(&plain.shown, first.wrapping_add(i)).is_some() {
            return false;
        }
    }
    true
}

/// The plain desk plays a window in this way. Whether it can, and shows nothing.
fn plays_nothing(plain: &mut Plain, alloc: Global, way: Way) -> Result<bool, AllocError> {
    let words = plain.closure(alloc)?;
    let (first, count) = (plain.mark, plain.window);
    let most = match way {
        Way::Window => count,
        Way::Flush => plain.rest(&words),
        Way::Held(time) => plain.held(time),
    };
    let outcome = plain.play(alloc, &words, count)?;
    Ok(most == count && outcome == Outcome::Repaired && is_nothing(plain, first, count))
}

/// The plain desk plays as many windows as a desk passed at once. Whether each shows nothing.
fn both_pass(both: &mut Both, way: Way, count: u64) -> Result<bool, AllocError> {
    for _ in 0..count {
        if !plays_nothing(&mut both.plain, both.alloc, way)? {
            return Ok(false);
        }
    }
    Ok(tell_same(both))
}

/// How many windows are due before a position.
fn due_before(plain: &Plain, position: usize) -> u64 {
    let first = plain.mark.saturating_add(plain.depth);
    if position < first {
        return 0;
    }
    ((position - first) / plain.window.max(1)).saturating_add(1) as u64
}

/// A desk passes, half of the time, windows that are due before a position of this sequence number.
fn passes_due(desk: &mut Desk, draw: &mut Draw, seq: u16, ssrc: u32) -> u64 {
    if draw.random.next_word() % 2 == 0 {
        return 0;
    }
    let count = desk.skip_due(seq, ssrc);
    draw.passed = draw.passed.saturating_add(count);
    count
}

/// A desk passes, half of the time, windows that are steps of a flush.
fn passes_rest(desk: &mut Desk, draw: &mut Draw) -> u64 {
    if draw.random.next_word() % 2 == 0 {
        return 0;
    }
    let count = desk.skip_rest();
    draw.passed = draw.passed.saturating_add(count);
    count
}

/// A desk passes, half of the time, windows that are held plays at a time.
fn passes_held(desk: &mut Desk, draw: &mut Draw, time: u64) -> u64 {
    if desk.hold() == 0 || draw.random.next_word() % 2 == 0 {
        return 0;
    }
    let count = desk.skip_held(time);
    draw.passed = draw.passed.saturating_add(count);
    count
}

/// Both make plays that are due before a position, at least one. Whether they agree.
fn both_play_some(
    both: &mut Both,
    draw: &mut Draw,
    seq: u16,
    position: usize,
) -> Result<bool, AllocError> {
    let most = due_before(&both.plain, position);
    let ssrc = both.plain.current.unwrap_or(0);
    let count = passes_due(&mut both.desk, draw, seq, ssrc);
    if count == 0 {
        return both_play(both, Way::Window);
    }
    Ok(count <= most && both_pass(both, Way::Window, count)?)
}

/// Both make the plays that are due before a position. Whether they agree.
fn both_play_before(
    both: &mut Both,
    draw: &mut Draw,
    seq: u16,
    position: usize,
) -> Result<bool, AllocError> {
    for _ in 0..PLAYS {
        let due = due_before(&both.plain, position) > 0;
        if both.desk.due(seq, both.plain.current.unwrap_or(0)) != due {
            return Ok(false);
        }
        if !due {
            return Ok(true);
        }
        if !both_play_some(both, draw, seq, position)? {
            return Ok(false);
        }
    }
    Ok(false)
}

/// Both are flushed until nothing is left. Whether they agree.
fn both_are_flushed(both: &mut Both, draw: &mut Draw) -> Result<bool, AllocError> {
    for _ in 0..FLUSHES {
        let count = passes_rest(&mut both.desk, draw);
        if !both_pass(both, Way::Flush, count)? {
            return Ok(false);
        }
        let mark = both.plain.mark;
        if !both_play(both, Way::Flush)? {
            return Ok(false);
        }
        if both.plain.mark == mark {
            return Ok(true);
        }
    }
    Ok(false)
}

/// Both admit a media datagram, of this position where it is one of the current run. Whether they agree.
fn both_admit(
    both: &mut Both,
    seq: u16,
    ssrc: u32,
    position: Option<usize>,
    timestamp: u32,
) -> Result<bool, AllocError> {
    let share = stamped(timestamp).share(both.alloc)?;
    let reply = admit_media(&mut both.desk, seq, ssrc, share);
    let want = both.plain.admit_media(seq, ssrc, position, timestamp);
    Ok(reply == Some(want))
}

/// A media datagram of another sender than the current one comes to both. Where it begins a run, both are
/// flushed first.
fn both_take_another(
    both: &mut Both,
    draw: &mut Draw,
    seq: u16,
    ssrc: u32,
) -> Result<bool, AllocError> {
    let fresh = both.plain.previous != Some(ssrc);
    if both.desk.fresh(ssrc) != fresh || both.desk.due(seq, ssrc) {
        return Ok(false);
    }
    if fresh && !both_are_flushed(both, draw)? {
        return Ok(false);
    }
    let timestamp = sent(both.plain.mark);
    Ok(both_admit(both, seq, ssrc, None, timestamp)? && tell_same(both))
}

/// The media datagram three positions before this one comes to both, and plays that it makes due.
fn both_take_at(both: &mut Both, draw: &mut Draw, from_three: usize) -> Result<bool, AllocError> {
    let seq = seq_of(&both.plain, from_three).wrapping_sub(3);
    let position = from_three.checked_sub(3);
    if !both_play_before(both, draw, seq, position.unwrap_or(0))? {
        return Ok(false);
    }
    let ssrc = both.plain.current.unwrap_or(0);
    let timestamp = arriving(draw, from_three.wrapping_sub(3));
    both_admit(both, seq, ssrc, position, timestamp)
}

/// A media datagram of the current run comes to both, near the mark, and now and then from farther ahead.
fn both_take_own(both: &mut Both, draw: &mut Draw) -> Result<bool, AllocError> {
    let near = one_of(draw, both.plain.depth.saturating_add(6));
    let far = if one_of(draw, 16) == 0 {
        one_of(draw, 400)
    } else {
        0
    };
    let from_three = both.plain.mark.saturating_add(near).saturating_add(far);
    both_take_at(both, draw, from_three)
}

/// The media datagrams that follow the last one come to both, but for those that are lost.
fn both_take_run(both: &mut Both, draw: &mut Draw) -> Result<bool, AllocError> {
    let top = match both.desk.top() {
        Some((top, _)) => (top % 65_536) as usize,
        None => 0,
    };
    let next = top.max(both.plain.mark).saturating_add(4);
    for i in 0..one_of(draw, 50) {
        let lost = draw.random.next_word() % 100 < draw.loss;
        if !lost && !both_take_at(both, draw, next.saturating_add(i))? {
            return Ok(false);
        }
    }
    Ok(true)
}

/// A media datagram comes to both, mostly of the current run.
fn both_take_media(both: &mut Both, draw: &mut Draw) -> Result<bool, AllocError> {
    let ssrc = draw.random.next_word() % 4;
    if one_of(draw, 12) == 0 && both.plain.current != Some(ssrc) {
        let seq = (draw.random.next_word() % 65_536) as u16;
        return both_take_another(both, draw, seq, ssrc);
    }
    both_take_own(both, draw)
}

/// The parity of what was sent at these slots.
fn parity_of(base: usize, offset: usize, count: usize) -> u32 {
    let mut parity = 0;
    for j in 0..count {
        parity ^= sent(base.wrapping_add(j.wrapping_mul(offset)));
    }
    parity
}

/// The parity word of what was sent at these slots, or now and then another one.
fn arriving_parity(draw: &mut Draw, base: usize, offset: usize, count: usize) -> Word {
    let mut word = if count % 2 == 0 {
        Word::zero()
    } else {
        stamped(0)
    };
    let wrong = draw.wrong.saturating_mul(2).max(1);
    let flips = if draw.random.next_word() % wrong == 0 {
        1
    } else {
        0
    };
    word.ts = parity_of(base, offset, count) ^ flips;
    word
}

/// A parity datagram comes to both.
fn both_take_parity(both: &mut Both, draw: &mut Draw) -> Result<bool, AllocError> {
    let offset = 1 + draw.random.next_word() % 4;
    let count = 1 + draw.random.next_word() % 5;
    let near = one_of(draw, both.plain.depth.saturating_add(10));
    let far = if one_of(draw, 16) == 0 { 100 } else { 0 };
    let from_eight = both.plain.mark.saturating_add(near).saturating_add(far);
    let base = from_eight.wrapping_sub(8);
    let word = arriving_parity(draw, base, offset as usize, count as usize);
    let parity = word.ts;
    let seq = seq_of(&both.plain, from_eight).wrapping_sub(8);
    let shape = Shape {
        offset: offset as u8,
        na: count as u8,
    };
    let reply = admit_parity(&mut both.desk, seq, shape, word.share(both.alloc)?);
    if from_eight < 8 {
        return Ok(reply == Some(Reply::BeforeStart));
    }
    let sum = Sum {
        base,
        offset: offset as usize,
        count: count as usize,
        parity,
    };
    Ok(reply == Some(both.plain.admit_parity(sum)?))
}

/// Both make a held step at a time, or pass windows by then. Whether they agree.
fn both_hold_some(both: &mut Both, draw: &mut Draw, time: u64) -> Result<bool, AllocError> {
    let count = passes_held(&mut both.desk, draw, time);
    if count == 0 {
        return both_play(both, Way::Held(time));
    }
    both_pass(both, Way::Held(time), count)
}

/// Both are told a time, which may be before the last one, and play what has waited for too long by then.
fn both_are_told(both: &mut Both, draw: &mut Draw) -> Result<bool, AllocError> {
    let later = u64::from(draw.random.next_word() % 100);
    let time = both.plain.clock.saturating_add(later).saturating_sub(30);
    for _ in 0..4 {
        if !both_hold_some(both, draw, time)? {
            return Ok(false);
        }
    }
    Ok(true)
}

/// A parity datagram comes to both, or media datagrams in a flow without parity.
fn both_take_sum(both: &mut Both, draw: &mut Draw) -> Result<bool, AllocError> {
    if draw.parity {
        both_take_parity(both, draw)
    } else {
        both_take_run(both, draw)
    }
}

/// One call of both. Whether they agree.
fn both_go_on(both: &mut Both, draw: &mut Draw) -> Result<bool, AllocError> {
    let agree = match draw.random.next_word() % 40 {
        0 => both_play(both, Way::Window)?,
        1 => both_play(both, Way::Flush)?,
        2..16 => both_take_media(both, draw)?,
        16..20 => both_take_run(both, draw)?,
        20..32 => both_take_sum(both, draw)?,
        _ => both_are_told(both, draw)?,
    };
    Ok(agree && tell_same(both) && know_same(both))
}

/// A hundred calls of both, from the first on.
fn both_are_called(rt: &impl Abort, both: &mut Both, draw: &mut Draw) -> Result<(), Fail> {
    assert!(rt; both_admit(both, FIRST, 0, None, sent(0))?);
    for i in 0..100 {
        assert!(rt; both_go_on(both, draw)?, "call {i}");
    }
    Ok(())
}

/// Calls of two new desks, which are flushed at last.
fn try_both(rt: &impl Abort, both: &mut Both, draw: &mut Draw) -> Result<(), Fail> {
    both_are_called(rt, both, draw)?;
    assert!(rt; both_are_flushed(both, draw)?);
    draw.inconsistent = draw.inconsistent.saturating_add(both.plain.epoch);
    draw.runs = draw.runs.saturating_add(both.plain.runs);
    Ok(())
}

/// A window: mostly a small one.
fn drawn_window(draw: &mut Draw) -> u32 {
    if one_of(draw, 4) == 0 {
        1 + draw.random.next_word() % 100
    } else {
        1 + draw.random.next_word() % 10
    }
}

/// A depth for a window: a small one, or any.
fn drawn_depth(draw: &mut Draw, window: u32) -> u32 {
    let more = if one_of(draw, 3) == 0 {
        draw.random.next_word() % 1000
    } else {
        draw.random.next_word() % 20
    };
    window.saturating_add(more).min(1000)
}

/// How seldom a word is wrong.
fn drawn_wrong(draw: &mut Draw) -> u32 {
    if one_of(draw, 3) == 0 { 1000 } else { 12 }
}

/// Calls of two new desks.
fn try_flow(rt: &impl Abort, alloc: Global, draw: &mut Draw) -> Result<(), Fail> {
    draw.loss = draw.random.next_word() % 51;
    draw.wrong = drawn_wrong(draw);
    draw.parity = one_of(draw, 4) != 0;
    let window = drawn_window(draw);
    let depth = drawn_depth(draw, window);
    assert!(rt; 1 <= window && window <= 100 && window <= depth && depth <= 1000);
    let hold = u64::from(draw.random.next_word() % 4) * 25;
    let mut both = Both {
        alloc,
        desk: Desk::new(alloc, window, depth, hold)?,
        plain: Plain::new(alloc, window as usize, depth as usize, hold)?,
    };
    try_both(rt, &mut both, draw)
}

/// Whether windows were passed, plays were inconsistent, and runs were begun beside the first one of each flow.
fn all_came(draw: &Draw) -> bool {
    draw.passed > 0 && draw.inconsistent > 0 && draw.runs > u64::from(FLOWS)
}

#[test]
fn random_calls(rt: HostRuntime) -> Result<(), Fail> {
    let mut draw = Draw {
        random: Pcg32::new(2022, 7),
        loss: 0,
        wrong: 1,
        parity: false,
        passed: 0,
        inconsistent: 0,
        runs: 0,
    };
    for _ in 0..FLOWS {
        try_flow(&rt, rt.alloc(), &mut draw)?;
    }
    assert!(rt; all_came(&draw));
    Ok(())
}
