//! What comes to a board and a desk: datagrams near the mark, from one sender or another.

use super::admit::Window;
use super::bare;
use super::both::{Both, Event, FIRST, Odds, both_pass_rest, both_play, both_play_some};
use super::script::stamped;
use fg_desk::Reply;
use fg_shape::Shape;
use fg_words::Word;
use rand_core::utils::NextWord;
use rand_pcg::Pcg32;
use std::alloc::AllocError;
use std::sync::Wait;

/// A flush has so many steps at most: a window of one position, and the greatest depth.
const FLUSHES: u32 = 1_200;

/// A datagram makes so many plays due at most.
const PLAYS: u32 = 600;

/// The timestamp that was sent at a position.
fn sent(position: u64) -> u32 {
    ((position % 65_536) as u32).wrapping_mul(0x9e37_79b1)
}

/// The sequence number of a position in the current run.
fn seq_of(both: &Both, position: u64) -> u16 {
    both.first.wrapping_add((position % 65_536) as u16)
}

/// The parity word of what was sent at these slots.
fn parity_of(base: u64, shape: Shape) -> Word {
    let mut word = if shape.na % 2 == 0 {
        Word::zero()
    } else {
        stamped(0)
    };
    for j in 0..u64::from(shape.na) {
        word.ts ^= sent(base.wrapping_add(j.wrapping_mul(u64::from(shape.offset))));
    }
    word
}

/// One of so many, or 0 where there are none.
pub(super) fn one_of(random: &mut Pcg32, count: u64) -> u64 {
    u64::from(random.next_word()) % count.max(1)
}

/// Both play while a play is due before a sequence number and SSRC.
fn both_play_on(
    wait: &impl Wait,
    both: &mut Both,
    seq: u16,
    ssrc: u32,
) -> Result<bool, AllocError> {
    for _ in 0..PLAYS {
        let due = both.scene.due(seq, ssrc);
        if due != both.desk.due(seq, ssrc) {
            return Ok(false);
        }
        if !due {
            return Ok(true);
        }
        if !both_play_some(wait, both, Window::Due(seq, ssrc))? {
            return Ok(false);
        }
    }
    Ok(false)
}

/// Both are flushed until nothing is left. Whether they agree.
pub(super) fn both_flush_on(
    wait: &impl Wait,
    both: &mut Both,
    random: &mut Pcg32,
) -> Result<bool, AllocError> {
    for _ in 0..FLUSHES {
        if !both_pass_rest(wait, both, random)? {
            return Ok(false);
        }
        let mark = both.desk.mark();
        if !both_play(wait, both, Window::Rest)? {
            return Ok(false);
        }
        if both.desk.mark() == mark {
            return Ok(true);
        }
    }
    Ok(false)
}

/// What was sent at a position, or now and then another word.
fn arriving(random: &mut Pcg32, odds: Odds, position: u64) -> Word {
    let wrong = if random.next_word() % odds.wrong.max(1) == 0 {
        1 + random.next_word() % 2
    } else {
        0
    };
    stamped(sent(position) ^ wrong)
}

/// Both admit a media datagram. Whether they agree.
fn both_admit(
    wait: &impl Wait,
    both: &mut Both,
    seq: u16,
    ssrc: u32,
    word: Word,
) -> Result<bool, AllocError> {
    let alloc = both.scene.alloc();
    let shared = both.scene.media(wait, seq, ssrc, word.share(alloc)?)?;
    let alone = bare::media(&mut both.desk, seq, ssrc, word.share(alloc)?);
    if shared == Some(Reply::Foreign) {
        both.came[Event::Foreign as usize] = true;
    }
    Ok(shared.is_some() && shared == alone)
}

/// Both are flushed, and begin a run at the mark. Whether they agree.
fn both_begin(
    wait: &impl Wait,
    both: &mut Both,
    random: &mut Pcg32,
    ssrc: u32,
) -> Result<bool, AllocError> {
    if !both_flush_on(wait, both, random)? {
        return Ok(false);
    }
    let mark = both.desk.mark();
    let seq = (random.next_word() % 65_536) as u16;
    both.ssrc = ssrc;
    both.first = seq.wrapping_sub((mark % 65_536) as u16);
    let word = arriving(random, both.odds, mark);
    both_admit(wait, both, seq, ssrc, word)
}

/// Who sends: mostly the sender of the current run.
fn sender(random: &mut Pcg32, current: u32) -> u32 {
    match random.next_word() % 32 {
        0 => current.wrapping_add(1),
        1 | 2 => current.wrapping_sub(1),
        _ => current,
    }
}

/// The media datagram three positions before this one comes to both, after the plays that it makes due.
fn both_take_at(
    wait: &impl Wait,
    both: &mut Both,
    random: &mut Pcg32,
    ssrc: u32,
    from_three: u64,
) -> Result<bool, AllocError> {
    let seq = seq_of(both, from_three).wrapping_sub(3);
    if !both_play_on(wait, both, seq, ssrc)? {
        return Ok(false);
    }
    let word = arriving(random, both.odds, from_three.wrapping_sub(3));
    both_admit(wait, both, seq, ssrc, word)
}

/// A media datagram near the mark comes to both, or now and then one from farther ahead. Now and then another sender begins a
/// run.
pub(super) fn both_take_media(
    wait: &impl Wait,
    both: &mut Both,
    random: &mut Pcg32,
) -> Result<bool, AllocError> {
    let ssrc = sender(random, both.ssrc);
    let fresh = both.scene.fresh(ssrc);
    if fresh != both.desk.fresh(ssrc) {
        return Ok(false);
    }
    if fresh {
        return both_begin(wait, both, random, ssrc);
    }
    let near = one_of(random, u64::from(both.depth).saturating_add(6));
    let far = if one_of(random, 16) == 0 {
        one_of(random, 400)
    } else {
        0
    };
    let from_three = both.desk.mark().saturating_add(near).saturating_add(far);
    both_take_at(wait, both, random, ssrc, from_three)
}

/// The media datagrams that follow the last one come to both, but for those that are lost.
pub(super) fn both_take_run(
    wait: &impl Wait,
    both: &mut Both,
    random: &mut Pcg32,
) -> Result<bool, AllocError> {
    let top = match both.desk.top() {
        Some((top, _)) => top,
        None => 0,
    };
    let next = top.max(both.desk.mark()).saturating_add(4);
    for i in 0..one_of(random, 40) {
        let lost = random.next_word() % 100 < both.odds.loss;
        let ssrc = both.ssrc;
        if !lost && !both_take_at(wait, both, random, ssrc, next.saturating_add(i))? {
            return Ok(false);
        }
    }
    Ok(true)
}

/// A parity datagram comes to both.
pub(super) fn both_take_parity(
    wait: &impl Wait,
    both: &mut Both,
    random: &mut Pcg32,
) -> Result<bool, AllocError> {
    let shape = Shape {
        offset: (1 + random.next_word() % 4) as u8,
        na: (1 + random.next_word() % 5) as u8,
    };
    let near = one_of(random, u64::from(both.depth).saturating_add(10));
    let from_eight = both.desk.mark().saturating_add(near);
    let seq = seq_of(both, from_eight).wrapping_sub(8);
    let mut word = parity_of(from_eight.wrapping_sub(8), shape);
    if random.next_word() % both.odds.wrong.saturating_mul(3).max(1) == 0 {
        word.ts ^= 1;
    }
    let alloc = both.scene.alloc();
    let shared = both.scene.parity(wait, seq, shape, word.share(alloc)?)?;
    let alone = bare::parity(&mut both.desk, seq, shape, word.share(alloc)?);
    Ok(shared.is_some() && shared == alone)
}

/// Both take the first datagram.
pub(super) fn both_start(wait: &impl Wait, both: &mut Both) -> Result<bool, AllocError> {
    both_admit(wait, both, FIRST, 0, stamped(sent(0)))
}
