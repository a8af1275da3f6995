//! Scripts: what a board's admitter and its passes do, each with the answer that is wanted.

use super::admit::Window;
use super::scene::{Brought, Scene, Way, Who};
use fg_board::{Fate, Look};
use fg_desk::{Outcome, Played, Reply, Tray};
use fg_shape::Shape;
use fg_words::Word;
use std::alloc::{AllocError, Global};
use std::process::Abort;
use std::sync::Wait;
use std::test::Fail;

/// A word of which a payload bit is flipped has this number more than the word had.
pub(super) const FLIPPED: u32 = 1 << 20;

/// A call, and what is wanted of it. Words go by numbers.
#[derive(Clone, Copy)]
pub(super) enum Step {
    /// A media datagram of SSRC 0: its sequence number, its word, and the reply.
    Media(u16, u32, Reply),
    /// A media datagram of any SSRC: the SSRC, its sequence number, its word, and the reply.
    From(u32, u16, u32, Reply),
    /// Media datagrams that are all admitted: the first sequence number, how many, and which of them
    /// are lost. The words have the sequence numbers.
    Run(u16, u16, u128),
    /// The datagrams of a block of four rows and four columns without the word at 5, the parity of its row 1, and that of its
    /// column 1, which are all admitted.
    Block,
    /// A parity datagram: the sequence number of its base, offset and count of its shape, the word
    /// at its first slot, and the reply. The words at its slots are numbered as the slots are.
    Parity(u16, u8, u8, u32, Reply),
    /// A take: the serial number of the job's equation, and the slot that has no word.
    Take(Who, Option<(u64, Option<u64>)>),
    /// The job's word is published.
    Publish(Who, Fate),
    /// The job's check is vouched for: whether its equation comes out.
    Vouch(Who, bool, Fate),
    /// The job's word is offered, and the job is kept.
    Offer(Who, Fate),
    /// The job's check is attested, and the job is kept: whether its equation comes out.
    Attest(Who, bool, Fate),
    /// The job is given back.
    GiveBack(Who, Fate),
    /// The job is given back, and then its word is offered.
    BackAndOffer(Who, Fate),
    /// The job is given back, and then its check is attested: whether its equation comes out.
    BackAndAttest(Who, bool, Fate),
    /// A look by the key of the equation of this serial number, at a position.
    Look(Who, usize, u64, Sight),
    /// A play, which is due before a sequence number of SSRC 0.
    Play(u16, Shows),
    /// A flush step.
    Flush(Shows),
    /// A held step at a time. None where no word has waited for long enough.
    Held(u64, Option<Shows>),
    /// Windows that are due before a sequence number of SSRC 0 are passed: how many.
    SkipDue(u16, u64),
    /// Windows that are steps of a flush are passed: how many.
    SkipRest(u64),
    /// Windows that are held plays at a time are passed: how many.
    SkipHeld(u64, u64),
}

/// What a look shows: the word that has the number of the position, no word, or that the equation is
/// gone, with the mark and the epoch.
#[derive(Clone, Copy, PartialEq, Eq)]
pub(super) enum Sight {
    Word,
    Nothing,
    Gone(u64, u64),
}

/// What a play shows: its outcome, how many positions, which of them show no word, which show a repaired one, and which show the word
/// with a bit flipped.
#[derive(Clone, Copy)]
pub(super) struct Shows(pub Outcome, pub u32, pub u128, pub u128, pub u128);

/// A media word with this timestamp, of packets that say nothing.
pub(super) fn stamped(timestamp: u32) -> Word {
    let mut word = Word::zero();
    word.pt = 33;
    word.ts = timestamp;
    word.len = 1316;
    for packet in 0..7usize {
        word.bytes[188 * packet] = 0x47;
    }
    word
}

/// The media word of this number, which each of its packets has.
pub(super) fn word_of(number: u32) -> Word {
    let mut word = stamped(number % FLIPPED);
    for packet in 0..7usize {
        word.bytes[188 * packet + 1] = (number % 256) as u8;
        word.bytes[188 * packet + 2] = (number / 256 % 256) as u8;
    }
    word.bytes[1315] = u8::from(number >= FLIPPED);
    word
}

/// The sum of the words at the slots of a shape, of which the first has this number.
pub(super) fn sum_of(number: u32, shape: Shape) -> Word {
    let mut sum = Word::zero();
    for j in 0..u32::from(shape.na) {
        let at = j.wrapping_mul(u32::from(shape.offset));
        sum.xor_in(&word_of((number % FLIPPED).wrapping_add(at)));
    }
    if number >= FLIPPED {
        sum.bytes[1315] ^= 1;
    }
    sum
}

fn run_is_admitted(
    scene: &mut Scene,
    wait: &impl Wait,
    seq: u16,
    count: u16,
    lost: u128,
) -> Result<bool, AllocError> {
    for i in 0..count {
        let seq = seq.wrapping_add(i);
        let sent = lost >> (i % 128) & 1 == 0;
        if sent && media_reply(scene, wait, seq, 0, u32::from(seq))? != Some(Reply::Admitted) {
            return Ok(false);
        }
    }
    Ok(true)
}

/// The reply to the media datagram that has the word of this number.
fn media_reply(
    scene: &mut Scene,
    wait: &impl Wait,
    seq: u16,
    ssrc: u32,
    number: u32,
) -> Result<Option<Reply>, AllocError> {
    let share = word_of(number).share(scene.alloc())?;
    scene.media(wait, seq, ssrc, share)
}

/// The reply to the parity datagram of the words at the slots of a shape, of which the first has this number.
fn parity_reply(
    scene: &mut Scene,
    wait: &impl Wait,
    base: u16,
    shape: Shape,
    number: u32,
) -> Result<Option<Reply>, AllocError> {
    let share = sum_of(number, shape).share(scene.alloc())?;
    scene.parity(wait, base, shape, share)
}

fn block_is_admitted(scene: &mut Scene, wait: &impl Wait) -> Result<bool, AllocError> {
    if !run_is_admitted(scene, wait, 0, 16, 1 << 5)? {
        return Ok(false);
    }
    let row = parity_reply(scene, wait, 4, Shape { offset: 1, na: 4 }, 4)?;
    let column = parity_reply(scene, wait, 1, Shape { offset: 4, na: 4 }, 1)?;
    Ok(row == Some(Reply::Admitted) && column == Some(Reply::Admitted))
}

/// What a look shows. None where it is another word than the one of this number.
fn seen(look: Look, number: u32) -> Option<Sight> {
    match look {
        Look::Known(word) => {
            if word.same(&word_of(number)) {
                Some(Sight::Word)
            } else {
                None
            }
        }
        Look::Unknown => Some(Sight::Nothing),
        Look::Gone { mark, epoch } => Some(Sight::Gone(mark, epoch)),
    }
}

/// Whether a play shows this, from the position 0 or a later one on.
fn is_shown(done: &Option<(Played, Tray)>, want: Shows) -> bool {
    let Some((played, tray)) = done else {
        return false;
    };
    let Shows(outcome, count, ..) = want;
    if played.count != count || played.verdict != outcome {
        return false;
    }
    let first = (played.first % u64::from(FLIPPED)) as u32;
    for i in 0..128u32 {
        if !is_shown_at(tray, i, first.wrapping_add(i) % FLIPPED, want) {
            return false;
        }
    }
    true
}

fn is_shown_at(tray: &Tray, i: u32, position: u32, want: Shows) -> bool {
    let Shows(_, count, missing, repaired, flipped) = want;
    let missing = i >= count || missing >> (i % 128) & 1 == 1;
    let number = if flipped >> (i % 128) & 1 == 1 {
        position % FLIPPED + FLIPPED
    } else {
        position
    };
    let right = match tray.word(i) {
        Some(word) => !missing && word.same(&word_of(number)),
        None => missing,
    };
    right && tray.repaired(i) == (repaired >> (i % 128) & 1 == 1)
}

fn looks(scene: &mut Scene, wait: &impl Wait, who: Who, serial: usize, slot: u64) -> Option<Sight> {
    let look = scene.look(wait, who, serial, slot)?;
    seen(look, (slot % u64::from(FLIPPED)) as u32)
}

/// Whether a window shows this, or there is none where that is wanted.
fn plays(
    scene: &mut Scene,
    wait: &impl Wait,
    window: Window,
    want: Option<Shows>,
) -> Result<bool, AllocError> {
    let done = scene.play(wait, window)?;
    Ok(match want {
        Some(want) => is_shown(&done, want),
        None => done.is_none(),
    })
}

/// Whether an admission is answered as is wanted.
fn admits(scene: &mut Scene, wait: &impl Wait, step: Step) -> Result<bool, AllocError> {
    match step {
        Step::Media(seq, number, want) => {
            Ok(media_reply(scene, wait, seq, 0, number)? == Some(want))
        }
        Step::From(ssrc, seq, number, want) => {
            Ok(media_reply(scene, wait, seq, ssrc, number)? == Some(want))
        }
        Step::Run(seq, count, lost) => run_is_admitted(scene, wait, seq, count, lost),
        Step::Parity(base, offset, na, number, want) => {
            let shape = Shape { offset, na };
            Ok(parity_reply(scene, wait, base, shape, number)? == Some(want))
        }
        _ => block_is_admitted(scene, wait),
    }
}

/// Whether a call is answered as is wanted.
fn answers(scene: &mut Scene, wait: &impl Wait, step: Step) -> Result<bool, AllocError> {
    match step {
        Step::Media(..) | Step::From(..) | Step::Run(..) | Step::Block | Step::Parity(..) => {
            admits(scene, wait, step)
        }
        Step::Look(who, serial, slot, want) => {
            Ok(looks(scene, wait, who, serial, slot) == Some(want))
        }
        Step::Play(seq, want) => plays(scene, wait, Window::Due(seq, 0), Some(want)),
        Step::Flush(want) => plays(scene, wait, Window::Rest, Some(want)),
        Step::Held(time, want) => plays(scene, wait, Window::Held(time), want),
        Step::SkipDue(..) | Step::SkipRest(..) | Step::SkipHeld(..) => {
            Ok(passes(scene, wait, step))
        }
        _ => is_brought(scene, wait, step),
    }
}

/// Whether so many windows are passed at once as is wanted.
fn passes(scene: &mut Scene, wait: &impl Wait, step: Step) -> bool {
    match step {
        Step::SkipDue(seq, want) => scene.skip(wait, Window::Due(seq, 0)) == want,
        Step::SkipRest(want) => scene.skip(wait, Window::Rest) == want,
        Step::SkipHeld(time, want) => scene.skip(wait, Window::Held(time)) == want,
        _ => false,
    }
}

/// Whether a pass that takes, brings or gives back is answered as is wanted.
fn is_brought(scene: &mut Scene, wait: &impl Wait, step: Step) -> Result<bool, AllocError> {
    let (who, way, zero, fate) = match step {
        Step::Take(who, want) => return Ok(scene.take(wait, who)? == want),
        Step::GiveBack(who, want) => return Ok(scene.give_back(wait, who) == Some(want)),
        Step::Publish(who, want) => (who, Way::Ending, None, want),
        Step::Vouch(who, zero, want) => (who, Way::Ending, Some(zero), want),
        Step::Offer(who, want) => (who, Way::Keeping, None, want),
        Step::Attest(who, zero, want) => (who, Way::Keeping, Some(zero), want),
        Step::BackAndOffer(who, want) => (who, Way::BackFirst, None, want),
        Step::BackAndAttest(who, zero, want) => (who, Way::BackFirst, Some(zero), want),
        _ => return Ok(false),
    };
    let back = match way {
        Way::BackFirst => Some(Fate::Done),
        Way::Ending | Way::Keeping => None,
    };
    Ok(scene.bring(wait, who, way)? == Some(Brought { zero, back, fate }))
}

/// A script of a board, on which words may wait for so many microseconds, or for ever.
pub(super) struct Script {
    pub name: &'static str,
    pub hold: u64,
    pub steps: &'static [Step],
}

/// A scene follows a script.
fn goes_on(
    rt: &(impl Abort + Wait),
    scene: &mut Scene,
    name: &str,
    steps: &[Step],
) -> Result<(), Fail> {
    for (i, step) in steps.iter().enumerate() {
        assert!(rt; answers(scene, rt, *step)?, "{name}: step {i}");
    }
    Ok(())
}

/// A new board follows a script, and ends.
fn follows(rt: &(impl Abort + Wait), alloc: Global, script: &Script) -> Result<(), Fail> {
    let mut scene = Scene::new(alloc, 100, 400, script.hold)?;
    goes_on(rt, &mut scene, script.name, script.steps)?;
    assert!(rt; scene.close());
    Ok(())
}

/// New boards follow the scripts.
pub(super) fn follow(
    rt: &(impl Abort + Wait),
    alloc: Global,
    scripts: &[Script],
) -> Result<(), Fail> {
    for script in scripts {
        follows(rt, alloc, script)?;
    }
    Ok(())
}
