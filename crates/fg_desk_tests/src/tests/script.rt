//! Scripts: the calls of a desk, each with the answer that is wanted.

ghost use Rattle.std.specs.Prelude.{IsTrue};
ghost use Rattle.fg_playout.specs.Admission.{IsFresh};
ghost use Rattle.fg_playout.specs.Play.{HasMore};

use fg_desk::{Desk, Outcome, Played, Reply, Tray};
use fg_shape::{Shape, shape_ok};
use fg_words::{Shared, Word};
use std::alloc::{AllocError, Global};
use std::ops::Range;
use std::process::Abort;
use std::test::Fail;

/// A word of which a payload bit is flipped has this number more than the word had.
const FLIPPED: u32 = 1 << 20;

/// A call, and what is wanted of it. Words go by numbers. The sender has the SSRC 0 where none is told.
#[derive(Clone, Copy)]
pub(super) enum Step {
    /// A media datagram: its sequence number, its word, and the reply.
    Media(u16, u32, Reply),
    /// A media datagram of the sender with this SSRC.
    From(u32, u16, u32, Reply),
    /// Media datagrams that are all admitted: the first sequence number, how many, and which of them
    /// are lost. The words have the sequence numbers.
    Run(u16, u16, u128),
    /// A parity datagram: the sequence number of its base, offset and count of its shape, the word
    /// at its first slot, and the reply. The words at its slots are numbered as the slots are.
    Parity(u16, u8, u8, u32, Reply),
    /// Parity datagrams of slots that follow one another, which are all admitted: the first base, the one after the last, and
    /// how many slots each has.
    Parities(u16, u16, u8),
    /// Whether a sequence number makes a play due.
    Due(u16, bool),
    /// A play: its outcome, how many positions it shows, which of them show no word, which show a
    /// repaired one, and which show the word with a bit flipped.
    Play(Outcome, u32, u128, u128, u128),
    /// Plays until none is due for a sequence number.
    Plays(u16),
    /// A flush step that plays.
    Flush(Outcome, u32, u128, u128, u128),
    /// A flush step that plays nothing.
    Flushed,
    /// A play that copies nothing: its outcome, and how many positions it has.
    PlayInPlace(Outcome, u32),
    /// A flush step that copies nothing: its outcome, and how many positions it has. With none it plays
    /// nothing.
    FlushInPlace(Outcome, u32),
    /// A held step at a time that plays.
    Held(u64, Outcome, u32, u128, u128, u128),
    /// A held step at a time that copies nothing: its outcome, and how many positions it has. With none it
    /// plays nothing.
    HeldInPlace(u64, Outcome, u32),
    /// How many windows that show nothing are played at once: of those due for a sequence number,
    SkipDue(u16, u64),
    /// of the steps of a flush,
    SkipRest(u64),
    /// and of the held plays at a time.
    SkipHeld(u64, u64),
    /// How many positions a held step at a time would play.
    HoldsBy(u64, u32),
    /// The window and the depth.
    Playout(u32, u32),
    /// The mark.
    Mark(u64),
    /// How many equations are live.
    Live(u32),
    /// How many plays were inconsistent.
    Epoch(u64),
    /// The SSRC of the current run and of the run before, and how many runs were begun.
    Senders(Option<u32>, Option<u32>, u64),
    /// Whether a position has a known word, which then has the position's number, and whether it is
    /// shared.
    Known(u64, bool, bool),
    /// The base of the equation at a place.
    Place(u32, Option<u64>),
}

/// The media word of this number.
pub(super) fn word_of(number: u32) -> Word {
    let mut word = Word::zero();
    word.pt = 33;
    word.ts = number % FLIPPED;
    word.len = 1316;
    for packet in 0..7usize {
        word.bytes[188 * packet] = 0x47;
        word.bytes[188 * packet + 1] = (number % 256) as u8;
        word.bytes[188 * packet + 2] = (number / 256 % 256) as u8;
    }
    if number >= FLIPPED {
        word.bytes[1315] = 1;
    }
    word
}

/// The sum of the words at the slots of a shape, of which the first has this number.
pub(super) fn sum_of(number: u32, shape: Shape) -> Word {
    let mut sum = Word::zero();
    for j in 0..u32::from(shape.na) {
        let at = j.wrapping_mul(u32::from(shape.offset));
        sum.xor_in(&word_of(number.wrapping_add(at)));
    }
    sum
}

/// Whether a datagram of this SSRC may come: where it is fresh, a flush step must find nothing left.
fn is_flushed_for(desk: &mut Desk, ssrc: u32) -> bool
    ensures { IsTrue result → IsFresh desk.new.state ssrc → ¬ HasMore desk.new.state }
{
    if !desk.fresh(ssrc) {
        return true;
    }
    desk.room() && desk.flush_step_in_place().is_none()
}

/// Admits a media datagram. None where a play is due or more is to be flushed first, or the word is no
/// media word.
pub(super) fn admit_media(desk: &mut Desk, seq: u16, ssrc: u32, share: Shared) -> Option<Reply> {
    if !is_flushed_for(desk, ssrc) {
        return None;
    }
    if !desk.room() || desk.due(seq, ssrc) || !share.word().is_media() {
        return None;
    }
    Some(desk.admit_media(seq, ssrc, share))
}

/// Admits a parity datagram. None where there is no such shape.
pub(super) fn admit_parity(
    desk: &mut Desk,
    base: u16,
    shape: Shape,
    share: Shared,
) -> Option<Reply> {
    if !desk.room() || !shape_ok(shape) {
        return None;
    }
    Some(desk.admit_parity(base, shape, share))
}

/// Plays a window. None before the first media datagram.
pub(super) fn play(desk: &mut Desk, alloc: Global) -> Result<Option<(Played, Tray)>, AllocError> {
    if !desk.room() || desk.top().is_none() {
        return Ok(None);
    }
    let mut tray = Tray::new(alloc, desk.window())?;
    let played = desk.play(&mut tray);
    Ok(Some((played, tray)))
}

/// Plays a flush step.
pub(super) fn flush(desk: &mut Desk, alloc: Global) -> Result<Option<(Played, Tray)>, AllocError> {
    if !desk.room() {
        return Ok(None);
    }
    let mut tray = Tray::new(alloc, desk.window())?;
    Ok(desk.flush_step(&mut tray).map(|played| (played, tray)))
}

/// Plays a held step. None where a word may wait for ever.
pub(super) fn held(
    desk: &mut Desk,
    alloc: Global,
    time: u64,
) -> Result<Option<(Played, Tray)>, AllocError> {
    if !desk.room() || desk.hold() == 0 {
        return Ok(None);
    }
    let mut tray = Tray::new(alloc, desk.window())?;
    Ok(desk.held_step(time, &mut tray).map(|played| (played, tray)))
}

/// Whether a window of this many positions is played in place.
fn plays_in_place(desk: &mut Desk, outcome: Outcome, count: u32) -> bool {
    if !desk.room() || desk.top().is_none() {
        return false;
    }
    let first = desk.mark();
    let played = desk.play_in_place();
    played
        == Played {
            first,
            count,
            verdict: outcome,
        }
}

/// Whether a flush step plays this many positions in place.
fn flushes_in_place(desk: &mut Desk, outcome: Outcome, count: u32) -> bool {
    if !desk.room() {
        return false;
    }
    let first = desk.mark();
    is_step(first, desk.flush_step_in_place(), outcome, count)
}

/// Whether a held step plays this many positions in place.
fn plays_held_in_place(desk: &mut Desk, time: u64, outcome: Outcome, count: u32) -> bool {
    if !desk.room() || desk.hold() == 0 {
        return false;
    }
    let first = desk.mark();
    is_step(first, desk.held_step_in_place(time), outcome, count)
}

/// Whether a step played this many positions from the mark before it on, or nothing where they are none.
fn is_step(first: u64, done: Option<Played>, outcome: Outcome, count: u32) -> bool {
    match done {
        Some(played) => {
            played
                == Played {
                    first,
                    count,
                    verdict: outcome,
                }
        }
        None => count == 0,
    }
}

fn media_replies(
    desk: &mut Desk,
    alloc: Global,
    seq: u16,
    ssrc: u32,
    number: u32,
    want: Reply,
) -> Result<bool, AllocError> {
    let share = word_of(number).share(alloc)?;
    Ok(admit_media(desk, seq, ssrc, share) == Some(want))
}

fn run_is_admitted(
    desk: &mut Desk,
    alloc: Global,
    seq: u16,
    count: u16,
    lost: u128,
) -> Result<bool, AllocError> {
    let mut admitted = true;
    for i in 0..count {
        if lost >> (i % 128) & 1 == 0 {
            let seq = seq.wrapping_add(i);
            admitted &= media_replies(desk, alloc, seq, 0, u32::from(seq), Reply::Admitted)?;
        }
    }
    Ok(admitted)
}

fn parity_replies(
    desk: &mut Desk,
    alloc: Global,
    base: u16,
    shape: Shape,
    number: u32,
    want: Reply,
) -> Result<bool, AllocError> {
    let mut sum = sum_of(number % FLIPPED, shape);
    if number >= FLIPPED {
        sum.bytes[1315] ^= 1;
    }
    let share = sum.share(alloc)?;
    Ok(admit_parity(desk, base, shape, share) == Some(want))
}

fn parities_are_admitted(
    desk: &mut Desk,
    alloc: Global,
    bases: Range<u16>,
    na: u8,
) -> Result<bool, AllocError> {
    let shape = Shape { offset: 1, na };
    for base in bases {
        if !parity_replies(desk, alloc, base, shape, u32::from(base), Reply::Admitted)? {
            return Ok(false);
        }
    }
    Ok(true)
}

/// What a play is to show.
#[derive(Clone, Copy)]
struct Shows {
    outcome: Outcome,
    count: u32,
    missing: u128,
    repaired: u128,
    flipped: u128,
}

fn to_show(outcome: Outcome, count: u32, missing: u128, repaired: u128, flipped: u128) -> Shows {
    Shows {
        outcome,
        count,
        missing,
        repaired,
        flipped,
    }
}

/// Whether a play shows this, from the mark before it on.
fn is_shown(mark: u64, done: Option<(Played, Tray)>, want: Shows) -> bool {
    let Some((played, tray)) = done else {
        return false;
    };
    if played.first != mark || played.count != want.count || played.verdict != want.outcome {
        return false;
    }
    for i in 0..128u32 {
        if !is_shown_at(&tray, i, (mark % u64::from(FLIPPED)) as u32, want) {
            return false;
        }
    }
    true
}

fn is_shown_at(tray: &Tray, i: u32, mark: u32, want: Shows) -> bool {
    let missing = i >= want.count || want.missing >> (i % 128) & 1 == 1;
    let flipped = want.flipped >> (i % 128) & 1 == 1;
    let position = mark.wrapping_add(i) % FLIPPED;
    let number = if flipped {
        position + FLIPPED
    } else {
        position
    };
    let right = match tray.word(i) {
        Some(word) => !missing && word.same(&word_of(number)),
        None => missing,
    };
    right && tray.repaired(i) == (want.repaired >> (i % 128) & 1 == 1)
}

/// Whether a position has a known word, and whether that is shared.
fn is_known(desk: &Desk, position: u64, known: bool, shared: bool) -> bool {
    let right = match desk.word(position) {
        Some(word) => known && word.same(&word_of((position % 1_000_000) as u32)),
        None => !known,
    };
    right
        && desk.share(position).is_some() == shared
        && desk.repaired(position) == (known && !shared)
}

fn is_at(desk: &Desk, place: u32, base: Option<u64>) -> bool {
    match desk.line(place) {
        Some(line) => line.place == place && base == Some(line.base),
        None => base.is_none(),
    }
}

/// Plays while a play is due for a sequence number.
fn plays_on(desk: &mut Desk, alloc: Global, seq: u16) -> Result<bool, AllocError> {
    for _ in 0..400 {
        if !desk.due(seq, 0) {
            return Ok(true);
        }
        if play(desk, alloc)?.is_none() {
            return Ok(false);
        }
    }
    Ok(false)
}

/// Whether a call answers as is wanted.
fn answers(desk: &mut Desk, alloc: Global, step: Step) -> Result<bool, AllocError> {
    match step {
        Step::Media(seq, number, reply) => media_replies(desk, alloc, seq, 0, number, reply),
        Step::From(ssrc, seq, number, reply) => media_replies(
            desk, alloc, seq, ssrc, number, reply,
        ),
        Step::Run(seq, count, lost) => run_is_admitted(desk, alloc, seq, count, lost),
        Step::Parity(base, offset, na, number, reply) => {
            parity_replies(desk, alloc, base, Shape { offset, na }, number, reply)
        }
        Step::Parities(base, end, na) => parities_are_admitted(desk, alloc, base..end, na),
        Step::Plays(seq) => plays_on(desk, alloc, seq),
        Step::Play(outcome, count, missing, repaired, flipped) => {
            let want = to_show(outcome, count, missing, repaired, flipped);
            Ok(is_shown(desk.mark(), play(desk, alloc)?, want))
        }
        Step::Flush(outcome, count, missing, repaired, flipped) => {
            let want = to_show(outcome, count, missing, repaired, flipped);
            Ok(is_shown(desk.mark(), flush(desk, alloc)?, want))
        }
        Step::Flushed => Ok(flush(desk, alloc)?.is_none()),
        Step::Held(time, outcome, count, missing, repaired, flipped) => {
            let want = to_show(outcome, count, missing, repaired, flipped);
            Ok(is_shown(desk.mark(), held(desk, alloc, time)?, want))
        }
        Step::HeldInPlace(time, outcome, count) => {
            Ok(plays_held_in_place(desk, time, outcome, count))
        }
        Step::PlayInPlace(outcome, count) => Ok(plays_in_place(desk, outcome, count)),
        Step::FlushInPlace(outcome, count) => Ok(flushes_in_place(desk, outcome, count)),
        Step::SkipDue(..) | Step::SkipRest(..) | Step::SkipHeld(..) => Ok(skips(desk, step)),
        _ => Ok(tells(desk, step)),
    }
}

/// Whether so many windows that show nothing are played at once.
fn skips(desk: &mut Desk, step: Step) -> bool {
    match step {
        Step::SkipDue(seq, count) => desk.skip_due(seq, 0) == count,
        Step::SkipRest(count) => desk.skip_rest() == count,
        Step::SkipHeld(time, count) => desk.hold() > 0 && desk.skip_held(time) == count,
        _ => false,
    }
}

/// Whether a desk tells of itself what is wanted.
fn tells(desk: &Desk, step: Step) -> bool {
    match step {
        Step::Due(seq, due) => desk.due(seq, 0) == due,
        Step::HoldsBy(time, count) => {
            desk.held_count(time) == count && desk.held(time) == (count > 0)
        }
        Step::Playout(window, depth) => desk.window() == window && desk.depth() == depth,
        Step::Mark(mark) => desk.mark() == mark,
        Step::Live(live) => desk.live() == live,
        Step::Epoch(epoch) => desk.epoch() == epoch,
        Step::Senders(current, previous, runs) => {
            desk.current() == current && desk.previous() == previous && desk.runs() == runs
        }
        Step::Known(position, known, shared) => is_known(desk, position, known, shared),
        Step::Place(place, base) => is_at(desk, place, base),
        _ => false,
    }
}

/// A desk follows a script.
pub(super) fn follows(
    rt: &impl Abort,
    alloc: Global,
    window: u32,
    depth: u32,
    script: &[Step],
) -> Result<(), Fail> {
    follows_within(rt, alloc, window, depth, 0, script)
}

/// A desk on which no word waits longer than this follows a script.
pub(super) fn follows_within(
    rt: &impl Abort,
    alloc: Global,
    window: u32,
    depth: u32,
    hold: u64,
    script: &[Step],
) -> Result<(), Fail> {
    assert!(rt; 1 <= window && window <= 100 && window <= depth && depth <= 1000);
    let mut desk = Desk::new(alloc, window, depth, hold)?;
    goes_on(rt, alloc, &mut desk, script)
}

/// A desk follows a script from here on.
pub(super) fn goes_on(
    rt: &impl Abort,
    alloc: Global,
    desk: &mut Desk,
    script: &[Step],
) -> Result<(), Fail> {
    for (i, step) in script.iter().enumerate() {
        assert!(rt; answers(desk, alloc, *step)?, "step {i}");
    }
    Ok(())
}
