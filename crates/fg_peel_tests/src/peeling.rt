//! A worked block of four rows and four columns, and random blocks against a peeler that plays
//! every order of steps on timestamps alone.

ghost use Rattle.std.specs.Prelude.{◌≤◌, IsTrue, length};
ghost use Rattle.fg_peel.specs.Slots.{FitsFrom, AllFitFrom};

use fg_peel::{Line, Slot, Verdict, peel};
use fg_shape::{Shape, last, shape_ok};
use fg_words::Word;
use rand_core::utils::NextWord;
use rand_pcg::Pcg32;
use slab::Slab;
use std::alloc::{AllocError, Global};
use std::process::Abort;
use std::test::Fail;

const ROW: Shape = Shape { offset: 1, na: 4 };

const COLUMN: Shape = Shape { offset: 4, na: 4 };

/// The block's equations in the order in which an encoder sends them: row 3 comes last.
const EQUATIONS: [(u8, Shape); 8] = [
    (0, ROW),
    (4, ROW),
    (8, ROW),
    (0, COLUMN),
    (1, COLUMN),
    (2, COLUMN),
    (3, COLUMN),
    (12, ROW),
];

const ALL: u8 = 0xff;

const ALL_BUT_COLUMN_3: u8 = 0xbf;

const ROW_0_ALONE: u8 = 0x01;

/// A media word of seven packets.
fn media(timestamp: u32) -> Word {
    let mut word = Word::zero();
    word.pt = 33;
    word.ts = timestamp;
    word.len = 1316;
    for i in 0..1316 {
        word.bytes[i] = if i % 188 == 0 {
            0x47
        } else {
            ((timestamp as usize + i) % 251) as u8
        };
    }
    word
}

/// The entries of a block with these timestamps, but for the lost ones.
fn entries(alloc: Global, stamps: &[u32; 16], lost: u16) -> Result<Vec<Slot>, AllocError> {
    let mut slots = Vec::new(alloc);
    for (i, stamp) in stamps.iter().enumerate() {
        if lost >> (i % 16) & 1 == 1 {
            slots.push(Slot::Empty)?;
        } else {
            slots.push(Slot::Media(media(*stamp).share(alloc)?))?;
        }
    }
    Ok(slots)
}

/// A parity word that is wrong in these bits.
#[derive(Clone, Copy)]
struct Flip {
    equation: usize,
    timestamp: u32,
    length: u16,
}

const NO_FLIP: Flip = Flip {
    equation: 0,
    timestamp: 0,
    length: 0,
};

/// The given equations of a block with these timestamps.
fn given_lines(
    alloc: Global,
    stamps: &[u32; 16],
    given: u8,
    flip: Flip,
) -> Result<Slab<Line>, AllocError> {
    let mut lines = Slab::new(alloc);
    let mut place = 0u32;
    for i in 0..8usize {
        if given >> i & 1 == 1 {
            let (base, shape) = EQUATIONS[i];
            let mut parity = Word::zero();
            for j in 0..4usize {
                let slot = usize::from(base) + j * usize::from(shape.offset);
                parity.xor_in(&media(stamps[slot % 16]));
            }
            if i == flip.equation {
                parity.ts ^= flip.timestamp;
                parity.len ^= flip.length;
            }
            let line = Line {
                base: u64::from(base),
                shape,
                parity: parity.share(alloc)?,
                serial: u64::from(place),
                place,
            };
            let _key = lines.insert(line)?;
            place = place.saturating_add(1);
        }
    }
    Ok(lines)
}

/// Whether a line's slots are among the `count` positions from `start` on.
fn line_fits(start: u64, count: usize, line: &Line) -> bool
    requires { count ≤ 100 }
    ensures { IsTrue result → FitsFrom start count line.now }
{
    if !shape_ok(line.shape) || line.base < start || line.base > 1_000_000 {
        return false;
    }
    last(line.base, line.shape) - start < count as u64
}

fn lines_fit(start: u64, slots: &[Slot], lines: &Slab<Line>) -> bool
    requires { length slots.now ≤ 100 }
    ensures { IsTrue result → AllFitFrom start slots.now lines.now }
{
    for (_, line) in lines.iter() {
        if !line_fits(start, slots.len(), line) {
            return false;
        }
    }
    true
}

fn peel_block(rt: &impl Abort, slots: &mut [Slot], lines: &Slab<Line>) -> Verdict {
    assert!(rt; slots.len() <= 100);
    assert!(rt; lines_fit(0, slots, lines));
    peel(0, slots, lines)
}

/// The same where two entries stand for positions below 0.
fn peel_after_two(rt: &impl Abort, slots: &mut [Slot], lines: &Slab<Line>) -> Verdict {
    assert!(rt; slots.len() <= 100 && slots.len() >= 2);
    let (_, rest) = slots.split_at(2);
    assert!(rt; lines_fit(0, rest, lines));
    peel(-2, slots, lines)
}

/// The same where the first entry stands for position 1000.
fn peel_from_1000(rt: &impl Abort, slots: &mut [Slot], lines: &Slab<Line>) -> Verdict {
    assert!(rt; slots.len() <= 100);
    assert!(rt; lines_fit(1000, slots, lines));
    peel(1000, slots, lines)
}

/// Which entries were filled.
fn filled(slots: &[Slot]) -> u16 {
    let mut mask = 0u16;
    for (i, slot) in slots.iter().enumerate() {
        if i < 16 && matches!(slot, Slot::Filled(_)) {
            mask |= 1 << i;
        }
    }
    mask
}

/// The least place of an equation whose timestamps are all there and don't sum to the parity's.
fn least_broken(slots: &[Slot], lines: &Slab<Line>) -> Option<u32> {
    let mut least: Option<u32> = None;
    for (_, line) in lines.iter() {
        let mut sum = line.parity.word().ts;
        let mut whole = true;
        for j in 0..20u64 {
            if j < u64::from(line.shape.na) {
                let slot = line.base.saturating_add(j * u64::from(line.shape.offset));
                match slots.get(slot as usize).and_then(|entry| entry.word()) {
                    Some(word) => sum ^= word.ts,
                    None => whole = false,
                }
            }
        }
        if whole && sum != 0 && least.is_none_or(|place| line.place < place) {
            least = Some(line.place);
        }
    }
    least
}

#[test]
fn worked_block(rt: HostRuntime) -> Result<(), Fail> {
    let mut stamps = [0u32; 16];
    for (i, stamp) in stamps.iter_mut().enumerate() {
        *stamp = 1000 * (i as u32 % 16 + 1);
    }
    let flipped = Flip {
        equation: 1,
        timestamp: 1 << 7,
        length: 0,
    };
    let shortened = Flip {
        equation: 0,
        timestamp: 0,
        length: 1316 ^ 100,
    };
    // Lost entries, given equations, the flip, filled entries, and the verdict.
    let rows = [
        (0x0260, ALL, NO_FLIP, 0x0260, Verdict::Sound),
        (0x0660, ALL, NO_FLIP, 0x0000, Verdict::Sound),
        (0x0c60, ALL_BUT_COLUMN_3, NO_FLIP, 0x0c60, Verdict::Sound),
        (0x0000, ALL, flipped, 0x0000, Verdict::Unsound { place: 1 }),
        // Row 1 gives the wrong word, with which column 1 fails.
        (0x0020, ALL, flipped, 0x0020, Verdict::Unsound { place: 4 }),
        (
            0x0008,
            ROW_0_ALONE,
            shortened,
            0x0008,
            Verdict::NotMedia { slot: 3 },
        ),
    ];
    for (lost, given, flip, want, verdict) in rows {
        let mut slots = entries(rt.alloc(), &stamps, lost)?;
        let lines = given_lines(rt.alloc(), &stamps, given, flip)?;
        assert!(rt;
            peel_block(&rt, &mut slots, &lines) == verdict,
            "lost {lost}"
        );
        assert_eq!(rt; filled(&slots), want, "lost {lost}");
        for (slot, stamp) in slots.iter().zip(stamps.iter()) {
            if verdict == Verdict::Sound
                && let Slot::Filled(word) = slot
            {
                assert!(rt; word.same(&media(*stamp)), "lost {lost}");
            }
        }
        if let Verdict::Unsound { place } = verdict {
            assert!(rt; least_broken(&slots, &lines) == Some(place), "lost {lost}");
        }
    }
    Ok(())
}

#[test]
fn entries_below_position_0(rt: HostRuntime) -> Result<(), Fail> {
    let stamps = [7u32; 16];
    let lines = given_lines(rt.alloc(), &stamps, ROW_0_ALONE, NO_FLIP)?;
    // One lost at each side of position 0.
    let mut slots = entries(rt.alloc(), &stamps, 0x0006)?;
    assert!(rt; peel_after_two(&rt, &mut slots, &lines) == Verdict::Sound);
    assert_eq!(rt; filled(&slots), 0x0004);
    Ok(())
}

/// Row 0 of a block of these timestamps, where entry 1 has a word that workers solved, entry 2 one
/// that was shown before, and entry 3 none.
fn mixed_row(alloc: Global, solved: Word, shown: Word) -> Result<Vec<Slot>, AllocError> {
    let mut slots = Vec::new(alloc);
    slots.push(Slot::Media(media(1).share(alloc)?))?;
    slots.push(Slot::Solved(solved.share(alloc)?))?;
    slots.push(Slot::Filled(shown))?;
    slots.push(Slot::Empty)?;
    Ok(slots)
}

/// The verdict on such a row, after peeling by an equation that is right of `media(1)` to
/// `media(4)`.
fn mixed_verdict(rt: &impl Abort, alloc: Global, slots: &mut [Slot]) -> Result<Verdict, Fail> {
    let mut stamps = [0u32; 16];
    for (i, stamp) in stamps.iter_mut().enumerate() {
        *stamp = i as u32 % 16 + 1;
    }
    let lines = given_lines(alloc, &stamps, ROW_0_ALONE, NO_FLIP)?;
    Ok(peel_block(rt, slots, &lines))
}

/// Whether an entry is a filled one with this word.
fn is_filled_with(slot: &Slot, want: &Word) -> bool {
    match slot {
        Slot::Filled(word) => word.same(want),
        Slot::Empty | Slot::Media(_) | Slot::Solved(_) => false,
    }
}

#[test]
fn solved_and_shown_words_serve_and_stay(rt: HostRuntime) -> Result<(), Fail> {
    let mut slots = mixed_row(rt.alloc(), media(2), media(3))?;
    assert!(rt; mixed_verdict(&rt, rt.alloc(), &mut slots)? == Verdict::Sound);
    assert!(rt; slots.len() == 4);
    assert!(rt; matches!(&slots[1], Slot::Solved(word) if word.word().same(&media(2))));
    assert!(rt; is_filled_with(&slots[2], &media(3)));
    assert!(rt; is_filled_with(&slots[3], &media(4)));
    Ok(())
}

#[test]
fn solved_word_that_is_no_media_word(rt: HostRuntime) -> Result<(), Fail> {
    let mut slots = mixed_row(rt.alloc(), Word::zero(), media(3))?;
    let verdict = mixed_verdict(&rt, rt.alloc(), &mut slots)?;
    assert!(rt; verdict == Verdict::NotMedia { slot: 1 });
    Ok(())
}

/// One equation of this shape, whose slots have media words stamped with their positions.
fn stamped_line(alloc: Global, base: u32, shape: Shape) -> Result<Slab<Line>, AllocError> {
    let mut parity = Word::zero();
    for j in 0..u32::from(shape.na) {
        parity.xor_in(&media(base.wrapping_add(j.wrapping_mul(u32::from(shape.offset)))));
    }
    let mut lines = Slab::new(alloc);
    let line = Line {
        base: u64::from(base),
        shape,
        parity: parity.share(alloc)?,
        serial: 0,
        place: 0,
    };
    let _key = lines.insert(line)?;
    Ok(lines)
}

/// A hundred entries with media words stamped with their positions, but for the one at `lost`.
fn stamped_row(alloc: Global, start: u32, lost: u32) -> Result<Vec<Slot>, AllocError> {
    let mut slots = Vec::new(alloc);
    for i in 0..100u32 {
        if i == lost {
            slots.push(Slot::Empty)?;
        } else {
            slots.push(Slot::Media(media(start.wrapping_add(i)).share(alloc)?))?;
        }
    }
    Ok(slots)
}

/// Whether the last slot of an equation of this shape is recovered where all others are known, in a
/// row of a hundred positions from `start` on.
fn recovers_last(rt: &impl Abort, alloc: Global, start: u32, shape: Shape) -> Result<bool, Fail> {
    let lost = (u32::from(shape.na).wrapping_sub(1)).wrapping_mul(u32::from(shape.offset));
    let mut slots = stamped_row(alloc, start, lost)?;
    let lines = stamped_line(alloc, start, shape)?;
    let verdict = if start == 1000 {
        peel_from_1000(rt, &mut slots, &lines)
    } else {
        peel_block(rt, &mut slots, &lines)
    };
    let want = media(start.wrapping_add(lost));
    let there = slots
        .get(lost as usize)
        .is_some_and(|slot| is_filled_with(slot, &want));
    Ok(verdict == Verdict::Sound && there)
}

#[test]
fn shapes_at_their_limits(rt: HostRuntime) -> Result<(), Fail> {
    // One slot; twenty; the longest spans; the greatest offset.
    for (offset, na) in [(1, 1), (1, 20), (5, 20), (11, 10), (9, 12), (20, 5)] {
        assert!(rt;
            recovers_last(&rt, rt.alloc(), 0, Shape { offset, na })?,
            "{offset} {na}"
        );
    }
    Ok(())
}

#[test]
fn entries_from_a_later_position_on(rt: HostRuntime) -> Result<(), Fail> {
    assert!(rt; recovers_last(&rt, rt.alloc(), 1000, ROW)?);
    assert!(rt; recovers_last(&rt, rt.alloc(), 1000, COLUMN)?);
    Ok(())
}

/// Lines of two neighbouring positions each, by rising position, of media words stamped with theirs.
fn chain_lines(alloc: Global) -> Result<Slab<Line>, AllocError> {
    let mut lines = Slab::new(alloc);
    for i in 0..99u32 {
        let mut parity = media(i);
        parity.xor_in(&media(i + 1));
        let line = Line {
            base: u64::from(i),
            shape: Shape { offset: 1, na: 2 },
            parity: parity.share(alloc)?,
            serial: u64::from(i),
            place: i,
        };
        let _key = lines.insert(line)?;
    }
    Ok(lines)
}

/// A hundred entries of which the last alone has a word.
fn chain_row(alloc: Global) -> Result<Vec<Slot>, AllocError> {
    let mut slots = Vec::new(alloc);
    for _ in 0..99 {
        slots.push(Slot::Empty)?;
    }
    slots.push(Slot::Media(media(99).share(alloc)?))?;
    Ok(slots)
}

#[test]
fn chain_that_opens_from_its_last_line(rt: HostRuntime) -> Result<(), Fail> {
    let mut slots = chain_row(rt.alloc())?;
    let lines = chain_lines(rt.alloc())?;
    assert!(rt; peel_block(&rt, &mut slots, &lines) == Verdict::Sound);
    for (i, slot) in slots.iter().enumerate() {
        assert!(rt;
            i >= 99 || is_filled_with(slot, &media(i as u32 % 100)),
            "position {i}"
        );
    }
    Ok(())
}

/// An equation on timestamps alone: the slots as bits, and the sum.
#[derive(Clone, Copy)]
struct Plain {
    mask: u16,
    parity: u32,
}

/// What the ends of all orders of steps have in common.
#[derive(Drop)]
struct Ends {
    count: u32,
    sound: u32,
    known: u16,
    stamps: [u32; 16],
    agree: bool,
}

fn plain_lines(alloc: Global, lines: &Slab<Line>) -> Result<Vec<Plain>, AllocError> {
    let mut plain = Vec::new(alloc);
    for (_, line) in lines.iter() {
        let row = line.shape.offset == 1;
        let mask: u16 = if row { 0x000f } else { 0x1111 };
        plain.push(Plain {
            mask: mask.wrapping_shl((line.base % 16) as u32),
            parity: line.parity.word().ts,
        })?;
    }
    Ok(plain)
}

fn sum_at(stamps: &[u32; 16], mask: u16) -> u32 {
    let mut sum = 0;
    for (i, stamp) in stamps.iter().enumerate() {
        if mask >> (i % 16) & 1 == 1 {
            sum ^= *stamp;
        }
    }
    sum
}

/// Plays every order of at most `depth` steps from these timestamps, and notes where they end.
fn play_all(lines: &[Plain], known: u16, stamps: &[u32; 16], depth: u8, ends: &mut Ends) {
    let mut ended = true;
    for line in lines {
        let unknown = line.mask & !known;
        if depth > 0 && unknown.count_ones() == 1 {
            ended = false;
            let mut next = *stamps;
            for i in 0..16 {
                if unknown >> i & 1 == 1 {
                    next[i] = line.parity ^ sum_at(stamps, line.mask & known);
                }
            }
            play_all(lines, known | unknown, &next, depth - 1, ends);
        }
    }
    if ended {
        note_end(lines, known, stamps, ends);
    }
}

/// Notes an end. It is sound if each equation comes out whose timestamps are all there.
fn note_end(lines: &[Plain], known: u16, stamps: &[u32; 16], ends: &mut Ends) {
    ends.agree = ends.agree && (ends.count == 0 || ends.known == known);
    ends.known = known;
    ends.count = ends.count.saturating_add(1);
    let mut sound = true;
    for line in lines {
        if line.mask & !known == 0 && sum_at(stamps, line.mask) != line.parity {
            sound = false;
        }
    }
    if sound {
        ends.agree = ends.agree && (ends.sound == 0 || ends.stamps == *stamps);
        ends.stamps = *stamps;
        ends.sound = ends.sound.saturating_add(1);
    }
}

/// Up to four lost positions. Half of the time they are among nine neighbours.
fn some_lost(random: &mut Pcg32) -> u16 {
    let mut lost = 0u16;
    let near = random.next_word() % 2 == 0;
    for _ in 0..random.next_word() % 5 {
        let place = random.next_word() % 16;
        let near_place = place % 3 + 4 * (place / 4 % 3);
        lost |= 1u16.wrapping_shl(if near { near_place } else { place });
    }
    lost
}

fn some_flip(random: &mut Pcg32) -> Flip {
    let wrong = random.next_word() % 3 == 0;
    Flip {
        equation: random.next_word() as usize % 8,
        timestamp: if wrong { 1 + random.next_word() / 2 } else { 0 },
        length: 0,
    }
}

/// One random block: the peeler and all orders agree on the closure, the verdict and the words.
fn try_block(rt: &impl Abort, alloc: Global, random: &mut Pcg32) -> Result<(), Fail> {
    let mut stamps = [0u32; 16];
    for stamp in stamps.iter_mut() {
        *stamp = random.next_word();
    }
    let lost = some_lost(random);
    let given = if random.next_word() % 2 == 0 {
        ALL
    } else {
        (random.next_word() % 256) as u8
    };
    let lines = given_lines(alloc, &stamps, given, some_flip(random))?;
    let mut slots = entries(alloc, &stamps, lost)?;
    let verdict = peel_block(rt, &mut slots, &lines);

    let mut ends = Ends {
        count: 0,
        sound: 0,
        known: 0,
        stamps: [0; 16],
        agree: true,
    };
    play_all(&plain_lines(alloc, &lines)?, !lost, &stamps, 16, &mut ends);
    assert!(rt; ends.agree && (ends.sound == 0 || ends.sound == ends.count));
    assert_eq!(rt; filled(&slots), ends.known & lost);
    match verdict {
        Verdict::Sound => assert!(rt; ends.sound > 0),
        Verdict::Unsound { place } => {
            assert_eq!(rt; ends.sound, 0);
            assert!(rt; least_broken(&slots, &lines) == Some(place));
        }
        Verdict::NotMedia { .. } => assert!(rt; false, "each recovered word is a media word"),
    }
    if verdict == Verdict::Sound {
        assert!(rt; are_filled_with(&slots, &stamps, &ends.stamps));
    }
    Ok(())
}

/// Whether each filled entry has the word of this block but for the timestamp that was found.
fn are_filled_with(slots: &[Slot], stamps: &[u32; 16], found: &[u32; 16]) -> bool {
    for (i, slot) in slots.iter().enumerate() {
        let mut want = media(stamps[i % 16]);
        want.ts = found[i % 16];
        if matches!(slot, Slot::Filled(_)) && !is_filled_with(slot, &want) {
            return false;
        }
    }
    true
}

#[test]
fn random_blocks(rt: HostRuntime) -> Result<(), Fail> {
    let mut random = Pcg32::new(2022, 1);
    for _ in 0..150 {
        try_block(&rt, rt.alloc(), &mut random)?;
    }
    Ok(())
}
