//! Which live equations are open, and the work of one that is.

ghost use Rattle.std.specs.Prelude.{◌≡◌, ◌↔◌, ◌<◌, ◌≤◌, ◌^◌, ℕ, [], false, Some, None, Option, IsSome, IfOk, IfSome, IsTrue};
ghost use Rattle.std.specs.List.{Contains};
ghost use Rattle.fg_words.specs.declared.Word.{Word as WordState};
ghost use Rattle.fg_words.specs.Word.{HasRoom};
ghost use Rattle.fg_shape.specs.Shape.{IsShape, position_limit};
ghost use Rattle.fg_peel.specs.declared.Line.{Line as LiveLine};
ghost use Rattle.fg_peel.specs.Slots.{equation_of, lines_of, IsMissing};
ghost use Rattle.fg_peel.specs.Live.{live_limit};
ghost use Rattle.fg_playout.specs.State.{Live};
ghost use Rattle.fg_playout.specs.Facts.{Holds};
ghost use Rattle.fg_desk.specs.Contents.{known_in, shared_at};
ghost use Rattle.fg_core.specs.Board.{IsOpen, IsJobOf, TellsReadable, VouchedAreComplete};
ghost use Rattle.fg_core.specs.Flow.{note_at, says, is_vouched, is_handed_out, board_of, BareAreKept, IsWithin, AreShared, IsOpenLine, IsKeyOfOpen, IsAtMost, AreSharesAt, IsReady, IsStanding, IsSpelled};

use crate::fate::Asked;
use crate::key::Key;
use crate::notes::{Note, Notes};
use crate::work::Work;
use fg_desk::Desk;
use fg_peel::{Line, Missing};
use fg_shape::slot;
use fg_words::Shared;
use slab::Slab;
use std::alloc::{AllocError, Global};

/// What holds of every desk.
pub(crate) fn facts(desk: &Desk)
    ensures facts { Holds desk.now.state }
{
    let _room = desk.room();
}

/// What a key's equation is noted with: what is noted at its place, where that is of it.
pub(crate) fn note_of(notes: &Notes, key: Key) -> Note
    requires { key.place < live_limit }
    ensures serial { result.serial ≡ key.serial }
    ensures epoch { result.epoch ≡ key.epoch }
    ensures vouched { result.vouched ≡ says is_vouched key.epoch key.serial (note_at notes.now key.place) }
    ensures handed_out { result.handed_out ≡ says is_handed_out key.epoch key.serial (note_at notes.now key.place) }
{
    let note = notes.at(key.place);
    if note.serial == key.serial && note.epoch == key.epoch {
        note
    } else {
        Note {
            serial: key.serial,
            epoch: key.epoch,
            vouched: false,
            handed_out: false,
        }
    }
}

/// The key of a live equation.
fn key_of(desk: &Desk, line: &Line) -> Key
    ensures { result ≡ record { place = line.now.place; serial = line.now.serial; epoch = desk.now.epoch } }
{
    Key {
        place: line.place,
        serial: line.serial,
        epoch: desk.epoch(),
    }
}

/// Which slots of a line have no known word.
fn missing(desk: &Desk, line: &Line) -> Missing
    requires shape { IsShape line.now.shape.offset line.now.shape.na }
    requires base { line.now.base ≤ position_limit }
    ensures { IsMissing (known_in desk.now) (equation_of line.now) result }
{
    let mut found = None;
    for j in 0..line.shape.na {
        let position = slot(line.base, line.shape, j);
        if desk.word(position).is_none() {
            if found.is_some() {
                return Missing::Several;
            }
            found = Some(position);
        }
    }
    match found {
        Some(position) => Missing::One(position),
        None => Missing::Nothing,
    }
}

/// Whether the word known at a position stands alone.
fn is_alone(desk: &Desk, position: u64) -> bool
    ensures alone { IsTrue result → IsSome (known_in desk.now position) × (shared_at desk.now position ≡ None) }
    ensures none { result ≡ false → IsSome (known_in desk.now position) → IsSome (shared_at desk.now position) }
{
    desk.word(position).is_some() && desk.share(position).is_none()
}

/// Whether no word known at a line's slots stands alone.
fn are_shared(desk: &Desk, line: &Line) -> bool
    requires shape { IsShape line.now.shape.offset line.now.shape.na }
    requires base { line.now.base ≤ position_limit }
    ensures { IsTrue result ↔ AreShared desk.now line.now }
{
    for j in 0..line.shape.na {
        if is_alone(desk, slot(line.base, line.shape, j)) {
            return false;
        }
    }
    true
}

/// Whether a live equation is open. Its note is quick to see, and its slots are looked at only where it says nothing: up to
/// the second without a word.
fn is_open(desk: &Desk, notes: &Notes, line: &Line) -> bool
    requires within { IsWithin desk.now line.now }
    requires bare { BareAreKept desk.now }
    requires vouched { VouchedAreComplete (board_of desk.now notes.now) }
    ensures { IsTrue result ↔ IsOpenLine desk.now notes.now line.now }
{
    facts(desk);
    let note = note_of(notes, key_of(desk, line));
    if note.handed_out {
        return false;
    }
    if note.vouched {
        return false;
    }
    match missing(desk, line) {
        Missing::Several => false,
        _ => are_shared(desk, line),
    }
}

/// Whether a serial number is less than that of the best key so far.
fn is_less(serial: u64, best: Option<Key>) -> bool
    ensures less { IsTrue result → IfSome best (λ best. serial < best.serial) }
    ensures not_less { result ≡ false → IsAtMost best serial }
{
    match best {
        Some(best) => serial < best.serial,
        None => true,
    }
}

/// The key of the open one of the least serial number among these lines and the best so far.
fn least_open(desk: &Desk, notes: &Notes, lines: &Slab<Line>, best: Option<Key>) -> Option<Key>
    requires within { (line : LiveLine) → Contains (lines_of lines.now) line → IsWithin desk.now line }
    requires bare { BareAreKept desk.now }
    requires vouched { VouchedAreComplete (board_of desk.now notes.now) }
    requires best { IfSome best (IsKeyOfOpen (board_of desk.now notes.now)) }
    ensures open { IfSome result (IsKeyOfOpen (board_of desk.now notes.now)) }
    ensures best { IfSome best (λ best. IsAtMost result best.serial) }
    ensures least { (line : LiveLine) → Contains (lines_of lines.now) line
        → IsOpenLine desk.now notes.now line → IsAtMost result line.serial }
{
    let mut least = best;
    for (_, line) in lines.iter() {
        if is_less(line.serial, least) && is_open(desk, notes, line) {
            least = Some(key_of(desk, line));
        }
    }
    least
}

/// The key of the open equation of the least serial number.
pub(crate) fn next_open(desk: &Desk, notes: &Notes) -> Option<Key>
    requires bare { BareAreKept desk.now }
    requires vouched { VouchedAreComplete (board_of desk.now notes.now) }
    ensures open { IfSome result (IsKeyOfOpen (board_of desk.now notes.now)) }
    ensures least { (serial : ℕ) (live : Live) → IsOpen (board_of desk.now notes.now) serial live
        → IsAtMost result serial }
{
    let (open, settled) = desk.live_lines();
    let best = least_open(desk, notes, open, None);
    least_open(desk, notes, settled, best)
}

/// The live equation of a key.
pub(crate) fn equation_at(desk: &Desk, key: Key) -> Asked
    requires { (live : Live) × IsStanding desk.now key live }
    ensures equation { (live : Live) → IsStanding desk.now key live → IsSpelled live.equation result }
    ensures readable { TellsReadable result }
{
    facts(desk);
    let line = desk.line(key.place).unwrap();
    Asked::Live {
        base: line.base,
        shape: line.shape,
        parity: *line.parity.word(),
    }
}

/// Another share of a word.
fn lent(share: &Shared) -> Result<Shared, AllocError>
    ensures { IfOk result (λ lent. (lent ≡ share.now) × HasRoom lent) }
{
    let _word = share.word();
    share.lend()
}

/// A share of the word known at a position.
pub(crate) fn share_at(desk: &Desk, position: u64) -> Result<Option<Shared>, AllocError>
    ensures { IfOk result (λ share. (share ≡ shared_at desk.now position)
        × ((word : WordState) → share ≡ Some word → HasRoom word)) }
{
    match desk.share(position) {
        Some(share) => Ok(Some(lent(share)?)),
        None => Ok(None),
    }
}

/// The shares of the words known at a line's slots.
fn shares_of(alloc: Global, desk: &Desk, line: &Line) -> Result<Vec<Option<Shared>>, AllocError>
    requires shape { IsShape line.now.shape.offset line.now.shape.na }
    requires base { line.now.base ≤ position_limit }
    ensures { IfOk result (λ shares. AreSharesAt desk.now line.now line.now.shape.na shares.items) }
{
    let mut shares = Vec::with_capacity(alloc, usize::from(line.shape.na))?;
    for j in 0..line.shape.na {
        let share = share_at(desk, slot(line.base, line.shape, j))?;
        shares.push(share)?;
    }
    Ok(shares)
}

/// The work of an open equation.
pub(crate) fn work_of(alloc: Global, desk: &Desk, key: Key) -> Result<Work, AllocError>
    requires { (live : Live) × IsReady desk.now key live }
    ensures key { IfOk result (λ work. work.key ≡ key) }
    ensures job { IfOk result (λ work. (live : Live) → IsReady desk.now key live
        → IsJobOf (board_of desk.now []) live work) }
{
    facts(desk);
    let line = desk.line(key.place).unwrap();
    let parity = lent(&line.parity)?;
    let shares = shares_of(alloc, desk, line)?;
    Ok(Work::new(key, line.base, line.shape, parity, shares))
}
