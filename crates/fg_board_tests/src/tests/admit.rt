//! What an admitter does, where the conditions of its calls are met.

ghost use Rattle.std.specs.Prelude.{◌≡◌, ◌≤◌};

use fg_board::{Admitter, Board, Key};
use fg_desk::{Played, Reply, Tray};
use fg_shape::{Shape, shape_ok};
use fg_words::Shared;
use std::alloc::{AllocError, Global};
use std::sync::Wait;

/// Which window is to be played or passed.
#[derive(Clone, Copy)]
pub(super) enum Window {
    /// One that is due before a datagram of this sequence number and SSRC.
    Due(u16, u32),
    /// One that is a step of a flush.
    Rest,
    /// One that is held at this time. There is none where a word may wait for ever.
    Held(u64),
}

/// Admits a media datagram. None where a play is due first, where a run begins and something is left to be shown first, or
/// where the word is no media word.
pub(super) fn media(
    wait: &impl Wait,
    alloc: Global,
    board: &Board,
    admitter: &mut Admitter,
    seq: u16,
    ssrc: u32,
    share: Shared,
) -> Result<Option<Reply>, AllocError>
    requires turn { admitter.old.seat.turn ≡ board.now.name }
    requires window { admitter.old.playout.window ≤ 100 }
    ensures turn { admitter.new.seat.turn ≡ admitter.old.seat.turn }
    ensures window { admitter.new.playout.window ≡ admitter.old.playout.window }
{
    if admitter.fresh(ssrc) {
        let mut tray = Tray::new(alloc, 100)?;
        if !admitter.room() || admitter.flush_step(wait, board, &mut tray).is_some() {
            return Ok(None);
        }
    }
    if !admitter.room() || admitter.due(seq, ssrc) || !share.word().is_media() {
        return Ok(None);
    }
    Ok(Some(admitter.admit_media(wait, board, seq, ssrc, share)))
}

/// Admits a parity datagram. None where there is no such shape.
pub(super) fn parity(
    wait: &impl Wait,
    board: &Board,
    admitter: &mut Admitter,
    base: u16,
    shape: Shape,
    share: Shared,
) -> Option<(Reply, Option<Key>)>
    requires { admitter.old.seat.turn ≡ board.now.name }
    ensures turn { admitter.new.seat.turn ≡ admitter.old.seat.turn }
    ensures window { admitter.new.playout.window ≡ admitter.old.playout.window }
{
    if !admitter.room() || !shape_ok(shape) {
        return None;
    }
    Some(admitter.admit_parity(wait, board, base, shape, share))
}

/// Plays a window. None where there is no such one.
pub(super) fn play(
    wait: &impl Wait,
    alloc: Global,
    board: &Board,
    admitter: &mut Admitter,
    window: Window,
) -> Result<Option<(Played, Tray)>, AllocError>
    requires turn { admitter.old.seat.turn ≡ board.now.name }
    requires window { admitter.old.playout.window ≤ 100 }
    ensures turn { admitter.new.seat.turn ≡ admitter.old.seat.turn }
    ensures window { admitter.new.playout.window ≡ admitter.old.playout.window }
{
    let mut tray = Tray::new(alloc, 100)?;
    if !admitter.room() {
        return Ok(None);
    }
    let played = match window {
        Window::Due(seq, ssrc) if admitter.due(seq, ssrc) => {
            Some(admitter.play(wait, board, &mut tray))
        }
        Window::Rest => admitter.flush_step(wait, board, &mut tray),
        Window::Held(time) if admitter.hold() > 0 => {
            admitter.held_step(wait, board, time, &mut tray)
        }
        Window::Due(..) | Window::Held(_) => None,
    };
    Ok(played.map(|played| (played, tray)))
}
