//! A desk alone, which takes what a board's admitter takes.

use super::admit::Window;
use fg_desk::{Desk, Played, Reply, Tray};
use fg_shape::{Shape, shape_ok};
use fg_words::Shared;
use std::alloc::{AllocError, Global};

/// Admits a media datagram. None where a play is due first, where a run begins and something is left to be shown first, or
/// where the word is no media word.
pub(super) fn media(desk: &mut Desk, seq: u16, ssrc: u32, share: Shared) -> Option<Reply> {
    if desk.fresh(ssrc) {
        return begin(desk, seq, ssrc, share);
    }
    if !desk.room() || desk.due(seq, ssrc) || !share.word().is_media() {
        return None;
    }
    Some(desk.admit_media(seq, ssrc, share))
}

// Admits a media datagram with which a run may begin.
fn begin(desk: &mut Desk, seq: u16, ssrc: u32, share: Shared) -> Option<Reply> {
    if !desk.room() || desk.flush_step_in_place().is_some() {
        return None;
    }
    if !desk.room() || desk.due(seq, ssrc) || !share.word().is_media() {
        return None;
    }
    Some(desk.admit_media(seq, ssrc, share))
}

/// Admits a parity datagram. None where there is no such shape.
pub(super) fn parity(desk: &mut Desk, base: u16, shape: Shape, share: Shared) -> Option<Reply> {
    if !desk.room() || !shape_ok(shape) {
        return None;
    }
    Some(desk.admit_parity(base, shape, share))
}

/// Plays a window. None where there is no such one.
pub(super) fn play(
    desk: &mut Desk,
    alloc: Global,
    window: Window,
) -> Result<Option<(Played, Tray)>, AllocError> {
    let mut tray = Tray::new(alloc, 100)?;
    if !desk.room() {
        return Ok(None);
    }
    let played = match window {
        Window::Due(seq, ssrc) if desk.due(seq, ssrc) => Some(desk.play(&mut tray)),
        Window::Rest => desk.flush_step(&mut tray),
        Window::Held(time) if desk.hold() > 0 => desk.held_step(time, &mut tray),
        Window::Due(..) | Window::Held(_) => None,
    };
    Ok(played.map(|played| (played, tray)))
}

/// Whether two plays show the same, or neither was made.
pub(super) fn same_plays(one: &Option<(Played, Tray)>, other: &Option<(Played, Tray)>) -> bool {
    match (one, other) {
        (Some(one), Some(other)) => same_play(one, other),
        (None, None) => true,
        _ => false,
    }
}

/// Whether two plays show the same.
pub(super) fn same_play(one: &(Played, Tray), other: &(Played, Tray)) -> bool {
    one.0 == other.0 && same_trays(&one.1, &other.1)
}

fn same_trays(one: &Tray, other: &Tray) -> bool {
    for i in 0..100u32 {
        let same = match (one.word(i), other.word(i)) {
            (Some(word), Some(other_word)) => word.same(other_word),
            (None, None) => true,
            _ => false,
        };
        if !same || one.repaired(i) != other.repaired(i) {
            return false;
        }
    }
    true
}
