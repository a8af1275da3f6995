//! What a worker does to one tally under its lock.
ghost use Rattle.std.specs.Prelude.{◌≡◌};

use fg_board::Key;
use fg_shape::laws::each_slot_has_its_number;
use fg_shape::slot;
use fg_tally::{Folded, Held, Tally};
use std::sync::Wait;

/// An equation of which at most one slot isn't folded.
#[derive(Clone, Copy)]
pub struct Ready {
    pub key: Key,
    /// The position of that slot.
    pub missing: Option<u64>,
}

/// Which slots of what is held aren't folded: bit `j` is set where the slot of number `j` isn't.
pub(crate) fn unfolded(held: &Held) -> u32 {
    let all = 1u32.wrapping_shl(u32::from(held.shape.na)).wrapping_sub(1);
    all & !held.folded
}

/// The position of a slot by its number, for what only saves looks.
fn position_of(held: &Held, number: u32) -> u64 {
    let distance = u64::from(number).wrapping_mul(u64::from(held.shape.offset));
    held.base.wrapping_add(distance)
}

/// Whether a tally holds the equation of this key.
pub(crate) fn holds(tally: &Tally<'_>, key: Key) -> bool {
    match tally.held() {
        Some(held) => held.key == key,
        None => false,
    }
}

/// Whether the bit of a number is set.
fn has_number(numbers: u32, number: u32) -> bool {
    numbers.wrapping_shr(number) & 1 == 1
}

/// Folds the slots of these numbers into what a tally holds. Answers whether its equation is still there.
pub(crate) fn fold_slots(wait: &impl Wait, tally: &mut Tally<'_>, numbers: u32) -> bool {
    for number in 0..32u8 {
        if has_number(numbers, u32::from(number))
            && fold_slot(wait, tally, number) == Folded::Stale
        {
            return false;
        }
    }
    true
}

/// Folds the slot of a number into what a tally holds, by the key that it holds.
fn fold_slot(wait: &impl Wait, tally: &mut Tally<'_>, number: u8) -> Folded {
    let Some(held) = tally.held() else {
        return Folded::Stale;
    };
    if number >= held.shape.na {
        return Folded::Unknown;
    }
    each_slot_has_its_number();
    let slot = slot(held.base, held.shape, number);
    tally.fold(wait, held.key, slot)
}

/// What a tally holds, where at most one slot isn't folded.
pub(crate) fn ready_to_settle(tally: &Tally<'_>) -> Option<Ready> {
    let held = tally.held()?;
    let open = unfolded(&held);
    match open.count_ones() {
        0 => Some(Ready {
            key: held.key,
            missing: None,
        }),
        1 => Some(Ready {
            key: held.key,
            missing: Some(position_of(&held, open.trailing_zeros())),
        }),
        _ => None,
    }
}
