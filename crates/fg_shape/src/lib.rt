//! Shapes of parity equations: which media datagrams one parity datagram protects.
#![tactic(auto)]

ghost use Rattle.std.specs.Prelude.{◌≡◌, ◌↔◌, ◌<◌, ◌≤◌, All, Contains, IsTrue, slice_index};
ghost use Rattle.fg_shape.specs.Shape.{position_limit, slots_of, IsShape};

mod encoding;
mod kind;
pub mod laws;
mod layouts;
#[cfg(test)]
mod tests;

pub use encoding::{Drops, Losses, Settings};
pub use kind::{Kind, LAST_PORT};
pub use layouts::{Ends, Layout, LayoutFault};

/// The shape of a parity equation (SMPTE ST 2022-1, the FEC header's Offset and NA fields).
#[derive(Clone, Copy, PartialEq, Eq)]
pub struct Shape {
    /// How far each slot is from the one before, in positions.
    pub offset: u8,
    /// The number of slots.
    pub na: u8,
}

/// Whether a shape is one that is read: an offset of 1 to 20, 1 to 20 slots, and at most 99
/// positions from the first slot to the last.
pub fn shape_ok(shape: Shape) -> bool
    ensures { IsTrue result ↔ IsShape shape.offset shape.na }
{
    if shape.offset < 1 || shape.offset > 20 || shape.na < 1 || shape.na > 20 {
        return false;
    }
    u16::from(shape.na - 1) * u16::from(shape.offset) <= 99
}

/// The position of slot `j` of the equation with this base, counted from 0.
pub fn slot(base: u64, shape: Shape, j: u8) -> u64
    requires shape { IsShape shape.offset shape.na }
    requires base { base ≤ position_limit }
    requires number { j < shape.na }
    ensures { result ≡ slice_index (slots_of base shape.offset shape.na) j }
{
    base + u64::from(j) * u64::from(shape.offset)
}

/// Whether a position is one of the slots of the equation with this base.
pub fn contains(base: u64, shape: Shape, slot: u64) -> bool
    requires shape { IsShape shape.offset shape.na }
    requires base { base ≤ position_limit }
    ensures { IsTrue result ↔ Contains (slots_of base shape.offset shape.na) slot }
{
    if slot < base || slot > last(base, shape) {
        return false;
    }
    (slot - base) % u64::from(shape.offset) == 0
}

/// The greatest slot of the equation with this base.
pub fn last(base: u64, shape: Shape) -> u64
    requires shape { IsShape shape.offset shape.na }
    requires base { base ≤ position_limit }
    ensures slot { Contains (slots_of base shape.offset shape.na) result }
    ensures greatest { All (λ slot. slot ≤ result) (slots_of base shape.offset shape.na) }
{
    base + u64::from(shape.na - 1) * u64::from(shape.offset)
}
